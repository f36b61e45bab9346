//! The head of an answer. The definition is `answer_head` of `specs/Answers.antt`.
ghost use Rattle.std.specs.Prelude.{◌≡◌, ◌++◌, ◌+◌, ◌≤◌, codes, decimal, length};
ghost use Rattle.http_talk.specs.Answers as answers;

use crate::refusal::{Allow, Refusal};
use crate::status::Status;
use gw_base::ShortText;
use itoa::Buffer;

/// What is answered to a request.
#[derive(Clone, Copy, Debug, PartialEq, Eq)]
pub enum Answer {
    /// A feed, in protobuf.
    Feed,
    /// A SIRI text or a report, in JSON.
    Json,
    /// A refusal, whose text is the body.
    Refused(Refusal),
}

/// The head of an answer. A contract sees its bytes.
pub type HeadBytes = ShortText;

// The status.
fn status(answer: &Answer) -> Status
    ensures code { result.code ≡ (answers.status answer.now).code }
    ensures reason { result.reason.now ≡ (answers.status answer.now).reason }
    ensures short { length result.reason.now ≤ 40 }
{
    match answer {
        Answer::Feed | Answer::Json => Status {
            code: 200,
            reason: "OK",
        },
        Answer::Refused(refusal) => refusal.status(),
    }
}

// The type of the body.
fn content_type(answer: &Answer) -> &'static str
    ensures value { result.now ≡ answers.content_type answer.now }
    ensures short { length result.now ≤ 25 }
{
    match answer {
        Answer::Feed => "application/x-protobuf",
        Answer::Json => "application/json",
        Answer::Refused(_) => "text/plain; charset=utf-8",
    }
}

// The line of the methods that a target has, where the answer is of a refusal for its method.
fn allow_line(answer: &Answer) -> &'static str
    ensures value { result.now ≡ answers.allow_line answer.now }
    ensures short { length result.now ≤ 18 }
{
    match answer {
        Answer::Refused(Refusal::Method(Allow::GetPost)) => "Allow: GET, POST\r\n",
        Answer::Refused(Refusal::Method(Allow::Post)) => "Allow: POST\r\n",
        _ => "",
    }
}

// Writes a line of a name and a value.
fn put_line(text: &mut ShortText, name: &str, value: &str)
    requires { length text.old + length name.now + length value.now + 2 ≤ 256 }
    ensures bytes { text.new ≡ text.old ++ answers.line (name.now ++ value.now) }
    ensures len { length text.new
        ≡ length text.old + length name.now + length value.now + 2 }
{
    text.push(name);
    text.push(value);
    text.push("\r\n");
}

// The line of a status.
fn status_line(status: Status) -> ShortText
    requires { length status.reason.now ≤ 40 }
    ensures value { result
        ≡ answers.line (codes "HTTP/1.1 " ++ decimal status.code ++ codes " " ++ status.reason.now) }
    ensures short { length result ≤ 92 }
{
    let mut text = ShortText::of_number_and_word("HTTP/1.1 ", status.code as u64, status.reason);
    text.push("\r\n");
    text
}

// The head of these parts.
fn head_of(status: Status, content_type: &str, size: u64, allow: &str) -> HeadBytes
    requires status { length status.reason.now ≤ 40 }
    requires kind { length content_type.now ≤ 25 }
    requires allow { length allow.now ≤ 18 }
    ensures { result ≡ answers.head_text (record { code = status.code; reason = status.reason.now }) content_type.now
        size allow.now }
{
    let mut digits = Buffer::new();
    let mut text = status_line(status);
    put_line(&mut text, "Content-Type: ", content_type);
    put_line(&mut text, "Content-Length: ", digits.format(size));
    text.push(allow);
    put_line(&mut text, "Connection: ", "close");
    put_line(&mut text, "", "");
    text
}

/// The head of an answer whose body has `len` bytes (RFC 9112, section 4). Takes no memory.
pub fn answer_head(answer: &Answer, len: u64) -> HeadBytes
    ensures { result ≡ answers.answer_head answer.now len }
{
    head_of(
        status(answer),
        content_type(answer),
        len,
        allow_line(answer),
    )
}
