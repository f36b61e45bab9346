//! What the bytes of a whole head ask for. The definitions are those of `specs/Asked.antt`.
ghost use Rattle.std.specs.Prelude.{◌≡◌, ◌+◌, ◌≤◌, length, map, All};
ghost use Rattle.httparse.specs.Spans.{IsHeaderWithin, header_bytes};
ghost use Rattle.http_talk.specs.Asked as asked;
ghost use Rattle.http_talk.specs.Ends.{IsHeadLength, line_count};

use crate::ends::line_count;
use crate::length::length_of;
use crate::refusal::Refusal;
use crate::target::{Action, Head, Target, target_of};
use httparse::Status;
use httparse::spans::{EMPTY_HEADER_SPAN, HeaderSpan, parse_request};

/// The most header lines that a head may have.
const MOST_FIELDS: usize = 64;

/// The most lines, with the request line and the empty line.
const MOST_LINES: usize = MOST_FIELDS + 2;

// What is asked, once the target is known.
fn with_fields(bytes: &[u8], target: Target, headers: &[HeaderSpan]) -> Result<Head, Refusal>
    requires { All (IsHeaderWithin (length bytes.now)) headers.now }
    ensures { result ≡ asked.with_target target (map (header_bytes bytes.now) headers.now) }
{
    match target.action() {
        Action::Get(_) => Ok(Head { target, length: 0 }),
        Action::Post(_) => match length_of(bytes, headers) {
            Ok(length) => Ok(Head { target, length }),
            Err(why) => Err(why),
        },
    }
}

// What a head of this method, this target and these header lines asks for.
fn asked(
    bytes: &[u8],
    method: &[u8],
    target: &[u8],
    headers: &[HeaderSpan],
) -> Result<Head, Refusal>
    requires { All (IsHeaderWithin (length bytes.now)) headers.now }
    ensures { result
        ≡ asked.asked method.now target.now (map (header_bytes bytes.now) headers.now) }
{
    match target_of(method, target) {
        Ok(target) => with_fields(bytes, target, headers),
        Err(why) => Err(why),
    }
}

// What a head asks for that has few enough lines.
fn parsed(bytes: &[u8]) -> Result<Head, Refusal>
    requires { IsHeadLength bytes.now (length bytes.now) }
    ensures { line_count bytes.now ≤ 64 + 2 → asked.IsAnswer bytes.now result }
{
    let mut headers = [EMPTY_HEADER_SPAN; MOST_FIELDS];
    match parse_request(bytes, &mut headers) {
        Ok(Status::Complete(spans)) => asked(
            bytes,
            spans.method.of(bytes),
            spans.path.of(bytes),
            &headers[..spans.headers],
        ),
        Ok(Status::Partial) => Err(Refusal::Head),
        Err(_) => Err(Refusal::Head),
    }
}

/// What the bytes of a head ask for. Its lines are counted before it is parsed, once.
pub(crate) fn answer_of(bytes: &[u8]) -> Result<Head, Refusal>
    requires { IsHeadLength bytes.now (length bytes.now) }
    ensures { asked.IsAnswer bytes.now result }
{
    if line_count(bytes) > MOST_LINES {
        return Err(Refusal::TooManyFields);
    }
    parsed(bytes)
}
