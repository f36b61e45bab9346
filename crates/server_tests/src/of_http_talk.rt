//! A head that comes in pieces beside the plain reader of the whole input, how long a long one takes, and the answers
//! that no request of `gateway_cases` has.
ghost use Rattle.std.specs.Prelude.{◌<◌};

use gw_base::{Kind, WireKind};
use http_talk::*;
use std::alloc::{AllocError, Global};
use std::process::Abort;
use std::test::Fail;

/// What is asked for, or a refusal.
type Want = Result<WholeRequest<'static>, Refusal>;

/// A request to which a body belongs, and more behind it.
const POST: &[u8] = b"POST /gtfs-rt HTTP/1.1\nContent-Length: 05\n\n12345more";

const POSTED: Want = Ok(WholeRequest::Post(Kind::Feed, b"12345"));

/// Whether two requests are the same.
fn is_same(one: &WholeRequest<'_>, other: &WholeRequest<'_>) -> bool {
    match (one, other) {
        (WholeRequest::Get(what), WholeRequest::Get(wanted)) => *what == *wanted,
        (WholeRequest::Post(kind, body), WholeRequest::Post(wanted, bytes)) => {
            *kind == *wanted && *body == *bytes
        }
        _ => false,
    }
}

/// Whether that is what was wanted.
fn is_wanted(asked: &Result<WholeRequest<'_>, Refusal>, want: &Want) -> bool {
    match (asked, want) {
        (Ok(asked), Ok(wanted)) => is_same(asked, wanted),
        (Err(why), Err(wanted)) => *why == *wanted,
        _ => false,
    }
}

/// What is asked where the head is followed by the rest.
fn with_rest<'a>(head: Head, rest: &'a [u8]) -> Result<WholeRequest<'a>, Refusal> {
    match head.target.action() {
        Action::Get(what) => Ok(WholeRequest::Get(what)),
        Action::Post(kind) => {
            if head.length > rest.len() as u64 {
                return Err(Refusal::Cut);
            }
            let (body, _) = rest.split_at(head.length as usize);
            Ok(WholeRequest::Post(kind, body))
        }
    }
}

/// What an input asks for that comes in pieces of a size.
fn in_pieces<'a>(
    reader: &mut HeadReader,
    input: &'a [u8],
    size: usize,
) -> Result<WholeRequest<'a>, Refusal>
    requires { 0 < size }
{
    let mut rest = input;
    while rest.len() > 0 {
        let (piece, later) = rest.split_at(size.min(rest.len()));
        match reader.feed(piece) {
            Fed::More => rest = later,
            Fed::Whole { used, head } => {
                let (_, after) = rest.split_at(used);
                return with_rest(head, after);
            }
            Fed::Refused(why) => return Err(why),
        }
    }
    let why = reader.end();
    reader.clear();
    Err(why)
}

#[test]
fn a_request_is_read_in_any_pieces(rt: HostRuntime) -> Result<(), Fail> {
    assert!(rt; is_wanted(&request_of(POST), &POSTED));
    let mut reader = HeadReader::make(rt.alloc())?;
    for size in 1..60_usize {
        assert!(rt;
            is_wanted(&in_pieces(&mut reader, POST, size), &POSTED),
            "by {size}"
        );
    }
    Ok(())
}

/// A head of 16,384 bytes.
fn longest(alloc: Global) -> Result<Vec<u8>, AllocError> {
    let mut input = Vec::from_slice(alloc, b"GET /gtfs-rt HTTP/1.1\r\nA: ")?;
    input.resize(16_380, b'a')?;
    input.extend_from_slice(b"\r\n\r\n")?;
    Ok(input)
}

const SHOWN: Want = Ok(WholeRequest::Get(Resource::Feed));

/// How often a head of 16,384 bytes comes byte by byte: a reader that looked at all bytes so far at each byte would be
/// at work for minutes, and a test has one.
const HEADS: usize = 2_000;

#[test]
fn a_head_byte_by_byte_takes_time_in_line_with_its_length(rt: HostRuntime) -> Result<(), Fail> {
    let mut reader = HeadReader::make(rt.alloc())?;
    let input = longest(rt.alloc())?;
    for _ in 0..HEADS {
        let asked = in_pieces(&mut reader, input.as_slice(), 1);
        assert!(rt; is_wanted(&asked, &SHOWN));
    }
    Ok(())
}

/// The answer where memory is wanted, its head and its text.
const NO_MEMORY: (&str, &str) = (
    "HTTP/1.1 503 Service Unavailable\r\nContent-Type: text/plain; charset=utf-8\r\n\
     Content-Length: 12\r\nConnection: close\r\n\r\n",
    "H503 Memory\n",
);

#[test]
fn want_of_memory_is_answered(rt: HostRuntime) {
    let (head, text) = NO_MEMORY;
    let told = refusal_text(&Refusal::Memory);
    let told = told.as_slice();
    let made = answer_head(&Answer::Refused(Refusal::Memory), told.len() as u64);
    assert!(rt; told == text.as_bytes());
    assert!(rt; made.as_slice() == head.as_bytes());
}

/// Faults of bodies with numbers that no body has.
static FAULTS: [(BodyFault, &str); 2] = [
    (
        BodyFault::Wire(u64::MAX, WireKind::Truncated),
        "H400 Wire 18446744073709551615 Truncated\n",
    ),
    (
        BodyFault::TooManyCalls(400_001),
        "H400 TooManyCalls 400001\n",
    ),
];

/// The head of a feed of the greatest length.
const GREATEST: &str = "HTTP/1.1 200 OK\r\nContent-Type: application/x-protobuf\r\n\
     Content-Length: 18446744073709551615\r\nConnection: close\r\n\r\n";

/// Each fault of a body has that text.
fn each_text(rt: &impl Abort, faults: &[(BodyFault, &str)]) {
    for (fault, text) in faults {
        let told = refusal_text(&Refusal::Body(*fault));
        assert!(rt; told.as_slice() == text.as_bytes(), "{text}");
    }
}

#[test]
fn the_greatest_numbers_have_their_texts(rt: HostRuntime) {
    each_text(&rt, &FAULTS);
    let made = answer_head(&Answer::Feed, u64::MAX);
    assert!(rt; made.as_slice() == GREATEST.as_bytes());
}
