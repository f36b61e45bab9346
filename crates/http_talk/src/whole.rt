//! The request of a whole input, read as its definition says it, prefix by prefix. It is slow on many empty lines, and
//! serves to compare: a connection is read by `HeadReader`.
ghost use Rattle.std.specs.Prelude.{◌≡◌, ◌≤◌, Ok, MatchOption};
ghost use Rattle.http_talk.specs.Ends.{IsHeadLength, HasNoEnd, head_limit};
ghost use Rattle.http_talk.specs.Request.{IsRequest, Refused, with_body};
ghost use Rattle.http_talk.specs.Whole.{told};

use crate::ends::{HEAD_LIMIT, ends_head};
use crate::head::answer_of;
use crate::refusal::Refusal;
use crate::target::{Action, Head, Resource};
use gw_base::Kind;

/// What a whole input asks for: what is served, or that a body of a kind is taken.
#[derive(Clone, Copy, Debug)]
pub enum WholeRequest<'a> {
    Get(Resource),
    Post(Kind, &'a [u8]),
}

// The length of the input's head.
fn head_len(input: &[u8]) -> Option<usize>
    ensures { MatchOption result (HasNoEnd input.now)
        (λ count. IsHeadLength input.now count × (count ≤ head_limit)) }
{
    for count in 0..HEAD_LIMIT.min(input.len()) + 1 {
        let (front, _) = input.split_at(count);
        if ends_head(front) {
            return Some(count);
        }
    }
    None
}

/// What is asked, with the body, where the head is followed by the rest.
pub(crate) fn with_rest<'a>(head: Head, rest: &'a [u8]) -> Result<WholeRequest<'a>, Refusal>
    ensures { told result ≡ with_body (Ok head) rest.now }
{
    match head.target.action() {
        Action::Get(resource) => Ok(WholeRequest::Get(resource)),
        Action::Post(kind) => {
            if head.length > rest.len() as u64 {
                return Err(Refusal::Cut);
            }
            let (body, _) = rest.split_at(head.length as usize);
            Ok(WholeRequest::Post(kind, body))
        }
    }
}

/// What a connection's whole input asks for (RFC 9112). Takes no memory.
pub fn request_of<'a>(input: &'a [u8]) -> Result<WholeRequest<'a>, Refusal>
    ensures { IsRequest input.now (told result) }
{
    let Some(count) = head_len(input) else {
        return Err(no_head(input));
    };
    let (head, rest) = input.split_at(count);
    match answer_of(head) {
        Ok(head) => with_rest(head, rest),
        Err(why) => Err(why),
    }
}

// The refusal of an input without a head.
fn no_head(input: &[u8]) -> Refusal
    requires { HasNoEnd input.now }
    ensures { IsRequest input.now (Refused result) }
{
    if input.len() < HEAD_LIMIT {
        Refusal::Head
    } else {
        Refusal::TooManyFields
    }
}
