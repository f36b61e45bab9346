//! What a connection asks for.
use gw_base::Kind;
use http_talk::{Refusal, Resource};

/// What a connection asks for, once its input was read as far as it is part of the request (RFC 9112).
#[derive(Clone, Copy, Debug, PartialEq, Eq)]
pub enum Asked {
    /// A GET of what is served.
    Get(Resource),
    /// A POST of a body of a kind, which was taken as it arrived.
    Post(Kind),
    /// The request is refused.
    Refused(Refusal),
    /// There is no memory for the body of a POST.
    NoRoom,
    /// A read failed.
    Lost,
}
