//! Why a request is refused.
use gw_base::{Member, Required, WireKind};

/// The methods that a target has, where a request has another (RFC 9110, section 15.5.6).
#[derive(Clone, Copy, Debug, PartialEq, Eq)]
pub enum Allow {
    GetPost,
    Post,
}

/// Why the body of a request is neither a delivery nor a feed that is taken. Places are bytes from its first one.
#[derive(Clone, Copy, Debug, PartialEq, Eq)]
pub enum BodyFault {
    /// The body is no JSON text.
    NotJson,
    /// The body is no delivery: this member is missing or has a wrong form.
    NotDelivery(Member),
    /// The body breaks at this place as a list of protobuf fields.
    Wire(u64, WireKind),
    /// The message at this place lacks a field that is required.
    MissingField(u64, Required),
    /// The text at this place isn't UTF-8.
    NotText(u64),
    /// The entity at this place is too long.
    EntityTooLong(u64),
    /// The feed is no full dataset.
    Differential,
    /// The feed has this many calls, which are too many.
    TooManyCalls(u64),
}

/// Why a request is refused.
#[derive(Clone, Copy, Debug, PartialEq, Eq)]
pub enum Refusal {
    /// Status 400: the input has no request head.
    Head,
    /// Status 400: the input ends inside the body.
    Cut,
    /// Status 400: `Content-Length` is no number, or has two values.
    Length,
    /// Status 404: nothing is served at the target.
    NotFound,
    /// Status 405: the target has other methods.
    Method(Allow),
    /// Status 411: the length of the body isn't said.
    NeedLength,
    /// Status 413: the body is too long.
    TooLarge,
    /// Status 431: the head is too long, or has too many lines.
    TooManyFields,
    /// Status 500: the clock failed.
    Clock,
    /// Status 500: the body couldn't be kept in the journal.
    Journal,
    /// Status 500: the journal has no room for the body.
    JournalFull,
    /// Status 503: want of memory.
    Memory,
    /// Status 400: the body isn't taken.
    Body(BodyFault),
}
