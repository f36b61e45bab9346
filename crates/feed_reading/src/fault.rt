//! Why bytes are no feed.
use gw_base::Required;
use thiserror::Error;
use wire_fields::WireFault;

/// Why bytes are no feed, with the place in bytes from the feed's first one. Of several faults the one of least place
/// is told, and at one place the first in this order.
#[derive(Clone, Copy, Debug, PartialEq, Eq, Error)]
pub enum FeedFault {
    /// The length of an entity is over 1,048,576 bytes; at its tag.
    #[error("the entity at byte {0} is too long")]
    EntityTooLong(u64),
    /// The feed, or a known message in it, is no list of fields.
    #[error("the bytes break at byte {}", .0.at)]
    Wire(WireFault),
    /// A known text is not UTF-8; at its tag.
    #[error("the text at byte {0} is not UTF-8")]
    NotText(u64),
    /// A field that has to be there is missing; at the first tag of its message, or for the header and its version at
    /// the end of the feed.
    #[error("the message at byte {} has no {}", .0, .1.name())]
    MissingField(u64, Required),
    /// Want of memory.
    #[error("out of memory")]
    Memory,
}
