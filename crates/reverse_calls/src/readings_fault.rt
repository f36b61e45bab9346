//! Why readings have no SIRI delivery.
use thiserror::Error;

/// Why the readings of a feed have no SIRI delivery.
#[derive(Clone, Copy, Debug, PartialEq, Eq, Error)]
pub enum ReadingsFault {
    /// The delivery would have this many calls, which is over 400,000.
    #[error("the feed's journeys have {0} calls")]
    TooManyCalls(u64),
    /// Want of memory.
    #[error("out of memory")]
    Memory,
}
