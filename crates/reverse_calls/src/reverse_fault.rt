//! Why a feed has no SIRI delivery.
use thiserror::Error;

/// Why a feed has no SIRI delivery.
#[derive(Clone, Copy, Debug, PartialEq, Eq, Error)]
pub enum ReverseFault {
    /// The feed is a differential one, which says nothing of the journeys that it leaves out.
    #[error("the feed is differential")]
    Differential,
    /// The delivery would have this many calls, which is over 400,000.
    #[error("the feed's journeys have {0} calls")]
    TooManyCalls(u64),
    /// Want of memory.
    #[error("out of memory")]
    Memory,
}
