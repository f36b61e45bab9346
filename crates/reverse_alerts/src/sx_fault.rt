//! Why the alerts of a feed have no SIRI delivery.
use thiserror::Error;

/// Why the alerts of a feed have no SIRI delivery.
#[derive(Clone, Copy, Debug, PartialEq, Eq, Error)]
pub enum SxFault {
    /// The feed is a differential one, which says nothing of the alerts that it leaves out.
    #[error("the feed is differential")]
    Differential,
    /// Want of memory.
    #[error("out of memory")]
    Memory,
}
