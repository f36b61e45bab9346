//! What is counted of a sample.

/// What the feed of a sample says of all stops of all trips on the sample's day, and how large it is.
#[derive(Clone, Copy, Debug, PartialEq, Eq)]
pub struct SampleCounts {
    /// The stops that are skipped.
    pub skipped: u64,
    /// The stops of which nothing is known.
    pub absent: u64,
    /// The stops with times.
    pub timed: u64,
    /// The feed's updates of stops (GTFS Realtime, StopTimeUpdate).
    pub updates: u64,
    /// The feed's bytes.
    pub bytes: u64,
}
