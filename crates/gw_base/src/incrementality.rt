//! The numbers of a feed's incrementality (GTFS Realtime, FeedHeader.Incrementality).

/// The feed says all that there is to say.
pub const FULL_DATASET: i32 = 0;

/// The feed says only what has changed.
pub const DIFFERENTIAL: i32 = 1;
