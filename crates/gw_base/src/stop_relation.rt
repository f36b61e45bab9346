//! The numbers of a stop's schedule_relationship (GTFS Realtime, StopTimeUpdate.ScheduleRelationship) that are read or
//! written.

/// The stop is served, at the times of the update.
pub const SCHEDULED: i32 = 0;

/// The stop is left out.
pub const SKIPPED: i32 = 1;

/// Nothing is known of the stop.
pub const NO_DATA: i32 = 2;
