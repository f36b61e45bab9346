//! The numbers of a trip's schedule_relationship (GTFS Realtime, TripDescriptor.ScheduleRelationship) that are read or
//! written.

/// The trip runs as the schedule has it.
pub const SCHEDULED: i32 = 0;

/// The trip doesn't run.
pub const CANCELED: i32 = 3;
