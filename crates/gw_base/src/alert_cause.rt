//! The numbers of an alert's cause (GTFS Realtime, Alert.Cause) that are written, and the last one.

/// Nothing is known of the cause.
pub const UNKNOWN_CAUSE: i32 = 1;

/// Something that the others don't name.
pub const OTHER_CAUSE: i32 = 2;

/// Something doesn't work.
pub const TECHNICAL_PROBLEM: i32 = 3;

/// The weather.
pub const WEATHER: i32 = 8;

/// Somebody needs a doctor; the greatest number that there is.
pub const MEDICAL_EMERGENCY: i32 = 12;
