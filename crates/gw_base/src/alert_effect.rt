//! The numbers of an alert's effect (GTFS Realtime, Alert.Effect) that are written.

/// There is no service.
pub const NO_SERVICE: i32 = 1;

/// Delays are long.
pub const SIGNIFICANT_DELAYS: i32 = 3;

/// Vehicles go another way.
pub const DETOUR: i32 = 4;

/// There is more service than planned.
pub const ADDITIONAL_SERVICE: i32 = 5;

/// The service is another than planned.
pub const MODIFIED_SERVICE: i32 = 6;

/// Nothing is known of the effect.
pub const UNKNOWN_EFFECT: i32 = 8;
