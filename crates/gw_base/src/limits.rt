//! Limits that several crates hold to, which are those of `specs/Limits.antt`.

/// The most bytes that a delivery or a feed may have: 16 MiB.
pub const BODY_LIMIT: u64 = 16_777_216;

/// The last moment, in seconds since 1970-01-01T00:00:00Z: the last second of 9998.
pub const LAST_MOMENT: i64 = 253_370_764_799;
