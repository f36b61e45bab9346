//! A stop of a trip.
use crate::numbers::StopNo;

/// A stop of a trip, with its times in seconds from the start of the service day (GTFS Schedule reference,
/// stop_times.txt).
#[derive(Clone, Copy, Debug, PartialEq, Eq)]
pub struct StopRow {
    /// Its place in the trip.
    pub sequence: u32,
    /// The stop.
    pub stop: StopNo,
    /// The arrival.
    pub arrival: u32,
    /// The departure.
    pub departure: u32,
}
