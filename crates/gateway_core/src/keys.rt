//! What is kept of a journey and of a situation beside its bytes, and by which key.
use service_day::Day;
use timetable::TripNo;

/// A journey: a trip on a service day. Journeys stand in the order of days, and of a day in that of trip numbers.
#[derive(Clone, Copy, Debug, PartialEq, Eq, PartialOrd, Ord)]
pub struct JourneyKey {
    /// The service day.
    pub day: Day,
    /// The trip.
    pub trip: TripNo,
}

/// What is kept of a situation number: which version it is (SIRI 2.0, Version), and whether it is served.
#[derive(Clone, Copy, Debug, PartialEq, Eq)]
pub struct Edition {
    /// The version.
    pub version: u64,
    /// Whether its alert is in the feed.
    pub served: bool,
}
