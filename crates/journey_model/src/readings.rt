//! How stops and journeys read. The definitions are those of `specs/Readings.antt`.
ghost use Rattle.std.specs.Prelude.{◌≡◌};
ghost use Rattle.journey_model.specs.Readings as spec;

use gw_base::{List, Moment};
use service_day::{Day, Instant};
use timetable::{StopNo, TripNo};

/// How a stop of a journey reads.
#[derive(Clone, Copy, Debug, PartialEq, Eq)]
pub enum StopReading {
    /// Nothing is known of it.
    Absent,
    /// The journey doesn't stop there.
    Skipped,
    /// The journey stops there, at these times in seconds since 1970.
    Timed {
        /// When it arrives.
        arrival: i64,
        /// When it departs.
        departure: i64,
        /// The stop at which the vehicle calls: the scheduled one, or another of its station.
        place: StopNo,
    },
}

impl StopReading {
    /// Whether nothing is known of the stop.
    pub fn is_absent(&self) -> bool
        ensures { result ≡ spec.is_absent self.now }
    {
        matches!(self, StopReading::Absent)
    }

    /// Whether the journey doesn't stop there.
    pub fn is_skipped(&self) -> bool
        ensures { result ≡ spec.is_skipped self.now }
    {
        matches!(self, StopReading::Skipped)
    }
}

/// How a journey reads.
#[derive(Debug, Drop)]
pub enum JourneyReading {
    /// It doesn't run: it is skipped at every stop.
    Cancelled,
    /// How each of its stops reads, in order.
    Stops(List<StopReading>),
}

/// What was recorded of a journey.
#[derive(Debug, Drop)]
pub struct JourneyRecord {
    /// The trip.
    pub trip: TripNo,
    /// The service day.
    pub day: Day,
    /// When it was recorded.
    pub at: Instant,
    /// How the journey reads.
    pub reading: JourneyReading,
}

/// How a feed reads a journey.
#[derive(Debug, Drop)]
pub struct DatedReading {
    /// The trip.
    pub trip: TripNo,
    /// The service day.
    pub day: Day,
    /// When it was recorded, where the feed says so.
    pub recorded: Option<Moment>,
    /// How the journey reads.
    pub reading: JourneyReading,
}
