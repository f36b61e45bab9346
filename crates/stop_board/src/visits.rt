//! The visits that journeys make at a stop. The functions meet `specs/Visits.antt`.
ghost use Rattle.std.specs.Prelude.{◌≡◌, IfOk};
ghost use Rattle.stop_board.specs.Visits as spec;

use gw_base::Moment;
use journey_model::{DatedReading, JourneyReading, StopReading};
use service_day::Day;
use std::alloc::{AllocError, Global};
use timetable::{StopNo, TripNo};

/// What a board is asked for (SIRI 2.0, StopMonitoringRequest: MonitoringRef, StartTime, PreviewInterval).
#[derive(Clone, Copy, Debug, PartialEq, Eq)]
pub struct Asked {
    /// The stop.
    pub stop: StopNo,
    /// The moment at which it begins.
    pub from: Moment,
    /// How many minutes it looks ahead.
    pub minutes: u32,
}

/// That a vehicle calls at the stop of a board (SIRI 2.0, MonitoredStopVisit).
#[derive(Clone, Copy, Debug, PartialEq, Eq)]
pub struct Visit {
    /// When it arrives, in seconds since 1970.
    pub arrival: i64,
    /// When it departs, in seconds since 1970.
    pub departure: i64,
    /// The service day of its journey.
    pub day: Day,
    /// The trip of its journey.
    pub trip: TripNo,
    /// The position of the call in the trip, from 0.
    pub position: usize,
    /// When its journey was recorded.
    pub recorded: Moment,
}

// Whether a call falls within the minutes of a board.
fn is_within(asked: &Asked, arrival: i64, departure: i64) -> bool
    ensures { result ≡ spec.is_within asked.now arrival departure }
{
    let begin = asked.from.secs();
    let end = begin + 60 * i64::from(asked.minutes);
    begin <= departure && arrival < end
}

// The visit at a position of a journey that was recorded at that moment, if there is one.
fn visit_at(
    asked: &Asked,
    journey: &DatedReading,
    recorded: Moment,
    position: usize,
    reading: &StopReading,
) -> Option<Visit>
    ensures { result ≡ spec.visit_at asked.now journey.now recorded position reading.now }
{
    match reading {
        StopReading::Absent | StopReading::Skipped => None,
        StopReading::Timed {
            arrival,
            departure,
            place,
        } => {
            if place.0 == asked.stop.0 && is_within(asked, *arrival, *departure) {
                return Some(Visit {
                    arrival: *arrival,
                    departure: *departure,
                    day: journey.day,
                    trip: journey.trip,
                    position,
                    recorded,
                });
            }
            None
        }
    }
}

// The visits of a journey that was recorded at that moment and whose stops read so.
fn visits_among(
    alloc: Global,
    asked: &Asked,
    journey: &DatedReading,
    recorded: Moment,
    readings: &[StopReading],
) -> Result<Vec<Visit>, AllocError>
    ensures { IfOk result (λ visits. visits.items
        ≡ spec.visits_among asked.now journey.now recorded readings.now) }
{
    let mut visits = Vec::new(alloc);
    for (position, reading) in readings.iter().enumerate() {
        if let Some(visit) = visit_at(asked, journey, recorded, position, reading) {
            visits.push(visit)?;
        }
    }
    Ok(visits)
}

/// The visits of a journey.
pub(crate) fn visits_of(
    alloc: Global,
    asked: &Asked,
    journey: &DatedReading,
) -> Result<Vec<Visit>, AllocError>
    ensures { IfOk result (λ visits. visits.items ≡ spec.visits_of asked.now journey.now) }
{
    let Some(recorded) = journey.recorded else {
        return Ok(Vec::new(alloc));
    };
    match &journey.reading {
        JourneyReading::Cancelled => Ok(Vec::new(alloc)),
        JourneyReading::Stops(readings) => {
            visits_among(alloc, asked, journey, recorded, readings.as_slice())
        }
    }
}
