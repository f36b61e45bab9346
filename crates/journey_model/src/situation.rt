//! Situations: what a SIRI situation exchange says of routes, stops and journeys.
use gw_base::{List, Text};
use service_day::Day;
use timetable::{RouteNo, StopNo, TripNo};

/// A span of time in which a situation holds (SIRI 2.0, ValidityPeriod), in whole seconds since 1970.
#[derive(Clone, Copy, Debug, PartialEq, Eq)]
pub struct ValidPeriod {
    /// When it begins, where that is known.
    pub start: Option<u64>,
    /// When it ends, where that is known.
    pub end: Option<u64>,
}

/// What a situation affects (SIRI 2.0, AffectedLine, AffectedStopPoint, AffectedVehicleJourney).
#[derive(Clone, Copy, Debug, PartialEq, Eq)]
pub enum Ref {
    /// A route.
    Route(RouteNo),
    /// A stop.
    Stop(StopNo),
    /// A trip on a service day.
    Journey(TripNo, Day),
}

/// A situation (SIRI 2.0, PtSituationElement), as it is read over a timetable.
#[derive(Debug, Drop)]
pub struct Situation {
    /// Its number, by which it is known.
    pub number: Text,
    /// Its version: of one number the greatest counts.
    pub version: u64,
    /// Whether it is served: it is neither closed nor a draft.
    pub served: bool,
    /// When it holds; at all times where there is none.
    pub periods: List<ValidPeriod>,
    /// What it affects, in the order of the delivery.
    pub refs: List<Ref>,
    /// The cause, as a number of GTFS Realtime.
    pub cause: i32,
    /// The effect, as a number of GTFS Realtime.
    pub effect: i32,
    /// A short text on it.
    pub summary: Option<Text>,
    /// A longer text on it.
    pub description: Option<Text>,
}
