//! What a journey is read over.
use crate::context::DatedTrip;
use timetable::Timetable;

/// A trip on a service day on which it runs, with the timetable that it is of.
#[derive(Clone, Copy)]
pub struct TripRun<'a> {
    /// The timetable.
    pub table: &'a Timetable,
    /// The trip on the day.
    pub dated: DatedTrip<'a>,
}
