//! The days of services. The function meets `specs/Services.antt`.
ghost use Rattle.std.specs.Prelude.{◌≡◌};
ghost use Rattle.timetable.specs.Services.{calendar_at, exception_at, runs_by};

use crate::calendar::Calendar;
use service_day::Day;
use std::collections::HashMap;

/// What is known of services by their numbers (GTFS Schedule reference, calendar.txt and calendar_dates.txt).
#[derive(Drop)]
pub struct Services {
    /// The calendar of each service that has one.
    pub calendars: HashMap<u32, Calendar>,
    /// Of a service and the number of a day whether that day is added or removed.
    pub exceptions: HashMap<(u32, i32), bool>,
}

impl Services {
    /// Whether a service runs on a day.
    pub fn run(&self, service: u32, day: Day) -> bool
        ensures { result ≡ runs_by (exception_at self.now.exceptions service day)
            (calendar_at self.now.calendars service) day }
    {
        if let Some(added) = self.exceptions.get(&(service, day.number())) {
            return *added;
        }
        match self.calendars.get(&service) {
            Some(calendar) => calendar.has_day(day),
            None => false,
        }
    }
}
