//! The days of a service by weekday. The function meets `specs/Services.antt`.
ghost use Rattle.std.specs.Prelude.{◌≡◌};
ghost use Rattle.timetable.specs.Services as spec;

use service_day::Day;

/// On which weekdays a service runs, from Monday on, and from which day to which (GTFS Schedule reference,
/// calendar.txt).
#[derive(Clone, Copy, Debug)]
pub struct Calendar {
    /// Whether it runs on each weekday, from Monday on.
    pub weekdays: [bool; 7],
    /// The first day.
    pub start: Day,
    /// The last day, which is one on which it runs.
    pub end: Day,
}

impl Calendar {
    /// Whether it has the day.
    pub fn has_day(&self, day: Day) -> bool
        ensures { result ≡ spec.has_day self.now day }
    {
        match self.weekdays.as_slice().get(day.weekday() as usize) {
            Some(runs) => self.start.number() <= day.number()
                && day.number() <= self.end.number()
                && *runs,
            None => false,
        }
    }
}
