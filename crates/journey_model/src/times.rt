//! The times of a stop against the planned ones, in seconds since 1970. The functions meet `specs/Runs.antt` and
//! `specs/Times.antt`.
ghost use Rattle.std.specs.Prelude.{◌≡◌, ◌+ℤ◌, ◌-ℤ◌};
ghost use Rattle.std.specs.Option.{ForSome};
ghost use Rattle.gw_base.specs.Moments.{IsMoment};
ghost use Rattle.journey_model.specs.Times as spec;
ghost use Rattle.timetable.specs.Planned.{planned};

use crate::context::DatedTrip;
use crate::fault::Fault;
use timetable::StopRow;

// The longest delay that is read, either way, in seconds: a week.
const LONGEST_DELAY: i128 = 604_800;

/// The planned arrival and departure of a stop of a trip whose service day starts at that second, in seconds since 1970
/// (GTFS Schedule reference, stop_times.txt: arrival_time, departure_time).
pub fn planned_times(start: i64, row: &StopRow) -> (i64, i64)
    requires { IsMoment start }
    ensures value { result ≡ planned start row.now }
    ensures range { spec.ArePlanned result }
{
    (
        start + i64::from(row.arrival),
        start + i64::from(row.departure),
    )
}

impl DatedTrip<'_> {
    ghost use Rattle.std.specs.Prelude.{◌≡◌, pos, slice_get};
    ghost use Rattle.std.specs.Option.{option_map_or};
    ghost use Rattle.journey_model.specs.Times.{ArePlanned};
    ghost use Rattle.timetable.specs.Planned.{planned};

    /// The planned arrival and departure of a stop of the trip, in seconds since 1970.
    pub fn planned_times(&self, row: &StopRow) -> (i64, i64)
        ensures value { result ≡ planned self.now.start row.now }
        ensures range { ArePlanned result }
    {
        planned_times(self.start, row)
    }

    /// The planned arrival and departure at a position of the trip, in seconds since 1970; zeros at no position of it.
    pub fn planned_at(&self, position: u32) -> (i64, i64)
        ensures value { result
            ≡ option_map_or (planned self.now.start) (slice_get self.now.stops.now position) (pos 0, pos 0) }
        ensures range { ArePlanned result }
    {
        match self.stops.get(position as usize) {
            Some(row) => self.planned_times(row),
            None => (0, 0),
        }
    }
}

// The fault of an event that is over a week from the planned time, in the call or the update of that number.
fn event_fault(number: u64, planned: i64, time: Option<i64>) -> Option<Fault>
    ensures { result ≡ spec.event_fault number planned time }
{
    let Some(time) = time else {
        return None;
    };
    let delay = time as i128 - planned as i128;
    if -LONGEST_DELAY <= delay && delay <= LONGEST_DELAY {
        None
    } else {
        Some(Fault::DelayRange(number, delay))
    }
}

/// The first fault of two events that are over a week from the planned times, in the call or the update of that number.
pub fn delay_fault(
    number: u64,
    planned: (i64, i64),
    arrival: Option<i64>,
    departure: Option<i64>,
) -> Option<Fault>
    ensures { result ≡ spec.delay_fault number planned arrival departure }
{
    match event_fault(number, planned.0, arrival) {
        Some(fault) => Some(fault),
        None => event_fault(number, planned.1, departure),
    }
}

// A planned time, by as much later as a time is than the other planned one.
fn moved(planned: i64, time: i64, other: i64) -> i64
    requires planned_in { spec.IsPlanned planned }
    requires time_in { spec.IsTime time }
    requires other_in { spec.IsPlanned other }
    ensures { result ≡ planned +ℤ (time -ℤ other) }
{
    planned + (time - other)
}

/// Both times of a stop, where one is known: one event gives its delay to the other.
pub fn both_times(
    planned: (i64, i64),
    arrival: Option<i64>,
    departure: Option<i64>,
) -> Option<(i64, i64)>
    requires range { spec.ArePlanned planned }
    requires arrival { ForSome arrival spec.IsTime }
    requires departure { ForSome departure spec.IsTime }
    ensures { result ≡ spec.both_times planned arrival departure }
{
    match (arrival, departure) {
        (Some(arrival), Some(departure)) => Some((arrival, departure)),
        (Some(arrival), None) => Some((arrival, moved(planned.1, arrival, planned.0))),
        (None, Some(departure)) => Some((moved(planned.0, departure, planned.1), departure)),
        (None, None) => None,
    }
}
