//! What the events of an update say at a stop, in seconds since 1970. The functions meet `journey_model`'s
//! `specs/Times.antt` and `specs/Updates.antt`.
ghost use Rattle.std.specs.Prelude.{◌≡◌, ◌-ℤ◌, true};
ghost use Rattle.gw_base.specs.Chains.{unless_fault};
ghost use Rattle.journey_model.specs.Times.{ArePlanned, IsPlanned, both_times, delay_fault, is_delay};
ghost use Rattle.journey_model.specs.Updates as spec;
ghost use Rattle.propagation.specs.Saying.{says_times, timed_by};

use crate::placing::Prediction;
use gw_base::Event;
use journey_model::{Fault, both_times, delay_fault};
use timetable::StopNo;

/// The time of an event: its `time`, else the planned one and its `delay`.
pub(crate) fn event_time(planned: &i64, event: &Option<Event>) -> Option<i64>
    requires { IsPlanned planned.now }
    ensures { result ≡ spec.event_time planned.now event.now }
{
    let Some(event) = event else {
        return None;
    };
    match (event.time, event.delay) {
        (Some(time), _) => Some(time),
        (None, Some(delay)) => Some(*planned + delay as i64),
        (None, None) => None,
    }
}

// What times at a place say that are near the planned ones.
fn timed_by(place: StopNo, planned: &(i64, i64), both: &(i64, i64)) -> Prediction
    requires range { ArePlanned planned.now }
    requires near { is_delay (both.now.1 -ℤ planned.now.1) ≡ true }
    ensures { result ≡ timed_by place planned.now both.now }
{
    Prediction::Timed {
        arrival: both.0,
        departure: both.1,
        delay: (both.1 - planned.1) as i32,
        place,
    }
}

/// What the events of the update of that number say at a place: both times and the delay of the departure, or their
/// fault.
pub(crate) fn says_times(
    number: u64,
    place: StopNo,
    planned: (i64, i64),
    arrival: Option<i64>,
    departure: Option<i64>,
) -> Result<Prediction, Fault>
    requires { ArePlanned planned }
    ensures { let late = delay_fault number planned arrival departure in
        let both = both_times planned arrival departure in
        result ≡ unless_fault (spec.events_fault number late both) (says_times place planned both) }
{
    if let Some(fault) = delay_fault(number, planned, arrival, departure) {
        return Err(fault);
    }
    match both_times(planned, arrival, departure) {
        Some(both) => Ok(timed_by(place, &planned, &both)),
        None => Err(Fault::NoTime(number)),
    }
}
