//! The times of calls against the planned ones. The functions meet `delays_fault` and `call_reading` of
//! `specs/Judged.antt`.
ghost use Rattle.std.specs.Prelude.{◌≡◌, map};
ghost use Rattle.journey_model.specs.Runs.{planned_at as planned_of};
ghost use Rattle.siri_calls.specs.Judged as spec;
ghost use Rattle.siri_calls.specs.MatchedCalls.{placed_call};
ghost use Rattle.journey_model.specs.TripRuns.{run_over};

use crate::matching_calls::PlacedCall;
use journey_model::{Fault, StopReading, TripRun, both_times, delay_fault};

// The fault of the first event of a call whose delay is over a week.
fn fault_of_delay(run: &TripRun<'_>, one: &PlacedCall<'_>) -> Option<Fault>
    ensures { result ≡ spec.fault_of_delay (run_over run.now) (placed_call one.now) }
{
    let call = one.call;
    if call.skip {
        return None;
    }
    let planned = run.dated.planned_at(one.position);
    delay_fault(one.number, planned, call.arrival, call.departure)
}

/// The fault of the first event of calls whose delay is over a week.
pub(crate) fn delays_fault(run: &TripRun<'_>, placed: &[PlacedCall<'_>]) -> Option<Fault>
    ensures { result ≡ spec.delays_fault (run_over run.now) (map placed_call placed.now) }
{
    for one in placed {
        if let Some(fault) = fault_of_delay(run, one) {
            return Some(fault);
        }
    }
    None
}

/// How a call reads at its stop: one event gives its delay to the other, and its place is the stop that it names.
pub(crate) fn call_reading(run: &TripRun<'_>, one: &PlacedCall<'_>) -> StopReading
    ensures { result ≡ spec.call_reading (planned_of (run_over run.now) one.now.position) one.now.stop.0
        (placed_call one.now).1.1.1 }
{
    let call = one.call;
    if call.skip {
        return StopReading::Skipped;
    }
    let planned = run.dated.planned_at(one.position);
    match both_times(planned, call.arrival, call.departure) {
        Some((arrival, departure)) => StopReading::Timed {
            arrival,
            departure,
            place: one.stop,
        },
        None => StopReading::Absent,
    }
}
