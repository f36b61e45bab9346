//! The dense reading of calls. The functions meet `all_dense` of `specs/Judged.antt`.
ghost use Rattle.std.specs.Prelude.{◌≡◌, ◌==◌, ◌+◌, ◌<◌, ◌∷◌, true, None, map, drop, find, length, IfSome, IfOk};
ghost use Rattle.std.specs.Option.{IfNone};
ghost use Rattle.siri_calls.specs.Judged as spec;
ghost use Rattle.siri_calls.specs.MatchedCalls.{placed_call, rise_from};
ghost use Rattle.journey_model.specs.TripRuns.{run_over};

use crate::delays::call_reading;
use crate::matching_calls::PlacedCall;
use gw_base::List;
use journey_model::{StopReading, TripRun};
use std::alloc::{AllocError, Global};

// The call at a position, if there is one: it is the next of calls whose positions rise.
fn call_at<'a, 'b>(
    placed: &'a [PlacedCall<'b>],
    next: usize,
    position: usize,
) -> Option<&'a PlacedCall<'b>>
    requires { rise_from position (map placed_call (drop next placed.now)) ≡ true }
    ensures none { IfNone result (find (λ one. one.0 == position) (map placed_call (drop next placed.now)) ≡ None) }
    ensures first { IfSome result (λ one. drop next placed.now ≡ one.now ∷ drop (next + 1) placed.now) }
    ensures here { IfSome result (λ one. one.now.position ≡ position) }
    ensures within { IfSome result (λ _. next < length placed.now) }
{
    let one = placed.get(next)?;
    if one.position as usize == position {
        Some(one)
    } else {
        None
    }
}

/// How each stop reads by the calls that are matched to stops: a stop without a call is absent.
pub(crate) fn dense_readings(
    alloc: Global,
    run: &TripRun<'_>,
    placed: &[PlacedCall<'_>],
) -> Result<List<StopReading>, AllocError>
    requires { rise_from 0 (map placed_call placed.now) ≡ true }
    ensures { IfOk result (λ readings. readings ≡ spec.all_dense (run_over run.now) (map placed_call placed.now)) }
{
    let mut readings = List::new(alloc);
    let mut next = 0;
    for position in 0..run.dated.stops.len() {
        let reading = match call_at(placed, next, position) {
            Some(one) => {
                next += 1;
                call_reading(run, one)
            }
            None => StopReading::Absent,
        };
        readings.push(reading)?;
    }
    Ok(readings)
}
