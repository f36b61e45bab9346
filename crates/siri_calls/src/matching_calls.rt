//! The positions of a journey's calls in its trip. The functions meet `calls_placed` of `specs/Judged.antt`.
ghost use Rattle.std.specs.Prelude.{◌≡◌, map, option_map, Ok, IfErr, IfOk};
ghost use Rattle.siri_calls.specs.Judged as spec;
ghost use Rattle.siri_calls.specs.MatchedCalls.{is_unknown, placed_call, placed_named, unplaced};
ghost use Rattle.siri_calls.specs.Seen.{call_of, calls_of};
ghost use Rattle.journey_model.specs.TripRuns.{run_over};
ghost use Rattle.siri_json.specs.Shown.{IsFaultOf};

use crate::calls::Call;
use journey_model::{Fault, TripRun, has_station, match_call};
use siri_json::ReadFault;
use std::alloc::Global;
use timetable::StopNo;

/// A call with its position in the trip, and its own number among all calls, from 0.
#[derive(Clone, Copy)]
pub(crate) struct PlacedCall<'a> {
    /// The position of the stop of the trip that it is of.
    pub position: u32,
    /// The stop that it names, of the same station.
    pub stop: StopNo,
    /// The call's number.
    pub number: u64,
    /// The call.
    pub call: &'a Call<'a>,
}

// Whether a call is of no station of the trip; an extra call isn't looked at.
fn is_unknown(run: &TripRun<'_>, call: &Option<Call<'_>>) -> bool
    ensures { result ≡ is_unknown (run_over run.now) (option_map call_of call.now) }
{
    match call {
        Some(call) => match run.table.find_stop(call.stop) {
            Some(stop) => !has_station(run.table, run.dated.stops, stop),
            None => true,
        },
        None => false,
    }
}

// A call with its position after the one before, where its stop has one.
fn place_call<'a>(
    run: &TripRun<'_>,
    after: Option<u32>,
    number: u64,
    call: &'a Call<'a>,
) -> Option<PlacedCall<'a>>
    ensures { option_map placed_call result
        ≡ placed_named (run_over run.now) after (number, call_of call.now) }
{
    let Some(stop) = run.table.find_stop(call.stop) else {
        return None;
    };
    match match_call(run.table, &run.dated, after, stop, call.order) {
        Some(position) => Some(PlacedCall {
            position,
            stop,
            number,
            call,
        }),
        None => None,
    }
}

// The fault of calls of which the one of that number has no position: that of the first call of no station of the
// trip, and else its own.
fn fault_of(run: &TripRun<'_>, calls: &[Option<Call<'_>>], late: u64) -> Fault
    ensures { result ≡ unplaced late (spec.stops_named (run_over run.now) (spec.numbered 0 (calls_of calls.now))) }
{
    for (index, call) in calls.iter().enumerate() {
        if is_unknown(run, call) {
            return Fault::UnknownStop(index as u64);
        }
    }
    Fault::OutOfOrder(late)
}

/// The read calls with their positions, each after the one before; or the fault of the first call of no station of the
/// trip, and else that of the first call of no later stop.
pub(crate) fn placed_calls<'a>(
    alloc: Global,
    run: &TripRun<'_>,
    calls: &'a [Option<Call<'a>>],
) -> Result<Vec<PlacedCall<'a>>, ReadFault>
    ensures found { IfOk result (λ placed.
        spec.calls_placed (run_over run.now) (calls_of calls.now) ≡ Ok (map placed_call placed.items)) }
    ensures fault { IfErr result (IsFaultOf (spec.calls_placed (run_over run.now) (calls_of calls.now))) }
{
    let mut placed = Vec::new(alloc);
    let mut after = None;
    for (index, call) in calls.iter().enumerate() {
        if let Some(call) = call {
            let number = index as u64;
            let Some(one) = place_call(run, after, number, call) else {
                return Err(ReadFault::Aside(fault_of(run, calls, number)));
            };
            after = Some(one.position);
            placed.push(one)?;
        }
    }
    Ok(placed)
}
