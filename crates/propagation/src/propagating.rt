//! The propagation: what placed updates say of every stop of a trip, by one walk along its stops. The functions meet
//! `specs/Spreading.antt`.
ghost use Rattle.std.specs.Prelude.{◌≡◌, ℕ, List as Values, true, drop, map, length, IfOk};
ghost use Rattle.std.specs.List.{range_with_len};
ghost use Rattle.gw_base.specs.declared.messages.StopUpdate.{StopUpdate};
ghost use Rattle.timetable.specs.Table.{Table};
ghost use Rattle.journey_model.specs.Dated.{run_of};
ghost use Rattle.journey_model.specs.Propagation.{prop};
ghost use Rattle.journey_model.specs.Times.{ArePlanned};
ghost use Rattle.propagation.specs.Saying.{placed_at};
ghost use Rattle.propagation.specs.Spreading.{are_rising_from, delay_after, first_at, later, reading_at};

use crate::placing::{MatchedUpdate, Prediction};
use crate::room::with_room;
use gw_base::List;
use journey_model::{DatedTrip, StopReading};
use std::alloc::{AllocError, Global};
use timetable::StopNo;

// What the first of the updates says, where it stands at that position.
fn first_at(placed: &[MatchedUpdate], position: usize) -> Option<Prediction>
    ensures { result ≡ first_at placed.now position }
{
    match placed {
        [first, ..] if first.position as usize == position => Some(first.says),
        _ => None,
    }
}

// The delay that is carried on from a stop of which this is said; None where nothing is known.
fn delay_after(delay: Option<i32>, said: Option<Prediction>) -> Option<i32>
    ensures { result ≡ delay_after delay said }
{
    match said {
        None => delay,
        Some(Prediction::Skipped) => delay,
        Some(Prediction::NoData) => None,
        Some(Prediction::Timed { delay, .. }) => Some(delay),
    }
}

// How a scheduled stop that no update is of reads: later than planned by the delay that is carried on.
fn later(scheduled: StopNo, planned: (i64, i64), delay: Option<i32>) -> StopReading
    requires { ArePlanned planned }
    ensures { result ≡ later scheduled planned delay }
{
    match delay {
        Some(delay) => StopReading::Timed {
            arrival: planned.0 + delay as i64,
            departure: planned.1 + delay as i64,
            place: scheduled,
        },
        None => StopReading::Absent,
    }
}

// How a scheduled stop with these planned times reads.
fn reading_at(
    scheduled: StopNo,
    planned: (i64, i64),
    delay: Option<i32>,
    said: Option<Prediction>,
) -> StopReading
    requires { ArePlanned planned }
    ensures { result ≡ reading_at scheduled planned delay said }
{
    match said {
        None => later(scheduled, planned, delay),
        Some(Prediction::Skipped) => StopReading::Skipped,
        Some(Prediction::NoData) => StopReading::Absent,
        Some(
            Prediction::Timed {
                arrival,
                departure,
                place,
                ..
            },
        ) => StopReading::Timed {
            arrival,
            departure,
            place,
        },
    }
}

/// What placed updates say of every stop of a trip.
pub(crate) fn readings(
    alloc: Global,
    dated: &DatedTrip<'_>,
    placed: &[MatchedUpdate],
) -> Result<List<StopReading>, AllocError>
    ensures { (table : Table) (updates : Values (ℕ × StopUpdate)) →
        let run = run_of table dated.now in
        let places = range_with_len 0 (length dated.now.stops.now) in
        are_rising_from 0 updates ≡ true → placed.now ≡ map (placed_at run) updates
        → IfOk result (λ all. all ≡ map (prop run updates) places) }
{
    let mut all = with_room(alloc, dated.stops.len())?;
    let mut rest = placed;
    let mut delay = None;
    for (position, row) in dated.stops.iter().enumerate() {
        let said = first_at(rest, position);
        all.push(reading_at(row.stop, dated.planned_times(row), delay, said))?;
        delay = delay_after(delay, said);
        if said.is_some() {
            rest = after_first(rest);
        }
    }
    Ok(all)
}

// The updates after the first.
fn after_first(placed: &[MatchedUpdate]) -> &[MatchedUpdate]
    ensures { result.now ≡ drop 1 placed.now }
{
    match placed {
        [_, rest @ ..] => rest,
        [] => placed,
    }
}
