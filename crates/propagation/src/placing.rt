//! The places of updates in their trip, and what each says there. The functions meet `specs/Saying.antt` and the
//! places of `journey_model`'s `specs/Updates.antt`.
ghost use Rattle.std.specs.Prelude.{◌≡◌, ◌<◌, true, None, Ok, IfOk, IfSome, length};
ghost use Rattle.gw_base.specs.Chains.{unless_fault};
ghost use Rattle.timetable.specs.Seen.{seen};
ghost use Rattle.timetable.specs.Table.{Table};
ghost use Rattle.journey_model.specs.Dated.{run_of};
ghost use Rattle.journey_model.specs.Runs.{stop_at};
ghost use Rattle.journey_model.specs.Times.{ArePlanned, delay_fault};
ghost use Rattle.journey_model.specs.Updates as spec;
ghost use Rattle.propagation.specs.Answers.{Propagates};
ghost use Rattle.propagation.specs.Saying.{placed_all, placed_by, says_at, says_times};

use crate::events::{event_time, says_times};
use crate::naming::{assigned_stop, named_stop, names_one, stop_after};
use crate::place_sizes::says_size;
use crate::room::with_room;
use crate::update_fault::UpdateFault;
use gw_base::stop_relation::{NO_DATA, SCHEDULED, SKIPPED};
use gw_base::{List, StopUpdate};
use journey_model::{
    DatedTrip, Fault, MatchFault, NamedStop, are_of_station, match_update, places_fault,
};
use std::alloc::Global;
use timetable::{StopNo, Timetable};

/// What an update says at its position.
#[derive(Clone, Copy, Debug, PartialEq, Eq)]
pub enum Prediction {
    /// The journey doesn't stop there.
    Skipped,
    /// From there on nothing is known.
    NoData,
    /// It stops there at these times.
    Timed {
        /// When it arrives, in seconds since 1970.
        arrival: i64,
        /// When it departs, in seconds since 1970.
        departure: i64,
        /// How much later than planned it departs, in seconds.
        delay: i32,
        /// Where it stops: at the scheduled stop, or at another of its station.
        place: StopNo,
    },
}

/// An update at its position.
#[derive(Clone, Copy, Debug)]
pub struct MatchedUpdate {
    /// The position of its stop in the trip, from 0 on.
    pub position: u32,
    /// What it says there.
    pub says: Prediction,
}

// The fault of the update of that number that is of no stop.
fn match_fault(number: u64, fault: MatchFault) -> Fault
    ensures { result ≡ spec.match_fault number fault }
{
    match fault {
        MatchFault::UnknownStop => Fault::UnknownStop(number),
        MatchFault::StopMismatch => Fault::StopMismatch(number),
        MatchFault::OutOfOrder => Fault::OutOfOrder(number),
    }
}

// Whether an update says that its stop is skipped.
fn is_skipped(update: &StopUpdate) -> bool
    ensures { result ≡ spec.is_skipped update.now }
{
    update.relation == SKIPPED
}

// Whether an update says that nothing is known.
fn is_no_data(update: &StopUpdate) -> bool
    ensures { result ≡ spec.is_no_data update.now }
{
    update.relation == NO_DATA
}

// Whether updates of that relation are read.
fn is_read(update: &StopUpdate) -> bool
    ensures { result ≡ spec.is_read update.now }
{
    update.relation == SCHEDULED || is_skipped(update) || is_no_data(update)
}

// The scheduled stop at a position of a trip.
fn scheduled_at(dated: &DatedTrip<'_>, position: u32) -> StopNo
    requires { position < length dated.now.stops.now }
    ensures { (table : Table) → result ≡ stop_at (run_of table dated.now) position }
{
    dated.stops[position as usize].stop
}

// The place of the update of that number of a scheduled stop, or its fault where it is assigned to another station.
fn place_of(
    table: &Timetable,
    likely: Option<StopNo>,
    number: u64,
    scheduled: StopNo,
    update: &StopUpdate,
) -> Result<StopNo, Fault>
    requires { IfSome likely (λ stop. stop.0 < length table.now.stops) }
    ensures { let named = spec.assigned_stop table.now.stops update.now in
        let keeps = spec.keeps_station (seen table.now).station_of scheduled named in
        result ≡ unless_fault (spec.place_fault number keeps None) (spec.place_by scheduled named) }
{
    match assigned_stop(table, likely, update) {
        NamedStop::Missing => Ok(scheduled),
        NamedStop::Known(stop) if are_of_station(table, stop, scheduled) => Ok(stop),
        _ => Err(Fault::OtherPlace(number)),
    }
}

// What the update of that number says by its events at a place with these planned times, or its fault there.
fn says_by_events(
    number: u64,
    place: StopNo,
    planned: (i64, i64),
    update: &StopUpdate,
) -> Result<Prediction, Fault>
    requires { ArePlanned planned }
    ensures { let both = spec.times planned update.now in
        let arrival = spec.arrival_time planned update.now in
        let departure = spec.departure_time planned update.now in
        let late = delay_fault number planned arrival departure in
        result ≡ unless_fault (spec.events_fault number late both) (says_times place planned both) }
{
    let arrival = event_time(&planned.0, &update.arrival);
    let departure = event_time(&planned.1, &update.departure);
    says_times(number, place, planned, arrival, departure)
}

// What the SCHEDULED update of that number says at a position, or its fault there.
fn scheduled_says(
    table: &Timetable,
    dated: &DatedTrip<'_>,
    likely: Option<StopNo>,
    number: u64,
    position: u32,
    update: &StopUpdate,
) -> Result<Prediction, Fault>
    requires likely { IfSome likely (λ stop. stop.0 < length table.now.stops) }
    requires within { position < length dated.now.stops.now }
    requires scheduled { spec.is_scheduled update.now ≡ true }
    ensures { let run = run_of (seen table.now) dated.now in
        result ≡ unless_fault (spec.update_fault run number position update.now) (says_at run position update.now) }
{
    let scheduled = scheduled_at(dated, position);
    match place_of(table, likely, number, scheduled, update) {
        Ok(place) => says_by_events(number, place, dated.planned_at(position), update),
        Err(fault) => Err(fault),
    }
}

// What the update of that number says at a position, or its fault there.
fn says_at(
    table: &Timetable,
    dated: &DatedTrip<'_>,
    likely: Option<StopNo>,
    number: u64,
    position: u32,
    update: &StopUpdate,
) -> Result<Prediction, Fault>
    requires likely { IfSome likely (λ stop. stop.0 < length table.now.stops) }
    requires within { position < length dated.now.stops.now }
    requires read { spec.is_read update.now ≡ true }
    ensures { let run = run_of (seen table.now) dated.now in
        result ≡ unless_fault (spec.update_fault run number position update.now) (says_at run position update.now) }
{
    if is_skipped(update) {
        return Ok(Prediction::Skipped);
    }
    if is_no_data(update) {
        return Ok(Prediction::NoData);
    }
    scheduled_says(table, dated, likely, number, position, update)
}

// The update of that number at a position, or its fault there.
fn placed_at(
    table: &Timetable,
    dated: &DatedTrip<'_>,
    likely: Option<StopNo>,
    number: u64,
    position: u32,
    update: &StopUpdate,
) -> Result<MatchedUpdate, Fault>
    requires likely { IfSome likely (λ stop. stop.0 < length table.now.stops) }
    requires within { position < length dated.now.stops.now }
    requires read { spec.is_read update.now ≡ true }
    ensures value { let run = run_of (seen table.now) dated.now in
        result ≡ placed_by run update.now (spec.position_timed run number update.now (Ok position)) }
    ensures there { IfOk result (λ next. next.position ≡ position) }
{
    match says_at(table, dated, likely, number, position, update) {
        Ok(says) => Ok(MatchedUpdate { position, says }),
        Err(fault) => Err(fault),
    }
}

// The position of the update of that number after the one before, and what it says there; or its fault.
fn match_to_stop(
    table: &Timetable,
    dated: &DatedTrip<'_>,
    number: u64,
    after: Option<u32>,
    update: &StopUpdate,
) -> Result<MatchedUpdate, Fault>
    ensures value { let run = run_of (seen table.now) dated.now in
        result ≡ placed_by run update.now (spec.position_of run number after update.now) }
    ensures within { IfOk result (λ next. next.position < length dated.now.stops.now) }
{
    if !is_read(update) {
        return Err(Fault::OtherRelation(update.relation));
    }
    let likely = stop_after(table, dated.trip, after);
    let named = named_stop(table, likely, update);
    match match_update(dated, after, update.sequence, named, names_one(update)) {
        Ok(at) => placed_at(table, dated, likely, number, at, update),
        Err(fault) => Err(match_fault(number, fault)),
    }
}

/// The updates of a trip at their places, or the first fault; after all updates the one of their places.
pub(crate) fn placed_all(
    alloc: Global,
    table: &Timetable,
    dated: &DatedTrip<'_>,
    updates: &[StopUpdate],
) -> Result<List<MatchedUpdate>, UpdateFault>
    ensures { let run = run_of (seen table.now) dated.now in
        Propagates (placed_all run updates.now (spec.places run updates.now)) result }
{
    let mut all = with_room(alloc, updates.len().min(dated.stops.len()))?;
    let mut after = None;
    let mut bytes = 0;
    for (number, update) in updates.iter().enumerate() {
        let next = match match_to_stop(table, dated, number as u64, after, update) {
            Ok(next) => next,
            Err(fault) => return Err(UpdateFault::Fault(fault)),
        };
        bytes += says_size(table, scheduled_at(dated, next.position), &next.says);
        all.push(next)?;
        after = Some(next.position);
    }
    match places_fault(bytes) {
        Some(fault) => Err(UpdateFault::Fault(fault)),
        None => Ok(all),
    }
}
