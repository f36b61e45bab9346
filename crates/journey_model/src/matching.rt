//! Which stop of a trip a call or an update is of. The functions meet `specs/Matching.antt`.
ghost use Rattle.std.specs.Prelude.{◌≡◌, ◌<◌, ◌≤◌, length, position, true, IfSome, IfOk};
ghost use Rattle.std.specs.List.{list_any};
ghost use Rattle.timetable.specs.Seen.{seen};
ghost use Rattle.journey_model.specs.Matching as spec;

use crate::context::DatedTrip;
use crate::places::are_of_station;
use timetable::{StopNo, StopRow, Timetable};

/// The stop that an update names by its `stop_id`.
#[derive(Clone, Copy, Debug, PartialEq, Eq)]
pub enum NamedStop {
    /// It names none.
    Missing,
    /// It names one that isn't in the timetable.
    Unknown,
    /// It names this one.
    Known(StopNo),
}

/// Why an update is of no stop of its trip.
#[derive(Clone, Copy, Debug, PartialEq, Eq)]
pub enum MatchFault {
    /// No stop of the trip has the sequence, or without one the id; or both are missing.
    UnknownStop,
    /// The stop of the sequence has another id.
    StopMismatch,
    /// The stop isn't after the one before.
    OutOfOrder,
}

// The position from which on a stop lies after the one before.
fn position_after(after: Option<u32>) -> usize
    ensures { result ≡ spec.position_after after }
{
    match after {
        Some(position) => position as usize + 1,
        None => 0,
    }
}

// Whether the stop at a position is of the station of that one.
fn is_of_station_at(table: &Timetable, stops: &[StopRow], position: usize, stop: StopNo) -> bool
    ensures { result
        ≡ spec.stands_at (spec.is_of_station (seen table.now).station_of stop.0) position stops.now }
{
    match stops.get(position) {
        Some(row) => are_of_station(table, row.stop, stop),
        None => false,
    }
}

// The first position of that stop among stops.
fn position_of(stops: &[StopRow], stop: StopNo) -> Option<usize>
    ensures value { result ≡ position (spec.is_of_stop stop.0) stops.now }
    ensures within { IfSome result (λ position. position < length stops.now) }
{
    stops.iter().position(|row| row.stop.0 == stop.0)
}

// The first position of that stop from a position on.
fn first_position(stops: &[StopRow], from: usize, stop: StopNo) -> Option<usize>
    ensures value { result ≡ spec.first_from (spec.is_of_stop stop.0) from stops.now }
    ensures within { IfSome result (λ position. position < length stops.now) }
{
    if from > stops.len() {
        return None;
    }
    let (_, rest) = stops.split_at(from);
    match position_of(rest, stop) {
        Some(position) => Some(position + from),
        None => None,
    }
}

// The first position of that stop's station among stops.
fn position_of_station(table: &Timetable, stops: &[StopRow], stop: StopNo) -> Option<usize>
    ensures value { result ≡ position (spec.is_of_station (seen table.now).station_of stop.0) stops.now }
    ensures within { IfSome result (λ position. position < length stops.now) }
{
    stops
        .iter()
        .position(|row| are_of_station(table, row.stop, stop))
}

// The first position of that stop's station from a position on.
fn first_of_station(
    table: &Timetable,
    stops: &[StopRow],
    from: usize,
    stop: StopNo,
) -> Option<usize>
    ensures value { result
        ≡ spec.first_from (spec.is_of_station (seen table.now).station_of stop.0) from stops.now }
    ensures within { IfSome result (λ position. position < length stops.now) }
{
    if from > stops.len() {
        return None;
    }
    let (_, rest) = stops.split_at(from);
    match position_of_station(table, rest, stop) {
        Some(position) => Some(position + from),
        None => None,
    }
}

// The first position of that stop from a position on, else the first of its station.
fn later_position(table: &Timetable, stops: &[StopRow], from: usize, stop: StopNo) -> Option<usize>
    ensures value { result ≡ spec.later_position (seen table.now).station_of stop.0 from stops.now }
    ensures within { IfSome result (λ position. position < length stops.now) }
{
    match first_position(stops, from, stop) {
        Some(position) => Some(position),
        None => first_of_station(table, stops, from, stop),
    }
}

// Whether the stop of that order, counted from 1, is of the station of that one and lies from a position on.
fn fits_order(table: &Timetable, stops: &[StopRow], from: usize, order: u64, stop: StopNo) -> bool
    ensures value { result
        ≡ spec.fits_order (spec.is_of_station (seen table.now).station_of stop.0) from order stops.now }
    ensures within { result ≡ true → order ≤ length stops.now }
{
    1 <= order
        && from as u64 <= order - 1
        && is_of_station_at(table, stops, (order - 1) as usize, stop)
}

// The position of an order, where the stop there is of the station of that one and lies from a position on.
fn ordered_position(
    table: &Timetable,
    stops: &[StopRow],
    from: usize,
    order: Option<u64>,
    stop: StopNo,
) -> Option<usize>
    ensures value { result
        ≡ spec.ordered_position (spec.is_of_station (seen table.now).station_of stop.0) from stops.now order }
    ensures within { IfSome result (λ position. position < length stops.now) }
{
    match order {
        Some(order) if fits_order(table, stops, from, order, stop) => Some((order - 1) as usize),
        _ => None,
    }
}

/// The position of the stop that a call is of, after the one of the call before (SIRI 2.0, EstimatedCall with
/// StopPointRef and Order): by its order, counted from 1, where the stop of that order is of the station of its stop
/// and lies after; else the first position of its stop after; else the first of its stop's station. Positions count
/// from 0. None exactly where there is none.
pub fn match_call(
    table: &Timetable,
    dated: &DatedTrip<'_>,
    after: Option<u32>,
    stop: StopNo,
    order: Option<u64>,
) -> Option<u32>
    ensures value { result
        ≡ spec.call_position (seen table.now).station_of dated.now.stops.now after stop.0 order }
    ensures within { IfSome result (λ position. position < length dated.now.stops.now) }
{
    let stops = dated.stops;
    let from = position_after(after);
    let position = match ordered_position(table, stops, from, order, stop) {
        Some(position) => Some(position),
        None => later_position(table, stops, from, stop),
    };
    match position {
        Some(position) => Some(position as u32),
        None => None,
    }
}

/// Whether a trip calls at the station of that stop.
pub fn has_station(table: &Timetable, stops: &[StopRow], stop: StopNo) -> bool
    ensures { result ≡ list_any (spec.is_of_station (seen table.now).station_of stop.0) stops.now }
{
    stops
        .iter()
        .any(|row| are_of_station(table, row.stop, stop))
}

// The position of the stop of that sequence.
fn position_of_sequence(stops: &[StopRow], sequence: u32) -> Option<usize>
    ensures value { result ≡ position (spec.has_sequence sequence) stops.now }
    ensures within { IfSome result (λ position. position < length stops.now) }
{
    stops.iter().position(|row| row.sequence == sequence)
}

// Whether the stop at a position agrees with the one that is named.
fn agrees_at(stops: &[StopRow], position: usize, named: NamedStop) -> bool
    ensures { result ≡ spec.stands_at (spec.agrees named) position stops.now }
{
    match (stops.get(position), named) {
        (None, _) => false,
        (Some(_), NamedStop::Missing) => true,
        (Some(_), NamedStop::Unknown) => false,
        (Some(row), NamedStop::Known(stop)) => row.stop.0 == stop.0,
    }
}

// The position of an update that has a sequence.
fn position_by_sequence(
    stops: &[StopRow],
    from: usize,
    sequence: u32,
    named: NamedStop,
    same: bool,
) -> Result<usize, MatchFault>
    ensures value { result
        ≡ spec.position_by_sequence stops.now from named same (position (spec.has_sequence sequence) stops.now) }
    ensures within { IfOk result (λ position. position < length stops.now) }
{
    let Some(position) = position_of_sequence(stops, sequence) else {
        return Err(MatchFault::UnknownStop);
    };
    if !(same || agrees_at(stops, position, named)) {
        return Err(MatchFault::StopMismatch);
    }
    if from <= position {
        Ok(position)
    } else {
        Err(MatchFault::OutOfOrder)
    }
}

// Whether a trip calls at that stop.
fn has_stop(stops: &[StopRow], stop: StopNo) -> bool
    ensures { result ≡ list_any (spec.is_of_stop stop.0) stops.now }
{
    stops.iter().any(|row| row.stop.0 == stop.0)
}

// The position of an update that has a stop alone.
fn position_by_stop(stops: &[StopRow], from: usize, named: NamedStop) -> Result<usize, MatchFault>
    ensures value { result ≡ spec.position_by_stop stops.now from named }
    ensures within { IfOk result (λ position. position < length stops.now) }
{
    let NamedStop::Known(stop) = named else {
        return Err(MatchFault::UnknownStop);
    };
    if !has_stop(stops, stop) {
        return Err(MatchFault::UnknownStop);
    }
    match first_position(stops, from, stop) {
        Some(position) => Ok(position),
        None => Err(MatchFault::OutOfOrder),
    }
}

/// The position of the stop that an update is of, after the one of the update before (GTFS Realtime reference,
/// StopTimeUpdate with stop_sequence and stop_id): by its sequence, where the stop that it names agrees; without a
/// sequence the first position of its stop after. Positions count from 0. `same` says that its stop_id is that of the
/// stop to which it is assigned (StopTimeProperties, assigned_stop_id): beside a sequence it then agrees.
pub fn match_update(
    dated: &DatedTrip<'_>,
    after: Option<u32>,
    sequence: Option<u32>,
    stop: NamedStop,
    same: bool,
) -> Result<u32, MatchFault>
    ensures value { result ≡ spec.update_position dated.now.stops.now after sequence stop same }
    ensures within { IfOk result (λ position. position < length dated.now.stops.now) }
{
    let from = position_after(after);
    let position = match sequence {
        Some(sequence) => position_by_sequence(dated.stops, from, sequence, stop, same)?,
        None => position_by_stop(dated.stops, from, stop)?,
    };
    Ok(position as u32)
}
