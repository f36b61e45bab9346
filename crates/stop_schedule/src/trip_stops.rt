//! The stops of a trip while rows are read: in few bytes each where the rows follow each other in sequence, as they
//! mostly do. The functions meet `specs/TripStops.antt`.
ghost use Rattle.std.specs.Prelude.{◌≡◌, ◌++◌, ℕ, [], true, length, IfOk, IfSome, OnOk};
ghost use Rattle.stop_schedule.specs.Rising.{is_rising};
ghost use Rattle.stop_schedule.specs.TripStops as spec;

use crate::stop_times::{LoadedStop, place_of};
use std::alloc::{AllocError, Global};
use timetable::StopNo;

/// A stop in few bytes: its sequence, its number, the seconds from its trip's first minute to the arrival, and those
/// from there to the departure.
#[derive(Clone, Copy, Debug)]
pub struct BriefStop {
    pub(crate) sequence: u16,
    pub(crate) stop: u16,
    pub(crate) since: u16,
    pub(crate) stay: u16,
}

/// Stops whose rows follow each other from this one on, with times from this minute of the service day on.
#[derive(Drop)]
pub struct BriefStops {
    pub(crate) row: u32,
    pub(crate) minute: u16,
    pub(crate) stops: Vec<BriefStop>,
}

/// The stops of a trip, in rising sequence.
#[derive(Drop)]
pub enum TripStops {
    /// In few bytes each.
    Brief(BriefStops),
    /// As their rows have them.
    Wide(Vec<LoadedStop>),
}

// A number in two bytes, if it is small enough.
fn small(number: u32) -> Option<u16>
    ensures { IfSome result (λ small. small ≡ number) }
{
    if number > u16::MAX as u32 {
        return None;
    }
    Some(number as u16)
}

// The sequence and the number of a stop in two bytes each, if they are small enough.
fn brief_numbers(stop: &LoadedStop) -> Option<(u16, u16)>
    ensures { IfSome result (λ brief. (brief.0 ≡ stop.now.sequence) × (brief.1 ≡ stop.now.stop.0)) }
{
    match (small(stop.sequence), small(stop.stop.0)) {
        (Some(sequence), Some(number)) => Some((sequence, number)),
        _ => None,
    }
}

// Two times by the seconds from that one to the first, and from there to the second, if they are small enough.
fn brief_times(times: (u32, u32), start: u32) -> Option<(u16, u16)>
    ensures { IfSome result (λ brief. spec.times_from start brief ≡ times) }
{
    let (arrival, departure) = times;
    if arrival < start || departure < arrival {
        return None;
    }
    match (small(arrival - start), small(departure - arrival)) {
        (Some(since), Some(stay)) => Some((since, stay)),
        _ => None,
    }
}

// A stop in few bytes, where its row is that one, it has times, and its numbers are small enough.
fn brief_of(stop: &LoadedStop, row: u64, minute: u16) -> Option<BriefStop>
    ensures { IfSome result (λ brief. spec.expanded row minute brief ≡ stop.now) }
{
    if stop.row as u64 != row {
        return None;
    }
    let (Some(times), Some((sequence, number))) = (stop.times, brief_numbers(stop)) else {
        return None;
    };
    match brief_times(times, 60 * minute as u32) {
        Some((since, stay)) => Some(BriefStop {
            sequence,
            stop: number,
            since,
            stay,
        }),
        None => None,
    }
}

// The stop of a row, and of a trip with that first minute.
fn expanded(row: u64, minute: u16, stop: &BriefStop) -> LoadedStop
    ensures { result ≡ spec.expanded row minute stop.now }
{
    let arrival = 60 * minute as u32 + stop.since as u32;
    LoadedStop {
        row: row.min(u32::MAX as u64) as u32,
        sequence: stop.sequence as u32,
        stop: StopNo(stop.stop as u32),
        times: Some((arrival, arrival + stop.stay as u32)),
    }
}

// Whether a sequence is greater than the last stop's.
fn is_after(stops: &[BriefStop], sequence: u32) -> bool
    ensures { result ≡ true → (row minute : ℕ) → spec.IsBehind (spec.all_expanded row minute stops.now) sequence }
{
    match stops {
        [.., last] => (last.sequence as u32) < sequence,
        [] => true,
    }
}

// The minute of a stop's arrival, as far as it is small.
fn minute_of(stop: &LoadedStop) -> u16 {
    match stop.times {
        Some((arrival, _)) => small(arrival / 60).unwrap_or(0),
        None => 0,
    }
}

// Begins with a stop, where there are none so far.
fn begin(held: &mut BriefStops, stop: &LoadedStop)
    ensures { spec.brief_stops held.new ≡ spec.brief_stops held.old }
{
    if held.stops.is_empty() {
        held.row = stop.row;
        held.minute = minute_of(stop);
    }
}

// Adds a stop after the others where it is in sequence and can be kept in few bytes, and says whether it was added.
fn append(held: &mut BriefStops, stop: &LoadedStop) -> Result<bool, AllocError>
    ensures added { IfOk result
        (λ added. spec.brief_stops held.new ≡ spec.with_stop added stop.now (spec.brief_stops held.old)) }
    ensures less { IfOk result (λ added. added ≡ true → spec.IsBehind (spec.brief_stops held.old) stop.now.sequence) }
{
    if !is_after(held.stops.as_slice(), stop.sequence) {
        return Ok(false);
    }
    begin(held, stop);
    let row = held.row as u64 + held.stops.len() as u64;
    let Some(brief) = brief_of(stop, row, held.minute) else {
        return Ok(false);
    };
    held.stops.push(brief)?;
    Ok(true)
}

// Adds stops in few bytes at the end of others, as their rows have them.
fn spread(held: &BriefStops, into: &mut Vec<LoadedStop>) -> Result<(), AllocError>
    ensures { OnOk result (into.new.items ≡ into.old.items ++ spec.brief_stops held.now) }
{
    for (place, stop) in held.stops.iter().enumerate() {
        let row = held.row as u64 + place as u64;
        into.push(expanded(row, held.minute, stop))?;
    }
    Ok(())
}

// Adds a stop at its place, and says whether none had its sequence.
fn insert(stops: &mut Vec<LoadedStop>, stop: &LoadedStop) -> Result<bool, AllocError>
    ensures { is_rising stops.old.items ≡ true → IfOk result (spec.Places stop.now stops.old.items stops.new.items) }
{
    let Some(place) = place_of(stops.as_slice(), stop.sequence) else {
        return Ok(false);
    };
    match stops.insert(place, *stop) {
        Ok(()) => Ok(true),
        Err(_) => Err(AllocError),
    }
}

// The same of any trip, whose stops then stand as their rows have them.
fn insert_wide(alloc: Global, held: &mut TripStops, stop: &LoadedStop) -> Result<bool, AllocError>
    ensures { is_rising (spec.stops_kept held.old) ≡ true
        → IfOk result (spec.Places stop.now (spec.stops_kept held.old) (spec.stops_kept held.new)) }
{
    match held {
        TripStops::Wide(stops) => insert(stops, stop),
        TripStops::Brief(brief) => {
            let mut stops = Vec::new(alloc);
            spread(brief, &mut stops)?;
            let added = insert(&mut stops, stop)?;
            *held = TripStops::Wide(stops);
            Ok(added)
        }
    }
}

// Adds a stop after those in few bytes, where that can be, and says whether it was added.
fn append_brief(held: &mut TripStops, stop: &LoadedStop) -> Result<bool, AllocError>
    ensures added { IfOk result
        (λ added. spec.stops_kept held.new ≡ spec.with_stop added stop.now (spec.stops_kept held.old)) }
    ensures less { IfOk result (λ added. added ≡ true → spec.IsBehind (spec.stops_kept held.old) stop.now.sequence) }
{
    match held {
        TripStops::Brief(brief) => append(brief, stop),
        TripStops::Wide(_) => Ok(false),
    }
}

impl TripStops {
    /// No stops.
    pub(crate) fn new(alloc: Global) -> TripStops
        ensures { spec.stops_kept result ≡ [] }
    {
        TripStops::Brief(BriefStops {
            row: 0,
            minute: 0,
            stops: Vec::new(alloc),
        })
    }

    /// How many stops there are.
    pub(crate) fn len(&self) -> usize
        ensures { result ≡ length (spec.stops_kept self.now) }
    {
        match self {
            TripStops::Brief(brief) => brief.stops.len(),
            TripStops::Wide(stops) => stops.len(),
        }
    }

    /// Adds a stop at its place by sequence, and says whether none had its sequence.
    pub(crate) fn add(&mut self, alloc: Global, stop: &LoadedStop) -> Result<bool, AllocError>
        ensures { is_rising (spec.stops_kept self.old) ≡ true
            → IfOk result (spec.Places stop.now (spec.stops_kept self.old) (spec.stops_kept self.new)) }
    {
        if append_brief(self, stop)? {
            return Ok(true);
        }
        insert_wide(alloc, self, stop)
    }

    /// Adds the stops at the end of others, as their rows have them.
    pub(crate) fn copy_to(&self, into: &mut Vec<LoadedStop>) -> Result<(), AllocError>
        ensures { OnOk result (into.new.items ≡ into.old.items ++ spec.stops_kept self.now) }
    {
        match self {
            TripStops::Brief(brief) => spread(brief, into),
            TripStops::Wide(stops) => into.extend_from_slice(stops.as_slice()),
        }
    }

    /// Gives back the room that the stops don't take.
    pub(crate) fn give_back(&mut self)
        ensures { spec.stops_kept self.new ≡ spec.stops_kept self.old }
    {
        match self {
            TripStops::Brief(brief) => brief.stops.shrink_to_fit(),
            TripStops::Wide(stops) => stops.shrink_to_fit(),
        }
    }

    /// Takes room for so many more stops, where there is memory for them.
    pub(crate) fn make_room(&mut self, count: usize)
        ensures { spec.stops_kept self.new ≡ spec.stops_kept self.old }
    {
        let _ = match self {
            TripStops::Brief(brief) => brief.stops.reserve_exact(count),
            TripStops::Wide(stops) => stops.reserve_exact(count),
        };
    }
}
