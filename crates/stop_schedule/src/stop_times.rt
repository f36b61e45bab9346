//! The stops of a trip: sorted by sequence, and with times filled in. The functions meet `specs/StopTimes.antt`.
ghost use Rattle.std.specs.Prelude.{◌≡◌, ◌++◌, ◌<◌, ◌≤◌, ◌==◌, true, Some, OnOk, IfSome, length, reverse, slice_get};
ghost use Rattle.std.specs.Option.{MatchOption, option_map};
ghost use Rattle.stop_schedule.specs.Rising.{IsBetween, has_sequence, is_rising};
ghost use Rattle.stop_schedule.specs.declared.stop_times.LoadedStop.{LoadedStop};
ghost use Rattle.stop_schedule.specs.StopTimes as spec;

use std::alloc::AllocError;
use timetable::{StopNo, StopRow};

/// A stop of a trip as its row has it: the number of the row, and the times where it has any.
#[derive(Clone, Copy, Debug)]
pub struct LoadedStop {
    pub(crate) row: u32,
    pub(crate) sequence: u32,
    pub(crate) stop: StopNo,
    pub(crate) times: Option<(u32, u32)>,
}

/// The place of a sequence among stops in rising sequence, unless one has it.
pub(crate) fn place_of(stops: &[LoadedStop], sequence: u32) -> Option<usize>
    ensures within { IfSome result (λ place. place ≤ length stops.now) }
    ensures place { is_rising stops.now ≡ true
        → MatchOption result (has_sequence sequence stops.now ≡ true) (IsBetween stops.now sequence) }
{
    let mut rest = stops;
    while let [earlier @ .., last] = rest {
        if last.sequence < sequence {
            return Some(rest.len());
        }
        if sequence == last.sequence {
            return None;
        }
        rest = earlier;
    }
    Some(0)
}

// How many stops stand before the first with times, and its times.
fn nearest_after(stops: &[LoadedStop]) -> Option<(usize, (u32, u32))>
    ensures { result ≡ spec.nearest stops.now }
{
    let mut rest = stops;
    let mut away = 0;
    while let [stop, later @ ..] = rest {
        if let Some(times) = stop.times {
            return Some((away, times));
        }
        away += 1;
        rest = later;
    }
    None
}

// How many stops stand after the last with times, and its times.
fn nearest_before(stops: &[LoadedStop]) -> Option<(usize, (u32, u32))>
    ensures { result ≡ spec.nearest (reverse stops.now) }
{
    let mut rest = stops;
    let mut away = 0;
    while let [earlier @ .., stop] = rest {
        if let Some(times) = stop.times {
            return Some((away, times));
        }
        away += 1;
        rest = earlier;
    }
    None
}

// The time between two stops with times, in proportion to the places.
fn time_between(before: Option<(usize, (u32, u32))>, after: Option<(usize, (u32, u32))>) -> u32
    ensures { result ≡ spec.time_between before after }
{
    let (Some((back, (_, from))), Some((ahead, (to, _)))) = (before, after) else {
        return 0;
    };
    let span = to.saturating_sub(from) as u128;
    let (back, ahead) = (back as u128, ahead as u128);
    from + (span * (back + 1) / (back + ahead + 2)) as u32
}

// The times of the stop at a place.
fn times_at(stops: &[LoadedStop], place: usize) -> (u32, u32)
    requires { place < length stops.now }
    ensures { (stop : LoadedStop) → slice_get stops.now place ≡ Some stop
        → result ≡ spec.times_at stops.now place stop }
{
    if let Some(times) = stops[place].times {
        return times;
    }
    let (earlier, _) = stops.split_at(place);
    let (_, later) = stops.split_at(place + 1);
    let time = time_between(nearest_before(earlier), nearest_after(later));
    (time, time)
}

/// Adds the stops of a trip with their times at the end.
pub(crate) fn push_filled(stops: &[LoadedStop], into: &mut Vec<StopRow>) -> Result<(), AllocError>
    ensures added { OnOk result (into.new.items ≡ into.old.items ++ spec.filled stops.now) }
{
    for (place, stop) in stops.iter().enumerate() {
        let (arrival, departure) = times_at(stops, place);
        into.push(StopRow {
            sequence: stop.sequence,
            stop: stop.stop,
            arrival,
            departure,
        })?;
    }
    Ok(())
}

/// The lesser of two numbers, where there are such.
pub(crate) fn lesser(first: Option<u32>, second: Option<u32>) -> Option<u32>
    ensures { result ≡ spec.lesser first second }
{
    match (first, second) {
        (None, second) => second,
        (Some(first), None) => Some(first),
        (Some(first), Some(second)) => Some(first.min(second)),
    }
}

// The row of a stop that has no times.
fn untimed(stop: Option<&LoadedStop>) -> Option<u32>
    ensures { result ≡ spec.untimed (option_map (λ held. held.now) stop.entry) }
{
    match stop {
        Some(stop) => match stop.times {
            Some(_) => None,
            None => Some(stop.row),
        },
        None => None,
    }
}

/// The least row of a trip's first or last stop that has no times.
pub(crate) fn untimed_end(stops: &[LoadedStop]) -> Option<u32>
    ensures { result ≡ spec.untimed_end stops.now }
{
    lesser(untimed(stops.first()), untimed(stops.last()))
}
