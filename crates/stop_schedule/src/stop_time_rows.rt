//! The rows of `stop_times.txt`: the stops of each trip, in rising sequence.
ghost use Rattle.std.specs.Prelude.{◌≡◌, ◌≤◌, ◌+◌, true, ◌++◌, ◌∷◌, [], ℕ, Some, List, map, length, nat_le, slice_get, is_some, IfSome, IsTrue, OnOk};
ghost use Rattle.stop_schedule.specs.Answers.{Finds, HasFailed};
ghost use Rattle.stop_schedule.specs.Causes.{stop_time_fault};
ghost use Rattle.stop_schedule.specs.Forms as forms_of;
ghost use Rattle.stop_schedule.specs.Holding.{HoldsStops, IsKnown};
ghost use Rattle.timetable.specs.Ids.{are_ids};
ghost use Rattle.stop_schedule.specs.Keeping.{all_loaded, are_times, is_loaded};
ghost use Rattle.stop_schedule.specs.Limits.{row_limit as row_limit_of};
ghost use Rattle.timetable.specs.Limits.{stop_limit};
ghost use Rattle.stop_schedule.specs.Places.{stop_times_trip_id as trip_id, stop_times_stop_sequence as stop_sequence, stop_times_stop_id as stop_id, stop_times_arrival_time as arrival_time, stop_times_departure_time as departure_time};
ghost use Rattle.stop_schedule.specs.Sheet.{Row, nth};
ghost use Rattle.stop_schedule.specs.StopTimes as spec;
ghost use Rattle.stop_schedule.specs.TripStops.{stops_kept};
ghost use Rattle.stop_schedule.specs.declared.stop_times.LoadedStop.{LoadedStop as Loaded};
ghost use Rattle.stop_schedule.specs.declared.table_file.TableFile.TheVariants as File;

use crate::column::Column;
use crate::forms::{seconds, sequence};
use crate::guesses::Guesses;
use crate::id_fields::{find_from, find_in};
use crate::limits::{MAX_STOPS, row_limit};
use crate::sheet::Sheet;
use crate::stop_times::LoadedStop;
use crate::table_fault::TableFault;
use crate::table_file::TableFile;
use crate::taking::TakesRows;
use crate::trip_stops::TripStops;
use std::alloc::Global;
use timetable::{Ids, StopNo};

/// The stops of each trip of `trips.txt`, in rising sequence. Besides, where the next row's ids are looked for at
/// first: at the trip that began last, and at a guess of its stop.
#[derive(Drop)]
pub(crate) struct StopTimeRows<'a> {
    pub(crate) trips: &'a Ids,
    pub(crate) stops: &'a Ids,
    pub(crate) by_trip: Vec<TripStops>,
    pub(crate) last: u32,
    pub(crate) next_stop: Guesses,
}

// Whether a trip has no stops so far.
fn has_none(by_trip: &[TripStops], trip: u32) -> bool {
    match by_trip.get(trip as usize) {
        Some(held) => held.len() == 0,
        None => true,
    }
}

// Gives back the room that the stops of a trip don't take, and answers how many they are.
fn give_back(by_trip: &mut Vec<TripStops>, trip: u32) -> usize
    ensures { map stops_kept by_trip.new.items ≡ map stops_kept by_trip.old.items }
{
    match by_trip.get_mut(trip as usize) {
        Some(held) => {
            held.give_back();
            held.len()
        }
        None => 0,
    }
}

// Takes room for so many stops of a trip where there is memory for them.
fn make_room(by_trip: &mut Vec<TripStops>, trip: u32, count: usize)
    ensures { map stops_kept by_trip.new.items ≡ map stops_kept by_trip.old.items }
{
    if let Some(held) = by_trip.get_mut(trip as usize) {
        held.make_room(count);
    }
}

// Answers which trip began last, of which the next row is one of `trip`. Where that row is its first, the stops of the
// one that began before are mostly all there, and this one mostly has as many.
fn begin_trip(by_trip: &mut Vec<TripStops>, last: u32, trip: u32) -> u32
    ensures { map stops_kept by_trip.new.items ≡ map stops_kept by_trip.old.items }
{
    if !has_none(by_trip.as_slice(), trip) {
        return last;
    }
    let count = give_back(by_trip, last);
    make_room(by_trip, trip, count);
    trip
}

// The times of the row at hand: one time stands for both.
fn times(sheet: &Sheet<'_>) -> Option<(u32, u32)>
    ensures value { result ≡ spec.times sheet.now.row }
    ensures few { are_times result ≡ true }
{
    match (seconds(sheet.field(3)), seconds(sheet.field(4))) {
        (Some(arrival), Some(departure)) => Some((arrival, departure)),
        (Some(time), None) => Some((time, time)),
        (None, Some(time)) => Some((time, time)),
        (None, None) => None,
    }
}

// Whether the trip at a place has as many stops as it may have.
fn is_full(by_trip: &[TripStops], trip: u32) -> bool
    ensures { (held : List Loaded) → slice_get (map stops_kept by_trip.now) trip ≡ Some held
        → result ≡ nat_le stop_limit (length held) }
{
    match by_trip.get(trip as usize) {
        Some(held) => held.len() >= MAX_STOPS,
        None => false,
    }
}

// Puts the stop of a row among those of its trip, or tells the row's fault.
fn put(
    alloc: Global,
    by_trip: &mut Vec<TripStops>,
    trip: u32,
    loaded: LoadedStop,
    number: u64,
) -> Result<(), TableFault>
    ensures puts { (trips stops : List (List ℕ)) (before : List Row) (row : Row)
        → IsKnown trips stops number row trip loaded → number ≡ length before + 1
        → HoldsStops trips stops (map stops_kept by_trip.old.items) before
        → Finds (stop_time_fault trips stops before row)
        (λ _. HoldsStops trips stops (map stops_kept by_trip.new.items) (before ++ row ∷ [])) result }
    ensures loaded { (stops : ℕ) → is_loaded stops loaded ≡ true
        → all_loaded stops (map stops_kept by_trip.old.items) ≡ true
        → OnOk result (all_loaded stops (map stops_kept by_trip.new.items) ≡ true) }
    ensures no_failure { HasFailed result → ⊥ }
{
    let Some(held) = by_trip.get_mut(trip as usize) else {
        return Err(TableFault::Unknown(TableFile::StopTimes, number, Column::TripId));
    };
    if held.len() >= MAX_STOPS {
        return Err(TableFault::Limit(TableFile::StopTimes, number));
    }
    if held.add(alloc, &loaded)? {
        Ok(())
    } else {
        Err(TableFault::Duplicate(TableFile::StopTimes, number))
    }
}

// The numbers of the trip and the stop of the row at hand, where both are known, by numbers that are tried first.
fn known_ids(
    trips: &Ids,
    stops: &Ids,
    sheet: &Sheet<'_>,
    trip: u32,
    stop: u32,
) -> Option<(u32, u32)>
    ensures trip { IfSome result (λ known. slice_get trips.now known.0 ≡ Some (nth trip_id sheet.now.row)) }
    ensures stop { IfSome result (λ known. slice_get stops.now known.1 ≡ Some (nth stop_id sheet.now.row)) }
    ensures trips { IsTrue (are_ids trips.now) }
    ensures stops { IsTrue (are_ids stops.now) }
{
    let _ = (trips.len(), stops.len());
    let (Some(trip), Some(stop)) = (
        find_from(trips, sheet, 0, trip),
        find_from(stops, sheet, 2, stop),
    ) else {
        return None;
    };
    Some((trip, stop))
}

// The arrival and the departure of the row at hand, where both fields have a time.
fn known_times(sheet: &Sheet<'_>) -> Option<(u32, u32)>
    ensures arrival { IfSome result (λ known. forms_of.seconds (nth arrival_time sheet.now.row) ≡ Some known.0) }
    ensures departure { IfSome result (λ known. forms_of.seconds (nth departure_time sheet.now.row) ≡ Some known.1) }
    ensures few { IfSome result (λ known. are_times (Some known) ≡ true) }
{
    match (seconds(sheet.field(3)), seconds(sheet.field(4))) {
        (Some(arrival), Some(departure)) => Some((arrival, departure)),
        _ => None,
    }
}

// The stop of the row at hand by its number, where its fields have their forms and it has both times.
fn known_stop(sheet: &Sheet<'_>, number: u64, stop: u32) -> Option<LoadedStop>
    ensures sequence { IfSome result
        (λ known. forms_of.sequence (nth stop_sequence sheet.now.row) ≡ Some known.sequence) }
    ensures arrival { IfSome result (λ _. is_some (forms_of.seconds (nth arrival_time sheet.now.row)) ≡ true) }
    ensures departure { IfSome result (λ _. is_some (forms_of.seconds (nth departure_time sheet.now.row)) ≡ true) }
    ensures times { IfSome result (λ known. known.times ≡ spec.times sheet.now.row) }
    ensures counted { IfSome result
        (λ known. (number ≤ row_limit_of File.StopTimes) × (known.row ≡ number) × (known.stop.0 ≡ stop)) }
    ensures few { IfSome result (λ known. are_times known.times ≡ true) }
{
    if number > row_limit(TableFile::StopTimes) {
        return None;
    }
    let (Some(sequence), Some(times)) = (sequence(sheet.field(1)), known_times(sheet)) else {
        return None;
    };
    Some(LoadedStop {
        row: number as u32,
        sequence,
        stop: StopNo(stop),
        times: Some(times),
    })
}

// The trip and the stop of the row at hand, where it is seen at once that it has no fault by its fields.
fn known_row(
    trips: &Ids,
    stops: &Ids,
    sheet: &Sheet<'_>,
    number: u64,
    trip: u32,
    stop: u32,
) -> Option<(u32, LoadedStop)>
    ensures known { IfSome result (λ known. IsKnown trips.now stops.now number sheet.now.row known.0 known.1) }
    ensures loaded { IfSome result (λ known. is_loaded (length stops.now) known.1 ≡ true) }
{
    let (trip, stop) = known_ids(trips, stops, sheet, trip, stop)?;
    match known_stop(sheet, number, stop) {
        Some(loaded) => Some((trip, loaded)),
        None => None,
    }
}

impl<'a> TakesRows for StopTimeRows<'a> {
    ghost use Rattle.std.specs.Prelude.{◌≡◌, true, length, map};
    ghost use Rattle.stop_schedule.specs.Causes.{stop_time_fault};
    ghost use Rattle.stop_schedule.specs.Holding.{HoldsStops};
    ghost use Rattle.stop_schedule.specs.Keeping.{all_loaded};
    ghost use Rattle.stop_schedule.specs.TripStops.{stops_kept};
    ghost use Rattle.stop_schedule.specs.declared.table_file.TableFile.TheVariants.{StopTimes};

    ghost file_of = { λ _. StopTimes };

    ghost fault = { λ taker. stop_time_fault taker.trips.now taker.stops.now };

    ghost given = { λ taker. length taker.stops.now };

    ghost Keeps = { λ taker _. all_loaded (length taker.stops.now) (map stops_kept taker.by_trip.items) ≡ true };

    ghost Holds = { λ start taker rows. (taker.trips.now ≡ start.trips.now) × (taker.stops.now ≡ start.stops.now)
        × HoldsStops taker.trips.now taker.stops.now (map stops_kept taker.by_trip.items) rows };

    fn file(&self) -> TableFile {
        TableFile::StopTimes
    }

    fn take(&mut self, alloc: Global, sheet: &Sheet<'_>, number: u64) -> Result<(), TableFault> {
        let Some(trip) = find_from(self.trips, sheet, 0, self.last) else {
            return Err(TableFault::Unknown(TableFile::StopTimes, number, Column::TripId));
        };
        self.last = begin_trip(&mut self.by_trip, self.last, trip);
        if is_full(self.by_trip.as_slice(), trip) {
            return Err(TableFault::Limit(TableFile::StopTimes, number));
        }
        let Some(stop) = find_in(self.stops, sheet, 2) else {
            return Err(TableFault::Unknown(TableFile::StopTimes, number, Column::StopId));
        };
        let Some(sequence) = sequence(sheet.field(1)) else {
            return Err(TableFault::Unknown(TableFile::StopTimes, number, Column::StopSequence));
        };
        let loaded = LoadedStop {
            row: number as u32,
            sequence,
            stop: StopNo(stop),
            times: times(sheet),
        };
        put(alloc, &mut self.by_trip, trip, loaded, number)
    }

    fn take_known(
        &mut self,
        alloc: Global,
        sheet: &Sheet<'_>,
        number: u64,
    ) -> Option<Result<(), TableFault>> {
        let stop = self.next_stop.next();
        let (trip, loaded) = known_row(self.trips, self.stops, sheet, number, self.last, stop)?;
        self.next_stop.note(loaded.stop.0);
        self.last = begin_trip(&mut self.by_trip, self.last, trip);
        Some(put(alloc, &mut self.by_trip, trip, loaded, number))
    }
}
