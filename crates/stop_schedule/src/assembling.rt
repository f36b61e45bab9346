//! The timetable of what was read of a folder. The functions meet `specs/Timetable.antt`.
ghost use Rattle.std.specs.Prelude.{◌≡◌, ◌<◌, ◌≤◌, ◌++◌, ◌∷◌, if◌then◌else◌, ℕ, List, true, false, [], length, map, slice_index_or, IfErr, IfOk, IfSome, OnOk};
ghost use Rattle.gw_base.specs.Count.{Counts};
ghost use Rattle.stop_schedule.specs.Failures.{FileFailed, IfFailed};
ghost use Rattle.stop_schedule.specs.Answers.{HasFailed};
ghost use Rattle.stop_schedule.specs.Carrying.{Adds, Carries, carried_to, ids_to};
ghost use Rattle.stop_schedule.specs.Folder.{HoldsFolder, IsLoaded};
ghost use Rattle.timetable.specs.Ids.{has_id};
ghost use Rattle.stop_schedule.specs.Reading.{Assembles, IsAssembled, Reads};
ghost use Rattle.stop_schedule.specs.Timetable.{Sheets, sheets_in, timetable as timetable_of};
ghost use Rattle.stop_schedule.specs.TripStops.{stops_kept};
ghost use Rattle.timetable.specs.Held.{are_stations};

use crate::folder_rows::{FolderRows, read_folder};
use crate::loading::Trips;
use crate::stop_times::{LoadedStop, lesser, push_filled, untimed_end};
use crate::table_fault::TableFault;
use crate::trip_stops::TripStops;
use gw_base::Files;
use std::alloc::{AllocError, Global};
use timetable::{CarriedTrip, Ids, StopNo, StopRow, Timetable};

// The trips that are carried so far, with their stops one after the other, and the least row of an end without
// times.
#[derive(Drop)]
struct Assembled {
    carried: Vec<CarriedTrip>,
    stop_rows: Vec<StopRow>,
    untimed: Option<u32>,
}

// Adds a trip, but for its id.
fn add_trip(
    all: &mut Assembled,
    route: u32,
    service: u32,
    stops: &[LoadedStop],
) -> Result<(), AllocError>
    ensures { OnOk result ((id : List ℕ)
        → Adds all.old all.new (record { id = id; route = route; service = service; stops = stops.now })) }
{
    let first = all.stop_rows.as_slice().len();
    push_filled(stops, &mut all.stop_rows)?;
    let end = all.stop_rows.as_slice().len();
    all.carried.push(CarriedTrip {
        route,
        service,
        first,
        end,
    })?;
    all.untimed = lesser(all.untimed, untimed_end(stops));
    Ok(())
}

// The number at a place.
fn number_at(numbers: &[u32], place: usize) -> u32
    ensures { result ≡ slice_index_or numbers.now place 0 }
{
    numbers.get(place).copied().unwrap_or(0)
}

// Whether the trip at a place is carried.
fn is_carried_at(carried: &[bool], place: usize) -> bool
    ensures { result ≡ slice_index_or carried.now place false }
{
    carried.get(place).copied().unwrap_or(false)
}

// Writes the stops of the trip at a place in place of those that are there.
fn put_stops_at(
    by_trip: &[TripStops],
    place: usize,
    into: &mut Vec<LoadedStop>,
) -> Result<(), AllocError>
    ensures { OnOk result (into.new.items ≡ slice_index_or (map stops_kept by_trip.now) place []) }
{
    into.clear();
    match by_trip.get(place) {
        Some(held) => held.copy_to(into),
        None => Ok(()),
    }
}

// The trips that are carried, with their stops.
fn carried_trips(
    alloc: Global,
    trips: &Trips,
    carried: &[bool],
    by_trip: &[TripStops],
) -> Result<Assembled, AllocError>
    ensures { IfOk result (λ all. Carries all (carried_to (record {
      ids = trips.now.ids;
      routes = trips.now.routes.items;
      services = trips.now.services.items;
      carried = carried.now;
      by_trip = map stops_kept by_trip.now;
    }) (length trips.now.ids))) }
{
    let mut all = Assembled {
        carried: Vec::new(alloc),
        stop_rows: Vec::new(alloc),
        untimed: None,
    };
    let mut stops = Vec::new(alloc);
    for place in 0..trips.ids.len() {
        if is_carried_at(carried, place) {
            let route = number_at(trips.routes.as_slice(), place);
            let service = number_at(trips.services.as_slice(), place);
            put_stops_at(by_trip, place, &mut stops)?;
            add_trip(&mut all, route, service, stops.as_slice())?;
        }
    }
    Ok(all)
}

// Whether all of so many trips are carried.
fn are_all_carried(carried: &[bool], count: usize) -> bool
    ensures { result ≡ true → (place : ℕ) → place < count → slice_index_or carried.now place false ≡ true }
{
    carried.len() >= count && carried.iter().all(|one| *one)
}

// Adds the id at a place where its trip is carried; it is new there.
fn keep_at(
    alloc: Global,
    kept: &mut Ids,
    ids: &Ids,
    carried: &[bool],
    place: usize,
) -> Result<(), AllocError>
    requires within { place < length ids.now }
    requires new { has_id (slice_index_or ids.now place []) kept.old ≡ false }
    requires room { length kept.old ≤ place }
    ensures { OnOk result (kept.new ≡ kept.old
        ++ (if slice_index_or carried.now place false then slice_index_or ids.now place [] ∷ [] else [])) }
{
    if !is_carried_at(carried, place) {
        return Ok(());
    }
    let _ = ids.len();
    let added = kept.add(alloc, ids.at(place as u32).as_bytes())?;
    prove!(added);
    Ok(())
}

// The ids of the trips that are carried: where all are, all the ids as they stand.
fn carried_ids(alloc: Global, ids: Ids, carried: &[bool]) -> Result<Ids, AllocError>
    ensures { IfOk result (λ kept. kept ≡ ids_to ids carried.now (length ids)) }
{
    if are_all_carried(carried, ids.len()) {
        return Ok(ids);
    }
    let mut kept = Ids::new(alloc);
    for place in 0..ids.len() {
        keep_at(alloc, &mut kept, &ids, carried, place)?;
    }
    Ok(kept)
}

// The timetable of what was read.
fn assemble(
    alloc: Global,
    folder: FolderRows,
    stations: Vec<StopNo>,
) -> Result<Timetable, TableFault>
    requires loaded { IsLoaded folder }
    requires known { are_stations (length folder.stops) stations.items ≡ true }
    ensures exact { (sheets : Sheets) → HoldsFolder folder stations.items sheets → Assembles sheets result }
    ensures faults { IfErr result IsAssembled }
{
    let FolderRows {
        stops,
        routes,
        trips,
        services,
        carried,
        by_trip,
    } = folder;
    let all = carried_trips(alloc, &trips, carried.as_slice(), by_trip.as_slice())?;
    if let Some(row) = all.untimed {
        return Err(TableFault::UntimedEnd(row as u64));
    }
    let Trips {
        ids,
        routes: _,
        services: _,
    } = trips;
    let trips = carried_ids(alloc, ids, carried.as_slice())?;
    let Assembled {
        carried,
        stop_rows,
        untimed: _,
    } = all;
    Ok(Timetable::new(trips, stops, routes, carried, stop_rows, services, stations))
}

/// Reads the timetable of the folder `dir` (GTFS Schedule reference): `agency.txt`, `stops.txt`, `routes.txt`,
/// `trips.txt`, `calendar.txt`, `calendar_dates.txt`, `frequencies.txt` and `stop_times.txt`, in this order.
///
/// A fault comes exactly where it is the first of the folder. `Failed` comes only where the files met a fault in
/// this call, and no file that is read before the one that it names has a fault.
pub fn read_timetable<F: Files>(
    alloc: Global,
    files: &mut F,
    dir: &str,
) -> Result<Timetable, TableFault>
    ensures exact { IfSome (F.told files.old) (λ told. Reads (timetable_of told dir.now) result) }
    ensures counts { Counts (HasFailed result) (F.faults files.old) (F.faults files.new) }
    ensures failed { IfFailed result
        (λ named. IfSome (F.told files.old) (λ told. FileFailed (sheets_in told dir.now) named)) }
    ensures same { F.told files.new ≡ F.told files.old }
{
    match read_folder(alloc, files, dir) {
        Ok((folder, stations)) => assemble(alloc, folder, stations),
        Err(fault) => Err(fault),
    }
}
