//! The rows of `stops.txt`: ids that differ, and the stations of the stops. A station may stand behind the stops that
//! name it, so the rows are taken twice where one of them names a parent.
ghost use Rattle.std.specs.Prelude.{◌≡◌, Some, map, length, true, false, IfOk};
ghost use Rattle.std.specs.Option.{MatchOption};
ghost use Rattle.std.specs.Str.{is_utf8};
ghost use Rattle.stop_schedule.specs.Answers.{Finds, HasFailed};
ghost use Rattle.std.specs.List.{list_any};
ghost use Rattle.stop_schedule.specs.Causes.{duplicate_fault, is_unknown_parent, parent_fault};
ghost use Rattle.stop_schedule.specs.Faults.{fault_in};
ghost use Rattle.stop_schedule.specs.Holding.{HoldsStopNames};
ghost use Rattle.stop_schedule.specs.Places.{own_id, stops_parent_station};
ghost use Rattle.stop_schedule.specs.Rows.{rows as rows_of};
ghost use Rattle.stop_schedule.specs.Sheet.{nth, rows_in, sheet_of};
ghost use Rattle.stop_schedule.specs.Stations as spec;
ghost use Rattle.stop_schedule.specs.Timetable.{stop_names_fault};
ghost use Rattle.stop_schedule.specs.declared.table_file.TableFile.TheVariants as File;
ghost use Rattle.timetable.specs.Held.{are_stations};
ghost use Rattle.timetable.specs.declared.numbers.StopNo.{StopNo};

use crate::column::Column;
use crate::id_fields::find_from;
use crate::sheet::Sheet;
use crate::table_fault::TableFault;
use crate::table_file::TableFile;
use crate::taking::{TakesRows, take_bytes};
use std::alloc::Global;
use timetable::{Ids, StopNo};

/// The ids of the rows, in order, and whether one of them names a parent.
#[derive(Drop)]
struct StopRows {
    ids: Ids,
    has_parents: bool,
}

impl TakesRows for StopRows {
    ghost use Rattle.std.specs.Prelude.{◌≡◌, ◌<◌, map, length};
    ghost use Rattle.std.specs.List.{list_any};
    ghost use Rattle.stop_schedule.specs.Causes.{duplicate_fault};
    ghost use Rattle.stop_schedule.specs.Places.{own_id};
    ghost use Rattle.stop_schedule.specs.Sheet.{nth};
    ghost use Rattle.stop_schedule.specs.Stations.{has_parent};
    ghost use Rattle.stop_schedule.specs.declared.table_file.TableFile.TheVariants.{Stops};

    ghost file_of = { λ _. Stops };

    ghost fault = { λ _. duplicate_fault Stops };

    ghost given = { λ _. 0 };

    ghost Keeps = { λ taker number. length taker.ids < number };

    ghost Holds = { λ _ taker rows. (taker.ids ≡ map (nth own_id) rows)
        × (taker.has_parents ≡ list_any has_parent rows) };

    fn file(&self) -> TableFile {
        TableFile::Stops
    }

    fn take(&mut self, alloc: Global, sheet: &Sheet<'_>, number: u64) -> Result<(), TableFault> {
        let added = self.ids.add(alloc, sheet.field(0))?;
        if !added {
            return Err(TableFault::Duplicate(TableFile::Stops, number));
        }
        self.has_parents = self.has_parents || names_parent(sheet);
        Ok(())
    }
}

// Whether the row at hand names a parent.
fn names_parent(sheet: &Sheet<'_>) -> bool
    ensures { result ≡ spec.has_parent sheet.now.row }
{
    !sheet.field(1).is_empty()
}

/// The stations of the stops of the rows, and the number of the one that came last.
#[derive(Drop)]
struct ParentRows<'a> {
    stops: &'a Ids,
    stations: Vec<StopNo>,
    last: u32,
}

impl<'a> TakesRows for ParentRows<'a> {
    ghost use Rattle.std.specs.Prelude.{◌≡◌, ◌<◌, map, length};
    ghost use Rattle.stop_schedule.specs.Causes.{parent_fault};
    ghost use Rattle.stop_schedule.specs.Stations.{stations_from};
    ghost use Rattle.stop_schedule.specs.declared.table_file.TableFile.TheVariants.{Stops};
    ghost use Rattle.timetable.specs.declared.numbers.StopNo.{StopNo};

    ghost file_of = { λ _. Stops };

    ghost fault = { λ taker. parent_fault taker.stops.now };

    ghost given = { λ taker. length taker.stops.now };

    ghost Keeps = { λ taker number. length taker.stations.items < number };

    ghost Holds = { λ start taker rows. (taker.stops.now ≡ start.stops.now)
        × (map (λ (station : StopNo). station.0) taker.stations.items ≡ stations_from taker.stops.now 0 rows) };

    fn file(&self) -> TableFile {
        TableFile::Stops
    }

    fn take(&mut self, _alloc: Global, sheet: &Sheet<'_>, number: u64) -> Result<(), TableFault> {
        let own = self.stations.as_slice().len() as u32;
        let Some(station) = find_station(self.stops, sheet, own, self.last) else {
            return Err(TableFault::Unknown(TableFile::Stops, number, Column::ParentStation));
        };
        self.stations.push(StopNo(station))?;
        self.last = station;
        Ok(())
    }
}

// The number of the station of the row at hand, whose own number is given, by a number that is tried first; None where
// its parent is no stop.
fn find_station(stops: &Ids, sheet: &Sheet<'_>, own: u32, tried: u32) -> Option<u32>
    requires { is_utf8 (nth stops_parent_station sheet.now.row) ≡ true }
    ensures cases { MatchOption result (is_unknown_parent stops.now sheet.now.row ≡ true)
        (λ station. (is_unknown_parent stops.now sheet.now.row ≡ false)
        × (station ≡ spec.station_in stops.now (Some sheet.now.row) own)) }
{
    if !names_parent(sheet) {
        return Some(own);
    }
    find_from(stops, sheet, 1, tried)
}

// The stations of the stops by the bytes of the file, whose rows have no other fault.
fn stations_of(alloc: Global, bytes: &[u8], stops: &Ids) -> Result<Vec<StopNo>, TableFault>
    ensures exact { Finds (fault_in File.Stops (parent_fault stops.now) (sheet_of File.Stops (rows_of bytes.now)))
        (λ stations. map (λ (station : StopNo). station.0) stations.items
        ≡ spec.stations_from stops.now 0 (rows_in (Some (sheet_of File.Stops (rows_of bytes.now))))) result }
    ensures no_failure { HasFailed result → ⊥ }
{
    let mut stations = Vec::new(alloc);
    let _ = stations.reserve_exact(stops.len());
    let mut rows = ParentRows {
        stops,
        stations,
        last: 0,
    };
    if let Err(fault) = take_bytes(alloc, bytes, &mut rows) {
        return Err(fault);
    }
    let ParentRows {
        stops: _,
        stations,
        last: _,
    } = rows;
    Ok(stations)
}

// The ids of the stops by the bytes of the file, and whether one of them has a parent.
fn ids_of(alloc: Global, bytes: &[u8]) -> Result<StopRows, TableFault>
    ensures exact { Finds (fault_in File.Stops (duplicate_fault File.Stops) (sheet_of File.Stops (rows_of bytes.now)))
        (λ found. (found.ids ≡ map (nth own_id) (rows_in (Some (sheet_of File.Stops (rows_of bytes.now)))))
        × (found.has_parents
        ≡ list_any spec.has_parent (rows_in (Some (sheet_of File.Stops (rows_of bytes.now)))))) result }
    ensures no_failure { HasFailed result → ⊥ }
{
    let mut rows = StopRows {
        ids: Ids::new(alloc),
        has_parents: false,
    };
    match take_bytes(alloc, bytes, &mut rows) {
        Ok(()) => Ok(rows),
        Err(fault) => Err(fault),
    }
}

/// The ids of the stops by the bytes of `stops.txt`, and their stations, of which there are none where no stop has a
/// parent.
pub(crate) fn names_of(alloc: Global, bytes: &[u8]) -> Result<(Ids, Vec<StopNo>), TableFault>
    ensures exact { Finds (stop_names_fault (Some (sheet_of File.Stops (rows_of bytes.now))))
        (λ found. HoldsStopNames found.0 found.1.items (rows_in (Some (sheet_of File.Stops (rows_of bytes.now)))))
        result }
    ensures known { IfOk result (λ found. are_stations (length found.0) found.1.items ≡ true) }
    ensures no_failure { HasFailed result → ⊥ }
{
    let StopRows { ids, has_parents } = match ids_of(alloc, bytes) {
        Ok(rows) => rows,
        Err(fault) => return Err(fault),
    };
    if !has_parents {
        return Ok((ids, Vec::new(alloc)));
    }
    match stations_of(alloc, bytes, &ids) {
        Ok(stations) => Ok((ids, stations)),
        Err(fault) => Err(fault),
    }
}
