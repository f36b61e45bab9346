//! All files of a folder, read in their order. The functions meet `specs/Timetable.antt`.
ghost use Rattle.std.specs.Prelude.{◌≡◌, true, map, length, IfOk, IfSome};
ghost use Rattle.gw_base.specs.Count.{Counts};
ghost use Rattle.stop_schedule.specs.Failures.{FileFailed, IfFailed, NamesFailed, RestFailed, RunsFailed, StopsFailed};
ghost use Rattle.stop_schedule.specs.Answers.{Finds, HasFailed};
ghost use Rattle.stop_schedule.specs.Folder.{HoldsFolder, HoldsRest, HoldsRuns, IsLoaded};
ghost use Rattle.stop_schedule.specs.Holding.{HoldsStopNames, HoldsStops};
ghost use Rattle.stop_schedule.specs.Keeping.{HasTrips, all_loaded};
ghost use Rattle.stop_schedule.specs.Sheet.{rows_in};
ghost use Rattle.stop_schedule.specs.TripStops.{stops_kept};
ghost use Rattle.stop_schedule.specs.Trips.{is_carried};
ghost use Rattle.stop_schedule.specs.Timetable.{files_fault, ids_in, rest_fault, runs_fault, stops_fault, names_fault, sheets_in};
ghost use Rattle.stop_schedule.specs.declared.table_file.TableFile.TheVariants as File;
ghost use Rattle.timetable.specs.Held.{are_stations};

use crate::loading::{
    Trips, read_frequencies, read_routes, read_services, read_stop_names, read_stop_times,
    read_trips, read_zones,
};
use crate::table_fault::TableFault;
use crate::table_file::TableFile;
use crate::trip_stops::TripStops;
use gw_base::{Bytes, Files, List};
use std::alloc::Global;
use timetable::{Ids, Services, StopNo};

/// What is made of the rows of a folder's files.
#[derive(Drop)]
pub(crate) struct FolderRows {
    pub(crate) stops: Ids,
    pub(crate) routes: Ids,
    pub(crate) trips: Trips,
    pub(crate) services: Services,
    pub(crate) carried: Vec<bool>,
    pub(crate) by_trip: Vec<TripStops>,
}

// The ids of the stops and the routes, and the stations of the stops.
#[derive(Drop)]
struct Names {
    stops: Ids,
    stations: Vec<StopNo>,
    routes: Ids,
}

// Reads `agency.txt`, `stops.txt` and `routes.txt`.
fn read_names<F: Files>(
    alloc: Global,
    files: &mut F,
    dir: &str,
    buffer: &mut Bytes,
) -> Result<Names, TableFault>
    ensures exact { IfSome (F.told files.old) (λ told. Finds (names_fault (sheets_in told dir.now))
        (λ names. HoldsStopNames names.stops names.stations.items (rows_in (sheets_in told dir.now File.Stops))
        × (names.routes ≡ ids_in (sheets_in told dir.now) File.Routes)) result) }
    ensures known { IfOk result (λ names. are_stations (length names.stops) names.stations.items ≡ true) }
    ensures counts { Counts (HasFailed result) (F.faults files.old) (F.faults files.new) }
    ensures failed { IfFailed result
        (λ named. IfSome (F.told files.old) (λ told. NamesFailed (sheets_in told dir.now) named)) }
    ensures same { F.told files.new ≡ F.told files.old }
{
    read_zones(alloc, files, dir, buffer)?;
    let (stops, stations) = read_stop_names(alloc, files, dir, buffer)?;
    let routes = read_routes(alloc, files, dir, buffer)?;
    Ok(Names {
        stops,
        stations,
        routes,
    })
}

// Reads `trips.txt` and the calendar files.
fn read_runs<F: Files>(
    alloc: Global,
    files: &mut F,
    dir: &str,
    buffer: &mut Bytes,
    routes: &Ids,
) -> Result<(Trips, Services), TableFault>
    ensures exact { IfSome (F.told files.old) (λ told. Finds (runs_fault routes.now (sheets_in told dir.now))
        (λ found. HoldsRuns routes.now found.0.ids found.0.routes.items found.0.services.items found.1.calendars
        found.1.exceptions (sheets_in told dir.now)) result) }
    ensures trips { IfOk result (λ found. HasTrips (length routes.now) found.0.ids found.0.routes.items) }
    ensures counts { Counts (HasFailed result) (F.faults files.old) (F.faults files.new) }
    ensures failed { IfFailed result
        (λ named. IfSome (F.told files.old) (λ told. RunsFailed routes.now (sheets_in told dir.now) named)) }
    ensures same { F.told files.new ≡ F.told files.old }
{
    let (trips, services) = read_trips(alloc, files, dir, buffer, routes)?;
    let services = read_services(alloc, files, dir, buffer, services)?;
    Ok((trips, services))
}

// Reads `frequencies.txt` and `stop_times.txt`.
fn read_stops<F: Files>(
    alloc: Global,
    files: &mut F,
    dir: &str,
    buffer: &mut Bytes,
    trips: &Ids,
    stops: &Ids,
) -> Result<(Vec<bool>, Vec<TripStops>), TableFault>
    ensures exact { IfSome (F.told files.old) (λ told. Finds (stops_fault trips.now stops.now (sheets_in told dir.now))
        (λ found. (found.0.items ≡ map (is_carried (rows_in (sheets_in told dir.now File.Frequencies))) trips.now)
        × HoldsStops trips.now stops.now (map stops_kept found.1.items)
        (rows_in (sheets_in told dir.now File.StopTimes))) result) }
    ensures loaded { IfOk result (λ found. all_loaded (length stops.now) (map stops_kept found.1.items) ≡ true) }
    ensures counts { Counts (HasFailed result) (F.faults files.old) (F.faults files.new) }
    ensures failed { IfFailed result
        (λ named. IfSome (F.told files.old) (λ told. StopsFailed trips.now (sheets_in told dir.now) named)) }
    ensures same { F.told files.new ≡ F.told files.old }
{
    let carried = read_frequencies(alloc, files, dir, buffer, trips)?;
    let by_trip = read_stop_times(alloc, files, dir, buffer, trips, stops)?;
    Ok((carried, by_trip))
}

// Reads the files after those of the names.
fn read_rest<F: Files>(
    alloc: Global,
    files: &mut F,
    dir: &str,
    buffer: &mut Bytes,
    stops: Ids,
    routes: Ids,
) -> Result<FolderRows, TableFault>
    ensures exact { IfSome (F.told files.old) (λ told. Finds (rest_fault routes stops (sheets_in told dir.now))
        (λ folder. HoldsRest stops routes folder (sheets_in told dir.now)) result) }
    ensures loaded { IfOk result IsLoaded }
    ensures stops { IfOk result (λ folder. folder.stops ≡ stops) }
    ensures counts { Counts (HasFailed result) (F.faults files.old) (F.faults files.new) }
    ensures failed { IfFailed result
        (λ named. IfSome (F.told files.old) (λ told. RestFailed routes (sheets_in told dir.now) named)) }
    ensures same { F.told files.new ≡ F.told files.old }
{
    let (trips, services) = match read_runs(alloc, files, dir, buffer, &routes) {
        Ok(found) => found,
        Err(fault) => return Err(fault),
    };
    match read_stops(alloc, files, dir, buffer, &trips.ids, &stops) {
        Ok((carried, by_trip)) => Ok(FolderRows {
            stops,
            routes,
            trips,
            services,
            carried,
            by_trip,
        }),
        Err(fault) => Err(fault),
    }
}

/// Reads all files of a folder, each into the same buffer, and answers the stations of the stops beside what is made of
/// the rows.
pub(crate) fn read_folder<F: Files>(
    alloc: Global,
    files: &mut F,
    dir: &str,
) -> Result<(FolderRows, Vec<StopNo>), TableFault>
    ensures exact { IfSome (F.told files.old) (λ told. Finds (files_fault (sheets_in told dir.now))
        (λ found. HoldsFolder found.0 found.1.items (sheets_in told dir.now)) result) }
    ensures loaded { IfOk result (λ found. IsLoaded found.0) }
    ensures known { IfOk result (λ found. are_stations (length found.0.stops) found.1.items ≡ true) }
    ensures counts { Counts (HasFailed result) (F.faults files.old) (F.faults files.new) }
    ensures failed { IfFailed result
        (λ named. IfSome (F.told files.old) (λ told. FileFailed (sheets_in told dir.now) named)) }
    ensures same { F.told files.new ≡ F.told files.old }
{
    let mut buffer = List::new(alloc);
    let Names {
        stops,
        stations,
        routes,
    } = match read_names(alloc, files, dir, &mut buffer) {
        Ok(names) => names,
        Err(fault) => return Err(fault),
    };
    match read_rest(alloc, files, dir, &mut buffer, stops, routes) {
        Ok(folder) => Ok((folder, stations)),
        Err(fault) => Err(fault),
    }
}
