//! The files of a folder, each with what is made of its rows. The functions meet `specs/Timetable.antt`.
ghost use Rattle.std.specs.Prelude.{◌≡◌, ◌≤◌, ◌+◌, [], ⊤, true, map, length, is_some, IfOk, IfSome, OnOk};
ghost use Rattle.stop_schedule.specs.Keeping.{HasTrips, KeepsTo, all_loaded};
ghost use Rattle.stop_schedule.specs.Limits.{row_limit};
ghost use Rattle.stop_schedule.specs.Places.{own_id};
ghost use Rattle.gw_base.specs.Count.{Counts};
ghost use Rattle.stop_schedule.specs.Failures.{DaysFailed, IfFailed, Is};
ghost use Rattle.stop_schedule.specs.Answers.{Finds, HasFailed};
ghost use Rattle.stop_schedule.specs.Causes.{zone_fault, duplicate_fault, trip_fault, calendar_fault, date_fault, frequency_fault, stop_time_fault};
ghost use Rattle.stop_schedule.specs.Faults.{optional_fault};
ghost use Rattle.stop_schedule.specs.Holding.{HoldsCalendars, HoldsDates, HoldsTrips, HoldsServices, HoldsStopNames, HoldsStops};
ghost use Rattle.stop_schedule.specs.Reading.{ReadsNeeded, ReadsRows};
ghost use Rattle.stop_schedule.specs.Timetable.{calendars_fault, sheets_in, stop_names_fault};
ghost use Rattle.stop_schedule.specs.Sheet.{nth, rows_in};
ghost use Rattle.stop_schedule.specs.TripStops.{stops_kept};
ghost use Rattle.stop_schedule.specs.Trips.{is_carried};
ghost use Rattle.stop_schedule.specs.declared.table_file.TableFile.TheVariants as File;
ghost use Rattle.timetable.specs.Held.{are_stations};

use crate::folder::read_file;
use crate::frequency_rows::FrequencyRows;
use crate::guesses::Guesses;
use crate::route_rows::RouteRows;
use crate::service_rows::{CalendarRows, DateRows};
use crate::stop_rows::names_of;
use crate::stop_time_rows::StopTimeRows;
use crate::table_fault::TableFault;
use crate::table_file::TableFile;
use crate::taking::{TakesRows, read_rows};
use crate::trip_rows::TripRows;
use crate::trip_stops::TripStops;
use crate::zone_rows::ZoneRows;
use gw_base::{Bytes, Files};
use std::alloc::{AllocError, Global};
use std::collections::HashMap;
use timetable::{Ids, Services, StopNo};

/// The trips of `trips.txt` with the numbers of their routes and services.
#[derive(Drop)]
pub(crate) struct Trips {
    pub(crate) ids: Ids,
    pub(crate) routes: Vec<u32>,
    pub(crate) services: Vec<u32>,
}

// Reads a file that has to be there.
fn read_needed<F: Files, T: TakesRows>(
    alloc: Global,
    files: &mut F,
    dir: &str,
    buffer: &mut Bytes,
    taker: &mut T,
) -> Result<(), TableFault>
    requires { T.Keeps taker.old 1 }
    ensures exact { IfSome (F.told files.old) (λ told. T.Holds taker.old taker.old []
        → ReadsNeeded (T.file_of taker.old) (T.fault taker.old) (λ _. T.Holds taker.old taker.new)
        (sheets_in told dir.now) result) }
    ensures keeps { OnOk result (KeepsTo T.Keeps taker.new (row_limit (T.file_of taker.old))) }
    ensures same_given { T.given taker.new ≡ T.given taker.old }
    ensures counts { Counts (HasFailed result) (F.faults files.old) (F.faults files.new) }
    ensures failed { IfFailed result (λ named. named ≡ T.file_of taker.old) }
    ensures same { F.told files.new ≡ F.told files.old }
{
    if !read_rows(alloc, files, dir, buffer, taker)? {
        return Err(TableFault::Missing(taker.file()));
    }
    Ok(())
}

/// Reads `agency.txt`.
pub(crate) fn read_zones<F: Files>(
    alloc: Global,
    files: &mut F,
    dir: &str,
    buffer: &mut Bytes,
) -> Result<(), TableFault>
    ensures exact { IfSome (F.told files.old)
        (λ told. ReadsNeeded File.Agency zone_fault (λ _ _. ⊤) (sheets_in told dir.now) result) }
    ensures counts { Counts (HasFailed result) (F.faults files.old) (F.faults files.new) }
    ensures failed { IfFailed result (Is File.Agency) }
    ensures same { F.told files.new ≡ F.told files.old }
{
    let mut zones = ZoneRows { first: None };
    read_needed(alloc, files, dir, buffer, &mut zones)
}

/// Reads `stops.txt`, and answers the ids of the stops, and their stations, of which there are none where no stop has a
/// parent.
pub(crate) fn read_stop_names<F: Files>(
    alloc: Global,
    files: &mut F,
    dir: &str,
    buffer: &mut Bytes,
) -> Result<(Ids, Vec<StopNo>), TableFault>
    ensures exact { IfSome (F.told files.old) (λ told. Finds (stop_names_fault (sheets_in told dir.now File.Stops))
        (λ found. HoldsStopNames found.0 found.1.items (rows_in (sheets_in told dir.now File.Stops))) result) }
    ensures known { IfOk result (λ found. are_stations (length found.0) found.1.items ≡ true) }
    ensures counts { Counts (HasFailed result) (F.faults files.old) (F.faults files.new) }
    ensures failed { IfFailed result (Is File.Stops) }
    ensures same { F.told files.new ≡ F.told files.old }
{
    if !read_file(alloc, files, dir, TableFile::Stops, buffer)? {
        return Err(TableFault::Missing(TableFile::Stops));
    }
    match names_of(alloc, buffer.as_slice()) {
        Ok(found) => Ok(found),
        Err(fault) => Err(fault),
    }
}

/// Reads `routes.txt`, and answers the ids of the routes.
pub(crate) fn read_routes<F: Files>(
    alloc: Global,
    files: &mut F,
    dir: &str,
    buffer: &mut Bytes,
) -> Result<Ids, TableFault>
    ensures exact { IfSome (F.told files.old)
        (λ told. ReadsNeeded File.Routes (duplicate_fault File.Routes) (λ ids rows. ids ≡ map (nth own_id) rows)
        (sheets_in told dir.now) result) }
    ensures counts { Counts (HasFailed result) (F.faults files.old) (F.faults files.new) }
    ensures failed { IfFailed result (Is File.Routes) }
    ensures same { F.told files.new ≡ F.told files.old }
{
    let mut rows = RouteRows {
        ids: Ids::new(alloc),
    };
    if let Err(fault) = read_needed(alloc, files, dir, buffer, &mut rows) {
        return Err(fault);
    }
    let RouteRows { ids } = rows;
    Ok(ids)
}

/// Reads `trips.txt`, and answers the services too.
pub(crate) fn read_trips<F: Files>(
    alloc: Global,
    files: &mut F,
    dir: &str,
    buffer: &mut Bytes,
    routes: &Ids,
) -> Result<(Trips, Ids), TableFault>
    ensures exact { IfSome (F.told files.old) (λ told. ReadsNeeded File.Trips (trip_fault routes.now)
        (λ found. HoldsTrips routes.now found.1 found.0.ids found.0.routes.items found.0.services.items)
        (sheets_in told dir.now) result) }
    ensures trips { IfOk result (λ found. HasTrips (length routes.now) found.0.ids found.0.routes.items) }
    ensures few { IfOk result (λ found. length found.1 ≤ row_limit File.Trips) }
    ensures counts { Counts (HasFailed result) (F.faults files.old) (F.faults files.new) }
    ensures failed { IfFailed result (Is File.Trips) }
    ensures same { F.told files.new ≡ F.told files.old }
{
    let next_route = Guesses::among(alloc, routes)?;
    let mut rows = TripRows {
        known_routes: routes,
        services: Ids::new(alloc),
        trips: Ids::new(alloc),
        trip_routes: Vec::new(alloc),
        trip_services: Vec::new(alloc),
        next_route,
        last_service: 0,
    };
    if let Err(fault) = read_needed(alloc, files, dir, buffer, &mut rows) {
        return Err(fault);
    }
    let TripRows {
        known_routes: _,
        services,
        trips,
        trip_routes,
        trip_services,
        next_route: _,
        last_service: _,
    } = rows;
    let trips = Trips {
        ids: trips,
        routes: trip_routes,
        services: trip_services,
    };
    Ok((trips, services))
}

// Reads `calendar.txt`, and answers whether it is there too, and the services with those that it names.
fn read_calendars<F: Files>(
    alloc: Global,
    files: &mut F,
    dir: &str,
    buffer: &mut Bytes,
    services: Ids,
) -> Result<(bool, CalendarRows), TableFault>
    requires { length services ≤ row_limit File.Trips }
    ensures exact { IfSome (F.told files.old)
        (λ told. Finds (optional_fault File.Calendar calendar_fault (sheets_in told dir.now File.Calendar))
        (λ found. (found.0 ≡ is_some (sheets_in told dir.now File.Calendar))
        × HoldsCalendars services found.1.services found.1.calendars (rows_in (sheets_in told dir.now File.Calendar)))
        result) }
    ensures few { IfOk result (λ found. length found.1.services ≤ row_limit File.Trips + row_limit File.Calendar) }
    ensures counts { Counts (HasFailed result) (F.faults files.old) (F.faults files.new) }
    ensures failed { IfFailed result (Is File.Calendar) }
    ensures same { F.told files.new ≡ F.told files.old }
{
    let mut rows = CalendarRows {
        services,
        calendars: HashMap::new(alloc),
    };
    match read_rows(alloc, files, dir, buffer, &mut rows) {
        Ok(there) => Ok((there, rows)),
        Err(fault) => Err(fault),
    }
}

// Reads `calendar_dates.txt`, and answers whether it is there too.
fn read_dates<F: Files>(
    alloc: Global,
    files: &mut F,
    dir: &str,
    buffer: &mut Bytes,
    services: Ids,
) -> Result<(bool, DateRows), TableFault>
    requires { length services ≤ row_limit File.Trips + row_limit File.Calendar }
    ensures exact { IfSome (F.told files.old)
        (λ told. Finds (optional_fault File.CalendarDates date_fault (sheets_in told dir.now File.CalendarDates))
        (λ found. (found.0 ≡ is_some (sheets_in told dir.now File.CalendarDates))
        × HoldsDates services found.1.services found.1.exceptions
        (rows_in (sheets_in told dir.now File.CalendarDates))) result) }
    ensures counts { Counts (HasFailed result) (F.faults files.old) (F.faults files.new) }
    ensures failed { IfFailed result (Is File.CalendarDates) }
    ensures same { F.told files.new ≡ F.told files.old }
{
    let mut rows = DateRows {
        services,
        exceptions: HashMap::new(alloc),
    };
    match read_rows(alloc, files, dir, buffer, &mut rows) {
        Ok(there) => Ok((there, rows)),
        Err(fault) => Err(fault),
    }
}

/// Reads `calendar.txt` and `calendar_dates.txt`, of which one has to be there.
pub(crate) fn read_services<F: Files>(
    alloc: Global,
    files: &mut F,
    dir: &str,
    buffer: &mut Bytes,
    services: Ids,
) -> Result<Services, TableFault>
    requires { length services ≤ row_limit File.Trips }
    ensures exact { IfSome (F.told files.old) (λ told. Finds (calendars_fault (sheets_in told dir.now))
        (λ found. HoldsServices services found.calendars found.exceptions
        (rows_in (sheets_in told dir.now File.Calendar)) (rows_in (sheets_in told dir.now File.CalendarDates)))
        result) }
    ensures counts { Counts (HasFailed result) (F.faults files.old) (F.faults files.new) }
    ensures failed { IfFailed result
        (λ named. IfSome (F.told files.old) (λ told. DaysFailed (sheets_in told dir.now) named)) }
    ensures same { F.told files.new ≡ F.told files.old }
{
    let (has_calendar, rows) = read_calendars(alloc, files, dir, buffer, services)?;
    let CalendarRows {
        services,
        calendars,
    } = rows;
    let (has_dates, rows) = read_dates(alloc, files, dir, buffer, services)?;
    if !has_calendar && !has_dates {
        return Err(TableFault::Missing(TableFile::Calendar));
    }
    let DateRows {
        services: _,
        exceptions,
    } = rows;
    Ok(Services {
        calendars,
        exceptions,
    })
}

// All trips are carried.
fn all_carried(alloc: Global, trips: &Ids) -> Result<Vec<bool>, AllocError>
    ensures { IfOk result (λ carried. carried.items ≡ map (is_carried []) trips.now) }
{
    let mut carried = Vec::new(alloc);
    for _ in 0..trips.len() {
        carried.push(true)?;
    }
    Ok(carried)
}

// No trip has stops.
fn no_stops(alloc: Global, trips: &Ids, stops: &Ids) -> Result<Vec<TripStops>, AllocError>
    ensures holds { IfOk result (λ by_trip. HoldsStops trips.now stops.now (map stops_kept by_trip.items) []) }
    ensures loaded { IfOk result (λ by_trip. all_loaded (length stops.now) (map stops_kept by_trip.items) ≡ true) }
{
    let _ = stops;
    let mut by_trip = Vec::new(alloc);
    for _ in 0..trips.len() {
        by_trip.push(TripStops::new(alloc))?;
    }
    Ok(by_trip)
}

/// Reads `frequencies.txt`, and answers of each trip whether it is carried.
pub(crate) fn read_frequencies<F: Files>(
    alloc: Global,
    files: &mut F,
    dir: &str,
    buffer: &mut Bytes,
    trips: &Ids,
) -> Result<Vec<bool>, TableFault>
    ensures exact { IfSome (F.told files.old) (λ told. ReadsRows File.Frequencies (frequency_fault trips.now)
        (λ carried rows. carried.items ≡ map (is_carried rows) trips.now) (sheets_in told dir.now) result) }
    ensures counts { Counts (HasFailed result) (F.faults files.old) (F.faults files.new) }
    ensures failed { IfFailed result (Is File.Frequencies) }
    ensures same { F.told files.new ≡ F.told files.old }
{
    let carried = all_carried(alloc, trips)?;
    let mut rows = FrequencyRows { trips, carried };
    if let Err(fault) = read_rows(alloc, files, dir, buffer, &mut rows) {
        return Err(fault);
    }
    let FrequencyRows { trips: _, carried } = rows;
    Ok(carried)
}

/// Reads `stop_times.txt`, and answers the stops of each trip.
pub(crate) fn read_stop_times<F: Files>(
    alloc: Global,
    files: &mut F,
    dir: &str,
    buffer: &mut Bytes,
    trips: &Ids,
    stops: &Ids,
) -> Result<Vec<TripStops>, TableFault>
    ensures exact { IfSome (F.told files.old) (λ told. ReadsNeeded File.StopTimes (stop_time_fault trips.now stops.now)
        (λ by_trip. HoldsStops trips.now stops.now (map stops_kept by_trip.items)) (sheets_in told dir.now) result) }
    ensures loaded { IfOk result (λ by_trip. all_loaded (length stops.now) (map stops_kept by_trip.items) ≡ true) }
    ensures counts { Counts (HasFailed result) (F.faults files.old) (F.faults files.new) }
    ensures failed { IfFailed result (Is File.StopTimes) }
    ensures same { F.told files.new ≡ F.told files.old }
{
    let by_trip = no_stops(alloc, trips, stops)?;
    let next_stop = Guesses::among(alloc, stops)?;
    let mut rows = StopTimeRows {
        trips,
        stops,
        by_trip,
        last: 0,
        next_stop,
    };
    if let Err(fault) = read_needed(alloc, files, dir, buffer, &mut rows) {
        return Err(fault);
    }
    let StopTimeRows {
        trips: _,
        stops: _,
        by_trip,
        last: _,
        next_stop: _,
    } = rows;
    Ok(by_trip)
}
