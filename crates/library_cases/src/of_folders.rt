//! The folder: its fault, or its trips; and what is found in its timetable.
ghost use Rattle.std.specs.Prelude.{◌<◌, length};

use crate::given::{Days, Given};
use crate::pieces::Trouble;
use crate::shown::{add_choice, add_line, push_compact};
use service_day::{DayForm, read_day};
use std::alloc::{AllocError, Global};
use stop_schedule::{Column, StopRow, TableFault, TableFile, Timetable, TripNo};

// Of more trips than these only the number is shown.
const MOST_TRIPS: u32 = 1_000;

/// Adds the first fault of the folder, or its trips with their days and stops.
pub fn add_folder(alloc: Global, given: &Given, into: &mut String) -> Result<(), Trouble> {
    let Some(days) = given.days() else {
        return Err(Trouble::Form);
    };
    match given.read(alloc) {
        Ok(table) => Ok(add_trips(alloc, &table, &days, into)?),
        Err(TableFault::Memory) => Err(Trouble::Memory),
        Err(fault) => Ok(add_fault(alloc, &fault, into)?),
    }
}

// Adds a fault of the folder.
fn add_fault(alloc: Global, fault: &TableFault, into: &mut String) -> Result<(), AllocError> {
    match fault {
        TableFault::Missing(file) => add_of_file("Missing", *file, into),
        TableFault::TooLong(file) => add_of_file("TooLong", *file, into),
        TableFault::Failed(file) => add_of_file("Failed", *file, into),
        TableFault::NoColumn(file, column) => add_no_column(alloc, *file, *column, into),
        TableFault::Zones(row) => add_row(alloc, "Zones", *row, into),
        TableFault::UntimedEnd(row) => add_row(alloc, "UntimedEnd", *row, into),
        TableFault::Memory => Err(AllocError),
        fault => add_fault_of_row(alloc, fault, into),
    }
}

// Adds a fault of a file's row.
fn add_fault_of_row(
    alloc: Global,
    fault: &TableFault,
    into: &mut String,
) -> Result<(), AllocError> {
    match fault {
        TableFault::NotUtf8(file, row) => add_at_row(alloc, "NotUtf8", *file, *row, into),
        TableFault::Limit(file, row) => add_at_row(alloc, "Limit", *file, *row, into),
        TableFault::Duplicate(file, row) => add_at_row(alloc, "Duplicate", *file, *row, into),
        TableFault::BadField(file, row, column) => {
            add_at_field(alloc, "BadField", (*file, *row, *column), into)
        }
        TableFault::Unknown(file, row, column) => {
            add_at_field(alloc, "Unknown", (*file, *row, *column), into)
        }
        _ => add_line("another fault", into),
    }
}

fn add_of_file(name: &str, file: TableFile, into: &mut String) -> Result<(), AllocError> {
    into.push_str(name)?;
    into.push_str(" ")?;
    add_line(file.name(), into)
}

fn add_no_column(
    alloc: Global,
    file: TableFile,
    column: Column,
    into: &mut String,
) -> Result<(), AllocError> {
    let line = format!(in alloc; "NoColumn {} {}", file.name(), column.name())?;
    add_line(line.as_str(), into)
}

fn add_row(alloc: Global, name: &str, row: u64, into: &mut String) -> Result<(), AllocError> {
    let line = format!(in alloc; "{name} {row}")?;
    add_line(line.as_str(), into)
}

fn add_at_row(
    alloc: Global,
    name: &str,
    file: TableFile,
    row: u64,
    into: &mut String,
) -> Result<(), AllocError> {
    let line = format!(in alloc; "{name} {} {row}", file.name())?;
    add_line(line.as_str(), into)
}

fn add_at_field(
    alloc: Global,
    name: &str,
    (file, row, column): (TableFile, u64, Column),
    into: &mut String,
) -> Result<(), AllocError> {
    let line = format!(in alloc; "{name} {} {row} {}", file.name(), column.name())?;
    add_line(line.as_str(), into)
}

// Adds all trips, or their number.
fn add_trips(
    alloc: Global,
    table: &Timetable,
    days: &Days,
    into: &mut String,
) -> Result<(), AllocError> {
    if MOST_TRIPS < table.trips() {
        return add_row(alloc, "trips", u64::from(table.trips()), into);
    }
    for number in 0..table.trips() {
        add_trip(alloc, table, TripNo(number), days, into)?;
    }
    Ok(())
}

// Adds a trip with its route, its days and its stops.
fn add_trip(
    alloc: Global,
    table: &Timetable,
    trip: TripNo,
    days: &Days,
    into: &mut String,
) -> Result<(), AllocError>
    requires { trip.0 < length table.now.trips }
{
    push_ids(alloc, table.trip_id(trip), table.route_of(trip), into)?;
    add_days(table, trip, days, into)?;
    add_stops(alloc, table.stops_of(trip), into)
}

fn push_ids(alloc: Global, trip: &str, route: &str, into: &mut String) -> Result<(), AllocError> {
    let front = format!(in alloc; "trip {trip} of {route}, runs")?;
    into.push_str(front.as_str())
}

// Adds the days of the window on which a trip runs.
fn add_days(
    table: &Timetable,
    trip: TripNo,
    days: &Days,
    into: &mut String,
) -> Result<(), AllocError>
    requires { trip.0 < length table.now.trips }
{
    let mut runs = false;
    for number in 0..days.days {
        if let Some(day) = days.first.plus(i32::from(number)) {
            if table.runs(trip, day) {
                runs = true;
                into.push_str(" ")?;
                push_compact(day, into)?;
            }
        }
    }
    add_choice(runs, "", " never", into)
}

fn add_stops(alloc: Global, stops: &[StopRow], into: &mut String) -> Result<(), AllocError> {
    for stop in stops {
        let line = format!(in alloc;
            "{} stop {} {} {}",
            stop.sequence, stop.stop.0, stop.arrival, stop.departure
        )?;
        add_line(line.as_str(), into)?;
    }
    Ok(())
}

// The id of the stop that is found by an id.
fn found_stop<'a>(table: &'a Timetable, id: &str) -> &'a str {
    match table.find_stop(id) {
        Some(stop) => table.stop_id(stop),
        None => "none",
    }
}

fn found_route<'a>(table: &'a Timetable, id: &str) -> &'a str {
    match table.find_route(id) {
        Some(route) => table.route_id(route),
        None => "none",
    }
}

fn found_trip<'a>(table: &'a Timetable, id: &str) -> &'a str {
    match table.find_trip(id) {
        Some(trip) => table.trip_id(trip),
        None => "none",
    }
}

/// Adds the id of what is found by an id.
pub fn add_found(table: &Timetable, text: &str, into: &mut String) -> Result<(), Trouble> {
    let found = match text.split_once(' ') {
        Some(("stop", id)) => found_stop(table, id),
        Some(("route", id)) => found_route(table, id),
        Some(("trip", id)) => found_trip(table, id),
        _ => return Err(Trouble::Form),
    };
    Ok(add_line(found, into)?)
}

// Whether a trip runs on a day, where both are there.
fn runs_on(table: &Timetable, trip: &str, day: &str) -> Option<bool> {
    let day = read_day(day, DayForm::Compact)?;
    match table.find_trip(trip) {
        Some(trip) => Some(table.runs(trip, day)),
        None => None,
    }
}

/// Adds whether a trip runs on a day.
pub fn add_runs(table: &Timetable, text: &str, into: &mut String) -> Result<(), Trouble> {
    let Some((trip, day)) = text.split_once(' ') else {
        return Err(Trouble::Form);
    };
    match runs_on(table, trip, day) {
        Some(runs) => Ok(add_choice(runs, "runs", "rests", into)?),
        None => Ok(add_line("none", into)?),
    }
}
