//! A folder is read, and trips, stops and routes are found in it.
ghost use Rattle.std.specs.Prelude.{◌<◌, length};

use gw_base::{Bytes, List, MemoryFiles, Text};
use service_day::{DayForm, read_day};
use std::alloc::{AllocError, Global};
use std::process::Abort;
use stop_schedule::{StopNo, StopRow, TableFault, Timetable, TripNo, read_timetable};

// A trip with stops, of which two have no times, and one without any.
static FOLDER: [(&str, &[u8]); 7] = [
    ("g/agency.txt", b"agency_timezone\nEurope/Paris\n"),
    ("g/stops.txt", b"stop_id,parent_station\nA,\nB,D\nC,B\nD\n"),
    ("g/routes.txt", b"route_id\nR1\nR2\n"),
    (
        "g/trips.txt",
        b"route_id,service_id,trip_id\nR1,D,T1\nR2,N,T2\n",
    ),
    (
        "g/calendar.txt",
        b"service_id,monday,tuesday,wednesday,thursday,friday,saturday,sunday,start_date,end_date\n\
          D,1,1,1,1,1,0,0,20240301,20240628\n",
    ),
    (
        "g/calendar_dates.txt",
        b"service_id,date,exception_type\nN,20240502,1\nD,20240503,2\n",
    ),
    (
        "g/stop_times.txt",
        b"trip_id,arrival_time,departure_time,stop_id,stop_sequence\nT1,08:10:00,,D,40\nT1,,,B,20\n\
          T1,08:00:00,08:00:00,A,10\nT1,,,C,30\n",
    ),
];

// Its stops: sequence, number, arrival and departure.
static STOPS: [(u32, u32, u32, u32); 4] = [
    (10, 0, 28_800, 28_800),
    (20, 1, 29_000, 29_000),
    (30, 2, 29_200, 29_200),
    (40, 3, 29_400, 29_400),
];

fn files_of(alloc: Global, given: &[(&str, &[u8])]) -> Result<List<(Text, Bytes)>, AllocError> {
    let mut files = List::new(alloc);
    for (name, bytes) in given {
        files.push((Text::copied(alloc, name)?, Bytes::copied(alloc, bytes)?))?;
    }
    Ok(files)
}

// What is read of files. A slice, since a loop over a table has its text in each goal.
fn read(alloc: Global, given: &[(&str, &[u8])]) -> Result<Timetable, TableFault> {
    let files = files_of(alloc, given)?;
    read_timetable(alloc, &mut MemoryFiles::make(files, List::new(alloc)), "g")
}

/// The timetable of that folder, of whose stops B is of the station D and C of the station B.
pub(crate) fn with_stations(alloc: Global) -> Option<Timetable> {
    read(alloc, &FOLDER).ok()
}

fn is_stop(row: &StopRow, wanted: &(u32, u32, u32, u32)) -> bool {
    (row.sequence, row.stop.0, row.arrival, row.departure) == *wanted
}

fn are_stops(rows: &[StopRow], wanted: &[(u32, u32, u32, u32)]) -> bool {
    rows.len() == wanted.len() && rows.iter().zip(wanted).all(|(row, one)| is_stop(row, one))
}

// The first trip has its id, its route, its stops and its days.
fn assert_first(rt: &impl Abort, table: &Timetable, trip: TripNo)
    requires { trip.0 < length table.now.trips }
{
    assert_eq!(rt; table.trip_id(trip), "T1");
    assert_eq!(rt; table.route_of(trip), "R1");
    assert!(rt; are_stops(table.stops_of(trip), &STOPS));
    let thursday = read_day("20240502", DayForm::Compact).expect(rt, "a day");
    assert!(rt; table.runs(trip, thursday));
    let friday = read_day("20240503", DayForm::Compact).expect(rt, "a day");
    assert!(rt; !table.runs(trip, friday));
}

// Whether a stop is of a station, both by their ids.
fn is_of_station(table: &Timetable, stop: &str, station: &str) -> bool {
    match table.find_stop(stop) {
        Some(stop) => table.stop_id(table.station_of(stop)) == station,
        None => false,
    }
}

#[test]
fn a_stop_is_of_its_parent_or_of_itself(rt: HostRuntime) {
    let table = with_stations(rt.alloc()).expect(&rt, "a timetable");
    assert!(rt; is_of_station(&table, "A", "A"));
    assert!(rt; is_of_station(&table, "B", "D"));
    assert!(rt; is_of_station(&table, "C", "B"));
    assert!(rt; is_of_station(&table, "D", "D"));
}

#[test]
fn a_folder_is_read(rt: HostRuntime) {
    let table = with_stations(rt.alloc()).expect(&rt, "a timetable");
    assert_eq!(rt; table.trips(), 2);
    let trip = table.find_trip("T1").expect(&rt, "a trip");
    assert_first(&rt, &table, trip);
    assert!(rt; table.find_stop("C") == Some(StopNo(2)));
}
