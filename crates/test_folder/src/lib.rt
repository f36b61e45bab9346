//! What the crates of tests read over: a sample folder, timetables of files in memory, the zone of Paris, and windows
//! from 2024-05-01 on. It stands on `stop_schedule`. It promises nothing of its own: its calls hand on what
//! `read_timetable` answers for texts that the tests see.
#![tactic(auto)]

use gw_base::{Bytes, List, MemoryFiles, Text};
use service_day::{DayForm, Window, Zone, read_day};
use std::alloc::Global;
use stop_schedule::{TableFault, Timetable, read_timetable};

/// Reads the folder `g` of these files (GTFS Schedule). A slice, since a loop over a table has its text in each goal.
pub fn read_folder(alloc: Global, folder: &[(&str, &[u8])]) -> Result<Timetable, TableFault> {
    let mut files = List::new(alloc);
    for (name, bytes) in folder {
        files.push((Text::copied(alloc, name)?, Bytes::copied(alloc, bytes)?))?;
    }
    let mut files = MemoryFiles::make(files, List::new(alloc));
    read_timetable(alloc, &mut files, "g")
}

// The sample folder. The trips T1 over A, B and C, L1 over A, B and A, and T20 over twenty stops run daily; T2 over A
// and C, and N1, which has no stops, run on 2024-05-02 alone. No trip calls at D.
const SAMPLE: &[(&str, &[u8])] = &[
    ("g/agency.txt", b"agency_timezone\nEurope/Paris\n"),
    (
        "g/stops.txt",
        b"stop_id\nA\nB\nC\nD\nP01\nP02\nP03\nP04\nP05\nP06\nP07\nP08\nP09\nP10\nP11\nP12\nP13\n\
          P14\nP15\nP16\nP17\nP18\nP19\nP20\n",
    ),
    ("g/routes.txt", b"route_id,route_type\nR1,3\nR2,3\n"),
    (
        "g/trips.txt",
        b"route_id,service_id,trip_id\nR1,D,T1\nR1,D,L1\nR1,N,T2\nR1,N,N1\nR2,D,T20\n",
    ),
    (
        "g/calendar.txt",
        b"service_id,monday,tuesday,wednesday,thursday,friday,saturday,sunday,start_date,end_date\n\
          D,1,1,1,1,1,1,1,20240301,20240630\n",
    ),
    (
        "g/calendar_dates.txt",
        b"service_id,date,exception_type\nN,20240502,1\n",
    ),
    (
        "g/stop_times.txt",
        b"trip_id,arrival_time,departure_time,stop_id,stop_sequence\n\
          T1,08:00:00,08:00:00,A,10\nT1,08:10:00,08:11:00,B,20\nT1,08:20:00,08:20:00,C,30\n\
          L1,09:00:00,09:00:00,A,1\nL1,09:10:00,09:10:00,B,2\nL1,09:20:00,09:20:00,A,3\n\
          T2,10:00:00,10:00:00,A,1\nT2,10:30:00,10:30:00,C,2\n\
          T20,12:00:00,12:00:00,P01,1\nT20,12:02:00,12:02:00,P02,2\nT20,12:04:00,12:04:00,P03,3\n\
          T20,12:06:00,12:06:00,P04,4\nT20,12:08:00,12:08:00,P05,5\nT20,12:10:00,12:10:00,P06,6\n\
          T20,12:12:00,12:12:00,P07,7\nT20,12:14:00,12:14:00,P08,8\nT20,12:16:00,12:16:00,P09,9\n\
          T20,12:18:00,12:18:00,P10,10\nT20,12:20:00,12:20:00,P11,11\nT20,12:22:00,12:22:00,P12,12\n\
          T20,12:24:00,12:24:00,P13,13\nT20,12:26:00,12:26:00,P14,14\nT20,12:28:00,12:28:00,P15,15\n\
          T20,12:30:00,12:30:00,P16,16\nT20,12:32:00,12:32:00,P17,17\nT20,12:34:00,12:34:00,P18,18\n\
          T20,12:36:00,12:36:00,P19,19\nT20,12:38:00,12:38:00,P20,20\n",
    ),
];

/// The files of the sample folder `g` with their names. A function, so that no caller has their text in its goals.
pub fn sample_files() -> &'static [(&'static str, &'static [u8])] {
    SAMPLE
}

/// The timetable of the sample folder.
pub fn sample(alloc: Global) -> Option<Timetable> {
    read_folder(alloc, sample_files()).ok()
}

/// The zone of Paris by its POSIX rule.
pub fn paris() -> Option<Zone> {
    Zone::from_rule("CET-1CEST,M3.5.0,M10.5.0/3").ok()
}

/// The window of 1 to 31 days from 2024-05-01 on; none of another number of days.
pub fn window(zone: &Zone, days: u8) -> Option<Window> {
    let first = read_day("20240501", DayForm::Compact)?;
    if days < 1 || 31 < days || first.number() < 365 || 2_932_000 < first.number() {
        return None;
    }
    Window::make(zone, first, days).ok()
}
