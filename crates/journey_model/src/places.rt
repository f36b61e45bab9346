//! The stops at which vehicles call in place of the scheduled ones. The functions meet `specs/Places.antt`.
ghost use Rattle.std.specs.Prelude.{◌≡◌, ◌<◌, ◌≤◌, length};
ghost use Rattle.timetable.specs.Seen.{seen};
ghost use Rattle.timetable.specs.Limits.{id_limit};
ghost use Rattle.journey_model.specs.Places as spec;

use crate::fault::Fault;
use timetable::{StopNo, Timetable};

// The most bytes of the ids of a journey's places that aren't the scheduled stops, in sum.
const PLACES_LIMIT: u64 = 4_096;

/// Whether two stops are of one station (GTFS Schedule reference, stops.txt: parent_station).
pub fn are_of_station(table: &Timetable, stop: StopNo, other: StopNo) -> bool
    ensures { result ≡ spec.are_of_station (seen table.now).station_of stop.0 other.0 }
{
    table.station_of(stop).0 == table.station_of(other).0
}

/// The bytes of the id of a place, where it isn't the scheduled stop; else 0.
pub fn place_size(table: &Timetable, scheduled: StopNo, place: StopNo) -> u64
    requires { place.0 < length table.now.stops }
    ensures value { result ≡ spec.place_size table.now.stops scheduled.0 place.0 }
    ensures small { result ≤ id_limit }
{
    if place.0 == scheduled.0 {
        0
    } else {
        table.stop_id(place).len() as u64
    }
}

/// The fault of a journey whose places that aren't the scheduled stops have ids of so many bytes in sum.
pub fn places_fault(bytes: u64) -> Option<Fault>
    ensures { result ≡ spec.places_fault bytes }
{
    if bytes <= PLACES_LIMIT {
        None
    } else {
        Some(Fault::PlacesTooLong(bytes))
    }
}
