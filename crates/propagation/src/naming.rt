//! The stops of a timetable that updates name. The functions meet `journey_model`'s `specs/Updates.antt`.
ghost use Rattle.std.specs.Prelude.{◌≡◌, ◌<◌, Some, IsTrue, IfSome, length, position};
ghost use Rattle.std.specs.Str.{bytes_eq};
ghost use Rattle.journey_model.specs.Names.{filled_text};
ghost use Rattle.journey_model.specs.Updates as spec;

use gw_base::{StopUpdate, Text};
use journey_model::{NamedStop, filled_text};
use timetable::{StopNo, Timetable, TripNo};

/// The stop of a trip after the position before, if it has one.
#[tactic(auto, using(crate::proofs::KnownLemmas::known_at))]
pub(crate) fn stop_after(table: &Timetable, trip: TripNo, after: Option<u32>) -> Option<StopNo>
    ensures { IfSome result (λ stop. stop.0 < length table.now.stops) }
{
    if trip.0 >= table.trips() {
        return None;
    }
    let position = match after {
        Some(position) => position as usize + 1,
        None => 0,
    };
    match table.stops_of(trip).get(position) {
        Some(row) => Some(row.stop),
        None => None,
    }
}

// Whether a stop has that id.
fn has_id(table: &Timetable, stop: StopNo, id: &str) -> bool
    requires { stop.0 < length table.now.stops }
    ensures { IsTrue result → position (bytes_eq id.now) table.now.stops ≡ Some stop.0 }
{
    table.stop_id(stop) == id
}

// The stop of that id.
fn found_stop(table: &Timetable, id: &str) -> NamedStop
    ensures { result ≡ spec.known_stop (position (bytes_eq id.now) table.now.stops) }
{
    match table.find_stop(id) {
        Some(stop) => NamedStop::Known(stop),
        None => NamedStop::Unknown,
    }
}

// The stop that a text names. It is mostly the likely one, whose id is compared before all are searched.
fn named_by(table: &Timetable, likely: Option<StopNo>, text: &Option<Text>) -> NamedStop
    requires { IfSome likely (λ stop. stop.0 < length table.now.stops) }
    ensures { result ≡ spec.named_by table.now.stops (filled_text text.now) }
{
    let Some(id) = filled_text(text) else {
        return NamedStop::Missing;
    };
    match likely {
        Some(stop) if has_id(table, stop, id) => NamedStop::Known(stop),
        _ => found_stop(table, id),
    }
}

/// The stop that an update names (GTFS Realtime reference, StopTimeUpdate: stop_id).
pub(crate) fn named_stop(
    table: &Timetable,
    likely: Option<StopNo>,
    update: &StopUpdate,
) -> NamedStop
    requires { IfSome likely (λ stop. stop.0 < length table.now.stops) }
    ensures { result ≡ spec.named_stop table.now.stops update.now }
{
    named_by(table, likely, &update.stop_id)
}

/// The stop to which an update is assigned (GTFS Realtime reference, StopTimeProperties: assigned_stop_id).
pub(crate) fn assigned_stop(
    table: &Timetable,
    likely: Option<StopNo>,
    update: &StopUpdate,
) -> NamedStop
    requires { IfSome likely (λ stop. stop.0 < length table.now.stops) }
    ensures { result ≡ spec.assigned_stop table.now.stops update.now }
{
    named_by(table, likely, &update.assigned)
}

/// Whether an update names the same stop as its own and as the one to which it is assigned.
pub(crate) fn names_one(update: &StopUpdate) -> bool
    ensures { result ≡ spec.names_one update.now }
{
    match (filled_text(&update.stop_id), filled_text(&update.assigned)) {
        (Some(id), Some(other)) => id == other,
        _ => false,
    }
}
