//! What messages name: texts that count, and the routes, stops and trips of a timetable. The definitions are those of
//! `specs/Names.antt`.
ghost use Rattle.std.specs.Prelude.{◌≡◌};
ghost use Rattle.std.specs.Option.{option_copied};
ghost use Rattle.timetable.specs.Seen.{seen};
ghost use Rattle.journey_model.specs.Names as spec;

use crate::situation::Ref;
use gw_base::Text;
use service_day::Day;
use timetable::Timetable;

/// The text of a member, where it isn't empty: an empty one counts as missing.
pub fn filled_text(text: &Option<Text>) -> Option<&str>
    ensures { option_copied result ≡ spec.filled_text text.now }
{
    match text {
        Some(text) if !text.as_str().is_empty() => Some(text.as_str()),
        _ => None,
    }
}

/// The route with an id (GTFS Schedule reference, `routes.txt`), if there is one.
pub fn route_named(table: &Timetable, id: &str) -> Option<Ref>
    ensures { result ≡ spec.route_named (seen table.now) id.now }
{
    table.find_route(id).map(Ref::Route)
}

/// The stop with an id (GTFS Schedule reference, `stops.txt`), if there is one.
pub fn stop_named(table: &Timetable, id: &str) -> Option<Ref>
    ensures { result ≡ spec.stop_named (seen table.now) id.now }
{
    table.find_stop(id).map(Ref::Stop)
}

/// The trip with an id (GTFS Schedule reference, `trips.txt`) on a service day, if there is one.
pub fn journey_named(table: &Timetable, id: &str, day: Day) -> Option<Ref>
    ensures { result ≡ spec.journey_named (seen table.now) id.now day }
{
    match table.find_trip(id) {
        Some(trip) => Some(Ref::Journey(trip, day)),
        None => None,
    }
}
