//! What the selectors of an alert name. The functions meet `specs/Kept.antt`.
ghost use Rattle.std.specs.Prelude.{◌≡◌, ◌<◌, [], OnOk};
ghost use Rattle.timetable.specs.Seen.{seen};
ghost use Rattle.reverse_alerts.specs.Kept as spec;
ghost use Rattle.reverse_alerts.specs.Naming as naming;

use gw_base::{List, Selector, TripDescriptor};
use journey_model::{Ref, filled_text, journey_named, route_named, stop_named};
use service_day::{DayForm, read_day};
use std::alloc::{AllocError, Global};
use timetable::Timetable;

/// What the selectors of an alert name, each kind in order.
#[derive(Drop)]
pub(crate) struct NamedRefs {
    /// The routes.
    pub(crate) routes: List<Ref>,
    /// The stops.
    pub(crate) stops: List<Ref>,
    /// The trips on a day.
    pub(crate) journeys: List<Ref>,
}

impl NamedRefs {
    /// Nothing, which takes no memory.
    pub(crate) fn new(alloc: Global) -> NamedRefs {
        NamedRefs {
            routes: List::new(alloc),
            stops: List::new(alloc),
            journeys: List::new(alloc),
        }
    }

    // Forgets what was named. The room stays.
    fn clear(&mut self)
        ensures routes { self.new.routes ≡ [] }
        ensures stops { self.new.stops ≡ [] }
        ensures journeys { self.new.journeys ≡ [] }
    {
        self.routes.clear();
        self.stops.clear();
        self.journeys.clear();
    }

    // Adds one after those of its kind.
    fn add(&mut self, one: Ref) -> Result<(), AllocError>
        ensures { OnOk result (self.new ≡ naming.with_ref self.old one) }
    {
        match one {
            Ref::Route(_) => self.routes.push(one),
            Ref::Stop(_) => self.stops.push(one),
            Ref::Journey(_, _) => self.journeys.push(one),
        }
    }
}

// The trip with an id on the day of a date, if there is one.
fn journey_dated(table: &Timetable, id: &str, date: &str) -> Option<Ref>
    ensures { result ≡ spec.journey_dated (seen table.now) id.now date.now }
{
    match read_day(date, DayForm::Compact) {
        Some(day) => journey_named(table, id, day),
        None => None,
    }
}

// The trip on a day that a descriptor names, if there is one.
fn described_journey(table: &Timetable, trip: &TripDescriptor) -> Option<Ref>
    ensures { result ≡ spec.described_journey (seen table.now) trip.now }
{
    match (filled_text(&trip.trip_id), filled_text(&trip.start_date)) {
        (Some(id), Some(date)) => journey_dated(table, id, date),
        _ => None,
    }
}

// What a selector names, where it is kept.
fn named(table: &Timetable, one: &Selector) -> Option<Ref>
    ensures { result ≡ spec.named (seen table.now) one.now }
{
    let route = filled_text(&one.route_id);
    let stop = filled_text(&one.stop_id);
    match (route, &one.trip, stop) {
        (Some(route), None, None) => route_named(table, route),
        (None, Some(trip), None) => described_journey(table, trip.get()),
        (None, None, Some(stop)) => stop_named(table, stop),
        _ => None,
    }
}

// Adds what a selector names after what those before it name.
fn add_named(found: &mut NamedRefs, table: &Timetable, one: &Selector) -> Result<(), AllocError>
    ensures { OnOk result (found.new ≡ naming.with_named (spec.named (seen table.now) one.now) found.old) }
{
    match named(table, one) {
        Some(place) => found.add(place),
        None => Ok(()),
    }
}

/// Finds what the selectors of an alert name, in place of what was there before.
pub(crate) fn find_named(
    found: &mut NamedRefs,
    table: &Timetable,
    selectors: &[Selector],
) -> Result<(), AllocError>
    ensures { OnOk result (found.new ≡ naming.refs_of (spec.all_named (seen table.now) selectors.now)) }
{
    found.clear();
    for one in selectors {
        add_named(found, table, one)?;
    }
    Ok(())
}

/// How many things are named.
pub(crate) fn count(found: &NamedRefs) -> usize
    requires { naming.count_of found.now < 18446744073709551616 }
    ensures { result ≡ naming.count_of found.now }
{
    found.routes.len() + found.stops.len() + found.journeys.len()
}
