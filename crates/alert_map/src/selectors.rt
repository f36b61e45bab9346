//! What a situation refers to, as selectors (GTFS Realtime reference, EntitySelector).
ghost use Rattle.std.specs.Prelude.{◌≡◌, IfOk, map};
ghost use Rattle.timetable.specs.Seen.{seen};
ghost use Rattle.service_day.specs.DayTexts.{compact_text};
ghost use Rattle.alert_map.specs.Known.{IsEachKnown, IsKnown};
ghost use Rattle.alert_map.specs.Alerts as spec;

use gw_base::trip_relation::SCHEDULED;
use gw_base::{Boxed, List, Selector, Text, TripDescriptor};
use journey_model::{Ref, date_text};
use service_day::{Day, day_compact};
use std::alloc::{AllocError, Global};
use timetable::Timetable;

// The selector of a route.
fn route_selector(alloc: Global, route_id: &str) -> Result<Selector, AllocError>
    ensures { IfOk result (λ selector. selector ≡ spec.route_selector route_id.now) }
{
    Ok(Selector {
        agency_id: None,
        route_id: Some(Text::copied(alloc, route_id)?),
        trip: None,
        stop_id: None,
    })
}

// The selector of a stop.
fn stop_selector(alloc: Global, stop_id: &str) -> Result<Selector, AllocError>
    ensures { IfOk result (λ selector. selector ≡ spec.stop_selector stop_id.now) }
{
    Ok(Selector {
        agency_id: None,
        route_id: None,
        trip: None,
        stop_id: Some(Text::copied(alloc, stop_id)?),
    })
}

// The trip on that day.
fn trip_on(alloc: Global, trip_id: &str, day: Day) -> Result<TripDescriptor, AllocError>
    ensures { IfOk result (λ trip. trip ≡ spec.trip_on trip_id.now (compact_text day)) }
{
    let date = day_compact(day);
    let date = Text::copied(alloc, date_text(&date))?;
    Ok(TripDescriptor {
        trip_id: Some(Text::copied(alloc, trip_id)?),
        start_date: Some(date),
        relation: SCHEDULED,
        route_id: None,
    })
}

// The selector of a trip on a day.
fn trip_selector(alloc: Global, trip_id: &str, day: Day) -> Result<Selector, AllocError>
    ensures { IfOk result
        (λ selector. selector ≡ spec.trip_selector trip_id.now (compact_text day)) }
{
    Ok(Selector {
        agency_id: None,
        route_id: None,
        trip: Some(Boxed::new(alloc, trip_on(alloc, trip_id, day)?)?),
        stop_id: None,
    })
}

// The selector of what a situation refers to.
fn selector_of(alloc: Global, table: &Timetable, one: &Ref) -> Result<Selector, AllocError>
    requires { IsKnown (seen table.now) one.now }
    ensures { IfOk result (λ selector. selector ≡ spec.selector_of (seen table.now) one.now) }
{
    match one {
        Ref::Route(route) => route_selector(alloc, table.route_id(*route)),
        Ref::Stop(stop) => stop_selector(alloc, table.stop_id(*stop)),
        Ref::Journey(trip, day) => trip_selector(alloc, table.trip_id(*trip), *day),
    }
}

/// The selectors of what a situation refers to, in order.
pub(crate) fn selectors_of(
    alloc: Global,
    table: &Timetable,
    refs: &[Ref],
) -> Result<List<Selector>, AllocError>
    requires { IsEachKnown (seen table.now) refs.now }
    ensures { IfOk result
        (λ selectors. selectors ≡ map (spec.selector_of (seen table.now)) refs.now) }
{
    let mut selectors = List::new(alloc);
    for one in refs {
        selectors.push(selector_of(alloc, table, one)?)?;
    }
    Ok(selectors)
}
