//! What a situation affects (SIRI 2.0, Affects), written. The functions meet `specs/SituationTexts.antt`.
ghost use Rattle.std.specs.Prelude.{◌≡◌, ◌++◌, false, OnOk};
ghost use Rattle.timetable.specs.Seen.{seen};
ghost use Rattle.alert_map.specs.Known.{IsEachKnown, IsKnown};
ghost use Rattle.reverse_alerts.specs.Naming.{AreKnown};
ghost use Rattle.reverse_alerts.specs.SituationTexts as spec;

use crate::selectors::NamedRefs;
use gw_base::Bytes;
use journey_model::Ref;
use service_day::{Day, day_text};
use siri_json::{put_comma, put_text};
use std::alloc::AllocError;
use timetable::Timetable;

// Adds a line by its id.
fn put_line(out: &mut Bytes, id: &str) -> Result<(), AllocError>
    ensures { OnOk result (out.new ≡ out.old ++ spec.line_text id.now) }
{
    put_text(out, b"{\"LineRef\":", id.as_bytes())?;
    out.push(b'}')
}

// Adds a stop point by its id.
fn put_stop_point(out: &mut Bytes, id: &str) -> Result<(), AllocError>
    ensures { OnOk result (out.new ≡ out.old ++ spec.stop_point_text id.now) }
{
    put_text(out, b"{\"StopPointRef\":", id.as_bytes())?;
    out.push(b'}')
}

// Adds a service day and the id of a trip.
fn put_framed(out: &mut Bytes, day: Day, id: &str) -> Result<(), AllocError>
    ensures { OnOk result (out.new ≡ out.old ++ spec.framed_text day id.now) }
{
    put_text(
        out,
        b"{\"FramedVehicleJourneyRef\":{\"DataFrameRef\":",
        &day_text(day),
    )?;
    put_text(out, b",\"DatedVehicleJourneyRef\":", id.as_bytes())
}

// Adds a journey by its service day and the id of its trip.
fn put_journey(out: &mut Bytes, day: Day, id: &str) -> Result<(), AllocError>
    ensures { OnOk result (out.new ≡ out.old ++ spec.journey_text day id.now) }
{
    put_framed(out, day, id)?;
    out.extend(b"}}")
}

// Adds what is referred to.
fn put_ref(out: &mut Bytes, table: &Timetable, one: &Ref) -> Result<(), AllocError>
    requires { IsKnown (seen table.now) one.now }
    ensures { OnOk result (out.new ≡ out.old ++ spec.ref_text (seen table.now) one.now) }
{
    match one {
        Ref::Route(route) => put_line(out, table.route_id(*route)),
        Ref::Stop(stop) => put_stop_point(out, table.stop_id(*stop)),
        Ref::Journey(trip, day) => put_journey(out, *day, table.trip_id(*trip)),
    }
}

// Adds all that is referred to, and the bracket that closes it.
fn put_refs(out: &mut Bytes, table: &Timetable, refs: &[Ref]) -> Result<(), AllocError>
    requires { IsEachKnown (seen table.now) refs.now }
    ensures { OnOk result (out.new ≡ out.old ++ spec.refs_text false (seen table.now) refs.now) }
{
    let mut later = false;
    for one in refs {
        put_comma(out, later)?;
        put_ref(out, table, one)?;
        later = true;
    }
    out.push(b']')
}

// Adds all of a kind between what leads to them and what closes them, and nothing where there are none.
#[tactic(auto, unfolding(crate::specs::SituationTexts::kind_text))]
fn put_kind(
    out: &mut Bytes,
    table: &Timetable,
    later: bool,
    ends: (&[u8], &[u8]),
    refs: &[Ref],
) -> Result<(), AllocError>
    requires { IsEachKnown (seen table.now) refs.now }
    ensures { OnOk result (out.new ≡ out.old
        ++ spec.kind_text (seen table.now) later ends.entry.0.now refs.now ends.entry.1.now) }
{
    if refs.is_empty() {
        return Ok(());
    }
    put_comma(out, later)?;
    out.extend(ends.0)?;
    put_refs(out, table, refs)?;
    out.extend(ends.1)
}

// Adds the lines, which are in one network.
fn put_lines(out: &mut Bytes, table: &Timetable, refs: &[Ref]) -> Result<(), AllocError>
    requires { IsEachKnown (seen table.now) refs.now }
    ensures { OnOk result (out.new ≡ out.old ++ spec.lines_text (seen table.now) refs.now) }
{
    let lead = b"\"Networks\":{\"AffectedNetwork\":[{\"AffectedLine\":[";
    put_kind(out, table, false, (lead, b"}]}"), refs)
}

// Adds the stops, after a comma where lines stand before.
fn put_stops(
    out: &mut Bytes,
    table: &Timetable,
    later: bool,
    refs: &[Ref],
) -> Result<(), AllocError>
    requires { IsEachKnown (seen table.now) refs.now }
    ensures { OnOk result (out.new ≡ out.old ++ spec.stops_text (seen table.now) later refs.now) }
{
    let lead = b"\"StopPoints\":{\"AffectedStopPoint\":[";
    put_kind(out, table, later, (lead, b"}"), refs)
}

// Adds the journeys, after a comma where lines or stops stand before.
fn put_journeys(
    out: &mut Bytes,
    table: &Timetable,
    later: bool,
    refs: &[Ref],
) -> Result<(), AllocError>
    requires { IsEachKnown (seen table.now) refs.now }
    ensures { OnOk result (out.new ≡ out.old ++ spec.journeys_text (seen table.now) later refs.now) }
{
    let lead = b"\"VehicleJourneys\":{\"AffectedVehicleJourney\":[";
    put_kind(out, table, later, (lead, b"}"), refs)
}

// Adds lines, stops and journeys.
fn put_kinds(out: &mut Bytes, table: &Timetable, found: &NamedRefs) -> Result<(), AllocError>
    requires { AreKnown (seen table.now) found.now }
    ensures { OnOk result (out.new ≡ out.old
        ++ spec.kinds_text (seen table.now) found.now.routes found.now.stops found.now.journeys) }
{
    let lines = !found.routes.is_empty();
    let stops = !found.stops.is_empty();
    put_lines(out, table, found.routes.as_slice())?;
    put_stops(out, table, lines, found.stops.as_slice())?;
    put_journeys(out, table, lines || stops, found.journeys.as_slice())
}

/// Adds what a situation affects, with which it begins.
pub(crate) fn put_affects(
    out: &mut Bytes,
    table: &Timetable,
    found: &NamedRefs,
) -> Result<(), AllocError>
    requires { AreKnown (seen table.now) found.now }
    ensures { OnOk result (out.new ≡ out.old
        ++ spec.affects_text (seen table.now) found.now.routes found.now.stops found.now.journeys) }
{
    out.extend(b"{\"Affects\":{")?;
    put_kinds(out, table, found)?;
    out.push(b'}')
}
