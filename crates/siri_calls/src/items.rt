//! What an item of a delivery is. The functions meet `specs/Verdicts.antt`.
ghost use Rattle.std.specs.Prelude.{◌≡◌, Ok, IfErr, IfOk};
ghost use Rattle.journey_model.specs.Records.{recorded};
ghost use Rattle.json_tree.specs.Trees.{view};
ghost use Rattle.siri_calls.specs.Frame as places;
ghost use Rattle.siri_calls.specs.Seen.{calls_of};
ghost use Rattle.siri_calls.specs.Servable.{IsServable};
ghost use Rattle.siri_calls.specs.Shown.{place_of};
ghost use Rattle.siri_json.specs.Shown.{IsFaultOf};
ghost use Rattle.siri_calls.specs.Verdicts as spec;

use crate::call_reading::read_calls;
use crate::calls::Call;
use crate::frame::Place;
use crate::header::read_header;
use crate::judging::judged;
use gw_base::Member;
use journey_model::{Context, Fault, JourneyRecord};
use json::Value;
use service_day::Zone;
use siri_json::ReadFault;
use siri_json::forms::is_object;
use std::alloc::Global;

// The calls of an item, which aren't read where its journey is cancelled.
fn calls_unless<'a>(
    alloc: Global,
    cancelled: bool,
    tree: &'a Value<'_>,
    zone: &Zone,
) -> Result<Vec<Option<Call<'a>>>, ReadFault>
    ensures found { IfOk result (λ found.
        spec.calls_unless cancelled zone.now (view tree.now) ≡ Ok (calls_of found.items)) }
    ensures fault { IfErr result
        (IsFaultOf (spec.calls_unless cancelled zone.now (view tree.now))) }
{
    if cancelled {
        Ok(Vec::new(alloc))
    } else {
        read_calls(alloc, tree, zone)
    }
}

// What an item is that is an object.
fn item_read(
    alloc: Global,
    place: &Place<'_, '_>,
    context: &Context<'_>,
) -> Result<(JourneyRecord, u64), ReadFault>
    ensures found { IfOk result (λ found. spec.item_read context.now (place_of place.now)
        ≡ Ok (recorded found.0, found.1)) }
    ensures fault { IfErr result
        (IsFaultOf (spec.item_read context.now (place_of place.now))) }
    ensures servable { IfOk result (λ found. IsServable context.now found.0) }
{
    let head = match read_header(place, context.zone) {
        Ok(head) => head,
        Err(fault) => return Err(ReadFault::Aside(fault)),
    };
    let calls = calls_unless(alloc, head.cancelled, place.tree, context.zone)?;
    judged(alloc, context, &head, calls.as_slice())
}

/// What an item is: its members are read, and then its journey is judged, which gives its record and the number of its
/// extra calls, or its first fault.
pub(crate) fn verdict(
    alloc: Global,
    place: &Place<'_, '_>,
    context: &Context<'_>,
) -> Result<(JourneyRecord, u64), ReadFault>
    ensures found { IfOk result (λ found. spec.verdict context.now (place_of place.now)
        ≡ Ok (recorded found.0, found.1)) }
    ensures fault { IfErr result
        (IsFaultOf (spec.verdict context.now (place_of place.now))) }
    ensures servable { IfOk result (λ found. IsServable context.now found.0) }
{
    if is_object(place.tree) {
        item_read(alloc, place, context)
    } else {
        Err(ReadFault::Aside(Fault::BadField(Member::EstimatedVehicleJourney)))
    }
}

/// An item below a frame.
pub(crate) fn item_place<'t, 'a>(tree: &'t Value<'a>, frame: &Place<'t, 'a>) -> Place<'t, 'a>
    ensures { place_of result ≡ places.item_place (place_of frame.now) (view tree.now) }
{
    Place {
        tree,
        frame: frame.frame,
        delivery: frame.delivery,
        service: frame.service,
    }
}
