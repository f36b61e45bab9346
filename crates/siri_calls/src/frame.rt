//! The way down from the root of a delivery to its journeys. The functions meet `specs/Frame.antt`.
ghost use Rattle.std.specs.Prelude.{◌≡◌, ◌++◌, map, Ok, IfErr, IfOk};
ghost use Rattle.json_tree.specs.Trees.{view};
ghost use Rattle.gw_base.specs.Chains.{ok_map};
ghost use Rattle.siri_calls.specs.Frame as spec;
ghost use Rattle.siri_calls.specs.Shown.{place_of, places_of};
ghost use Rattle.siri_json.specs.Shown.{IsFrameFault};

use gw_base::Member;
use json::Value;
use json_tree::find;
use siri_json::DeliveryFault;
use siri_json::forms::are_objects;
use siri_json::frame::{deliveries_in, repeated_under, service_in};
use std::alloc::Global;

/// An object of a delivery or a journey's item, and the members above that may say when it was
/// recorded.
#[derive(Clone, Copy)]
pub(crate) struct Place<'t, 'a> {
    /// The object or the item.
    pub tree: &'t Value<'a>,
    /// RecordedAtTime of its frame.
    pub frame: Option<&'t Value<'a>>,
    /// ResponseTimestamp of its delivery.
    pub delivery: Option<&'t Value<'a>>,
    /// ResponseTimestamp of its service delivery.
    pub service: Option<&'t Value<'a>>,
}

// A frame of a delivery.
fn frame_place<'t, 'a>(
    tree: &'t Value<'a>,
    delivery: &'t Value<'a>,
    service: &'t Value<'a>,
) -> Place<'t, 'a>
    ensures { place_of result
        ≡ spec.frame_place (spec.delivery_place (view service.now) (view delivery.now)) (view tree.now) }
{
    Place {
        tree,
        frame: find(tree, "RecordedAtTime"),
        delivery: find(delivery, "ResponseTimestamp"),
        service: find(service, "ResponseTimestamp"),
    }
}

// The frames below a delivery, after those that were found before.
fn add_frames<'t, 'a>(
    found: &mut Vec<Place<'t, 'a>>,
    delivery: &'t Value<'a>,
    service: &'t Value<'a>,
) -> Result<(), DeliveryFault>
    ensures found { IfOk result (λ _. ok_map (λ frames. places_of found.old.items ++ frames)
        (spec.all_objects (spec.frames_below
        (spec.delivery_place (view service.now) (view delivery.now))))
        ≡ Ok (places_of found.new.items)) }
    ensures fault { IfErr result (IsFrameFault
        (spec.all_objects (spec.frames_below
        (spec.delivery_place (view service.now) (view delivery.now))))) }
{
    let trees = repeated_under(delivery, Member::EstimatedJourneyVersionFrame);
    if !are_objects(trees) {
        return Err(DeliveryFault::NotDelivery(Member::EstimatedJourneyVersionFrame));
    }
    for tree in trees {
        found.push(frame_place(tree, delivery, service))?;
    }
    Ok(())
}

// The frames below deliveries.
fn frames_of<'t, 'a>(
    alloc: Global,
    deliveries: &'t [Value<'a>],
    service: &'t Value<'a>,
) -> Result<Vec<Place<'t, 'a>>, DeliveryFault>
    ensures found { IfOk result (λ found.
        spec.frames_of (map (spec.delivery_place (view service.now)) (map view deliveries.now))
        ≡ Ok (places_of found.items)) }
    ensures fault { IfErr result (IsFrameFault
        (spec.frames_of (map (spec.delivery_place (view service.now)) (map view deliveries.now)))) }
{
    let mut found = Vec::new(alloc);
    for delivery in deliveries {
        if let Err(fault) = add_frames(&mut found, delivery, service) {
            return Err(fault);
        }
    }
    Ok(found)
}

/// The frames of a delivery, in document order, or the first row of the way down that is broken.
pub(crate) fn frames_in<'t, 'a>(
    alloc: Global,
    root: &'t Value<'a>,
) -> Result<Vec<Place<'t, 'a>>, DeliveryFault>
    ensures found { IfOk result (λ found.
        spec.frames_in (view root.now) ≡ Ok (places_of found.items)) }
    ensures fault { IfErr result (IsFrameFault (spec.frames_in (view root.now))) }
{
    let service = service_in(root)?;
    let deliveries = deliveries_in(service, Member::EstimatedTimetableDelivery)?;
    frames_of(alloc, deliveries, service)
}
