//! A delivery of estimated timetables. The functions meet `specs/Deliveries.antt`.
ghost use Rattle.std.specs.Prelude.{◌++◌, ◌∷◌, [], ℕ, List as Values, Result as Answer, map, IfOk, OnOk};
ghost use Rattle.std.specs.List.{flat_map};
ghost use Rattle.journey_model.specs.Records.{Recorded};
ghost use Rattle.journey_model.specs.declared.fault.Fault as faults;
ghost use Rattle.json_tree.specs.Trees.{view};
ghost use Rattle.siri_calls.specs.Deliveries.{AreServable, ReadsBody};
ghost use Rattle.siri_calls.specs.Frame.{items_below};
ghost use Rattle.siri_calls.specs.Shown.{place_of};
ghost use Rattle.siri_calls.specs.Verdicts as spec;
ghost use Rattle.siri_json.specs.Deliveries.{Reads, ReadsTree, tree_of};

use crate::frame::{Place, frames_in};
use crate::items::{item_place, verdict};
use crate::read_members::ReadMembers;
use crate::takes_journeys::TakesJourneys;
use gw_base::Member;
use journey_model::{Context, JourneyRecord};
use json::{Scratch, Value};
use json_tree::read_kept;
use siri_json::frame::repeated_under;
use siri_json::{DeliveryFault, ReadFault};
use std::alloc::{AllocError, Global};

/// What an item of a delivery is: a record of a journey, or the fault for which it is set aside.
pub type Item = siri_json::Item<JourneyRecord>;

/// What a delivery of estimated timetables says. Of the journeys that are taken, the calls that were passed over as
/// extra ones are counted.
pub type Delivery = siri_json::Delivery<JourneyRecord>;

// Judges an item, and hands it on.
fn take_item<T: TakesJourneys>(
    alloc: Global,
    place: &Place<'_, '_>,
    context: &Context<'_>,
    taker: &mut T,
) -> Result<(), AllocError>
    ensures { (first : T) (earlier : Values (Answer (Recorded × ℕ) faults.Fault))
        → T.has_taken context.now first taker.old earlier
        → OnOk result (T.has_taken context.now first taker.new
        (earlier ++ spec.verdict context.now (place_of place.now) ∷ [])) }
{
    match verdict(alloc, place, context) {
        Ok(one) => taker.take(alloc, context, Ok(one)),
        Err(ReadFault::Aside(fault)) => taker.take(alloc, context, Err(fault)),
        Err(ReadFault::Memory) => Err(AllocError),
    }
}

// Hands on the items below a frame.
fn take_below<T: TakesJourneys>(
    alloc: Global,
    frame: &Place<'_, '_>,
    context: &Context<'_>,
    taker: &mut T,
) -> Result<(), AllocError>
    ensures { (first : T) (earlier : Values (Answer (Recorded × ℕ) faults.Fault))
        → T.has_taken context.now first taker.old earlier
        → OnOk result (T.has_taken context.now first taker.new
        (earlier ++ map (spec.verdict context.now) (items_below (place_of frame.now)))) }
{
    let trees = repeated_under(frame.tree, Member::EstimatedVehicleJourney);
    for tree in trees {
        let place = item_place(tree, frame);
        take_item(alloc, &place, context, taker)?;
    }
    Ok(())
}

// Hands on the items below frames.
fn take_frames<T: TakesJourneys>(
    alloc: Global,
    frames: &[Place<'_, '_>],
    context: &Context<'_>,
    taker: &mut T,
) -> Result<(), AllocError>
    ensures { (first : T) (earlier : Values (Answer (Recorded × ℕ) faults.Fault))
        → T.has_taken context.now first taker.old earlier
        → OnOk result (T.has_taken context.now first taker.new
        (earlier ++ map (spec.verdict context.now) (flat_map items_below (map place_of frames.now)))) }
{
    for frame in frames {
        take_below(alloc, frame, context, taker)?;
    }
    Ok(())
}

// Hands on the items of a tree.
fn take_tree<T: TakesJourneys>(
    alloc: Global,
    root: &Value<'_>,
    context: &Context<'_>,
    taker: &mut T,
) -> Result<(), DeliveryFault>
    ensures { (first : T) → T.has_taken context.now first taker.old []
        → ReadsTree (λ _ all. T.has_taken context.now first taker.new all)
        (spec.verdicts context.now (view root.now)) result }
{
    let frames = match frames_in(alloc, root) {
        Ok(frames) => frames,
        Err(fault) => return Err(fault),
    };
    match take_frames(alloc, frames.as_slice(), context, taker) {
        Ok(()) => Ok(()),
        Err(AllocError) => Err(DeliveryFault::Memory),
    }
}

/// Reads a delivery of estimated timetables (SIRI 2.0, EstimatedTimetableDelivery; in JSON after SIRI Lite), and hands
/// on each journey of it, in document order, as soon as it is judged: taken, or set aside with its first fault. NotJson
/// comes exactly where the body isn't JSON in UTF-8, NotDelivery where the way down to its journeys is broken, with the
/// first member that is wrong. Want of memory may come in the place of any answer.
pub fn hand_on_journeys<T: TakesJourneys>(
    alloc: Global,
    body: &[u8],
    context: &Context<'_>,
    taker: &mut T,
) -> Result<(), DeliveryFault>
    ensures { (first : T) → T.has_taken context.now first taker.old []
        → Reads (λ _ all. T.has_taken context.now first taker.new all) (spec.verdicts context.now) (tree_of body.now)
        result }
{
    let mut scratch = Scratch::new(alloc);
    match read_kept::<ReadMembers>(alloc, body, &mut scratch) {
        Ok(root) => take_tree(alloc, &root, context, taker),
        Err(fault) => Err(DeliveryFault::from(fault)),
    }
}

/// Reads a delivery as `hand_on_journeys` does, and gathers its journeys.
pub fn read_delivery(
    alloc: Global,
    body: &[u8],
    context: &Context<'_>,
) -> Result<Delivery, DeliveryFault>
    ensures reads { ReadsBody context.now body.now result }
    ensures servable { IfOk result (λ delivery.
        AreServable context.now delivery.items) }
{
    let mut delivery = Delivery::new(alloc);
    match hand_on_journeys(alloc, body, context, &mut delivery) {
        Ok(()) => Ok(delivery),
        Err(fault) => Err(fault),
    }
}
