//! A delivery of situations. The functions meet `specs/Deliveries.antt`.
ghost use Rattle.std.specs.Prelude.{◌++◌, ◌∷◌, [], ℕ, List as Values, Result as Answer, map, IfOk, OnOk};
ghost use Rattle.std.specs.List.{flat_map};
ghost use Rattle.gw_base.specs.declared.member.Member.TheVariants as Member;
ghost use Rattle.journey_model.specs.declared.fault.Fault as faults;
ghost use Rattle.journey_model.specs.declared.situation.Situation as of_journeys;
ghost use Rattle.json_tree.specs.Trees.{view};
ghost use Rattle.siri_json.specs.Deliveries.{Reads, ReadsTree, tree_of};
ghost use Rattle.siri_json.specs.Frame.{repeated_under as trees_under};
ghost use Rattle.siri_situations.specs.Deliveries.{ReadsSituations, ReferToKnown};
ghost use Rattle.siri_situations.specs.Shown.{all_seen};
ghost use Rattle.siri_situations.specs.Situations as spec;

use crate::frame::groups_in;
use crate::situations::verdict;
use crate::steps::Branch;
use crate::takes_situations::TakesSituations;
use gw_base::Member;
use journey_model::{Context, Situation};
use json::{Scratch, Value};
use json_tree::read_tree;
use siri_json::frame::repeated_under;
use siri_json::{DeliveryFault, ReadFault};
use std::alloc::{AllocError, Global};

/// What an item of a delivery is: a situation, or the fault for which it is set aside.
pub type Item = siri_json::Item<Situation>;

/// What a delivery of situations says. The references of the situations that are taken which aren't known are counted.
pub type SituationDelivery = siri_json::Delivery<Situation>;

// Reads an item, and hands it on.
fn take_item<T: TakesSituations>(
    alloc: Global,
    tree: &Value<'_>,
    context: &Context<'_>,
    taker: &mut T,
) -> Result<(), AllocError>
    ensures { (first : T) (earlier : Values (Answer (of_journeys.Situation × ℕ) faults.Fault))
        → T.has_taken context.now first taker.old earlier
        → OnOk result (T.has_taken context.now first taker.new
        (earlier ++ spec.verdict context.now (view tree.now) ∷ [])) }
{
    match verdict(alloc, tree, context) {
        Ok(one) => taker.take(alloc, context, Ok(one)),
        Err(ReadFault::Aside(fault)) => taker.take(alloc, context, Err(fault)),
        Err(ReadFault::Memory) => Err(AllocError),
    }
}

// Hands on the items that stand in an object.
fn take_group<T: TakesSituations>(
    alloc: Global,
    group: &Value<'_>,
    context: &Context<'_>,
    taker: &mut T,
) -> Result<(), AllocError>
    ensures { (first : T) (earlier : Values (Answer (of_journeys.Situation × ℕ) faults.Fault))
        → T.has_taken context.now first taker.old earlier
        → OnOk result (T.has_taken context.now first taker.new
        (earlier ++ map (spec.verdict context.now)
        (trees_under Member.PtSituationElement (view group.now)))) }
{
    let trees = repeated_under(group, Member::PtSituationElement);
    for tree in trees {
        take_item(alloc, tree, context, taker)?;
    }
    Ok(())
}

// Hands on the items that stand in objects.
fn take_groups<T: TakesSituations>(
    alloc: Global,
    groups: &[Branch<'_, '_>],
    context: &Context<'_>,
    taker: &mut T,
) -> Result<(), AllocError>
    ensures { (first : T) (earlier : Values (Answer (of_journeys.Situation × ℕ) faults.Fault))
        → T.has_taken context.now first taker.old earlier
        → OnOk result (T.has_taken context.now first taker.new
        (earlier ++ map (spec.verdict context.now)
        (flat_map (trees_under Member.PtSituationElement) (all_seen groups.now)))) }
{
    for group in groups {
        take_group(alloc, group.tree, context, taker)?;
    }
    Ok(())
}

// Hands on the items of a tree.
fn take_tree<T: TakesSituations>(
    alloc: Global,
    root: &Value<'_>,
    context: &Context<'_>,
    taker: &mut T,
) -> Result<(), DeliveryFault>
    ensures { (first : T) → T.has_taken context.now first taker.old []
        → ReadsTree (λ _ all. T.has_taken context.now first taker.new all)
        (spec.verdicts context.now (view root.now)) result }
{
    let groups = match groups_in(alloc, root) {
        Ok(groups) => groups,
        Err(fault) => return Err(fault),
    };
    match take_groups(alloc, groups.as_slice(), context, taker) {
        Ok(()) => Ok(()),
        Err(AllocError) => Err(DeliveryFault::Memory),
    }
}

/// Reads a delivery of situations (SIRI 2.0, SituationExchangeDelivery; in JSON after SIRI Lite), and hands on each
/// situation of it, in document order, as soon as it is read: taken, or set aside with its first fault. NotJson comes
/// exactly where the body isn't JSON in UTF-8, NotDelivery where the way down to its situations is broken, with the
/// first member that is wrong. Want of memory may come in the place of any answer.
pub fn hand_on_situations<T: TakesSituations>(
    alloc: Global,
    body: &[u8],
    context: &Context<'_>,
    taker: &mut T,
) -> Result<(), DeliveryFault>
    ensures { (first : T) → T.has_taken context.now first taker.old []
        → Reads (λ _ all. T.has_taken context.now first taker.new all) (spec.verdicts context.now) (tree_of body.now)
        result }
{
    let mut scratch = Scratch::new(alloc);
    match read_tree(alloc, body, &mut scratch) {
        Ok(root) => take_tree(alloc, &root, context, taker),
        Err(fault) => Err(DeliveryFault::from(fault)),
    }
}

/// Reads a delivery as `hand_on_situations` does, and gathers its situations.
pub fn read_situations(
    alloc: Global,
    body: &[u8],
    context: &Context<'_>,
) -> Result<SituationDelivery, DeliveryFault>
    ensures reads { ReadsSituations context.now body.now result }
    ensures known { IfOk result (λ delivery.
        ReferToKnown context.now.table delivery.items) }
{
    let mut delivery = SituationDelivery::new(alloc);
    match hand_on_situations(alloc, body, context, &mut delivery) {
        Ok(()) => Ok(delivery),
        Err(fault) => Err(fault),
    }
}
