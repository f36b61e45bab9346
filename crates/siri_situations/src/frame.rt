//! The way down from the root of a delivery to its situations. The functions meet `specs/Frame.antt`.
ghost use Rattle.std.specs.Prelude.{◌≡◌, Ok, IfErr, IfOk, map};
ghost use Rattle.json_tree.specs.Trees.{view};
ghost use Rattle.gw_base.specs.Chains.{ok_map};
ghost use Rattle.siri_json.specs.Shown.{trees_of, IsFrameFault};
ghost use Rattle.siri_situations.specs.Frame as spec;
ghost use Rattle.siri_situations.specs.Shown.{all_seen};
ghost use Rattle.siri_situations.specs.Steps.{gather};

use crate::steps::{Branch, add_trees};
use gw_base::Member;
use json::Value;
use siri_json::DeliveryFault;
use siri_json::forms::{Form, none};
use siri_json::frame::{deliveries_in, object_at, service_in};
use std::alloc::Global;
use std::slice;

// The object in which the situations of a delivery stand, if it is there.
fn group<'t, 'a>(delivery: &'t Value<'a>) -> Result<&'t [Value<'a>], Member>
    ensures { ok_map trees_of result ≡ spec.group (view delivery.now) }
{
    match object_at(delivery, Member::Situations) {
        Form::Missing => {
            let trees: &'t [Value<'a>] = none();
            Ok(trees)
        }
        Form::Wrong => Err(Member::Situations),
        Form::Found(found) => Ok(slice::from_ref(found)),
    }
}

// Those of deliveries.
fn groups_of<'t, 'a>(
    alloc: Global,
    deliveries: &'t [Value<'a>],
) -> Result<Vec<Branch<'t, 'a>>, DeliveryFault>
    ensures found { IfOk result (λ found.
        gather spec.group (map view deliveries.now) ≡ Ok (all_seen found.items)) }
    ensures fault { IfErr result (IsFrameFault (gather spec.group (map view deliveries.now))) }
{
    let mut found = Vec::new(alloc);
    for delivery in deliveries {
        let under = group(delivery)?;
        add_trees(&mut found, under)?;
    }
    Ok(found)
}

/// The objects in which the situations of a root stand, in document order, or the first row of the way
/// down that is broken.
pub(crate) fn groups_in<'t, 'a>(
    alloc: Global,
    root: &'t Value<'a>,
) -> Result<Vec<Branch<'t, 'a>>, DeliveryFault>
    ensures found { IfOk result (λ found.
        spec.groups_in (view root.now) ≡ Ok (all_seen found.items)) }
    ensures fault { IfErr result (IsFrameFault (spec.groups_in (view root.now))) }
{
    let service = service_in(root)?;
    let deliveries = deliveries_in(service, Member::SituationExchangeDelivery)?;
    groups_of(alloc, deliveries)
}
