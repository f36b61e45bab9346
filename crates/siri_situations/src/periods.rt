//! When a situation holds. The functions meet `specs/Periods.antt`.
ghost use Rattle.std.specs.Prelude.{◌≡◌, Ok, IfErr, IfOk, map, option_map, option_to_list};
ghost use Rattle.std.specs.List.{list_all};
ghost use Rattle.json_tree.specs.Trees.{view};
ghost use Rattle.gw_base.specs.Chains.{ok_map};
ghost use Rattle.siri_json.specs.Shown.{instant_of, IsFaultOf};
ghost use Rattle.siri_situations.specs.Periods as spec;
ghost use Rattle.siri_situations.specs.Steps.{gather};

use crate::steps::{Step, trees_at};
use gw_base::{List, Member};
use journey_model::{Fault, ValidPeriod};
use json::Value;
use service_day::{Instant, Zone};
use siri_json::ReadFault;
use siri_json::fields::optional_moment;
use std::alloc::Global;

// The whole seconds of an instant.
fn seconds(instant: Option<Instant>) -> Option<u64>
    ensures { result ≡ spec.seconds (option_map instant_of instant) }
{
    match instant {
        Some(instant) => Some(instant.secs.unsigned_abs()),
        None => None,
    }
}

// A period that begins or ends.
fn kept(start: Option<u64>, end: Option<u64>) -> Option<ValidPeriod>
    ensures { option_to_list result ≡ spec.kept start end }
{
    match (start, end) {
        (None, None) => None,
        _ => Some(ValidPeriod { start, end }),
    }
}

// The period that an object says, if it begins or ends.
fn period(tree: &Value<'_>, zone: &Zone) -> Result<Option<ValidPeriod>, Fault>
    ensures { ok_map option_to_list result ≡ spec.period zone.now (view tree.now) }
{
    let start = optional_moment(tree, Member::StartTime, zone)?;
    let end = optional_moment(tree, Member::EndTime, zone)?;
    Ok(kept(seconds(start), seconds(end)))
}

// Whether the start of a period has its form.
fn start_in_form(tree: &Value<'_>, zone: &Zone) -> bool
    ensures { result ≡ spec.start_in_form zone.now (view tree.now) }
{
    optional_moment(tree, Member::StartTime, zone).is_ok()
}

// Whether the starts of all periods have their form.
fn starts_in_form(trees: &[Value<'_>], zone: &Zone) -> bool
    ensures { result ≡ list_all (λ tree. spec.start_in_form zone.now (view tree)) trees.now }
{
    trees.iter().all(|tree| start_in_form(tree, zone))
}

// The periods that objects say.
fn gather_periods(
    alloc: Global,
    trees: &[Value<'_>],
    zone: &Zone,
) -> Result<List<ValidPeriod>, ReadFault>
    ensures found { IfOk result (λ found.
        gather (spec.period zone.now) (map view trees.now) ≡ Ok found) }
    ensures fault { IfErr result (IsFaultOf (gather (spec.period zone.now) (map view trees.now))) }
{
    let mut found = List::new(alloc);
    for tree in trees {
        let one = period(tree, zone)?;
        if let Some(one) = one {
            found.push(one)?;
        }
    }
    Ok(found)
}

// The same, where the starts of all periods have their form.
fn periods_in(
    alloc: Global,
    trees: &[Value<'_>],
    zone: &Zone,
) -> Result<List<ValidPeriod>, ReadFault>
    ensures found { IfOk result (λ found.
        spec.periods_in zone.now (map view trees.now) ≡ Ok found) }
    ensures fault { IfErr result (IsFaultOf (spec.periods_in zone.now (map view trees.now))) }
{
    if !starts_in_form(trees, zone) {
        return Err(ReadFault::Aside(Fault::BadField(Member::StartTime)));
    }
    match gather_periods(alloc, trees, zone) {
        Ok(found) => Ok(found),
        Err(fault) => Err(fault),
    }
}

/// The periods of a situation, in document order.
pub(crate) fn read_periods(
    alloc: Global,
    tree: &Value<'_>,
    zone: &Zone,
) -> Result<List<ValidPeriod>, ReadFault>
    ensures found { IfOk result (λ found. spec.periods zone.now (view tree.now) ≡ Ok found) }
    ensures fault { IfErr result (IsFaultOf (spec.periods zone.now (view tree.now))) }
{
    let trees = trees_at(tree, &Step::Repeated(Member::ValidityPeriod))?;
    periods_in(alloc, trees, zone)
}
