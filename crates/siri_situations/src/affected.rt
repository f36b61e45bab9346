//! What a situation affects. The functions meet `specs/Affected.antt`.
ghost use Rattle.std.specs.Prelude.{◌≡◌, ◌++◌, Ok, IfErr, IfOk, map};
ghost use Rattle.std.specs.List.{list_all};
ghost use Rattle.json_tree.specs.Trees.{view};
ghost use Rattle.gw_base.specs.Chains.{ok_map};
ghost use Rattle.siri_json.specs.Shown.{IsFaultOf};
ghost use Rattle.siri_situations.specs.Affected as spec;
ghost use Rattle.siri_situations.specs.Shown.{all_seen};
ghost use Rattle.siri_situations.specs.Steps.{gather};
ghost use Rattle.siri_situations.specs.declared.affected.AffectedKind.TheVariants as AffectedKind;
ghost use Rattle.timetable.specs.Seen.{seen};

use crate::steps::{Branch, Step, trees_at, walk};
use gw_base::{List, Member};
use journey_model::{Fault, Ref, journey_named, route_named, stop_named};
use json::Value;
use siri_json::ReadFault;
use siri_json::fields::{optional_text, required_day, required_text};
use std::alloc::{AllocError, Global};
use timetable::Timetable;

/// What may be affected (SIRI 2.0, AffectedLine, AffectedStopPoint, AffectedVehicleJourney).
#[derive(Clone, Copy, Debug, PartialEq, Eq)]
pub(crate) enum AffectedKind {
    /// A line, which is a route.
    Line,
    /// A stop point.
    StopPoint,
    /// A journey on a day.
    VehicleJourney,
}

/// A reference of a situation.
#[derive(Clone, Copy, Debug, PartialEq, Eq)]
pub(crate) struct Reference {
    /// The member that names what it refers to.
    pub member: Member,
    /// What it refers to, where the timetable has it.
    pub known: Option<Ref>,
}

// The way from Affects to the objects that hold the references of a kind.
fn steps(kind: AffectedKind) -> &'static [Step]
    ensures { result.now ≡ spec.steps kind }
{
    match kind {
        AffectedKind::Line => &[
            Step::Object(Member::Networks),
            Step::Repeated(Member::AffectedNetwork),
            Step::Repeated(Member::AffectedLine),
        ],
        AffectedKind::StopPoint => &[
            Step::Object(Member::StopPoints),
            Step::Repeated(Member::AffectedStopPoint),
        ],
        AffectedKind::VehicleJourney => &[
            Step::Object(Member::VehicleJourneys),
            Step::Repeated(Member::AffectedVehicleJourney),
            Step::Object(Member::FramedVehicleJourneyRef),
        ],
    }
}

// The line that an object names, if it names one, after the references that were found before.
fn add_line(
    found: &mut List<Reference>,
    table: &Timetable,
    tree: &Value<'_>,
) -> Result<(), ReadFault>
    ensures found { IfOk result (λ _. ok_map (λ rest. found.old ++ rest)
        (spec.reference AffectedKind.Line (seen table.now) (view tree.now)) ≡ Ok found.new) }
    ensures fault { IfErr result
        (IsFaultOf (spec.reference AffectedKind.Line (seen table.now) (view tree.now))) }
{
    match optional_text(tree, Member::LineRef) {
        Ok(Some(id)) => {
            let known = route_named(table, id);
            found.push(Reference {
                member: Member::LineRef,
                known,
            })?;
            Ok(())
        }
        Ok(None) => Ok(()),
        Err(fault) => Err(ReadFault::Aside(fault)),
    }
}

// The stop that an object names, if it names one, after the references that were found before.
fn add_stop(
    found: &mut List<Reference>,
    table: &Timetable,
    tree: &Value<'_>,
) -> Result<(), ReadFault>
    ensures found { IfOk result (λ _. ok_map (λ rest. found.old ++ rest)
        (spec.reference AffectedKind.StopPoint (seen table.now) (view tree.now)) ≡ Ok found.new) }
    ensures fault { IfErr result
        (IsFaultOf (spec.reference AffectedKind.StopPoint (seen table.now) (view tree.now))) }
{
    match optional_text(tree, Member::StopPointRef) {
        Ok(Some(id)) => {
            let known = stop_named(table, id);
            found.push(Reference {
                member: Member::StopPointRef,
                known,
            })?;
            Ok(())
        }
        Ok(None) => Ok(()),
        Err(fault) => Err(ReadFault::Aside(fault)),
    }
}

// The journey that an object names, after the references that were found before.
fn add_journey(
    found: &mut List<Reference>,
    table: &Timetable,
    tree: &Value<'_>,
) -> Result<(), ReadFault>
    ensures found { IfOk result (λ _. ok_map (λ rest. found.old ++ rest)
        (spec.reference AffectedKind.VehicleJourney (seen table.now) (view tree.now))
        ≡ Ok found.new) }
    ensures fault { IfErr result
        (IsFaultOf (spec.reference AffectedKind.VehicleJourney (seen table.now) (view tree.now))) }
{
    let day = required_day(tree, Member::DataFrameRef)?;
    let id = required_text(tree, Member::DatedVehicleJourneyRef)?;
    let known = journey_named(table, id, day);
    found.push(Reference {
        member: Member::DatedVehicleJourneyRef,
        known,
    })?;
    Ok(())
}

// The reference of a kind that an object holds, if it holds one, after those that were found before.
fn add_reference(
    found: &mut List<Reference>,
    kind: AffectedKind,
    table: &Timetable,
    tree: &Value<'_>,
) -> Result<(), ReadFault>
    ensures found { IfOk result (λ _. ok_map (λ rest. found.old ++ rest)
        (spec.reference kind (seen table.now) (view tree.now)) ≡ Ok found.new) }
    ensures fault { IfErr result
        (IsFaultOf (spec.reference kind (seen table.now) (view tree.now))) }
{
    match kind {
        AffectedKind::Line => add_line(found, table, tree),
        AffectedKind::StopPoint => add_stop(found, table, tree),
        AffectedKind::VehicleJourney => add_journey(found, table, tree),
    }
}

// Whether the day of a journey has its form.
fn day_in_form(tree: &Value<'_>) -> bool
    ensures { result ≡ spec.day_in_form (view tree.now) }
{
    required_day(tree, Member::DataFrameRef).is_ok()
}

// Whether the day of each journey has its form.
fn each_day_in_form(trees: &[Branch<'_, '_>]) -> bool
    ensures { result ≡ list_all (λ tree. spec.day_in_form (view tree.tree.now)) trees.now }
{
    trees.iter().all(|tree| day_in_form(tree.tree))
}

// Whether the days have their form, where objects hold references to journeys.
fn days_in_form(kind: AffectedKind, trees: &[Branch<'_, '_>]) -> bool
    ensures { result ≡ spec.days_in_form kind (all_seen trees.now) }
{
    match kind {
        AffectedKind::Line | AffectedKind::StopPoint => true,
        AffectedKind::VehicleJourney => each_day_in_form(trees),
    }
}

// The references that objects hold, after those that were found before.
fn gather_references(
    found: &mut List<Reference>,
    kind: AffectedKind,
    table: &Timetable,
    trees: &[Branch<'_, '_>],
) -> Result<(), ReadFault>
    ensures found { IfOk result (λ _. ok_map (λ rest. found.old ++ rest)
        (gather (spec.reference kind (seen table.now)) (all_seen trees.now)) ≡ Ok found.new) }
    ensures fault { IfErr result
        (IsFaultOf (gather (spec.reference kind (seen table.now)) (all_seen trees.now))) }
{
    for tree in trees {
        if let Err(fault) = add_reference(found, kind, table, tree.tree) {
            return Err(fault);
        }
    }
    Ok(())
}

// The same, where the days of all journeys have their form.
fn add_references(
    found: &mut List<Reference>,
    kind: AffectedKind,
    table: &Timetable,
    trees: &[Branch<'_, '_>],
) -> Result<(), ReadFault>
    ensures found { IfOk result (λ _. ok_map (λ rest. found.old ++ rest)
        (spec.references_in kind (seen table.now) (all_seen trees.now)) ≡ Ok found.new) }
    ensures fault { IfErr result
        (IsFaultOf (spec.references_in kind (seen table.now) (all_seen trees.now))) }
{
    if !days_in_form(kind, trees) {
        return Err(ReadFault::Aside(Fault::BadField(Member::DataFrameRef)));
    }
    gather_references(found, kind, table, trees)
}

// The references of a kind below Affects, after those that were found before.
fn add_affected(
    alloc: Global,
    found: &mut List<Reference>,
    kind: AffectedKind,
    table: &Timetable,
    affects: &[Value<'_>],
) -> Result<(), ReadFault>
    ensures found { IfOk result (λ _. ok_map (λ rest. found.old ++ rest)
        (spec.references_by kind (seen table.now) (map view affects.now)) ≡ Ok found.new) }
    ensures fault { IfErr result
        (IsFaultOf (spec.references_by kind (seen table.now) (map view affects.now))) }
{
    let trees = match walk(alloc, affects, steps(kind)) {
        Ok(trees) => trees,
        Err(fault) => return Err(fault),
    };
    add_references(found, kind, table, trees.as_slice())
}

// All references below Affects.
fn references_below(
    alloc: Global,
    table: &Timetable,
    affects: &[Value<'_>],
) -> Result<List<Reference>, ReadFault>
    ensures found { IfOk result (λ found.
        spec.references_below (seen table.now) (map view affects.now) ≡ Ok found) }
    ensures fault { IfErr result
        (IsFaultOf (spec.references_below (seen table.now) (map view affects.now))) }
{
    let mut found = List::new(alloc);
    add_affected(alloc, &mut found, AffectedKind::Line, table, affects)?;
    add_affected(alloc, &mut found, AffectedKind::StopPoint, table, affects)?;
    add_affected(
        alloc,
        &mut found,
        AffectedKind::VehicleJourney,
        table,
        affects,
    )?;
    Ok(found)
}

/// The references of a situation: to lines, to stop points and to journeys, each in document order.
pub(crate) fn read_references(
    alloc: Global,
    table: &Timetable,
    tree: &Value<'_>,
) -> Result<List<Reference>, ReadFault>
    ensures found { IfOk result (λ found.
        spec.references (seen table.now) (view tree.now) ≡ Ok found) }
    ensures fault { IfErr result (IsFaultOf (spec.references (seen table.now) (view tree.now))) }
{
    let affects = trees_at(tree, &Step::Object(Member::Affects))?;
    references_below(alloc, table, affects)
}

// What is known of references.
fn known(alloc: Global, references: &[Reference]) -> Result<List<Ref>, AllocError>
    ensures { IfOk result (λ refs. refs ≡ spec.known references.now) }
{
    let mut refs = List::new(alloc);
    for one in references {
        if let Some(place) = one.known {
            refs.push(place)?;
        }
    }
    Ok(refs)
}

/// What a situation with these references affects, and how many of them aren't known.
pub(crate) fn affected(
    alloc: Global,
    references: &[Reference],
) -> Result<(List<Ref>, u64), ReadFault>
    ensures value { IfOk result (λ found. spec.affected references.now ≡ Ok (found.0, found.1)) }
    ensures fault { IfErr result (IsFaultOf (spec.affected references.now)) }
{
    let Some(first) = references.first() else {
        return Err(ReadFault::Aside(Fault::NoAffects));
    };
    let refs = known(alloc, references)?;
    if refs.is_empty() {
        return Err(ReadFault::Aside(Fault::UnknownRef(first.member)));
    }
    let unknown = references.len().saturating_sub(refs.len());
    Ok((refs, unknown as u64))
}
