//! The way down from an object to what stands in it. The functions meet `specs/Steps.antt`.
ghost use Rattle.std.specs.Prelude.{◌≡◌, ◌++◌, map, Ok, IfErr, IfOk, OnOk};
ghost use Rattle.json_tree.specs.Trees.{view};
ghost use Rattle.gw_base.specs.Chains.{ok_map};
ghost use Rattle.siri_json.specs.Shown.{trees_of, IsFaultOf};
ghost use Rattle.siri_situations.specs.Shown.{all_seen};
ghost use Rattle.siri_situations.specs.Steps as spec;

use gw_base::Member;
use journey_model::Fault;
use json::Value;
use siri_json::ReadFault;
use siri_json::fields::{optional_object, optional_objects};
use siri_json::forms::none;
use std::alloc::{AllocError, Global};
use std::slice;

/// A tree in a delivery.
#[derive(Clone, Copy)]
pub(crate) struct Branch<'t, 'a> {
    /// The tree.
    pub tree: &'t Value<'a>,
}

/// A step down from an object, to a member that may be missing.
#[derive(Clone, Copy, Debug, PartialEq, Eq)]
pub(crate) enum Step {
    /// To an object.
    Object(Member),
    /// To repeated objects.
    Repeated(Member),
}

/// The trees to which a step leads from one.
pub(crate) fn trees_at<'t, 'a>(tree: &'t Value<'a>, step: &Step) -> Result<&'t [Value<'a>], Fault>
    ensures { ok_map trees_of result ≡ spec.trees_at step.now (view tree.now) }
{
    match step {
        Step::Object(member) => match optional_object(tree, *member) {
            Ok(Some(found)) => Ok(slice::from_ref(found)),
            Ok(None) => {
                let trees: &'t [Value<'a>] = none();
                Ok(trees)
            }
            Err(fault) => Err(fault),
        },
        Step::Repeated(member) => match optional_objects(tree, *member) {
            Ok(Some(found)) => Ok(found),
            Ok(None) => {
                let trees: &'t [Value<'a>] = none();
                Ok(trees)
            }
            Err(fault) => Err(fault),
        },
    }
}

/// Trees, after those that were found before.
pub(crate) fn add_trees<'t, 'a>(
    found: &mut Vec<Branch<'t, 'a>>,
    trees: &'t [Value<'a>],
) -> Result<(), AllocError>
    ensures { OnOk result
        (all_seen found.new.items ≡ all_seen found.old.items ++ map view trees.now) }
{
    for tree in trees {
        found.push(Branch { tree })?;
    }
    Ok(())
}

// The trees to which a step leads from trees.
fn step_from<'t, 'a>(
    alloc: Global,
    trees: &[Branch<'t, 'a>],
    step: &Step,
) -> Result<Vec<Branch<'t, 'a>>, ReadFault>
    ensures found { IfOk result (λ found.
        spec.gather (spec.trees_at step.now) (all_seen trees.now) ≡ Ok (all_seen found.items)) }
    ensures fault { IfErr result
        (IsFaultOf (spec.gather (spec.trees_at step.now) (all_seen trees.now))) }
{
    let mut found = Vec::new(alloc);
    for tree in trees {
        let under = trees_at(tree.tree, step)?;
        add_trees(&mut found, under)?;
    }
    Ok(found)
}

/// The trees at the end of a way.
pub(crate) fn walk<'t, 'a>(
    alloc: Global,
    start: &'t [Value<'a>],
    steps: &[Step],
) -> Result<Vec<Branch<'t, 'a>>, ReadFault>
    ensures found { IfOk result (λ found.
        spec.walk steps.now (map view start.now) ≡ Ok (all_seen found.items)) }
    ensures fault { IfErr result (IsFaultOf (spec.walk steps.now (map view start.now))) }
{
    let mut trees = Vec::new(alloc);
    add_trees(&mut trees, start)?;
    for step in steps {
        trees = step_from(alloc, trees.as_slice(), step)?;
    }
    Ok(trees)
}
