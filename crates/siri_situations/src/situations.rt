//! What a situation says. The functions meet `specs/Situations.antt`.
ghost use Rattle.std.specs.Prelude.{◌≡◌, Ok, IfErr, IfOk};
ghost use Rattle.json_tree.specs.Trees.{view};
ghost use Rattle.siri_json.specs.Fields.{optional_member, required_member};
ghost use Rattle.siri_json.specs.Forms as forms;
ghost use Rattle.siri_json.specs.Shown.{optional_text as text_told, IsFaultOf};
ghost use Rattle.siri_situations.specs.Shown.{all_seen};
ghost use Rattle.siri_situations.specs.Situations as spec;
ghost use Rattle.timetable.specs.Seen.{seen};

use crate::affected::{Reference, affected, read_references};
use crate::content::{Content, Head, Words};
use crate::periods::read_periods;
use crate::senses::{cause, effect_of, is_served};
use crate::steps::{Branch, Step, walk};
use gw_base::{List, Member, Text};
use journey_model::{Context, Fault, Ref, Situation};
use json::Value;
use service_day::Zone;
use siri_json::ReadFault;
use siri_json::fields::{optional_text, optional_whole, required_text};
use siri_json::forms::is_object;
use std::alloc::Global;
use std::slice;
use timetable::Timetable;

// A copy of a Text that has to be there.
fn needed_text(alloc: Global, tree: &Value<'_>, member: Member) -> Result<Text, ReadFault>
    ensures found { IfOk result (λ text.
        required_member forms.text member (view tree.now) ≡ Ok text) }
    ensures fault { IfErr result
        (IsFaultOf (required_member forms.text member (view tree.now))) }
{
    let text = required_text(tree, member)?;
    let copy = Text::copied(alloc, text)?;
    Ok(copy)
}

// A copy of a Text that may be missing.
fn text_if_there(alloc: Global, tree: &Value<'_>, member: Member) -> Result<Option<Text>, ReadFault>
    ensures found { IfOk result (λ text.
        optional_member forms.text member (view tree.now) ≡ Ok text) }
    ensures fault { IfErr result
        (IsFaultOf (optional_member forms.text member (view tree.now))) }
{
    match optional_text(tree, member) {
        Ok(Some(text)) => {
            let copy = Text::copied(alloc, text)?;
            Ok(Some(copy))
        }
        Ok(None) => Ok(None),
        Err(fault) => Err(ReadFault::Aside(fault)),
    }
}

// The number, the version, and whether it is served.
fn read_head(alloc: Global, tree: &Value<'_>) -> Result<Head, ReadFault>
    ensures found { IfOk result (λ found. spec.head (view tree.now) ≡ Ok found) }
    ensures fault { IfErr result (IsFaultOf (spec.head (view tree.now))) }
{
    let number = needed_text(alloc, tree, Member::SituationNumber)?;
    let version = optional_whole(tree, Member::Version)?;
    let progress = optional_text(tree, Member::Progress)?;
    Ok(Head {
        number,
        version: version.unwrap_or(0),
        served: is_served(progress),
    })
}

// The texts.
fn read_words(alloc: Global, tree: &Value<'_>) -> Result<Words, ReadFault>
    ensures found { IfOk result (λ found. spec.words (view tree.now) ≡ Ok found) }
    ensures fault { IfErr result (IsFaultOf (spec.words (view tree.now))) }
{
    let summary = text_if_there(alloc, tree, Member::Summary)?;
    let description = text_if_there(alloc, tree, Member::Description)?;
    Ok(Words {
        summary,
        description,
    })
}

// What a situation says before what it affects.
fn read_content(alloc: Global, tree: &Value<'_>, zone: &Zone) -> Result<Content, ReadFault>
    ensures found { IfOk result (λ found. spec.content zone.now (view tree.now) ≡ Ok found) }
    ensures fault { IfErr result (IsFaultOf (spec.content zone.now (view tree.now))) }
{
    let head = read_head(alloc, tree)?;
    let periods = read_periods(alloc, tree, zone)?;
    let words = read_words(alloc, tree)?;
    Ok(Content {
        head,
        periods,
        words,
    })
}

// The condition of the first of some consequences.
fn condition<'t>(consequences: &[Branch<'t, '_>]) -> Result<Option<&'t str>, Fault>
    ensures { text_told result ≡ spec.condition (all_seen consequences.now) }
{
    match consequences.first() {
        Some(first) => optional_text(first.tree, Member::Condition),
        None => Ok(None),
    }
}

// The effect, by the condition of the first consequence.
fn read_effect(alloc: Global, tree: &Value<'_>) -> Result<i32, ReadFault>
    ensures found { IfOk result (λ found. spec.effect (view tree.now) ≡ Ok found) }
    ensures fault { IfErr result (IsFaultOf (spec.effect (view tree.now))) }
{
    let consequences = walk(
        alloc,
        slice::from_ref(tree),
        &[
            Step::Object(Member::Consequences),
            Step::Repeated(Member::Consequence),
        ],
    )?;
    let told = condition(consequences.as_slice())?;
    Ok(effect_of(told))
}

// The references and the effect.
fn read_touched(
    alloc: Global,
    tree: &Value<'_>,
    table: &Timetable,
) -> Result<(List<Reference>, i32), ReadFault>
    ensures found { IfOk result (λ found.
        spec.touched (seen table.now) (view tree.now) ≡ Ok (found.0, found.1)) }
    ensures fault { IfErr result (IsFaultOf (spec.touched (seen table.now) (view tree.now))) }
{
    let references = read_references(alloc, table, tree)?;
    let effect = read_effect(alloc, tree)?;
    Ok((references, effect))
}

// The situation of these parts.
fn situation_of(content: Content, cause: i32, effect: i32, refs: List<Ref>) -> Situation
    ensures { result ≡ spec.situation_of content cause effect refs }
{
    let Content {
        head,
        periods,
        words,
    } = content;
    let Head {
        number,
        version,
        served,
    } = head;
    let Words {
        summary,
        description,
    } = words;
    Situation {
        number,
        version,
        served,
        periods,
        refs,
        cause,
        effect,
        summary,
        description,
    }
}

// What an item is that is an object: a situation, and how many of its references aren't known.
fn read_situation(
    alloc: Global,
    tree: &Value<'_>,
    context: &Context<'_>,
) -> Result<(Situation, u64), ReadFault>
    ensures found { IfOk result (λ found.
        spec.situation context.now (view tree.now) ≡ Ok (found.0, found.1)) }
    ensures fault { IfErr result
        (IsFaultOf (spec.situation context.now (view tree.now))) }
{
    let content = read_content(alloc, tree, context.zone)?;
    let (references, effect) = read_touched(alloc, tree, context.table)?;
    let (refs, unknown) = affected(alloc, references.as_slice())?;
    Ok((situation_of(content, cause(tree), effect, refs), unknown))
}

/// What an item is: a situation, and how many of its references aren't known.
pub(crate) fn verdict(
    alloc: Global,
    tree: &Value<'_>,
    context: &Context<'_>,
) -> Result<(Situation, u64), ReadFault>
    ensures found { IfOk result (λ found.
        spec.verdict context.now (view tree.now) ≡ Ok (found.0, found.1)) }
    ensures fault { IfErr result
        (IsFaultOf (spec.verdict context.now (view tree.now))) }
{
    if !is_object(tree) {
        return Err(ReadFault::Aside(Fault::BadField(Member::PtSituationElement)));
    }
    read_situation(alloc, tree, context)
}
