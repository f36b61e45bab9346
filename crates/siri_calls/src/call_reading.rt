//! How calls are read (SIRI 2.0, RecordedCall and EstimatedCall). The functions meet
//! `specs/Calls.antt`.
ghost use Rattle.std.specs.Prelude.{◌≡◌, ◌++◌, map, Ok, Some, IfOk, IfErr, option_map};
ghost use Rattle.std.specs.Option.{ForSome};
ghost use Rattle.json_tree.specs.Trees.{view};
ghost use Rattle.gw_base.specs.Chains.{ok_map};
ghost use Rattle.gw_base.specs.Moments.{IsMoment};
ghost use Rattle.siri_calls.specs.Calls as spec;
ghost use Rattle.siri_calls.specs.Seen.{call_of, calls_of};
ghost use Rattle.siri_json.specs.Shown.{instant_of, trees_of, IsFaultOf};

use crate::calls::Call;
use gw_base::Member;
use journey_model::Fault;
use json::Value;
use service_day::{Instant, Zone};
use siri_json::ReadFault;
use siri_json::fields::{
    optional_flag, optional_moment, optional_object, optional_objects, optional_text,
    optional_whole, required_text,
};
use siri_json::forms::none;
use std::alloc::Global;

/// What a call says of whether the journey stops there.
#[derive(Clone, Copy)]
pub(crate) struct Statuses {
    /// Whether the journey doesn't stop there.
    pub skip: bool,
    /// Whether its arrival is cancelled.
    pub no_arrival: bool,
    /// Whether its departure is cancelled.
    pub no_departure: bool,
}

// Whether a status, where there is one, is `cancelled`, in any case of its letters.
fn status(tree: &Value<'_>, member: Member) -> Result<Option<bool>, Fault>
    ensures { result ≡ spec.status member (view tree.now) }
{
    match optional_text(tree, member) {
        Ok(Some(text)) => Ok(Some(says_cancelled(text))),
        Ok(None) => Ok(None),
        Err(fault) => Err(fault),
    }
}

// Whether a status is `cancelled`, in any case of its letters.
fn says_cancelled(status: &str) -> bool
    ensures { result ≡ spec.says_cancelled status.now }
{
    status.eq_ignore_ascii_case("cancelled")
}

// Whether a stop is skipped.
fn is_skip(cancellation: Option<bool>, arrival: Option<bool>, departure: Option<bool>) -> bool
    ensures { result ≡ spec.is_skip cancellation arrival departure }
{
    match (cancellation, arrival, departure) {
        (Some(true), _, _) => true,
        (_, Some(true), Some(true) | None) => true,
        (_, None, Some(true)) => true,
        _ => false,
    }
}

// What a call says of whether the journey stops there.
fn read_statuses(tree: &Value<'_>) -> Result<Statuses, Fault>
    ensures { result ≡ spec.statuses (view tree.now) }
{
    let cancellation = optional_flag(tree, Member::Cancellation)?;
    let arrival = status(tree, Member::ArrivalStatus)?;
    let departure = status(tree, Member::DepartureStatus)?;
    Ok(Statuses {
        skip: is_skip(cancellation, arrival, departure),
        no_arrival: arrival.unwrap_or(false),
        no_departure: departure.unwrap_or(false),
    })
}

// The time of an event, in whole seconds since 1970.
fn event_time(none: bool, actual: Option<Instant>, expected: Option<Instant>) -> Option<i64>
    ensures value { result
        ≡ spec.event_time none (option_map instant_of actual) (option_map instant_of expected) }
    ensures moment { ForSome result IsMoment }
{
    if none {
        return None;
    }
    match (actual, expected) {
        (Some(actual), _) => Some(actual.secs),
        (None, Some(expected)) => Some(expected.secs),
        (None, None) => None,
    }
}

// The time of an event by its two members, in whole seconds since 1970.
fn event(
    tree: &Value<'_>,
    zone: &Zone,
    none: bool,
    actual: Member,
    expected: Member,
) -> Result<Option<i64>, Fault>
    ensures value { result ≡ spec.event zone.now none actual expected (view tree.now) }
    ensures moment { IfOk result (λ time. ForSome time IsMoment) }
{
    let actual = optional_moment(tree, actual, zone)?;
    let expected = optional_moment(tree, expected, zone)?;
    Ok(event_time(none, actual, expected))
}

// A call that is no extra call.
fn read_call<'a>(tree: &'a Value<'_>, zone: &Zone) -> Result<Call<'a>, Fault>
    ensures { ok_map call_of result ≡ spec.call_read zone.now (view tree.now) }
{
    let stop = required_text(tree, Member::StopPointRef)?;
    let order = optional_whole(tree, Member::Order)?;
    let Statuses {
        skip,
        no_arrival,
        no_departure,
    } = read_statuses(tree)?;
    let arrival = event(
        tree,
        zone,
        no_arrival,
        Member::ActualArrivalTime,
        Member::ExpectedArrivalTime,
    )?;
    let departure = event(
        tree,
        zone,
        no_departure,
        Member::ActualDepartureTime,
        Member::ExpectedDepartureTime,
    )?;
    Ok(Call {
        stop,
        order,
        skip,
        arrival,
        departure,
    })
}

// A call; None where it is an extra call, of which the other members aren't read.
fn call_unless_extra<'a>(tree: &'a Value<'_>, zone: &Zone) -> Result<Option<Call<'a>>, Fault>
    ensures { ok_map (option_map call_of) result ≡ spec.call zone.now (view tree.now) }
{
    let extra = optional_flag(tree, Member::ExtraCall)?;
    if extra.unwrap_or(false) {
        return Ok(None);
    }
    let call = read_call(tree, zone)?;
    Ok(Some(call))
}

// The trees of the calls in an object.
fn trees_in<'t, 'a>(parent: &'t Value<'a>, member: Member) -> Result<&'t [Value<'a>], Fault>
    ensures { ok_map trees_of result ≡ spec.trees_in member (Some (view parent.now)) }
{
    match optional_objects(parent, member)? {
        Some(trees) => Ok(trees),
        None => {
            let trees: &'t [Value<'a>] = none();
            Ok(trees)
        }
    }
}

// The trees of the calls under one of the two members of a journey.
fn trees_under<'t, 'a>(
    tree: &'t Value<'a>,
    group: Member,
    member: Member,
) -> Result<&'t [Value<'a>], Fault>
    ensures { ok_map trees_of result ≡ spec.trees_under group member (view tree.now) }
{
    match optional_object(tree, group)? {
        Some(parent) => trees_in(parent, member),
        None => {
            let trees: &'t [Value<'a>] = none();
            Ok(trees)
        }
    }
}

// The calls of trees, after those that were found before.
fn add_calls<'a>(
    found: &mut Vec<Option<Call<'a>>>,
    trees: &'a [Value<'_>],
    zone: &Zone,
) -> Result<(), ReadFault>
    ensures found { IfOk result (λ _.
        ok_map (λ rest. calls_of found.old.items ++ rest) (spec.calls zone.now (map view trees.now))
        ≡ Ok (calls_of found.new.items)) }
    ensures fault { IfErr result (IsFaultOf (spec.calls zone.now (map view trees.now))) }
{
    for tree in trees {
        let call = call_unless_extra(tree, zone)?;
        found.push(call)?;
    }
    Ok(())
}

// The calls of two lists of trees.
fn calls_in<'a>(
    alloc: Global,
    recorded: &'a [Value<'_>],
    estimated: &'a [Value<'_>],
    zone: &Zone,
) -> Result<Vec<Option<Call<'a>>>, ReadFault>
    ensures found { IfOk result (λ found.
        spec.calls zone.now (map view recorded.now ++ map view estimated.now)
        ≡ Ok (calls_of found.items)) }
    ensures fault { IfErr result
        (IsFaultOf (spec.calls zone.now (map view recorded.now ++ map view estimated.now))) }
{
    let mut found = Vec::with_capacity(alloc, recorded.len().saturating_add(estimated.len()))?;
    if let Err(fault) = add_calls(&mut found, recorded, zone) {
        return Err(fault);
    }
    match add_calls(&mut found, estimated, zone) {
        Ok(()) => Ok(found),
        Err(fault) => Err(fault),
    }
}

/// The calls of a journey: the recorded ones, and then the estimated ones. None stands for an
/// extra call.
pub(crate) fn read_calls<'a>(
    alloc: Global,
    tree: &'a Value<'_>,
    zone: &Zone,
) -> Result<Vec<Option<Call<'a>>>, ReadFault>
    ensures found { IfOk result (λ found.
        spec.calls_under zone.now (view tree.now) ≡ Ok (calls_of found.items)) }
    ensures fault { IfErr result (IsFaultOf (spec.calls_under zone.now (view tree.now))) }
{
    let recorded = trees_under(tree, Member::RecordedCalls, Member::RecordedCall)?;
    let estimated = trees_under(tree, Member::EstimatedCalls, Member::EstimatedCall)?;
    calls_in(alloc, recorded, estimated, zone)
}
