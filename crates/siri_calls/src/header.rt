//! What a journey says before its calls (SIRI 2.0, EstimatedVehicleJourney). The functions meet
//! `specs/Verdicts.antt`.
ghost use Rattle.std.specs.Prelude.{◌≡◌, ◌∷◌, [], codes};
ghost use Rattle.serde_json.specs.Find.{get};
ghost use Rattle.json_tree.specs.Trees.{view};
ghost use Rattle.gw_base.specs.Chains.{ok_map};
ghost use Rattle.siri_json.specs.Fields.{form_at};
ghost use Rattle.siri_json.specs.Forms as forms;
ghost use Rattle.siri_calls.specs.Seen.{header_of};
ghost use Rattle.siri_calls.specs.Shown.{place_of, tree_at};
ghost use Rattle.siri_json.specs.Shown.{instant_of, moment_form};
ghost use Rattle.siri_calls.specs.Verdicts as spec;

use crate::frame::Place;
use gw_base::Member;
use journey_model::Fault;
use json::Value;
use json_tree::find;
use service_day::{Day, Instant, Zone};
use siri_json::fields::{optional_flag, required_day, required_object, required_text};
use siri_json::forms::{Form, moment};

/// What a journey says before its calls.
#[derive(Clone, Copy)]
pub(crate) struct Header<'a> {
    /// When it was recorded.
    pub at: Instant,
    /// The service day.
    pub day: Day,
    /// The id of its trip.
    pub trip_id: &'a str,
    /// Whether it is cancelled.
    pub cancelled: bool,
    /// Whether it is an extra journey.
    pub extra: bool,
}

// The moment of a member that may say when an item was recorded.
fn moment_at(found: Option<&Value<'_>>, zone: &Zone) -> Form<Instant>
    ensures { moment_form result ≡ form_at (forms.moment zone.now) (tree_at found.entry) }
{
    match found {
        Some(tree) => moment(tree, zone),
        None => Form::Missing,
    }
}

// When an item was recorded by the objects above its frame.
fn moment_above(place: &Place<'_, '_>, zone: &Zone) -> Form<Instant>
    ensures { moment_form result ≡ spec.first_moment zone.now
        (tree_at place.now.delivery ∷ tree_at place.now.service ∷ []) }
{
    match moment_at(place.delivery, zone) {
        Form::Missing => moment_at(place.service, zone),
        Form::Wrong => Form::Wrong,
        Form::Found(instant) => Form::Found(instant),
    }
}

// When an item was recorded.
fn first_moment(place: &Place<'_, '_>, zone: &Zone) -> Form<Instant>
    ensures { moment_form result ≡ spec.first_moment zone.now
        (get (codes "RecordedAtTime") (place_of place.now).tree ∷ (place_of place.now).further) }
{
    match moment_at(find(place.tree, "RecordedAtTime"), zone) {
        Form::Missing => match moment_at(place.frame, zone) {
            Form::Missing => moment_above(place, zone),
            Form::Wrong => Form::Wrong,
            Form::Found(instant) => Form::Found(instant),
        },
        Form::Wrong => Form::Wrong,
        Form::Found(instant) => Form::Found(instant),
    }
}

// When an item was recorded, which has to be known.
fn recorded_at(place: &Place<'_, '_>, zone: &Zone) -> Result<Instant, Fault>
    ensures { ok_map instant_of result ≡ spec.recorded_at zone.now (place_of place.now) }
{
    match first_moment(place, zone) {
        Form::Missing | Form::Wrong => Err(Fault::BadField(Member::RecordedAtTime)),
        Form::Found(instant) => Ok(instant),
    }
}

// Whether the journey is cancelled, and whether it is an extra one.
fn relation(tree: &Value<'_>) -> Result<(bool, bool), Fault>
    ensures { result ≡ spec.relation (view tree.now) }
{
    let cancelled = optional_flag(tree, Member::Cancellation)?;
    let extra = optional_flag(tree, Member::ExtraJourney)?;
    Ok((cancelled.unwrap_or(false), extra.unwrap_or(false)))
}

/// What an item says before its calls, or its first fault.
pub(crate) fn read_header<'t>(place: &Place<'t, '_>, zone: &Zone) -> Result<Header<'t>, Fault>
    ensures { ok_map header_of result ≡ spec.header zone.now (place_of place.now) }
{
    let at = recorded_at(place, zone)?;
    let reference = required_object(place.tree, Member::FramedVehicleJourneyRef)?;
    let day = required_day(reference, Member::DataFrameRef)?;
    let trip_id = required_text(reference, Member::DatedVehicleJourneyRef)?;
    let (cancelled, extra) = relation(place.tree)?;
    Ok(Header {
        at,
        day,
        trip_id,
        cancelled,
        extra,
    })
}
