//! The members of an item, each read in its form. The functions meet `specs/Fields.antt`.
ghost use Rattle.std.specs.Prelude.{◌≡◌};
ghost use Rattle.json_tree.specs.Trees.{view};
ghost use Rattle.siri_json.specs.Fields as spec;
ghost use Rattle.siri_json.specs.Forms as forms;
ghost use Rattle.siri_json.specs.Shown.{optional_moment, optional_text, optional_tree, optional_trees, required_text, required_tree};

use crate::forms::{Form, day, flag, moment, object_form, objects, text, whole};
use gw_base::Member;
use journey_model::Fault;
use json::Value;
use json_tree::find;
use service_day::{Day, Instant, Zone};

// What a form is where the member may be missing.
fn optional<T>(member: Member, form: Form<T>) -> Result<Option<T>, Fault>
    ensures { result ≡ spec.optional member form }
{
    match form {
        Form::Missing => Ok(None),
        Form::Wrong => Err(Fault::BadField(member)),
        Form::Found(value) => Ok(Some(value)),
    }
}

// What a form is where the member is required.
fn required<T>(member: Member, form: Form<T>) -> Result<T, Fault>
    ensures { result ≡ spec.required member form }
{
    match form {
        Form::Found(value) => Ok(value),
        Form::Missing | Form::Wrong => Err(Fault::BadField(member)),
    }
}

/// A Flag that may be missing.
pub fn optional_flag(tree: &Value<'_>, member: Member) -> Result<Option<bool>, Fault>
    ensures { result ≡ spec.optional_member forms.flag member (view tree.now) }
{
    match find(tree, member.name()) {
        Some(found) => optional(member, flag(found)),
        None => Ok(None),
    }
}

/// A Whole that may be missing.
pub fn optional_whole(tree: &Value<'_>, member: Member) -> Result<Option<u64>, Fault>
    ensures { result ≡ spec.optional_member forms.whole member (view tree.now) }
{
    match find(tree, member.name()) {
        Some(found) => optional(member, whole(found)),
        None => Ok(None),
    }
}

/// A Text that may be missing.
pub fn optional_text<'t>(tree: &'t Value<'_>, member: Member) -> Result<Option<&'t str>, Fault>
    ensures { optional_text result ≡ spec.optional_member forms.text member (view tree.now) }
{
    match find(tree, member.name()) {
        Some(found) => optional(member, text(found)),
        None => Ok(None),
    }
}

/// A moment that may be missing.
pub fn optional_moment(
    tree: &Value<'_>,
    member: Member,
    zone: &Zone,
) -> Result<Option<Instant>, Fault>
    ensures { optional_moment result
        ≡ spec.optional_member (forms.moment zone.now) member (view tree.now) }
{
    match find(tree, member.name()) {
        Some(found) => optional(member, moment(found, zone)),
        None => Ok(None),
    }
}

/// An object that may be missing.
pub fn optional_object<'t, 'a>(
    tree: &'t Value<'a>,
    member: Member,
) -> Result<Option<&'t Value<'a>>, Fault>
    ensures { optional_tree result ≡ spec.optional_member forms.object_form member (view tree.now) }
{
    match find(tree, member.name()) {
        Some(found) => optional(member, object_form(found)),
        None => Ok(None),
    }
}

/// A Text that has to be there.
pub fn required_text<'t>(tree: &'t Value<'_>, member: Member) -> Result<&'t str, Fault>
    ensures { required_text result ≡ spec.required_member forms.text member (view tree.now) }
{
    match find(tree, member.name()) {
        Some(found) => required(member, text(found)),
        None => Err(Fault::BadField(member)),
    }
}

/// A day that has to be there.
pub fn required_day(tree: &Value<'_>, member: Member) -> Result<Day, Fault>
    ensures { result ≡ spec.required_member forms.day member (view tree.now) }
{
    match find(tree, member.name()) {
        Some(found) => required(member, day(found)),
        None => Err(Fault::BadField(member)),
    }
}

/// An object that has to be there.
pub fn required_object<'t, 'a>(tree: &'t Value<'a>, member: Member) -> Result<&'t Value<'a>, Fault>
    ensures { required_tree result ≡ spec.required_member forms.object_form member (view tree.now) }
{
    match find(tree, member.name()) {
        Some(found) => required(member, object_form(found)),
        None => Err(Fault::BadField(member)),
    }
}

/// A repeated element that may be missing, whose items are objects.
pub fn optional_objects<'t, 'a>(
    tree: &'t Value<'a>,
    member: Member,
) -> Result<Option<&'t [Value<'a>]>, Fault>
    ensures { optional_trees result ≡ spec.optional_member forms.objects member (view tree.now) }
{
    match find(tree, member.name()) {
        Some(found) => optional(member, objects(found)),
        None => Ok(None),
    }
}
