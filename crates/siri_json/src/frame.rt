//! The way down from the root of a delivery. The functions meet `specs/Frame.antt`.
ghost use Rattle.std.specs.Prelude.{◌≡◌, map};
ghost use Rattle.json_tree.specs.Trees.{view};
ghost use Rattle.gw_base.specs.Chains.{ok_map};
ghost use Rattle.siri_json.specs.Fields.{member_form};
ghost use Rattle.siri_json.specs.Forms.{object_form};
ghost use Rattle.siri_json.specs.Frame as spec;
ghost use Rattle.siri_json.specs.Shown.{tree_form, trees_of};

use crate::forms::{Form, is_object, none, object_form, objects, repeated};
use gw_base::Member;
use json::Value;
use json_tree::find;

/// The form of an object under a name.
pub fn object_at<'t, 'a>(tree: &'t Value<'a>, member: Member) -> Form<&'t Value<'a>>
    ensures { tree_form result ≡ member_form object_form member (view tree.now) }
{
    match find(tree, member.name()) {
        Some(found) => object_form(found),
        None => Form::Missing,
    }
}

// The object that is read: the root, or what stands in it as Siri.
fn siri<'t, 'a>(root: &'t Value<'a>) -> Result<&'t Value<'a>, Member>
    ensures { ok_map (λ tree. view tree.now) result ≡ spec.siri (view root.now) }
{
    if !is_object(root) {
        return Err(Member::Siri);
    }
    match object_at(root, Member::Siri) {
        Form::Missing => Ok(root),
        Form::Wrong => Err(Member::Siri),
        Form::Found(siri) => Ok(siri),
    }
}

/// The service delivery of a root (SIRI 2.0, Siri and ServiceDelivery), or the member that is wrong.
pub fn service_in<'t, 'a>(root: &'t Value<'a>) -> Result<&'t Value<'a>, Member>
    ensures { ok_map (λ tree. view tree.now) result ≡ spec.service_in (view root.now) }
{
    let body = siri(root)?;
    match object_at(body, Member::ServiceDelivery) {
        Form::Missing | Form::Wrong => Err(Member::ServiceDelivery),
        Form::Found(service) => Ok(service),
    }
}

/// The deliveries under a name in a service delivery, which have to be there.
pub fn deliveries_in<'t, 'a>(
    service: &'t Value<'a>,
    member: Member,
) -> Result<&'t [Value<'a>], Member>
    ensures { ok_map trees_of result ≡ spec.deliveries_in member (view service.now) }
{
    let Some(found) = find(service, member.name()) else {
        return Err(member);
    };
    match found {
        Value::Array(_) | Value::Object(_) => match objects(found) {
            Form::Missing | Form::Wrong => Err(member),
            Form::Found(trees) => Ok(trees),
        },
        Value::Null | Value::Bool(_) | Value::Number(_) | Value::String(_) => Err(member),
    }
}

/// The items of an element that may be missing.
pub fn repeated_under<'t, 'a>(tree: &'t Value<'a>, member: Member) -> &'t [Value<'a>]
    ensures { map view result.now ≡ spec.repeated_under member (view tree.now) }
{
    match find(tree, member.name()) {
        Some(found) => repeated(found),
        None => none(),
    }
}
