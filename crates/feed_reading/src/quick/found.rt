//! The bodies of a message that is read from all its pieces together.
ghost use Rattle.std.specs.Prelude.{◌≡◌, ℕ, List, [], ◌∷◌, ◌++◌, IfOk, OnOk};
ghost use Rattle.wire_fields.specs.Seen.{field_of};
ghost use Rattle.feed_reading.specs.Partly.{Goes, IsFoundIn, IsFound, AreJoined};
ghost use Rattle.feed_reading.specs.declared.quick.found.Found.TheVariants.{Joined};

use crate::plain::kinds::body_in;
use crate::plain_fault::PlainFault;
use crate::whole::check_fields;
use gw_base::{Bytes, List};
use std::alloc::Global;
use wire_fields::Field;

// The bodies that were found so far: none; one, which stands where it was read; or several, which are put together.
#[derive(Drop)]
pub enum Found<'a> {
    Nothing,
    One(&'a [u8]),
    Joined(Bytes),
}

// Two bodies, of which each has to be a list of fields by itself.
#[cold]
#[inline(never)]
fn joined(alloc: Global, first: &[u8], second: &[u8]) -> Result<Bytes, PlainFault>
    ensures { IfOk result (AreJoined first.now second.now) }
{
    check_fields(first)?;
    check_fields(second)?;
    let mut bytes = List::new(alloc);
    bytes.extend(first)?;
    bytes.extend(second)?;
    Ok(bytes)
}

// One body and a second one. It stands between its caller and `joined`, which is rare, so that the room for the
// answer of `joined` is cleared only here.
#[inline(always)]
fn with_second<'a>(alloc: Global, first: &[u8], body: &[u8]) -> Result<Found<'a>, PlainFault>
    ensures { IfOk result
        (λ more. (bodies : List (List ℕ)) → bodies ≡ first.now ∷ [] → IsFoundIn (bodies ++ body.now ∷ []) more) }
{
    Ok(Found::Joined(joined(alloc, first, body)?))
}

// Bodies that are put together, and one more.
#[cold]
#[inline(never)]
fn extended(bytes: Bytes, body: &[u8]) -> Result<Bytes, PlainFault>
    ensures { IfOk result
        (λ more. (bodies : List (List ℕ)) → IsFoundIn bodies (Joined bytes)
        → IsFoundIn (bodies ++ body.now ∷ []) (Joined more)) }
{
    check_fields(body)?;
    let mut bytes = bytes;
    bytes.extend(body)?;
    Ok(bytes)
}

#[inline(always)]
fn with_another<'a>(bytes: Bytes, body: &[u8]) -> Result<Found<'a>, PlainFault>
    ensures { IfOk result
        (λ more. (bodies : List (List ℕ)) → IsFoundIn bodies (Joined bytes)
        → IsFoundIn (bodies ++ body.now ∷ []) more) }
{
    Ok(Found::Joined(extended(bytes, body)?))
}

// These bodies and one more.
#[inline(always)]
fn with_body<'a>(alloc: Global, found: Found<'a>, body: &'a [u8]) -> Result<Found<'a>, PlainFault>
    ensures { IfOk result
        (λ more. (bodies : List (List ℕ)) → IsFoundIn bodies found.entry → IsFoundIn (bodies ++ body.now ∷ []) more) }
{
    match found {
        Found::Nothing => Ok(Found::One(body)),
        Found::One(first) => with_second(alloc, first, body),
        Found::Joined(bytes) => with_another(bytes, body),
    }
}

// Adds the body of a field, if it has this number.
#[inline(always)]
pub fn add_body<'a>(
    alloc: Global,
    number: u32,
    field: &Field<'a>,
    found: &mut Found<'a>,
) -> Result<(), PlainFault>
    ensures { OnOk result (Goes (IsFound number) (field_of field.now) found.old found.new) }
{
    match body_in(field, number) {
        Some(body) => {
            let before = std::mem::replace(found, Found::Nothing);
            *found = with_body(alloc, before, body)?;
            Ok(())
        }
        None => Ok(()),
    }
}
