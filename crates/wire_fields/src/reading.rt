//! The fields of a message, one after the other, as `specs/Grammar.antt` and `specs/Breaks.antt` define them.
ghost use Rattle.std.specs.Prelude.{◌≡◌, ℕ, List, ◌≤◌, ◌↔◌, length, take, Ok, None, IfOk, IfErr, IfSome, IfNone, IsErr};
ghost use Rattle.wire_fields.specs.Grammar.{WireField, AreFields, BeginsField, BeginsNumber, IsNext, Continues};
ghost use Rattle.wire_fields.specs.Breaks.{IsBreak, IsBroken};
ghost use Rattle.wire_fields.specs.Reading.{EndsGroup, BreaksInGroup};
ghost use Rattle.wire_fields.specs.Seen.{field_of};
ghost use Rattle.gw_base.specs.declared.wire_kind.WireKind.{WireKind};

use crate::field::{Field, Value, WireFault};
use crate::groups::OpenGroups;
use crate::item::{Item, read_group_item, read_item, read_varint};
use gw_base::WireKind;

/// The bytes after the end of a group of this number, whose start stands before these bytes.
#[inline(always)]
fn skip_group(number: u32, bytes: &[u8]) -> Result<&[u8], WireKind>
    ensures found { IfOk result (λ rest. EndsGroup number bytes.now rest.now) }
    ensures fault { IfErr result (λ kind. BreaksInGroup number bytes.now kind) }
{
    skip_group_apart(number, bytes)
}

#[cold]
#[inline(never)]
fn skip_group_apart(number: u32, bytes: &[u8]) -> Result<&[u8], WireKind>
    ensures found { IfOk result (λ rest. EndsGroup number bytes.now rest.now) }
    ensures fault { IfErr result (λ kind. BreaksInGroup number bytes.now kind) }
{
    let mut open = OpenGroups::with_first(number);
    let mut rest = bytes;
    while !open.is_empty() {
        let (item, after) = read_group_item(rest)?;
        open.follow(item)?;
        rest = after;
    }
    Ok(rest)
}

/// The field at the front, and the bytes after it.
#[inline(always)]
fn first_field(bytes: &[u8]) -> Result<(Field<'_>, &[u8]), WireKind>
    ensures found { IfOk result (λ x. BeginsField bytes.now (field_of x.0) x.1.now) }
    ensures fault { IfErr result (λ kind. IsBreak bytes.now kind) }
{
    let (item, rest) = read_item(bytes)?;
    match item {
        Item::Ends(_) => Err(WireKind::BadGroup),
        Item::Holds(field) => match field.value {
            Value::Group => Ok((field, skip_group(field.number, rest)?)),
            _ => Ok((field, rest)),
        },
    }
}

/// The next field of a message, and the place after it: of bytes whose first `at` are a list of fields.
/// None at the end of the bytes. A fault names this place. Takes no memory.
#[inline(always)]
pub fn next_field<'a>(bytes: &'a [u8], at: usize) -> Result<Option<(Field<'a>, usize)>, WireFault>
    requires place { at ≤ length bytes.now }
    requires front { (fields : List WireField) × AreFields (take at bytes.now) fields }
    ensures end { (result ≡ Ok None) ↔ (at ≡ length bytes.now) }
    ensures field { IfOk result (λ found. IfSome found (λ x. IsNext bytes.now at x.1 (field_of x.0))) }
    ensures fields { IfOk result (λ found. IfSome found (λ x. Continues bytes.now at x.1 (field_of x.0))) }
    ensures broken { IfErr result (λ fault. (fault.at ≡ at) × IsBroken bytes.now at fault.kind) }
    ensures only_broken { (kind : WireKind) → IsBroken bytes.now at kind → IsErr result }
{
    if at == bytes.len() {
        return Ok(None);
    }
    match first_field(&bytes[at..]) {
        Ok((field, rest)) => Ok(Some((field, bytes.len() - rest.len()))),
        Err(kind) => Err(WireFault {
            at: at as u64,
            kind,
        }),
    }
}

/// The number with which the bytes begin, of any spelling, and the bytes after it (protobuf encoding, "Base 128
/// Varints"). None exactly where they begin with none. Takes no memory.
pub fn first_number(bytes: &[u8]) -> Option<(u64, &[u8])>
    ensures found { IfSome result (λ x. BeginsNumber bytes.now x.0 x.1.now) }
    ensures none { IfNone result ((value : ℕ) (rest : List ℕ) → ¬ BeginsNumber bytes.now value rest) }
{
    match read_varint(bytes) {
        Ok(found) => Some(found),
        Err(_) => None,
    }
}
