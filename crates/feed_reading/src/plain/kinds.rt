//! The kinds of fields: numbers and texts, each as `specs/Meaning.antt` defines it over the list of fields.
ghost use Rattle.std.specs.Prelude.{◌≡◌, ◌==◌, None, map, option_map, if◌then◌else◌, IfOk, MatchResult, IsUtf8};
ghost use Rattle.std.specs.List.{last_or, AllByRecursion};
ghost use Rattle.wire_fields.specs.Seen.{payload_of, field_of};
ghost use Rattle.feed_reading.specs.Meaning.{number_in, body_in, bodies, IsUint64, IsUint32, IsInt64, IsInt32, IsEnum, IsBool, IsText};
ghost use Rattle.feed_reading.specs.Plain.{Finds};

use crate::plain_fault::PlainFault;
use gw_base::{List, Text};
use std::alloc::{AllocError, Global};
use std::str::Utf8Error;
use wire_fields::{Field, Value};

// How many numbers a word of 32 bits has.
const WORD: u64 = 4_294_967_296;

// The number that a field holds, if the field has that field number.
#[inline(always)]
pub fn number_in(field: &Field<'_>, number: u32) -> Option<u64>
    ensures { result ≡ (if field.now.number == number then number_in (payload_of field.now.value) else None) }
{
    match field.value {
        Value::Varint(value) if field.number == number => Some(value),
        _ => None,
    }
}

// The bytes that a field holds, if the field has that field number.
#[inline(always)]
pub fn body_in<'a>(field: &Field<'a>, number: u32) -> Option<&'a [u8]>
    ensures { option_map (λ body. body.now) result
        ≡ (if field.now.number == number then body_in (payload_of field.now.value) else None) }
{
    match field.value {
        Value::Bytes(body) if field.number == number => Some(body),
        _ => None,
    }
}

// The last number of a field number, if there is one.
pub fn uint64(fields: &[Field<'_>], number: u32) -> Option<u64>
    ensures { IsUint64 number (map field_of fields.now) result }
{
    let mut last = None;
    for field in fields {
        last = number_in(field, number).or(last);
    }
    last
}

// The low 32 bits of the last number.
pub fn uint32(fields: &[Field<'_>], number: u32) -> Option<u32>
    ensures { IsUint32 number (map field_of fields.now) result }
{
    match uint64(fields, number) {
        Some(value) => Some((value % WORD) as u32),
        None => None,
    }
}

// The last number in two's complement.
pub fn int64(fields: &[Field<'_>], number: u32) -> Option<i64>
    ensures { IsInt64 number (map field_of fields.now) result }
{
    match uint64(fields, number) {
        Some(value) => Some(value.cast_signed()),
        None => None,
    }
}

// The low 32 bits of the last number in two's complement.
pub fn int32(fields: &[Field<'_>], number: u32) -> Option<i32>
    ensures { IsInt32 number (map field_of fields.now) result }
{
    match uint32(fields, number) {
        Some(value) => Some(value.cast_signed()),
        None => None,
    }
}

// The number of an enum, which is its default where there is none.
pub fn enumeration(fields: &[Field<'_>], number: u32, default: i32) -> i32
    ensures { IsEnum number default (map field_of fields.now) result }
{
    match int32(fields, number) {
        Some(value) => value,
        None => default,
    }
}

// Whether there is a last number that isn't 0.
pub fn boolean(fields: &[Field<'_>], number: u32) -> bool
    ensures { IsBool number (map field_of fields.now) result }
{
    match uint64(fields, number) {
        Some(value) => value != 0,
        None => false,
    }
}

// The bodies of a field number, in order.
pub fn bodies<'a>(
    alloc: Global,
    fields: &[Field<'a>],
    number: u32,
) -> Result<List<&'a [u8]>, AllocError>
    ensures { IfOk result (λ list. map (λ body. body.now) list ≡ bodies number (map field_of fields.now)) }
{
    let mut list = List::new(alloc);
    for field in fields {
        if let Some(body) = body_in(field, number) {
            list.push(body)?;
        }
    }
    Ok(list)
}

// The last of these bodies, if there is one, where all are UTF-8.
fn last_text<'a>(bodies: &[&'a [u8]]) -> Result<Option<&'a str>, Utf8Error>
    ensures { MatchResult result
        (λ last. AllByRecursion IsUtf8 (map (λ body. body.now) bodies.now)
        × (option_map (λ text. text.now) last ≡ last_or None (map (λ body. body.now) bodies.now)))
        (λ _. ¬ AllByRecursion IsUtf8 (map (λ body. body.now) bodies.now)) }
{
    let mut last = None;
    for body in bodies {
        last = Some(std::str::from_utf8(body)?);
    }
    Ok(last)
}

// A copy of a text that may be missing.
pub fn copied(alloc: Global, text: Option<&str>) -> Result<Option<Text>, AllocError>
    ensures { IfOk result (λ copy. copy ≡ option_map (λ found. found.now) text.entry) }
{
    match text {
        Some(text) => Ok(Some(Text::copied(alloc, text)?)),
        None => Ok(None),
    }
}

// The last text of a field number, if there is one. Each is UTF-8.
pub fn text(alloc: Global, fields: &[Field<'_>], number: u32) -> Result<Option<Text>, PlainFault>
    ensures { Finds (IsText number (map field_of fields.now)) result }
{
    let bodies = bodies(alloc, fields, number)?;
    let last = last_text(bodies.as_slice())?;
    Ok(copied(alloc, last)?)
}

// The last text of a field number, which has to be there.
pub fn required_text(alloc: Global, fields: &[Field<'_>], number: u32) -> Result<Text, PlainFault>
    ensures { Finds (λ text. IsText number (map field_of fields.now) (Some text)) result }
{
    text(alloc, fields, number)?.ok_or(PlainFault::Meaningless)
}
