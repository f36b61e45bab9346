//! One field more: what the last number and the last text of a field number are after it.
ghost use Rattle.std.specs.Prelude.{◌≡◌, ◌==◌, ◌%◌, ◌^◌, option_map, unwrap_or, not, false, Some, IfOk};
ghost use Rattle.std.specs.Int.{w32, w64, cast_signed};
ghost use Rattle.wire_fields.specs.Seen.{field_of};
ghost use Rattle.feed_reading.specs.Meaning.{IsUint64, IsText};
ghost use Rattle.feed_reading.specs.Partly.{Goes, seen};

use crate::plain::kinds::{body_in, number_in};
use crate::plain_fault::PlainFault;
use gw_base::Text;
use std::alloc::Global;
use wire_fields::Field;

// How many numbers a word of 32 bits has.
const WORD: u64 = 4_294_967_296;

// The last number.
#[inline(always)]
pub fn number_after(number: u32, field: &Field<'_>, last: Option<u64>) -> Option<u64>
    ensures { Goes (IsUint64 number) (field_of field.now) last result }
{
    match number_in(field, number) {
        Some(value) => Some(value),
        None => last,
    }
}

// The last text. Each has to be UTF-8.
#[inline(always)]
pub fn text_after<'a>(
    number: u32,
    field: &Field<'a>,
    last: Option<&'a str>,
) -> Result<Option<&'a str>, PlainFault>
    ensures { IfOk result (λ text. Goes (IsText number) (field_of field.now) (seen last.entry) (seen text)) }
{
    match body_in(field, number) {
        Some(body) => match std::str::from_utf8(body) {
            Ok(text) => Ok(Some(text)),
            Err(_) => Err(PlainFault::Meaningless),
        },
        None => Ok(last),
    }
}

// The number as its type has it.
pub fn as_uint32(value: Option<u64>) -> Option<u32>
    ensures { result ≡ option_map (λ n. n % 2 ^ 32) value }
{
    match value {
        Some(value) => Some((value % WORD) as u32),
        None => None,
    }
}

pub fn as_int32(value: Option<u64>) -> Option<i32>
    ensures { result ≡ option_map (λ n. cast_signed w32 (n % 2 ^ 32)) value }
{
    match as_uint32(value) {
        Some(value) => Some(value.cast_signed()),
        None => None,
    }
}

pub fn as_int64(value: Option<u64>) -> Option<i64>
    ensures { result ≡ option_map (cast_signed w64) value }
{
    match value {
        Some(value) => Some(value.cast_signed()),
        None => None,
    }
}

pub fn as_enum(value: Option<u64>, default: i32) -> i32
    ensures { result ≡ unwrap_or (option_map (λ n. cast_signed w32 (n % 2 ^ 32)) value) default }
{
    match as_int32(value) {
        Some(value) => value,
        None => default,
    }
}

pub fn as_bool(value: Option<u64>) -> bool
    ensures { result ≡ unwrap_or (option_map (λ n. not (n == 0)) value) false }
{
    match value {
        Some(value) => value != 0,
        None => false,
    }
}

// A text that has to be there.
pub fn required_text(alloc: Global, text: Option<&str>) -> Result<Text, PlainFault>
    ensures { IfOk result (λ copy. Some copy ≡ option_map (λ t. t.now) text.entry) }
{
    match text {
        Some(text) => Ok(Text::copied(alloc, text)?),
        None => Err(PlainFault::Meaningless),
    }
}
