//! Fields of numbers and texts: how long they are, and how they are written. A missing one is nothing.
ghost use Rattle.std.specs.Prelude.{◌≡◌, ◌+◌, ◌<◌, ◌≤◌, ◌^◌, ℕ, List, ◌++◌, length, IfSome, IsUtf8, FitsSigned};
ghost use Rattle.std.specs.Int.{w32, w64};
ghost use Rattle.wire_fields.specs.Spelling.{varint_field, bytes_field};
ghost use Rattle.feed_writing.specs.Written.{if_there, signed_field, relation_field, deleted_field};
ghost use Rattle.feed_writing.specs.Sizes.{Counts, Appends};

use gw_base::{Buf, Text};
use wire_fields::{put_field_bytes, put_field_varint, varint_len};

// How long two parts are, one after the other.
#[inline(always)]
pub fn plus(front: u64, back: u64) -> u64
    ensures { (a b : List ℕ) → Counts front a → Counts back b → Counts result (a ++ b) }
{
    front.saturating_add(back)
}

// How long a field of a number is.
#[inline(always)]
pub fn number_size(number: u32, value: u64) -> u64
    ensures { Counts result (varint_field number value) }
{
    (varint_len(u64::from(number) * 8) + varint_len(value)) as u64
}

#[inline(always)]
pub fn optional_number_size(number: u32, value: Option<u64>) -> u64
    ensures { Counts result (if_there (varint_field number) value) }
{
    match value {
        Some(value) => number_size(number, value),
        None => 0,
    }
}

// How long a field of a signed number is.
#[inline(always)]
pub fn signed_size(number: u32, value: i64) -> u64
    ensures { Counts result (signed_field number value) }
{
    number_size(number, value.cast_unsigned())
}

// How long the number of an enum is.
#[inline(always)]
pub fn enum_size(number: u32, value: &i32) -> u64
    ensures { Counts result (signed_field number value.now) }
{
    signed_size(number, i64::from(*value))
}

#[inline(always)]
pub fn optional_signed_size(number: u32, value: Option<i64>) -> u64
    ensures { Counts result (if_there (signed_field number) value) }
{
    match value {
        Some(value) => signed_size(number, value),
        None => 0,
    }
}

// How long the relation of a stop is, which isn't written where it is 0.
#[inline(always)]
pub fn relation_size(relation: &i32) -> u64
    ensures { Counts result (relation_field relation.now) }
{
    if *relation == 0 {
        return 0;
    }
    enum_size(5, relation)
}

// How long a mark of deletion is, which isn't written where it is false.
#[inline(always)]
pub fn deleted_size(deleted: bool) -> u64
    ensures { Counts result (deleted_field deleted) }
{
    if deleted { number_size(2, 1) } else { 0 }
}

// How long a field of bytes is, of which the length is given.
#[inline(always)]
pub fn bytes_size(number: u32, len: u64) -> u64
    ensures { (body : List ℕ) → Counts len body → Counts result (bytes_field number body) }
{
    let front = (varint_len(u64::from(number) * 8 + 2) + varint_len(len)) as u64;
    front.saturating_add(len)
}

// How long a field of a text is.
#[inline(always)]
pub fn text_size(number: u32, text: &Text) -> u64
    ensures { Counts result (bytes_field number text.now) }
{
    bytes_size(number, text.as_str().len() as u64)
}

#[inline(always)]
pub fn optional_text_size(number: u32, text: &Option<Text>) -> u64
    ensures { Counts result (if_there (bytes_field number) text.now) }
{
    match text {
        Some(text) => text_size(number, text),
        None => 0,
    }
}

// The same number in 64 bits.
#[inline(always)]
pub fn wide(value: Option<i32>) -> Option<i64>
    ensures same { result ≡ value }
    ensures sound { IfSome value (FitsSigned w32) }
{
    match value {
        Some(value) => Some(i64::from(value)),
        None => None,
    }
}

#[inline(always)]
pub fn wide_unsigned(value: Option<u32>) -> Option<u64>
    ensures same { result ≡ value }
    ensures sound { IfSome value (λ n. n < 2 ^ 32) }
{
    match value {
        Some(value) => Some(u64::from(value)),
        None => None,
    }
}

// Writes a field of a number.
#[inline(always)]
pub fn put_number(buf: &mut Buf, number: u32, value: u64)
    requires first { 1 ≤ number }
    requires last { number ≤ 536870911 }
    requires room { length (varint_field number value) ≤ buf.old.spare }
    ensures { Appends buf.old buf.new (varint_field number value) }
{
    put_field_varint(buf, number, value);
}

#[inline(always)]
pub fn put_optional_number(buf: &mut Buf, number: u32, value: Option<u64>)
    requires first { 1 ≤ number }
    requires last { number ≤ 536870911 }
    requires room { length (if_there (varint_field number) value) ≤ buf.old.spare }
    ensures appends { Appends buf.old buf.new (if_there (varint_field number) value) }
    ensures sound { IfSome value (λ n. n < 2 ^ 64) }
{
    if let Some(value) = value {
        put_number(buf, number, value);
    }
}

// Writes a field of a signed number.
#[inline(always)]
pub fn put_signed(buf: &mut Buf, number: u32, value: i64)
    requires first { 1 ≤ number }
    requires last { number ≤ 536870911 }
    requires room { length (signed_field number value) ≤ buf.old.spare }
    ensures { Appends buf.old buf.new (signed_field number value) }
{
    put_number(buf, number, value.cast_unsigned());
}

#[inline(always)]
pub fn put_optional_signed(buf: &mut Buf, number: u32, value: Option<i64>)
    requires first { 1 ≤ number }
    requires last { number ≤ 536870911 }
    requires room { length (if_there (signed_field number) value) ≤ buf.old.spare }
    ensures appends { Appends buf.old buf.new (if_there (signed_field number) value) }
    ensures sound { IfSome value (FitsSigned w64) }
{
    if let Some(value) = value {
        put_signed(buf, number, value);
    }
}

// Writes the number of an enum.
#[inline(always)]
pub fn put_enum(buf: &mut Buf, number: u32, value: &i32)
    requires first { 1 ≤ number }
    requires last { number ≤ 536870911 }
    requires room { length (signed_field number value.now) ≤ buf.old.spare }
    ensures appends { Appends buf.old buf.new (signed_field number value.now) }
    ensures sound { FitsSigned w32 value.now }
{
    put_signed(buf, number, i64::from(*value));
}

// Writes the relation of a stop.
#[inline(always)]
pub fn put_relation(buf: &mut Buf, relation: &i32)
    requires { length (relation_field relation.now) ≤ buf.old.spare }
    ensures appends { Appends buf.old buf.new (relation_field relation.now) }
    ensures sound { FitsSigned w32 relation.now }
{
    if *relation != 0 {
        put_enum(buf, 5, relation);
    }
}

// Writes a mark of deletion.
#[inline(always)]
pub fn put_deleted(buf: &mut Buf, deleted: bool)
    requires { length (deleted_field deleted) ≤ buf.old.spare }
    ensures { Appends buf.old buf.new (deleted_field deleted) }
{
    if deleted {
        put_number(buf, 2, 1);
    }
}

// Writes a field of a text.
#[inline(always)]
pub fn put_text(buf: &mut Buf, number: u32, text: &Text)
    requires first { 1 ≤ number }
    requires last { number ≤ 536870911 }
    requires room { length (bytes_field number text.now) ≤ buf.old.spare }
    ensures appends { Appends buf.old buf.new (bytes_field number text.now) }
    ensures sound { IsUtf8 text.now }
{
    put_field_bytes(buf, number, text.as_str().as_bytes());
}

#[inline(always)]
pub fn put_optional_text(buf: &mut Buf, number: u32, text: &Option<Text>)
    requires first { 1 ≤ number }
    requires last { number ≤ 536870911 }
    requires room { length (if_there (bytes_field number) text.now) ≤ buf.old.spare }
    ensures appends { Appends buf.old buf.new (if_there (bytes_field number) text.now) }
    ensures sound { IfSome text.now IsUtf8 }
{
    if let Some(text) = text {
        put_text(buf, number, text);
    }
}
