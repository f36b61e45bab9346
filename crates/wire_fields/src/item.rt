//! One item at the front of bytes: a tag with its payload. Reading one is `item_at` of `specs/Reading.antt`.
ghost use Rattle.std.specs.Prelude.{◌≡◌, ◌≢◌};
ghost use Rattle.std.specs.Int.{w32, w64};
ghost use Rattle.wire_fields.specs.Reading.{Gives, varint_at, bytes_at, fixed_at, payload_at, item_at};
ghost use Rattle.wire_fields.specs.Seen.{item_of};

use crate::field::{Field, Value};
use gw_base::WireKind;

/// A tag with its payload.
#[derive(Clone, Copy, Debug)]
pub enum Item<'a> {
    /// A field; of a group its start alone.
    Holds(Field<'a>),
    /// The end of a group of this number.
    Ends(u32),
}

impl<'a> Item<'a> {
    /// The item of a field.
    #[inline(always)]
    fn holding(number: u32, value: Value<'a>) -> Item<'a>
        ensures { result ≡ Item.Holds (record { number = number; value = value.entry }) }
    {
        Item::Holds(Field { number, value })
    }
}

/// The number at the front, of any spelling, with the bytes after it (protobuf encoding, "Base 128 Varints").
#[tactic(auto, unfolding(crate::specs::Reading::varint_at, crate::specs::Reading::chain_at))]
#[inline(always)]
pub fn read_varint(bytes: &[u8]) -> Result<(u64, &[u8]), WireKind>
    ensures { Gives (λ x. (x.0, x.1.now)) result (varint_at bytes.now) }
{
    match bytes {
        [byte, rest @ ..] if *byte < 128 => Ok((u64::from(*byte), rest)),
        _ => read_rare_varint(bytes),
    }
}

/// The same where longer spellings are as common.
#[tactic(auto, unfolding(crate::specs::Reading::varint_at, crate::specs::Reading::chain_at))]
#[inline(always)]
fn read_number(bytes: &[u8]) -> Result<(u64, &[u8]), WireKind>
    ensures { Gives (λ x. (x.0, x.1.now)) result (varint_at bytes.now) }
{
    match bytes {
        [byte, rest @ ..] if *byte < 128 => Ok((u64::from(*byte), rest)),
        _ => read_long_varint(bytes),
    }
}

/// The same where longer spellings are rare. A function that calls what stands apart clears the room of the answer when
/// it starts, so this one stands between.
#[inline(always)]
fn read_rare_varint(bytes: &[u8]) -> Result<(u64, &[u8]), WireKind>
    ensures { Gives (λ x. (x.0, x.1.now)) result (varint_at bytes.now) }
{
    read_varint_apart(bytes)
}

#[cold]
#[inline(never)]
fn read_varint_apart(bytes: &[u8]) -> Result<(u64, &[u8]), WireKind>
    ensures { Gives (λ x. (x.0, x.1.now)) result (varint_at bytes.now) }
{
    read_long_varint(bytes)
}

/// The same, byte by byte, of which there are ten at most.
#[inline(always)]
fn read_long_varint(bytes: &[u8]) -> Result<(u64, &[u8]), WireKind>
    ensures { Gives (λ x. (x.0, x.1.now)) result (varint_at bytes.now) }
{
    let mut value = 0;
    for i in 0..10 {
        if i == bytes.len() {
            return Err(WireKind::Truncated);
        }
        let byte = bytes[i];
        value |= u64::from(byte % 128) << (7 * i);
        if byte < 128 {
            return Ok((value, &bytes[i + 1..]));
        }
    }
    Err(WireKind::LongVarint)
}

/// So many bytes from the front, and the bytes after them.
#[tactic(auto, unfolding(crate::specs::Reading::bytes_at))]
#[inline(always)]
fn read_bytes(size: u64, bytes: &[u8]) -> Result<(&[u8], &[u8]), WireKind>
    ensures { Gives (λ x. (x.0.now, x.1.now)) result (bytes_at size bytes.now) }
{
    let size = size as usize;
    if bytes.len() < size {
        return Err(WireKind::Truncated);
    }
    Ok(bytes.split_at(size))
}

/// The number of eight bytes, the least first, and the bytes after them.
#[tactic(auto, unfolding(crate::specs::Reading::fixed_at))]
fn read_fixed64(bytes: &[u8]) -> Result<(u64, &[u8]), WireKind>
    ensures { Gives (λ x. (x.0, x.1.now)) result (fixed_at w64 bytes.now) }
{
    if bytes.len() < 8 {
        return Err(WireKind::Truncated);
    }
    let (front, rest) = bytes.split_at(8);
    let number = u64::from_le_bytes([
        front[0], front[1], front[2], front[3], front[4], front[5], front[6], front[7],
    ]);
    Ok((number, rest))
}

/// The number of four bytes, the least first, and the bytes after them.
#[tactic(auto, unfolding(crate::specs::Reading::fixed_at))]
fn read_fixed32(bytes: &[u8]) -> Result<(u32, &[u8]), WireKind>
    ensures { Gives (λ x. (x.0, x.1.now)) result (fixed_at w32 bytes.now) }
{
    if bytes.len() < 4 {
        return Err(WireKind::Truncated);
    }
    let (front, rest) = bytes.split_at(4);
    let number = u32::from_le_bytes([front[0], front[1], front[2], front[3]]);
    Ok((number, rest))
}

/// The payload of an item of this number and wire type, and the bytes after it.
#[tactic(auto, unfolding(crate::specs::Reading::payload_at))]
#[inline(always)]
fn read_payload(number: u32, wire_type: u64, bytes: &[u8]) -> Result<(Item<'_>, &[u8]), WireKind>
    ensures { Gives (λ x. (item_of x.0, x.1.now)) result (payload_at number wire_type bytes.now) }
{
    match wire_type {
        0 => {
            let (value, rest) = read_number(bytes)?;
            Ok((Item::holding(number, Value::Varint(value)), rest))
        }
        2 => {
            let (size, rest) = read_varint(bytes)?;
            let (body, rest) = read_bytes(size, rest)?;
            Ok((Item::holding(number, Value::Bytes(body)), rest))
        }
        _ => read_rare_payload(number, wire_type, bytes),
    }
}

/// The same at a wire type that is rare.
#[inline(always)]
fn read_rare_payload(
    number: u32,
    wire_type: u64,
    bytes: &[u8],
) -> Result<(Item<'_>, &[u8]), WireKind>
    requires no_number { wire_type ≢ 0 }
    requires no_bytes { wire_type ≢ 2 }
    ensures { Gives (λ x. (item_of x.0, x.1.now)) result (payload_at number wire_type bytes.now) }
{
    read_payload_apart(number, wire_type, bytes)
}

#[cold]
#[inline(never)]
fn read_payload_apart(
    number: u32,
    wire_type: u64,
    bytes: &[u8],
) -> Result<(Item<'_>, &[u8]), WireKind>
    requires no_number { wire_type ≢ 0 }
    requires no_bytes { wire_type ≢ 2 }
    ensures { Gives (λ x. (item_of x.0, x.1.now)) result (payload_at number wire_type bytes.now) }
{
    read_other_payload(number, wire_type, bytes)
}

#[tactic(auto, unfolding(crate::specs::Reading::payload_at))]
#[inline(always)]
fn read_other_payload(
    number: u32,
    wire_type: u64,
    bytes: &[u8],
) -> Result<(Item<'_>, &[u8]), WireKind>
    requires no_number { wire_type ≢ 0 }
    requires no_bytes { wire_type ≢ 2 }
    ensures { Gives (λ x. (item_of x.0, x.1.now)) result (payload_at number wire_type bytes.now) }
{
    match wire_type {
        1 => {
            let (value, rest) = read_fixed64(bytes)?;
            Ok((Item::holding(number, Value::Fixed64(value)), rest))
        }
        3 => Ok((Item::holding(number, Value::Group), bytes)),
        4 => Ok((Item::Ends(number), bytes)),
        5 => {
            let (value, rest) = read_fixed32(bytes)?;
            Ok((Item::holding(number, Value::Fixed32(value)), rest))
        }
        _ => Err(WireKind::BadTag),
    }
}

/// The item at the front, and the bytes after it.
#[tactic(auto, unfolding(crate::specs::Reading::item_at))]
#[inline(always)]
pub fn read_item(bytes: &[u8]) -> Result<(Item<'_>, &[u8]), WireKind>
    ensures { Gives (λ x. (item_of x.0, x.1.now)) result (item_at bytes.now) }
{
    let (tag, rest) = read_varint(bytes)?;
    if tag >= 1 << 32 || tag < 8 {
        return Err(WireKind::BadTag);
    }
    read_payload((tag / 8) as u32, tag % 8, rest)
}

/// The same where no wire type is rare, as in a group.
#[tactic(auto, unfolding(crate::specs::Reading::item_at))]
#[inline(always)]
pub fn read_group_item(bytes: &[u8]) -> Result<(Item<'_>, &[u8]), WireKind>
    ensures { Gives (λ x. (item_of x.0, x.1.now)) result (item_at bytes.now) }
{
    let (tag, rest) = read_varint(bytes)?;
    if tag >= 1 << 32 || tag < 8 {
        return Err(WireKind::BadTag);
    }
    let number = (tag / 8) as u32;
    match tag % 8 {
        0 => read_payload(number, 0, rest),
        2 => read_payload(number, 2, rest),
        wire_type => read_other_payload(number, wire_type, rest),
    }
}
