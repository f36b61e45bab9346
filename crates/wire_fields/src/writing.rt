//! Numbers and fields after what stands in a buffer, in the spellings of `specs/Spelling.antt`.
ghost use Rattle.std.specs.Prelude.{◌≡◌, ◌++◌, ◌+◌, ◌-◌, ◌*◌, ◌<◌, ◌≤◌, length};
ghost use Rattle.wire_fields.specs.Spelling.{varint, varint_field, bytes_field};

use gw_base::Buf;

/// Writes a number's shortest spelling at the end. Takes no memory.
#[inline(always)]
pub fn put_varint(buf: &mut Buf, value: u64)
    requires room { length (varint value) ≤ buf.old.spare }
    ensures bytes { buf.new.bytes ≡ buf.old.bytes ++ varint value }
    ensures spare { buf.new.spare ≡ buf.old.spare - length (varint value) }
{
    if value < 128 {
        buf.put(value as u8);
        return;
    }
    put_long_varint(buf, value);
}

/// The same of a number of two bytes or more: those of two and of five, as a time has, at once.
#[inline(never)]
fn put_long_varint(buf: &mut Buf, value: u64)
    requires room { length (varint value) ≤ buf.old.spare }
    requires long { 128 ≤ value }
    ensures bytes { buf.new.bytes ≡ buf.old.bytes ++ varint value }
    ensures spare { buf.new.spare ≡ buf.old.spare - length (varint value) }
{
    if value < 16_384 {
        put_two(buf, value);
    } else if 268_435_456 <= value && value < 34_359_738_368 {
        put_five(buf, value);
    } else {
        put_each(buf, value);
    }
}

fn put_two(buf: &mut Buf, value: u64)
    requires room { length (varint value) ≤ buf.old.spare }
    requires least { 128 ≤ value }
    requires most { value < 16384 }
    ensures bytes { buf.new.bytes ≡ buf.old.bytes ++ varint value }
    ensures spare { buf.new.spare ≡ buf.old.spare - length (varint value) }
{
    buf.put_slice(&[(value % 128) as u8 + 128, (value / 128) as u8]);
}

fn put_five(buf: &mut Buf, value: u64)
    requires room { length (varint value) ≤ buf.old.spare }
    requires least { 268435456 ≤ value }
    requires most { value < 34359738368 }
    ensures bytes { buf.new.bytes ≡ buf.old.bytes ++ varint value }
    ensures spare { buf.new.spare ≡ buf.old.spare - length (varint value) }
{
    let second = value / 128;
    let third = second / 128;
    let fourth = third / 128;
    let fifth = fourth / 128;
    buf.put_slice(&[
        (value % 128) as u8 + 128,
        (second % 128) as u8 + 128,
        (third % 128) as u8 + 128,
        (fourth % 128) as u8 + 128,
        fifth as u8,
    ]);
}

/// The same, byte by byte.
fn put_each(buf: &mut Buf, value: u64)
    requires room { length (varint value) ≤ buf.old.spare }
    ensures bytes { buf.new.bytes ≡ buf.old.bytes ++ varint value }
    ensures spare { buf.new.spare ≡ buf.old.spare - length (varint value) }
{
    let mut rest = value;
    while rest >= 128 {
        buf.put((rest % 128) as u8 + 128);
        rest /= 128;
    }
    buf.put(rest as u8);
}

/// Writes two numbers, one after the other.
#[inline(always)]
fn put_both(buf: &mut Buf, first: u64, second: u64)
    requires room { length (varint first ++ varint second) ≤ buf.old.spare }
    ensures bytes { buf.new.bytes ≡ buf.old.bytes ++ (varint first ++ varint second) }
    ensures spare { buf.new.spare ≡ buf.old.spare - length (varint first ++ varint second) }
{
    if first < 128 && second < 128 {
        buf.put_slice(&[first as u8, second as u8]);
    } else {
        put_varint(buf, first);
        put_varint(buf, second);
    }
}

/// Writes a field of that number that holds a number (wire type 0) at the end. Takes no memory.
#[inline(always)]
pub fn put_field_varint(buf: &mut Buf, number: u32, value: u64)
    requires first { 1 ≤ number }
    requires last { number ≤ 536870911 }
    requires room { length (varint_field number value) ≤ buf.old.spare }
    ensures bytes { buf.new.bytes ≡ buf.old.bytes ++ varint_field number value }
    ensures spare { buf.new.spare ≡ buf.old.spare - length (varint_field number value) }
{
    put_both(buf, u64::from(number) * 8, value);
}

/// Writes what stands before the bytes of a field of that number that holds so many bytes (wire type 2). Takes no
/// memory.
#[inline(always)]
pub fn put_bytes_head(buf: &mut Buf, number: u32, len: u64)
    requires first { 1 ≤ number }
    requires last { number ≤ 536870911 }
    requires room { length (varint (number * 8 + 2) ++ varint len) ≤ buf.old.spare }
    ensures bytes { buf.new.bytes ≡ buf.old.bytes ++ (varint (number * 8 + 2) ++ varint len) }
    ensures spare { buf.new.spare ≡ buf.old.spare - length (varint (number * 8 + 2) ++ varint len) }
{
    put_both(buf, u64::from(number) * 8 + 2, len);
}

/// Writes a field of that number that holds bytes (wire type 2) at the end. Takes no memory.
#[inline(always)]
pub fn put_field_bytes(buf: &mut Buf, number: u32, bytes: &[u8])
    requires first { 1 ≤ number }
    requires last { number ≤ 536870911 }
    requires room { length (bytes_field number bytes.now) ≤ buf.old.spare }
    ensures bytes { buf.new.bytes ≡ buf.old.bytes ++ bytes_field number bytes.now }
    ensures spare { buf.new.spare ≡ buf.old.spare - length (bytes_field number bytes.now) }
{
    put_bytes_head(buf, number, bytes.len() as u64);
    buf.put_slice(bytes);
}
