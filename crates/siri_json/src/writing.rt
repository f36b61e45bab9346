//! Strings, moments and numbers of JSON, written after what leads to them. The functions meet
//! `specs/WrittenTexts.antt`.
ghost use Rattle.std.specs.Prelude.{◌≡◌, ◌++◌, ◌∷◌, [], ◌<◌, IsTrue, OnOk};
ghost use Rattle.std.specs.Char.{digit_char};
ghost use Rattle.json.specs.Print.{escape, escape_byte, escape_letter, quoted};
ghost use Rattle.serde_json.specs.Written.{comma_if};
ghost use Rattle.gw_base.specs.Moments.{IsMoment};
ghost use Rattle.siri_json.specs.WrittenTexts.{led, led_moment, led_number};

use gw_base::Bytes;
use itoa::Buffer;
use service_day::write_moment;
use std::alloc::AllocError;

// The letter of a byte's short escape, or 0 where it has none.
fn short_escape(byte: u8) -> u8
    ensures { result ≡ escape_letter byte }
{
    match byte {
        b'"' | b'\\' => byte,
        8 => b'b',
        12 => b'f',
        b'\n' => b'n',
        b'\r' => b'r',
        b'\t' => b't',
        _ => 0,
    }
}

// A digit of base 16, in lower case.
fn hex_digit(digit: u8) -> u8
    requires { digit < 16 }
    ensures { result ≡ digit_char digit }
{
    if digit < 10 {
        b'0' + digit
    } else {
        b'a' - 10 + digit
    }
}

// Adds what stands in a string for a byte.
#[tactic(auto, unfolding(json::specs::Print::escape_byte))]
fn put_byte(out: &mut Bytes, byte: u8) -> Result<(), AllocError>
    ensures { OnOk result (out.new ≡ out.old ++ escape_byte byte) }
{
    let letter = short_escape(byte);
    if letter > 0 {
        return out.extend(&[b'\\', letter]);
    }
    if byte < 0x20 {
        return out.extend(&[
            b'\\',
            b'u',
            b'0',
            b'0',
            hex_digit(byte / 16),
            hex_digit(byte % 16),
        ]);
    }
    out.push(byte)
}

// Whether a byte stands in a string as it is.
fn is_plain(byte: u8) -> bool
    ensures { IsTrue result → escape_byte byte ≡ byte ∷ [] }
{
    byte >= 0x20 && byte != b'"' && byte != b'\\'
}

// Whether a text stands in a string as it is. It looks at all bytes, which is done for many at once.
fn are_plain(text: &[u8]) -> bool
    ensures { IsTrue result → escape text.now ≡ text.now }
{
    let mut plain = true;
    for byte in text {
        plain = plain & is_plain(*byte);
    }
    plain
}

// Adds the inside of a string.
fn put_escaped(out: &mut Bytes, text: &[u8]) -> Result<(), AllocError>
    ensures { OnOk result (out.new ≡ out.old ++ escape text.now) }
{
    if are_plain(text) {
        return out.extend(text);
    }
    for byte in text {
        put_byte(out, *byte)?;
    }
    Ok(())
}

// Adds a text as a string, by the shortest escapes (RFC 8259, section 7).
fn put_string(out: &mut Bytes, text: &[u8]) -> Result<(), AllocError>
    ensures { OnOk result (out.new ≡ out.old ++ quoted text.now) }
{
    out.push(b'"')?;
    put_escaped(out, text)?;
    out.push(b'"')
}

/// Adds what leads to a text, and the text as a string with the escapes that it needs (RFC 8259, section 7). Err for
/// want of memory.
#[tactic(auto, unfolding(crate::specs::WrittenTexts::led))]
pub fn put_text(out: &mut Bytes, lead: &[u8], text: &[u8]) -> Result<(), AllocError>
    ensures { OnOk result (out.new ≡ out.old ++ led lead.now text.now) }
{
    out.extend(lead)?;
    put_string(out, text)
}

/// Adds what leads to a moment, and the moment of that many seconds since 1970 as a string, `YYYY-MM-DDThh:mm:ssZ` (ISO
/// 8601). The condition is that they are a moment. Err for want of memory.
pub fn put_moment(out: &mut Bytes, lead: &[u8], secs: &i64) -> Result<(), AllocError>
    requires { IsMoment secs.now }
    ensures { OnOk result (out.new ≡ out.old ++ led_moment lead.now secs.now) }
{
    put_text(out, lead, &write_moment(*secs))
}

/// Adds what leads to a number, and the number in decimal. Err for want of memory.
#[tactic(auto, unfolding(crate::specs::WrittenTexts::led_number))]
pub fn put_number(out: &mut Bytes, lead: &[u8], number: u64) -> Result<(), AllocError>
    ensures { OnOk result (out.new ≡ out.old ++ led_number lead.now number) }
{
    let mut digits = Buffer::new();
    out.extend(lead)?;
    out.extend(digits.format(number).as_bytes())
}

/// Adds a comma, where an item or a member stands before (RFC 8259, sections 4 and 5). Err for want of memory.
pub fn put_comma(out: &mut Bytes, later: bool) -> Result<(), AllocError>
    ensures { OnOk result (out.new ≡ out.old ++ comma_if later) }
{
    if later {
        return out.push(b',');
    }
    Ok(())
}
