//! The length that a head's lines give of the body. The definitions are those of `specs/Asked.antt`.
ghost use Rattle.std.specs.Prelude.{◌≡◌, ◌+◌, ◌*◌, ◌≤◌, true, IsTrue, length, map, All};
ghost use Rattle.std.specs.Char.{is_ascii_digit, digit_value};
ghost use Rattle.std.specs.List.{list_all, list_any};
ghost use Rattle.std.specs.Str.{bytes_eq};
ghost use Rattle.std.specs.Str.Parse.{digits_value};
ghost use Rattle.gw_base.specs.Limits.{body_limit};
ghost use Rattle.httparse.specs.Spans.{IsHeaderWithin, header_bytes};
ghost use Rattle.http_talk.specs.Asked as asked;

use crate::refusal::Refusal;
use gw_base::BODY_LIMIT;
use httparse::spans::HeaderSpan;

// The header lines that say how long the body is.
const CONTENT_LENGTH: &[u8] = b"content-length";

const TRANSFER_ENCODING: &[u8] = b"transfer-encoding";

// Whether a header line has the name, in any case.
fn is_named(bytes: &[u8], header: &HeaderSpan, name: &[u8]) -> bool
    requires { IsHeaderWithin (length bytes.now) header.now }
    ensures { result ≡ asked.is_named name.now (header_bytes bytes.now header.now) }
{
    header.name.of(bytes).eq_ignore_ascii_case(name)
}

// Whether one of the header lines has the name.
fn has_name(bytes: &[u8], headers: &[HeaderSpan], name: &[u8]) -> bool
    requires { All (IsHeaderWithin (length bytes.now)) headers.now }
    ensures { result
        ≡ list_any (asked.is_named name.now) (map (header_bytes bytes.now) headers.now) }
{
    match headers.split_first() {
        Some((header, rest)) => is_named(bytes, header, name) || has_name(bytes, rest, name),
        None => false,
    }
}

// Whether each header line of the body's length has the value.
fn is_agreed(bytes: &[u8], headers: &[HeaderSpan], value: &[u8]) -> bool
    requires { All (IsHeaderWithin (length bytes.now)) headers.now }
    ensures { result
        ≡ list_all (bytes_eq value.now)
        (asked.values_of CONTENT_LENGTH.now (map (header_bytes bytes.now) headers.now)) }
{
    match headers.split_first() {
        Some((header, rest)) => {
            if is_named(bytes, header, CONTENT_LENGTH) && value != header.value.of(bytes) {
                return false;
            }
            is_agreed(bytes, rest, value)
        }
        None => true,
    }
}

// Whether each byte is a decimal digit.
fn are_digits(text: &[u8]) -> bool
    ensures { result ≡ list_all is_ascii_digit text.now }
{
    text.iter().all(|byte| byte.is_ascii_digit())
}

// Whether a text is one decimal digit or more.
fn is_number(text: &[u8]) -> bool
    ensures { result ≡ asked.is_number text.now }
{
    !text.is_empty() && are_digits(text)
}

// A number with a digit after it.
fn with_digit(size: u64, digit: u8) -> u64
    requires small { size ≤ body_limit }
    requires digit { is_ascii_digit digit ≡ true }
    ensures { result ≡ size * 10 + digit_value digit }
{
    size * 10 + (digit - b'0') as u64
}

// The number that digits write, where it is no more than a body's limit.
fn limited(digits: &[u8]) -> Result<u64, Refusal>
    requires { IsTrue (asked.is_number digits.now) }
    ensures { result ≡ asked.limited (digits_value 10 digits.now) }
{
    let mut size: u64 = 0;
    let mut rest = digits;
    while let Some((digit, after)) = rest.split_first() {
        size = with_digit(size, *digit);
        if size > BODY_LIMIT {
            return Err(Refusal::TooLarge);
        }
        rest = after;
    }
    Ok(size)
}

// The length that the first of these header lines gives, where the others of that name agree.
fn length_said(bytes: &[u8], headers: &[HeaderSpan]) -> Result<u64, Refusal>
    requires { All (IsHeaderWithin (length bytes.now)) headers.now }
    ensures { result
        ≡ asked.length_said
        (asked.values_of CONTENT_LENGTH.now (map (header_bytes bytes.now) headers.now)) }
{
    let Some((header, rest)) = headers.split_first() else {
        return Err(Refusal::NeedLength);
    };
    if !is_named(bytes, header, CONTENT_LENGTH) {
        return length_said(bytes, rest);
    }
    let value = header.value.of(bytes);
    if is_number(value) && is_agreed(bytes, rest, value) {
        limited(value)
    } else {
        Err(Refusal::Length)
    }
}

/// The length of the body.
pub(crate) fn length_of(bytes: &[u8], headers: &[HeaderSpan]) -> Result<u64, Refusal>
    requires { All (IsHeaderWithin (length bytes.now)) headers.now }
    ensures { result ≡ asked.length_of (map (header_bytes bytes.now) headers.now) }
{
    if has_name(bytes, headers, TRANSFER_ENCODING) {
        return Err(Refusal::NeedLength);
    }
    length_said(bytes, headers)
}
