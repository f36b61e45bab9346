//! The forms of fields (GTFS Schedule reference, field types). The functions meet `specs/Forms.antt`.
ghost use Rattle.std.specs.Prelude.{◌≡◌, ◌≤◌, length, IfSome};
ghost use Rattle.stop_schedule.specs.Forms as spec;
ghost use Rattle.timetable.specs.Digits.{digits_value};
ghost use Rattle.timetable.specs.Limits.{time_limit};

use service_day::{Day, DayForm, read_day};

/// The form that a column asks of its fields.
#[derive(Clone, Copy, Debug, PartialEq, Eq)]
pub(crate) enum Form {
    /// Any text.
    Any,
    /// An id, which isn't empty.
    Id,
    /// An id, or empty.
    OptionalId,
    /// `0` or `1`.
    Flag,
    /// `1` or `2`.
    Exception,
    /// `YYYYMMDD`, a date of the years 0001 to 9999.
    Date,
    /// 1 to 10 digits, at most 4,294,967,295.
    Sequence,
    /// Empty, `H:MM:SS` or `HH:MM:SS`.
    Time,
}

/// Whether a text has the form.
pub(crate) fn fits(form: Form, text: &str) -> bool
    ensures { result ≡ spec.fits form text.now }
{
    match form {
        Form::Any | Form::OptionalId => true,
        Form::Id => !text.is_empty(),
        Form::Flag => text.as_bytes() == b"0".as_slice() || text.as_bytes() == b"1".as_slice(),
        Form::Exception => text.as_bytes() == b"1".as_slice() || text.as_bytes() == b"2".as_slice(),
        Form::Date => date(text).is_some(),
        Form::Sequence => sequence(text.as_bytes()).is_some(),
        Form::Time => text.is_empty() || seconds(text.as_bytes()).is_some(),
    }
}

/// The day that a date names.
pub(crate) fn date(text: &str) -> Option<Day>
    ensures { result ≡ spec.date text.now }
{
    read_day(text, DayForm::Compact)
}

// Whether each byte is a decimal digit.
fn are_digits(text: &[u8]) -> bool
    ensures { result ≡ spec.are_digits text.now }
{
    text.iter().all(|byte| byte.is_ascii_digit())
}

/// The number of a stop in its trip that digits name.
#[tactic(auto, unfolding(crate::specs::Forms::sequence))]
pub(crate) fn sequence(text: &[u8]) -> Option<u32>
    ensures { result ≡ spec.sequence text.now }
{
    if text.is_empty() || text.len() > 10 || !are_digits(text) {
        return None;
    }
    number(text)
}

// The number that digits name, if it is at most 4,294,967,295.
fn number(text: &[u8]) -> Option<u32>
    ensures { result ≡ spec.small (digits_value 0 text.now) }
{
    let mut rest = text;
    let mut value = 0u64;
    while let [first, later @ ..] = rest {
        if value > u32::MAX as u64 {
            return None;
        }
        value = value * 10 + first.saturating_sub(b'0') as u64;
        rest = later;
    }
    if value > u32::MAX as u64 {
        return None;
    }
    Some(value as u32)
}

/// The seconds of a time of day, which may pass midnight.
#[tactic(auto, unfolding(crate::specs::Forms::seconds))]
#[inline(always)]
pub(crate) fn seconds(text: &[u8]) -> Option<u32>
    ensures value { result ≡ spec.seconds text.now }
    ensures bound { IfSome result (λ seconds. seconds ≤ time_limit) }
{
    if text.len() == 7 {
        return clock(b'0', text);
    }
    if text.len() == 8 {
        let (_, rest) = text.split_at(1);
        return clock(text[0], rest);
    }
    None
}

// The seconds of `HH:MM:SS`, by its first byte and the other seven.
#[inline(always)]
fn clock(tens: u8, rest: &[u8]) -> Option<u32>
    requires { length rest.now ≡ 7 }
    ensures value { result ≡ spec.clock tens rest.now }
    ensures bound { IfSome result (λ seconds. seconds ≤ time_limit) }
{
    if !is_clock(tens, rest) {
        return None;
    }
    let (minutes, seconds) = (two(rest[2], rest[3]), two(rest[5], rest[6]));
    Some(3600 * two(tens, rest[0]) + 60 * minutes + seconds)
}

// Whether the bytes are `HH:MM:SS` with minutes and seconds below 60.
#[inline(always)]
fn is_clock(tens: u8, rest: &[u8]) -> bool
    requires { length rest.now ≡ 7 }
    ensures { result ≡ spec.is_clock tens rest.now }
{
    tens.is_ascii_digit()
        && rest[0].is_ascii_digit()
        && rest[1] == b':'
        && is_sixty(rest[2], rest[3])
        && rest[4] == b':'
        && is_sixty(rest[5], rest[6])
}

// Whether two bytes are the digits of a number below 60.
#[inline(always)]
fn is_sixty(tens: u8, ones: u8) -> bool
    ensures { result ≡ spec.is_sixty tens ones }
{
    tens.is_ascii_digit() && ones.is_ascii_digit() && two(tens, ones) < 60
}

// The number that two digits name.
#[inline(always)]
fn two(tens: u8, ones: u8) -> u32
    ensures value { result ≡ spec.two tens ones }
    ensures bound { result ≤ 2277 }
{
    10 * tens.saturating_sub(b'0') as u32 + ones.saturating_sub(b'0') as u32
}
