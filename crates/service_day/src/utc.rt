//! UTC moments of the years 1970 to 9998 as texts, `YYYY-MM-DDThh:mm:ssZ`, read and written.
ghost use Rattle.std.specs.Prelude.{◌≡◌, ◌+◌, ◌*◌, ◌/◌, ◌%◌, ◌<◌, ◌+ℤ◌, ◌*ℤ◌, pos, unsigned_abs, Some, length, IsTrue, IfSome};
ghost use Rattle.service_day.specs.Utc as spec;
ghost use Rattle.gw_base.specs.Moments.{IsMoment};
ghost use Rattle.service_day.specs.Utc.{utc_of, moment_text};

use crate::day_texts::day_text;
use crate::days::Day;
use crate::digits::{four_at, has_form, two_at, two_digits};
use gw_base::LAST_MOMENT;

const UTC: &[u8] = b"0000-00-00T00:00:00Z";

/// The seconds since 1970 that the text names in the form `YYYY-MM-DDThh:mm:ssZ` (ISO 8601). None exactly
/// where the text has another form, the calendar has no such date, a clock no such time, or the year
/// isn't in 1970 to 9998. Takes no memory.
#[tactic(auto, unfolding(crate::specs::Utc::utc_of))]
pub fn read_utc(text: &str) -> Option<i64>
    ensures value { result ≡ utc_of text.now }
    ensures range { IfSome result IsMoment }
{
    let text = text.as_bytes();
    if !has_form(UTC, text) {
        return None;
    }
    let day = Day::from_parts(four_at(text, 0), two_at(text, 5), two_at(text, 8))?;
    moment_at(day, two_at(text, 11), two_at(text, 14), two_at(text, 17))
}

/// The seconds since 1970 of that time of the day, where a clock has it and a moment is there.
fn moment_at(day: Day, hour: u32, minute: u32, second: u32) -> Option<i64>
    ensures value { result ≡ spec.moment_at (Some day) hour minute second }
    ensures range { IfSome result IsMoment }
{
    if !is_clock(hour, minute, second) {
        return None;
    }
    moment_if(seconds_at(day, 3600 * hour + 60 * minute + second))
}

/// The seconds from the start of 1970 to a second of a day.
fn seconds_at(day: Day, of_day: u32) -> i64
    requires { of_day < 86400 }
    ensures { result ≡ day *ℤ pos 86400 +ℤ pos of_day }
{
    day.number() as i64 * 86_400 + of_day as i64
}

/// The seconds, where they are a moment's.
fn moment_if(secs: i64) -> Option<i64>
    ensures value { result ≡ spec.moment_if secs }
    ensures range { IfSome result IsMoment }
{
    if secs < 0 || secs > LAST_MOMENT {
        return None;
    }
    Some(secs)
}

/// Whether a clock shows that hour, minute and second.
pub(crate) fn is_clock(hour: u32, minute: u32, second: u32) -> bool
    ensures value { result ≡ spec.is_clock hour minute second }
    ensures bound { IsTrue result → 3600 * hour + 60 * minute + second < 86400 }
{
    hour < 24 && minute < 60 && second < 60
}

/// The moment of that many seconds since 1970 as `YYYY-MM-DDThh:mm:ssZ`. Takes no memory.
pub fn write_moment(secs: i64) -> [u8; 20]
    requires { IsMoment secs }
    ensures value { result ≡ moment_text secs }
    ensures length { length (moment_text secs) ≡ 20 }
    ensures reads { utc_of (moment_text secs) ≡ Some secs }
{
    let [y1, y2, y3, y4, s1, m1, m2, s2, d1, d2] = day_text(Day::at_moment(secs));
    let (hour, minute, second) = clock_of(secs);
    let ([h1, h2], [n1, n2], [z1, z2]) = (two_digits(hour), two_digits(minute), two_digits(second));
    [
        y1, y2, y3, y4, s1, m1, m2, s2, d1, d2, b'T', h1, h2, b':', n1, n2, b':', z1, z2, b'Z',
    ]
}

/// The hour, the minute and the second that a UTC clock shows at the moment.
fn clock_of(secs: i64) -> (u32, u32, u32)
    requires { IsMoment secs }
    ensures hour { result.0 ≡ unsigned_abs secs % 86400 / 3600 }
    ensures minute { result.1 ≡ unsigned_abs secs % 86400 / 60 % 60 }
    ensures second { result.2 ≡ unsigned_abs secs % 86400 % 60 }
{
    let of_day = (secs % 86_400) as u32;
    (of_day / 3600, of_day / 60 % 60, of_day % 60)
}
