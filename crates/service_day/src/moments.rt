//! Instants of the years 1970 to 9998, and the moment texts that name them in a zone.
ghost use Rattle.std.specs.Prelude.{◌≡◌, ◌↔◌, ◌≤◌, ◌<◌, pos, length, Some, IsOk, IsSome, IfOk, IfErr, IfSome, option_map};
ghost use Rattle.jiff_core.specs.Calendar.{IsBetween};
ghost use Rattle.service_day.specs.Moments as spec;
ghost use Rattle.gw_base.specs.Moments.{IsMoment};

use crate::days::Day;
use crate::digits::{four_at, has_form, two_at};
use crate::starts::local_second;
use crate::utc::is_clock;
use crate::zones::Zone;
use gw_base::LAST_MOMENT;
use std::cmp::Ordering;

/// An instant of the years 1970 to 9998 in UTC: seconds since 1970-01-01T00:00:00Z, and nanoseconds
/// beyond them.
#[derive(Clone, Copy, Debug, PartialEq, Eq, PartialOrd, Ord)]
pub struct Instant {
    /// Whole seconds since 1970, from 0 to 253,370,764,799.
    pub secs: i64,
    /// Nanoseconds past the second, below 1,000,000,000.
    pub nanos: u32,
    pub ghost secs_in: { IsMoment secs },
    pub ghost nanos_in: { nanos < 1000000000 },
}

impl Instant {
    /// How it stands to another, as all comparisons answer it: by the seconds, and where these are equal by
    /// the nanoseconds.
    pub fn order(&self, other: &Instant) -> Ordering
        ensures value { result ≡ spec.instant_order (self.now.secs, self.now.nanos) (other.now.secs, other.now.nanos) }
        ensures cmp { ⟦<Instant as Ord>⟧.cmp self.now other.now ≡ result }
        ensures partial_cmp { ⟦<Instant as PartialOrd>⟧.partial_cmp self.now other.now ≡ Some result }
    {
        self.cmp(other)
    }
}

/// Why no instant was read.
#[derive(Clone, Copy, Debug, PartialEq, Eq)]
pub enum MomentFault {
    /// The text names no moment of the years 1970 to 9998.
    NotMoment,
    /// Want of memory.
    Memory,
}

/// How far a moment text has its clock ahead of UTC.
#[derive(Clone, Copy)]
pub enum Offset {
    /// As the zone's clock is.
    Local,
    /// By that many seconds.
    Ahead(i32),
}

const SHOWN: &[u8] = b"0000-00-00T00:00:00";

const UTC: &[u8] = b"Z";

const AHEAD: &[u8] = b"+00:00";

const BEHIND: &[u8] = b"-00:00";

/// The first part of a text, what the clock shows.
const SHOWN_LEN: usize = 19;

/// The instant that the text names: `YYYY-MM-DDThh:mm:ss` of a year from 1970 to 9998, then optionally a
/// dot and 1 to 9 digits, then `Z`, `+hh:mm` or `-hh:mm` of at most 14:00, or nothing (ISO 8601). Nothing
/// means the zone's local time, in a gap or a fold by the compatible choice. NotMoment exactly where the
/// text names none. Takes no memory, and never answers want of it.
pub fn read_moment(text: &str, zone: &Zone) -> Result<Instant, MomentFault>
    ensures named { IsOk result ↔ IsSome (spec.moment_of zone.now text.now) }
    ensures value { IfOk result
        (λ instant. spec.moment_of zone.now text.now ≡ Some (instant.secs, instant.nanos)) }
    ensures err { IfErr result (λ fault. fault ≡ MomentFault.NotMoment) }
{
    match moment(text.as_bytes(), zone) {
        Some(instant) => Ok(instant),
        None => Err(MomentFault::NotMoment),
    }
}

fn moment(text: &[u8], zone: &Zone) -> Option<Instant>
    ensures { option_map (λ instant. (instant.secs, instant.nanos)) result
        ≡ spec.moment_of zone.now text.now }
{
    if text.len() < SHOWN_LEN {
        return None;
    }
    let (shown, rest) = text.split_at(SHOWN_LEN);
    let (day, second) = read_shown(shown)?;
    let (nanos, end) = read_fraction(rest)?;
    let offset = read_offset(&rest[end..])?;
    instant_if(second_at(zone, offset, day, second), nanos)
}

/// The instant, where the seconds are a moment's.
fn instant_if(secs: i64, nanos: u32) -> Option<Instant>
    requires { nanos < 1000000000 }
    ensures { option_map (λ instant. (instant.secs, instant.nanos)) result
        ≡ spec.instant_if secs nanos }
{
    if secs < 0 || secs > LAST_MOMENT {
        return None;
    }
    Some(Instant { secs, nanos })
}

/// The day and the second of the day that the clock shows.
#[tactic(auto, unfolding(crate::specs::Moments::shown_part))]
fn read_shown(text: &[u8]) -> Option<(Day, u32)>
    ensures value { result ≡ spec.shown_part text.now }
    ensures day { IfSome result (λ shown. IsBetween (pos 0) (pos 2932531) shown.0) }
    ensures second { IfSome result (λ shown. shown.1 < 86400) }
{
    if !has_form(SHOWN, text) {
        return None;
    }
    let year = four_at(text, 0);
    if year < 1970 || year > 9998 {
        return None;
    }
    let day = Day::from_parts(year, two_at(text, 5), two_at(text, 8))?;
    let second = second_of_day(two_at(text, 11), two_at(text, 14), two_at(text, 17))?;
    Some((day, second))
}

/// The second of the day at a clock's time, where a clock has it.
fn second_of_day(hour: u32, minute: u32, second: u32) -> Option<u32>
    ensures value { result ≡ spec.clock_second hour minute second }
    ensures bound { IfSome result (λ of_day. of_day < 86400) }
{
    if !is_clock(hour, minute, second) {
        return None;
    }
    Some(3600 * hour + 60 * minute + second)
}

/// The fraction that begins the text, in nanoseconds, and how many characters it takes.
#[tactic(auto, unfolding(crate::specs::Moments::fraction_part))]
fn read_fraction(text: &[u8]) -> Option<(u32, usize)>
    ensures value { result ≡ spec.fraction_part text.now }
    ensures nanos { IfSome result (λ fraction. fraction.0 < 1000000000) }
    ensures end { IfSome result (λ fraction. fraction.1 ≤ length text.now) }
{
    if text.is_empty() || text[0] != b'.' {
        return Some((0, 0));
    }
    let digits = &text[1..];
    let len = digits_len(digits);
    if len < 1 || len > 9 {
        return None;
    }
    Some((nanoseconds(&digits[..len]), len + 1))
}

/// How many digits begin the text.
fn digits_len(text: &[u8]) -> usize
    ensures value { result ≡ spec.digits_len text.now }
    ensures within { result ≤ length text.now }
{
    for (i, c) in text.iter().enumerate() {
        if !c.is_ascii_digit() {
            return i;
        }
    }
    text.len()
}

/// What the digits of a fraction stand for: the first counts tenths of a second.
fn nanoseconds(digits: &[u8]) -> u32
    requires { spec.tenths 100000000 digits.now < 1000000000 }
    ensures { result ≡ spec.tenths 100000000 digits.now }
{
    let mut nanos = 0u32;
    let mut unit = 100_000_000u32;
    for c in digits {
        nanos += c.saturating_sub(b'0') as u32 * unit;
        unit /= 10;
    }
    nanos
}

/// How far the text has its clock ahead of UTC.
#[tactic(auto, unfolding(crate::specs::Moments::offset_part))]
fn read_offset(text: &[u8]) -> Option<Offset>
    ensures value { result ≡ spec.offset_part text.now }
    ensures small { IfSome result spec.IsSmall }
{
    if text.is_empty() {
        return Some(Offset::Local);
    }
    if has_form(UTC, text) {
        return Some(Offset::Ahead(0));
    }
    if has_form(AHEAD, text) {
        let seconds = offset_seconds(text)?;
        return Some(Offset::Ahead(seconds as i32));
    }
    if has_form(BEHIND, text) {
        let seconds = offset_seconds(text)?;
        return Some(Offset::Ahead(-(seconds as i32)));
    }
    None
}

/// The seconds of an offset after its sign, of at most 14 hours.
fn offset_seconds(text: &[u8]) -> Option<u32>
    requires { length text.now ≡ 6 }
    ensures value { result ≡ spec.offset_seconds text.now }
    ensures bound { IfSome result (λ seconds. seconds ≤ 50400) }
{
    let (hours, minutes) = (two_at(text, 1), two_at(text, 4));
    if minutes >= 60 || 60 * hours + minutes > 840 {
        return None;
    }
    Some(3600 * hours + 60 * minutes)
}

/// The seconds since 1970 at which a clock of that offset shows the day and the second.
fn second_at(zone: &Zone, offset: Offset, day: Day, second: u32) -> i64
    requires small { spec.IsSmall offset }
    requires day_in { IsBetween (pos 0) (pos 2932531) day }
    requires second_in { second < 86400 }
    ensures { result ≡ spec.second_at zone.now offset day second }
{
    match offset {
        Offset::Local => local_second(zone, day, second),
        Offset::Ahead(seconds) => { day.number() as i64 * 86_400 + second as i64 - seconds as i64 }
    }
}
