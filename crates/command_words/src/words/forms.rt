//! The forms of values, and what a value of a form is read as.
ghost use Rattle.std.specs.Prelude.{◌≡◌, Some};
ghost use Rattle.std.specs.Char.{is_ascii_digit};
ghost use Rattle.std.specs.List.{list_all};
ghost use Rattle.command_words.specs.Forms as spec;
ghost use Rattle.command_words.specs.Forms.{beginning, decimal_number};
ghost use Rattle.command_words.specs.Rows.{form_of};
ghost use Rattle.service_day.specs.Utc.{utc_of};

use gw_base::{Moment, Text};
use service_day::{Day, DayForm, read_day, read_utc};

/// The first day that a window may have, 1971-01-01.
pub const FIRST_DAY: i32 = 365;

/// The last day that a window may have, 9997-12-31.
pub const LAST_DAY: i32 = 2_932_166;

/// The most days that a window may have.
pub const MOST_DAYS: u64 = 32;

/// The most days that are kept before the local one.
pub const MOST_KEPT: u64 = 31;

/// The most connections that a server serves.
pub const MOST_CONNECTIONS: u64 = 4_294_967_295;

/// The greatest seed of a sample.
pub const MOST_SEED: u64 = 2_147_483_647;

/// The most trips of a sample.
pub const MOST_TRIPS: u64 = 20_000;

/// The fewest stops of a trip of a sample.
pub const FEWEST_STOPS: u64 = 2;

/// The most stops of a trip of a sample.
pub const MOST_STOPS: u64 = 100;

/// The most minutes of a board: a day.
pub const MOST_MINUTES: u64 = 1440;

/// The most visits that a board shows.
pub const MOST_VISITS: u64 = 10_000;

/// The most digits of a number.
pub const MOST_DIGITS: usize = 10;

/// The form of the value after a flag.
#[derive(Clone, Copy, Debug, PartialEq, Eq)]
pub enum Form {
    /// A text that isn't empty.
    Filled,
    /// `YYYY-MM-DD`, from 1971 to 9997.
    Day,
    /// A number of days from 1 to 32, of which the last is still in 9997 when the first is the value before.
    DayCount,
    /// A number of days from 0 to 31, which is less than the number of days before.
    KeptCount,
    /// A number of connections from 1 to 4,294,967,295.
    ConnectionCount,
    /// `YYYY-MM-DDThh:mm:ssZ`, from 1970 to 9998.
    Moment,
    /// A seed from 0 to 2,147,483,647.
    Seed,
    /// A number of trips from 1 to 20,000.
    TripCount,
    /// A number of stops from 2 to 100.
    StopCount,
    /// A number of minutes from 1 to 1,440.
    MinuteCount,
    /// A number of visits from 1 to 10,000.
    VisitCount,
}

/// The value of a word that is a day from 1971 to 9997.
pub fn first_day(word: &Text) -> Option<Day>
    ensures { result ≡ beginning word.now }
{
    let day = read_day(word.as_str(), DayForm::Dashed)?;
    if FIRST_DAY <= day.number() && day.number() <= LAST_DAY {
        Some(day)
    } else {
        None
    }
}

// Each character is an ASCII digit.
fn is_digits(text: &str) -> bool
    ensures { result ≡ list_all is_ascii_digit text.now }
{
    text.as_bytes().iter().all(|digit| digit.is_ascii_digit())
}

// A number in 1 to 10 decimal digits.
fn is_number(text: &str) -> bool
    ensures { result ≡ spec.is_number text.now }
{
    !text.is_empty() && text.len() <= MOST_DIGITS && is_digits(text)
}

// The value of a word that is a number.
fn number(word: &Text) -> Option<u64>
    ensures { result ≡ decimal_number word.now }
{
    let text = word.as_str();
    if is_number(text) {
        text.parse::<u64>().ok()
    } else {
        None
    }
}

// The value of a word that is a number in that range.
fn number_in(least: u64, most: u64, word: &Text) -> Option<u64>
    ensures { result ≡ spec.number_in least most word.now }
{
    let value = number(word)?;
    if least <= value && value <= most {
        Some(value)
    } else {
        None
    }
}

/// The value of a word that is a number of days from 1 to 32.
pub fn day_count(word: &Text) -> Option<u8>
    ensures { result ≡ spec.day_count word.now }
{
    Some(number_in(1, MOST_DAYS, word)? as u8)
}

/// The value of a word that is a number of days from 0 to 31.
pub fn kept_count(word: &Text) -> Option<u8>
    ensures { result ≡ spec.kept_count word.now }
{
    Some(number_in(0, MOST_KEPT, word)? as u8)
}

/// The value of a word that is a number of connections.
pub fn connection_count(word: &Text) -> Option<u32>
    ensures { result ≡ spec.connection_count word.now }
{
    Some(number_in(1, MOST_CONNECTIONS, word)? as u32)
}

/// The value of a word that is a seed.
pub fn seed_number(word: &Text) -> Option<u32>
    ensures { result ≡ spec.seed_number word.now }
{
    Some(number_in(0, MOST_SEED, word)? as u32)
}

/// The value of a word that is a number of trips.
pub fn trip_count(word: &Text) -> Option<u32>
    ensures { result ≡ spec.trip_count word.now }
{
    Some(number_in(1, MOST_TRIPS, word)? as u32)
}

/// The value of a word that is a number of stops.
pub fn stop_count(word: &Text) -> Option<u32>
    ensures { result ≡ spec.stop_count word.now }
{
    Some(number_in(FEWEST_STOPS, MOST_STOPS, word)? as u32)
}

/// The value of a word that is a number of minutes.
pub fn minute_count(word: &Text) -> Option<u32>
    ensures { result ≡ spec.minute_count word.now }
{
    Some(number_in(1, MOST_MINUTES, word)? as u32)
}

/// The value of a word that is a number of visits.
pub fn visit_count(word: &Text) -> Option<u32>
    ensures { result ≡ spec.visit_count word.now }
{
    Some(number_in(1, MOST_VISITS, word)? as u32)
}

// That many days from the first one on, if there is a first one, end in 9997 at the latest.
fn ends_in_time(first: Option<Day>, days: u8) -> bool
    ensures { result ≡ spec.ends_in_time first (Some days) }
{
    match first {
        Some(day) => day.number() + (days as i32 - 1) <= LAST_DAY,
        None => true,
    }
}

// So many days are fewer than a window has, if there is one.
fn keeps_fewer(days: Option<u8>, kept: u8) -> bool
    ensures { result ≡ spec.keeps_fewer days (Some kept) }
{
    match days {
        Some(days) => kept < days,
        None => true,
    }
}

/// The moment of a word in the form `YYYY-MM-DDThh:mm:ssZ`.
pub fn moment(word: &Text) -> Option<Moment>
    ensures { result ≡ utc_of word.now }
{
    Moment::new(read_utc(word.as_str())?)
}

/// The word has the form, after the value before it.
pub fn has_form(form: Form, before: &Text, word: &Text) -> bool
    ensures { result ≡ form_of form before.now word.now }
{
    match form {
        Form::Filled => !word.as_str().is_empty(),
        Form::Day => first_day(word).is_some(),
        Form::DayCount => match day_count(word) {
            Some(days) => ends_in_time(first_day(before), days),
            None => false,
        },
        Form::KeptCount => match kept_count(word) {
            Some(kept) => keeps_fewer(day_count(before), kept),
            None => false,
        },
        Form::ConnectionCount => connection_count(word).is_some(),
        Form::Moment => moment(word).is_some(),
        Form::Seed => seed_number(word).is_some(),
        Form::TripCount => trip_count(word).is_some(),
        Form::StopCount => stop_count(word).is_some(),
        Form::MinuteCount => minute_count(word).is_some(),
        Form::VisitCount => visit_count(word).is_some(),
    }
}
