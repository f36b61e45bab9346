//! A service day: a date of the years 0001 to 9999, held as its number of days since 1970-01-01.
//! The calendar is `jiff`'s.
ghost use Rattle.std.specs.Prelude.{◌≡◌, ◌↔◌, ◌/◌, ◌<◌, ◌≤ℤ◌, ◌+ℤ◌, pos, unsigned_abs, Some, IsSome, IfSome};
ghost use Rattle.std.specs.Ordering.{int_cmp};
ghost use Rattle.jiff_core.specs.Calendar.{weekday_number};
ghost use Rattle.jiff_core.specs.Date.{epoch_day};
ghost use Rattle.service_day.specs.Days.{IsDay, date_number, year_of, month_of, day_of_month};
ghost use Rattle.gw_base.specs.Moments.{IsMoment};

use jiff_core::civil::Date;
use std::cmp::Ordering;
use std::marker::Model;

/// 0001-01-01.
const FIRST_DAY: i64 = -719_162;

/// 9999-12-31.
const LAST_DAY: i64 = 2_932_896;

/// A date of the years 0001 to 9999. A contract sees its number of days since 1970-01-01.
#[derive(Clone, Copy, Debug, PartialEq, Eq, PartialOrd, Ord)]
pub struct Day {
    number: i32,
}

impl Model for Day {
    ghost use Rattle.std.specs.Prelude.{ℤ};
    ghost use Rattle.service_day.specs.Days.{IsDay};

    ghost Value = { ℤ };

    ghost view = { λ day. day.number };

    ghost invariant = { λ day. IsDay day.number };

    ghost inverse = { λ number. record { number = number } };
}

/// How a date is spelled.
#[derive(Clone, Copy, Debug, PartialEq, Eq)]
pub enum DayForm {
    /// `YYYY-MM-DD`, the extended format of ISO 8601.
    Dashed,
    /// `YYYYMMDD`, the basic format of ISO 8601 and the Date type of GTFS.
    Compact,
    /// One of the two.
    Either,
}

impl Day {
    /// How it stands to another, as all comparisons answer it: by the number.
    pub fn order(&self, other: &Day) -> Ordering
        ensures value { result ≡ int_cmp self.now other.now }
        ensures cmp { ⟦<Day as Ord>⟧.cmp self.now other.now ≡ result }
        ensures partial_cmp { ⟦<Day as PartialOrd>⟧.partial_cmp self.now other.now ≡ Some result }
    {
        self.cmp(other)
    }

    /// Days since 1970-01-01.
    pub fn number(&self) -> i32
        ensures value { result ≡ self.now }
        ensures range { IsDay result }
    {
        self.number
    }

    /// The day of the week: 0 on Monday to 6 on Sunday.
    pub fn weekday(&self) -> u8
        ensures { result ≡ weekday_number self.now }
    {
        (self.number + 3).rem_euclid(7) as u8
    }

    /// The day that many days later, or earlier where the number is negative. None exactly where that
    /// is no day of the years 0001 to 9999.
    pub fn plus(&self, days: i32) -> Option<Day>
        ensures exactly { IsSome result ↔ IsDay (self.now +ℤ days) }
        ensures value { IfSome result (λ day. day ≡ self.now +ℤ days) }
    {
        let number = self.number as i64 + days as i64;
        if number < FIRST_DAY || number > LAST_DAY {
            return None;
        }
        Some(Day {
            number: number as i32,
        })
    }

    /// The day with this year, month and day of the month, if the calendar has it in 0001 to 9999.
    pub(crate) fn from_parts(year: u32, month: u32, day: u32) -> Option<Day>
        ensures { result ≡ date_number year month day }
    {
        if year < 1 || year > 9999 || month > 12 || day > 31 {
            return None;
        }
        match Date::new(year as i16, month as i8, day as i8) {
            Ok(date) => Some(Day::from_date(date)),
            Err(_) => None,
        }
    }

    /// The day of a date.
    pub(crate) fn from_date(date: Date) -> Day
        requires { pos 1 ≤ℤ date.year }
        ensures { result ≡ epoch_day date }
    {
        Day {
            number: date.to_unix_epoch_day(),
        }
    }

    /// The day that many days later.
    pub(crate) fn later(self, days: u8) -> Day
        requires { IsDay (self +ℤ pos days) }
        ensures { result ≡ self +ℤ pos days }
    {
        Day {
            number: self.number + days as i32,
        }
    }

    /// The date of the calendar.
    pub(crate) fn date(self) -> Date
        ensures value { epoch_day result ≡ self }
        ensures range { IsDay self }
    {
        match Date::from_unix_epoch_day(self.number as i64) {
            Ok(date) => date,
            Err(_) => unreachable!(),
        }
    }

    /// The year, the month and the day of the month.
    pub(crate) fn parts(self) -> (u32, u32, u32)
        ensures year { result.0 ≡ year_of self }
        ensures month { result.1 ≡ month_of self }
        ensures day { result.2 ≡ day_of_month self }
        ensures within { IsDay self }
        ensures digits { (result.0 < 10000) × (result.1 < 100) × (result.2 < 100) }
    {
        let date = self.date();
        (date.year as u32, date.month as u32, date.day as u32)
    }

    /// The UTC date of a moment.
    pub(crate) fn at_moment(secs: i64) -> Day
        requires { IsMoment secs }
        ensures { result ≡ pos (unsigned_abs secs / 86400) }
    {
        Day {
            number: (secs / 86_400) as i32,
        }
    }
}
