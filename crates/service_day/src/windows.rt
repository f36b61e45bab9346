//! Windows: up to 32 service days in a row, whose starts are computed once.
ghost use Rattle.std.specs.Prelude.{◌≡◌, ◌≤◌, ◌+ℤ◌, ◌-ℤ◌, IsOk, IfOk, IfSome, pos, length};
ghost use Rattle.gw_base.specs.Moments.{IsMoment};
ghost use Rattle.service_day.specs.Starts.{IsDayStart, IsServiceDay};

use crate::days::Day;
use crate::starts::start_of_day;
use crate::zones::Zone;
use std::alloc::AllocError;
use std::marker::Model;

/// The most days that a window has.
const MOST_DAYS: usize = 32;

/// A window of 1 to 32 service days. A contract sees its first day and the starts of its days.
#[derive(Drop)]
pub struct Window {
    first: Day,
    days: u8,
    starts: [i64; MOST_DAYS],
}

impl Model for Window {
    ghost use Rattle.std.specs.Prelude.{◌≡◌, ◌≤◌, ◌<◌, ◌+ℤ◌, ◌-ℤ◌, ℕ, pos, length, take, slice_index_or};
    ghost use Rattle.service_day.specs.Starts.{IsDayStart, IsServiceDay};
    ghost use Rattle.service_day.specs.Windows.{DayStarts};

    ghost Value = { DayStarts };

    ghost view = { λ w. record { first = w.first; starts = take w.days w.starts } };

    ghost invariant = { λ w. (w.days ≤ 32) × (length w.starts ≡ 32)
        × ((place : ℕ) → place < w.days → IsDayStart (slice_index_or w.starts place (pos 0)))
        × (1 ≤ w.days) × IsServiceDay w.first × IsServiceDay (w.first +ℤ pos w.days -ℤ pos 1) };
}

impl Window {
    ghost use Rattle.service_day.specs.Windows.{IsWindow, start_in};

    /// The window of that many days from the first on. Takes no memory, and is always Ok.
    pub fn make(zone: &Zone, first: Day, days: u8) -> Result<Window, AllocError>
        requires some_days { 1 ≤ days }
        requires few_days { days ≤ 32 }
        requires first_in { IsServiceDay first }
        requires last_in { IsServiceDay (first +ℤ pos days -ℤ pos 1) }
        ensures ok { IsOk result }
        ensures value { IfOk result (IsWindow zone.now first days) }
    {
        let mut starts = [0; MOST_DAYS];
        for i in 0..days {
            starts[i as usize] = start_of_day(zone, first.later(i));
        }
        Ok(Window {
            first,
            days,
            starts,
        })
    }

    /// Its first day.
    pub fn first(&self) -> Day
        ensures value { result ≡ self.now.first }
        ensures first_in { IsServiceDay self.now.first }
        ensures last_in { IsServiceDay (self.now.first +ℤ pos (length self.now.starts) -ℤ pos 1) }
    {
        self.first
    }

    /// How many days it has.
    pub fn days(&self) -> u8
        ensures value { result ≡ length self.now.starts }
        ensures some_days { 1 ≤ result }
        ensures few_days { result ≤ 32 }
    {
        self.days
    }

    /// The start of the day, in seconds since 1970; None exactly where the day isn't in the window.
    /// Takes no memory.
    pub fn start_of(&self, day: Day) -> Option<i64>
        ensures value { result ≡ start_in self.now day }
        ensures range { IfSome result IsDayStart }
        ensures moment { IfSome result IsMoment }
    {
        let place = day.number() - self.first.number();
        if place < 0 || place >= self.days as i32 {
            return None;
        }
        Some(self.starts[place as usize])
    }
}
