//! What becomes of the window by a moment, and which entries it leaves behind. The definitions are those of
//! `specs/Arrivals.antt`.
ghost use Rattle.std.specs.Prelude.{◌≡◌, ◌≤◌, ◌<◌, ◌+ℤ◌, ◌-ℤ◌, ◌≤ℤ◌, ◌∷◌, ℤ, true, false, pos, int_lt, length, take, drop, filter, map, slice_index_or, List};
ghost use Rattle.std.specs.List.{AllByRecursion};
ghost use Rattle.feed_index.specs.declared.entry.Entry.{Entry};
ghost use Rattle.service_day.specs.declared.moments.Instant as moments;
ghost use Rattle.gateway_core.specs.declared.keys.JourneyKey as keys;
ghost use Rattle.service_day.specs.Starts.{IsServiceDay};
ghost use Rattle.gateway_core.specs.Arrivals as spec;
ghost use Rattle.gateway_core.specs.Arrivals.{Arrival, admitted, is_within, moments_of, schedule_at, window_at};
ghost use Rattle.gateway_core.specs.Changes.{IsWindowOf, kept_of};
ghost use Rattle.gateway_core.specs.Settings.{IsWindowIn};
ghost use Rattle.gateway_core.specs.Standing.{KeepsJourneys, Stands, journey_seen};

use crate::keys::JourneyKey;
use crate::setting::Setting;
use crate::state::State;
use feed_index::FeedIndex;
use gw_base::Moment;
use service_day::{Day, Instant, Window, Zone, local_day};
use std::alloc::AllocError;

/// The day after the last one that a window may have, 9997-12-31, in days since 1970-01-01.
const LAST_END: i32 = 2_932_167;

// The day from which days are kept at a moment, where so many before the local one are, as a number.
fn kept_from(zone: &Zone, days: u8, keep: u8, moment: Moment) -> i32
    ensures value { result ≡ spec.kept_from zone.now days keep moment }
    ensures end { (result +ℤ pos days) ≤ℤ pos 2932167 }
{
    let local = match local_day(zone, moment.secs()) {
        Ok(day) => day.number(),
        Err(AllocError) => unreachable!(),
    };
    (local - keep as i32).min(LAST_END - days as i32)
}

// The first day of a window after a body that arrives at a moment.
fn first_after(setting: &Setting, window: &Window, moment: Moment) -> Day
    requires { length window.now.starts ≡ length setting.now.window.starts }
    ensures value { result ≡ spec.first_after setting.now setting.now.keep moment window.now.first }
    ensures first_in { IsServiceDay result }
    ensures last_in { IsServiceDay (result +ℤ pos (length window.now.starts) -ℤ pos 1) }
{
    let first = window.first();
    let Some(keep) = setting.keep else {
        return first;
    };
    let kept = kept_from(&setting.zone, window.days(), keep, moment);
    let next = first.number().max(kept);
    match first.plus(next - first.number()) {
        Some(day) => day,
        None => unreachable!(),
    }
}

// The window after a body that arrives at a moment.
fn window_after(setting: &Setting, window: &Window, moment: Moment) -> Window
    requires own { IsWindowIn setting.now.zone window.now }
    requires days { length window.now.starts ≡ length setting.now.window.starts }
    ensures own { IsWindowIn setting.now.zone result }
    ensures days { length result.starts ≡ length setting.now.window.starts }
    ensures rolls { (moments : List ℤ) → window.now ≡ window_at setting.now moments
        → result ≡ window_at setting.now (moment ∷ moments) }
{
    let first = first_after(setting, window, moment);
    match Window::make(&setting.zone, first, window.days()) {
        Ok(window) => window,
        Err(AllocError) => unreachable!(),
    }
}

// Whether the entry that stands there is of a day before that one.
fn is_before(journeys: &FeedIndex<JourneyKey, Instant>, i: u64, first: Day) -> bool
    requires { i < length journeys.now.entries }
    ensures { (other : Entry keys.JourneyKey moments.Instant)
        → result ≡ int_lt (slice_index_or journeys.now.entries i other).key.day first }
{
    let (key, _value, _bytes) = journeys.at(i);
    key.day.number() < first.number()
}

// How many of the first entries are of days before that one.
fn expired_before(journeys: &FeedIndex<JourneyKey, Instant>, first: Day) -> u64
    ensures within { result ≤ length journeys.now.entries }
    ensures before { AllByRecursion (λ one. int_lt one.key.day first ≡ true)
        (take result journeys.now.entries) }
    ensures after { (other : Entry keys.JourneyKey moments.Instant)
        → result < length journeys.now.entries
        → int_lt (slice_index_or journeys.now.entries result other).key.day first ≡ false }
{
    let len = journeys.len();
    for i in 0..len {
        if !is_before(journeys, i, first) {
            return i;
        }
    }
    len
}

/// A window by a moment, and how many of the first entries of journeys are of days before it.
#[derive(Drop)]
pub(crate) struct WindowMove {
    /// The window.
    pub window: Window,
    /// How many of the first entries are over.
    pub expired: u64,
}

/// What becomes of the window of what is kept by a body that arrives at a moment. Takes no memory.
pub(crate) fn window_move(setting: &Setting, state: &State, moment: Moment) -> WindowMove
    requires own { IsWindowOf setting.now state.now.window }
    ensures own { IsWindowOf setting.now result.window }
    ensures rolls { (arrivals : List Arrival) → Stands (kept_of setting.now state.now) arrivals
        → result.window ≡ window_at setting.now (moment ∷ moments_of arrivals) }
    ensures within { result.expired ≤ length state.now.journeys.entries }
    ensures keeps { (arrivals : List Arrival) → Stands (kept_of setting.now state.now) arrivals
        → KeepsJourneys (schedule_at setting.now (moment ∷ moments_of arrivals))
        (filter (is_within (window_at setting.now (moment ∷ moments_of arrivals)))
        (admitted setting.now arrivals))
        (drop result.expired (map journey_seen state.now.journeys.entries)) }
{
    let window = window_after(setting, &state.window, moment);
    let expired = expired_before(&state.journeys, window.first());
    WindowMove { window, expired }
}
