//! The trip and the service day of an update, and when it was recorded. The functions meet `journey_model`'s
//! `specs/FeedReadings.antt`.
ghost use Rattle.std.specs.Prelude.{◌≡◌, ◌<◌, ◌<ℤ◌, negsuc, pos, None, length, option_map, IfSome};
ghost use Rattle.std.specs.Option.{option_or};
ghost use Rattle.journey_model.specs.FeedReadings as spec;
ghost use Rattle.service_day.specs.Utc.{moment_if};
ghost use Rattle.propagation.specs.Folding.{bare_feed, is_dated};

use gw_base::{Moment, TripUpdate};
use journey_model::{Context, filled_text};
use service_day::{Day, DayForm, local_day, read_day};
use timetable::TripNo;

// The moment of that many seconds since 1970, where there is one.
fn moment_of(secs: u64) -> Option<Moment>
    ensures { result ≡ moment_if (pos secs) }
{
    match i64::try_from(secs) {
        Ok(secs) => Moment::new(secs),
        Err(_) => None,
    }
}

// A timestamp, where it is a moment.
fn moment_in(timestamp: Option<u64>) -> Option<Moment>
    ensures { result ≡ spec.moment_in timestamp }
{
    match timestamp {
        Some(secs) => moment_of(secs),
        None => None,
    }
}

/// The moment that is recorded, else the feed's timestamp, where that is a moment.
pub(crate) fn recorded_or(recorded: Option<Moment>, timestamp: Option<u64>) -> Option<Moment>
    ensures { result ≡ option_or recorded (spec.moment_in timestamp) }
{
    match recorded {
        Some(recorded) => Some(recorded),
        None => moment_in(timestamp),
    }
}

/// When an update was recorded: at its own timestamp, else at the feed's.
pub(crate) fn recorded_in(timestamp: Option<u64>, update: &TripUpdate) -> Option<Moment>
    ensures { result ≡ spec.recorded_in (bare_feed timestamp) update.now }
{
    recorded_or(moment_in(update.timestamp), timestamp)
}

/// The trip that an update names (GTFS Realtime reference, TripDescriptor: trip_id).
pub(crate) fn trip_named(context: &Context<'_>, update: &TripUpdate) -> Option<TripNo>
    ensures named { option_map (λ trip. trip.0) result
        ≡ spec.trip_named context.now update.now }
    ensures within { IfSome result (λ trip. trip.0 < length context.now.table.trips) }
{
    match filled_text(&update.trip.trip_id) {
        Some(id) => context.table.find_trip(id),
        None => None,
    }
}

// The day on which a trip runs: this one, else the one before.
fn running_day(context: &Context<'_>, trip: TripNo, day: Day) -> Option<Day>
    requires known { trip.0 < length context.now.table.trips }
    requires late { negsuc 719161 <ℤ day }
    ensures { result ≡ spec.running_day context.now trip.0 day }
{
    if context.table.runs(trip, day) {
        return Some(day);
    }
    match day.plus(-1) {
        Some(before) if context.table.runs(trip, before) => Some(before),
        _ => None,
    }
}

// The day of an update without a start_date, in a feed that was made at that moment.
fn day_made(context: &Context<'_>, trip: TripNo, made: Option<Moment>) -> Option<Day>
    requires { trip.0 < length context.now.table.trips }
    ensures { result ≡ spec.day_by context.now trip.0 made None }
{
    let Some(made) = made else {
        return None;
    };
    match local_day(context.zone, made.secs()) {
        Ok(day) => running_day(context, trip, day),
        Err(_) => unreachable!(),
    }
}

/// Whether an update names its service day (GTFS Realtime reference, TripDescriptor: start_date).
pub(crate) fn is_dated(update: &TripUpdate) -> bool
    ensures { result ≡ is_dated update.now }
{
    filled_text(&update.trip.start_date).is_some()
}

/// The service day of an update (GTFS Realtime reference, TripDescriptor: start_date): the one that it names; else the
/// local date of the feed's timestamp or the day before, on which the trip runs.
pub(crate) fn day_named(
    context: &Context<'_>,
    timestamp: Option<u64>,
    trip: TripNo,
    update: &TripUpdate,
) -> Option<Day>
    requires { trip.0 < length context.now.table.trips }
    ensures { result ≡ spec.day_named context.now (bare_feed timestamp) trip.0 update.now }
{
    match filled_text(&update.trip.start_date) {
        Some(date) => read_day(date, DayForm::Compact),
        None => day_made(context, trip, moment_in(timestamp)),
    }
}
