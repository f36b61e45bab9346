//! The starts of service days and the local dates of moments, in a zone.
ghost use Rattle.std.specs.Prelude.{◌≡◌, ◌<◌, ◌≤ℤ◌, ◌+ℤ◌, ◌*ℤ◌, Ok, IfOk, pos};
ghost use Rattle.jiff_core.specs.Calendar.{IsBetween};
ghost use Rattle.jiff_core.specs.Date.{epoch_day};
ghost use Rattle.jiff_core.specs.DateTime.{civil_nanos};
ghost use Rattle.service_day.specs.Civil as civil;
ghost use Rattle.service_day.specs.Starts as spec;
ghost use Rattle.service_day.specs.Starts.{IsDayStart, IsServiceDay};
ghost use Rattle.gw_base.specs.Moments.{IsMoment};

use crate::days::Day;
use crate::zones::Zone;
use jiff::Timestamp;
use jiff::civil::{Date, DateTime, Time};
use jiff_core::civil;
use std::alloc::AllocError;

/// The start of a service day in seconds since 1970: local noon of the day, taken by the compatible
/// choice, minus 12 hours (GTFS Schedule, the times of `stop_times.txt`). Takes no memory, and is always Ok.
pub fn day_start(zone: &Zone, day: Day) -> Result<i64, AllocError>
    requires { IsServiceDay day }
    ensures value { result ≡ Ok (spec.start zone.now day) }
    ensures range { IfOk result IsMoment }
{
    Ok(start_of_day(zone, day))
}

/// The date that the zone's clock shows at a moment of the years 1970 to 9998, in seconds since 1970.
/// Takes no memory, and is always Ok.
pub fn local_day(zone: &Zone, secs: i64) -> Result<Day, AllocError>
    requires { IsMoment secs }
    ensures { result ≡ Ok (spec.local_day zone.now secs) }
{
    Ok(Day::from_date(local_date(zone, secs)))
}

/// The date that the zone's clock shows at a moment.
fn local_date(zone: &Zone, secs: i64) -> civil::Date
    requires { IsMoment secs }
    ensures day { epoch_day result ≡ spec.local_day zone.now secs }
    ensures year { pos 1 ≤ℤ result.year }
{
    let instant = match Timestamp::from_second(secs) {
        Ok(instant) => instant,
        Err(_) => unreachable!(),
    };
    let shown = zone.time_zone().to_datetime(instant);
    shown.date().to_plain()
}

/// The start of a service day, in seconds since 1970.
#[tactic(auto, unfolding(crate::specs::Starts::start))]
pub(crate) fn start_of_day(zone: &Zone, day: Day) -> i64
    requires { IsServiceDay day }
    ensures value { result ≡ spec.start zone.now day }
    ensures range { IsDayStart result }
{
    local_second(zone, day, 43_200) - 43_200
}

/// The seconds since 1970 at which the zone's clock shows that second of the day.
pub(crate) fn local_second(zone: &Zone, day: Day, second: u32) -> i64
    requires day_in { IsBetween (pos 0) (pos 2932531) day }
    requires second_in { second < 86400 }
    ensures value { result ≡ spec.local_second zone.now day second }
    ensures bound { IsBetween (pos 0) (pos 253_370_960_000) (result +ℤ pos 100_000) }
{
    match zone.time_zone().to_timestamp(shown_at(day, second)) {
        Ok(instant) => instant.as_second(),
        Err(_) => unreachable!(),
    }
}

/// The date and the time of day that a clock shows at that second of the day.
fn shown_at(day: Day, second: u32) -> DateTime
    requires { second < 86400 }
    ensures value { result ≡ civil.shown_at day second }
    ensures nanos { civil_nanos result ≡ (day *ℤ pos 86400 +ℤ pos second) *ℤ pos 1_000_000_000 }
{
    let time = Time::from_plain(civil::Time::from_second(second, 0));
    DateTime::from_parts(Date::from_plain(day.date()), time)
}
