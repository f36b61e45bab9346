//! What journeys are read over, and a trip on a day. The functions meet `specs/Schedules.antt`.
ghost use Rattle.std.specs.Prelude.{◌≡◌, ◌<◌, ◌≤◌, length, true, option_map, IfSome};
ghost use Rattle.service_day.specs.Starts.{IsDayStart};
ghost use Rattle.gw_base.specs.Moments.{IsMoment};
ghost use Rattle.timetable.specs.Limits.{stop_limit};
ghost use Rattle.timetable.specs.Stops.{are_rising, are_timed};

use service_day::{Day, Window, Zone};
use std::marker::Model;
use timetable::{StopRow, Timetable, TripNo};

/// What journeys are read over: a timetable, the zone of its times, and a window. A contract sees the `Schedule` of the
/// three. That the window is one of the zone is kept by whoever lends them.
#[derive(Drop)]
pub struct Context<'a> {
    /// What the GTFS Schedule folder says.
    pub table: &'a Timetable,
    /// The zone of the timetable's times.
    pub zone: &'a Zone,
    /// The service days, with their starts in the zone.
    pub window: &'a Window,
}

impl<'a> Model for Context<'a> {
    ghost use Rattle.journey_model.specs.Schedules.{Schedule, schedule_from};
    ghost use Rattle.journey_model.specs.StoredSchedules.{schedule_code};

    ghost Value = { Schedule };

    ghost coded = { schedule_code };

    ghost view = { λ lent. schedule_from lent.table.now lent.zone.now lent.window.now };
}

/// A trip on a day.
#[derive(Clone, Copy)]
pub struct DatedTrip<'a> {
    /// The trip.
    pub trip: TripNo,
    /// The service day.
    pub day: Day,
    /// The start of the service day, in seconds since 1970.
    pub start: i64,
    /// The trip's stops, in rising sequence.
    pub stops: &'a [StopRow],
    pub ghost rising: { are_rising stops.now ≡ true },
    pub ghost few: { length stops.now ≤ stop_limit },
    pub ghost start_in: { IsMoment start },
    pub ghost day_start: { IsDayStart start },
    pub ghost timed: { are_timed stops.now ≡ true },
}

impl<'a> Context<'a> {
    ghost use Rattle.journey_model.specs.Schedules.{run_on};
    ghost use Rattle.journey_model.specs.Dated.{run_of};

    /// A trip on a day; None exactly where the day isn't in the window.
    pub fn dated(&self, trip: TripNo, day: Day) -> Option<DatedTrip<'a>>
        requires { trip.0 < length self.now.table.trips }
        ensures value { option_map (run_of self.now.table) result ≡ run_on self.now trip.0 day }
        ensures names { IfSome result (λ dated. (dated.trip ≡ trip) × (dated.day ≡ day)) }
    {
        match self.window.start_of(day) {
            Some(start) => Some(DatedTrip {
                trip,
                day,
                start,
                stops: self.table.stops_of(trip),
            }),
            None => None,
        }
    }
}
