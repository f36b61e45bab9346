//! Journeys (SIRI 2.0, EstimatedVehicleJourney), written. The functions meet `specs/Written/DeliveryTexts.antt`.
ghost use Rattle.std.specs.Prelude.{◌≡◌, ◌++◌, ◌<◌, true, false, length, All, OnOk};
ghost use Rattle.gw_base.specs.Moments.{IsMoment};
ghost use Rattle.timetable.specs.Seen.{seen};
ghost use Rattle.timetable.specs.Stops.{are_known};
ghost use Rattle.journey_model.specs.Readings.{fits_trip};
ghost use Rattle.journey_model.specs.Schedules.{FitsSchedule, run_on};
ghost use Rattle.siri_calls.specs.Written.DeliveryTree.{is_cancelled_journey};
ghost use Rattle.siri_calls.specs.Written.DeliveryTexts.{closing_text, frame_ref_text, journey_text, journey_text_on, journeys_text, opening_text};
ghost use Rattle.journey_model.specs.TripRuns.{run_over};

use crate::writing::calls::put_calls;
use gw_base::{Bytes, Moment};
use journey_model::{Context, DatedReading, JourneyReading, TripRun};
use service_day::{Day, day_text};
use siri_json::{put_comma, put_moment, put_text};
use std::alloc::AllocError;

// Adds a journey up to its calls.
fn put_opening(out: &mut Bytes, cancelled: bool) -> Result<(), AllocError>
    ensures { OnOk result (out.new ≡ out.old ++ opening_text cancelled) }
{
    if cancelled {
        out.extend(b"{\"Cancellation\":true,\"EstimatedCalls\":{\"EstimatedCall\":[")
    } else {
        out.extend(b"{\"Cancellation\":false,\"EstimatedCalls\":{\"EstimatedCall\":[")
    }
}

// Adds the trip and its service day, after the calls.
fn put_frame_ref(out: &mut Bytes, day: Day, trip_id: &str) -> Result<(), AllocError>
    ensures { OnOk result (out.new ≡ out.old ++ frame_ref_text day trip_id.now) }
{
    put_text(
        out,
        b"},\"FramedVehicleJourneyRef\":{\"DataFrameRef\":",
        &day_text(day),
    )?;
    put_text(out, b",\"DatedVehicleJourneyRef\":", trip_id.as_bytes())
}

// Adds the route and the moment of recording, in seconds since 1970, with which a journey ends.
fn put_closing(out: &mut Bytes, route_id: &str, recorded: &i64) -> Result<(), AllocError>
    requires { IsMoment recorded.now }
    ensures { OnOk result (out.new ≡ out.old ++ closing_text route_id.now recorded.now) }
{
    put_text(
        out,
        b"},\"IsCompleteStopSequence\":true,\"LineRef\":",
        route_id.as_bytes(),
    )?;
    put_moment(out, b",\"RecordedAtTime\":", recorded)?;
    out.push(b'}')
}

// Whether a journey doesn't run.
fn is_cancelled(reading: &JourneyReading) -> bool
    ensures { result ≡ is_cancelled_journey reading.now }
{
    match reading {
        JourneyReading::Cancelled => true,
        JourneyReading::Stops(_) => false,
    }
}

// Adds the journey of a reading over its trip, which was recorded at that moment.
#[tactic(auto, unfolding(crate::specs::Written::DeliveryTexts::journey_text))]
fn put_run(
    out: &mut Bytes,
    run: &TripRun<'_>,
    one: &DatedReading,
    recorded: &i64,
) -> Result<(), AllocError>
    requires trip { one.now.trip.0 < length run.now.table.now.trips }
    requires known { are_known (length run.now.table.now.stops) run.now.dated.stops.now ≡ true }
    requires fits { fits_trip (run_over run.now) one.now.reading ≡ true }
    requires moment { IsMoment recorded.now }
    ensures { OnOk result (out.new
        ≡ out.old ++ journey_text (seen run.now.table.now) recorded.now one.now (run_over run.now)) }
{
    put_opening(out, is_cancelled(&one.reading))?;
    put_calls(out, run, &one.reading)?;
    put_frame_ref(out, one.day, run.table.trip_id(one.trip))?;
    put_closing(out, run.table.route_of(one.trip), recorded)
}

// Adds the journey of a reading. One without a moment of recording has that of the delivery.
fn put_journey(
    out: &mut Bytes,
    context: &Context<'_>,
    one: &DatedReading,
    moment: Moment,
) -> Result<(), AllocError>
    requires { FitsSchedule context.now one.now.trip.0 one.now.day one.now.reading }
    ensures { OnOk result (out.new ≡ out.old ++ journey_text_on context.now moment one.now
        (run_on context.now one.now.trip.0 one.now.day)) }
{
    let _stops = context.table.stops_of(one.trip);
    let Some(dated) = context.dated(one.trip, one.day) else {
        unreachable!()
    };
    let run = TripRun {
        table: context.table,
        dated,
    };
    put_run(out, &run, one, &one.recorded.unwrap_or(moment).secs())
}

/// Adds the journeys of readings, and the bracket that closes them.
pub(crate) fn put_journeys(
    out: &mut Bytes,
    context: &Context<'_>,
    journeys: &[DatedReading],
    moment: Moment,
) -> Result<(), AllocError>
    requires { All (λ one. FitsSchedule context.now one.trip.0 one.day one.reading) journeys.now }
    ensures { OnOk result (out.new ≡ out.old ++ journeys_text false context.now moment journeys.now) }
{
    let mut later = false;
    for one in journeys {
        put_comma(out, later)?;
        put_journey(out, context, one, moment)?;
        later = true;
    }
    out.push(b']')
}
