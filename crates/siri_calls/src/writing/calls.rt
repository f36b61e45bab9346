//! The calls of a journey (SIRI 2.0, EstimatedCall), written. The functions meet `specs/Written/DeliveryTexts.antt`.
ghost use Rattle.std.specs.Prelude.{◌≡◌, ◌++◌, ◌+◌, ◌<◌, true, false, length, slice_get, Some, OnOk};
ghost use Rattle.gw_base.specs.Moments.{IsMoment};
ghost use Rattle.timetable.specs.Planned.{planned};
ghost use Rattle.timetable.specs.Stops.{are_known, is_timed};
ghost use Rattle.journey_model.specs.Places.{is_placed};
ghost use Rattle.journey_model.specs.Readings.{AreMoments, fits_trip, is_near};
ghost use Rattle.siri_calls.specs.Written.DeliveryTree as trees;
ghost use Rattle.siri_calls.specs.Written.DeliveryTree.{stop_readings};
ghost use Rattle.siri_calls.specs.Written.DeliveryTexts.{aimed_text, call_text, calls_text, said_text, stop_text, times_text};
ghost use Rattle.journey_model.specs.TripRuns.{run_over};

use gw_base::Bytes;
use journey_model::{JourneyReading, StopReading, TripRun};
use siri_json::{put_comma, put_moment, put_number, put_text};
use std::alloc::AllocError;
use timetable::{StopNo, StopRow};

// Adds an arrival and a departure, in seconds since 1970, each after what leads to it.
fn put_times(
    out: &mut Bytes,
    leads: (&[u8], &[u8]),
    arrival: &i64,
    departure: &i64,
) -> Result<(), AllocError>
    requires { IsMoment arrival.now × IsMoment departure.now }
    ensures { OnOk result (out.new ≡ out.old
        ++ times_text leads.entry.0.now leads.entry.1.now (arrival.now, departure.now)) }
{
    put_moment(out, leads.0, arrival)?;
    put_moment(out, leads.1, departure)
}

// Adds the planned times of a stop, with which its call begins.
fn put_aimed(out: &mut Bytes, times: &(i64, i64)) -> Result<(), AllocError>
    requires { IsMoment times.now.0 × IsMoment times.now.1 }
    ensures { OnOk result (out.new ≡ out.old ++ aimed_text times.now) }
{
    put_times(
        out,
        (b"{\"AimedArrivalTime\":", b",\"AimedDepartureTime\":"),
        &times.0,
        &times.1,
    )
}

// Adds how a stop reads.
fn put_said(out: &mut Bytes, reading: &StopReading) -> Result<(), AllocError>
    requires { AreMoments reading.now }
    ensures { OnOk result (out.new ≡ out.old ++ said_text reading.now) }
{
    match reading {
        StopReading::Absent => Ok(()),
        StopReading::Skipped => out.extend(b",\"Cancellation\":true"),
        StopReading::Timed {
            arrival,
            departure,
            ..
        } => put_times(
            out,
            (b",\"ExpectedArrivalTime\":", b",\"ExpectedDepartureTime\":"),
            arrival,
            departure,
        ),
    }
}

// Adds which stop of the trip it is, counted from 1, and the id of the stop at which the vehicle calls, with which the
// call ends.
fn put_stop(out: &mut Bytes, order: u64, id: &str) -> Result<(), AllocError>
    ensures { OnOk result (out.new ≡ out.old ++ stop_text order id.now) }
{
    put_number(out, b",\"Order\":", order)?;
    put_text(out, b",\"StopPointRef\":", id.as_bytes())?;
    out.push(b'}')
}

// The stop at which the vehicle calls.
fn called_at(row: &StopRow, reading: &StopReading) -> StopNo
    ensures { result.0 ≡ trees.called_at row.now reading.now }
{
    match reading {
        StopReading::Absent | StopReading::Skipped => row.stop,
        StopReading::Timed { place, .. } => *place,
    }
}

// Adds the call at a stop, counted from 1.
#[tactic(auto, using(journey_model::proofs::NearLemmas::are_moments))]
fn put_call(
    out: &mut Bytes,
    run: &TripRun<'_>,
    order: u64,
    row: &StopRow,
    reading: &StopReading,
) -> Result<(), AllocError>
    requires timed { is_timed row.now ≡ true }
    requires known { row.now.stop.0 < length run.now.table.now.stops }
    requires near { is_near (planned run.now.dated.start row.now) reading.now ≡ true }
    requires placed { is_placed (run_over run.now) row.now reading.now ≡ true }
    ensures { OnOk result (out.new ≡ out.old ++ call_text (run_over run.now) order row.now reading.now) }
{
    put_aimed(out, &run.dated.planned_times(row))?;
    put_said(out, reading)?;
    put_stop(out, order, run.table.stop_id(called_at(row, reading)))
}

// How a stop of a trip reads by its position.
fn reading_at(run: &TripRun<'_>, reading: &JourneyReading, position: usize) -> StopReading
    requires fits { fits_trip (run_over run.now) reading.now ≡ true }
    requires within { position < length run.now.dated.stops.now }
    ensures { slice_get (stop_readings (run_over run.now) reading.now) position ≡ Some result }
{
    match reading {
        JourneyReading::Cancelled => StopReading::Skipped,
        JourneyReading::Stops(readings) => readings.as_slice()[position],
    }
}

/// Adds the calls at all stops of a trip, and the bracket that closes them.
pub(crate) fn put_calls(
    out: &mut Bytes,
    run: &TripRun<'_>,
    reading: &JourneyReading,
) -> Result<(), AllocError>
    requires known { are_known (length run.now.table.now.stops) run.now.dated.stops.now ≡ true }
    requires fits { fits_trip (run_over run.now) reading.now ≡ true }
    ensures { OnOk result (out.new ≡ out.old ++ calls_text false (run_over run.now) 1 run.now.dated.stops.now
        (stop_readings (run_over run.now) reading.now)) }
{
    for position in 0..run.dated.stops.len() {
        let reading = reading_at(run, reading, position);
        put_comma(out, position > 0)?;
        put_call(
            out,
            run,
            position as u64 + 1,
            &run.dated.stops[position],
            &reading,
        )?;
    }
    out.push(b']')
}
