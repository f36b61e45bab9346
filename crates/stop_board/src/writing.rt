//! The delivery that shows visits (SIRI 2.0, StopMonitoringDelivery), written. The functions meet
//! `specs/BoardTexts.antt`.
ghost use Rattle.std.specs.Prelude.{◌≡◌, ◌++◌, ◌+◌, ◌<◌, true, false, length, slice_get, All, Some, IfOk, OnOk};
ghost use Rattle.gw_base.specs.Moments.{IsMoment};
ghost use Rattle.timetable.specs.Planned.{planned};
ghost use Rattle.timetable.specs.Seen.{seen};
ghost use Rattle.timetable.specs.Stops.{is_timed};
ghost use Rattle.journey_model.specs.Readings.{is_near};
ghost use Rattle.journey_model.specs.Schedules.{run_on};
ghost use Rattle.journey_model.specs.TripRuns.{run_over};
ghost use Rattle.journey_model.specs.declared.readings.StopReading.TheVariants.{Timed};
ghost use Rattle.siri_calls.specs.Written.DeliveryTexts.{aimed_text, call_text, stop_text, times_text};
ghost use Rattle.stop_board.specs.BoardTexts as texts;
ghost use Rattle.stop_board.specs.BoardTree.{board_text};
ghost use Rattle.stop_board.specs.Boards.{IsCall, IsVisit};

use crate::visits::Visit;
use gw_base::{Bytes, List, Moment};
use journey_model::{Context, TripRun};
use service_day::{Day, day_text};
use siri_json::{put_comma, put_moment, put_number, put_text};
use std::alloc::{AllocError, Global};
use timetable::{StopNo, StopRow};

// Adds the trip and the service day of a visit, with which it begins.
fn put_ref(out: &mut Bytes, day: Day, trip_id: &str) -> Result<(), AllocError>
    ensures { OnOk result (out.new ≡ out.old ++ texts.ref_text day trip_id.now) }
{
    put_text(
        out,
        b"{\"MonitoredVehicleJourney\":{\"FramedVehicleJourneyRef\":{\"DataFrameRef\":",
        &day_text(day),
    )?;
    put_text(out, b",\"DatedVehicleJourneyRef\":", trip_id.as_bytes())
}

// Adds the route of a visit, and what leads to its call.
fn put_line(out: &mut Bytes, route_id: &str) -> Result<(), AllocError>
    ensures { OnOk result (out.new ≡ out.old ++ texts.line_text route_id.now) }
{
    put_text(out, b"},\"LineRef\":", route_id.as_bytes())?;
    out.extend(b",\"MonitoredCall\":")
}

// Adds an arrival and a departure, in seconds since 1970, each after what leads to it.
fn put_times(
    out: &mut Bytes,
    leads: (&[u8], &[u8]),
    arrival: &i64,
    departure: &i64,
) -> Result<(), AllocError>
    requires { IsMoment arrival.now × IsMoment departure.now }
    ensures { OnOk result (out.new ≡ out.old
        ++ times_text leads.entry.0.now leads.entry.1.now (arrival.now, departure.now)) }
{
    put_moment(out, leads.0, arrival)?;
    put_moment(out, leads.1, departure)
}

// Adds the planned times of a stop, with which its call begins.
fn put_aimed(out: &mut Bytes, times: &(i64, i64)) -> Result<(), AllocError>
    requires { IsMoment times.now.0 × IsMoment times.now.1 }
    ensures { OnOk result (out.new ≡ out.old ++ aimed_text times.now) }
{
    put_times(
        out,
        (b"{\"AimedArrivalTime\":", b",\"AimedDepartureTime\":"),
        &times.0,
        &times.1,
    )
}

// Adds which stop of the trip it is, counted from 1, and the id of the stop, with which a call ends.
fn put_stop(out: &mut Bytes, order: u64, id: &str) -> Result<(), AllocError>
    ensures { OnOk result (out.new ≡ out.old ++ stop_text order id.now) }
{
    put_number(out, b",\"Order\":", order)?;
    put_text(out, b",\"StopPointRef\":", id.as_bytes())?;
    out.push(b'}')
}

// Adds the call of a visit at the stop of that row.
fn put_call(
    out: &mut Bytes,
    run: &TripRun<'_>,
    stop: StopNo,
    visit: &Visit,
    row: &StopRow,
) -> Result<(), AllocError>
    requires stop { stop.0 < length run.now.table.now.stops }
    requires within { visit.now.position < length run.now.dated.stops.now }
    requires timed { is_timed row.now ≡ true }
    requires near { is_near (planned run.now.dated.start row.now)
        (Timed visit.now.arrival visit.now.departure stop) ≡ true }
    ensures { OnOk result (out.new ≡ out.old
        ++ call_text (run_over run.now) (visit.now.position + 1) row.now
        (Timed visit.now.arrival visit.now.departure stop)) }
{
    put_aimed(out, &run.dated.planned_times(row))?;
    put_times(
        out,
        (b",\"ExpectedArrivalTime\":", b",\"ExpectedDepartureTime\":"),
        &visit.arrival,
        &visit.departure,
    )?;
    put_stop(out, visit.position as u64 + 1, run.table.stop_id(stop))
}

// Adds when the journey of a visit was recorded.
fn put_recorded(out: &mut Bytes, recorded: Moment) -> Result<(), AllocError>
    ensures { OnOk result (out.new ≡ out.old ++ texts.recorded_text recorded) }
{
    put_moment(out, b",\"RecordedAtTime\":", &recorded.secs())
}

// Adds what follows the call of a visit: the stop of the board, and when the journey was recorded.
fn put_end(out: &mut Bytes, stop_id: &str, recorded: Moment) -> Result<(), AllocError>
    ensures { OnOk result (out.new ≡ out.old ++ texts.end_text stop_id.now recorded) }
{
    put_text(out, b"},\"MonitoringRef\":", stop_id.as_bytes())?;
    put_recorded(out, recorded)?;
    out.push(b'}')
}

// Adds a visit at the stop of that row of its trip on its day.
fn put_at(
    out: &mut Bytes,
    run: &TripRun<'_>,
    stop: StopNo,
    visit: &Visit,
    row: &StopRow,
) -> Result<(), AllocError>
    requires trip { visit.now.trip.0 < length run.now.table.now.trips }
    requires stop { stop.0 < length run.now.table.now.stops }
    requires within { visit.now.position < length run.now.dated.stops.now }
    requires timed { is_timed row.now ≡ true }
    requires near { is_near (planned run.now.dated.start row.now)
        (Timed visit.now.arrival visit.now.departure stop) ≡ true }
    ensures { OnOk result (out.new ≡ out.old
        ++ texts.visit_text (seen run.now.table.now) (run_over run.now) stop visit.now row.now) }
{
    put_ref(out, visit.day, run.table.trip_id(visit.trip))?;
    put_line(out, run.table.route_of(visit.trip))?;
    put_call(out, run, stop, visit, row)?;
    put_end(out, run.table.stop_id(stop), visit.recorded)
}

// Adds a visit over its trip on its day.
fn put_run(
    out: &mut Bytes,
    run: &TripRun<'_>,
    stop: StopNo,
    visit: &Visit,
) -> Result<(), AllocError>
    requires trip { visit.now.trip.0 < length run.now.table.now.trips }
    requires stop { stop.0 < length run.now.table.now.stops }
    requires call { IsCall (run_over run.now) stop visit.now }
    ensures { OnOk result (out.new ≡ out.old
        ++ texts.visit_text_at (seen run.now.table.now) (run_over run.now) stop visit.now
        (slice_get run.now.dated.stops.now visit.now.position)) }
{
    put_at(out, run, stop, visit, &run.dated.stops[visit.position])
}

// Adds a visit.
fn put_visit(
    out: &mut Bytes,
    context: &Context<'_>,
    stop: StopNo,
    visit: &Visit,
) -> Result<(), AllocError>
    requires stop { stop.0 < length context.now.table.stops }
    requires visit { IsVisit context.now stop visit.now }
    ensures { OnOk result (out.new ≡ out.old
        ++ texts.visit_text_on context.now.table stop visit.now
        (run_on context.now visit.now.trip.0 visit.now.day)) }
{
    let Some(dated) = context.dated(visit.trip, visit.day) else {
        unreachable!()
    };
    let run = TripRun {
        table: context.table,
        dated,
    };
    put_run(out, &run, stop, visit)
}

// Adds visits, and the bracket that closes them.
fn put_visits(
    out: &mut Bytes,
    context: &Context<'_>,
    stop: StopNo,
    visits: &[Visit],
) -> Result<(), AllocError>
    requires stop { stop.0 < length context.now.table.stops }
    requires visits { All (IsVisit context.now stop) visits.now }
    ensures { OnOk result (out.new ≡ out.old
        ++ texts.visits_text false context.now stop visits.now) }
{
    let mut later = false;
    for visit in visits {
        put_comma(out, later)?;
        put_visit(out, context, stop, visit)?;
        later = true;
    }
    out.push(b']')
}

// Adds a delivery at that second since 1970, up to its visits.
fn put_head(out: &mut Bytes, secs: &i64) -> Result<(), AllocError>
    requires { IsMoment secs.now }
    ensures { OnOk result (out.new ≡ out.old ++ texts.head_text secs.now) }
{
    put_moment(
        out,
        b"{\"Siri\":{\"ServiceDelivery\":{\"ResponseTimestamp\":",
        secs,
    )?;
    out.extend(b",\"StopMonitoringDelivery\":[{\"MonitoredStopVisit\":[")
}

// Adds the end of a delivery at that second since 1970, after its visits.
fn put_tail(out: &mut Bytes, secs: &i64) -> Result<(), AllocError>
    requires { IsMoment secs.now }
    ensures { OnOk result (out.new ≡ out.old ++ texts.tail_text secs.now) }
{
    put_moment(out, b",\"ResponseTimestamp\":", secs)?;
    out.extend(b",\"version\":\"2.0\"}]}}}")
}

/// The delivery that shows these visits at a stop at that moment.
#[tactic(auto, using(crate::proofs::TextLemmas::board))]
pub(crate) fn write_board(
    alloc: Global,
    context: &Context<'_>,
    stop: StopNo,
    visits: &[Visit],
    moment: Moment,
) -> Result<Bytes, AllocError>
    requires stop { stop.0 < length context.now.table.stops }
    requires visits { All (IsVisit context.now stop) visits.now }
    ensures { IfOk result (λ text. text ≡ board_text context.now stop moment visits.now) }
{
    let mut out = List::new(alloc);
    put_head(&mut out, &moment.secs())?;
    put_visits(&mut out, context, stop, visits)?;
    put_tail(&mut out, &moment.secs())?;
    Ok(out)
}
