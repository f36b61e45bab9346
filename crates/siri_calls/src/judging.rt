//! What a journey is by its header and its calls. The functions meet `specs/Judged.antt`.
ghost use Rattle.std.specs.Prelude.{◌≡◌, ◌<◌, length, Ok, IfErr, IfOk};
ghost use Rattle.gw_base.specs.Chains.{ok_map};
ghost use Rattle.journey_model.specs.Records.{recorded};
ghost use Rattle.siri_calls.specs.Judged as spec;
ghost use Rattle.siri_calls.specs.Seen.{calls_of, header_of};
ghost use Rattle.siri_json.specs.Shown.{IsFaultOf};
ghost use Rattle.siri_calls.specs.Servable.{IsServable};
ghost use Rattle.journey_model.specs.TripRuns.{run_over};

use crate::calls::Call;
use crate::delays::delays_fault;
use crate::dense::dense_readings;
use crate::header::Header;
use crate::long_places::places_size;
use crate::matching_calls::placed_calls;
use journey_model::{Context, Fault, JourneyReading, JourneyRecord, TripRun, places_fault};
use service_day::Day;
use siri_json::ReadFault;
use std::alloc::Global;
use timetable::TripNo;

// The trip that a journey is of, unless it is an extra journey.
fn trip_named(context: &Context<'_>, head: &Header<'_>) -> Result<TripNo, Fault>
    ensures value { ok_map (λ trip. trip.0) result
        ≡ spec.trip_named context.now (header_of head.now) }
    ensures within { IfOk result (λ trip. trip.0 < length context.now.table.trips) }
{
    if head.extra {
        return Err(Fault::AddedJourney);
    }
    match context.table.find_trip(head.trip_id) {
        Some(trip) => Ok(trip),
        None => Err(Fault::UnknownJourney),
    }
}

// A trip on a day of the window on which it runs.
fn run_named<'a>(context: &Context<'a>, trip: TripNo, day: Day) -> Result<TripRun<'a>, Fault>
    requires { trip.0 < length context.now.table.trips }
    ensures { ok_map run_over result ≡ spec.run_named context.now trip.0 day }
{
    let Some(dated) = context.dated(trip, day) else {
        return Err(Fault::OutOfWindow);
    };
    if !context.table.runs(trip, day) {
        return Err(Fault::NotRunning);
    }
    Ok(TripRun {
        table: context.table,
        dated,
    })
}

// How the calls of a journey read its trip on its day.
fn stops_read(
    alloc: Global,
    run: &TripRun<'_>,
    calls: &[Option<Call<'_>>],
) -> Result<JourneyReading, ReadFault>
    ensures found { IfOk result (λ reading.
        spec.stops_read (run_over run.now) (calls_of calls.now) ≡ Ok reading) }
    ensures fault { IfErr result (IsFaultOf (spec.stops_read (run_over run.now) (calls_of calls.now))) }
{
    let placed = placed_calls(alloc, run, calls)?;
    if let Some(fault) = delays_fault(run, placed.as_slice()) {
        return Err(ReadFault::Aside(fault));
    }
    let readings = dense_readings(alloc, run, placed.as_slice())?;
    if let Some(fault) = places_fault(places_size(run, readings.as_slice())) {
        return Err(ReadFault::Aside(fault));
    }
    Ok(JourneyReading::Stops(readings))
}

// How a journey of a trip reads on its day.
fn trip_read(
    alloc: Global,
    context: &Context<'_>,
    trip: TripNo,
    head: &Header<'_>,
    calls: &[Option<Call<'_>>],
) -> Result<JourneyReading, ReadFault>
    requires { trip.0 < length context.now.table.trips }
    ensures found { IfOk result (λ reading.
        spec.trip_read context.now trip.0 (header_of head.now) (calls_of calls.now) ≡ Ok reading) }
    ensures fault { IfErr result (IsFaultOf
        (spec.trip_read context.now trip.0 (header_of head.now) (calls_of calls.now))) }
{
    match run_named(context, trip, head.day) {
        Ok(run) if !head.cancelled => stops_read(alloc, &run, calls),
        Ok(_) => Ok(JourneyReading::Cancelled),
        Err(fault) => Err(ReadFault::Aside(fault)),
    }
}

// The number of extra calls.
fn extras(calls: &[Option<Call<'_>>]) -> u64
    ensures { result ≡ spec.extras (calls_of calls.now) }
{
    let mut extras = 0;
    for call in calls {
        if call.is_none() {
            extras += 1;
        }
    }
    extras
}

/// What a journey is by its header and its calls, of which those that are None are extra ones (SIRI 2.0,
/// EstimatedVehicleJourney): its record with the number of its extra calls, or the first fault in this order. It is an
/// extra journey; no carried trip has its id; its day isn't in the window; the trip doesn't run on it; and, unless it
/// is cancelled: a call is of a stop that isn't known or of no station of the trip; a call is of no stop after the one
/// before; a time is over a week from the planned one; the ids of the places that aren't the scheduled stops are too
/// long in sum.
pub(crate) fn judged(
    alloc: Global,
    context: &Context<'_>,
    head: &Header<'_>,
    calls: &[Option<Call<'_>>],
) -> Result<(JourneyRecord, u64), ReadFault>
    ensures found { IfOk result (λ found.
        spec.judged context.now (header_of head.now) (calls_of calls.now)
        ≡ Ok (recorded found.0, found.1)) }
    ensures fault { IfErr result (IsFaultOf
        (spec.judged context.now (header_of head.now) (calls_of calls.now))) }
    ensures servable { IfOk result (λ found. IsServable context.now found.0) }
{
    let trip = trip_named(context, head)?;
    let reading = trip_read(alloc, context, trip, head, calls)?;
    let record = JourneyRecord {
        trip,
        day: head.day,
        at: head.at,
        reading,
    };
    Ok((record, extras(calls)))
}
