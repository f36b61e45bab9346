//! The lines of what a feed says.
ghost use Rattle.std.specs.Prelude.{◌≡◌, ◌++◌, OnOk, IfOk, All};
ghost use Rattle.std.specs.List.{flat_map};
ghost use Rattle.journey_model.specs.Schedules.{FitsSchedule};
ghost use Rattle.show_command.specs.Lines as spec;

use crate::stop_lines::{add_cancelled, add_stops, journey_name};
use gw_base::Bytes;
use journey_model::{Context, DatedReading, JourneyReading, StopReading, add_report};
use propagation::FeedReading;
use std::alloc::{AllocError, Global};

// Adds the lines of the stops of a journey that isn't cancelled.
fn add_running(
    lines: &mut Bytes,
    context: &Context<'_>,
    name: &[u8],
    one: &DatedReading,
    readings: &[StopReading],
) -> Result<(), AllocError>
    requires reading { one.now.reading ≡ JourneyReading.Stops readings.now }
    requires fits { FitsSchedule context.now
        one.now.trip.0 one.now.day one.now.reading }
    ensures { OnOk result (lines.new
        ≡ lines.old ++ spec.reading_lines context.now.table one.now.trip.0 name.now
        one.now.reading) }
{
    let Some(dated) = context.dated(one.trip, one.day) else {
        unreachable!();
    };
    add_stops(lines, context.table, name, dated.stops, readings)
}

// Adds the lines of a journey.
fn add_journey(
    alloc: Global,
    lines: &mut Bytes,
    context: &Context<'_>,
    one: &DatedReading,
) -> Result<(), AllocError>
    requires { FitsSchedule context.now one.now.trip.0 one.now.day one.now.reading }
    ensures { OnOk result
        (lines.new ≡ lines.old ++ spec.journey_lines context.now.table one.now) }
{
    let name = journey_name(alloc, one.day, context.table.trip_id(one.trip))?;
    let name = name.as_slice();
    match &one.reading {
        JourneyReading::Cancelled => add_cancelled(lines, name),
        JourneyReading::Stops(readings) => {
            add_running(lines, context, name, one, readings.as_slice())
        }
    }
}

// Adds the lines of journeys.
fn add_journeys(
    alloc: Global,
    lines: &mut Bytes,
    context: &Context<'_>,
    journeys: &[DatedReading],
) -> Result<(), AllocError>
    requires { All (λ one. FitsSchedule context.now one.trip.0 one.day one.reading)
        journeys.now }
    ensures { OnOk result
        (lines.new ≡ lines.old
        ++ flat_map (spec.journey_lines context.now.table) journeys.now) }
{
    for one in journeys {
        add_journey(alloc, lines, context, one)?;
    }
    Ok(())
}

/// What `show` prints of a feed that was read over that timetable, zone and window (GTFS Realtime reference, TripUpdate
/// and StopTimeUpdate), each line with LF: for each journey `DAY TRIP cancelled`, or for each of its stops, numbered
/// from 1, `DAY TRIP K STOP ARRIVAL DEPARTURE`, `DAY TRIP K STOP skipped` or `DAY TRIP K STOP absent`, days as
/// `YYYY-MM-DD` and times as `YYYY-MM-DDThh:mm:ssZ`; then `aside I FAULT` for each entity that was set aside; and last
/// `taken T passed P aside N`. Err for want of memory.
pub fn show_lines(
    alloc: Global,
    context: &Context<'_>,
    reading: &FeedReading,
) -> Result<Bytes, AllocError>
    requires { All (λ one. FitsSchedule context.now one.trip.0 one.day one.reading)
        reading.now.journeys }
    ensures { IfOk result (λ lines. lines ≡ spec.shown context.now reading.now) }
{
    let mut lines = Bytes::new(alloc);
    add_journeys(alloc, &mut lines, context, reading.journeys.as_slice())?;
    add_report(&mut lines, b"", &reading.report)?;
    Ok(lines)
}
