//! The lines of a journey: one where it is cancelled, and else one for each of its stops.
ghost use Rattle.std.specs.Prelude.{◌≡◌, ◌++◌, ◌<◌, OnOk, IfOk, All, length, true};
ghost use Rattle.std.specs.List.{zip};
ghost use Rattle.gw_base.specs.Moments.{IsMoment};
ghost use Rattle.timetable.specs.Stops.{are_known};
ghost use Rattle.journey_model.specs.Readings.{AreMoments};
ghost use Rattle.show_command.specs.Lines as spec;

use gw_base::Bytes;
use itoa::Buffer;
use journey_model::StopReading;
use service_day::{Day, day_text, write_moment};
use std::alloc::{AllocError, Global};
use timetable::{StopRow, Timetable};

/// The words for a journey: its service day and the id of its trip.
pub(crate) fn journey_name(alloc: Global, day: Day, trip_id: &str) -> Result<Bytes, AllocError>
    ensures { IfOk result (λ name. name ≡ spec.journey_name day trip_id.now) }
{
    let mut name = Bytes::new(alloc);
    name.extend(&day_text(day))?;
    name.extend(b" ")?;
    name.extend(trip_id.as_bytes())?;
    Ok(name)
}

/// Adds the line of a cancelled journey.
pub(crate) fn add_cancelled(lines: &mut Bytes, name: &[u8]) -> Result<(), AllocError>
    ensures { OnOk result (lines.new ≡ lines.old ++ spec.cancelled_line name.now) }
{
    lines.extend(name)?;
    lines.extend(b" cancelled\n")
}

// Adds the times of a stop.
fn add_times(lines: &mut Bytes, arrival: &i64, departure: &i64) -> Result<(), AllocError>
    requires arrival { IsMoment arrival.now }
    requires departure { IsMoment departure.now }
    ensures { OnOk result (lines.new ≡ lines.old ++ spec.times_text arrival.now departure.now) }
{
    lines.extend(&write_moment(*arrival))?;
    lines.extend(b" ")?;
    lines.extend(&write_moment(*departure))
}

// Adds the words for how a stop reads; the stop is shown as scheduled, whatever its place.
fn add_reading(lines: &mut Bytes, reading: &StopReading) -> Result<(), AllocError>
    requires { AreMoments reading.now }
    ensures { OnOk result (lines.new ≡ lines.old ++ spec.reading_text reading.now) }
{
    match reading {
        StopReading::Absent => lines.extend(b"absent"),
        StopReading::Skipped => lines.extend(b"skipped"),
        StopReading::Timed {
            arrival,
            departure,
            ..
        } => add_times(lines, arrival, departure),
    }
}

// Adds the line of the stop of that number.
fn add_stop(
    lines: &mut Bytes,
    name: &[u8],
    number: u64,
    stop_id: &str,
    reading: &StopReading,
) -> Result<(), AllocError>
    requires { AreMoments reading.now }
    ensures { OnOk result
        (lines.new ≡ lines.old ++ spec.stop_line name.now number stop_id.now reading.now) }
{
    let mut digits = Buffer::new();
    lines.extend(name)?;
    lines.extend(b" ")?;
    lines.extend(digits.format(number).as_bytes())?;
    lines.extend(b" ")?;
    lines.extend(stop_id.as_bytes())?;
    lines.extend(b" ")?;
    add_reading(lines, reading)?;
    lines.extend(b"\n")
}

/// Adds the lines of the stops of a trip with how they read.
pub(crate) fn add_stops(
    lines: &mut Bytes,
    table: &Timetable,
    name: &[u8],
    stops: &[StopRow],
    readings: &[StopReading],
) -> Result<(), AllocError>
    requires each { length readings.now ≡ length stops.now }
    requires known { are_known (length table.now.stops) stops.now ≡ true }
    requires moments { All AreMoments readings.now }
    ensures { OnOk result
        (lines.new ≡ lines.old
        ++ spec.stop_lines table.now.stops name.now (zip stops.now readings.now)) }
{
    for (position, stop) in stops.iter().enumerate() {
        let stop_id = table.stop_id(stop.stop);
        add_stop(
            lines,
            name,
            position as u64 + 1,
            stop_id,
            &readings[position],
        )?;
    }
    Ok(())
}
