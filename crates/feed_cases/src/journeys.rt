//! What feeds say of journeys over the sample folder: the readings, the lines of `show`, and the delivery.
use crate::printing::{add_line, add_number, add_other, add_reported, add_text};
use gw_base::{Bytes, Entity, Feed, FeedHead, List, Moment};
use journey_model::{Context, DatedReading, JourneyReading, Report, StopReading};
use propagation::{FeedReading, ReadingFold, readings_of};
use reverse_calls::{ReadingsFault, ReverseFault, siri_of, siri_of_readings};
use service_day::day_text;
use show_command::show_lines;
use std::alloc::{AllocError, Global};
use timetable::{StopNo, StopRow, Timetable, TripNo};

// The id of a trip.
fn trip_name(table: &Timetable, trip: TripNo) -> &str {
    if trip.0 < table.trips() {
        table.trip_id(trip)
    } else {
        "no trip"
    }
}

// The scheduled stops of a trip.
fn rows_of(table: &Timetable, trip: TripNo) -> &[StopRow] {
    if trip.0 < table.trips() {
        table.stops_of(trip)
    } else {
        &[]
    }
}

// Adds a place, where it isn't the scheduled stop.
fn push_place(
    alloc: Global,
    row: Option<&StopRow>,
    place: StopNo,
    into: &mut String,
) -> Result<(), AllocError> {
    match row {
        Some(row) if row.stop.0 == place.0 => Ok(()),
        _ => {
            let at = format!(in alloc; "@{}", place.0)?;
            into.push_str(at.as_str())
        }
    }
}

fn push_stop(
    alloc: Global,
    row: Option<&StopRow>,
    stop: &StopReading,
    into: &mut String,
) -> Result<(), AllocError> {
    match stop {
        StopReading::Absent => into.push_str(" -"),
        StopReading::Skipped => into.push_str(" x"),
        StopReading::Timed {
            arrival,
            departure,
            place,
        } => {
            let times = format!(in alloc; " {arrival}/{departure}")?;
            into.push_str(times.as_str())?;
            push_place(alloc, row, *place, into)
        }
    }
}

fn push_stops(
    alloc: Global,
    rows: &[StopRow],
    stops: &[StopReading],
    into: &mut String,
) -> Result<(), AllocError> {
    for (index, stop) in stops.iter().enumerate() {
        push_stop(alloc, rows.get(index), stop, into)?;
    }
    Ok(())
}

fn push_reading(
    alloc: Global,
    rows: &[StopRow],
    reading: &JourneyReading,
    into: &mut String,
) -> Result<(), AllocError> {
    match reading {
        JourneyReading::Cancelled => into.push_str(" cancelled"),
        JourneyReading::Stops(stops) => push_stops(alloc, rows, stops.as_slice(), into),
    }
}

// Adds when a journey was recorded.
fn push_recorded(
    alloc: Global,
    recorded: Option<Moment>,
    into: &mut String,
) -> Result<(), AllocError> {
    match recorded {
        Some(moment) => {
            let secs = format!(in alloc; " {}", moment.secs())?;
            into.push_str(secs.as_str())
        }
        None => into.push_str(" -"),
    }
}

// Adds the line of a journey: its trip, its day, when it was recorded, and how it reads.
fn add_journey(
    alloc: Global,
    table: &Timetable,
    one: &DatedReading,
    into: &mut String,
) -> Result<(), AllocError> {
    into.push_str(trip_name(table, one.trip))?;
    into.push_str(" ")?;
    into.push_str(str::from_utf8(&day_text(one.day)).unwrap_or("no day"))?;
    push_recorded(alloc, one.recorded, into)?;
    push_reading(alloc, rows_of(table, one.trip), &one.reading, into)?;
    into.push_str("\n")
}

// The lines of what a feed says.
fn lines_of(alloc: Global, table: &Timetable, found: FeedReading) -> Result<String, AllocError> {
    let mut lines = String::new(alloc);
    for one in found.journeys.as_slice() {
        add_journey(alloc, table, one, &mut lines)?;
    }
    add_reported(alloc, &found.report, &mut lines)?;
    Ok(lines)
}

// What a feed says. Its clauses are in no caller's goals.
fn read(alloc: Global, context: &Context<'_>, feed: &Feed) -> Result<FeedReading, AllocError> {
    readings_of(alloc, feed, context)
}

// What its entities say, one by one, where its header comes last.
fn read_apart(
    context: &Context<'_>,
    mut fold: ReadingFold,
    entities: List<Entity>,
    head: &FeedHead,
) -> Result<FeedReading, AllocError> {
    let mut index = 0_u64;
    for entity in entities.into_vec() {
        fold.add(context, index, entity)?;
        index = index.saturating_add(1);
    }
    fold.finish(context, head)
}

/// Adds what a feed says of journeys; and what its entities say one by one, where it isn't the same.
pub fn add_readings(
    alloc: Global,
    context: &Context<'_>,
    feed: Feed,
    into: &mut String,
) -> Result<(), AllocError> {
    let whole = lines_of(alloc, context.table, read(alloc, context, &feed)?)?;
    into.push_str(whole.as_str())?;
    let head = FeedHead {
        version: feed.version,
        incrementality: feed.incrementality,
        timestamp: feed.timestamp,
    };
    let found = read_apart(context, ReadingFold::make(alloc), feed.entities, &head)?;
    let apart = lines_of(alloc, context.table, found)?;
    add_other("apart", apart.as_str(), whole.as_str(), into)
}

// What `show` prints of a feed.
fn shown(alloc: Global, context: &Context<'_>, feed: &Feed) -> Result<Bytes, AllocError> {
    let reading = readings_of(alloc, feed, context)?;
    show_lines(alloc, context, &reading)
}

/// Adds the lines of `show`.
pub fn add_show(
    alloc: Global,
    context: &Context<'_>,
    feed: &Feed,
    into: &mut String,
) -> Result<(), AllocError> {
    add_text(alloc, shown(alloc, context, feed)?.as_slice(), into)
}

// The delivery of a feed's readings.
fn delivery_of_readings(
    alloc: Global,
    context: &Context<'_>,
    moment: Moment,
    feed: &Feed,
) -> Result<Bytes, AllocError> {
    let reading = readings_of(alloc, feed, context)?;
    match siri_of_readings(alloc, context, &reading, moment) {
        Ok(text) => Ok(text),
        Err(ReadingsFault::TooManyCalls(_)) => Ok(Bytes::new(alloc)),
        Err(ReadingsFault::Memory) => Err(AllocError),
    }
}

// Adds a delivery and its report.
fn add_delivered(
    alloc: Global,
    text: &[u8],
    report: &Report,
    into: &mut String,
) -> Result<(), AllocError> {
    add_reported(alloc, report, into)?;
    add_text(alloc, text, into)?;
    into.push_str("\n")
}

// Adds whether another delivery isn't the same.
fn add_again(one: &[u8], again: &[u8], into: &mut String) -> Result<(), AllocError> {
    if one == again {
        return Ok(());
    }
    add_line("of readings another", into)
}

/// Adds the delivery of a feed, and its report.
pub fn add_delivery(
    alloc: Global,
    context: &Context<'_>,
    moment: Moment,
    feed: &Feed,
    into: &mut String,
) -> Result<(), AllocError> {
    match siri_of(alloc, feed, context, moment) {
        Ok((text, report)) => {
            add_delivered(alloc, text.as_slice(), &report, into)?;
            let again = delivery_of_readings(alloc, context, moment, feed)?;
            add_again(text.as_slice(), again.as_slice(), into)
        }
        Err(ReverseFault::TooManyCalls(count)) => add_number(alloc, "TooManyCalls", count, into),
        Err(ReverseFault::Differential) => add_line("Differential", into),
        Err(ReverseFault::Memory) => Err(AllocError),
    }
}
