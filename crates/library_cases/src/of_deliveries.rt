//! Deliveries of estimated timetables: each journey as it is read, or its fault, or that of the delivery.
use crate::pieces::Trouble;
use crate::shown::{add_line, push_day};
use gw_base::Member;
use journey_model::{Context, Fault, JourneyReading, JourneyRecord, StopReading, fault_text};
use siri_calls::{Delivery, DeliveryFault, Item, read_delivery};
use std::alloc::{AllocError, Global};
use timetable::{StopNo, StopRow, Timetable, TripNo};

// What a body says. Its clauses are in no caller's goals.
fn read(alloc: Global, body: &[u8], context: &Context<'_>) -> Result<Delivery, DeliveryFault> {
    read_delivery(alloc, body, context)
}

/// Adds what a delivery says.
pub fn add_delivery(
    alloc: Global,
    context: &Context<'_>,
    body: &[u8],
    into: &mut String,
) -> Result<(), Trouble> {
    match read(alloc, body, context) {
        Ok(delivery) => Ok(add_items(alloc, context.table, &delivery, into)?),
        Err(fault) => Ok(add_refusal(fault, into)?),
    }
}

/// Adds why a delivery is refused.
pub fn add_refusal(fault: DeliveryFault, into: &mut String) -> Result<(), AllocError> {
    match fault {
        DeliveryFault::NotJson => add_line("NotJson", into),
        DeliveryFault::NotDelivery(member) => add_member(member, into),
        DeliveryFault::Memory => Err(AllocError),
    }
}

fn add_member(member: Member, into: &mut String) -> Result<(), AllocError> {
    into.push_str("NotDelivery ")?;
    add_line(member.name(), into)
}

/// Adds the fault of an item that is set aside.
pub fn add_aside(fault: &Fault, into: &mut String) -> Result<(), AllocError> {
    into.push_str("aside ")?;
    add_line(fault_text(fault).as_str(), into)
}

/// Adds how many parts were passed over.
pub fn add_passed(alloc: Global, passed: u64, into: &mut String) -> Result<(), AllocError> {
    let line = format!(in alloc; "passed {passed}")?;
    add_line(line.as_str(), into)
}

/// The id of a trip.
pub fn trip_name(table: &Timetable, trip: TripNo) -> &str {
    if trip.0 < table.trips() {
        table.trip_id(trip)
    } else {
        "no trip"
    }
}

fn add_items(
    alloc: Global,
    table: &Timetable,
    delivery: &Delivery,
    into: &mut String,
) -> Result<(), AllocError> {
    for item in delivery.items.as_slice() {
        match item {
            Item::Taken(record) => add_record(alloc, table, record, into)?,
            Item::Aside(fault) => add_aside(fault, into)?,
        }
    }
    add_passed(alloc, delivery.passed, into)
}

// Adds a record: its trip, its day, when it was recorded, and how the journey reads.
fn add_record(
    alloc: Global,
    table: &Timetable,
    record: &JourneyRecord,
    into: &mut String,
) -> Result<(), AllocError> {
    into.push_str("taken ")?;
    into.push_str(trip_name(table, record.trip))?;
    into.push_str(" ")?;
    push_day(record.day, into)?;
    let at = format!(in alloc; " {}.{}", record.at.secs, record.at.nanos)?;
    into.push_str(at.as_str())?;
    push_reading(alloc, rows_of(table, record.trip), &record.reading, into)?;
    into.push_str("\n")
}

// The scheduled stops of a trip.
fn rows_of(table: &Timetable, trip: TripNo) -> &[StopRow] {
    if trip.0 < table.trips() {
        table.stops_of(trip)
    } else {
        &[]
    }
}

fn push_reading(
    alloc: Global,
    rows: &[StopRow],
    reading: &JourneyReading,
    into: &mut String,
) -> Result<(), AllocError> {
    match reading {
        JourneyReading::Cancelled => into.push_str(" cancelled"),
        JourneyReading::Stops(stops) => push_stops(alloc, rows, stops.as_slice(), into),
    }
}

fn push_stops(
    alloc: Global,
    rows: &[StopRow],
    stops: &[StopReading],
    into: &mut String,
) -> Result<(), AllocError> {
    for (index, stop) in stops.iter().enumerate() {
        push_stop(alloc, rows.get(index), stop, into)?;
    }
    Ok(())
}

fn push_stop(
    alloc: Global,
    row: Option<&StopRow>,
    stop: &StopReading,
    into: &mut String,
) -> Result<(), AllocError> {
    match stop {
        StopReading::Absent => into.push_str(" -"),
        StopReading::Skipped => into.push_str(" x"),
        StopReading::Timed {
            arrival,
            departure,
            place,
        } => {
            let times = format!(in alloc; " {arrival}/{departure}")?;
            into.push_str(times.as_str())?;
            push_place(alloc, row, *place, into)
        }
    }
}

// Adds a place, where it isn't the scheduled stop.
fn push_place(
    alloc: Global,
    row: Option<&StopRow>,
    place: StopNo,
    into: &mut String,
) -> Result<(), AllocError> {
    match row {
        Some(row) if row.stop.0 == place.0 => Ok(()),
        _ => {
            let at = format!(in alloc; "@{}", place.0)?;
            into.push_str(at.as_str())
        }
    }
}
