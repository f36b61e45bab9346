//! Deliveries of situations: each situation as it is read, or its fault, or that of the delivery.
use crate::of_deliveries::{add_aside, add_passed, add_refusal, trip_name};
use crate::pieces::Trouble;
use crate::shown::{add_line, push_day};
use gw_base::Text;
use journey_model::{Context, Ref, Situation, ValidPeriod};
use service_day::Day;
use siri_calls::DeliveryFault;
use siri_situations::{Item, SituationDelivery, read_situations};
use std::alloc::{AllocError, Global};
use timetable::{Timetable, TripNo};

// What a body says. Its clauses are in no caller's goals.
fn read(
    alloc: Global,
    body: &[u8],
    context: &Context<'_>,
) -> Result<SituationDelivery, DeliveryFault> {
    read_situations(alloc, body, context)
}

/// Adds what a delivery says.
pub fn add_situations(
    alloc: Global,
    context: &Context<'_>,
    body: &[u8],
    into: &mut String,
) -> Result<(), Trouble> {
    match read(alloc, body, context) {
        Ok(delivery) => Ok(add_items(alloc, context.table, &delivery, into)?),
        Err(fault) => Ok(add_refusal(fault, into)?),
    }
}

fn add_items(
    alloc: Global,
    table: &Timetable,
    delivery: &SituationDelivery,
    into: &mut String,
) -> Result<(), AllocError> {
    for item in delivery.items.as_slice() {
        match item {
            Item::Taken(one) => add_situation(alloc, table, one, into)?,
            Item::Aside(fault) => add_aside(fault, into)?,
        }
    }
    add_passed(alloc, delivery.passed, into)
}

// Adds the lines of a situation.
fn add_situation(
    alloc: Global,
    table: &Timetable,
    one: &Situation,
    into: &mut String,
) -> Result<(), AllocError> {
    into.push_str("taken ")?;
    into.push_str(one.number.as_str())?;
    add_numbers(alloc, one, into)?;
    add_periods(alloc, one.periods.as_slice(), into)?;
    add_refs(alloc, table, one.refs.as_slice(), into)?;
    add_words("summary ", &one.summary, into)?;
    add_words("description ", &one.description, into)
}

fn add_numbers(alloc: Global, one: &Situation, into: &mut String) -> Result<(), AllocError> {
    let rest = format!(in alloc;
        " version {} cause {} effect {}",
        one.version, one.cause, one.effect
    )?;
    add_line(rest.as_str(), into)?;
    if one.served {
        return Ok(());
    }
    add_line("not served", into)
}

fn add_periods(
    alloc: Global,
    periods: &[ValidPeriod],
    into: &mut String,
) -> Result<(), AllocError> {
    for period in periods {
        into.push_str("from ")?;
        push_end(alloc, period.start, into)?;
        into.push_str(" to ")?;
        push_end(alloc, period.end, into)?;
        into.push_str("\n")?;
    }
    Ok(())
}

fn push_end(alloc: Global, end: Option<u64>, into: &mut String) -> Result<(), AllocError> {
    let Some(end) = end else {
        return into.push_str("-");
    };
    let digits = format!(in alloc; "{end}")?;
    into.push_str(digits.as_str())
}

fn add_refs(
    alloc: Global,
    table: &Timetable,
    refs: &[Ref],
    into: &mut String,
) -> Result<(), AllocError> {
    for one in refs {
        match one {
            Ref::Route(route) => add_number(alloc, "route", route.0, into)?,
            Ref::Stop(stop) => add_number(alloc, "stop", stop.0, into)?,
            Ref::Journey(trip, day) => add_journey(table, *trip, *day, into)?,
        }
    }
    Ok(())
}

fn add_number(alloc: Global, name: &str, number: u32, into: &mut String) -> Result<(), AllocError> {
    let line = format!(in alloc; "{name} {number}")?;
    add_line(line.as_str(), into)
}

fn add_journey(
    table: &Timetable,
    trip: TripNo,
    day: Day,
    into: &mut String,
) -> Result<(), AllocError> {
    into.push_str("trip ")?;
    into.push_str(trip_name(table, trip))?;
    into.push_str(" on ")?;
    push_day(day, into)?;
    into.push_str("\n")
}

fn add_words(mark: &str, words: &Option<Text>, into: &mut String) -> Result<(), AllocError> {
    match words {
        Some(words) => {
            into.push_str(mark)?;
            add_line(words.as_str(), into)
        }
        None => Ok(()),
    }
}
