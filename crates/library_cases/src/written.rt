//! Journeys that are read and written again as a delivery.
ghost use Rattle.std.specs.Prelude.{◌≡◌, IfSome};
ghost use Rattle.std.specs.Option.{ForSome};
ghost use Rattle.journey_model.specs.Schedules.{Schedule};
ghost use Rattle.siri_calls.specs.Deliveries.{AreServable, CanServe};
ghost use Rattle.siri_calls.specs.Servable.{IsServable};

use crate::pieces::Trouble;
use crate::printing::add_bytes;
use gw_base::{Bytes, Moment};
use journey_model::{Context, DatedReading, JourneyRecord};
use service_day::read_utc;
use siri_calls::{Delivery, Item, read_delivery, write_delivery};
use std::alloc::{AllocError, Global};

// The record of an item, if it is taken.
fn taken(item: Item) -> Option<JourneyRecord>
    ensures { (schedule : Schedule) → CanServe schedule item → IfSome result (IsServable schedule) }
{
    match item {
        Item::Taken(record) => Some(record),
        Item::Aside(_) => None,
    }
}

// The record of the last item of a delivery.
fn last_record(delivery: Delivery) -> Option<JourneyRecord>
    ensures { (schedule : Schedule) → AreServable schedule delivery.items → IfSome result (IsServable schedule) }
{
    let mut items = delivery.items.into_vec();
    match items.pop() {
        Some(item) => taken(item),
        None => None,
    }
}

// What is written of a record. One that was recorded in 1970 has no moment of recording.
fn dated(one: JourneyRecord) -> DatedReading
    ensures same { (result.trip ≡ one.trip) × (result.day ≡ one.day) × (result.reading ≡ one.reading) }
{
    let recorded = match one.at.secs {
        0 => None,
        secs => Moment::new(secs),
    };
    DatedReading {
        trip: one.trip,
        day: one.day,
        recorded,
        reading: one.reading,
    }
}

// The delivery of a record, or of none.
fn written(
    alloc: Global,
    context: &Context<'_>,
    one: Option<JourneyRecord>,
    moment: Moment,
) -> Result<Bytes, AllocError>
    requires { ForSome one (IsServable context.now) }
{
    match one {
        None => write_delivery(alloc, context, &[], moment),
        Some(one) => write_delivery(alloc, context, &[dated(one)], moment),
    }
}

// What is written of a delivery.
fn written_of(
    alloc: Global,
    context: &Context<'_>,
    delivery: Delivery,
    moment: Moment,
) -> Result<Bytes, AllocError>
    requires { AreServable context.now delivery.items }
{
    written(alloc, context, last_record(delivery), moment)
}

// What is written of what is read.
fn written_again(
    alloc: Global,
    context: &Context<'_>,
    body: &[u8],
    moment: Moment,
) -> Result<Bytes, Trouble> {
    match read_delivery(alloc, body, context) {
        Ok(delivery) => Ok(written_of(alloc, context, delivery, moment)?),
        Err(_) => Err(Trouble::Form),
    }
}

/// Adds the delivery of a body's last journey at a moment.
pub fn add_written(
    alloc: Global,
    context: &Context<'_>,
    moment: &str,
    body: &[u8],
    into: &mut String,
) -> Result<(), Trouble> {
    let Some(moment) = moment_of(moment) else {
        return Err(Trouble::Form);
    };
    let text = written_again(alloc, context, body, moment)?;
    Ok(add_bytes(alloc, text.as_slice(), into)?)
}

fn moment_of(text: &str) -> Option<Moment> {
    Moment::new(read_utc(text)?)
}
