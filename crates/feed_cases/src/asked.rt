//! Questions, each answered by the library that it is asked of.
use crate::fields::{add_each_byte, add_field_fronts, add_fields};
use crate::journeys::{add_delivery, add_readings, add_show};
use crate::kinds::{BytesKind, FeedKind, FieldsKind, JourneysKind, SpelledKind};
use crate::printing::Trouble;
use crate::said::{add_fault, add_feed, add_feed_fronts};
use crate::situations::add_situations;
use crate::spelled::{add_header, add_varint};
use feed_messages::read_feed;
use gw_base::{Feed, Moment};
use journey_model::Context;
use std::alloc::{AllocError, Global};
use test_folder::{paris, sample, window};

/// Adds the lines of the answer to a number.
pub fn add_spelled(
    alloc: Global,
    kind: SpelledKind,
    text: &str,
    into: &mut String,
) -> Result<(), Trouble> {
    let Ok(number) = text.parse::<u64>() else {
        return Err(Trouble::Form);
    };
    match kind {
        SpelledKind::Varint => Ok(add_varint(alloc, number, into)?),
        SpelledKind::Header => Ok(add_header(alloc, number, into)?),
    }
}

/// Adds the lines of the answer to bytes, over so many days.
pub fn add_answer(
    alloc: Global,
    kind: BytesKind,
    days: u8,
    bytes: &[u8],
    into: &mut String,
) -> Result<(), Trouble> {
    match kind {
        BytesKind::Fields(kind) => Ok(of_fields(alloc, kind, bytes, into)?),
        BytesKind::Feed(kind) => Ok(of_feed(alloc, kind, bytes, into)?),
        BytesKind::Journeys(kind) => match feed_of(alloc, bytes, into)? {
            Some(feed) => of_journeys(alloc, kind, days, feed, into),
            None => Ok(()),
        },
        BytesKind::Situations(moment) => match feed_of(alloc, bytes, into)? {
            Some(feed) => of_situations(alloc, moment, days, &feed, into),
            None => Ok(()),
        },
    }
}

fn of_fields(
    alloc: Global,
    kind: FieldsKind,
    bytes: &[u8],
    into: &mut String,
) -> Result<(), AllocError> {
    match kind {
        FieldsKind::Whole => add_fields(alloc, bytes, into),
        FieldsKind::Fronts => add_field_fronts(alloc, bytes, into),
        FieldsKind::EachByte => add_each_byte(alloc, bytes, into),
    }
}

fn of_feed(
    alloc: Global,
    kind: FeedKind,
    bytes: &[u8],
    into: &mut String,
) -> Result<(), AllocError> {
    match kind {
        FeedKind::Whole => add_feed(alloc, bytes, into),
        FeedKind::Fronts => add_feed_fronts(alloc, bytes, into),
    }
}

// The feed of bytes; where they are none, its fault is added.
fn feed_of(alloc: Global, bytes: &[u8], into: &mut String) -> Result<Option<Feed>, AllocError> {
    match read_feed(alloc, bytes) {
        Ok(feed) => Ok(Some(feed)),
        Err(fault) => {
            add_fault(alloc, fault, into)?;
            Ok(None)
        }
    }
}

// What a feed says of journeys over the sample folder.
fn of_journeys(
    alloc: Global,
    kind: JourneysKind,
    days: u8,
    feed: Feed,
    into: &mut String,
) -> Result<(), Trouble> {
    let (Some(table), Some(zone)) = (sample(alloc), paris()) else {
        return Err(Trouble::Form);
    };
    let Some(window) = window(&zone, days) else {
        return Err(Trouble::Form);
    };
    let context = Context {
        table: &table,
        zone: &zone,
        window: &window,
    };
    Ok(of_journeys_over(alloc, &context, kind, feed, into)?)
}

fn of_journeys_over(
    alloc: Global,
    context: &Context<'_>,
    kind: JourneysKind,
    feed: Feed,
    into: &mut String,
) -> Result<(), AllocError> {
    match kind {
        JourneysKind::Readings => add_readings(alloc, context, feed, into),
        JourneysKind::Show => add_show(alloc, context, &feed, into),
        JourneysKind::Delivery(moment) => add_delivery(alloc, context, moment, &feed, into),
    }
}

// What becomes of the alerts of a feed over the sample folder.
fn of_situations(
    alloc: Global,
    moment: Moment,
    days: u8,
    feed: &Feed,
    into: &mut String,
) -> Result<(), Trouble> {
    let (Some(table), Some(zone)) = (sample(alloc), paris()) else {
        return Err(Trouble::Form);
    };
    let Some(window) = window(&zone, days) else {
        return Err(Trouble::Form);
    };
    let context = Context {
        table: &table,
        zone: &zone,
        window: &window,
    };
    Ok(add_situations(alloc, &context, moment, feed, into)?)
}
