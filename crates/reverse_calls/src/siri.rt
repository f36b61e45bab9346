//! The SIRI delivery of a feed. The functions meet `specs/Siri.antt`.
ghost use Rattle.std.specs.Prelude.{◌≡◌, All, IfOk};
ghost use Rattle.gw_base.specs.declared.messages.Feed.{Feed};
ghost use Rattle.journey_model.specs.Schedules.{FitsSchedule};
ghost use Rattle.propagation.specs.Feeds.{IsReading, IsServable};
ghost use Rattle.siri_calls.specs.Written.DeliveryTree.{delivery_text};
ghost use Rattle.siri_calls.specs.Written.SaidAgain.{SaysAgain};
ghost use Rattle.reverse_calls.specs.Siri.{IsAnswer, IsFullAnswer, IsReadingsAnswer, IsTextOfFeed};

use crate::counting::calls_of;
use crate::readings_fault::ReadingsFault;
use crate::reverse_fault::ReverseFault;
use crate::sayable::all_sayable_law;
use gw_base::incrementality::DIFFERENTIAL;
use gw_base::{Bytes, Feed, Moment};
use journey_model::{Context, DatedReading, Report};
use propagation::{FeedReading, readings_of};
use siri_calls::write_delivery;
use std::alloc::{AllocError, Global};

/// The most calls that a delivery has.
const MOST_CALLS: u64 = 400_000;

// The text that says these journeys, and says them when it is read again where each can be served.
fn said(
    alloc: Global,
    context: &Context<'_>,
    journeys: &[DatedReading],
    moment: Moment,
) -> Result<Bytes, AllocError>
    requires { All (λ one. FitsSchedule context.now one.trip.0 one.day one.reading) journeys.now }
    ensures text { IfOk result (λ text. text ≡ delivery_text context.now moment journeys.now) }
    ensures again { All (IsServable context.now) journeys.now
        → IfOk result (SaysAgain context.now moment journeys.now) }
{
    context.table.soundness_law();
    all_sayable_law(context, journeys);
    let _ = moment.secs();
    write_delivery(alloc, context, journeys, moment)
}

/// The SIRI delivery that says at that moment the readings of a feed, which `readings_of` or `ReadingFold::finish` of
/// `propagation` made (SIRI 2.0, EstimatedTimetableDelivery). TooManyCalls exactly where the trips of the journeys have
/// over 400,000 stops, which are counted before a byte is written; Memory for want of memory. The condition is that of
/// `write_delivery`: each reading fits the timetable, also where its trip doesn't run on the day, though the text then
/// isn't read again as it.
pub fn siri_of_readings(
    alloc: Global,
    context: &Context<'_>,
    reading: &FeedReading,
    moment: Moment,
) -> Result<Bytes, ReadingsFault>
    requires fits { All (λ one. FitsSchedule context.now one.trip.0 one.day one.reading) reading.now.journeys }
    ensures answers { IsReadingsAnswer context.now reading.now.journeys moment result }
    ensures of_feed { (feed : Feed) → IsReading context.now feed reading.now
        → IsTextOfFeed context.now feed moment reading.now.report result }
{
    let journeys = reading.journeys.as_slice();
    let calls = calls_of(context, journeys);
    if calls > MOST_CALLS {
        return Err(ReadingsFault::TooManyCalls(calls));
    }
    match said(alloc, context, journeys, moment) {
        Ok(text) => Ok(text),
        Err(_) => Err(ReadingsFault::Memory),
    }
}

// The delivery of a feed that isn't differential, and the report on its entities.
fn siri_of_full(
    alloc: Global,
    feed: &Feed,
    context: &Context<'_>,
    moment: Moment,
) -> Result<(Bytes, Report), ReverseFault>
    ensures { IsFullAnswer context.now feed.now moment result }
{
    let reading = match readings_of(alloc, feed, context) {
        Ok(reading) => reading,
        Err(_) => return Err(ReverseFault::Memory),
    };
    match siri_of_readings(alloc, context, &reading, moment) {
        Ok(text) => Ok((text, reading.report)),
        Err(ReadingsFault::TooManyCalls(calls)) => Err(ReverseFault::TooManyCalls(calls)),
        Err(ReadingsFault::Memory) => Err(ReverseFault::Memory),
    }
}

/// The SIRI delivery that says at that moment what a feed says of journeys, and the report on the feed's entities (SIRI
/// 2.0, EstimatedTimetableDelivery; GTFS Realtime reference, FeedMessage). Differential exactly where the feed's
/// incrementality is 1; TooManyCalls where the trips of its journeys have over 400,000 stops, which are counted before
/// a byte is written; Memory for want of memory.
pub fn siri_of(
    alloc: Global,
    feed: &Feed,
    context: &Context<'_>,
    moment: Moment,
) -> Result<(Bytes, Report), ReverseFault>
    ensures { IsAnswer context.now feed.now moment result }
{
    if feed.incrementality == DIFFERENTIAL {
        return Err(ReverseFault::Differential);
    }
    siri_of_full(alloc, feed, context, moment)
}
