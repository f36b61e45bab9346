//! What a feed says of journeys. The functions meet `specs/Feeds.antt`.
ghost use Rattle.std.specs.Prelude.{◌≡◌, ◌∷◌, List as Values, reverse, IfOk, OnOk};
ghost use Rattle.std.specs.List.Sorted.{IsPermutation, IsSorted};
ghost use Rattle.gw_base.specs.declared.messages.Feed.{Feed};
ghost use Rattle.journey_model.specs.FeedReadings as spec;
ghost use Rattle.journey_model.specs.Schedules.{Schedule};
ghost use Rattle.journey_model.specs.declared.readings.DatedReading.{DatedReading};
ghost use Rattle.propagation.specs.Feeds.{IsReading, journey_cmp};
ghost use Rattle.propagation.specs.SortedOut.{AreLast, IsSortedOut};

use crate::entities::read_entity;
use gw_base::{Feed, List};
use journey_model::{Context, DatedReading, Fault, Report};
use service_day::Day;
use std::alloc::{AllocError, Global};
use std::collections::HashSet;
use timetable::TripNo;

/// What a feed says of journeys.
#[derive(Debug, Drop)]
pub struct FeedReading {
    /// The readings: one for each journey that the feed gives, by service day and then trip number.
    pub journeys: List<DatedReading>,
    /// What became of the entities.
    pub report: Report,
}

/// The entities of a feed: of the readings of one journey the last, from the last on, how many were taken and passed,
/// and which were set aside.
#[derive(Drop)]
pub struct SortedOut {
    pub(crate) last: Vec<DatedReading>,
    pub(crate) taken: u64,
    pub(crate) passed: u64,
    pub(crate) aside: List<(u64, Fault)>,
}

// What the entities of a feed say, in order.
fn sorted_out(alloc: Global, feed: &Feed, context: &Context<'_>) -> Result<SortedOut, AllocError>
    ensures { IfOk result (IsSortedOut (spec.readings context.now feed.now)) }
{
    let mut given = List::new(alloc);
    let mut passed = 0;
    let mut aside = List::new(alloc);
    for (number, entity) in feed.entities.as_slice().iter().enumerate() {
        match read_entity(alloc, context, feed.timestamp, entity)? {
            None => passed += 1,
            Some(Ok(reading)) => given.push(reading)?,
            Some(Err(fault)) => aside.push((number as u64, fault))?,
        }
    }
    let taken = given.len() as u64;
    Ok(SortedOut {
        last: last_of_each(alloc, given)?,
        taken,
        passed,
        aside,
    })
}

/// The journeys of which a reading was seen, by service day and trip.
pub(crate) type Seen = HashSet<(i32, u32)>;

/// Keeps a reading where none of its journey was seen: the readings come from the last on.
pub(crate) fn keep_last(
    seen: &mut Seen,
    last: &mut Vec<DatedReading>,
    reading: DatedReading,
) -> Result<(), AllocError>
    ensures { (after : Values DatedReading) → AreLast after seen.old.keys last.old.items
        → OnOk result (AreLast (reading ∷ after) seen.new.keys last.new.items) }
{
    if seen.insert((reading.day.number(), reading.trip.0))? {
        last.push(reading)?;
    }
    Ok(())
}

// Of the readings of one journey the last, from the last on.
fn last_of_each(alloc: Global, given: List<DatedReading>) -> Result<Vec<DatedReading>, AllocError>
    ensures { IfOk result (λ last. last.items ≡ reverse (spec.last_of_each given)) }
{
    let mut left = given.into_vec();
    let mut seen = HashSet::new(alloc);
    let mut last = Vec::new(alloc);
    while let Some(reading) = left.pop() {
        keep_last(&mut seen, &mut last, reading)?;
    }
    Ok(last)
}

// The service day and the trip of a reading.
fn journey_of(reading: &DatedReading) -> (Day, TripNo)
    ensures { result ≡ (reading.now.day, reading.now.trip) }
{
    (reading.day, reading.trip)
}

// Readings, sorted by service day and then trip number.
fn by_journey(readings: Vec<DatedReading>) -> Result<List<DatedReading>, AllocError>
    ensures same { IfOk result (λ sorted. IsPermutation readings.items sorted) }
    ensures sorted { IfOk result (λ sorted. IsSorted journey_cmp sorted) }
{
    let mut sorted = readings;
    sorted.sort_by_key(journey_of)?;
    Ok(List::from_vec(sorted))
}

/// What a feed says of journeys whose entities are sorted out.
pub(crate) fn reading_of(sorted: SortedOut) -> Result<FeedReading, AllocError>
    ensures { (schedule : Schedule) (feed : Feed) → IsSortedOut (spec.readings schedule feed) sorted
        → IfOk result (IsReading schedule feed) }
{
    let SortedOut {
        last,
        taken,
        passed,
        aside,
    } = sorted;
    let journeys = by_journey(last)?;
    Ok(FeedReading {
        journeys,
        report: Report {
            taken,
            passed,
            aside,
        },
    })
}

/// What a feed says of journeys over a timetable (GTFS Realtime reference, FeedEntity and TripUpdate): of the updates
/// of one journey the last counts; entities without a trip update and those that are to be deleted are passed, and an
/// update with a fault is set aside. Err for want of memory.
pub fn readings_of(
    alloc: Global,
    feed: &Feed,
    context: &Context<'_>,
) -> Result<FeedReading, AllocError>
    ensures { IfOk result (IsReading context.now feed.now) }
{
    reading_of(sorted_out(alloc, feed, context)?)
}
