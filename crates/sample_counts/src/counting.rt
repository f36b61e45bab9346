//! How a feed reads at all stops of all trips, counted in one pass over the trips and over what the feed gives of them.
ghost use Rattle.std.specs.Prelude.{◌≡◌, ◌+◌, ◌<◌, ◌≤◌, ◌*◌, ℕ, Option, IfOk, length, min, replicate, sum_by};
ghost use Rattle.std.specs.List.{AllByRecursion};
ghost use Rattle.gw_base.specs.Count.{last_count};
ghost use Rattle.journey_model.specs.declared.readings.JourneyReading as readings;
ghost use Rattle.propagation.specs.Feeds.{IsServable};
ghost use Rattle.sample_maker.specs.Pieces.{all_below};
ghost use Rattle.timetable.specs.Limits.{stop_limit};
ghost use Rattle.timetable.specs.Seen.{seen};
ghost use Rattle.sample_counts.specs.Counts as spec;
ghost use Rattle.sample_counts.specs.Steps as steps;
ghost use Rattle.sample_counts.specs.Counts.{HasOneDay};
ghost use Rattle.sample_counts.specs.Steps.{AreSaid, IsWithin, plus, stops_said, tally};

use crate::counts::SampleCounts;
use crate::tally::{Tally, tally_of};
use gw_base::{Entity, Feed};
use journey_model::{Context, DatedReading, JourneyReading, StopReading};
use propagation::readings_of;
use std::alloc::{AllocError, Global};
use timetable::{Timetable, TripNo};

// How the stops of a trip read that the feed gives.
fn given(context: &Context<'_>, one: &DatedReading) -> Tally
    requires { IsServable context.now one.now }
    ensures value { result ≡ tally (spec.each_stop
        (length (context.now.table.stops_of one.now.trip.0)) one.now.reading) }
    ensures few { IsWithin stop_limit result }
{
    let stops = context.table.stops_of(one.trip);
    match &one.reading {
        JourneyReading::Cancelled => Tally {
            skipped: stops.len() as u64,
            absent: 0,
            timed: 0,
        },
        JourneyReading::Stops(readings) => tally_of(readings.as_slice()),
    }
}

// How the stops of a trip read that the feed doesn't give.
fn not_given(table: &Timetable, trip: TripNo) -> Tally
    requires { trip.0 < length table.now.trips }
    ensures value { result ≡ tally (replicate (length ((seen table.now).stops_of trip.0))
        StopReading.Absent) }
    ensures few { IsWithin stop_limit result }
{
    Tally {
        skipped: 0,
        absent: table.stops_of(trip).len() as u64,
        timed: 0,
    }
}

// Adds how the stops of a trip read, by the first of the readings where it is of that trip. Answers the readings
// after it.
fn add_trip<'r>(
    sum: &mut Tally,
    context: &Context<'_>,
    trip: u32,
    rest: &'r [DatedReading],
) -> &'r [DatedReading]
    requires trip { trip < length context.now.table.trips }
    requires servable { AllByRecursion (IsServable context.now) rest.now }
    requires few { IsWithin (stop_limit * trip) sum.old }
    ensures rest { result.now ≡ steps.after_trip trip rest.now }
    ensures servable { AllByRecursion (IsServable context.now) result.now }
    ensures sum { sum.new ≡ plus sum.old
        (tally (stops_said context.now trip (steps.head_said trip rest.now))) }
    ensures few { IsWithin (stop_limit * (trip + 1)) sum.new }
{
    match rest.split_first() {
        Some((one, others)) if one.trip.0 == trip => {
            sum.add(&given(context, one));
            others
        }
        _ => {
            sum.add(&not_given(context.table, TripNo(trip)));
            rest
        }
    }
}

// How the stops of all trips read, by readings in the order of their trips.
fn sum_of(context: &Context<'_>, journeys: &[DatedReading]) -> Tally
    requires { AllByRecursion (IsServable context.now) journeys.now }
    ensures { (said : ℕ → Option readings.JourneyReading) → AreSaid said 0 journeys.now
        → result ≡ tally (all_below (λ trip. stops_said context.now trip (said trip))
        (length context.now.table.trips)) }
{
    let mut sum = Tally {
        skipped: 0,
        absent: 0,
        timed: 0,
    };
    let mut rest = journeys;
    let trips = context.table.trips();
    for trip in 0..trips {
        rest = add_trip(&mut sum, context, trip, rest);
    }
    sum
}

// How a feed reads at all stops of all trips on the one day of the window.
fn read_tally(alloc: Global, context: &Context<'_>, feed: &Feed) -> Result<Tally, AllocError>
    requires { HasOneDay context.now.window }
    ensures { IfOk result (λ found.
        found ≡ tally (spec.all_read context.now feed.now)) }
{
    let reading = readings_of(alloc, feed, context)?;
    Ok(sum_of(context, reading.journeys.as_slice()))
}

// How many stops an entity updates.
fn updates_of(entity: &Entity) -> u64
    ensures { result ≡ spec.updates_of entity.now }
{
    match &entity.trip_update {
        Some(update) => update.updates.len() as u64,
        None => 0,
    }
}

// How many updates of stops entities have; the count stays at its last value.
fn updates_in(entities: &[Entity]) -> u64
    ensures { result ≡ min (sum_by spec.updates_of entities.now) last_count }
{
    let mut updates = 0u64;
    for entity in entities {
        updates = updates.saturating_add(updates_of(entity));
    }
    updates
}

/// The counts of a feed of these bytes, read over one service day (GTFS Realtime, FeedMessage). It has no more updates
/// than bytes. Err for want of memory.
pub fn count_feed(
    alloc: Global,
    context: &Context<'_>,
    feed: &Feed,
    bytes: &[u8],
) -> Result<SampleCounts, AllocError>
    requires day { HasOneDay context.now.window }
    requires few { sum_by spec.updates_of feed.now.entities ≤ length bytes.now }
    ensures { IfOk result (λ counts. counts ≡ spec.counts_of context.now bytes.now feed.now) }
{
    let tally = read_tally(alloc, context, feed)?;
    Ok(SampleCounts {
        skipped: tally.skipped,
        absent: tally.absent,
        timed: tally.timed,
        updates: updates_in(feed.entities.as_slice()),
        bytes: bytes.len() as u64,
    })
}
