//! What the late feed says of its trip over the sample folder: whole, entity by entity, and its update alone.
use crate::late::late_feed;
use gw_base::{Entity, Feed, FeedHead, Text, TripUpdate};
use journey_model::{Context, JourneyReading, StopReading};
use propagation::{FeedReading, ReadingFold, propagate, readings_of};
use service_day::{DayForm, read_day};
use std::alloc::Global;
use std::process::Abort;
use test_folder::{paris, sample, window};

// When a journey arrives at its first stop, if it does.
fn arrival_of(reading: &JourneyReading) -> Option<i64> {
    match reading {
        JourneyReading::Cancelled => None,
        JourneyReading::Stops(stops) => match stops.as_slice().first() {
            Some(StopReading::Timed { arrival, .. }) => Some(*arrival),
            _ => None,
        },
    }
}

// The same of the first journey of a feed.
fn first_arrival(found: &FeedReading) -> Option<i64> {
    arrival_of(&found.journeys.as_slice().first()?.reading)
}

fn of_feed(alloc: Global, context: &Context<'_>) -> Option<i64> {
    let feed = late_feed(alloc)?;
    first_arrival(&readings_of(alloc, &feed, context).ok()?)
}

// The same of entities that come one by one.
fn of_entities(alloc: Global, context: &Context<'_>, entities: Vec<Entity>) -> Option<i64> {
    let mut fold = ReadingFold::make(alloc);
    for entity in entities {
        fold.add(context, 0, entity).ok()?;
    }
    let head = FeedHead {
        version: Text::copied(alloc, "2.0").ok()?,
        incrementality: 0,
        timestamp: None,
    };
    first_arrival(&fold.finish(context, &head).ok()?)
}

// The same of an update of the trip T1 on its day.
fn of_update(alloc: Global, context: &Context<'_>, update: &TripUpdate) -> Option<i64> {
    let (Some(trip), Some(day)) = (
        context.table.find_trip("T1"),
        read_day("20240501", DayForm::Compact),
    ) else {
        return None;
    };
    let Some(dated) = context.dated(trip, day) else {
        return None;
    };
    match propagate(alloc, context.table, &dated, update) {
        Ok(reading) => arrival_of(&reading),
        Err(_) => None,
    }
}

// Each update of a feed says so.
fn is_each(rt: &impl Abort, alloc: Global, context: &Context<'_>, feed: &Feed, late: Option<i64>) {
    for entity in feed.entities.as_slice() {
        assert!(rt; entity.trip_update.is_some());
        if let Some(update) = &entity.trip_update {
            assert_eq!(rt; of_update(alloc, context, update), late);
        }
    }
}

#[test]
fn a_late_trip_is_read(rt: HostRuntime) {
    let alloc = rt.alloc();
    let zone = paris().expect(&rt, "a zone");
    let context = Context {
        table: &sample(alloc).expect(&rt, "a timetable"),
        zone: &zone,
        window: &window(&zone, 2).expect(&rt, "a window"),
    };
    let late = Some(1_714_543_260);
    assert_eq!(rt; of_feed(alloc, &context), late);
    let feed = late_feed(alloc).expect(&rt, "a feed");
    is_each(&rt, alloc, &context, &feed, late);
    assert_eq!(rt;
        of_entities(alloc, &context, feed.entities.into_vec()),
        late
    );
}
