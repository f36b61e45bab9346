//! What the entities of a feed say. The functions meet `journey_model`'s `specs/FeedReadings.antt`.
ghost use Rattle.std.specs.Prelude.{◌≡◌, ◌<◌, length, IfOk};
ghost use Rattle.journey_model.specs.Dated.{run_of};
ghost use Rattle.journey_model.specs.FeedReadings as spec;
ghost use Rattle.journey_model.specs.Schedules.{run_on};
ghost use Rattle.propagation.specs.Answers.{Propagates};
ghost use Rattle.propagation.specs.Folding.{bare_feed, entity_early, late_said, update_early};

use crate::dating::{day_named, is_dated, recorded_in, recorded_or, trip_named};
use crate::entity_said::EntitySaid;
use crate::update_fault::UpdateFault;
use crate::updates::propagate;
use gw_base::trip_relation::{CANCELED, SCHEDULED};
use gw_base::{Boxed, Entity, TripUpdate};
use journey_model::{Context, DatedReading, DatedTrip, Fault};
use service_day::Day;
use std::alloc::{AllocError, Global};
use timetable::TripNo;

// What an update says of a trip on a day of the window, on which the trip runs.
fn read_dated(
    alloc: Global,
    context: &Context<'_>,
    timestamp: Option<u64>,
    update: &TripUpdate,
    dated: &DatedTrip<'_>,
) -> Result<DatedReading, UpdateFault>
    ensures { let run = run_of context.now.table dated.now in
        let recorded = spec.recorded_in (bare_feed timestamp) update.now in
        let said = spec.reading_said run update.now in
        Propagates (spec.with_reading dated.now.trip.0 dated.now.day recorded said) result }
{
    let reading = propagate(alloc, context.table, dated, update)?;
    Ok(DatedReading {
        trip: dated.trip,
        day: dated.day,
        recorded: recorded_in(timestamp, update),
        reading,
    })
}

// What an update says of a trip on a day.
fn read_on(
    alloc: Global,
    context: &Context<'_>,
    timestamp: Option<u64>,
    update: &TripUpdate,
    trip: TripNo,
    day: Day,
) -> Result<DatedReading, UpdateFault>
    requires { trip.0 < length context.now.table.trips }
    ensures { let run = run_on context.now trip.0 day in
        Propagates (spec.said_on context.now (bare_feed timestamp) update.now trip.0 day run) result }
{
    let Some(dated) = context.dated(trip, day) else {
        return Err(UpdateFault::Fault(Fault::OutOfWindow));
    };
    if context.table.runs(trip, day) {
        read_dated(alloc, context, timestamp, update, &dated)
    } else {
        Err(UpdateFault::Fault(Fault::NotRunning))
    }
}

// What an update says of its trip.
fn read_trip(
    alloc: Global,
    context: &Context<'_>,
    timestamp: Option<u64>,
    update: &TripUpdate,
) -> Result<DatedReading, UpdateFault>
    ensures { let trip = spec.trip_named context.now update.now in
        Propagates (spec.said_of_trip context.now (bare_feed timestamp) update.now trip) result }
{
    let Some(trip) = trip_named(context, update) else {
        return Err(UpdateFault::Fault(Fault::UnknownJourney));
    };
    match day_named(context, timestamp, trip, update) {
        Some(day) => read_on(alloc, context, timestamp, update, trip, day),
        None => Err(UpdateFault::Fault(Fault::NoDate)),
    }
}

// What an update says.
fn read_update(
    alloc: Global,
    context: &Context<'_>,
    timestamp: Option<u64>,
    update: &TripUpdate,
) -> Result<DatedReading, UpdateFault>
    ensures { Propagates (spec.update_said context.now (bare_feed timestamp) update.now) result }
{
    match update.trip.relation {
        SCHEDULED | CANCELED => read_trip(alloc, context, timestamp, update),
        relation => Err(UpdateFault::Fault(Fault::OtherRelation(relation))),
    }
}

// What an update says, or the fault for which it is set aside.
fn said_of(
    alloc: Global,
    context: &Context<'_>,
    timestamp: Option<u64>,
    update: &TripUpdate,
) -> Result<Result<DatedReading, Fault>, AllocError>
    ensures { IfOk result (λ said. said
        ≡ spec.update_said context.now (bare_feed timestamp) update.now) }
{
    match read_update(alloc, context, timestamp, update) {
        Ok(reading) => Ok(Ok(reading)),
        Err(UpdateFault::Fault(fault)) => Ok(Err(fault)),
        Err(UpdateFault::Memory) => Err(AllocError),
    }
}

/// What an entity says in a feed of that timestamp: None where it is to be deleted or has no trip update.
pub(crate) fn read_entity(
    alloc: Global,
    context: &Context<'_>,
    timestamp: Option<u64>,
    entity: &Entity,
) -> Result<Option<Result<DatedReading, Fault>>, AllocError>
    ensures { IfOk result (λ said. said
        ≡ spec.entity_said context.now (bare_feed timestamp) entity.now) }
{
    if entity.deleted {
        return Ok(None);
    }
    let Some(update) = &entity.trip_update else {
        return Ok(None);
    };
    Ok(Some(said_of(alloc, context, timestamp, update)?))
}

// What an update says before the feed's header is known.
fn update_early(
    alloc: Global,
    context: &Context<'_>,
    update: TripUpdate,
) -> Result<EntitySaid, AllocError>
    ensures { IfOk result (λ said. said ≡ update_early context.now update) }
{
    if !is_dated(&update) {
        return Ok(EntitySaid::Waits(Boxed::new(alloc, update)?));
    }
    match said_of(alloc, context, None, &update)? {
        Ok(reading) => Ok(EntitySaid::Given(reading)),
        Err(fault) => Ok(EntitySaid::Aside(fault)),
    }
}

/// What an entity says before the feed's header is known: None where it is to be deleted or has no trip update.
pub(crate) fn read_early(
    alloc: Global,
    context: &Context<'_>,
    entity: Entity,
) -> Result<Option<EntitySaid>, AllocError>
    ensures { IfOk result (λ said. said ≡ entity_early context.now entity) }
{
    let Entity {
        id: _,
        deleted,
        trip_update,
        alert: _,
    } = entity;
    match trip_update {
        Some(update) if !deleted => Ok(Some(update_early(alloc, context, update)?)),
        _ => Ok(None),
    }
}

/// What it says once the header's timestamp is known: None where a later reading stands in its place.
pub(crate) fn read_late(
    alloc: Global,
    context: &Context<'_>,
    timestamp: Option<u64>,
    said: EntitySaid,
) -> Result<Option<Result<DatedReading, Fault>>, AllocError>
    ensures { IfOk result (λ found. found ≡ late_said context.now (bare_feed timestamp) said) }
{
    match said {
        EntitySaid::Given(reading) => Ok(Some(Ok(DatedReading {
            recorded: recorded_or(reading.recorded, timestamp),
            ..reading
        }))),
        EntitySaid::Aside(fault) => Ok(Some(Err(fault))),
        EntitySaid::Replaced => Ok(None),
        EntitySaid::Waits(update) => Ok(Some(said_of(alloc, context, timestamp, update.get())?)),
    }
}
