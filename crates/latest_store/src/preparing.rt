//! The bytes with which a record is served. The functions meet `specs/Entities.antt` and `specs/Reads.antt`.
ghost use Rattle.std.specs.Prelude.{◌≡◌, ◌↔◌, ◌<◌, ◌++◌, ℕ, Some, List, [], length, true, IfOk};
ghost use Rattle.gw_base.specs.declared.messages.Feed.{Feed};
ghost use Rattle.service_day.specs.DayTexts.{compact_text, day_of};
ghost use Rattle.service_day.specs.declared.days.DayForm.TheVariants.{Compact};
ghost use Rattle.feed_reading.specs.Tables.{MeansFeed};
ghost use Rattle.journey_model.specs.Readings.{fits_trip};
ghost use Rattle.journey_model.specs.Records.{recorded};
ghost use Rattle.journey_model.specs.Schedules.{IsServable, run_on};
ghost use Rattle.journey_model.specs.Dated.{run_of};
ghost use Rattle.timetable.specs.Seen.{seen};
ghost use Rattle.sparse_planner.specs.Means.{Says};
ghost use Rattle.sparse_planner.specs.Shortest.{shortest};
ghost use Rattle.latest_store.specs.Entities as spec;
ghost use Rattle.latest_store.specs.Reads.{SaysItself, with_messages};

use crate::entities::{descriptor, is_silent, journey_id};
use feed_messages::entity_bytes;
use gw_base::{Bytes, Entity, TripUpdate};
use journey_model::{Context, DatedTrip, JourneyRecord, date_text};
use service_day::day_compact;
use sparse_planner::plan;
use std::alloc::{AllocError, Global};
use timetable::Timetable;

// What the entity of a record says.
fn message(
    alloc: Global,
    table: &Timetable,
    trip_id: &str,
    dated: &DatedTrip<'_>,
    rec: &JourneyRecord,
) -> Result<Entity, AllocError>
    requires { fits_trip (run_of (seen table.now) dated.now) rec.now.reading ≡ true }
    ensures message { IfOk result (λ entity. entity
        ≡ spec.message trip_id.now (run_of (seen table.now) dated.now) (recorded rec.now)) }
    ensures says { IfOk result (λ _. Says (run_of (seen table.now) dated.now)
        (shortest (run_of (seen table.now) dated.now) rec.now.reading) rec.now.reading) }
    ensures day { day_of Compact (compact_text rec.now.day) ≡ Some rec.now.day }
    ensures date { length (compact_text rec.now.day) ≡ 8 }
{
    let date = day_compact(rec.day);
    let date = date_text(&date);
    let updates = plan(alloc, table, dated, &rec.reading)?;
    let trip = descriptor(alloc, date, trip_id, &rec.reading)?;
    let id = journey_id(alloc, date, trip_id)?;
    Ok(Entity {
        id,
        deleted: false,
        trip_update: Some(TripUpdate {
            trip,
            updates,
            timestamp: Some(rec.at.secs as u64),
        }),
        alert: None,
    })
}

// The bytes of the entity of a record of a trip on its day.
fn entity_of(
    alloc: Global,
    context: &Context<'_>,
    dated: &DatedTrip<'_>,
    rec: &JourneyRecord,
) -> Result<Bytes, AllocError>
    requires fits { fits_trip (run_of context.now.table dated.now) rec.now.reading ≡ true }
    requires trip { rec.now.trip.0 < length context.now.table.trips }
    requires on_day { run_on context.now rec.now.trip.0 rec.now.day
        ≡ Some (run_of context.now.table dated.now) }
    requires runs { context.now.table.runs rec.now.trip.0 rec.now.day ≡ true }
    ensures bytes { IfOk result (λ bytes. bytes ≡ spec.entity context.now (recorded rec.now)) }
    ensures empty { IfOk result (λ bytes. (bytes ≡ []) ↔ (spec.is_silent rec.now.reading ≡ true)) }
    ensures means { IfOk result (λ bytes. (before : List ℕ) (feed : Feed) → MeansFeed before feed
        → MeansFeed (before ++ bytes) (with_messages feed
        (spec.messages context.now (recorded rec.now)))) }
    ensures says { IfOk result (λ _. SaysItself context.now (recorded rec.now)) }
{
    if is_silent(&rec.reading) {
        return Ok(Bytes::new(alloc));
    }
    let entity = message(
        alloc,
        context.table,
        context.table.trip_id(rec.trip),
        dated,
        rec,
    )?;
    entity_bytes(alloc, &entity)
}

/// A record with the bytes of its entity.
#[derive(Debug, Drop)]
pub struct Prepared {
    /// The record.
    pub rec: JourneyRecord,
    /// Its entity's bytes; none where nothing is known of any stop.
    pub entity: Bytes,
}

/// The bytes of a record's entity as a field of a feed (GTFS Realtime, FeedEntity): they mean an entity that a reader
/// over the same timetable, zone and window takes for just this journey with just this reading; there are none exactly
/// where nothing is known of any stop.
pub fn record_entity(
    alloc: Global,
    context: &Context<'_>,
    rec: &JourneyRecord,
) -> Result<Bytes, AllocError>
    requires { IsServable context.now rec.now.trip.0 rec.now.day rec.now.reading }
    ensures bytes { IfOk result (λ bytes. bytes ≡ spec.entity context.now (recorded rec.now)) }
    ensures empty { IfOk result (λ bytes. (bytes ≡ []) ↔ (spec.is_silent rec.now.reading ≡ true)) }
    ensures means { IfOk result (λ bytes. (before : List ℕ) (feed : Feed) → MeansFeed before feed
        → MeansFeed (before ++ bytes) (with_messages feed
        (spec.messages context.now (recorded rec.now)))) }
    ensures says { IfOk result (λ _. SaysItself context.now (recorded rec.now)) }
{
    let Some(dated) = context.dated(rec.trip, rec.day) else {
        unreachable!();
    };
    entity_of(alloc, context, &dated, rec)
}

/// A record with the bytes of its entity, which are those that `record_entity` answers: none exactly where nothing is
/// known of any stop.
pub fn prepare_record(
    alloc: Global,
    context: &Context<'_>,
    rec: JourneyRecord,
) -> Result<Prepared, AllocError>
    requires { IsServable context.now rec.trip.0 rec.day rec.reading }
    ensures rec { IfOk result (λ made. made.rec ≡ rec) }
    ensures bytes { IfOk result (λ made. made.entity ≡ spec.entity context.now (recorded rec)) }
    ensures empty { IfOk result (λ made. (made.entity ≡ []) ↔ (spec.is_silent rec.reading ≡ true)) }
    ensures means { IfOk result (λ made. (before : List ℕ) (feed : Feed) → MeansFeed before feed
        → MeansFeed (before ++ made.entity) (with_messages feed
        (spec.messages context.now (recorded rec)))) }
    ensures says { IfOk result (λ _. SaysItself context.now (recorded rec)) }
{
    let entity = record_entity(alloc, context, &rec)?;
    Ok(Prepared { rec, entity })
}
