//! The entity with which an alert is served (GTFS Realtime reference, FeedEntity).
ghost use Rattle.std.specs.Prelude.{◌≡◌, ◌++◌, ℕ, List, IfOk};
ghost use Rattle.gw_base.specs.declared.messages.Entity.{Entity};
ghost use Rattle.gw_base.specs.declared.messages.Feed.{Feed};
ghost use Rattle.timetable.specs.Seen.{seen};
ghost use Rattle.journey_model.specs.Situations.{AreKnown};
ghost use Rattle.feed_reading.specs.Tables.{MeansEntity, MeansFeed, with_entity};
ghost use Rattle.feed_writing.specs.Written.{written};
ghost use Rattle.alert_map.specs.Alerts as spec;

use crate::alerts::alert_of;
use feed_messages::entity_bytes;
use gw_base::{Boxed, Bytes, Entity, Text};
use journey_model::Situation;
use std::alloc::{AllocError, Global};
use timetable::Timetable;
use wire_fields::first_number;

// The id of a situation's entity.
fn alert_id(alloc: Global, number: &str) -> Result<Text, AllocError>
    ensures { IfOk result (λ id. id ≡ spec.alert_id number.now) }
{
    let mut id = Text::copied(alloc, "alert:")?;
    id.push(number)?;
    Ok(id)
}

// What the entity of a situation says.
fn message(alloc: Global, table: &Timetable, situation: &Situation) -> Result<Entity, AllocError>
    requires { AreKnown (seen table.now) situation.now.refs }
    ensures { IfOk result (λ entity. entity ≡ spec.alert_message (seen table.now) situation.now) }
{
    let id = alert_id(alloc, situation.number.as_str())?;
    let alert = alert_of(alloc, table, situation)?;
    Ok(Entity {
        id,
        deleted: false,
        trip_update: None,
        alert: Some(Boxed::new(alloc, alert)?),
    })
}

/// The bytes of a situation's entity as a field of a feed (GTFS Realtime reference, FeedEntity), whether it is served
/// or not: the id `alert:` with the situation's number, and its alert. They mean this entity, and after the bytes of a
/// feed that feed with it. The condition is that the timetable has all that is referred to. Err for want of memory,
/// also where there are more bytes than a buffer can have.
pub fn alert_entity(
    alloc: Global,
    table: &Timetable,
    situation: &Situation,
) -> Result<Bytes, AllocError>
    requires { AreKnown (seen table.now) situation.now.refs }
    ensures bytes { IfOk result
        (λ bytes. bytes ≡ written (spec.alert_message (seen table.now) situation.now)) }
    ensures is_entity { IfOk result (λ bytes. MeansEntity bytes (spec.alert_message (seen table.now) situation.now)) }
    ensures means { IfOk result (λ bytes. (before : List ℕ) (feed : Feed) → MeansFeed before feed
        → MeansFeed (before ++ bytes)
        (with_entity feed (spec.alert_message (seen table.now) situation.now))) }
{
    let entity = message(alloc, table, situation)?;
    entity_bytes(alloc, &entity)
}

/// How many bytes the body of an entity has, by the bytes that stand for it in a feed: the number after its tag
/// (protobuf encoding, "Message Structure"). The condition is that they are a written entity's. Takes no memory.
pub fn entity_body_len(bytes: &[u8]) -> u64
    requires { spec.IsOfEntity bytes.now }
    ensures { (entity : Entity) → bytes.now ≡ written entity
        → result ≡ spec.entity_body_len entity }
{
    let [_, rest @ ..] = bytes else {
        unreachable!();
    };
    match first_number(rest) {
        Some((len, _)) => len,
        None => unreachable!(),
    }
}
