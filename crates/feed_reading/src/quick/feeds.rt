//! A feed with its header and entities, each by its table of `specs/Tables.antt`.
ghost use Rattle.std.specs.Prelude.{IfOk, OnOk, List as Values};
ghost use Rattle.wire_fields.specs.Grammar.{WireField};
ghost use Rattle.wire_fields.specs.Seen.{field_of};
ghost use Rattle.feed_reading.specs.FeedPieces.{OfHeadSoFar};
ghost use Rattle.feed_reading.specs.Meaning.{Means};
ghost use Rattle.feed_reading.specs.Tables.{OfFeedEntity, OfFeedHeader};
ghost use Rattle.feed_reading.specs.Partly.{Goes, OfShortFeed, AreShortEntities};
ghost use Rattle.feed_reading.specs.Parts.{AfterEntity, AddsEntity, AfterHeader, AfterFeed};

use crate::feed_reader::HeadSoFar;
use crate::finder::lengths::LIMIT;
use crate::plain::kinds::{body_in, copied};
use crate::plain::tables::Header;
use crate::plain_fault::PlainFault;
use crate::quick::fields::{as_bool, as_enum, number_after, required_text, text_after};
use crate::quick::found::{Found, add_body};
use crate::quick::nested::{Parts, QuickMessage, read_found, read_parts, read_required};
use gw_base::{Entity, Feed, List};
use std::alloc::{AllocError, Global};
use wire_fields::Field;

#[derive(Drop)]
pub struct EntityParts<'a> {
    id: Option<&'a str>,
    deleted: Option<u64>,
    trip_update: Found<'a>,
    alert: Found<'a>,
}

impl<'a> Parts<'a> for EntityParts<'a> {
    type Whole = EntityParts<'a>;

    ghost after = { AfterEntity };

    ghost table = { AfterEntity };

    #[inline(always)]
    fn start(_alloc: Global, _bytes: &[u8]) -> Result<EntityParts<'a>, AllocError> {
        Ok(EntityParts {
            id: None,
            deleted: None,
            trip_update: Found::Nothing,
            alert: Found::Nothing,
        })
    }

    #[inline(always)]
    fn take(&mut self, alloc: Global, field: &Field<'a>) -> Result<(), PlainFault> {
        if field.number == 1 {
            self.id = text_after(1, field, self.id)?;
            return Ok(());
        }
        if field.number == 3 {
            add_body(alloc, 3, field, &mut self.trip_update)?;
            return Ok(());
        }
        if field.number == 5 {
            add_body(alloc, 5, field, &mut self.alert)?;
            return Ok(());
        }
        self.deleted = number_after(2, field, self.deleted);
        Ok(())
    }

    #[inline(always)]
    fn finish(self, _alloc: Global) -> Result<EntityParts<'a>, PlainFault> {
        Ok(self)
    }
}

impl<'a> EntityParts<'a> {
    // Adds the entity of the fields. It is made where it stands: moving it takes longer than reading a small one.
    #[inline(always)]
    fn add_to(self, alloc: Global, entities: &mut List<Entity>) -> Result<(), PlainFault>
        ensures { OnOk result (AddsEntity self.entry entities.old entities.new) }
    {
        entities.push(Entity {
            id: required_text(alloc, self.id)?,
            deleted: as_bool(self.deleted),
            trip_update: read_found(alloc, &self.trip_update)?,
            alert: read_found(alloc, &self.alert)?,
        })?;
        Ok(())
    }
}

// The entity that a body means, by itself.
#[inline(always)]
pub fn quick_entity(alloc: Global, body: &[u8]) -> Result<Entity, PlainFault>
    ensures { IfOk result (λ entity. Means OfFeedEntity body.now entity) }
{
    let parts = read_parts::<EntityParts<'_>>(alloc, body)?;
    Ok(Entity {
        id: required_text(alloc, parts.id)?,
        deleted: as_bool(parts.deleted),
        trip_update: read_found(alloc, &parts.trip_update)?,
        alert: read_found(alloc, &parts.alert)?,
    })
}

#[derive(Drop)]
pub struct HeaderParts<'a> {
    version: Option<&'a str>,
    incrementality: Option<u64>,
    timestamp: Option<u64>,
}

impl<'a> Parts<'a> for HeaderParts<'a> {
    type Whole = HeadSoFar;

    ghost after = { AfterHeader };

    ghost table = { OfHeadSoFar };

    #[inline(always)]
    fn start(_alloc: Global, _bytes: &[u8]) -> Result<HeaderParts<'a>, AllocError> {
        Ok(HeaderParts {
            version: None,
            incrementality: None,
            timestamp: None,
        })
    }

    #[inline(always)]
    fn take(&mut self, _alloc: Global, field: &Field<'a>) -> Result<(), PlainFault> {
        self.version = text_after(1, field, self.version)?;
        self.incrementality = number_after(2, field, self.incrementality);
        self.timestamp = number_after(3, field, self.timestamp);
        Ok(())
    }

    #[inline(always)]
    fn finish(self, alloc: Global) -> Result<HeadSoFar, PlainFault> {
        Ok(HeadSoFar {
            version: copied(alloc, self.version)?,
            incrementality: self.incrementality,
            timestamp: self.timestamp,
        })
    }
}

// What one body of a header says.
#[inline(always)]
pub fn quick_header(alloc: Global, body: &[u8]) -> Result<HeadSoFar, PlainFault>
    ensures { IfOk result (λ head. Means OfHeadSoFar body.now head) }
{
    read_parts::<HeaderParts<'_>>(alloc, body)
}

// The header whose version is there.
fn header_of(said: HeadSoFar) -> Result<Header, PlainFault>
    ensures { IfOk result (λ header. (fields : Values WireField) → OfHeadSoFar fields said → OfFeedHeader fields
        (record { version = header.version; incrementality = header.incrementality; timestamp = header.timestamp })) }
{
    let HeadSoFar {
        version,
        incrementality,
        timestamp,
    } = said;
    match version {
        Some(version) => Ok(Header {
            version,
            incrementality: as_enum(incrementality, 0),
            timestamp,
        }),
        None => Err(PlainFault::Meaningless),
    }
}

impl QuickMessage for Header {
    ghost table = { λ fields m. OfFeedHeader fields
        (record { version = m.version; incrementality = m.incrementality; timestamp = m.timestamp }) };

    fn read(alloc: Global, bytes: &[u8]) -> Result<Header, PlainFault> {
        header_of(quick_header(alloc, bytes)?)
    }
}

// Adds the entity that a field is, if it is one. It may not be too long.
fn add_entity(
    alloc: Global,
    field: &Field<'_>,
    entities: &mut List<Entity>,
) -> Result<(), PlainFault>
    ensures { OnOk result (Goes AreShortEntities (field_of field.now) entities.old entities.new) }
{
    match body_in(field, 2) {
        Some(body) => {
            if body.len() as u64 > LIMIT {
                return Err(PlainFault::Meaningless);
            }
            let parts = read_parts::<EntityParts<'_>>(alloc, body)?;
            parts.add_to(alloc, entities)?;
            Ok(())
        }
        None => Ok(()),
    }
}

#[derive(Drop)]
pub struct FeedParts<'a> {
    header: Found<'a>,
    entities: List<Entity>,
}

impl<'a> Parts<'a> for FeedParts<'a> {
    type Whole = Feed;

    ghost after = { AfterFeed };

    ghost table = { OfShortFeed };

    #[inline(always)]
    fn start(alloc: Global, _bytes: &[u8]) -> Result<FeedParts<'a>, AllocError> {
        Ok(FeedParts {
            header: Found::Nothing,
            entities: List::new(alloc),
        })
    }

    #[inline(always)]
    fn take(&mut self, alloc: Global, field: &Field<'a>) -> Result<(), PlainFault> {
        add_body(alloc, 1, field, &mut self.header)?;
        add_entity(alloc, field, &mut self.entities)?;
        Ok(())
    }

    #[inline(always)]
    fn finish(self, alloc: Global) -> Result<Feed, PlainFault> {
        let Header {
            version,
            incrementality,
            timestamp,
        } = read_required(alloc, &self.header)?;
        Ok(Feed {
            version,
            incrementality,
            timestamp,
            entities: self.entities,
        })
    }
}
