//! The messages of GTFS Realtime, each by its table of `specs/Tables.antt`.
ghost use Rattle.std.specs.Prelude.{map};
ghost use Rattle.wire_fields.specs.Seen.{field_of};
ghost use Rattle.feed_reading.specs.Plain.{Finds};
ghost use Rattle.feed_reading.specs.Tables.{OfTripDescriptor, OfStopTimeEvent, OfStopTimeProperties, IsAssigned, OfStopTimeUpdate, OfTripUpdate, OfTimeRange, OfEntitySelector, OfTranslation, OfTranslatedString, AreTranslations, OfAlert, OfFeedEntity, OfFeedHeader, OfFeedMessage};

use crate::plain::kinds::{
    boolean, enumeration, int32, int64, required_text, text, uint32, uint64,
};
use crate::plain::nested::{Message, embedded, repeated, required};
use crate::plain_fault::PlainFault;
use gw_base::{
    Alert, Entity, Event, Feed, List, Period, Selector, StopUpdate, Text, Translation,
    TripDescriptor, TripUpdate,
};
use std::alloc::Global;
use wire_fields::Field;

impl Message for Event {
    ghost table = { OfStopTimeEvent };

    fn of_fields(_alloc: Global, fields: &[Field<'_>]) -> Result<Event, PlainFault> {
        Ok(Event {
            delay: int32(fields, 1),
            time: int64(fields, 2),
        })
    }
}

impl Message for Period {
    ghost table = { OfTimeRange };

    fn of_fields(_alloc: Global, fields: &[Field<'_>]) -> Result<Period, PlainFault> {
        Ok(Period {
            start: uint64(fields, 1),
            end: uint64(fields, 2),
        })
    }
}

impl Message for TripDescriptor {
    ghost table = { OfTripDescriptor };

    fn of_fields(alloc: Global, fields: &[Field<'_>]) -> Result<TripDescriptor, PlainFault> {
        Ok(TripDescriptor {
            trip_id: text(alloc, fields, 1)?,
            start_date: text(alloc, fields, 3)?,
            relation: enumeration(fields, 4, 0),
            route_id: text(alloc, fields, 5)?,
        })
    }
}

// What of a stop differs from the schedule (GTFS Realtime, StopTimeProperties).
#[derive(Drop)]
pub struct StopTimeProperties {
    pub assigned: Option<Text>,
}

impl Message for StopTimeProperties {
    ghost table = { λ fields m. OfStopTimeProperties fields m.assigned };

    fn of_fields(alloc: Global, fields: &[Field<'_>]) -> Result<StopTimeProperties, PlainFault> {
        Ok(StopTimeProperties {
            assigned: text(alloc, fields, 1)?,
        })
    }
}

// The id of the stop that is assigned, if one is.
fn assigned_stop(
    alloc: Global,
    fields: &[Field<'_>],
    number: u32,
) -> Result<Option<Text>, PlainFault>
    ensures { Finds (IsAssigned number (map field_of fields.now)) result }
{
    match embedded(alloc, fields, number)? {
        Some(StopTimeProperties { assigned }) => Ok(assigned),
        None => Ok(None),
    }
}

impl Message for StopUpdate {
    ghost table = { OfStopTimeUpdate };

    fn of_fields(alloc: Global, fields: &[Field<'_>]) -> Result<StopUpdate, PlainFault> {
        Ok(StopUpdate {
            sequence: uint32(fields, 1),
            arrival: embedded(alloc, fields, 2)?,
            departure: embedded(alloc, fields, 3)?,
            stop_id: text(alloc, fields, 4)?,
            relation: enumeration(fields, 5, 0),
            assigned: assigned_stop(alloc, fields, 6)?,
        })
    }
}

impl Message for TripUpdate {
    ghost table = { OfTripUpdate };

    fn of_fields(alloc: Global, fields: &[Field<'_>]) -> Result<TripUpdate, PlainFault> {
        Ok(TripUpdate {
            trip: required(alloc, fields, 1)?,
            updates: repeated(alloc, fields, 2)?,
            timestamp: uint64(fields, 4),
        })
    }
}

impl Message for Selector {
    ghost table = { OfEntitySelector };

    fn of_fields(alloc: Global, fields: &[Field<'_>]) -> Result<Selector, PlainFault> {
        Ok(Selector {
            agency_id: text(alloc, fields, 1)?,
            route_id: text(alloc, fields, 2)?,
            trip: embedded(alloc, fields, 4)?,
            stop_id: text(alloc, fields, 5)?,
        })
    }
}

impl Message for Translation {
    ghost table = { OfTranslation };

    fn of_fields(alloc: Global, fields: &[Field<'_>]) -> Result<Translation, PlainFault> {
        Ok(Translation {
            text: required_text(alloc, fields, 1)?,
            language: text(alloc, fields, 2)?,
        })
    }
}

// A text in several languages (GTFS Realtime, TranslatedString).
#[derive(Drop)]
pub struct TranslatedString {
    translations: List<Translation>,
}

impl Message for TranslatedString {
    ghost table = { λ fields m. OfTranslatedString fields m.translations };

    fn of_fields(alloc: Global, fields: &[Field<'_>]) -> Result<TranslatedString, PlainFault> {
        Ok(TranslatedString {
            translations: repeated(alloc, fields, 1)?,
        })
    }
}

// The translations of a text, and none where it is missing.
fn translations(
    alloc: Global,
    fields: &[Field<'_>],
    number: u32,
) -> Result<List<Translation>, PlainFault>
    ensures { Finds (AreTranslations number (map field_of fields.now)) result }
{
    match embedded(alloc, fields, number)? {
        Some(TranslatedString { translations }) => Ok(translations),
        None => Ok(List::new(alloc)),
    }
}

impl Message for Alert {
    ghost table = { OfAlert };

    fn of_fields(alloc: Global, fields: &[Field<'_>]) -> Result<Alert, PlainFault> {
        Ok(Alert {
            periods: repeated(alloc, fields, 1)?,
            selectors: repeated(alloc, fields, 5)?,
            cause: enumeration(fields, 6, 1),
            effect: enumeration(fields, 7, 8),
            header: translations(alloc, fields, 10)?,
            description: translations(alloc, fields, 11)?,
        })
    }
}

impl Message for Entity {
    ghost table = { OfFeedEntity };

    fn of_fields(alloc: Global, fields: &[Field<'_>]) -> Result<Entity, PlainFault> {
        Ok(Entity {
            id: required_text(alloc, fields, 1)?,
            deleted: boolean(fields, 2),
            trip_update: embedded(alloc, fields, 3)?,
            alert: embedded(alloc, fields, 5)?,
        })
    }
}

// The header of a feed (GTFS Realtime, FeedHeader).
#[derive(Drop)]
pub struct Header {
    pub version: Text,
    pub incrementality: i32,
    pub timestamp: Option<u64>,
}

impl Message for Header {
    ghost table = { λ fields m. OfFeedHeader fields
        (record { version = m.version; incrementality = m.incrementality; timestamp = m.timestamp }) };

    fn of_fields(alloc: Global, fields: &[Field<'_>]) -> Result<Header, PlainFault> {
        Ok(Header {
            version: required_text(alloc, fields, 1)?,
            incrementality: enumeration(fields, 2, 0),
            timestamp: uint64(fields, 3),
        })
    }
}

impl Message for Feed {
    ghost table = { OfFeedMessage };

    fn of_fields(alloc: Global, fields: &[Field<'_>]) -> Result<Feed, PlainFault> {
        let Header {
            version,
            incrementality,
            timestamp,
        } = required(alloc, fields, 1)?;
        Ok(Feed {
            version,
            incrementality,
            timestamp,
            entities: repeated(alloc, fields, 2)?,
        })
    }
}
