//! The messages of GTFS Realtime, each by `specs/Written.antt`: fields in rising number.
ghost use Rattle.std.specs.Prelude.{◌≡◌, ◌-◌, ◌^◌, length, min, IsUtf8};
ghost use Rattle.std.specs.List.{AllByRecursion};
ghost use Rattle.feed_writing.specs.Written.{if_there, trip_descriptor, stop_time_event, stop_time_properties, stop_time_update, trip_update, time_range, entity_selector, translation, translated_string, alert, alert as alert_of, feed_entity};
ghost use Rattle.feed_writing.specs.Sound.{IsSoundTrip, IsSoundEvent, IsSoundStop, IsSoundUpdate, IsSoundPeriod, IsSoundSelector, IsSoundTranslation, IsSoundAlert, IsSoundEntity};

use crate::writing::fields::{
    deleted_size, enum_size, optional_number_size, optional_signed_size, optional_text_size, plus,
    put_deleted, put_enum, put_optional_number, put_optional_signed, put_optional_text,
    put_relation, put_text, relation_size, text_size, wide, wide_unsigned,
};
use crate::writing::nested::{
    WrittenMessage, message_size, messages_size, optional_message_size, optional_sized_size,
    put_message, put_messages, put_optional_message, put_optional_sized, put_translations,
    size_if_there, translations_size,
};
use gw_base::{
    Alert, Buf, Entity, Event, List, Period, Selector, StopUpdate, Text, Translation,
    TripDescriptor, TripUpdate,
};

impl WrittenMessage for Event {
    ghost written = { stop_time_event };

    ghost sound = { IsSoundEvent };

    fn size(&self) -> u64 {
        plus(
            optional_signed_size(1, wide(self.delay)),
            optional_signed_size(2, self.time),
        )
    }

    fn put(&self, buf: &mut Buf) {
        put_optional_signed(buf, 1, wide(self.delay));
        put_optional_signed(buf, 2, self.time);
    }
}

impl WrittenMessage for Period {
    ghost written = { time_range };

    ghost sound = { IsSoundPeriod };

    fn size(&self) -> u64 {
        plus(
            optional_number_size(1, self.start),
            optional_number_size(2, self.end),
        )
    }

    fn put(&self, buf: &mut Buf) {
        put_optional_number(buf, 1, self.start);
        put_optional_number(buf, 2, self.end);
    }
}

impl WrittenMessage for TripDescriptor {
    ghost written = { trip_descriptor };

    ghost sound = { IsSoundTrip };

    fn size(&self) -> u64 {
        let ids = plus(
            optional_text_size(1, &self.trip_id),
            optional_text_size(3, &self.start_date),
        );
        let relation = plus(ids, enum_size(4, &self.relation));
        plus(relation, optional_text_size(5, &self.route_id))
    }

    fn put(&self, buf: &mut Buf) {
        put_optional_text(buf, 1, &self.trip_id);
        put_optional_text(buf, 3, &self.start_date);
        put_enum(buf, 4, &self.relation);
        put_optional_text(buf, 5, &self.route_id);
    }
}

// What of a stop differs from the schedule: the id of the stop that is assigned (GTFS Realtime, StopTimeProperties).
impl WrittenMessage for Text {
    ghost written = { stop_time_properties };

    ghost sound = { IsUtf8 };

    fn size(&self) -> u64 {
        text_size(1, self)
    }

    fn put(&self, buf: &mut Buf) {
        put_text(buf, 1, self);
    }
}

impl WrittenMessage for StopUpdate {
    ghost written = { stop_time_update };

    ghost sound = { IsSoundStop };

    fn size(&self) -> u64 {
        let sequence = optional_number_size(1, wide_unsigned(self.sequence));
        let arrival = plus(sequence, optional_message_size(2, &self.arrival));
        let departure = plus(arrival, optional_message_size(3, &self.departure));
        let stop = plus(departure, optional_text_size(4, &self.stop_id));
        let relation = plus(stop, relation_size(&self.relation));
        plus(relation, optional_message_size(6, &self.assigned))
    }

    fn put(&self, buf: &mut Buf) {
        put_optional_number(buf, 1, wide_unsigned(self.sequence));
        put_optional_message(buf, 2, &self.arrival);
        put_optional_message(buf, 3, &self.departure);
        put_optional_text(buf, 4, &self.stop_id);
        put_relation(buf, &self.relation);
        put_optional_message(buf, 6, &self.assigned);
    }
}

impl WrittenMessage for TripUpdate {
    ghost written = { trip_update };

    ghost sound = { IsSoundUpdate };

    fn size(&self) -> u64 {
        let trip = message_size(1, &self.trip);
        let updates = plus(trip, messages_size(2, &self.updates));
        plus(updates, optional_number_size(4, self.timestamp))
    }

    fn put(&self, buf: &mut Buf) {
        put_message(buf, 1, &self.trip);
        put_messages(buf, 2, &self.updates);
        put_optional_number(buf, 4, self.timestamp);
    }
}

impl WrittenMessage for Selector {
    ghost written = { entity_selector };

    ghost sound = { IsSoundSelector };

    fn size(&self) -> u64 {
        let agency = optional_text_size(1, &self.agency_id);
        let route = plus(agency, optional_text_size(2, &self.route_id));
        let trip = plus(route, optional_message_size(4, &self.trip));
        plus(trip, optional_text_size(5, &self.stop_id))
    }

    fn put(&self, buf: &mut Buf) {
        put_optional_text(buf, 1, &self.agency_id);
        put_optional_text(buf, 2, &self.route_id);
        put_optional_message(buf, 4, &self.trip);
        put_optional_text(buf, 5, &self.stop_id);
    }
}

impl WrittenMessage for Translation {
    ghost written = { translation };

    ghost sound = { IsSoundTranslation };

    fn size(&self) -> u64 {
        plus(
            text_size(1, &self.text),
            optional_text_size(2, &self.language),
        )
    }

    fn put(&self, buf: &mut Buf) {
        put_text(buf, 1, &self.text);
        put_optional_text(buf, 2, &self.language);
    }
}

// A text in several languages (GTFS Realtime, TranslatedString).
impl WrittenMessage for List<Translation> {
    ghost written = { translated_string };

    ghost sound = { AllByRecursion IsSoundTranslation };

    fn size(&self) -> u64 {
        messages_size(1, self)
    }

    fn put(&self, buf: &mut Buf) {
        put_messages(buf, 1, self);
    }
}

impl WrittenMessage for Alert {
    ghost written = { alert };

    ghost sound = { IsSoundAlert };

    fn size(&self) -> u64 {
        let periods = messages_size(1, &self.periods);
        let selectors = plus(periods, messages_size(5, &self.selectors));
        let cause = plus(selectors, enum_size(6, &self.cause));
        let effect = plus(cause, enum_size(7, &self.effect));
        let header = plus(effect, translations_size(10, &self.header));
        plus(header, translations_size(11, &self.description))
    }

    fn put(&self, buf: &mut Buf) {
        put_messages(buf, 1, &self.periods);
        put_messages(buf, 5, &self.selectors);
        put_enum(buf, 6, &self.cause);
        put_enum(buf, 7, &self.effect);
        put_translations(buf, 10, &self.header);
        put_translations(buf, 11, &self.description);
    }
}

/// An entity with the sizes of its messages, which are measured once.
#[derive(Clone, Copy)]
pub struct MeasuredEntity<'a> {
    entity: &'a Entity,
    update: u64,
    alert: u64,
    ghost update_is: { update ≡ min (length (if_there trip_update entity.now.trip_update)) (2 ^ 64 - 1) },
    ghost alert_is: { alert ≡ min (length (if_there alert_of entity.now.alert)) (2 ^ 64 - 1) },
}

impl<'a> MeasuredEntity<'a> {
    /// The entity, measured.
    pub fn of(entity: &'a Entity) -> MeasuredEntity<'a>
        ensures { result.entity.now ≡ entity.now }
    {
        MeasuredEntity {
            entity,
            update: size_if_there(&entity.trip_update),
            alert: size_if_there(&entity.alert),
        }
    }
}

impl<'a> WrittenMessage for MeasuredEntity<'a> {
    ghost written = { λ m. feed_entity m.entity.now };

    ghost sound = { λ m. IsSoundEntity m.entity.now };

    fn size(&self) -> u64 {
        let entity = self.entity;
        let id = text_size(1, &entity.id);
        let deleted = plus(id, deleted_size(entity.deleted));
        let update = plus(
            deleted,
            optional_sized_size(3, self.update, &entity.trip_update),
        );
        plus(update, optional_sized_size(5, self.alert, &entity.alert))
    }

    fn put(&self, buf: &mut Buf) {
        let entity = self.entity;
        put_text(buf, 1, &entity.id);
        put_deleted(buf, entity.deleted);
        put_optional_sized(buf, 3, self.update, &entity.trip_update);
        put_optional_sized(buf, 5, self.alert, &entity.alert);
    }
}
