//! The messages of a trip, each by its table of `specs/Tables.antt`. Of a number the last one is kept, and read by
//! its type at the end.
ghost use Rattle.std.specs.Prelude.{ℕ, List, IfOk};
ghost use Rattle.wire_fields.specs.Grammar.{WireField};
ghost use Rattle.feed_reading.specs.Tables.{OfTripDescriptor, OfStopTimeEvent, OfStopTimeProperties, IsAssigned, OfStopTimeUpdate, OfTripUpdate};
ghost use Rattle.feed_reading.specs.Partly.{IsFound};
ghost use Rattle.feed_reading.specs.Parts.{AfterTrip, AfterEvent, AfterProperties, AfterStop, AfterUpdate};

use crate::plain::kinds::copied;
use crate::plain::tables::StopTimeProperties;
use crate::plain_fault::PlainFault;
use crate::quick::fields::{as_enum, as_int32, as_int64, as_uint32, number_after, text_after};
use crate::quick::found::{Found, add_body};
use crate::quick::nested::{
    Parts, QuickMessage, add_message, read_found, read_parts, read_required,
};
use crate::quick::room::with_room;
use gw_base::{Event, List, StopUpdate, Text, TripDescriptor, TripUpdate};
use std::alloc::{AllocError, Global};
use wire_fields::Field;

#[derive(Drop)]
pub struct EventParts {
    delay: Option<u64>,
    time: Option<u64>,
}

impl<'a> Parts<'a> for EventParts {
    type Whole = Event;

    ghost after = { AfterEvent };

    ghost table = { OfStopTimeEvent };

    #[inline(always)]
    fn start(_alloc: Global, _bytes: &[u8]) -> Result<EventParts, AllocError> {
        Ok(EventParts {
            delay: None,
            time: None,
        })
    }

    #[inline(always)]
    fn take(&mut self, _alloc: Global, field: &Field<'a>) -> Result<(), PlainFault> {
        if field.number == 1 {
            self.delay = number_after(1, field, self.delay);
            return Ok(());
        }
        if field.number == 2 {
            self.time = number_after(2, field, self.time);
            return Ok(());
        }
        Ok(())
    }

    #[inline(always)]
    fn finish(self, _alloc: Global) -> Result<Event, PlainFault> {
        Ok(Event {
            delay: as_int32(self.delay),
            time: as_int64(self.time),
        })
    }
}

impl QuickMessage for Event {
    ghost table = { OfStopTimeEvent };

    #[inline(always)]
    fn read(alloc: Global, bytes: &[u8]) -> Result<Event, PlainFault> {
        read_parts::<EventParts>(alloc, bytes)
    }
}

#[derive(Drop)]
pub struct TripParts<'a> {
    trip_id: Option<&'a str>,
    start_date: Option<&'a str>,
    relation: Option<u64>,
    route_id: Option<&'a str>,
}

impl<'a> Parts<'a> for TripParts<'a> {
    type Whole = TripDescriptor;

    ghost after = { AfterTrip };

    ghost table = { OfTripDescriptor };

    #[inline(always)]
    fn start(_alloc: Global, _bytes: &[u8]) -> Result<TripParts<'a>, AllocError> {
        Ok(TripParts {
            trip_id: None,
            start_date: None,
            relation: None,
            route_id: None,
        })
    }

    #[inline(always)]
    fn take(&mut self, _alloc: Global, field: &Field<'a>) -> Result<(), PlainFault> {
        if field.number == 1 {
            self.trip_id = text_after(1, field, self.trip_id)?;
            return Ok(());
        }
        if field.number == 3 {
            self.start_date = text_after(3, field, self.start_date)?;
            return Ok(());
        }
        if field.number == 4 {
            self.relation = number_after(4, field, self.relation);
            return Ok(());
        }
        self.route_id = text_after(5, field, self.route_id)?;
        Ok(())
    }

    #[inline(always)]
    fn finish(self, alloc: Global) -> Result<TripDescriptor, PlainFault> {
        Ok(TripDescriptor {
            trip_id: copied(alloc, self.trip_id)?,
            start_date: copied(alloc, self.start_date)?,
            relation: as_enum(self.relation, 0),
            route_id: copied(alloc, self.route_id)?,
        })
    }
}

impl QuickMessage for TripDescriptor {
    ghost table = { OfTripDescriptor };

    fn read(alloc: Global, bytes: &[u8]) -> Result<TripDescriptor, PlainFault> {
        read_parts::<TripParts<'_>>(alloc, bytes)
    }
}

#[derive(Drop)]
pub struct PropertiesParts<'a> {
    assigned: Option<&'a str>,
}

impl<'a> Parts<'a> for PropertiesParts<'a> {
    type Whole = StopTimeProperties;

    ghost after = { AfterProperties };

    ghost table = { λ fields m. OfStopTimeProperties fields m.assigned };

    #[inline(always)]
    fn start(_alloc: Global, _bytes: &[u8]) -> Result<PropertiesParts<'a>, AllocError> {
        Ok(PropertiesParts { assigned: None })
    }

    #[inline(always)]
    fn take(&mut self, _alloc: Global, field: &Field<'a>) -> Result<(), PlainFault> {
        self.assigned = text_after(1, field, self.assigned)?;
        Ok(())
    }

    #[inline(always)]
    fn finish(self, alloc: Global) -> Result<StopTimeProperties, PlainFault> {
        Ok(StopTimeProperties {
            assigned: copied(alloc, self.assigned)?,
        })
    }
}

impl QuickMessage for StopTimeProperties {
    ghost table = { λ fields m. OfStopTimeProperties fields m.assigned };

    fn read(alloc: Global, bytes: &[u8]) -> Result<StopTimeProperties, PlainFault> {
        read_parts::<PropertiesParts<'_>>(alloc, bytes)
    }
}

// The id of the stop that is assigned, if one is.
#[inline(always)]
fn assigned_stop(alloc: Global, found: &Found<'_>) -> Result<Option<Text>, PlainFault>
    ensures { IfOk result
        (λ assigned. (number : ℕ) (fields : List WireField) → IsFound number fields found.now
        → IsAssigned number fields assigned) }
{
    match read_found(alloc, found)? {
        Some(StopTimeProperties { assigned }) => Ok(assigned),
        None => Ok(None),
    }
}

#[derive(Drop)]
pub struct StopParts<'a> {
    sequence: Option<u64>,
    arrival: Found<'a>,
    departure: Found<'a>,
    stop_id: Option<&'a str>,
    relation: Option<u64>,
    properties: Found<'a>,
}

impl<'a> Parts<'a> for StopParts<'a> {
    type Whole = StopUpdate;

    ghost after = { AfterStop };

    ghost table = { OfStopTimeUpdate };

    #[inline(always)]
    fn start(_alloc: Global, _bytes: &[u8]) -> Result<StopParts<'a>, AllocError> {
        Ok(StopParts {
            sequence: None,
            arrival: Found::Nothing,
            departure: Found::Nothing,
            stop_id: None,
            relation: None,
            properties: Found::Nothing,
        })
    }

    #[inline(always)]
    fn take(&mut self, alloc: Global, field: &Field<'a>) -> Result<(), PlainFault> {
        if field.number == 1 {
            self.sequence = number_after(1, field, self.sequence);
            return Ok(());
        }
        if field.number == 2 {
            add_body(alloc, 2, field, &mut self.arrival)?;
            return Ok(());
        }
        if field.number == 3 {
            add_body(alloc, 3, field, &mut self.departure)?;
            return Ok(());
        }
        if field.number == 6 {
            add_body(alloc, 6, field, &mut self.properties)?;
            return Ok(());
        }
        self.stop_id = text_after(4, field, self.stop_id)?;
        self.relation = number_after(5, field, self.relation);
        Ok(())
    }

    #[inline(always)]
    fn finish(self, alloc: Global) -> Result<StopUpdate, PlainFault> {
        Ok(StopUpdate {
            sequence: as_uint32(self.sequence),
            arrival: read_found(alloc, &self.arrival)?,
            departure: read_found(alloc, &self.departure)?,
            stop_id: copied(alloc, self.stop_id)?,
            relation: as_enum(self.relation, 0),
            assigned: assigned_stop(alloc, &self.properties)?,
        })
    }
}

impl QuickMessage for StopUpdate {
    ghost table = { OfStopTimeUpdate };

    fn read(alloc: Global, bytes: &[u8]) -> Result<StopUpdate, PlainFault> {
        read_parts::<StopParts<'_>>(alloc, bytes)
    }
}

#[derive(Drop)]
pub struct UpdateParts<'a> {
    trip: Found<'a>,
    updates: List<StopUpdate>,
    timestamp: Option<u64>,
}

impl<'a> Parts<'a> for UpdateParts<'a> {
    type Whole = TripUpdate;

    ghost after = { AfterUpdate };

    ghost table = { OfTripUpdate };

    #[inline(always)]
    fn start(alloc: Global, bytes: &[u8]) -> Result<UpdateParts<'a>, AllocError> {
        Ok(UpdateParts {
            trip: Found::Nothing,
            updates: with_room(alloc, bytes, 2)?,
            timestamp: None,
        })
    }

    #[inline(always)]
    fn take(&mut self, alloc: Global, field: &Field<'a>) -> Result<(), PlainFault> {
        if field.number == 1 {
            add_body(alloc, 1, field, &mut self.trip)?;
            return Ok(());
        }
        if field.number == 2 {
            add_message(alloc, 2, field, &mut self.updates)?;
            return Ok(());
        }
        self.timestamp = number_after(4, field, self.timestamp);
        Ok(())
    }

    #[inline(always)]
    fn finish(self, alloc: Global) -> Result<TripUpdate, PlainFault> {
        Ok(TripUpdate {
            trip: read_required(alloc, &self.trip)?,
            updates: self.updates,
            timestamp: self.timestamp,
        })
    }
}

impl QuickMessage for TripUpdate {
    ghost table = { OfTripUpdate };

    fn read(alloc: Global, bytes: &[u8]) -> Result<TripUpdate, PlainFault> {
        read_parts::<UpdateParts<'_>>(alloc, bytes)
    }
}
