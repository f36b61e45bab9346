//! The entity of a record. The functions meet `specs/Entities.antt`.
ghost use Rattle.std.specs.Prelude.{◌≡◌, IfOk};
ghost use Rattle.std.specs.List.{list_all};
ghost use Rattle.journey_model.specs.Readings.{is_absent};
ghost use Rattle.latest_store.specs.Entities as spec;

use gw_base::trip_relation::{CANCELED, SCHEDULED};
use gw_base::{Text, TripDescriptor};
use journey_model::{JourneyReading, StopReading};
use std::alloc::{AllocError, Global};

/// The id of a journey's entity.
pub(crate) fn journey_id(alloc: Global, date: &str, trip_id: &str) -> Result<Text, AllocError>
    ensures { IfOk result (λ id. id ≡ spec.journey_id date.now trip_id.now) }
{
    let room = trip_id.len().saturating_add(date.len() + 1);
    let mut id = String::with_capacity(alloc, room)?;
    id.push_str(date)?;
    id.push_str(":")?;
    id.push_str(trip_id)?;
    Ok(Text::from_string(id))
}

// The schedule_relationship of a journey.
fn relation_of(reading: &JourneyReading) -> i32
    ensures { result ≡ spec.relation_of reading.now }
{
    match reading {
        JourneyReading::Cancelled => CANCELED,
        JourneyReading::Stops(_) => SCHEDULED,
    }
}

/// The trip on its day.
pub(crate) fn descriptor(
    alloc: Global,
    date: &str,
    trip_id: &str,
    reading: &JourneyReading,
) -> Result<TripDescriptor, AllocError>
    ensures { IfOk result (λ trip. trip ≡ spec.descriptor date.now trip_id.now reading.now) }
{
    Ok(TripDescriptor {
        trip_id: Some(Text::copied(alloc, trip_id)?),
        start_date: Some(Text::copied(alloc, date)?),
        relation: relation_of(reading),
        route_id: None,
    })
}

// Whether nothing is known of any of these stops.
fn all_absent(readings: &[StopReading]) -> bool
    ensures { result ≡ list_all is_absent readings.now }
{
    readings.iter().all(|reading| reading.is_absent())
}

/// Whether nothing is known of any stop of a journey, which then has no entity.
pub(crate) fn is_silent(reading: &JourneyReading) -> bool
    ensures { result ≡ spec.is_silent reading.now }
{
    match reading {
        JourneyReading::Cancelled => false,
        JourneyReading::Stops(readings) => all_absent(readings.as_slice()),
    }
}
