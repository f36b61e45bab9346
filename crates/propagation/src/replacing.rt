//! Where a later reading of a journey stands in the place of an earlier one, so that of each journey only the last is
//! kept. The functions meet `specs/Replacing.antt`.
ghost use Rattle.std.specs.Prelude.{◌≡◌, ◌<◌, ◌++◌, ◌∷◌, [], length, slice_set, Some, IfOk, IfSome, OnErr, OnOk};
ghost use Rattle.journey_model.specs.FeedReadings as spec;
ghost use Rattle.propagation.specs.Replacing.{Holds, IsEarlier, IsEarlierOf, replaced_at};
ghost use Rattle.propagation.specs.declared.entity_said.EntitySaid.TheVariants.{Replaced};

use crate::entity_said::EntitySaid;
use journey_model::DatedReading;
use std::alloc::AllocError;
use std::collections::HashMap;

/// Where the last reading of each journey may stand, by service day and trip: a hint, which is looked at before use.
pub(crate) type Places = HashMap<(i32, u32), usize>;

// Whether two readings are of one journey.
fn are_of_one(reading: &DatedReading, one: &DatedReading) -> bool
    ensures { result ≡ spec.is_of reading.now.trip.0 reading.now.day one.now }
{
    one.trip.0 == reading.trip.0 && one.day == reading.day
}

// That place with the number of its entity, where a reading of the same journey is held.
fn held_at(said: &[(u64, EntitySaid)], place: usize, reading: &DatedReading) -> Option<(usize, u64)>
    ensures { IfSome result (IsEarlier said.now reading.now) }
{
    match said.get(place) {
        Some((number, EntitySaid::Given(one))) if are_of_one(reading, one) => {
            Some((place, *number))
        }
        _ => None,
    }
}

// The place of an earlier reading of the same journey, where the hint leads to one. What comes next is the last.
fn earlier_place(
    places: &mut Places,
    said: &[(u64, EntitySaid)],
    reading: &DatedReading,
) -> Result<Option<(usize, u64)>, AllocError>
    ensures { IfOk result (λ earlier. IfSome earlier (IsEarlier said.now reading.now)) }
{
    match places.insert((reading.day.number(), reading.trip.0), said.len())? {
        Some(place) => Ok(held_at(said, place, reading)),
        None => Ok(None),
    }
}

// The place of an earlier reading of the same journey, where an entity gives one.
fn earlier_of(
    places: &mut Places,
    said: &[(u64, EntitySaid)],
    one: &EntitySaid,
) -> Result<Option<(usize, u64)>, AllocError>
    ensures { IfOk result (λ earlier. IfSome earlier (IsEarlierOf said.now one.now)) }
{
    match one {
        EntitySaid::Given(reading) => earlier_place(places, said, reading),
        _ => Ok(None),
    }
}

// Replaces the one at a place.
fn replace(said: &mut Vec<(u64, EntitySaid)>, at: (usize, u64))
    requires { at.0 < length said.old.items }
    ensures { said.new.items ≡ slice_set said.old.items at.0 (at.1, Replaced) }
{
    said[at.0] = (at.1, EntitySaid::Replaced);
}

// Adds what an entity says, and then replaces the one at a place.
fn put(
    said: &mut Vec<(u64, EntitySaid)>,
    earlier: Option<(usize, u64)>,
    number: u64,
    one: EntitySaid,
) -> Result<(), AllocError>
    requires { IfSome earlier (λ at. at.0 < length said.old.items) }
    ensures puts { OnOk result (said.new.items
        ≡ replaced_at earlier (said.old.items ++ (number, one) ∷ [])) }
    ensures kept { OnErr result (said.new.items ≡ said.old.items) }
{
    said.push((number, one))?;
    if let Some(at) = earlier {
        replace(said, at);
    }
    Ok(())
}

/// Holds what the entity of that number says. For want of memory the list stays as it was.
pub(crate) fn hold(
    places: &mut Places,
    said: &mut Vec<(u64, EntitySaid)>,
    number: u64,
    one: EntitySaid,
) -> Result<(), AllocError>
    ensures holds { OnOk result (Holds said.old.items said.new.items number one) }
    ensures kept { OnErr result (said.new.items ≡ said.old.items) }
{
    let earlier = earlier_of(places, said.as_slice(), &one)?;
    put(said, earlier, number, one)
}
