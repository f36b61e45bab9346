//! What a feed says of journeys, entity by entity, where its header may come last. Contracts see it as
//! `Folded` of `specs/Folding.antt`.
ghost use Rattle.std.specs.Prelude.{◌≡◌, ◌+◌, ◌++◌, ◌∷◌, [], List as Values, length, reverse, IfOk, OnErr, OnOk};
ghost use Rattle.std.specs.List.{filter_map};
ghost use Rattle.gw_base.specs.declared.messages.Entity.{Entity};
ghost use Rattle.journey_model.specs.FeedReadings.{last_of_each};
ghost use Rattle.journey_model.specs.Schedules.{Schedule};
ghost use Rattle.propagation.specs.Feeds.{IsReading};
ghost use Rattle.propagation.specs.Folding.{StandsFor, aside_late, bare_feed, feed_with, given_late, taken_late};

use crate::entities::{read_early, read_late};
use crate::entity_said::EntitySaid;
use crate::feeds::{FeedReading, SortedOut, keep_last, reading_of};
use crate::replacing::{Places, hold};
use gw_base::{Entity, FeedHead, List};
use journey_model::{Context, DatedReading, Fault};
use std::alloc::{AllocError, Global};
use std::collections::{HashMap, HashSet};
use std::marker::Model;

/// What the entities of a feed say that came so far (GTFS Realtime reference, FeedEntity). An update that names its
/// service day is read when it comes, and of the readings of one journey only the last is kept; one that names none is
/// kept until the header is known; and of an entity that is passed nothing is kept. A contract sees what is held.
#[derive(Debug, Drop)]
pub struct ReadingFold {
    alloc: Global,
    passed: u64,
    said: Vec<(u64, EntitySaid)>,
    places: Places,
}

impl Model for ReadingFold {
    ghost use Rattle.propagation.specs.Folding.{Folded};

    ghost Value = { Folded };

    ghost view = { λ f. record { passed = f.passed; said = f.said.items } };
}

// What was said, read from the last on once the header's timestamp is known: of the readings of one journey the last,
// from the last on, and what is set aside. An earlier reading of a journey is dropped as soon as it is read.
fn last_late(
    alloc: Global,
    context: &Context<'_>,
    timestamp: Option<u64>,
    said: Vec<(u64, EntitySaid)>,
) -> Result<(Vec<DatedReading>, List<(u64, Fault)>), AllocError>
    ensures last { IfOk result (λ parts. parts.0.items
        ≡ reverse (last_of_each (filter_map (given_late context.now (bare_feed timestamp)) said.items))) }
    ensures aside { IfOk result (λ parts. parts.1
        ≡ filter_map (aside_late context.now (bare_feed timestamp)) said.items) }
{
    let mut left = said;
    let mut seen = HashSet::new(alloc);
    let mut last = Vec::new(alloc);
    let mut aside = Vec::new(alloc);
    while let Some((number, one)) = left.pop() {
        match read_late(alloc, context, timestamp, one)? {
            Some(Ok(reading)) => keep_last(&mut seen, &mut last, reading)?,
            Some(Err(fault)) => aside.push((number, fault))?,
            None => {}
        }
    }
    aside.reverse();
    Ok((last, List::from_vec(aside)))
}

// What was said, sorted out once the header's timestamp is known. What isn't set aside is taken.
fn sorted_late(
    alloc: Global,
    context: &Context<'_>,
    timestamp: Option<u64>,
    passed: u64,
    said: Vec<(u64, EntitySaid)>,
) -> Result<SortedOut, AllocError>
    ensures last { IfOk result (λ sorted. sorted.last.items
        ≡ reverse (last_of_each (filter_map (given_late context.now (bare_feed timestamp)) said.items))) }
    ensures taken { IfOk result (λ sorted. sorted.taken
        ≡ taken_late context.now (bare_feed timestamp) said.items) }
    ensures passed { IfOk result (λ sorted. sorted.passed ≡ passed) }
    ensures aside { IfOk result (λ sorted. sorted.aside
        ≡ filter_map (aside_late context.now (bare_feed timestamp)) said.items) }
{
    let held = said.len();
    let (last, aside) = last_late(alloc, context, timestamp, said)?;
    let taken = (held - aside.len()) as u64;
    Ok(SortedOut {
        last,
        taken,
        passed,
        aside,
    })
}

impl ReadingFold {
    /// A fold of no entity, which takes no memory.
    pub fn make(alloc: Global) -> ReadingFold
        ensures stands { (schedule : Schedule) → StandsFor schedule result [] }
    {
        ReadingFold {
            alloc,
            passed: 0,
            said: Vec::new(alloc),
            places: HashMap::new(alloc),
        }
    }

    /// Adds the entity of that number in its feed, counted from 0. Err for want of memory, or where the count of
    /// passed entities would be over 64 bits; all is then as before, and the entity is dropped.
    pub fn add(
        &mut self,
        context: &Context<'_>,
        index: u64,
        entity: Entity,
    ) -> Result<(), AllocError>
        ensures adds { (entities : Values Entity) → StandsFor context.now self.old entities
            → index ≡ length entities
            → OnOk result (StandsFor context.now self.new (entities ++ entity ∷ [])) }
        ensures refused { OnErr result (self.new ≡ self.old) }
    {
        match read_early(self.alloc, context, entity)? {
            Some(said) => hold(&mut self.places, &mut self.said, index, said),
            None => self.pass(),
        }
    }

    // Counts an entity that is passed.
    fn pass(&mut self) -> Result<(), AllocError>
        ensures counts { OnOk result (self.new ≡ record { passed = self.old.passed + 1; said = self.old.said }) }
        ensures refused { OnErr result (self.new ≡ self.old) }
    {
        match self.passed.checked_add(1) {
            Some(passed) => {
                self.passed = passed;
                Ok(())
            }
            None => Err(AllocError),
        }
    }

    /// What the feed of this head and of the entities that were added says of journeys, just as `readings_of` reads it
    /// (GTFS Realtime reference, FeedMessage). Err for want of memory.
    pub fn finish(self, context: &Context<'_>, head: &FeedHead) -> Result<FeedReading, AllocError>
        ensures reads { (entities : Values Entity) → StandsFor context.now self entities
            → IfOk result (IsReading context.now (feed_with head.now entities)) }
    {
        let ReadingFold {
            alloc,
            passed,
            said,
            places: _,
        } = self;
        reading_of(sorted_late(alloc, context, head.timestamp, passed, said)?)
    }
}
