//! The items of a delivery of journeys, gone through over what is kept. The functions meet `specs/JourneySteps.antt`.
ghost use Rattle.std.specs.Prelude.{◌≡◌, IfOk, OnOk};
ghost use Rattle.journey_model.specs.Records.{recorded};
ghost use Rattle.journey_model.specs.Schedules.{IsServable};
ghost use Rattle.gateway_core.specs.JourneySteps as spec;
ghost use Rattle.gateway_core.specs.Standing.{IsServed, journey_entry};
ghost use Rattle.gateway_core.specs.Steps.{with_journey};

use crate::items::tally::Tally;
use crate::keys::JourneyKey;
use feed_index::Draft;
use journey_model::{Context, Fault, JourneyRecord};
use latest_store::{prepare_record, wins};
use service_day::Instant;
use siri_calls::TakesJourneys;
use std::alloc::{AllocError, Global};

/// The most journeys that are kept.
const MOST_JOURNEYS: u64 = 50_000;

/// What an index of journeys will be.
pub(crate) type JourneyDraft<'a> = Draft<'a, JourneyKey, Instant>;

// The journey of a record.
fn key_of(rec: &JourneyRecord) -> JourneyKey
    ensures { result ≡ spec.journey_of rec.now }
{
    JourneyKey {
        day: rec.day,
        trip: rec.trip,
    }
}

// Whether a record counts; None where it has no room.
fn verdict(draft: &JourneyDraft<'_>, rec: &JourneyRecord) -> Option<bool>
    ensures { result ≡ spec.journey_verdict
        (spec.seen_after draft.now) (recorded rec.now) }
{
    match draft.find(&key_of(rec)) {
        Some(old) => Some(wins(old, &rec.at)),
        None => {
            if draft.len() < MOST_JOURNEYS {
                Some(true)
            } else {
                None
            }
        }
    }
}

// Puts a record's entity at its journey.
fn put_record(
    alloc: Global,
    context: &Context<'_>,
    rec: JourneyRecord,
    draft: &mut JourneyDraft<'_>,
) -> Result<(), AllocError>
    requires { IsServable context.now rec.trip.0 rec.day rec.reading }
    ensures same { draft.new.kept ≡ draft.old.kept }
    ensures entries { OnOk result (spec.seen_after draft.new
        ≡ with_journey (spec.seen_after draft.old)
        (journey_entry context.now (recorded rec))) }
    ensures served { OnOk result (IsServed context.now (recorded rec)) }
{
    let made = prepare_record(alloc, context, rec)?;
    let key = key_of(&made.rec);
    draft.put(key, made.rec.at, made.entity)?;
    Ok(())
}

// Takes a record, and puts it where it counts; the fault where it has no room.
fn take_record(
    alloc: Global,
    context: &Context<'_>,
    rec: JourneyRecord,
    draft: &mut JourneyDraft<'_>,
) -> Result<Option<Fault>, AllocError>
    requires { IsServable context.now rec.trip.0 rec.day rec.reading }
    ensures same { draft.new.kept ≡ draft.old.kept }
    ensures fault { IfOk result (λ fault. fault ≡ spec.room_fault
        (spec.journey_verdict (spec.seen_after draft.old) (recorded rec))) }
    ensures entries { OnOk result (spec.seen_after draft.new
        ≡ spec.after_verdict context.now
        (spec.seen_after draft.old) (recorded rec)
        (spec.journey_verdict (spec.seen_after draft.old) (recorded rec))) }
    ensures put { OnOk result (spec.IsPut context.now (recorded rec)
        (spec.journey_verdict (spec.seen_after draft.old) (recorded rec))) }
{
    match verdict(draft, &rec) {
        None => Ok(Some(Fault::Full)),
        Some(false) => Ok(None),
        Some(true) => {
            put_record(alloc, context, rec, draft)?;
            Ok(None)
        }
    }
}

/// What takes the journeys of a delivery: what will be kept, and what became of each so far.
#[derive(Drop)]
pub(crate) struct JourneyTaking<'a> {
    /// What will be kept.
    pub draft: JourneyDraft<'a>,
    /// What became of the journeys.
    pub tally: Tally,
}

/// A record is put where it counts, or set aside where it has no room.
impl<'a> TakesJourneys for JourneyTaking<'a> {
    ghost has_taken = { spec.HasTaken };

    fn take(
        &mut self,
        alloc: Global,
        context: &Context<'_>,
        verdict: Result<(JourneyRecord, u64), Fault>,
    ) -> Result<(), AllocError> {
        match verdict {
            Ok((rec, passed)) => {
                let fault = take_record(alloc, context, rec, &mut self.draft)?;
                self.tally.add(passed, fault)
            }
            Err(fault) => self.tally.add(0, Some(fault)),
        }
    }
}
