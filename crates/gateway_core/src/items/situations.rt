//! The items of a delivery of situations, gone through over what is kept. The functions meet
//! `specs/SituationSteps.antt`.
ghost use Rattle.std.specs.Prelude.{◌≡◌, Ok, Err, IfOk, MatchResult, OnOk};
ghost use Rattle.feed_writing.specs.Written.{written};
ghost use Rattle.alert_map.specs.Alerts.{alert_message};
ghost use Rattle.journey_model.specs.Situations.{AreKnown};
ghost use Rattle.timetable.specs.Seen.{seen};
ghost use Rattle.timetable.specs.Table.{Table};
ghost use Rattle.gateway_core.specs.JourneySteps.{room_fault};
ghost use Rattle.gateway_core.specs.SituationSteps as spec;
ghost use Rattle.gateway_core.specs.Taking.{limited_verdict};

use crate::items::tally::Tally;
use crate::keys::Edition;
use alert_map::{alert_entity, entity_body_len};
use feed_index::Draft;
use gw_base::{Bytes, Text};
use journey_model::{Context, Fault, Situation};
use siri_situations::TakesSituations;
use std::alloc::{AllocError, Global};
use timetable::Timetable;

/// The most bytes of the body of an alert's entity.
const ALERT_LIMIT: u64 = 65_536;

/// The most situation numbers that are kept.
const MOST_SITUATIONS: u64 = 5_000;

/// What an index of situations will be.
pub(crate) type SituationDraft<'a> = Draft<'a, Text, Edition>;

// The bytes of a situation's alert, or why it is set aside where these are too many.
fn alert_bytes(
    alloc: Global,
    table: &Timetable,
    situation: &Situation,
) -> Result<Result<Bytes, Fault>, AllocError>
    requires { AreKnown (seen table.now) situation.now.refs }
    ensures bytes { IfOk result (λ made. IfOk made
        (λ bytes. bytes ≡ written (alert_message (seen table.now) situation.now))) }
    ensures verdict { IfOk result (λ made. MatchResult made
        (λ _. limited_verdict (seen table.now) (Ok situation.now) ≡ Ok situation.now)
        (λ fault. limited_verdict (seen table.now) (Ok situation.now) ≡ Err fault)) }
    ensures served { OnOk result (spec.IsVerdictServed (seen table.now)
        (limited_verdict (seen table.now) (Ok situation.now))) }
{
    let bytes = alert_entity(alloc, table, situation)?;
    let len = entity_body_len(bytes.as_slice());
    if len <= ALERT_LIMIT {
        Ok(Ok(bytes))
    } else {
        Ok(Err(Fault::EntityTooLong(len)))
    }
}

// Whether a situation counts; None where it has no room.
fn verdict(draft: &SituationDraft<'_>, situation: &Situation) -> Option<bool>
    ensures { result ≡ spec.situation_verdict (spec.alerts_after draft.now) situation.now }
{
    match draft.find(&situation.number) {
        Some(kept) => Some(situation.version >= kept.version),
        None => {
            if draft.len() < MOST_SITUATIONS {
                Some(true)
            } else {
                None
            }
        }
    }
}

// Puts a situation's alert at its number.
fn put_alert(
    alloc: Global,
    situation: &Situation,
    alert: Bytes,
    draft: &mut SituationDraft<'_>,
) -> Result<(), AllocError>
    ensures same { draft.new.kept ≡ draft.old.kept }
    ensures entries { (table : Table) → alert ≡ written (alert_message table situation.now)
        → OnOk result (spec.alerts_after draft.new
        ≡ spec.with_alert table (spec.alerts_after draft.old) situation.now) }
{
    let number = Text::copied(alloc, situation.number.as_str())?;
    let edition = Edition {
        version: situation.version,
        served: situation.served,
    };
    draft.put(number, edition, alert)
}

// Takes a situation that has this alert, and puts it where it counts; the fault where it has no room.
fn take_alert(
    alloc: Global,
    situation: &Situation,
    alert: Bytes,
    draft: &mut SituationDraft<'_>,
) -> Result<Option<Fault>, AllocError>
    ensures same { draft.new.kept ≡ draft.old.kept }
    ensures fault { IfOk result (λ fault. fault ≡ room_fault
        (spec.situation_verdict (spec.alerts_after draft.old) situation.now)) }
    ensures entries { (table : Table) → alert ≡ written (alert_message table situation.now)
        → OnOk result (spec.alerts_after draft.new
        ≡ spec.after_situation table (spec.alerts_after draft.old) situation.now
        (spec.situation_verdict (spec.alerts_after draft.old) situation.now)) }
{
    match verdict(draft, situation) {
        None => Ok(Some(Fault::Full)),
        Some(false) => Ok(None),
        Some(true) => {
            put_alert(alloc, situation, alert, draft)?;
            Ok(None)
        }
    }
}

// Takes a situation; the fault where it is set aside, for a long alert before want of room.
fn take_situation(
    alloc: Global,
    table: &Timetable,
    situation: &Situation,
    draft: &mut SituationDraft<'_>,
) -> Result<Option<Fault>, AllocError>
    requires { AreKnown (seen table.now) situation.now.refs }
    ensures same { draft.new.kept ≡ draft.old.kept }
    ensures fault { IfOk result (λ fault. fault ≡ spec.verdict_fault (spec.alerts_after draft.old)
        (limited_verdict (seen table.now) (Ok situation.now))) }
    ensures entries { OnOk result (spec.alerts_after draft.new
        ≡ spec.verdict_step (seen table.now) (spec.alerts_after draft.old)
        (limited_verdict (seen table.now) (Ok situation.now))) }
    ensures served { OnOk result (spec.IsVerdictServed (seen table.now)
        (limited_verdict (seen table.now) (Ok situation.now))) }
{
    match alert_bytes(alloc, table, situation)? {
        Ok(alert) => take_alert(alloc, situation, alert, draft),
        Err(fault) => Ok(Some(fault)),
    }
}

/// What takes the situations of a delivery: what will be kept, and what became of each so far.
#[derive(Drop)]
pub(crate) struct SituationTaking<'a> {
    /// What will be kept.
    pub draft: SituationDraft<'a>,
    /// What became of the situations.
    pub tally: Tally,
}

/// A situation's alert is put where it counts, or the situation is set aside where that is too long or has no room.
impl<'a> TakesSituations for SituationTaking<'a> {
    ghost has_taken = { spec.HasTaken };

    fn take(
        &mut self,
        alloc: Global,
        context: &Context<'_>,
        verdict: Result<(Situation, u64), Fault>,
    ) -> Result<(), AllocError> {
        match verdict {
            Ok((situation, passed)) => {
                let fault = take_situation(alloc, context.table, &situation, &mut self.draft)?;
                self.tally.add(passed, fault)
            }
            Err(fault) => self.tally.add(0, Some(fault)),
        }
    }
}
