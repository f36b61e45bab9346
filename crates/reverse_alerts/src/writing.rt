//! The delivery of a feed's alerts, written one entity after the other. The functions meet `specs/Progress.antt`.
ghost use Rattle.std.specs.Prelude.{◌≡◌, ◌-◌, ◌++◌, ◌<◌, All, None, Some, Err, Ok, nat_lt, length, IfOk, OnOk};
ghost use Rattle.std.specs.Option.{option_copied};
ghost use Rattle.gw_base.specs.Count.{last_count};
ghost use Rattle.serde_json.specs.Written.{comma_if};
ghost use Rattle.timetable.specs.Seen.{seen};
ghost use Rattle.reverse_alerts.specs.Kept.{all_named, selectors_passed};
ghost use Rattle.reverse_alerts.specs.Naming.{refs_of};
ghost use Rattle.reverse_alerts.specs.Progress as spec;
ghost use Rattle.reverse_alerts.specs.Senses.{sense};
ghost use Rattle.reverse_alerts.specs.SituationTexts as texts;
ghost use Rattle.reverse_alerts.specs.SituationTree.{delivery_text};
ghost use Rattle.reverse_alerts.specs.Taken as taken;

use crate::faults::fault_of;
use crate::selectors::{NamedRefs, count, find_named};
use crate::write_situation::put_situation;
use gw_base::{Alert, Bytes, Entity, List, Moment};
use journey_model::{Fault, Report};
use siri_json::{put_comma, put_moment};
use std::alloc::{AllocError, Global};
use timetable::Timetable;

/// A delivery of situations that is being written.
#[derive(Drop)]
pub(crate) struct Writing {
    /// The text so far.
    pub(crate) text: Bytes,
    /// What became of the entities so far.
    pub(crate) report: Report,
    /// What the selectors of the last alert name.
    pub(crate) found: NamedRefs,
}

// How many selectors are passed over, of which so many name something.
fn passed_over(all: usize, named: usize) -> u64
    ensures { result ≡ all - named }
{
    all.saturating_sub(named) as u64
}

// Counts what is passed over. The count stays at its last value.
fn pass(report: &mut Report, more: u64)
    ensures { report.new ≡ spec.with_passed more report.old }
{
    report.passed = report.passed.saturating_add(more);
}

// Sets the alert of an entity aside.
fn set_aside(report: &mut Report, number: u64, fault: Fault) -> Result<(), AllocError>
    ensures { OnOk result (report.new ≡ spec.with_verdict number (Some (Err fault)) report.old) }
{
    report.aside.push((number, fault))
}

// The alert of an entity; none where it is to be deleted or has none.
fn alert_in(entity: &Entity) -> Option<&Alert>
    ensures { option_copied result ≡ taken.alert_in entity.now }
{
    match &entity.alert {
        Some(alert) if !entity.deleted => Some(alert.get()),
        _ => None,
    }
}

impl Writing {
    // Adds the situation of an alert, after a comma where another stands before.
    fn add(
        &mut self,
        table: &Timetable,
        moment: Moment,
        id: &str,
        alert: &Alert,
    ) -> Result<(), AllocError>
        requires few { self.old.report.taken < last_count }
        requires named { self.old.found ≡ refs_of (all_named (seen table.now) alert.now.selectors) }
        requires told { All texts.IsTold alert.now.periods }
        ensures text { OnOk result (self.new.text ≡ self.old.text
            ++ (comma_if (nat_lt 0 self.old.report.taken) ++ texts.situation_text (seen table.now)
            moment (taken.situation_of id.now (sense (seen table.now) alert.now)))) }
        ensures report { OnOk result (self.new.report ≡ spec.with_verdict 0
            (Some (Ok (taken.situation_of id.now (sense (seen table.now) alert.now)))) self.old.report) }
    {
        put_comma(&mut self.text, self.report.taken > 0)?;
        put_situation(&mut self.text, table, moment, id, alert, &self.found)?;
        self.report.taken += 1;
        Ok(())
    }

    // Finds what the selectors of an alert name, and counts those that are passed over. Answers how many are named.
    fn find(&mut self, table: &Timetable, alert: &Alert) -> Result<usize, AllocError>
        ensures found { OnOk result (self.new.found ≡ refs_of (all_named (seen table.now) alert.now.selectors)) }
        ensures named { IfOk result (λ named. named ≡ length (all_named (seen table.now) alert.now.selectors)) }
        ensures text { OnOk result (self.new.text ≡ self.old.text) }
        ensures report { OnOk result (self.new.report
            ≡ spec.with_passed (selectors_passed (seen table.now) alert.now.selectors) self.old.report) }
    {
        let all = alert.selectors.len();
        find_named(&mut self.found, table, alert.selectors.as_slice())?;
        let named = count(&self.found);
        pass(&mut self.report, passed_over(all, named));
        Ok(named)
    }

    // Takes the alert of an entity, or sets it aside.
    fn take_alert(
        &mut self,
        table: &Timetable,
        moment: Moment,
        number: u64,
        id: &str,
        alert: &Alert,
    ) -> Result<(), AllocError>
        requires { self.old.report.taken < last_count }
        ensures text { OnOk result (self.new.text ≡ self.old.text
            ++ spec.added_text (nat_lt 0 self.old.report.taken) (seen table.now) moment
            (Some (taken.verdict (seen table.now) id.now alert.now))) }
        ensures report { OnOk result (self.new.report
            ≡ spec.with_verdict number (Some (taken.verdict (seen table.now) id.now alert.now))
            (spec.with_passed (selectors_passed (seen table.now) alert.now.selectors) self.old.report)) }
    {
        let named = self.find(table, alert)?;
        match fault_of(id, alert, named) {
            Some(fault) => set_aside(&mut self.report, number, fault),
            None => self.add(table, moment, id, alert),
        }
    }

    // Takes an entity: its alert is taken or set aside, and one without an alert is passed.
    fn take_entity(
        &mut self,
        table: &Timetable,
        moment: Moment,
        number: u64,
        entity: &Entity,
    ) -> Result<(), AllocError>
        requires { self.old.report.taken < last_count }
        ensures text { OnOk result (self.new.text ≡ self.old.text
            ++ spec.added_text (nat_lt 0 self.old.report.taken) (seen table.now) moment
            (taken.entity_verdict (seen table.now) entity.now)) }
        ensures report { OnOk result (self.new.report
            ≡ spec.with_verdict number (taken.entity_verdict (seen table.now) entity.now)
            (spec.with_passed (taken.passed_in (seen table.now) entity.now) self.old.report)) }
    {
        match alert_in(entity) {
            Some(alert) => self.take_alert(table, moment, number, entity.id.as_str(), alert),
            None => {
                pass(&mut self.report, 1);
                Ok(())
            }
        }
    }
}

// Adds a delivery up to its situations, but for the names that lead to them.
fn put_frame(out: &mut Bytes, moment: Moment) -> Result<(), AllocError>
    ensures { OnOk result (out.new ≡ out.old ++ texts.frame_text moment) }
{
    let secs = moment.secs();
    put_moment(
        out,
        b"{\"Siri\":{\"ServiceDelivery\":{\"ResponseTimestamp\":",
        &secs,
    )?;
    put_moment(
        out,
        b",\"SituationExchangeDelivery\":[{\"ResponseTimestamp\":",
        &secs,
    )
}

// A delivery up to its situations, and the report on no entity.
fn begin(alloc: Global, moment: Moment) -> Result<Writing, AllocError>
    ensures text { IfOk result (λ writing. writing.text ≡ texts.head_text moment) }
    ensures report { IfOk result (λ writing. writing.report ≡ spec.no_report) }
{
    let mut text = List::new(alloc);
    put_frame(&mut text, moment)?;
    text.extend(b",\"Situations\":{\"PtSituationElement\":[")?;
    Ok(Writing {
        text,
        report: Report {
            taken: 0,
            passed: 0,
            aside: List::new(alloc),
        },
        found: NamedRefs::new(alloc),
    })
}

/// The delivery that says at that moment what the alerts of a feed's entities say, and the report on the entities.
pub(crate) fn write_all(
    alloc: Global,
    table: &Timetable,
    moment: Moment,
    entities: &[Entity],
) -> Result<(Bytes, Report), AllocError>
    ensures text { IfOk result (λ both. both.0
        ≡ delivery_text (seen table.now) moment (taken.situations (seen table.now) entities.now)) }
    ensures report { IfOk result (λ both. both.1 ≡ taken.report_on (seen table.now) entities.now) }
{
    let mut writing = begin(alloc, moment)?;
    for (number, entity) in entities.iter().enumerate() {
        writing.take_entity(table, moment, number as u64, entity)?;
    }
    writing.text.extend(b"]},\"version\":\"2.0\"}]}}}")?;
    let Writing {
        text,
        report,
        found: _,
    } = writing;
    Ok((text, report))
}
