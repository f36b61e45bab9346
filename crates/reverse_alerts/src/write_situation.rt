//! A situation (SIRI 2.0, PtSituationElement), written from the texts of its alert. The functions meet
//! `specs/SituationTexts.antt`.
ghost use Rattle.std.specs.Prelude.{◌≡◌, ◌++◌, false, All, codes, map, OnOk};
ghost use Rattle.std.specs.Option.{option_copied};
ghost use Rattle.siri_json.specs.WrittenTexts.{led_moment};
ghost use Rattle.timetable.specs.Seen.{seen};
ghost use Rattle.reverse_alerts.specs.Kept.{all_named};
ghost use Rattle.reverse_alerts.specs.Naming.{AreKnown, refs_of};
ghost use Rattle.reverse_alerts.specs.Senses as senses;
ghost use Rattle.reverse_alerts.specs.Senses.{valid_period};
ghost use Rattle.reverse_alerts.specs.SituationTexts as spec;
ghost use Rattle.reverse_alerts.specs.SituationTree as tree;
ghost use Rattle.reverse_alerts.specs.Taken.{situation_of};

use crate::selectors::NamedRefs;
use crate::senses::{cause_of, effect_of, first_text, holding};
use crate::write_affects::put_affects;
use gw_base::alert_cause::{OTHER_CAUSE, TECHNICAL_PROBLEM, WEATHER};
use gw_base::alert_effect::{
    ADDITIONAL_SERVICE, DETOUR, MODIFIED_SERVICE, NO_SERVICE, SIGNIFICANT_DELAYS,
};
use gw_base::{Alert, Bytes, Moment, Period, Translation};
use siri_json::{put_comma, put_moment, put_text};
use std::alloc::AllocError;
use timetable::Timetable;

// The word of an effect (SIRI 2.0, Condition), which an unknown one lacks.
fn condition_of(effect: &i32) -> Option<&'static str>
    ensures { option_copied result ≡ tree.condition_of effect.now }
{
    match *effect {
        NO_SERVICE => Some("noService"),
        SIGNIFICANT_DELAYS => Some("delayed"),
        DETOUR => Some("diverted"),
        ADDITIONAL_SERVICE => Some("additionalService"),
        MODIFIED_SERVICE => Some("altered"),
        _ => None,
    }
}

// Adds the effect.
fn put_condition(out: &mut Bytes, effect: &i32) -> Result<(), AllocError>
    ensures { OnOk result (out.new ≡ out.old ++ spec.condition_text (tree.condition_of effect.now)) }
{
    let Some(word) = condition_of(effect) else {
        return Ok(());
    };
    put_text(
        out,
        b",\"Consequences\":{\"Consequence\":[{\"Condition\":",
        word.as_bytes(),
    )?;
    out.extend(b"}]}")
}

// The member that is the reason of a cause, which an unknown one lacks.
fn reason_of(cause: &i32) -> Option<&'static str>
    ensures { option_copied result ≡ tree.reason_of cause.now }
{
    match *cause {
        TECHNICAL_PROBLEM => Some("EquipmentReason"),
        WEATHER => Some("EnvironmentReason"),
        OTHER_CAUSE => Some("MiscellaneousReason"),
        _ => None,
    }
}

// Adds the cause.
fn put_reason(out: &mut Bytes, cause: &i32) -> Result<(), AllocError>
    ensures { OnOk result (out.new ≡ out.old ++ spec.reason_text (tree.reason_of cause.now)) }
{
    let Some(name) = reason_of(cause) else {
        return Ok(());
    };
    put_text(out, b",", name.as_bytes())?;
    out.extend(b":\"unknown\"")
}

// Adds a text after what leads to it, where there is one.
fn put_if(out: &mut Bytes, lead: &[u8], text: Option<&str>) -> Result<(), AllocError>
    ensures { OnOk result (out.new ≡ out.old ++ spec.led_if lead.now (option_copied text.entry)) }
{
    match text {
        Some(text) => put_text(out, lead, text.as_bytes()),
        None => Ok(()),
    }
}

// Adds a bound of a period after what leads to it, where there is one.
fn put_bound(out: &mut Bytes, lead: &[u8], bound: Option<u64>) -> Result<(), AllocError>
    requires { spec.IsBound bound }
    ensures { OnOk result (out.new ≡ out.old ++ spec.moment_if lead.now bound) }
{
    match bound {
        Some(secs) => put_moment(out, lead, &(secs as i64)),
        None => Ok(()),
    }
}

// What leads to the start of a period.
fn start_lead(end: Option<u64>) -> &'static [u8]
    ensures { result.now ≡ spec.start_lead end }
{
    match end {
        Some(_) => b",\"StartTime\":",
        None => b"\"StartTime\":",
    }
}

// Adds a period.
#[tactic(auto, unfolding(crate::specs::SituationTexts::period_text))]
fn put_period(out: &mut Bytes, period: &Period) -> Result<(), AllocError>
    requires { spec.IsTold period.now }
    ensures { OnOk result (out.new ≡ out.old ++ spec.period_text (valid_period period.now)) }
{
    out.push(b'{')?;
    put_bound(out, b"\"EndTime\":", period.end)?;
    put_bound(out, start_lead(period.end), period.start)?;
    out.push(b'}')
}

// Adds periods, and the bracket that closes them.
fn put_periods(out: &mut Bytes, periods: &[Period]) -> Result<(), AllocError>
    requires { All spec.IsTold periods.now }
    ensures { OnOk result (out.new ≡ out.old ++ spec.periods_text false (map valid_period periods.now)) }
{
    let mut later = false;
    for period in periods {
        put_comma(out, later)?;
        put_period(out, period)?;
        later = true;
    }
    out.push(b']')
}

// Adds when a situation holds, and nothing where it always does.
fn put_valid(out: &mut Bytes, periods: &[Period]) -> Result<(), AllocError>
    requires { All spec.IsTold periods.now }
    ensures { OnOk result (out.new ≡ out.old ++ spec.valid_text (map valid_period periods.now)) }
{
    if periods.is_empty() {
        return Ok(());
    }
    out.extend(b",\"ValidityPeriod\":[")?;
    put_periods(out, periods)
}

// Adds the effect of an alert.
fn put_effect(out: &mut Bytes, alert: &Alert) -> Result<(), AllocError>
    ensures { OnOk result (out.new ≡ out.old
        ++ spec.condition_text (tree.condition_of (senses.effect_of alert.now.effect))) }
{
    let effect = effect_of(&alert.effect);
    put_condition(out, &effect)
}

// Adds that a situation was made at that moment.
fn put_created(out: &mut Bytes, moment: Moment) -> Result<(), AllocError>
    ensures { OnOk result (out.new ≡ out.old ++ led_moment (codes ",\"CreationTime\":") moment) }
{
    let secs = moment.secs();
    put_moment(out, b",\"CreationTime\":", &secs)
}

// Adds what a situation affects, its effect, and that it was made at that moment.
fn put_what(
    out: &mut Bytes,
    table: &Timetable,
    moment: Moment,
    alert: &Alert,
    found: &NamedRefs,
) -> Result<(), AllocError>
    requires { AreKnown (seen table.now) found.now }
    ensures { OnOk result (out.new ≡ out.old ++ spec.what_text (seen table.now) moment
        found.now.routes found.now.stops found.now.journeys (senses.effect_of alert.now.effect)) }
{
    put_affects(out, table, found)?;
    put_effect(out, alert)?;
    put_created(out, moment)
}

// Adds the cause of an alert.
fn put_cause(out: &mut Bytes, alert: &Alert) -> Result<(), AllocError>
    ensures { OnOk result (out.new ≡ out.old
        ++ spec.reason_text (tree.reason_of (senses.cause_of alert.now.cause))) }
{
    let cause = cause_of(&alert.cause);
    put_reason(out, &cause)
}

// Adds the longer text of a situation and its cause.
fn put_description(out: &mut Bytes, alert: &Alert) -> Result<(), AllocError>
    ensures { OnOk result (out.new ≡ out.old ++ spec.cause_text (senses.cause_of alert.now.cause)
        (senses.first_text alert.now.description)) }
{
    put_if(
        out,
        b",\"Description\":",
        first_text(alert.description.as_slice()),
    )?;
    put_cause(out, alert)
}

// Adds the number of a situation and its short text.
fn put_number(out: &mut Bytes, id: &str, header: &[Translation]) -> Result<(), AllocError>
    ensures { OnOk result (out.new ≡ out.old ++ spec.number_text id.now (senses.first_text header.now)) }
{
    put_text(out, b",\"SituationNumber\":", id.as_bytes())?;
    put_if(out, b",\"Summary\":", first_text(header))
}

// Adds the cause of a situation, its number and its texts.
fn put_why(out: &mut Bytes, id: &str, alert: &Alert) -> Result<(), AllocError>
    ensures { OnOk result (out.new ≡ out.old ++ spec.why_text id.now (senses.cause_of alert.now.cause)
        (senses.first_text alert.now.header) (senses.first_text alert.now.description)) }
{
    put_description(out, alert)?;
    put_number(out, id, alert.header.as_slice())
}

// Adds when a situation holds, with which it ends.
fn put_when(out: &mut Bytes, periods: &[Period]) -> Result<(), AllocError>
    requires { All spec.IsTold periods.now }
    ensures { OnOk result (out.new ≡ out.old
        ++ (spec.valid_text (senses.holding periods.now) ++ codes "}")) }
{
    put_valid(out, holding(periods))?;
    out.push(b'}')
}

/// Adds the situation of an alert by the id of its entity and what its selectors name, at that moment.
pub(crate) fn put_situation(
    out: &mut Bytes,
    table: &Timetable,
    moment: Moment,
    id: &str,
    alert: &Alert,
    found: &NamedRefs,
) -> Result<(), AllocError>
    requires named { found.now ≡ refs_of (all_named (seen table.now) alert.now.selectors) }
    requires told { All spec.IsTold alert.now.periods }
    ensures { OnOk result (out.new ≡ out.old ++ spec.situation_text (seen table.now) moment
        (situation_of id.now (senses.sense (seen table.now) alert.now))) }
{
    put_what(out, table, moment, alert, found)?;
    put_why(out, id, alert)?;
    put_when(out, alert.periods.as_slice())
}
