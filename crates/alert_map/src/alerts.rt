//! The alert of a situation (GTFS Realtime reference, Alert).
ghost use Rattle.std.specs.Prelude.{◌≡◌, IfOk, map};
ghost use Rattle.timetable.specs.Seen.{seen};
ghost use Rattle.journey_model.specs.Situations.{AreKnown};
ghost use Rattle.alert_map.specs.Alerts as spec;

use crate::selectors::selectors_of;
use gw_base::{Alert, List, Period, Text, Translation};
use journey_model::{Situation, ValidPeriod};
use std::alloc::{AllocError, Global};
use timetable::Timetable;

// The active periods.
fn periods_of(alloc: Global, periods: &[ValidPeriod]) -> Result<List<Period>, AllocError>
    ensures { IfOk result (λ all. all ≡ map spec.period_of periods.now) }
{
    let mut all = List::new(alloc);
    for period in periods {
        all.push(Period {
            start: period.start,
            end: period.end,
        })?;
    }
    Ok(all)
}

// A text in one translation, or none.
fn translations(alloc: Global, text: &Option<Text>) -> Result<List<Translation>, AllocError>
    ensures { IfOk result (λ all. all ≡ spec.translations text.now) }
{
    let mut all = List::new(alloc);
    if let Some(text) = text {
        all.push(Translation {
            text: Text::copied(alloc, text.as_str())?,
            language: None,
        })?;
    }
    Ok(all)
}

/// The alert of a situation (SIRI 2.0, PtSituationElement; GTFS Realtime reference, Alert): its periods in whole
/// seconds since 1970, what it refers to as selectors in order, a journey by trip_id and start_date, its cause and
/// effect, and its texts, each in one translation without a language. The condition is that the timetable has all that
/// is referred to. Err for want of memory.
pub fn alert_of(
    alloc: Global,
    table: &Timetable,
    situation: &Situation,
) -> Result<Alert, AllocError>
    requires { AreKnown (seen table.now) situation.now.refs }
    ensures { IfOk result (λ made. made ≡ spec.alert (seen table.now) situation.now) }
{
    let periods = periods_of(alloc, situation.periods.as_slice())?;
    let selectors = selectors_of(alloc, table, situation.refs.as_slice())?;
    let header = translations(alloc, &situation.summary)?;
    let description = translations(alloc, &situation.description)?;
    Ok(Alert {
        periods,
        selectors,
        cause: situation.cause,
        effect: situation.effect,
        header,
        description,
    })
}
