//! What an alert says that a situation can say again. The functions meet `specs/Senses.antt`.
ghost use Rattle.std.specs.Prelude.{◌≡◌, All, map};
ghost use Rattle.std.specs.Option.{option_copied};
ghost use Rattle.reverse_alerts.specs.Senses as spec;
ghost use Rattle.reverse_alerts.specs.SituationTexts as texts;

use gw_base::alert_cause::{
    MEDICAL_EMERGENCY, OTHER_CAUSE, TECHNICAL_PROBLEM, UNKNOWN_CAUSE, WEATHER,
};
use gw_base::alert_effect::{MODIFIED_SERVICE, NO_SERVICE, SIGNIFICANT_DELAYS, UNKNOWN_EFFECT};
use gw_base::{Period, Translation};

// Whether a period has neither a start nor an end.
fn is_open(period: &Period) -> bool
    ensures { result ≡ spec.is_open period.now }
{
    period.start.is_none() && period.end.is_none()
}

/// The periods in which an alert holds: none where it always does.
pub(crate) fn holding(periods: &[Period]) -> &[Period]
    ensures periods { map spec.valid_period result.now ≡ spec.holding periods.now }
    ensures told { All texts.IsTold periods.now → All texts.IsTold result.now }
{
    for period in periods {
        if is_open(period) {
            return &[];
        }
    }
    periods
}

/// The cause that is told, as a number of GTFS Realtime.
pub(crate) fn cause_of(cause: &i32) -> i32
    ensures { result ≡ spec.cause_of cause.now }
{
    match *cause {
        TECHNICAL_PROBLEM | WEATHER => *cause,
        OTHER_CAUSE..=MEDICAL_EMERGENCY => OTHER_CAUSE,
        _ => UNKNOWN_CAUSE,
    }
}

/// The effect that is told, as a number of GTFS Realtime.
pub(crate) fn effect_of(effect: &i32) -> i32
    ensures { result ≡ spec.effect_of effect.now }
{
    match *effect {
        NO_SERVICE | SIGNIFICANT_DELAYS..=MODIFIED_SERVICE => *effect,
        _ => UNKNOWN_EFFECT,
    }
}

/// The text that is told: that of the first translation, where it isn't empty.
pub(crate) fn first_text(all: &[Translation]) -> Option<&str>
    ensures { option_copied result ≡ spec.first_text all.now }
{
    match all.first() {
        Some(first) if !first.text.as_str().is_empty() => Some(first.text.as_str()),
        _ => None,
    }
}
