//! What words of SIRI mean. The functions meet `specs/Senses.antt`.
ghost use Rattle.std.specs.Prelude.{◌≡◌, Some, option_map};
ghost use Rattle.json_tree.specs.Trees.{view};
ghost use Rattle.siri_situations.specs.Senses as spec;

use gw_base::alert_cause::{OTHER_CAUSE, TECHNICAL_PROBLEM, UNKNOWN_CAUSE, WEATHER};
use gw_base::alert_effect::{
    ADDITIONAL_SERVICE, DETOUR, MODIFIED_SERVICE, NO_SERVICE, SIGNIFICANT_DELAYS, UNKNOWN_EFFECT,
};
use json::Value;
use json_tree::find;
use siri_json::forms::repeated;

// Whether a situation with this progress is served.
fn is_served_at(progress: &str) -> bool
    ensures { result ≡ spec.is_served (Some progress.now) }
{
    !(progress.eq_ignore_ascii_case("closed") || progress.eq_ignore_ascii_case("draft"))
}

/// Whether a situation is served: it is neither closed nor a draft.
pub(crate) fn is_served(progress: Option<&str>) -> bool
    ensures { result ≡ spec.is_served (option_map (λ text. text.now) progress.entry) }
{
    match progress {
        Some(progress) => is_served_at(progress),
        None => true,
    }
}

// Whether a reason is present.
fn is_present(tree: &Value<'_>, name: &str) -> bool
    ensures { result ≡ spec.is_present name.now (view tree.now) }
{
    match find(tree, name) {
        Some(found) => !repeated(found).is_empty(),
        None => false,
    }
}

/// The cause, as a number of GTFS Realtime (Alert.Cause).
pub(crate) fn cause(tree: &Value<'_>) -> i32
    ensures { result ≡ spec.cause (view tree.now) }
{
    if is_present(tree, "EquipmentReason") {
        TECHNICAL_PROBLEM
    } else if is_present(tree, "EnvironmentReason") {
        WEATHER
    } else if is_present(tree, "PersonnelReason") {
        OTHER_CAUSE
    } else if is_present(tree, "MiscellaneousReason") {
        OTHER_CAUSE
    } else {
        UNKNOWN_CAUSE
    }
}

// The effect of a condition.
fn effect_named(condition: &str) -> i32
    ensures { result ≡ spec.effect_named condition.now }
{
    match condition {
        "cancelled" | "noService" => NO_SERVICE,
        "delayed" => SIGNIFICANT_DELAYS,
        "diverted" => DETOUR,
        "additionalService" => ADDITIONAL_SERVICE,
        "altered" | "disrupted" => MODIFIED_SERVICE,
        _ => UNKNOWN_EFFECT,
    }
}

/// The effect, as a number of GTFS Realtime (Alert.Effect).
pub(crate) fn effect_of(condition: Option<&str>) -> i32
    ensures { result ≡ spec.effect_of (option_map (λ text. text.now) condition.entry) }
{
    match condition {
        Some(condition) => effect_named(condition),
        None => UNKNOWN_EFFECT,
    }
}
