//! Alerts: what a SIRI situation says, as GTFS Realtime tells it. The definitions are those of `specs/Alerts.antt`. It
//! stands on `journey_model`, which has the situations, and on `feed_messages`, which writes the alert. Its point is
//! `alert_of`: the alert of a situation is the one of the tables; and `alert_entity`, whose bytes mean that alert, or
//! are too long.
#![tactic(auto)]

mod alerts;
mod entities;
mod selectors;

pub use alerts::alert_of;
pub use entities::{alert_entity, entity_body_len};
