//! Deliveries of situations (SIRI 2.0, SituationExchangeDelivery, in JSON after SIRI Lite): what each situation of one
//! says. It stands on `siri_json` for the frame and the forms, and on `journey_model`, which has the situations. Its
//! point is `hand_on_situations`: each item that is handed on is what the rules say, or its first fault, and what it
//! affects is known in the timetable; `read_situations` gathers them.
#![tactic(auto)]

mod affected;
mod content;
mod delivery;
mod frame;
mod periods;
mod senses;
mod situations;
mod steps;
mod takes_situations;

pub use delivery::{Item, SituationDelivery, hand_on_situations, read_situations};
pub use journey_model::{Ref, Situation, ValidPeriod};
pub use siri_json::DeliveryFault;
pub use takes_situations::TakesSituations;
