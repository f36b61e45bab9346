//! Deliveries of estimated timetables (SIRI 2.0, in JSON after SIRI Lite): what each journey of one says, and how one
//! is written. It stands on `siri_json` for the frame and the forms, and on `journey_model` for stops and faults. Its
//! point is `hand_on_journeys`, which hands on each journey as a record with a reading for every stop, or its first
//! fault; `read_delivery`, which gathers them; and `write_delivery`, whose text is exactly that of its definition.
#![tactic(auto)]

mod call_reading;
mod calls;
mod delays;
mod delivery;
mod dense;
mod frame;
mod header;
mod items;
mod judging;
mod long_places;
mod matching_calls;
mod read_members;
mod takes_journeys;
mod writing;

pub use delivery::{Delivery, Item, hand_on_journeys, read_delivery};
pub use siri_json::DeliveryFault;
pub use takes_journeys::TakesJourneys;
pub use writing::write_delivery;
