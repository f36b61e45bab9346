//! The records of journeys: which of two counts, and the entity with which a record is served. It stands on
//! `sparse_planner` for the updates and on `feed_messages` for their bytes. Its point is `wins`, by which the later
//! recorded record counts and of equal ones the later arrival, and `record_entity`: a reader of its bytes takes them
//! for just that journey, day and reading.
#![tactic(auto)]

mod entities;
mod preparing;
mod winning;

pub use preparing::{Prepared, prepare_record, record_entity};
pub use winning::wins;
