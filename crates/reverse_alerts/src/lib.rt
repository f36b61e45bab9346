//! The alerts of a GTFS Realtime feed become the SIRI delivery of situations that says the same. It stands on
//! `alert_map` and `siri_situations`, of which it is the way back, and on `siri_calls` for the texts of JSON. Its
//! point is `sx_of`: the situations of just the alerts that are taken, and the first fault of each other; and
//! `what_was_read_comes_back_law`, by which a situation that is served comes back.
#![tactic(auto)]

mod coming_back;
mod faults;
mod selectors;
mod senses;
mod sx;
mod sx_fault;
mod texts;
mod write_affects;
mod write_situation;
mod writing;

pub use coming_back::what_was_read_comes_back_law;
pub use sx::sx_of;
pub use sx_fault::SxFault;
