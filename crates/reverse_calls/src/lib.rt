//! A GTFS Realtime feed becomes the SIRI delivery of estimated timetables that says the same of every stop of every
//! journey. It stands on `propagation`, which reads the feed, and on `siri_calls`, which writes the delivery. Its
//! point is `siri_of_readings`, clauses `answers` and `of_feed`: the text is that of the feed's readings, or these
//! have too many calls.
#![tactic(auto)]

mod counting;
mod readings_fault;
mod reverse_fault;
mod sayable;
mod siri;

pub use readings_fault::ReadingsFault;
pub use reverse_fault::ReverseFault;
pub use siri::{siri_of, siri_of_readings};
