//! The shortest list of GTFS Realtime stop time updates that says how a journey reads. The definitions are
//! `specs/Shortest.antt`, what the list is, and `specs/Means.antt`, what it says and that no shorter one says it. It
//! stands on `journey_model`, which has the rules of propagation. Its point is `plan`: clause `says`, that the updates
//! give every stop its reading, and clause `least`, that no shorter list does.
#![tactic(auto)]

mod planning;

pub use planning::plan;
