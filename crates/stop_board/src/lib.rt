//! The board of a stop (SIRI 2.0, StopMonitoring service): which vehicles call there within some minutes. It stands on
//! `journey_model` for how journeys read, and on `siri_calls` and `siri_json` for how calls are written. Its point is
//! `Board::text`: the text is that of `specs/BoardTree.antt`, with the first of the sorted visits of
//! `specs/Visits.antt`.
#![tactic(auto)]

mod board;
mod sorting;
mod visits;
mod writing;

pub use board::Board;
pub use visits::{Asked, Visit};
