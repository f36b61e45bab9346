//! The commands that read files and end: deliveries of SIRI 2.0 over a GTFS Schedule folder become a GTFS Realtime 2.0
//! feed or the board of a stop, a feed becomes a delivery or lines, and a sample is made and counted. Nothing is
//! written here. It stands on `command_words`, on `gateway_core`, and on the crates that say what a feed says. Its
//! point is `task_work`: what a command writes or how it ends is what `IsTaskWork` of `specs/Tasks.antt` says of its
//! files.
#![tactic(auto)]

mod boards;
mod bodies;
mod deliveries;
mod done;
mod exit;
mod feeds;
mod folder_end;
mod made_folder;
mod opening;
mod reading;
mod samples;
mod work;

pub use done::Done;
pub use exit::{DONE, Exit, FAILED};
pub use opening::setting;
pub use samples::run_sample;
pub use work::task_work;
