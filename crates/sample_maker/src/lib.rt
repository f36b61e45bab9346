//! Samples: a folder of GTFS Schedule and deliveries of SIRI estimated timetables that follow from three numbers: a
//! seed, how many trips there are, and at how many stops each of them stops. It stands on `service_day`. Its point is
//! `Maker`: the texts that it writes are those of `specs/Folder.antt` and `specs/Deliveries.antt`.
#![tactic(auto)]

mod draws;
mod folder;
mod journeys;
mod maker;
mod writing;

pub use maker::Maker;
