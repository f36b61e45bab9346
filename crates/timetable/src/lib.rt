//! The timetable: trips, stops and routes by number or id, the stops of each trip with their planned times, and the
//! days on which a trip runs. What it shows is a `Table`, and its calls say what that has; none of them takes memory.
//! `stop_schedule` reads one from the files of a folder.
#![tactic(auto)]

mod calendar;
mod carried_trip;
mod ids;
mod numbers;
mod services;
mod stop_row;
mod timetable;

pub use calendar::Calendar;
pub use carried_trip::CarriedTrip;
pub use ids::{Ids, MAX_ID_LEN};
pub use numbers::{RouteNo, StopNo, TripNo};
pub use services::Services;
pub use stop_row::StopRow;
pub use timetable::Timetable;
