//! The timetable of a GTFS Schedule folder: `read_timetable` reads its files once, and answers what they mean or their
//! first fault. The timetable itself, with its calls, is that of the crate `timetable`.
#![tactic(auto)]

mod assembling;
mod checks;
mod column;
mod fields;
mod folder;
mod folder_rows;
mod forms;
mod frequency_rows;
mod guesses;
mod id_fields;
mod layout;
mod limits;
mod loading;
mod route_rows;
mod rows;
mod service_rows;
mod sheet;
mod stop_rows;
mod stop_time_rows;
mod stop_times;
mod table_fault;
mod table_file;
mod taking;
mod trip_rows;
mod trip_stops;
mod zone_rows;

pub use assembling::read_timetable;
pub use column::Column;
pub use table_fault::TableFault;
pub use table_file::TableFile;
pub use timetable::{RouteNo, StopNo, StopRow, Timetable, TripNo};
