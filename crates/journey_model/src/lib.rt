//! What journeys read as: the readings of stops and journeys, how calls and updates are matched to the stops of a
//! trip, the faults for which an item is set aside, reports, and situations. The definitions of propagation and of
//! what a feed says stand here, since several layers cite them. It stands on `stop_schedule`. Its point is
//! `match_call`, beside `match_update`: the stop that is meant, or the fault, exactly by the rules. Only the lines of
//! a report take memory.
#![tactic(auto)]

mod context;
mod dates;
mod fault;
mod matching;
mod names;
mod places;
mod readings;
mod report;
mod situation;
mod times;
mod trip_run;

pub use context::{Context, DatedTrip};
pub use dates::date_text;
pub use fault::{Fault, FaultText, fault_text};
pub use matching::{MatchFault, NamedStop, has_station, match_call, match_update};
pub use names::{filled_text, journey_named, route_named, stop_named};
pub use places::{are_of_station, place_size, places_fault};
pub use readings::{DatedReading, JourneyReading, JourneyRecord, StopReading};
pub use report::{Report, add_report};
pub use situation::{Ref, Situation, ValidPeriod};
pub use times::{both_times, delay_fault, planned_times};
pub use trip_run::TripRun;
