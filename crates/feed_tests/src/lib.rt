//! The public calls of the crates that read and write GTFS Realtime and of those that turn it into SIRI and back, each
//! once on its happy path, as their callers call them. What they answer else is data: `feed_cases` has it. It stands
//! apart from the crates that it calls, since the tests of a crate are proved with its whole text.
#![tactic(auto)]

#[cfg(test)]
mod late;
#[cfg(test)]
mod of_alert_map;
#[cfg(test)]
mod of_feed_messages;
#[cfg(test)]
mod of_latest_store;
#[cfg(test)]
mod of_propagation;
#[cfg(test)]
mod of_reverse_alerts;
#[cfg(test)]
mod of_reverse_calls;
#[cfg(test)]
mod of_show_command;
#[cfg(test)]
mod of_wire_fields;
