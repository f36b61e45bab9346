//! The public calls of the crates that read what runs when (gw_base, service_day, stop_schedule, journey_model,
//! sparse_planner): those that take memory once on their happy path, and the objects in memory. What they answer else
//! is data: `library_cases` has it.
#![tactic(auto)]

#[cfg(test)]
mod of_gw_base;
#[cfg(test)]
mod of_journey_model;
#[cfg(test)]
mod of_service_day;
#[cfg(test)]
mod of_sparse_planner;
#[cfg(test)]
mod of_stop_schedule;
