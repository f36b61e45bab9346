//! A gateway whose accepted bodies are on a disk before they are acknowledged, so that it can be opened again after a
//! crash. It stands on `gateway_core`, which takes bodies, and on `delivery_journal`, which keeps them. Its points are
//! `Durable::reopen` and `Durable::take`: what a crash at any moment leaves holds every acknowledged body, and what is
//! opened again stands for the bodies that the file holds, taken one after the other.
#![tactic(auto)]

mod durable;
mod keeper;
mod laws;
mod reopen_fault;
mod reopening;
mod taking;

pub use durable::Durable;
pub use laws::{a_crash_leaves_a_prefix_law, kept_bodies_replay_law};
pub use reopen_fault::ReopenFault;
