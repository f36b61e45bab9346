//! The public calls of the crates that keep and serve (span_pool, feed_index, gateway_core, http_talk, door_talk,
//! tcp_door, gateway_server) and of those that make samples, as their callers call them. It stands on `test_folder`
//! and on these crates; it stands apart from them, since the tests of a crate are proved with its whole text. Its
//! point is that each call answers a first good case with something, which its contract alone would let it refuse for
//! want of memory.
#![tactic(auto)]

#[cfg(test)]
mod of_door_talk;
#[cfg(test)]
mod of_feed_index;
#[cfg(test)]
mod of_feed_index_drafts;
#[cfg(test)]
mod of_gateway_core;
#[cfg(test)]
mod of_gateway_server;
#[cfg(test)]
mod of_http_talk;
#[cfg(test)]
mod of_sample_maker;
#[cfg(test)]
mod of_span_pool;
#[cfg(test)]
mod of_tcp_door;
#[cfg(test)]
mod settings;
