//! How messages of GTFS Realtime 2.0 are written in protobuf's encoding: a feed's header without memory, and entities
//! into one buffer. It stands on `wire_fields`; what bytes mean is no part of it. Its point is `entity_bytes`, beside
//! `header_bytes`: the bytes are exactly those that `specs/Written.antt` names.
#![tactic(auto)]

mod header;
mod writing;

pub use header::{HeaderBytes, header_bytes};
pub use writing::entity_bytes;
