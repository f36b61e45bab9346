//! Connections, one after the other: each is read, answered and logged over a gateway (RFC 9112). It stands on
//! `gateway_core`, which keeps what was taken, and on `door_talk`, which reads requests. Its point is `serve_one`: the
//! entry of the log is `IsLawful` of `specs/Log.antt` after what arrived before it; and
//! `what_is_well_formed_is_taken_law`, over each entry of such a log. `serve_one_with` and `serve_with` are the same
//! over anything that holds a gateway and may keep bodies before they are taken (`HoldsGateway`). `serve_kept` and
//! `serve_all_kept` are these over a durable gateway and its disk: what a crash at any moment leaves holds every body
//! that was acknowledged (`HasKept` of gateway_durable, over the bodies of the log that `specs/Crashes.antt` says).
#![tactic(auto)]

mod answers;
mod completeness;
mod connection;
mod connections;
mod durable;
mod holds_gateway;
mod kept_connections;
mod not_taken;
mod posted_body;
mod take;

pub use completeness::what_is_well_formed_is_taken_law;
pub use connection::{serve_one, serve_one_with};
pub use connections::{serve, serve_with};
pub use holds_gateway::HoldsGateway;
pub use kept_connections::{serve_all_kept, serve_kept};
pub use not_taken::NotTaken;
