//! Requests read off a door: what the whole input of a connection asks for, in whatever pieces it comes (RFC 9112).
//! The definitions are those of `specs/Requests.antt`. It stands on `http_talk` for heads and on `gw_base` for the
//! door. Its point is `read_request`, clause `asks`; what takes the body of a POST as it comes, a `TakesBody`, stands
//! for the whole body.
#![tactic(auto)]

mod asked;
mod bodies;
mod heads;
mod piece;
mod requests;
mod taker;

pub use asked::Asked;
pub use requests::read_request;
pub use taker::TakesBody;
