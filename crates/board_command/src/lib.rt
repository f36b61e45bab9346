//! What `board` prints: the visits that the journeys of a gateway make at a stop within some minutes. It stands on
//! `gateway_core`, which serves the feed of all that was taken, on `propagation`, which reads it again, and on
//! `stop_board`, which sorts the visits and writes them. Its point is `board_of`: the text is the board of the latest
//! record of each journey, by `ShowsBoard` of `specs/Shown.antt`.
#![tactic(auto)]

mod board;

pub use board::board_of;
