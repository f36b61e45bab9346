//! What `show` prints: the lines that tell how a feed reads every stop of every journey that it gives. It stands on
//! `propagation`, which reads the feed. Its point is `show_lines`: the text is exactly `shown` of `specs/Lines.antt`.
#![tactic(auto)]

mod lines;
mod stop_lines;

pub use lines::show_lines;
