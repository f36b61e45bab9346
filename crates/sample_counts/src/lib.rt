//! What a feed says of a sample is counted: how it reads at every stop of every trip, its updates and its bytes. It
//! stands on `propagation`, which reads a feed, and on `sample_maker`, which has the forms of lines. Its point is
//! `count_feed`: the counts are those of `specs/Counts.antt`; and `counts_line` writes them.
#![tactic(auto)]

mod counting;
mod counts;
mod line;
mod tally;

pub use counting::count_feed;
pub use counts::SampleCounts;
pub use line::counts_line;
