//! A list of entries in the order of their keys, each with a value and with bytes that stand in a pool of spans. A
//! contract sees the list of (key, value, bytes), as `specs/Entries.antt` says. It stands on `span_pool` and
//! `gw_base`. Its point is `FeedIndex::merge`: after `prepare_for` took the memory, a `Draft` of entries is merged
//! without a fault, and the index is exactly what the draft said.
#![tactic(auto)]

mod batch;
mod change;
mod draft;
mod entry;
mod index;
mod merge;
mod place;
mod row;
mod runs;
mod set;
mod write;

pub use batch::Batch;
pub use draft::Draft;
pub use entry::Entry;
pub use index::FeedIndex;
pub use write::Choice;
