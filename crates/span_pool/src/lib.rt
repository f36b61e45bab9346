//! A region of bytes that holds many spans in one block of memory, each under a slot. A contract sees the live spans
//! with their slots, as `specs/Spans.antt` says. It stands on `gw_base`. Its point is `SpanPool::put`: the span's
//! bytes stay under its slot, and no two live spans share one, until `give_back`.
#![tactic(auto)]

mod order;
mod packing;
mod place;
mod pool;
mod slot;

pub use pool::SpanPool;
pub use slot::Slot;
