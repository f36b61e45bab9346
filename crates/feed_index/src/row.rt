//! A row of an index.

use span_pool::Slot;

/// An entry as an index keeps it: its bytes are the span of its slot.
#[derive(Debug, Drop)]
pub struct Row<K, R> {
    pub key: K,
    pub value: R,
    pub slot: Slot,
}
