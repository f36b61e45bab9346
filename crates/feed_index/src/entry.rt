//! An entry.

use gw_base::Bytes;

/// A key with what is kept of it: a value and bytes.
#[derive(Debug, Drop)]
pub struct Entry<K, R> {
    pub key: K,
    pub value: R,
    pub bytes: Bytes,
}
