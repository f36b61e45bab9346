//! How the row of a key is set, and how it goes, together with its span.
ghost use Rattle.std.specs.Prelude.{◌≡◌, ◌+◌, ◌<◌, ◌≤◌, length, vec_len, vec_capacity};
ghost use Rattle.feed_index.specs.Entries.{put, removed, value_at};
ghost use Rattle.feed_index.specs.Rows.{AreHeld, AreSorted, GaveBack, entries_of};

use crate::change::{exchange, insert, take_out};
use crate::place::place;
use crate::row::Row;
use span_pool::SpanPool;

/// Sets the row of a key, and answers the value that the key had. Takes no memory.
pub fn set<K: Ord + Drop, R>(
    rows: &mut Vec<Row<K, R>>,
    pool: &mut SpanPool,
    key: K,
    value: R,
    bytes: &[u8],
) -> Option<R>
    requires rows_room { vec_len rows.old < vec_capacity rows.old }
    requires bytes_room { length bytes.now ≤ pool.old.spare_bytes }
    requires spans_room { 0 < pool.old.spare_spans }
    requires held { AreHeld rows.old.items pool.old.spans }
    requires sorted { AreSorted K.cmp rows.old.items }
    ensures held { AreHeld rows.new.items pool.new.spans }
    ensures sorted { AreSorted K.cmp rows.new.items }
    ensures entries { entries_of pool.new.spans rows.new.items
        ≡ put K.cmp (entries_of pool.old.spans rows.old.items)
        (record { key = key; value = value; bytes = bytes.now }) }
    ensures old { result ≡ value_at K.cmp (entries_of pool.old.spans rows.old.items) key }
    ensures len { vec_len rows.new ≤ vec_len rows.old + 1 }
    ensures capacity { vec_capacity rows.new ≡ vec_capacity rows.old }
    ensures dead { GaveBack pool.old (length bytes.now) pool.new }
    ensures spare_bytes { pool.old.spare_bytes ≤ pool.new.spare_bytes + length bytes.now }
    ensures spare_spans { pool.old.spare_spans ≤ pool.new.spare_spans + 1 }
{
    match place(rows, &key) {
        Ok(at) => Some(exchange(rows, pool, at, key, value, bytes)),
        Err(at) => {
            insert(rows, pool, at, key, value, bytes);
            None
        }
    }
}

/// Takes the row of a key out, and answers its value. Takes no memory.
pub fn unset<K: Ord + Drop, R>(rows: &mut Vec<Row<K, R>>, pool: &mut SpanPool, key: &K) -> Option<R>
    requires held { AreHeld rows.old.items pool.old.spans }
    requires sorted { AreSorted K.cmp rows.old.items }
    ensures held { AreHeld rows.new.items pool.new.spans }
    ensures sorted { AreSorted K.cmp rows.new.items }
    ensures entries { entries_of pool.new.spans rows.new.items
        ≡ removed K.cmp (entries_of pool.old.spans rows.old.items) key.now }
    ensures old { result ≡ value_at K.cmp (entries_of pool.old.spans rows.old.items) key.now }
    ensures len { vec_len rows.new ≤ vec_len rows.old }
    ensures capacity { vec_capacity rows.new ≡ vec_capacity rows.old }
    ensures dead { GaveBack pool.old 0 pool.new }
    ensures spare_bytes { pool.old.spare_bytes ≤ pool.new.spare_bytes }
    ensures spare_spans { pool.old.spare_spans ≤ pool.new.spare_spans }
{
    match place(rows, key) {
        Ok(at) => Some(take_out(rows, pool, at)),
        Err(_) => None,
    }
}
