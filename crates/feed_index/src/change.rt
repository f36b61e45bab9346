//! How a row comes, takes the place of another one, or goes, together with its span.
ghost use Rattle.std.specs.Prelude.{◌≡◌, ◌+◌, ◌-◌, ◌<◌, ◌≤◌, length, insert, remove, slice_set, slice_get, Some, vec_len, vec_capacity, option_map, drop};
ghost use Rattle.span_pool.specs.Spans.{live_bytes};
ghost use Rattle.feed_index.specs.Entries.{most_dead, settled};
ghost use Rattle.feed_index.specs.Rows.{AreHeld, entries_of, GaveBack};

use crate::row::Row;
use span_pool::SpanPool;
use std::mem;

/// How many bytes may be dead beside those that live, more than these.
const MOST_DEAD: u64 = 65_536;

/// Puts a row there, before those that stand from there on.
pub fn insert<K, R>(
    rows: &mut Vec<Row<K, R>>,
    pool: &mut SpanPool,
    at: usize,
    key: K,
    value: R,
    bytes: &[u8],
)
    requires within { at ≤ vec_len rows.old }
    requires rows_room { vec_len rows.old < vec_capacity rows.old }
    requires bytes_room { length bytes.now ≤ pool.old.spare_bytes }
    requires spans_room { 0 < pool.old.spare_spans }
    requires held { AreHeld rows.old.items pool.old.spans }
    ensures held { AreHeld rows.new.items pool.new.spans }
    ensures entries { entries_of pool.new.spans rows.new.items
        ≡ insert (entries_of pool.old.spans rows.old.items) at
        (record { key = key; value = value; bytes = bytes.now }) }
    ensures len { vec_len rows.new ≡ vec_len rows.old + 1 }
    ensures capacity { vec_capacity rows.new ≡ vec_capacity rows.old }
    ensures dead { GaveBack pool.old (length bytes.now) pool.new }
    ensures spare_bytes { pool.old.spare_bytes ≤ pool.new.spare_bytes + length bytes.now }
    ensures spare_spans { pool.old.spare_spans ≤ pool.new.spare_spans + 1 }
{
    let slot = pool.put(bytes);
    rows.insert(at, Row { key, value, slot }).unwrap();
}

/// Puts a row in place of the one that stands there, whose value it answers.
pub fn exchange<K: Drop, R>(
    rows: &mut Vec<Row<K, R>>,
    pool: &mut SpanPool,
    at: usize,
    key: K,
    value: R,
    bytes: &[u8],
) -> R
    requires within { at < vec_len rows.old }
    requires bytes_room { length bytes.now ≤ pool.old.spare_bytes }
    requires spans_room { 0 < pool.old.spare_spans }
    requires held { AreHeld rows.old.items pool.old.spans }
    ensures held { AreHeld rows.new.items pool.new.spans }
    ensures entries { entries_of pool.new.spans rows.new.items
        ≡ slice_set (entries_of pool.old.spans rows.old.items) at
        (record { key = key; value = value; bytes = bytes.now }) }
    ensures old { option_map (λ row. row.value) (slice_get rows.old.items at) ≡ Some result }
    ensures len { vec_len rows.new ≡ vec_len rows.old }
    ensures capacity { vec_capacity rows.new ≡ vec_capacity rows.old }
    ensures dead { GaveBack pool.old (length bytes.now) pool.new }
    ensures spare_bytes { pool.old.spare_bytes ≤ pool.new.spare_bytes + length bytes.now }
    ensures spare_spans { pool.old.spare_spans ≤ pool.new.spare_spans + 1 }
{
    let slot = pool.put(bytes);
    let old = mem::replace(&mut rows[at], Row { key, value, slot });
    let Row {
        key: _,
        value: had,
        slot: freed,
    } = old;
    pool.give_back(freed);
    had
}

/// Takes the row that stands there out, and answers its value.
pub fn take_out<K: Drop, R>(rows: &mut Vec<Row<K, R>>, pool: &mut SpanPool, at: usize) -> R
    requires within { at < vec_len rows.old }
    requires held { AreHeld rows.old.items pool.old.spans }
    ensures held { AreHeld rows.new.items pool.new.spans }
    ensures entries { entries_of pool.new.spans rows.new.items ≡ remove (entries_of pool.old.spans rows.old.items) at }
    ensures old { option_map (λ row. row.value) (slice_get rows.old.items at) ≡ Some result }
    ensures len { vec_len rows.new + 1 ≡ vec_len rows.old }
    ensures capacity { vec_capacity rows.new ≡ vec_capacity rows.old }
    ensures dead { GaveBack pool.old 0 pool.new }
    ensures spare_bytes { pool.old.spare_bytes ≤ pool.new.spare_bytes }
    ensures spare_spans { pool.old.spare_spans ≤ pool.new.spare_spans }
{
    let Row {
        key: _,
        value,
        slot,
    } = rows.remove(at);
    pool.give_back(slot);
    value
}

/// Takes the first so many rows out.
pub fn cut<K: Drop, R: Drop>(rows: &mut Vec<Row<K, R>>, pool: &mut SpanPool, n: usize)
    requires within { n ≤ vec_len rows.old }
    requires held { AreHeld rows.old.items pool.old.spans }
    ensures held { AreHeld rows.new.items pool.new.spans }
    ensures entries { entries_of pool.new.spans rows.new.items ≡ drop n (entries_of pool.old.spans rows.old.items) }
    ensures len { vec_len rows.new + n ≡ vec_len rows.old }
    ensures capacity { vec_capacity rows.new ≡ vec_capacity rows.old }
    ensures dead { GaveBack pool.old 0 pool.new }
    ensures spare_bytes { pool.old.spare_bytes ≤ pool.new.spare_bytes }
    ensures spare_spans { pool.old.spare_spans ≤ pool.new.spare_spans }
{
    let len = rows.len();
    rows.rotate_left(n);
    for i in 0..n {
        let _value = take_out(rows, pool, len - i - 1);
    }
}

/// Makes room of the dead bytes where they are too many. Takes no memory.
pub fn settle(pool: &mut SpanPool)
    ensures spans { pool.new.spans ≡ pool.old.spans }
    ensures dead { pool.new.dead ≡ settled (live_bytes pool.old.spans) pool.old.dead }
    ensures bounded { pool.new.dead ≤ most_dead (live_bytes pool.new.spans) }
    ensures spare_bytes { pool.old.spare_bytes ≤ pool.new.spare_bytes }
    ensures spare_spans { pool.old.spare_spans ≤ pool.new.spare_spans }
{
    let live = pool.live();
    let dead = pool.dead();
    if dead > live && dead - live > MOST_DEAD {
        pool.compact();
    }
}
