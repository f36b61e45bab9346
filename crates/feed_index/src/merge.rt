//! Many items at once: each is put in place of the row of its key, or among the rows after the front, and those after
//! are merged into the others where they are many, and at the end.
ghost use Rattle.std.specs.Prelude.{◌≡◌, ◌+◌, ◌<◌, ◌≤◌, ⊤, MatchBool, length, take, vec_len, vec_capacity};
ghost use Rattle.feed_index.specs.Entries.{put_all, total};
ghost use Rattle.feed_index.specs.Rows.{AreHeld, AreSorted, GaveBack, MayReplace, MergesDead, entries_of};
ghost use Rattle.feed_index.specs.Staged.{IsNew, RowsAreStaged, Takes};

use crate::change::{exchange, insert};
use crate::place::place;
use crate::row::Row;
use crate::runs::join;
use span_pool::SpanPool;

/// How many rows stand after before they are merged.
const MOST_BEHIND: usize = 256;

/// Takes an item among those after the front, where no row before has its key.
fn take_after<K: Ord + Drop, R: Drop>(
    rows: &mut Vec<Row<K, R>>,
    pool: &mut SpanPool,
    front: usize,
    key: K,
    value: R,
    bytes: &[u8],
)
    requires within { front ≤ vec_len rows.old }
    requires rows_room { vec_len rows.old < vec_capacity rows.old }
    requires bytes_room { length bytes.now ≤ pool.old.spare_bytes }
    requires spans_room { 0 < pool.old.spare_spans }
    requires held { AreHeld rows.old.items pool.old.spans }
    requires staged { RowsAreStaged K.cmp rows.old.items pool.old front }
    requires new { IsNew (λ row. row.key) K.cmp (take front rows.old.items) key }
    ensures takes { Takes K.cmp rows.old.items pool.old front
        (record { key = key; value = value; bytes = bytes.now }) rows.new.items pool.new front }
    ensures capacity { vec_capacity rows.new ≡ vec_capacity rows.old }
{
    match place(rows.split_at(front).1, &key) {
        Ok(at) => {
            let _old = exchange(rows, pool, front + at, key, value, bytes);
        }
        Err(at) => insert(rows, pool, front + at, key, value, bytes),
    }
}

/// Takes an item, and leaves where the front ends.
fn take_early<K: Ord + Drop, R: Drop>(
    rows: &mut Vec<Row<K, R>>,
    pool: &mut SpanPool,
    front: usize,
    key: K,
    value: R,
    bytes: &[u8],
)
    requires within { front ≤ vec_len rows.old }
    requires rows_room { vec_len rows.old < vec_capacity rows.old }
    requires bytes_room { length bytes.now ≤ pool.old.spare_bytes }
    requires spans_room { 0 < pool.old.spare_spans }
    requires held { AreHeld rows.old.items pool.old.spans }
    requires staged { RowsAreStaged K.cmp rows.old.items pool.old front }
    ensures takes { Takes K.cmp rows.old.items pool.old front
        (record { key = key; value = value; bytes = bytes.now }) rows.new.items pool.new front }
    ensures capacity { vec_capacity rows.new ≡ vec_capacity rows.old }
{
    match place(&rows[..front], &key) {
        Ok(at) => {
            let _old = exchange(rows, pool, at, key, value, bytes);
        }
        Err(_) => take_after(rows, pool, front, key, value, bytes),
    }
}

/// Takes an item, after the rows after the front were merged.
fn take_late<K: Ord + Drop, R: Drop>(
    rows: &mut Vec<Row<K, R>>,
    pool: &mut SpanPool,
    front: usize,
    key: K,
    value: R,
    bytes: &[u8],
) -> usize
    requires within { front ≤ vec_len rows.old }
    requires rows_room { vec_len rows.old < vec_capacity rows.old }
    requires bytes_room { length bytes.now ≤ pool.old.spare_bytes }
    requires spans_room { 0 < pool.old.spare_spans }
    requires held { AreHeld rows.old.items pool.old.spans }
    requires staged { RowsAreStaged K.cmp rows.old.items pool.old front }
    ensures takes { Takes K.cmp rows.old.items pool.old front
        (record { key = key; value = value; bytes = bytes.now }) rows.new.items pool.new result }
    ensures capacity { vec_capacity rows.new ≡ vec_capacity rows.old }
{
    join(rows, front);
    let next = rows.len();
    take_early(rows, pool, next, key, value, bytes);
    next
}

/// Takes an item, and answers where the front ends then.
pub fn take_item<K: Ord + Drop, R: Drop>(
    rows: &mut Vec<Row<K, R>>,
    pool: &mut SpanPool,
    front: usize,
    key: K,
    value: R,
    bytes: &[u8],
) -> usize
    requires within { front ≤ vec_len rows.old }
    requires rows_room { vec_len rows.old < vec_capacity rows.old }
    requires bytes_room { length bytes.now ≤ pool.old.spare_bytes }
    requires spans_room { 0 < pool.old.spare_spans }
    requires held { AreHeld rows.old.items pool.old.spans }
    requires staged { RowsAreStaged K.cmp rows.old.items pool.old front }
    ensures takes { Takes K.cmp rows.old.items pool.old front
        (record { key = key; value = value; bytes = bytes.now }) rows.new.items pool.new result }
    ensures capacity { vec_capacity rows.new ≡ vec_capacity rows.old }
{
    if rows.len() - front > MOST_BEHIND {
        return take_late(rows, pool, front, key, value, bytes);
    }
    take_early(rows, pool, front, key, value, bytes);
    front
}

/// Puts rows of another pool one after the other. Takes no memory.
fn merge_rows<K: Ord + Drop, R: Drop>(
    rows: &mut Vec<Row<K, R>>,
    pool: &mut SpanPool,
    mut items: Vec<Row<K, R>>,
    from: &SpanPool,
)
    requires rows_room { vec_len rows.old + vec_len items ≤ vec_capacity rows.old }
    requires bytes_room { total (entries_of from.now.spans items.items) ≤ pool.old.spare_bytes }
    requires spans_room { vec_len items ≤ pool.old.spare_spans }
    requires held { AreHeld rows.old.items pool.old.spans }
    requires sorted { AreSorted K.cmp rows.old.items }
    requires from { AreHeld items.items from.now.spans }
    ensures held { AreHeld rows.new.items pool.new.spans }
    ensures sorted { AreSorted K.cmp rows.new.items }
    ensures entries { entries_of pool.new.spans rows.new.items
        ≡ put_all K.cmp (entries_of pool.old.spans rows.old.items) (entries_of from.now.spans items.items) }
    ensures len { vec_len rows.new ≤ vec_len rows.old + vec_len items }
    ensures capacity { vec_capacity rows.new ≡ vec_capacity rows.old }
    ensures dead { GaveBack pool.old (total (entries_of from.now.spans items.items)) pool.new }
    ensures spare_bytes { pool.old.spare_bytes ≤ pool.new.spare_bytes + total (entries_of from.now.spans items.items) }
    ensures spare_spans { pool.old.spare_spans ≤ pool.new.spare_spans + vec_len items }
{
    let mut front = rows.len();
    items.reverse();
    'items: while let Some(item) = items.pop() {
        let Row { key, value, slot } = item;
        front = take_item(rows, pool, front, key, value, from.span(&slot));
    }
    join(rows, front);
}

/// Whether there is nothing yet, and rows and their pool have the room in its place, for so many more rows.
fn may_replace<K, R>(
    rows: &Vec<Row<K, R>>,
    pool: &SpanPool,
    items: &Vec<Row<K, R>>,
    from: &SpanPool,
    spare: usize,
) -> bool
    ensures room { MatchBool result
        (MayReplace rows.now.items pool.now (vec_len items.now) (vec_capacity items.now) from.now spare) ⊤ }
{
    rows.is_empty()
        && pool.len() == 0
        && items.capacity() - items.len() >= spare
        && from.spare_spans() >= spare as u64
        && from.spare_bytes() >= pool.spare_bytes().saturating_sub(from.live())
}

/// Puts rows and their pool in place of others.
fn replace<K: Drop, R: Drop>(
    rows: &mut Vec<Row<K, R>>,
    pool: &mut SpanPool,
    items: Vec<Row<K, R>>,
    from: SpanPool,
)
    ensures rows { rows.new ≡ items }
    ensures spans { pool.new.spans ≡ from.spans }
    ensures dead { pool.new.dead ≡ from.dead }
    ensures spare_bytes { from.spare_bytes ≤ pool.new.spare_bytes }
    ensures spare_spans { from.spare_spans ≤ pool.new.spare_spans }
{
    *rows = items;
    *pool = from;
}

/// Merges rows of another pool, and leaves room for so many more. Where there is nothing yet, they come as they are.
/// Takes no memory.
pub fn merge_all<K: Ord + Drop, R: Drop>(
    rows: &mut Vec<Row<K, R>>,
    pool: &mut SpanPool,
    items: Vec<Row<K, R>>,
    from: SpanPool,
    spare: usize,
)
    requires rows_room { vec_len rows.old + vec_len items + spare ≤ vec_capacity rows.old }
    requires bytes_room { total (entries_of from.spans items.items) ≤ pool.old.spare_bytes }
    requires spans_room { vec_len items + spare ≤ pool.old.spare_spans }
    requires held { AreHeld rows.old.items pool.old.spans }
    requires sorted { AreSorted K.cmp rows.old.items }
    requires from { AreHeld items.items from.spans }
    requires from_sorted { AreSorted K.cmp items.items }
    ensures held { AreHeld rows.new.items pool.new.spans }
    ensures sorted { AreSorted K.cmp rows.new.items }
    ensures entries { entries_of pool.new.spans rows.new.items
        ≡ put_all K.cmp (entries_of pool.old.spans rows.old.items) (entries_of from.spans items.items) }
    ensures rows_room { vec_len rows.new + spare ≤ vec_capacity rows.new }
    ensures spans_room { spare ≤ pool.new.spare_spans }
    ensures dead { MergesDead pool.old from (total (entries_of from.spans items.items)) rows.old.items pool.new }
    ensures spare_bytes { pool.old.spare_bytes ≤ pool.new.spare_bytes + total (entries_of from.spans items.items) }
{
    if may_replace(rows, pool, &items, &from, spare) {
        replace(rows, pool, items, from);
    } else {
        merge_rows(rows, pool, items, &from);
    }
}
