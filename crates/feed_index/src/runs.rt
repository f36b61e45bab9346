//! Two runs of rows in one list, of which the second is merged into the first from its end, in its own room.
ghost use Rattle.std.specs.Prelude.{◌≡◌, ◌<◌, ◌≤◌, ◌-◌, length, slice_index_or, take, drop, IsPermutation, vec_len, vec_capacity};
ghost use Rattle.feed_index.specs.Order.{with_all};
ghost use Rattle.feed_index.specs.Rows.{AreHeld, AreSorted, IsGapAt, entries_of};
ghost use Rattle.feed_index.specs.Staged.{AreStaged, IsNew, IsTurned, gathered};

use crate::place::place;
use crate::row::Row;

/// Where a key would stand among rows, none of which has it.
fn gap<K: Ord, R>(rows: &[Row<K, R>], key: &K) -> usize
    requires sorted { AreSorted K.cmp rows.now }
    requires new { IsNew (λ row. row.key) K.cmp rows.now key.now }
    ensures gap { IsGapAt K.cmp rows.now key.now result }
{
    match place(rows, key) {
        Ok(at) => at,
        Err(at) => at,
    }
}

/// Lets two neighbouring parts change places: that from `at` up to `front`, and that from there up to `end`.
fn turn<T>(rows: &mut [T], at: usize, front: usize, end: usize)
    requires first { at ≤ front }
    requires second { front ≤ end }
    requires third { end ≤ length rows.old }
    ensures turned { IsTurned at front end rows.old rows.new }
    ensures moved { IsPermutation rows.old rows.new }
{
    rows[at..end].rotate_left(front - at);
}

/// Where the last of the rows up to `end` would stand among those up to `front`, none of which has its key.
fn gap_of_last<K: Ord, R>(rows: &[Row<K, R>], front: usize, end: usize) -> usize
    requires within { front < end }
    requires end { end ≤ length rows.now }
    requires sorted { AreSorted K.cmp (take front rows.now) }
    requires new { (other : _)
        → IsNew (λ row. row.key) K.cmp (take front rows.now) (slice_index_or rows.now (end - 1) other).key }
    ensures gap { (other : _)
        → IsGapAt K.cmp (take front rows.now) (slice_index_or rows.now (end - 1) other).key result }
{
    gap(&rows[..front], &rows[end - 1].key)
}

/// Merges the rows from `front` on into those before, from the last one on: what is greater than it moves after it.
fn merge_runs<K: Ord, R>(rows: &mut [Row<K, R>], front: usize)
    requires within { front ≤ length rows.old }
    requires staged { AreStaged (λ row. row.key) K.cmp (take front rows.old) (drop front rows.old) }
    ensures merged { rows.new ≡ with_all (λ row. row.key) K.cmp (take front rows.old) (drop front rows.old) }
    ensures moved { IsPermutation rows.old rows.new }
{
    let mut front = front;
    let mut end = rows.len();
    'runs: while front < end {
        let at = gap_of_last(rows, front, end);
        turn(rows, at, front, end);
        end -= front - at + 1;
        front = at;
    }
}

/// Merges the rows from `front` on into those before. Takes no memory.
pub fn join<K: Ord, R>(rows: &mut Vec<Row<K, R>>, front: usize)
    requires within { front ≤ vec_len rows.old }
    requires staged { AreStaged (λ row. row.key) K.cmp (take front rows.old.items) (drop front rows.old.items) }
    ensures held { (spans : _) → AreHeld rows.old.items spans → AreHeld rows.new.items spans }
    ensures sorted { AreSorted K.cmp rows.new.items }
    ensures entries { (spans : _) → entries_of spans rows.new.items ≡ gathered K.cmp rows.old.items spans front }
    ensures len { vec_len rows.new ≡ vec_len rows.old }
    ensures capacity { vec_capacity rows.new ≡ vec_capacity rows.old }
{
    merge_runs(rows, front);
}
