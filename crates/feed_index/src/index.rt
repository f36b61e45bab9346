//! The index.
ghost use Rattle.std.specs.Prelude.{◌≡◌, ◌+◌, ◌-◌, ◌^◌, ◌<◌, ◌≤◌, ◌==◌, [], Some, None, length, drop, slice_get, option_map, OnOk, IsErr, IsOk};
ghost use Rattle.gw_base.specs.Count.{Counts, Rose};
ghost use Rattle.gw_base.specs.Told.{PutsUnless, with_bytes};
ghost use Rattle.span_pool.specs.Spans.{live_bytes};
ghost use Rattle.feed_index.specs.Chosen.{chosen};
ghost use Rattle.feed_index.specs.Entries.{AreSpansOf, IsDeadAfter, Rising, bytes_at, dead_after, most_dead, put, put_all, removed, total, value_at};

use crate::batch::Batch;
use crate::change::{cut, settle};
use crate::merge::merge_all;
use crate::place::{place, value_in};
use crate::row::Row;
use crate::set::{set, unset};
use crate::write::{Choice, write_rows};
use gw_base::{Failed, Sink};
use span_pool::SpanPool;
use std::alloc::{AllocError, Global};
use std::marker::Model;

/// Entries in the order of their keys, which are distinct, each with a value and with bytes that stand in one region.
/// Bytes that are replaced or taken out are dead until the region is packed, which `put` and the
/// others do where these would be over 65,536 more than those that live. Only `prepare` takes memory. A contract sees
/// the list of (key, value, bytes), how many more entries and bytes it takes, and the dead bytes.
#[derive(Drop)]
pub struct FeedIndex<K: Ord, R> {
    rows: Vec<Row<K, R>>,
    pool: SpanPool,
    // how many more rows are promised to be taken without memory
    spare: usize,
}

impl<K: Ord, R> Model for FeedIndex<K, R> {
    ghost use Rattle.std.specs.Prelude.{vec_capacity};
    ghost use Rattle.feed_index.specs.Entries.{Kept};

    ghost Value = { Kept K R };

    ghost use Rattle.feed_index.specs.Rows.{IsSound, entries_of};

    ghost view = { λ a. record {
      entries = entries_of a.pool.spans a.rows.items;
      spare_entries = a.spare;
      spare_bytes = a.pool.spare_bytes;
      dead = a.pool.dead;
    } };

    ghost invariant = { λ a. IsSound K.cmp a.rows.items (vec_capacity a.rows) a.pool a.spare };
}

impl<K: Ord, R> FeedIndex<K, R> {
    /// An index without entries, which takes no memory.
    pub fn make(alloc: Global) -> FeedIndex<K, R>
        ensures empty { result ≡ record { entries = []; spare_entries = 0; spare_bytes = 0; dead = 0 } }
    {
        FeedIndex {
            rows: Vec::new(alloc),
            pool: SpanPool::make(alloc),
            spare: 0,
        }
    }

    /// Makes room for that many more entries and bytes, and takes memory only where there is less room. For want of
    /// memory the entries stay.
    pub fn prepare(&mut self, entries: u64, bytes: u64) -> Result<(), AllocError>
        ensures same { self.new.entries ≡ self.old.entries }
        ensures dead { self.new.dead ≡ self.old.dead }
        ensures entries_room { OnOk result (entries ≤ self.new.spare_entries) }
        ensures bytes_room { OnOk result (bytes ≤ self.new.spare_bytes) }
        ensures no_less_entries { self.old.spare_entries ≤ self.new.spare_entries }
        ensures no_less_bytes { self.old.spare_bytes ≤ self.new.spare_bytes }
        ensures suffices { entries ≤ self.old.spare_entries → bytes ≤ self.old.spare_bytes → IsOk result }
    {
        let more = (entries as usize).max(self.spare);
        self.rows.reserve(more)?;
        self.pool.reserve(bytes, more as u64)?;
        self.spare = more;
        Ok(())
    }

    /// Makes room for the entries of a batch, as `prepare` does.
    pub fn prepare_for(&mut self, batch: &Batch<K, R>) -> Result<(), AllocError>
        ensures same { self.new.entries ≡ self.old.entries }
        ensures dead { self.new.dead ≡ self.old.dead }
        ensures entries_room { OnOk result (length batch.now.entries ≤ self.new.spare_entries) }
        ensures bytes_room { OnOk result (total batch.now.entries ≤ self.new.spare_bytes) }
        ensures no_less_entries { self.old.spare_entries ≤ self.new.spare_entries }
        ensures no_less_bytes { self.old.spare_bytes ≤ self.new.spare_bytes }
        ensures suffices { length batch.now.entries ≤ self.old.spare_entries
            → total batch.now.entries ≤ self.old.spare_bytes → IsOk result }
    {
        self.prepare(batch.len(), batch.total_bytes())
    }

    /// That the keys are distinct and rising, and that the dead bytes are not too many.
    pub fn soundness_law(&self)
        ensures rising { Rising K.cmp self.now.entries }
        ensures bounded { self.now.dead ≤ most_dead (total self.now.entries) }
    {
        let _ = &self.rows;
    }

    /// How many entries there are.
    pub fn len(&self) -> u64
        ensures value { result ≡ length self.now.entries }
    {
        self.rows.len() as u64
    }

    /// Whether there is no entry.
    pub fn is_empty(&self) -> bool
        ensures value { result ≡ (length self.now.entries == 0) }
    {
        self.rows.is_empty()
    }

    /// The value and the bytes of a key, if it has an entry.
    pub fn find(&self, key: &K) -> Option<(&R, &[u8])>
        ensures value { option_map (λ found. found.0.now) result ≡ value_at K.cmp self.now.entries key.now }
        ensures bytes { option_map (λ found. found.1.now) result ≡ bytes_at K.cmp self.now.entries key.now }
    {
        match place(&self.rows, key) {
            Ok(at) => {
                let row = &self.rows[at];
                Some((&row.value, self.pool.span(&row.slot)))
            }
            Err(_) => None,
        }
    }

    /// The value of a key, if it has an entry after the first so many.
    pub(crate) fn find_after(&self, n: usize, key: &K) -> Option<&R>
        requires within { n ≤ length self.now.entries }
        ensures value { option_map (λ it. it.now) result ≡ value_at K.cmp (drop n self.now.entries) key.now }
    {
        value_in(self.rows.split_at(n).1, key)
    }

    /// The key, the value and the bytes of the entry that stands there in the order of the keys.
    pub fn at(&self, i: u64) -> (&K, &R, &[u8])
        requires within { i < length self.now.entries }
        ensures entry { slice_get self.now.entries i
            ≡ Some (record { key = result.0.now; value = result.1.now; bytes = result.2.now }) }
    {
        let row = &self.rows[i as usize];
        (&row.key, &row.value, self.pool.span(&row.slot))
    }

    /// The region, in which each entry's bytes are a span of its own, and no other span is live. Takes no memory.
    pub fn pool(&self) -> &SpanPool
        ensures spans { AreSpansOf result.now.spans self.now.entries }
        ensures live { live_bytes result.now.spans ≡ total self.now.entries }
        ensures dead { result.now.dead ≡ self.now.dead }
    {
        &self.pool
    }

    /// The bytes of all entries together.
    pub fn total_bytes(&self) -> u64
        ensures value { result ≡ total self.now.entries }
        ensures fits { result < 2 ^ 63 }
    {
        self.pool.live()
    }
}

impl<K: Ord, R> FeedIndex<K, R> {
    /// Writes the bytes of the entries whose value passes, in the order of the keys, in large pieces. After a failure a
    /// front of them is written. Takes no memory.
    pub fn write<C: Choice<R>, S: Sink>(&self, choice: &C, sink: &mut S) -> Result<(), Failed>
        ensures all { OnOk result
            (S.told sink.new ≡ with_bytes (S.told sink.old) (chosen (C.test choice.now) self.now.entries)) }
        ensures front { PutsUnless (Rose (S.faults sink.old) (S.faults sink.new)) (S.told sink.old) (S.told sink.new)
            (chosen (C.test choice.now) self.now.entries) }
        ensures counts { Counts (IsErr result) (S.faults sink.old) (S.faults sink.new) }
        ensures others { S.beside sink.new ≡ S.beside sink.old }
    {
        write_rows(&self.rows, &self.pool, choice, sink)
    }
}

impl<K: Ord + Drop, R> FeedIndex<K, R> {
    /// Sets the entry of a key, and answers the value that the key had. Takes no memory.
    pub fn put(&mut self, key: K, value: R, bytes: &[u8]) -> Option<R>
        requires entries_room { 0 < self.old.spare_entries }
        requires bytes_room { length bytes.now ≤ self.old.spare_bytes }
        ensures entries { self.new.entries
            ≡ put K.cmp self.old.entries (record { key = key; value = value; bytes = bytes.now }) }
        ensures old { result ≡ value_at K.cmp self.old.entries key }
        ensures dead { self.new.dead ≡ dead_after self.old (length bytes.now) self.new.entries }
        ensures bounded { self.new.dead ≤ most_dead (total self.new.entries) }
        ensures spare_entries { self.old.spare_entries ≤ self.new.spare_entries + 1 }
        ensures spare_bytes { self.old.spare_bytes ≤ self.new.spare_bytes + length bytes.now }
    {
        let old = set(&mut self.rows, &mut self.pool, key, value, bytes);
        self.spare -= 1;
        settle(&mut self.pool);
        old
    }

    /// Takes the entry of a key out, and answers its value. Takes no memory.
    pub fn remove(&mut self, key: &K) -> Option<R>
        ensures entries { self.new.entries ≡ removed K.cmp self.old.entries key.now }
        ensures old { result ≡ value_at K.cmp self.old.entries key.now }
        ensures dead { self.new.dead ≡ dead_after self.old 0 self.new.entries }
        ensures bounded { self.new.dead ≤ most_dead (total self.new.entries) }
        ensures spare_entries { self.old.spare_entries ≤ self.new.spare_entries }
        ensures spare_bytes { self.old.spare_bytes ≤ self.new.spare_bytes }
    {
        let old = unset(&mut self.rows, &mut self.pool, key);
        settle(&mut self.pool);
        old
    }
}

impl<K: Ord + Drop, R: Drop> FeedIndex<K, R> {
    /// Takes the first so many entries out. Takes no memory.
    pub fn cut_front(&mut self, n: u64)
        requires within { n ≤ length self.old.entries }
        ensures entries { self.new.entries ≡ drop n self.old.entries }
        ensures dead { self.new.dead ≡ dead_after self.old 0 self.new.entries }
        ensures bounded { self.new.dead ≤ most_dead (total self.new.entries) }
        ensures spare_entries { self.old.spare_entries ≤ self.new.spare_entries }
        ensures spare_bytes { self.old.spare_bytes ≤ self.new.spare_bytes }
    {
        cut(&mut self.rows, &mut self.pool, n as usize);
        settle(&mut self.pool);
    }

    /// Puts the entries of a batch, as `put` would one after the other; where nothing was there, the region of the
    /// batch becomes that of the index. Takes no memory.
    pub fn merge(&mut self, batch: Batch<K, R>)
        requires entries_room { length batch.entries ≤ self.old.spare_entries }
        requires bytes_room { total batch.entries ≤ self.old.spare_bytes }
        ensures entries { self.new.entries ≡ put_all K.cmp self.old.entries batch.entries }
        ensures dead { IsDeadAfter self.old batch self.new.entries self.new.dead }
        ensures bounded { self.new.dead ≤ most_dead (total self.new.entries) }
        ensures spare_entries { self.old.spare_entries ≤ self.new.spare_entries + length batch.entries }
        ensures spare_bytes { self.old.spare_bytes ≤ self.new.spare_bytes + total batch.entries }
    {
        let (items, from) = batch.into_rows();
        self.spare -= items.len();
        merge_all(&mut self.rows, &mut self.pool, items, from, self.spare);
        settle(&mut self.pool);
    }
}
