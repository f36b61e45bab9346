//! Entries that are put at once.
ghost use Rattle.std.specs.Prelude.{◌≡◌, ◌≤◌, [], length, option_map, OnErr, OnOk};
ghost use Rattle.feed_index.specs.Entries.{dead_with, most_dead, put, total, value_at};
ghost use Rattle.feed_index.specs.Rows.{AreHeld, AreSorted, entries_of};

use crate::change::settle;
use crate::merge::take_item;
use crate::place::value_in;
use crate::row::Row;
use crate::runs::join;
use span_pool::SpanPool;
use std::alloc::{AllocError, Global};
use std::marker::Model;

/// Entries with distinct keys, gathered in any order, which an index takes all at once. Their bytes stand in one
/// region, which is packed as an index packs its own. A contract sees the list of them in the order of the keys, and
/// the dead bytes.
#[derive(Drop)]
pub struct Batch<K: Ord, R> {
    // two runs in the order of the keys: the rows before the front, and those from there on
    rows: Vec<Row<K, R>>,
    front: usize,
    pool: SpanPool,
}

impl<K: Ord, R> Model for Batch<K, R> {
    ghost use Rattle.feed_index.specs.Entries.{Gathered};

    ghost Value = { Gathered K R };

    ghost use Rattle.feed_index.specs.Staged.{AreGathered, gathered};

    ghost view = { λ b. record {
      entries = gathered K.cmp b.rows.items b.pool.spans b.front;
      dead = b.pool.dead;
    } };

    ghost invariant = { λ b. AreGathered K.cmp b.rows.items b.pool b.front };
}

impl<K: Ord, R> Batch<K, R> {
    /// A batch without entries, which takes no memory.
    pub fn new(alloc: Global) -> Batch<K, R>
        ensures empty { result ≡ record { entries = []; dead = 0 } }
    {
        Batch {
            rows: Vec::new(alloc),
            front: 0,
            pool: SpanPool::make(alloc),
        }
    }

    /// How many entries there are.
    pub fn len(&self) -> u64
        ensures value { result ≡ length self.now.entries }
    {
        self.rows.len() as u64
    }

    /// The bytes of all entries together.
    pub fn total_bytes(&self) -> u64
        ensures value { result ≡ total self.now.entries }
    {
        self.pool.live()
    }

    /// The value of a key, if it has an entry.
    pub fn find(&self, key: &K) -> Option<&R>
        ensures value { option_map (λ it. it.now) result ≡ value_at K.cmp self.now.entries key.now }
    {
        let (before, after) = self.rows.split_at(self.front);
        match value_in(after, key) {
            Some(value) => Some(value),
            None => value_in(before, key),
        }
    }

    /// The rows in the order of the keys, and the region of their bytes. Takes no memory.
    pub(crate) fn into_rows(self) -> (Vec<Row<K, R>>, SpanPool)
        ensures entries { entries_of result.1.spans result.0.items ≡ self.entries }
        ensures dead { result.1.dead ≡ self.dead }
        ensures held { AreHeld result.0.items result.1.spans }
        ensures sorted { AreSorted K.cmp result.0.items }
    {
        let Batch {
            mut rows,
            front,
            pool,
        } = self;
        join(&mut rows, front);
        (rows, pool)
    }
}

impl<K: Ord + Drop, R: Drop> Batch<K, R> {
    /// Puts an entry at its key, and packs the region where its dead bytes would be over 65,536 more than those that
    /// live. For want of memory the batch stays as it was.
    pub fn put(&mut self, key: K, value: R, bytes: &[u8]) -> Result<(), AllocError>
        ensures put { OnOk result (self.new.entries
            ≡ put K.cmp self.old.entries (record { key = key; value = value; bytes = bytes.now })) }
        ensures dead { OnOk result (self.new.dead
            ≡ dead_with self.old.dead self.old.entries (length bytes.now) self.new.entries) }
        ensures bounded { OnOk result (self.new.dead ≤ most_dead (total self.new.entries)) }
        ensures kept { OnErr result (self.new ≡ self.old) }
    {
        self.rows.reserve(1)?;
        self.pool.reserve(bytes.len() as u64, 1)?;
        self.front = take_item(
            &mut self.rows,
            &mut self.pool,
            self.front,
            key,
            value,
            bytes,
        );
        settle(&mut self.pool);
        Ok(())
    }
}
