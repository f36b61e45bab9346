//! What an index will be: entries that are to be put at once, found beside those that it has.
ghost use Rattle.std.specs.Prelude.{◌≡◌, ◌≤◌, [], drop, length, option_map, if◌then◌else◌, OnErr, OnOk};
ghost use Rattle.feed_index.specs.Drafts.{after};
ghost use Rattle.feed_index.specs.Entries.{dead_with, most_dead, put, put_all, total, value_at};

use crate::batch::Batch;
use crate::index::FeedIndex;
use gw_base::Bytes;
use std::alloc::{AllocError, Global};
use std::marker::Model;

/// How many entries there are with one at a key: one more where no entry that stays has the key, and the batch grew.
fn counted(len: u64, more: u64, stays: bool, grew: bool) -> u64
    ensures value { result ≡ (if stays then len else (if grew then more else len)) }
{
    if !stays && grew { more } else { len }
}

/// Entries that are to be put into an index whose first entries go, gathered in any order. A contract sees the entries
/// that stay, those that are to be put, of one for each key, and the dead bytes beside these.
#[derive(Drop)]
pub struct Draft<'a, K: Ord, R> {
    index: &'a FeedIndex<K, R>,
    // how many of its first entries go
    gone: usize,
    batch: Batch<K, R>,
    // how many entries there will be
    len: u64,
}

impl<'a, K: Ord, R> Model for Draft<'a, K, R> {
    ghost use Rattle.std.specs.Prelude.{◌≡◌, ◌≤◌, drop, length};
    ghost use Rattle.feed_index.specs.Entries.{Rising, put_all};
    ghost use Rattle.feed_index.specs.Drafts.{Drafted};

    ghost Value = { Drafted K R };

    ghost view = { λ d. record {
      kept = drop d.gone d.index.now.entries;
      items = d.batch.entries;
      dead = d.batch.dead;
    } };

    ghost invariant = { λ d. (d.gone ≤ length d.index.now.entries)
        × Rising K.cmp d.index.now.entries
        × Rising K.cmp d.batch.entries
        × (d.len ≡ length (put_all K.cmp (drop d.gone d.index.now.entries) d.batch.entries)) };
}

impl<'a, K: Ord, R> Draft<'a, K, R> {
    /// A draft over an index whose first so many entries go. Takes no memory.
    pub fn over(alloc: Global, index: &'a FeedIndex<K, R>, gone: u64) -> Draft<'a, K, R>
        requires within { gone ≤ length index.now.entries }
        ensures kept { result.kept ≡ drop gone index.now.entries }
        ensures empty { result.items ≡ [] }
        ensures dead { result.dead ≡ 0 }
    {
        index.soundness_law();
        Draft {
            index,
            gone: gone as usize,
            batch: Batch::new(alloc),
            len: index.len() - gone,
        }
    }

    /// How many entries there will be.
    pub fn len(&self) -> u64
        ensures value { result ≡ length (after K.cmp self.now) }
    {
        self.len
    }

    /// The value that a key will have.
    pub fn find(&self, key: &K) -> Option<&R>
        ensures value { option_map (λ it. it.now) result ≡ value_at K.cmp (after K.cmp self.now) key.now }
    {
        match self.batch.find(key) {
            Some(value) => Some(value),
            None => self.index.find_after(self.gone, key),
        }
    }

    /// What is to be put, for `FeedIndex::merge`. Takes no memory.
    pub fn into_batch(self) -> Batch<K, R>
        ensures after { put_all K.cmp self.entry.kept result.entries ≡ after K.cmp self.entry }
    {
        self.batch
    }
}

impl<'a, K: Ord + Drop, R: Drop> Draft<'a, K, R> {
    /// Puts an entry at its key. For want of memory the draft stays.
    pub fn put(&mut self, key: K, value: R, bytes: Bytes) -> Result<(), AllocError>
        ensures same { self.new.kept ≡ self.old.kept }
        ensures put { OnOk result
            (after K.cmp self.new
            ≡ put K.cmp (after K.cmp self.old) (record { key = key; value = value; bytes = bytes })) }
        ensures dead { OnOk result (self.new.dead
            ≡ dead_with self.old.dead self.old.items (length bytes) self.new.items) }
        ensures bounded { OnOk result (self.new.dead ≤ most_dead (total self.new.items)) }
        ensures unchanged { OnErr result (self.new ≡ self.old) }
    {
        let Some(more) = self.len.checked_add(1) else {
            return Err(AllocError);
        };
        let stays = self.index.find_after(self.gone, &key).is_some();
        let before = self.batch.len();
        self.batch.put(key, value, bytes.as_slice())?;
        self.len = counted(self.len, more, stays, before < self.batch.len());
        Ok(())
    }
}
