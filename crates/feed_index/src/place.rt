//! Where the row of a key stands.
ghost use Rattle.std.specs.Prelude.{◌≡◌, MatchResult, option_map};
ghost use Rattle.feed_index.specs.Entries.{value_at};
ghost use Rattle.feed_index.specs.Rows.{AreSorted, StandsAt, IsGapAt, entries_of};

use crate::row::Row;

/// Where the row of a key stands, or where it would stand.
pub fn place<K: Ord, R>(rows: &[Row<K, R>], key: &K) -> Result<usize, usize>
    requires sorted { AreSorted K.cmp rows.now }
    ensures parts { MatchResult result (StandsAt K.cmp rows.now key.now) (IsGapAt K.cmp rows.now key.now) }
{
    rows.binary_search_by(|row| row.key.cmp(key))
}

/// The value of a key among rows.
pub fn value_in<'a, K: Ord, R>(rows: &'a [Row<K, R>], key: &K) -> Option<&'a R>
    requires sorted { AreSorted K.cmp rows.now }
    ensures value { (spans : _) → option_map (λ it. it.now) result
        ≡ value_at K.cmp (entries_of spans rows.now) key.now }
{
    match place(rows, key) {
        Ok(at) => Some(&rows[at].value),
        Err(_) => None,
    }
}
