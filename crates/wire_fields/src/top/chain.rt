//! The bytes of a number, read over any cuts.
ghost use Rattle.std.specs.Prelude.{ℕ, List, ◌++◌, ◌<◌, ◌≤◌, length, take};
ghost use Rattle.wire_fields.specs.TopReading.{IsBegun};
ghost use Rattle.wire_fields.specs.TopSteps.{Chains, IsFew};

use crate::top::part::Chain;

/// What the bytes of a number came to.
#[derive(Clone, Copy, Debug)]
pub enum Chained {
    /// The number, of which bits past 64 were dropped.
    Whole(u64),
    /// Its bytes so far.
    More(Chain),
    /// Ten bytes, of which none is the last.
    Long,
}

/// Reads on in a number, and answers how many bytes were used.
#[inline(always)]
pub fn read_chain(chain: Chain, bytes: &[u8]) -> (usize, Chained)
    requires some { 0 < length bytes.now }
    requires few { chain.count ≤ 9 }
    ensures some { 1 ≤ result.0 }
    ensures most { result.0 ≤ length bytes.now }
    ensures few { IsFew result.1 }
    ensures chains { (begun : List ℕ) → IsBegun chain begun →
        Chains result.1 (begun ++ take result.0 bytes.now) }
{
    let mut value = chain.value;
    for i in chain.count..10 {
        let place = i - chain.count;
        if place == bytes.len() {
            return (place, Chained::More(Chain { count: i, value }));
        }
        let byte = bytes[place];
        value |= u64::from(byte % 128) << (7 * i);
        if byte < 128 {
            return (place + 1, Chained::Whole(value));
        }
    }
    (10 - chain.count, Chained::Long)
}
