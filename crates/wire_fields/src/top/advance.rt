//! Reading on in an item, over any cuts.
ghost use Rattle.std.specs.Prelude.{◌≢◌, ℕ, List, ◌++◌, ◌<◌, ◌≤◌, length, take};
ghost use Rattle.wire_fields.specs.declared.top.part.Part.TheVariants as parts;
ghost use Rattle.wire_fields.specs.Grammar.{IsVarint};
ghost use Rattle.wire_fields.specs.TopReading.{IsBegun, IsTagged, IsPart, IsInBounds};
ghost use Rattle.wire_fields.specs.TopSteps.{Chains, IsFew, Turns, IsTurnInBounds};

use crate::top::chain::{Chained, read_chain};
use crate::top::part::{Chain, Part};
use crate::top::turn::Turn;
use gw_base::WireKind;

/// No bytes of a number.
const NO_BYTES: Chain = Chain { count: 0, value: 0 };

/// What a tag comes to.
fn after_tag(tag: u64) -> Turn
    ensures bounds { IsTurnInBounds result }
    ensures turns { (bytes : List ℕ) → IsVarint bytes tag → Turns result bytes }
{
    if tag >= 1 << 32 || tag < 8 {
        return Turn::Fault(WireKind::BadTag);
    }
    let number = (tag / 8) as u32;
    match tag % 8 {
        0 => Turn::Open(Part::Value(NO_BYTES)),
        1 => Turn::Open(Part::Eight { left: 8 }),
        2 => Turn::Open(Part::Size {
            number,
            chain: NO_BYTES,
        }),
        3 => Turn::Starts(number),
        4 => Turn::Ends(number),
        5 => Turn::Open(Part::Four { left: 4 }),
        _ => Turn::Fault(WireKind::BadTag),
    }
}

/// What a tag's bytes come to.
fn tag_turn(chained: Chained) -> Turn
    requires few { IsFew chained }
    ensures bounds { IsTurnInBounds result }
    ensures turns { (bytes : List ℕ) → Chains chained bytes → Turns result bytes }
{
    match chained {
        Chained::Whole(tag) => after_tag(tag),
        Chained::More(chain) => Turn::Open(Part::Tag(chain)),
        Chained::Long => Turn::Fault(WireKind::LongVarint),
    }
}

/// What a number's bytes after a tag come to.
fn value_turn(chained: Chained) -> Turn
    requires few { IsFew chained }
    ensures bounds { IsTurnInBounds result }
    ensures turns { (number : ℕ) (bytes : List ℕ) → IsTagged number 0 (Chains chained) bytes → Turns result bytes }
{
    match chained {
        Chained::Whole(_) => Turn::Whole,
        Chained::More(chain) => Turn::Open(Part::Value(chain)),
        Chained::Long => Turn::Fault(WireKind::LongVarint),
    }
}

/// What a length's bytes after a tag come to.
fn size_turn(number: u32, chained: Chained) -> Turn
    requires few { IsFew chained }
    ensures bounds { IsTurnInBounds result }
    ensures turns { (bytes : List ℕ) → IsTagged number 2 (Chains chained) bytes → Turns result bytes }
{
    match chained {
        Chained::Whole(len) => Turn::Sized { number, len },
        Chained::More(chain) => Turn::Open(Part::Size { number, chain }),
        Chained::Long => Turn::Fault(WireKind::LongVarint),
    }
}

/// Reads on in a part of an item that is no payload of a stated length, and answers how many bytes were used.
pub fn advance(part: Part, bytes: &[u8]) -> (usize, Turn)
    requires some { 0 < length bytes.now }
    requires bounds { IsInBounds part }
    requires no_payload { (number len left : ℕ) → part ≢ parts.Payload number len left }
    ensures some { 1 ≤ result.0 }
    ensures most { result.0 ≤ length bytes.now }
    ensures bounds { IsTurnInBounds result.1 }
    ensures turns { (read : List ℕ) → IsPart part read → Turns result.1 (read ++ take result.0 bytes.now) }
{
    match part {
        Part::Nothing => advance_tag(NO_BYTES, bytes),
        Part::Tag(chain) => advance_tag(chain, bytes),
        Part::Value(chain) => advance_value(chain, bytes),
        Part::Size { number, chain } => advance_size(number, chain, bytes),
        Part::Eight { left } => advance_eight(left, bytes),
        Part::Four { left } => advance_four(left, bytes),
        Part::Payload { .. } => unreachable!(),
    }
}

fn advance_tag(chain: Chain, bytes: &[u8]) -> (usize, Turn)
    requires some { 0 < length bytes.now }
    requires few { chain.count ≤ 9 }
    ensures some { 1 ≤ result.0 }
    ensures most { result.0 ≤ length bytes.now }
    ensures bounds { IsTurnInBounds result.1 }
    ensures turns { (read : List ℕ) → IsBegun chain read → Turns result.1 (read ++ take result.0 bytes.now) }
{
    let (used, chained) = read_chain(chain, bytes);
    (used, tag_turn(chained))
}

fn advance_value(chain: Chain, bytes: &[u8]) -> (usize, Turn)
    requires some { 0 < length bytes.now }
    requires few { chain.count ≤ 9 }
    ensures some { 1 ≤ result.0 }
    ensures most { result.0 ≤ length bytes.now }
    ensures bounds { IsTurnInBounds result.1 }
    ensures turns { (read : List ℕ) → IsPart (parts.Value chain) read →
        Turns result.1 (read ++ take result.0 bytes.now) }
{
    let (used, chained) = read_chain(chain, bytes);
    (used, value_turn(chained))
}

fn advance_size(number: u32, chain: Chain, bytes: &[u8]) -> (usize, Turn)
    requires some { 0 < length bytes.now }
    requires few { chain.count ≤ 9 }
    ensures some { 1 ≤ result.0 }
    ensures most { result.0 ≤ length bytes.now }
    ensures bounds { IsTurnInBounds result.1 }
    ensures turns { (read : List ℕ) → IsPart (parts.Size number chain) read →
        Turns result.1 (read ++ take result.0 bytes.now) }
{
    let (used, chained) = read_chain(chain, bytes);
    (used, size_turn(number, chained))
}

fn advance_eight(left: u64, bytes: &[u8]) -> (usize, Turn)
    requires some { 0 < length bytes.now }
    requires bounds { 0 < left }
    ensures some { 1 ≤ result.0 }
    ensures most { result.0 ≤ length bytes.now }
    ensures bounds { IsTurnInBounds result.1 }
    ensures turns { (read : List ℕ) → IsPart (parts.Eight left) read →
        Turns result.1 (read ++ take result.0 bytes.now) }
{
    let used = left.min(bytes.len() as u64);
    if used == left {
        return (used as usize, Turn::Whole);
    }
    (used as usize, Turn::Open(Part::Eight { left: left - used }))
}

fn advance_four(left: u64, bytes: &[u8]) -> (usize, Turn)
    requires some { 0 < length bytes.now }
    requires bounds { 0 < left }
    ensures some { 1 ≤ result.0 }
    ensures most { result.0 ≤ length bytes.now }
    ensures bounds { IsTurnInBounds result.1 }
    ensures turns { (read : List ℕ) → IsPart (parts.Four left) read →
        Turns result.1 (read ++ take result.0 bytes.now) }
{
    let used = left.min(bytes.len() as u64);
    if used == left {
        return (used as usize, Turn::Whole);
    }
    (used as usize, Turn::Open(Part::Four { left: left - used }))
}
