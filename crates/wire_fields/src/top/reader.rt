//! The reader of the fields of a feed's top level.
ghost use Rattle.std.specs.Prelude.{◌≡◌, ◌↔◌, ℕ, [], List, ◌++◌, ◌+◌, ◌<◌, ◌≤◌, ◌==◌, length, take, None, IfSome, ◌-◌, ◌≢◌, MatchBool};
ghost use Rattle.wire_fields.specs.declared.top.part.Part.TheVariants as parts;
ghost use Rattle.wire_fields.specs.TopReading.{StandsFor, Between, place_of, IsInNoField, Says, SaysAtEnd};
ghost use Rattle.wire_fields.specs.TopSteps.{IsTurnInBounds, with_taken, passed, sized, opened, closed, turned, other, after_field, Turned};
ghost use Rattle.wire_fields.specs.Grammar.{Group};
ghost use Rattle.wire_fields.specs.Breaks.{open_after_field, open_after_end};
ghost use Rattle.gw_base.specs.declared.wire_kind.WireKind.{WireKind as Kind};
ghost use Rattle.gw_base.specs.Limits.{body_limit};

use crate::field::WireFault;
use crate::groups::OpenGroups;
use crate::top::advance::advance;
use crate::top::event::{Step, TopEvent};
use crate::top::part::Part;
use crate::top::turn::Turn;
use gw_base::WireKind;
use std::marker::Model;

/// Reads the fields of a feed's top level (protobuf encoding, "Message Structure") over any cuts of its bytes, and
/// stores none of them. A contract sees `Top` of `specs/TopReading.antt`. It takes no memory.
#[derive(Debug, Drop)]
pub struct TopReader {
    taken: u64,
    at: u64,
    groups: OpenGroups,
    part: Part,
}

impl Model for TopReader {
    ghost use Rattle.wire_fields.specs.TopReading.{Top, IsInBounds};

    ghost Value = { Top };

    ghost view = { λ r. record { taken = r.taken; at = r.at; groups = r.groups; part = r.part } };

    ghost invariant = { λ r. IsInBounds r.part };
}

impl TopReader {
    /// Nothing was read yet.
    pub fn make() -> TopReader
        ensures stands { StandsFor result [] }
        ensures between { place_of result ≡ Between }
    {
        TopReader {
            taken: 0,
            at: 0,
            groups: OpenGroups::none(),
            part: Part::Nothing,
        }
    }

    /// Reads on: uses bytes from the start of the piece, and tells what they are. The bytes after them are for the next
    /// step. After an answer `Broken` a further answer says nothing. At most 16,777,216 bytes are read in all.
    pub fn step(&mut self, piece: &[u8]) -> Step
        requires some { 0 < length piece.now }
        requires room { self.old.taken + length piece.now ≤ body_limit }
        ensures some { 1 ≤ result.used }
        ensures most { result.used ≤ length piece.now }
        ensures taken { self.new.taken ≡ self.old.taken + result.used }
        ensures says { (bytes : List ℕ) → StandsFor self.old bytes → Says bytes piece.now result self.old self.new }
    {
        match self.part {
            Part::Payload { number, len, left } if self.groups.is_empty() => Step {
                used: self.pass_payload(number, len, left, piece),
                event: TopEvent::Part,
            },
            _ => self.read_on(piece),
        }
    }

    /// The end of the bytes: None where they are a list of fields, else the place of the field that is cut short.
    pub fn end(&self) -> Option<WireFault>
        ensures says { (bytes : List ℕ) → StandsFor self.now bytes → SaysAtEnd bytes result }
        ensures none { (result ≡ None) ↔ (place_of self.now ≡ Between) }
        ensures at { IfSome result (λ fault. (fault.at ≡ self.now.at) × (fault.kind ≡ Kind.Truncated)) }
    {
        if self.is_between() {
            return None;
        }
        Some(self.fault(WireKind::Truncated))
    }

    /// Whether it stands between two fields.
    fn is_between(&self) -> bool
        ensures { MatchBool result (place_of self.now ≡ Between) (place_of self.now ≢ Between) }
    {
        self.groups.is_empty() && self.part == Part::Nothing
    }

    /// The open field is none, in this way.
    fn fault(&self, kind: WireKind) -> WireFault
        ensures { result ≡ record { at = self.now.at; kind = kind } }
    {
        WireFault { at: self.at, kind }
    }

    /// Takes as much of the piece as belongs to the payload that is open.
    fn pass_payload(&mut self, number: u32, len: u64, left: u64, piece: &[u8]) -> usize
        requires open { self.old.part ≡ parts.Payload number len left }
        requires left { 0 < left }
        requires some { 0 < length piece.now }
        requires room { self.old.taken + length piece.now ≤ body_limit }
        ensures some { 1 ≤ result }
        ensures most { result ≤ length piece.now }
        ensures within { result ≤ left }
        ensures is { self.new ≡ passed (with_taken self.old (self.old.taken + result)) number len (left - result) }
    {
        let used = left.min(piece.len() as u64);
        self.taken += used;
        if used == left {
            self.end_field();
        } else {
            self.part = Part::Payload {
                number,
                len,
                left: left - used,
            };
        }
        used as usize
    }

    /// Reads on in anything but the payload of a field of the top level.
    fn read_on(&mut self, piece: &[u8]) -> Step
        requires some { 0 < length piece.now }
        requires room { self.old.taken + length piece.now ≤ body_limit }
        ensures some { 1 ≤ result.used }
        ensures most { result.used ≤ length piece.now }
        ensures taken { self.new.taken ≡ self.old.taken + result.used }
        ensures says { (bytes : List ℕ) → IsInNoField self.old → StandsFor self.old bytes →
            Says bytes piece.now result self.old self.new }
    {
        let mut used = 0;
        while used < piece.len() {
            let (_, rest) = piece.split_at(used);
            let (more, event) = self.go_on(rest);
            used += more;
            if let Some(event) = event {
                return Step { used, event };
            }
        }
        Step {
            used,
            event: TopEvent::More,
        }
    }

    /// The same up to the next end of a tag, a length, an item or the piece.
    fn go_on(&mut self, piece: &[u8]) -> (usize, Option<TopEvent>)
        requires some { 0 < length piece.now }
        requires room { self.old.taken + length piece.now ≤ body_limit }
        ensures some { 1 ≤ result.0 }
        ensures most { result.0 ≤ length piece.now }
        ensures taken { self.new.taken ≡ self.old.taken + result.0 }
        ensures turned { (bytes : List ℕ) → IsInNoField self.old → StandsFor self.old bytes →
            Turned result.1 self.old self.new (bytes ++ take result.0 piece.now) }
    {
        if let Part::Payload { number, len, left } = self.part {
            return (self.pass_payload(number, len, left, piece), None);
        }
        let (used, turn) = advance(self.part, piece);
        self.taken += used as u64;
        (used, self.turn(turn))
    }

    /// Follows what the bytes of the open item came to.
    fn turn(&mut self, turn: Turn) -> Option<TopEvent>
        requires bounds { IsTurnInBounds turn }
        ensures event { result ≡ (turned self.old turn).0 }
        ensures now { self.new ≡ (turned self.old turn).1 }
    {
        match turn {
            Turn::Open(part) => {
                self.part = part;
                None
            }
            Turn::Sized { number, len } => self.sized(number, len),
            Turn::Whole => self.end_field(),
            Turn::Starts(number) => self.start_group(number),
            Turn::Ends(number) => self.end_group(number),
            Turn::Fault(kind) => Some(TopEvent::Broken(self.fault(kind))),
        }
    }

    /// A field ended, and where no group is open it is one of the top level.
    fn end_field(&mut self) -> Option<TopEvent>
        ensures event { result ≡ other self.old.groups }
        ensures now { self.new ≡ after_field self.old }
    {
        self.part = Part::Nothing;
        if self.groups.is_empty() {
            self.at = self.taken;
            return Some(TopEvent::Other);
        }
        None
    }

    /// A length ended.
    fn sized(&mut self, number: u32, len: u64) -> Option<TopEvent>
        ensures event { result ≡ (sized self.old number len).0 }
        ensures now { self.new ≡ (sized self.old number len).1 }
    {
        let at = self.at;
        if len == 0 {
            self.end_field();
        } else {
            self.part = Part::Payload {
                number,
                len,
                left: len,
            };
        }
        if self.groups.is_empty() {
            return Some(TopEvent::Begin { number, at, len });
        }
        None
    }

    /// A group starts.
    fn start_group(&mut self, number: u32) -> Option<TopEvent>
        ensures event { result ≡ (opened self.old (open_after_field self.old.groups number Group)).0 }
        ensures now { self.new ≡ (opened self.old (open_after_field self.old.groups number Group)).1 }
    {
        match self.groups.open(number) {
            Ok(()) => {
                self.part = Part::Nothing;
                None
            }
            Err(kind) => Some(TopEvent::Broken(self.fault(kind))),
        }
    }

    /// A group ends.
    fn end_group(&mut self, number: u32) -> Option<TopEvent>
        ensures event { result ≡ (closed self.old (open_after_end self.old.groups number)).0 }
        ensures now { self.new ≡ (closed self.old (open_after_end self.old.groups number)).1 }
    {
        match self.groups.close(number) {
            Ok(()) => self.end_field(),
            Err(kind) => Some(TopEvent::Broken(self.fault(kind))),
        }
    }
}
