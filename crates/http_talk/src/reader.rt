//! The head of a request out of pieces of any length. Each byte is looked at once when it comes, and the head is parsed
//! once, when its end has come. The reader meets `Feeds` of `specs/Reading.antt`.
ghost use Rattle.std.specs.Prelude.{◌≡◌, ◌++◌, ◌+◌, ◌≤◌, [], length, IfOk, vec_capacity, vec_len};
ghost use Rattle.http_talk.specs.Asked.{IsAnswer};
ghost use Rattle.http_talk.specs.Ends.{IsHeadLength};
ghost use Rattle.http_talk.specs.Reading as reading;
ghost use Rattle.http_talk.specs.Reading.{Feeds, held_after};
ghost use Rattle.http_talk.specs.Request.{IsRequest, Refused};

use crate::ends::HEAD_LIMIT;
use crate::fed::Fed;
use crate::head::answer_of;
use crate::place::{Place, Scan, look_on};
use crate::refusal::Refusal;
use crate::target::Head;
use std::alloc::{AllocError, Global};
use std::marker::Model;

/// A reader of heads. A contract sees the bytes of the head that came so far.
#[derive(Debug, Drop)]
pub struct HeadReader {
    held: Vec<u8>,
    place: Place,
}

impl Model for HeadReader {
    ghost use Rattle.std.specs.Prelude.{List, ℕ, vec_capacity};
    ghost use Rattle.http_talk.specs.Reading.{IsReader};

    ghost Value = { List ℕ };

    ghost view = { λ r. r.held.items };

    ghost invariant = { λ r. IsReader r.held.items (vec_capacity r.held) r.place };
}

// How many bytes are held.
fn held_len(held: &Vec<u8>) -> usize
    ensures items { result ≡ length held.now.items }
    ensures len { result ≡ vec_len held.now }
{
    held.as_slice().len()
}

// Adds bytes for which there is room.
fn keep(held: &mut Vec<u8>, bytes: &[u8])
    requires { vec_len held.old + length bytes.now ≤ vec_capacity held.old }
    ensures items { held.new.items ≡ held.old.items ++ bytes.now }
    ensures room { vec_capacity held.old ≤ vec_capacity held.new }
{
    held.extend_from_slice(bytes).unwrap();
}

// What the bytes held ask for with those that end the head; none are held then.
fn ended(held: &mut Vec<u8>, front: &[u8]) -> Result<Head, Refusal>
    requires room { vec_len held.old + length front.now ≤ vec_capacity held.old }
    requires whole { let head = held.old.items ++ front.now in IsHeadLength head (length head) }
    ensures answer { IsAnswer (held.old.items ++ front.now) result }
    ensures empty { held.new.items ≡ [] }
    ensures kept { vec_capacity held.old ≤ vec_capacity held.new }
{
    keep(held, front);
    let answer = answer_of(held.as_slice());
    held.clear();
    answer
}

// The answer where the head ends after so many bytes of a piece.
fn fed_of(used: usize, answer: Result<Head, Refusal>) -> Fed
    ensures { result ≡ reading.fed_of used answer }
{
    match answer {
        Ok(head) => Fed::Whole { used, head },
        Err(why) => Fed::Refused(why),
    }
}

impl HeadReader {
    /// A reader that holds nothing. Takes the memory for a whole head, 16,384 bytes; no other call takes any.
    pub fn make(alloc: Global) -> Result<HeadReader, AllocError>
        ensures empty { IfOk result (λ reader. reader ≡ []) }
    {
        Ok(HeadReader {
            held: Vec::with_capacity(alloc, HEAD_LIMIT)?,
            place: Place::Blank,
        })
    }

    /// Takes a piece of the input, in the time of its length. After a head or a refusal nothing is held.
    pub fn feed(&mut self, piece: &[u8]) -> Fed
        ensures says { Feeds self.old piece.now result }
        ensures held { self.new ≡ held_after self.old piece.now result }
    {
        let room = HEAD_LIMIT - held_len(&self.held);
        let (seen, _) = piece.split_at(room.min(piece.len()));
        match look_on(self.place, seen) {
            Scan::Open(place) => {
                if seen.len() == room {
                    self.held.clear();
                    self.place = Place::Blank;
                    return Fed::Refused(Refusal::TooManyFields);
                }
                keep(&mut self.held, seen);
                self.place = place;
                Fed::More
            }
            Scan::Ended(used) => {
                let (front, _) = seen.split_at(used);
                self.place = Place::Blank;
                fed_of(used, ended(&mut self.held, front))
            }
        }
    }

    /// The refusal of an input that ended before the head's end.
    pub fn end(&self) -> Refusal
        ensures head { result ≡ Refusal.Head }
        ensures request { IsRequest self.now (Refused result) }
    {
        let _held = &self.held;
        Refusal::Head
    }

    /// Lets go of what is held, for the next connection.
    pub fn clear(&mut self)
        ensures empty { self.new ≡ [] }
    {
        self.held.clear();
        self.place = Place::Blank;
    }
}
