//! The body of a request, read off a door.
ghost use Rattle.std.specs.Prelude.{◌≡◌, ◌≤◌, ◌<◌, ◌+◌, ◌++◌, true, ℕ, ℤ, List, length, IfOk, OnOk, IsErr};
ghost use Rattle.gw_base.specs.Count.{Counts};
ghost use Rattle.gw_base.specs.Limits.{body_limit};
ghost use Rattle.door_talk.specs.Bodies.{ReadsBody};
ghost use Rattle.door_talk.specs.Requests.{HasRead};
ghost use Rattle.gw_base.specs.declared.kind.Kind.{Kind};

use crate::piece::read_piece;
use crate::taker::TakesBody;
use gw_base::{Door, Failed};
use std::alloc::AllocError;

/// How the reading of a body ended.
#[derive(Clone, Copy, Debug, PartialEq, Eq)]
pub enum BodyRead {
    /// The body was taken whole.
    Whole,
    /// The input ended before.
    Cut,
    /// There is no memory for it.
    NoRoom,
}

/// Hands on the next bytes of a body, if there are some. Err for want of memory.
pub fn hand_on<G, B: TakesBody<G>>(over: &G, taker: &mut B, bytes: &[u8]) -> Result<(), AllocError>
    requires room { B.taken taker.old + length bytes.now ≤ body_limit }
    ensures takes { (moment : ℤ) (kind : Kind) (front : List ℕ) → B.stands over.now taker.old moment kind front
        → OnOk result (B.stands over.now taker.new moment kind (front ++ bytes.now)) }
    ensures counted { OnOk result (B.taken taker.new ≡ B.taken taker.old + length bytes.now) }
    ensures within { B.taken taker.new ≤ B.taken taker.old + length bytes.now }
{
    if bytes.is_empty() {
        return Ok(());
    }
    taker.take(over, bytes)
}

/// Reads the present connection's input and hands it on, until the body that is taken has so many bytes.
pub fn read_body<D: Door, G, B: TakesBody<G>>(
    door: &mut D,
    piece: &mut [u8],
    size: usize,
    came: usize,
    over: &G,
    taker: &mut B,
) -> Result<BodyRead, Failed>
    requires present { (D.beside door.old).present ≡ true }
    requires room { 0 < length piece.old }
    requires small { (came ≤ size) × (size ≤ body_limit) }
    requires came { B.taken taker.old ≡ came }
    ensures reads { (bytes : List ℕ) × HasRead (D.beside door.old) (D.beside door.new) bytes
        × IfOk result (λ it. ReadsBody (D.beside door.new) (B.stands over.now taker.old) (B.stands over.now taker.new)
        came bytes size it) × (came + length bytes ≤ size) }
    ensures taken { B.taken taker.new ≤ size }
    ensures output { D.told door.new ≡ D.told door.old }
    ensures counts { Counts (IsErr result) (D.faults door.old) (D.faults door.new) }
{
    let mut done = came;
    while done < size {
        let count = read_piece(door, piece, size - done)?;
        if count == 0 {
            return Ok(BodyRead::Cut);
        }
        let (bytes, _) = piece.split_at(count);
        if taker.take(over, bytes).is_err() {
            return Ok(BodyRead::NoRoom);
        }
        done += count;
    }
    Ok(BodyRead::Whole)
}
