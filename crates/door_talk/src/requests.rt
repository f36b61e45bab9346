//! A request, read off a door. The definition is `AsksFor` of `specs/Requests.antt`.
ghost use Rattle.std.specs.Prelude.{◌≡◌, ◌≤◌, ◌<◌, ◌-◌, ◌++◌, true, ℕ, List, drop, take, length, IfSome, Ok};
ghost use Rattle.gw_base.specs.Count.{Rose};
ghost use Rattle.gw_base.specs.Limits.{body_limit};
ghost use Rattle.http_talk.specs.Asked.{action_of};
ghost use Rattle.http_talk.specs.Request.{IsHead};
ghost use Rattle.http_talk.specs.declared.target.Action.TheVariants as action;
ghost use Rattle.door_talk.specs.Requests.{AsksFor, HasRead, IsPosted, IsWithin};

use crate::asked::Asked;
use crate::bodies::{BodyRead, hand_on, read_body};
use crate::heads::{HeadRead, read_head};
use crate::taker::TakesBody;
use gw_base::{Door, Failed, Kind, Moment};
use http_talk::{Action, Head, HeadReader, Refusal};
use std::alloc::Global;

/// The most bytes that are read at once.
const PIECE: usize = 16_384;

/// Reads the body of a POST, of which the bytes from `from` to `to` of the last piece came already.
fn read_post<D: Door, G, B: TakesBody<G>>(
    alloc: Global,
    kind: Kind,
    head: Head,
    from: usize,
    to: usize,
    piece: &mut [u8],
    over: &G,
    moment: Moment,
    taker: &mut B,
    door: &mut D,
) -> Asked
    requires present { (D.beside door.old).present ≡ true }
    requires room { 0 < length piece.old }
    requires part { (from ≤ to) × (to ≤ length piece.old) }
    requires post { action_of head.target ≡ action.Post kind }
    requires small { head.length ≤ body_limit }
    ensures asks { IfSome (D.beside door.old).told (λ told. (input : List ℕ) (count : ℕ) → IsHead input count (Ok head)
        → drop count input ≡ drop from (take to piece.old) ++ told.unread
        → AsksFor (B.stands over.now taker.new moment) input result) }
    ensures reads { (bytes : List ℕ) × HasRead (D.beside door.old) (D.beside door.new) bytes
        × (length bytes ≤ head.length - length (drop from (take to piece.old))) }
    ensures taken { B.taken taker.new ≤ head.length }
    ensures posted { IsPosted (B.stands over.now taker.new moment) result }
    ensures lost { result ≡ Asked.Lost → Rose (D.faults door.old) (D.faults door.new) }
    ensures counts { D.faults door.old ≤ D.faults door.new }
    ensures output { D.told door.new ≡ D.told door.old }
{
    let size = head.length as usize;
    if taker.begin(alloc, over, moment, kind, size).is_err() {
        return Asked::NoRoom;
    }
    let (came, _) = piece.split_at(to);
    let (_, part) = came.split_at(from);
    let (front, _) = part.split_at(size.min(part.len()));
    if hand_on(over, taker, front).is_err() {
        return Asked::NoRoom;
    }
    let len = front.len();
    match read_body(door, piece, size, len, over, taker) {
        Ok(BodyRead::Whole) => Asked::Post(kind),
        Ok(BodyRead::Cut) => Asked::Refused(Refusal::Cut),
        Ok(BodyRead::NoRoom) => Asked::NoRoom,
        Err(Failed) => Asked::Lost,
    }
}

/// Reads what the present connection asks for at a moment, of which nothing was read yet. The body of a POST, which has
/// at most 16,777,216 bytes, is taken as it arrives. No more is read than the 16,384 bytes that a head may have, or the
/// head of a POST and its body (RFC 9112, section 6.3); a read that isn't at the input's end takes a byte or more, so
/// the reads end.
pub fn read_request<D: Door, G, B: TakesBody<G>>(
    alloc: Global,
    reader: &mut HeadReader,
    over: &G,
    moment: Moment,
    taker: &mut B,
    door: &mut D,
) -> Asked
    requires present { (D.beside door.old).present ≡ true }
    ensures asks { IfSome (D.beside door.old).told (λ told.
        AsksFor (B.stands over.now taker.new moment) told.unread result) }
    ensures reads { (bytes : List ℕ) × HasRead (D.beside door.old) (D.beside door.new) bytes × IsWithin bytes }
    ensures taken { B.taken taker.old ≤ body_limit → B.taken taker.new ≤ body_limit }
    ensures posted { IsPosted (B.stands over.now taker.new moment) result }
    ensures lost { result ≡ Asked.Lost → Rose (D.faults door.old) (D.faults door.new) }
    ensures counts { D.faults door.old ≤ D.faults door.new }
    ensures output { D.told door.new ≡ D.told door.old }
{
    let mut piece = [0; PIECE];
    reader.clear();
    match read_head(reader, door, &mut piece) {
        Ok(HeadRead::Ended { head, from, to }) => {
            match head.target.action() {
                Action::Get(resource) => Asked::Get(resource),
                Action::Post(kind) => read_post(
                    alloc, kind, head, from, to, &mut piece, over, moment, taker, door,
                ),
            }
        }
        Ok(HeadRead::Refused(why)) => Asked::Refused(why),
        Ok(HeadRead::Cut(why)) => Asked::Refused(why),
        Err(Failed) => Asked::Lost,
    }
}
