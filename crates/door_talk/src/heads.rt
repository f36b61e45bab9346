//! The head of a request, read off a door piece by piece.
ghost use Rattle.std.specs.Prelude.{◌≡◌, ◌≤◌, ◌<◌, true, [], ℕ, List, length, IfOk, IsErr};
ghost use Rattle.gw_base.specs.Count.{Counts};
ghost use Rattle.http_talk.specs.Ends.{head_limit};
ghost use Rattle.door_talk.specs.Requests.{HasRead, ReadsHead};

use crate::piece::read_piece;
use gw_base::{Door, Failed};
use http_talk::{Fed, HEAD_LIMIT, Head, HeadReader, Refusal};

/// How the reading of a head ended.
#[derive(Clone, Copy, Debug)]
pub enum HeadRead {
    /// The head ended, and the bytes from `from` to `to` of the last piece stand after it.
    Ended { head: Head, from: usize, to: usize },
    /// The request is refused by what came of it.
    Refused(Refusal),
    /// The request is refused, as the input ended in its head.
    Cut(Refusal),
}

/// Reads the head of the present connection's request, by pieces that fit in `piece`.
pub fn read_head<D: Door>(
    reader: &mut HeadReader,
    door: &mut D,
    piece: &mut [u8],
) -> Result<HeadRead, Failed>
    requires present { (D.beside door.old).present ≡ true }
    requires room { 0 < length piece.old }
    requires empty { reader.old ≡ [] }
    ensures room { length piece.new ≡ length piece.old }
    ensures reads { (bytes : List ℕ) × HasRead (D.beside door.old) (D.beside door.new) bytes
        × IfOk result (λ it. ReadsHead (D.beside door.new) bytes piece.new it)
        × (length bytes ≤ head_limit) }
    ensures output { D.told door.new ≡ D.told door.old }
    ensures counts { Counts (IsErr result) (D.faults door.old) (D.faults door.new) }
{
    let mut left = HEAD_LIMIT;
    loop {
        let count = read_piece(door, piece, left)?;
        if count == 0 {
            return Ok(HeadRead::Cut(reader.end()));
        }
        let (came, _) = piece.split_at(count);
        match reader.feed(came) {
            Fed::More => {}
            Fed::Whole { used, head } => return Ok(HeadRead::Ended {
                head,
                from: used,
                to: count,
            }),
            Fed::Refused(why) => return Ok(HeadRead::Refused(why)),
        }
        left -= count;
    }
}
