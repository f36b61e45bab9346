//! Entities whose stated length is over the limit.
ghost use Rattle.std.specs.Prelude.{MatchBool};
ghost use Rattle.feed_reading.specs.Faults.{IsTooLong, IsLeast};
ghost use Rattle.feed_reading.specs.Found.{IsLongHere};

use crate::fault::FeedFault;
use crate::finder::piece::Piece;
use crate::finder::pieces::first_of;
use wire_fields::first_number;

/// The most bytes that an entity has.
pub const LIMIT: u64 = 1_048_576;

// The tag of an entity in its feed: field 2, with bytes.
const ENTITY_TAG: u64 = 18;

// Whether a piece begins with the tag of an entity and a length over the limit.
fn begins_long(piece: &Piece<'_>) -> bool
    ensures { MatchBool result (IsLongHere piece.now.bytes.now) (¬ IsLongHere piece.now.bytes.now) }
{
    match first_number(piece.bytes) {
        Some((tag, rest)) => {
            if tag != ENTITY_TAG {
                return false;
            }
            match first_number(rest) {
                Some((len, _after)) => len > LIMIT,
                None => false,
            }
        }
        None => false,
    }
}

// The first entity that is too long, if there is one.
pub fn too_long(bytes: &[u8]) -> Option<FeedFault>
    ensures { IsLeast (IsTooLong bytes.now) result }
{
    let mut rest = Piece {
        tag: 0,
        start: 0,
        bytes,
    };
    if begins_long(&rest) {
        return Some(FeedFault::EntityTooLong(0));
    }
    loop {
        match first_of(&rest) {
            Ok(Some((_field, after))) => {
                if begins_long(&after) {
                    return Some(FeedFault::EntityTooLong(after.start));
                }
                rest = after;
            }
            Ok(None) => return None,
            Err(_) => return None,
        }
    }
}
