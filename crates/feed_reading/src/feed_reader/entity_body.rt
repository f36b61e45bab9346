//! The body of one entity of a feed: the entity that it means, or its first fault.
ghost use Rattle.std.specs.Prelude.{IfOk};
ghost use Rattle.feed_reading.specs.FeedSteps.{IsReadOf};
ghost use Rattle.feed_reading.specs.Pieces.{piece_of};

use crate::fault::FeedFault;
use crate::finder::messages::piece_faults;
use crate::finder::piece::Piece;
use crate::plain::nested::read;
use crate::plain_fault::PlainFault;
use crate::quick::feeds::quick_entity;
use gw_base::Entity;
use std::alloc::{AllocError, Global};

// The same where the quick reader found no entity: the first fault, or what the plain reader finds.
#[cold]
#[inline(never)]
fn checked_entity(alloc: Global, piece: &Piece<'_>) -> Result<Result<Entity, FeedFault>, AllocError>
    ensures { IfOk result (IsReadOf (piece_of piece.now)) }
{
    match piece_faults::<Entity>(alloc, piece, 0)? {
        Some(fault) => Ok(Err(fault)),
        None => match read(alloc, piece.bytes) {
            Ok(entity) => Ok(Ok(entity)),
            Err(PlainFault::Memory) => Err(AllocError),
            Err(PlainFault::Meaningless) => unreachable!(),
        },
    }
}

// The entity that a piece means, or its first fault. An entity's faults don't depend on where the feed ends.
#[inline(always)]
pub fn read_entity(
    alloc: Global,
    piece: &Piece<'_>,
) -> Result<Result<Entity, FeedFault>, AllocError>
    ensures { IfOk result (IsReadOf (piece_of piece.now)) }
{
    match quick_entity(alloc, piece.bytes) {
        Ok(entity) => Ok(Ok(entity)),
        Err(PlainFault::Memory) => Err(AllocError),
        Err(PlainFault::Meaningless) => checked_entity(alloc, piece),
    }
}
