//! The bodies of a feed's header: what one says, and what all say so far, or the first fault of one.
ghost use Rattle.std.specs.Prelude.{◌≡◌, IfOk};
ghost use Rattle.feed_reading.specs.FeedSteps.{InHeaderBody, IsHeadOf, head_after};
ghost use Rattle.feed_reading.specs.Faults.{IsLeast};
ghost use Rattle.feed_reading.specs.FeedPieces.{OfHeadSoFar};
ghost use Rattle.feed_reading.specs.Pieces.{piece_of};

use crate::fault::FeedFault;
use crate::feed_reader::state::HeadSoFar;
use crate::finder::order::earlier;
use crate::finder::piece::Piece;
use crate::finder::pieces::{break_of, first_no_text, inside};
use crate::plain::kinds::{text, uint64};
use crate::plain::nested::{Message, read};
use crate::plain_fault::PlainFault;
use crate::quick::feeds::quick_header;
use std::alloc::{AllocError, Global};
use wire_fields::Field;

impl Message for HeadSoFar {
    ghost table = { OfHeadSoFar };

    fn of_fields(alloc: Global, fields: &[Field<'_>]) -> Result<HeadSoFar, PlainFault> {
        Ok(HeadSoFar {
            version: text(alloc, fields, 1)?,
            incrementality: uint64(fields, 2),
            timestamp: uint64(fields, 3),
        })
    }
}

// The first fault of a body, if it has one: where it breaks, or a version that isn't UTF-8.
fn header_fault(alloc: Global, piece: &Piece<'_>) -> Result<Option<FeedFault>, AllocError>
    ensures { IfOk result (λ found. IsLeast (InHeaderBody (piece_of piece.now)) found) }
{
    let versions = inside(alloc, std::slice::from_ref(piece), 1)?;
    Ok(earlier(break_of(piece), first_no_text(versions.as_slice())))
}

// The same where the quick reader found nothing: the first fault, or what the plain reader finds.
#[cold]
#[inline(never)]
fn checked_header(
    alloc: Global,
    piece: &Piece<'_>,
) -> Result<Result<HeadSoFar, FeedFault>, AllocError>
    ensures { IfOk result (IsHeadOf (piece_of piece.now)) }
{
    match header_fault(alloc, piece)? {
        Some(fault) => Ok(Err(fault)),
        None => match read(alloc, piece.bytes) {
            Ok(head) => Ok(Ok(head)),
            Err(PlainFault::Memory) => Err(AllocError),
            Err(PlainFault::Meaningless) => unreachable!(),
        },
    }
}

// What a body says, or its first fault.
#[inline(always)]
pub fn read_header(
    alloc: Global,
    piece: &Piece<'_>,
) -> Result<Result<HeadSoFar, FeedFault>, AllocError>
    ensures { IfOk result (IsHeadOf (piece_of piece.now)) }
{
    match quick_header(alloc, piece.bytes) {
        Ok(head) => Ok(Ok(head)),
        Err(PlainFault::Memory) => Err(AllocError),
        Err(PlainFault::Meaningless) => checked_header(alloc, piece),
    }
}

// What bodies say, and then another one: the last version, incrementality and timestamp count.
pub fn said_after(before: Option<HeadSoFar>, said: HeadSoFar) -> HeadSoFar
    ensures { result ≡ head_after before said }
{
    match before {
        None => said,
        Some(before) => HeadSoFar {
            version: said.version.or(before.version),
            incrementality: said.incrementality.or(before.incrementality),
            timestamp: said.timestamp.or(before.timestamp),
        },
    }
}
