//! The faults of messages: one rule for each kind of field, which holds for all messages.
ghost use Rattle.std.specs.Prelude.{IfOk};
ghost use Rattle.gw_base.specs.declared.required.Required.{Required};
ghost use Rattle.feed_reading.specs.declared.fault.FeedFault.{FeedFault};
ghost use Rattle.feed_reading.specs.Faults.{Inside, InSome, HasFaultIn, IsLeast};
ghost use Rattle.feed_reading.specs.Pieces.{piece_of, Listed, InText, InMessage, InEach, InRequired};

use crate::fault::FeedFault;
use crate::finder::order::earlier;
use crate::finder::piece::Piece;
use crate::finder::pieces::{first_break, first_no_text, inside, missing};
use gw_base::Required;
use std::alloc::{AllocError, Global};

// A message of which the known fields are looked at.
pub trait KnownMessage {
    ghost use Rattle.std.specs.Prelude.{IfOk};
    ghost use Rattle.feed_reading.specs.Known.{Known};
    ghost use Rattle.feed_reading.specs.Faults.{HasFaultIn, IsLeast};
    ghost use Rattle.feed_reading.specs.Pieces.{Listed};

    // Which fields are known: by `specs/Known.antt`.
    ghost known: { Known };

    // The first fault of its known fields, in a feed of this length.
    fn faults_inside(
        alloc: Global,
        pieces: &[Piece<'_>],
        end: u64,
    ) -> Result<Option<FeedFault>, AllocError>
        ensures { IfOk result (λ found. IsLeast (HasFaultIn known (Listed pieces.now) end) found) };
}

// The first fault of a text field.
pub fn text_faults(
    alloc: Global,
    pieces: &[Piece<'_>],
    number: u32,
    name: Option<Required>,
    end: u64,
) -> Result<Option<FeedFault>, AllocError>
    ensures { IfOk result (λ found. IsLeast (InText number name (Listed pieces.now) end) found) }
{
    let texts = inside(alloc, pieces, number)?;
    let text = first_no_text(texts.as_slice());
    Ok(earlier(text, missing(pieces, number, name, end)))
}

// The first fault of a message: where it breaks, or one of its known fields.
pub fn message_faults<K: KnownMessage>(
    alloc: Global,
    pieces: &[Piece<'_>],
    end: u64,
) -> Result<Option<FeedFault>, AllocError>
    ensures { IfOk result (λ found. IsLeast (InMessage K.known (Listed pieces.now) end) found) }
{
    if pieces.is_empty() {
        return Ok(None);
    }
    let inner = K::faults_inside(alloc, pieces, end)?;
    Ok(earlier(first_break(pieces), inner))
}

// The first fault of a message that is read from all its pieces together.
pub fn once_faults<K: KnownMessage>(
    alloc: Global,
    pieces: &[Piece<'_>],
    number: u32,
    name: Option<Required>,
    end: u64,
) -> Result<Option<FeedFault>, AllocError>
    ensures { IfOk result (λ found. IsLeast (InRequired K.known number name (Listed pieces.now) end) found) }
{
    let inner = inside(alloc, pieces, number)?;
    let inner = message_faults::<K>(alloc, inner.as_slice(), end)?;
    Ok(earlier(inner, missing(pieces, number, name, end)))
}

// The first fault of a message of one piece.
pub fn piece_faults<K: KnownMessage>(
    alloc: Global,
    piece: &Piece<'_>,
    end: u64,
) -> Result<Option<FeedFault>, AllocError>
    ensures { IfOk result (λ found. IsLeast (InEach K.known end (piece_of piece.now)) found) }
{
    let one = std::slice::from_ref(piece);
    let found = message_faults::<K>(alloc, one, end)?;
    Ok(found)
}

// The first fault of these pieces, of which each is a message.
fn faults_of_each<K: KnownMessage>(
    alloc: Global,
    inner: &[Piece<'_>],
    end: u64,
) -> Result<Option<FeedFault>, AllocError>
    ensures { IfOk result (λ found. IsLeast (InSome (Listed inner.now) (InEach K.known end)) found) }
{
    let mut found = None;
    for piece in inner {
        found = earlier(found, piece_faults::<K>(alloc, piece, end)?);
    }
    Ok(found)
}

// The first fault of messages that repeat, of which each piece is one.
pub fn each_faults<K: KnownMessage>(
    alloc: Global,
    pieces: &[Piece<'_>],
    number: u32,
    end: u64,
) -> Result<Option<FeedFault>, AllocError>
    ensures { IfOk result (λ found. IsLeast (InSome (Inside number (Listed pieces.now)) (InEach K.known end)) found) }
{
    let inner = inside(alloc, pieces, number)?;
    let found = faults_of_each::<K>(alloc, inner.as_slice(), end)?;
    Ok(found)
}
