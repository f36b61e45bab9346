//! Feeds that are read piece by piece.
ghost use Rattle.std.specs.Prelude.{◌≡◌, ◌+◌, ◌<◌, ◌≤◌, length, IfOk};

use crate::said::{add_entity, lines_of};
use feed_messages::FeedReader;
use std::alloc::{AllocError, Global};

// The most bytes that a reader takes.
const MOST: usize = 16_777_216;

// Takes all of a piece, and adds the entities that end in it.
fn take_piece(
    alloc: Global,
    reader: &mut FeedReader,
    piece: &[u8],
    entities: &mut String,
) -> Result<(), AllocError>
    requires few { reader.old.taken + length piece.now ≤ 16777216 }
    ensures taken { IfOk result (λ _. reader.new.taken ≡ reader.old.taken + length piece.now) }
{
    let mut rest = piece;
    while !rest.is_empty() {
        let (used, given) = reader.feed(rest)?;
        let (_, after) = rest.split_at(used);
        rest = after;
        if let Some((_, entity)) = given {
            add_entity(alloc, &entity, entities)?;
        }
    }
    Ok(())
}

/// What the bytes say by pieces of so many bytes.
pub fn by_pieces(alloc: Global, bytes: &[u8], size: usize) -> Result<String, AllocError> {
    if bytes.len() > MOST || size == 0 {
        return String::from_str(alloc, "too many bytes\n");
    }
    let mut reader = FeedReader::make(alloc);
    let mut entities = String::new(alloc);
    let mut rest = bytes;
    while !rest.is_empty() {
        let (piece, after) = rest.split_at(size.min(rest.len()));
        take_piece(alloc, &mut reader, piece, &mut entities)?;
        rest = after;
    }
    let head = reader.finish();
    lines_of(alloc, head, entities.as_str())
}

/// What the bytes say by two pieces.
pub fn by_cut(alloc: Global, bytes: &[u8], cut: usize) -> Result<String, AllocError> {
    if bytes.len() > MOST || cut > bytes.len() {
        return String::from_str(alloc, "too many bytes\n");
    }
    let (first, second) = bytes.split_at(cut);
    let mut reader = FeedReader::make(alloc);
    let mut entities = String::new(alloc);
    take_piece(alloc, &mut reader, first, &mut entities)?;
    take_piece(alloc, &mut reader, second, &mut entities)?;
    let head = reader.finish();
    lines_of(alloc, head, entities.as_str())
}
