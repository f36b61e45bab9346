//! Pieces of a message: what stands in them, and where they break.
ghost use Rattle.std.specs.Prelude.{◌≡◌, ◌+◌, ◌<◌, [], List, min, length, Option, Some, None, IfOk, IfErr, MatchOption, MatchBool, OnOk};
ghost use Rattle.wire_fields.specs.Seen.{field_of};
ghost use Rattle.std.specs.List.{AllByRecursion};
ghost use Rattle.feed_reading.specs.Faults.{Stands, Inside, InSome, IsTorn, IsNotText, IsMissing, missing_place, IsLeast};
ghost use Rattle.feed_reading.specs.Found.{SameSet};
ghost use Rattle.feed_reading.specs.Pieces.{piece_of, IsFollowed, BreaksHere, IsPieceAt, Listed, GoesOn, Gains, SomeStands, NoneStands, SomeInside, AllLack, IsFirstTag};

use crate::fault::FeedFault;
use crate::finder::order::earlier;
use crate::finder::piece::Piece;
use crate::whole::check_fields;
use gw_base::{List, Required};
use std::alloc::{AllocError, Global};
use wire_fields::{Field, Value, WireFault, next_field};

// The first field of a piece, and the piece after it. None at its end.
pub fn first_of<'a>(piece: &Piece<'a>) -> Result<Option<(Field<'a>, Piece<'a>)>, WireFault>
    ensures found { IfOk result
        (λ found. MatchOption found (piece.now.bytes.now ≡ []) (λ x. IsFollowed piece.now (field_of x.0) x.1)) }
    ensures fault { IfErr result (λ fault. BreaksHere piece.now fault) }
{
    match next_field(piece.bytes, 0)? {
        Some((field, next)) => {
            let (_, rest) = piece.bytes.split_at(next);
            let after = Piece {
                tag: piece.tag,
                start: piece.start + next as u64,
                bytes: rest,
            };
            Ok(Some((field, after)))
        }
        None => Ok(None),
    }
}

// Where a piece breaks, if it does.
pub fn break_of(piece: &Piece<'_>) -> Option<FeedFault>
    ensures { IsLeast (IsTorn (piece_of piece.now)) result }
{
    match check_fields(piece.bytes) {
        Ok(()) => None,
        Err(fault) => Some(FeedFault::Wire(WireFault {
            at: piece.start + fault.at,
            kind: fault.kind,
        })),
    }
}

// The piece that a field is which stands from the front of one piece to the front of another, if it has that number.
fn piece_here<'a>(
    rest: &Piece<'a>,
    field: &Field<'a>,
    after: &Piece<'a>,
    number: u32,
) -> Option<Piece<'a>>
    requires { IsFollowed rest.now (field_of field.now) after.now }
    ensures { IsPieceAt (field_of field.now) rest.now.start after.now.start number result }
{
    match field.value {
        Value::Bytes(body) if field.number == number => Some(Piece {
            tag: rest.start,
            start: after.start - body.len() as u64,
            bytes: body,
        }),
        _ => None,
    }
}

// Adds the piece that this field is, if it is one.
fn add_here<'a>(
    list: &mut List<Piece<'a>>,
    rest: &Piece<'a>,
    field: &Field<'a>,
    after: &Piece<'a>,
    number: u32,
) -> Result<(), AllocError>
    requires { IsFollowed rest.now (field_of field.now) after.now }
    ensures { OnOk result (GoesOn number list.old rest.now list.new after.now) }
{
    match piece_here(rest, field, after, number) {
        Some(inner) => list.push(inner),
        None => Ok(()),
    }
}

// Adds the pieces that stand in a piece as fields of a number.
fn add_inside<'a>(
    list: &mut List<Piece<'a>>,
    piece: &Piece<'a>,
    number: u32,
) -> Result<(), AllocError>
    ensures { OnOk result (Gains list.old list.new (Stands (piece_of piece.now) number)) }
{
    let mut rest = *piece;
    loop {
        match first_of(&rest) {
            Ok(Some((field, after))) => {
                add_here(list, &rest, &field, &after, number)?;
                rest = after;
            }
            Ok(None) => return Ok(()),
            Err(_) => return Ok(()),
        }
    }
}

// The pieces that stand in those of a message as fields of a number.
pub fn inside<'a>(
    alloc: Global,
    pieces: &[Piece<'a>],
    number: u32,
) -> Result<List<Piece<'a>>, AllocError>
    ensures { IfOk result (λ list. SameSet (Inside number (Listed pieces.now)) (Listed list)) }
{
    let mut list = List::new(alloc);
    for piece in pieces {
        add_inside(&mut list, piece, number)?;
    }
    Ok(list)
}

// Whether a piece has a field with bytes of a number.
fn holds(piece: &Piece<'_>, number: u32) -> bool
    ensures { MatchBool result (SomeStands number piece.now) (NoneStands number piece.now) }
{
    let mut rest = *piece;
    loop {
        match first_of(&rest) {
            Ok(Some((field, after))) => {
                match piece_here(&rest, &field, &after, number) {
                    Some(_inner) => return true,
                    None => rest = after,
                }
            }
            Ok(None) => return false,
            Err(_) => return false,
        }
    }
}

// Whether a piece of a message has one.
fn any_holds(pieces: &[Piece<'_>], number: u32) -> bool
    ensures { MatchBool result (SomeInside number pieces.now) (AllByRecursion (NoneStands number) pieces.now) }
{
    for piece in pieces {
        if holds(piece, number) {
            return true;
        }
    }
    false
}

// Where a message breaks first, if it does.
pub fn first_break(pieces: &[Piece<'_>]) -> Option<FeedFault>
    ensures { IsLeast (InSome (Listed pieces.now) IsTorn) result }
{
    let mut found = None;
    for piece in pieces {
        found = earlier(found, break_of(piece));
    }
    found
}

// The fault of a text that isn't UTF-8.
fn text_fault(piece: &Piece<'_>) -> Option<FeedFault>
    ensures { IsLeast (IsNotText (piece_of piece.now)) result }
{
    match std::str::from_utf8(piece.bytes) {
        Ok(_) => None,
        Err(_) => Some(FeedFault::NotText(piece.tag)),
    }
}

// The first of the texts that isn't UTF-8, if there is one.
pub fn first_no_text(pieces: &[Piece<'_>]) -> Option<FeedFault>
    ensures { IsLeast (InSome (Listed pieces.now) IsNotText) result }
{
    let mut found = None;
    for piece in pieces {
        found = earlier(found, text_fault(piece));
    }
    found
}

fn lesser(a: u64, b: u64) -> u64
    ensures { result ≡ min a b }
{
    if a < b { a } else { b }
}

// The least tag of the pieces of a message.
fn first_tag(pieces: &[Piece<'_>]) -> u64
    requires { 0 < length pieces.now }
    ensures { IsFirstTag pieces.now result }
{
    let mut first = pieces[0].tag;
    for piece in pieces {
        first = lesser(first, piece.tag);
    }
    first
}

// The place where it is told that a field is missing.
fn place_of(name: Required, first: u64, end: u64) -> u64
    ensures { result ≡ missing_place name first end }
{
    match name {
        Required::Header | Required::GtfsRealtimeVersion => end,
        Required::Id | Required::Trip | Required::Text => first,
    }
}

// Whether all pieces of a message are lists of fields without one of this number.
fn all_lack(pieces: &[Piece<'_>], number: u32) -> bool
    ensures { MatchBool result (AllLack number pieces.now) (¬ AllLack number pieces.now) }
{
    if any_holds(pieces, number) {
        return false;
    }
    match first_break(pieces) {
        Some(_fault) => false,
        None => true,
    }
}

// The fault of a message of which all pieces are lists of fields without a field that has to be there.
pub fn missing(
    pieces: &[Piece<'_>],
    number: u32,
    name: Option<Required>,
    end: u64,
) -> Option<FeedFault>
    ensures { IsLeast (IsMissing number name (Listed pieces.now) end) result }
{
    match name {
        None => None,
        Some(name) => {
            if pieces.is_empty() {
                return None;
            }
            if all_lack(pieces, number) {
                let place = place_of(name, first_tag(pieces), end);
                return Some(FeedFault::MissingField(place, name));
            }
            None
        }
    }
}
