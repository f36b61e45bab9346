//! Room for the messages of a list before they are read: how many there are is counted first, which saves moving
//! them, and room that stays empty.
ghost use Rattle.std.specs.Prelude.{◌≡◌, ◌≤◌, [], length, IfOk, IfSome};

use gw_base::List;
use std::alloc::{AllocError, Global};

// The tag, the size and the bytes after them, if the bytes begin with the tag of one byte of a field of bytes and a
// size of one or two.
#[inline(always)]
fn head(bytes: &[u8]) -> Option<(u8, usize, &[u8])>
    ensures { IfSome result (λ x. length x.2.now ≤ length bytes.now) }
{
    match bytes {
        [tag, size, rest @ ..] if *tag % 8 == 2 && *tag < 128 && *size < 128 => {
            Some((*tag, *size as usize, rest))
        }
        [tag, low, high, rest @ ..] if *tag % 8 == 2 && *tag < 128 && *high < 128 => {
            Some((
                *tag,
                usize::from(*high) * 128 + usize::from(*low % 128),
                rest,
            ))
        }
        _ => None,
    }
}

// How many bodies of this field number stand at the front, up to the first field of another kind than bytes, or that
// isn't whole. Nothing has to be proved of it but its bound.
fn bodies_in_front(bytes: &[u8], number: u8) -> usize
    ensures { result ≤ length bytes.now }
{
    let mut count = 0;
    let mut rest = bytes;
    for _ in 0..bytes.len() {
        let Some((tag, size, after)) = head(rest) else {
            return count;
        };
        if after.len() < size {
            return count;
        }
        if tag / 8 == number {
            count += 1;
        }
        rest = &after[size..];
    }
    count
}

// An empty list with room for the bodies of this field number that stand at the front.
pub fn with_room<T>(alloc: Global, bytes: &[u8], number: u8) -> Result<List<T>, AllocError>
    ensures { IfOk result (λ list. list ≡ []) }
{
    Ok(List::from_vec(Vec::with_capacity(alloc, bodies_in_front(bytes, number))?))
}
