//! The fault that bytes have which are no feed: `specs/Faults.antt`. It is looked for only where the quick reader found
//! no feed, or in a body no entity or header, since it keeps the place of each piece; and in a time that grows with the
//! bytes: each field is looked at once for each known field of its message.
ghost use Rattle.std.specs.Prelude.{IfOk};
ghost use Rattle.feed_reading.specs.Faults.{HasFault, IsLeast};

pub mod lengths;
pub mod messages;
pub mod order;
pub mod piece;
pub mod pieces;
mod tables;

use crate::fault::FeedFault;
use gw_base::Feed;
use lengths::too_long;
use messages::piece_faults;
use order::earlier;
use piece::Piece;
use std::alloc::{AllocError, Global};

// The first fault of the bytes, if they have one.
pub fn first_fault(alloc: Global, bytes: &[u8]) -> Result<Option<FeedFault>, AllocError>
    ensures { IfOk result (λ found. IsLeast (HasFault bytes.now) found) }
{
    let whole = Piece {
        tag: 0,
        start: 0,
        bytes,
    };
    let message = piece_faults::<Feed>(alloc, &whole, bytes.len() as u64)?;
    Ok(earlier(too_long(bytes), message))
}
