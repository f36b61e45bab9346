//! The quick reader of feeds: it reads the bytes once, from the front, and keeps of each message what its fields say so
//! far. A message in one piece is read where it stands; only one in several pieces is put together. It runs first, on
//! each feed and each body, since nearly all have no fault; it keeps no places, and tells no fault.
ghost use Rattle.std.specs.Prelude.{IfOk};
ghost use Rattle.feed_reading.specs.Partly.{MeansShortFeed};

mod alerts;
pub mod feeds;
pub mod fields;
mod found;
pub mod nested;
mod room;
mod trips;

use crate::plain_fault::PlainFault;
use feeds::FeedParts;
use gw_base::Feed;
use nested::read_parts;
use std::alloc::Global;

// The feed that the bytes mean, if no entity is too long. Where it answers `Meaningless`, the bytes have a fault.
pub fn quick_feed(alloc: Global, bytes: &[u8]) -> Result<Feed, PlainFault>
    ensures { IfOk result (λ feed. MeansShortFeed bytes.now feed) }
{
    read_parts::<FeedParts<'_>>(alloc, bytes)
}
