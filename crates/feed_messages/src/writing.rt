//! Entities and a feed's header are written by `feed_writing`; the bytes mean what they were written from.
ghost use Rattle.std.specs.Prelude.{◌≡◌, ◌≤◌, [], length, IfOk, OnOk};
ghost use Rattle.feed_writing.specs.Writable.{IsWritable};
ghost use Rattle.feed_writing.specs.Written.{written, header};
ghost use Rattle.feed_reading.specs.Tables.{MeansEntity, MeansFeed, full_dataset};

use feed_writing::HeaderBytes;
use gw_base::{Bytes, Entity, Moment};
use std::alloc::{AllocError, Global};

/// The entity as a field of its feed, tag and length included (GTFS Realtime, FeedEntity). Its length is measured
/// first, and the bytes are written into one buffer. Want of memory comes also where it has more bytes than a buffer
/// can have.
#[inline(always)]
pub fn entity_bytes(alloc: Global, entity: &Entity) -> Result<Bytes, AllocError>
    ensures written { IfOk result (λ bytes. bytes ≡ written entity.now) }
    ensures means { IfOk result (λ bytes. MeansEntity bytes entity.now) }
    ensures writable { OnOk result (IsWritable entity.now) }
{
    feed_writing::entity_bytes(alloc, entity)
}

/// The header of a full dataset of version 2.0 that is made at that moment, as the first field of its
/// feed (GTFS Realtime, FeedHeader). Takes no memory.
#[inline(always)]
pub fn header_bytes(moment: Moment) -> HeaderBytes
    ensures written { result ≡ header moment }
    ensures means { MeansFeed result (full_dataset moment []) }
    ensures short { length result ≤ 16 }
{
    feed_writing::header_bytes(moment)
}
