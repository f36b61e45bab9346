//! Entities as they are written: `specs/Written.antt`.
ghost use Rattle.std.specs.Prelude.{◌≡◌, IfOk, OnOk};
ghost use Rattle.feed_writing.specs.Writable.{IsWritable};
ghost use Rattle.feed_writing.specs.Written.{written};

mod fields;
mod messages;
mod nested;

use fields::bytes_size;
use gw_base::{Buf, Bytes, Entity};
use messages::MeasuredEntity;
use nested::{WrittenMessage, put_sized};
use std::alloc::{AllocError, Global};

/// The entity as a field of its feed, tag and length included (GTFS Realtime, FeedEntity). Its length is measured
/// first, and the bytes are written into one buffer. Want of memory comes also where it has more bytes than a buffer
/// can have.
pub fn entity_bytes(alloc: Global, entity: &Entity) -> Result<Bytes, AllocError>
    ensures written { IfOk result (λ bytes. bytes ≡ written entity.now) }
    ensures writable { OnOk result (IsWritable entity.now) }
{
    let measured = MeasuredEntity::of(entity);
    let fields = measured.size();
    let size = bytes_size(2, fields);
    if size == u64::MAX {
        return Err(AllocError);
    }
    let mut buf = Buf::with_room(alloc, size as usize)?;
    put_sized(&mut buf, 2, fields, &measured);
    Ok(buf.into_bytes())
}
