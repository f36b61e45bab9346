//! A feed of 2024-05-01T06:00:00Z, whose one trip T1 is a minute late at its first stop; by hand from GTFS Realtime's
//! messages.
use feed_messages::read_feed;
use gw_base::Feed;
use std::alloc::Global;

const FEED: &[u8] =
    b"\x0a\x0d\x0a\x032.0\x10\x00\x18\xe0\xb4\xc7\xb1\x06\x12\x3f\x0a\x0b20240501:T1\x1a\x30\x0a\x10\x0a\x02T1\x1a\
      \x0820240501\x20\x00\x12\x16\x08\x0a\x12\x08\x08\x3c\x10\x9c\xb5\xc7\xb1\x06\x1a\x08\x08\x3c\x10\x9c\xb5\xc7\
      \xb1\x06\x20\xe0\xb4\xc7\xb1\x06";

/// Its bytes. A function, so that no caller has them in its goals.
pub fn late_bytes() -> &'static [u8] {
    FEED
}

/// The bytes of its entity, behind the header's 15.
pub fn late_entity() -> &'static [u8] {
    let bytes = late_bytes();
    let (_, entity) = bytes.split_at(bytes.len().min(15));
    entity
}

/// The feed.
pub fn late_feed(alloc: Global) -> Option<Feed> {
    read_feed(alloc, late_bytes()).ok()
}
