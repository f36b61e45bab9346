//! The header of a feed, written without memory.
ghost use Rattle.std.specs.Prelude.{◌≡◌, ◌<◌, ◌≤◌, ◌^◌, length};
ghost use Rattle.wire_fields.specs.Spelling.{bytes_field};
ghost use Rattle.feed_writing.specs.Written.{feed_header, header};

use arrayvec::ArrayVec;
use gw_base::Moment;
use std::marker::Model;
use wire_fields::spell_varint;

// The most bytes that a header has, since a moment has at most six.
const MOST: usize = 16;

// The fields of the body up to the timestamp's value: version 2.0, a full dataset, and the timestamp's tag.
const FIELDS: [u8; 8] = [0x0a, 3, b'2', b'.', b'0', 0x10, 0, 0x18];

/// The bytes of a feed's header. A contract sees them as a list.
#[derive(Debug, Drop)]
pub struct HeaderBytes {
    bytes: ArrayVec<u8, MOST>,
}

impl Model for HeaderBytes {
    ghost use Rattle.std.specs.Prelude.{List, ℕ};

    ghost Value = { List ℕ };

    ghost view = { λ h. h.bytes.items };
}

impl HeaderBytes {
    /// The bytes.
    pub fn as_slice(&self) -> &[u8]
        ensures same { result.now ≡ self.now }
    {
        self.bytes.as_slice()
    }
}

// The header of that second since 1970.
fn header_at(timestamp: u64) -> HeaderBytes
    requires { timestamp < 2 ^ 42 }
    ensures written { result ≡ bytes_field 1 (feed_header timestamp) }
    ensures short { length result ≤ 16 }
{
    let timestamp = spell_varint(timestamp);
    let timestamp = timestamp.as_slice();
    let mut bytes = ArrayVec::new();
    bytes.push(0x0a);
    bytes.push((FIELDS.len() + timestamp.len()) as u8);
    bytes.try_extend_from_slice(&FIELDS).unwrap();
    bytes.try_extend_from_slice(timestamp).unwrap();
    HeaderBytes { bytes }
}

/// The header of a full dataset of version 2.0 that is made at that moment, as the first field of its
/// feed (GTFS Realtime, FeedHeader). Takes no memory.
pub fn header_bytes(moment: Moment) -> HeaderBytes
    ensures written { result ≡ header moment }
    ensures short { length result ≤ 16 }
{
    header_at(moment.secs() as u64)
}
