//! The header of a record: a byte of its kind, the moment, and its body's length.
ghost use Rattle.std.specs.Prelude.{◌≡◌};
ghost use Rattle.delivery_journal.specs.HeaderBytes.{kind_byte, header_bytes};
ghost use Rattle.delivery_journal.specs.Kept.{header_of, kind_of};

use gw_base::{BODY_LIMIT, Kind, LAST_MOMENT, Moment};

// What stands in a record before its body: the kind, the moment, and how many bytes the body has.
#[derive(Clone, Copy, Debug, PartialEq, Eq)]
pub struct Header {
    pub kind: Kind,
    pub moment: Moment,
    pub count: u64,
}

// The header that these bytes are; None where no kind has that byte, or the moment or the length is out of range.
#[tactic(auto, unfolding(crate::specs::Kept::header_of))]
pub fn read_header(bytes: &[u8; 13]) -> Option<Header>
    ensures { result ≡ header_of bytes.now }
{
    let [kind, a, b, c, d, e, f, g, h, i, j, k, l] = *bytes;
    let secs = u64::from_be_bytes([a, b, c, d, e, f, g, h]);
    let count = u64::from(u32::from_be_bytes([i, j, k, l]));
    if secs > LAST_MOMENT as u64 || count > BODY_LIMIT {
        return None;
    }
    let kind = kind_named(kind)?;
    let moment = Moment::new(secs as i64)?;
    Some(Header {
        kind,
        moment,
        count,
    })
}

// The kind that a byte names.
fn kind_named(byte: u8) -> Option<Kind>
    ensures { result ≡ kind_of byte }
{
    match byte {
        1 => Some(Kind::Estimated),
        2 => Some(Kind::Situations),
        3 => Some(Kind::Feed),
        _ => None,
    }
}

// The byte that names a kind.
fn byte_of(kind: Kind) -> u8
    ensures { result ≡ kind_byte kind }
{
    match kind {
        Kind::Estimated => 1,
        Kind::Situations => 2,
        Kind::Feed => 3,
    }
}

// The bytes of the header of a body of that kind, moment and length.
pub fn write_header(kind: Kind, moment: Moment, count: u32) -> [u8; 13]
    ensures { result ≡ header_bytes kind moment count }
{
    let [a, b, c, d, e, f, g, h] = (moment.secs() as u64).to_be_bytes();
    let [i, j, k, l] = count.to_be_bytes();
    [byte_of(kind), a, b, c, d, e, f, g, h, i, j, k, l]
}
