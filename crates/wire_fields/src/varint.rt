//! Numbers in seven bits a byte, in their shortest spelling, which is `varint` of `specs/Spelling.antt`.
ghost use Rattle.std.specs.Prelude.{◌≡◌, ◌≤◌, length};
ghost use Rattle.wire_fields.specs.Spelling.{varint};

use std::marker::Model;

/// The spelling of a number, of 1 to 10 bytes. A contract sees it as the list of them.
#[derive(Debug, Drop)]
pub struct Varint {
    bytes: [u8; 10],
    len: usize,
}

impl Model for Varint {
    ghost use Rattle.std.specs.Prelude.{ℕ, ◌≤◌, List, take};

    ghost Value = { List ℕ };

    ghost view = { λ v. take v.len v.bytes };

    ghost invariant = { λ v. v.len ≤ 10 };
}

impl Varint {
    /// The bytes.
    pub fn as_slice(&self) -> &[u8]
        ensures same { result.now ≡ self.now }
    {
        &self.bytes[..self.len]
    }
}

/// The shortest spelling of a number (protobuf encoding, "Base 128 Varints"). Takes no memory.
pub fn spell_varint(value: u64) -> Varint
    ensures spelled { result ≡ varint value }
{
    let mut bytes = [0; 10];
    let mut len = 0;
    let mut rest = value;
    while rest >= 128 {
        bytes[len] = (rest % 128) as u8 + 128;
        len += 1;
        rest /= 128;
    }
    bytes[len] = rest as u8;
    Varint {
        bytes,
        len: len + 1,
    }
}

/// The number of bytes of a number's shortest spelling, from 1 to 10.
#[inline(always)]
pub fn varint_len(value: u64) -> usize
    ensures counted { result ≡ length (varint value) }
    ensures some { 1 ≤ result }
    ensures most { result ≤ 10 }
{
    if value == 0 {
        return 1;
    }
    value.ilog2() as usize / 7 + 1
}
