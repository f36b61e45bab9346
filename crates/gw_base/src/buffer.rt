//! A buffer for writing, whose room is taken at once.
ghost use Rattle.std.specs.Prelude.{◌≡◌, ◌++◌, ◌∷◌, [], ◌-◌, ◌<◌, ◌≤◌, length, IfOk};
ghost use Rattle.gw_base.specs.Written.{Written};

use crate::list::{Bytes, List};
use std::alloc::{AllocError, Global};
use std::marker::Model;

/// Bytes that are being written, with the room that is left. Writing into the room takes no memory.
/// A contract sees the bytes and the spare room.
#[derive(Debug, Drop)]
pub struct Buf {
    bytes: Vec<u8>,
    spare: usize,
}

impl Model for Buf {
    ghost use Rattle.std.specs.Prelude.{◌+◌, ◌≤◌, vec_len, vec_capacity};
    ghost use Rattle.gw_base.specs.Written.{Written};

    ghost Value = { Written };

    ghost view = { λ b. record { bytes = b.bytes.items; spare = b.spare } };

    ghost invariant = { λ b. vec_len b.bytes + b.spare ≤ vec_capacity b.bytes };
}

impl Buf {
    /// An empty buffer with room for that many bytes.
    pub fn with_room(alloc: Global, room: usize) -> Result<Buf, AllocError>
        ensures empty { IfOk result (λ buf. buf.bytes ≡ []) }
        ensures room { IfOk result (λ buf. buf.spare ≡ room) }
    {
        Ok(Buf {
            bytes: Vec::with_capacity(alloc, room)?,
            spare: room,
        })
    }

    /// Writes one byte at the end.
    pub fn put(&mut self, byte: u8)
        requires room { 0 < self.old.spare }
        ensures bytes { self.new.bytes ≡ self.old.bytes ++ byte ∷ [] }
        ensures spare { self.new.spare ≡ self.old.spare - 1 }
    {
        self.spare -= 1;
        self.bytes.push(byte).unwrap();
    }

    /// Writes bytes at the end.
    pub fn put_slice(&mut self, bytes: &[u8])
        requires room { length bytes.now ≤ self.old.spare }
        ensures bytes { self.new.bytes ≡ self.old.bytes ++ bytes.now }
        ensures spare { self.new.spare ≡ self.old.spare - length bytes.now }
    {
        self.spare -= bytes.len();
        self.bytes.extend_from_slice(bytes).unwrap();
    }

    /// How many more bytes it takes.
    pub fn spare(&self) -> usize
        ensures value { result ≡ self.now.spare }
    {
        self.spare
    }

    /// The bytes that were written.
    pub fn as_slice(&self) -> &[u8]
        ensures same { result.now ≡ self.now.bytes }
    {
        self.bytes.as_slice()
    }

    /// The bytes that were written, as a list. Takes no memory.
    pub fn into_bytes(self) -> Bytes
        ensures same { result ≡ self.bytes }
    {
        let Buf { bytes, spare: _ } = self;
        List::from_vec(bytes)
    }
}
