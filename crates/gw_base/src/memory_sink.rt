//! A sink in memory.
ghost use Rattle.std.specs.Prelude.{◌≡◌, ◌+◌, ◌-◌, ◌<◌, ◌++◌, true, false, [], length, Ok, Some, IsErr, IfOk};
ghost use Rattle.gw_base.specs.Count.{Counts};
ghost use Rattle.gw_base.specs.Memory.{fits_next, after_use, after_fault};

use crate::buffer::Buf;
use crate::list::List;
use crate::sink::{Failed, Sink};
use crate::uses::Uses;
use std::alloc::{AllocError, Global};
use std::marker::Model;

/// A sink in memory of a stated room, with the numbers of the writes that are to fail. It tells what is
/// written. A write that doesn't fit in the room that is left is a fault, and each other write takes
/// its whole piece. A contract sees what is written, the room that is left, and the uses.
#[derive(Debug, Drop)]
pub struct MemorySink {
    written: Buf,
    uses: Uses,
}

impl Model for MemorySink {
    ghost use Rattle.gw_base.specs.Memory.{SinkInMemory};

    ghost Value = { SinkInMemory };

    ghost view = { λ s. record { written = s.written.bytes; room = s.written.spare; uses = s.uses } };
}

impl MemorySink {
    /// An empty sink with room for that many bytes, which are taken at once. `fails` has the numbers,
    /// from 1, of the writes that are to fail.
    pub fn make(alloc: Global, room: u64, fails: List<u64>) -> Result<MemorySink, AllocError>
        ensures made { IfOk result (λ sink. sink ≡ record {
          written = [];
          room = room;
          uses = record { fails = fails; made = 0; faults = 0 };
        }) }
    {
        Ok(MemorySink {
            written: Buf::with_room(alloc, room as usize)?,
            uses: Uses::new(fails),
        })
    }

    /// What is written so far.
    pub fn written(&self) -> &[u8]
        ensures same { result.now ≡ self.now.written }
    {
        self.written.as_slice()
    }
}

impl Sink for MemorySink {
    ghost told = { λ s. Some s.written };

    ghost faults = { λ s. s.uses.faults };

    fn write(&mut self, piece: &[u8]) -> Result<usize, Failed>
        requires { 0 < length piece.now }
        // A write goes well exactly where it is not to fail and its piece fits, and then takes all of it.
        ensures went { fits_next self.old piece.now ≡ true
            → (result ≡ Ok (length piece.now)) × (self.new
            ≡ record {
              written = self.old.written ++ piece.now;
              room = self.old.room - length piece.now;
              uses = after_use self.old.uses;
            }) }
        ensures failed { fits_next self.old piece.now ≡ false
            → IsErr result × (self.new ≡ record {
              written = self.old.written;
              room = self.old.room;
              uses = after_fault self.old.uses;
            }) }

        ensures counts { Counts (IsErr result) self.old.uses.faults self.new.uses.faults }
    {
        let fits = piece.len() <= self.written.spare();
        if !self.uses.begin(fits) {
            return Err(Failed);
        }
        self.written.put_slice(piece);
        Ok(piece.len())
    }
}
