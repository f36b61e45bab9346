//! A door in memory.
ghost use Rattle.std.specs.Prelude.{◌≡◌, ◌≢◌, ◌<◌, ◌≤◌, ◌∷◌, ◌++◌, ℕ, List, true, false, [], length, take, Ok, Some, IsOk, IsErr, IfOk, OnErr};
ghost use Rattle.std.specs.Option.{option_map_or};
ghost use Rattle.gw_base.specs.Count.{Counts};
ghost use Rattle.gw_base.specs.Connections.{Arrives, NoneComes, Takes, Logs};
ghost use Rattle.gw_base.specs.Memory.{fails_next};
ghost use Rattle.gw_base.specs.DoorInMemory.{shown_beside, new_door, after_failed, after_none, after_next, read_count, after_read, write_count, fits_open, writes_next, after_write, after_finish};

use crate::connections::{Coming, Connection, Log};
use crate::door::{Door, Entry, Mark};
use crate::list::{Bytes, List};
use crate::moment::Moment;
use crate::sink::{Failed, Sink};
use crate::uses::Uses;
use std::alloc::{AllocError, Global};
use std::marker::Model;

/// A door in memory, with the numbers of its calls of `next`, `read` and `write` that are to fail, counted
/// together. It tells its connections and what is written. A read and a write take at most a stated
/// number of bytes; a write that doesn't fit in the room of the connection's output is a fault, and so
/// is one without a connection. A contract sees all of this and the uses.
#[derive(Debug, Drop)]
pub struct MemoryDoor {
    coming: Coming,
    present: Option<Connection>,
    log: Log,
    most: u64,
    uses: Uses,
}

impl Model for MemoryDoor {
    ghost use Rattle.std.specs.Prelude.{◌≡◌, ◌+◌, ◌≤◌, [], length, is_some, if◌then◌else◌};
    ghost use Rattle.std.specs.Option.{option_map_or};
    ghost use Rattle.gw_base.specs.DoorInMemory.{DoorInMemory};

    ghost Value = { DoorInMemory };

    ghost view = { λ d. record {
      present = is_some d.present;
      written = option_map_or (λ c. c.written) d.present [];
      room = d.coming.room;
      most = d.most;
      connections = record {
        coming = d.coming.inputs;
        input = option_map_or (λ c. c.input) d.present [];
        unread = option_map_or (λ c. c.unread) d.present [];
        log = d.log.entries;
      };
      uses = d.uses;
    } };

    ghost invariant = { λ d.
        (1 ≤ d.most)
        × (length d.coming.inputs + (if is_some d.present then 1 else 0) ≤ d.log.spare)
        × (option_map_or (λ c. length c.written + c.spare) d.present d.coming.room ≡ d.coming.room) };
}

impl MemoryDoor {
    /// A door to which connections of these inputs come, without one yet. The output of each has that
    /// much `room`, and a read and a write take at most `most` bytes. `fails` has the numbers, from 1,
    /// of the calls of `next`, `read` and `write` that are to fail. All memory is taken at once.
    pub fn make(
        alloc: Global,
        inputs: List<Bytes>,
        room: u64,
        most: u64,
        fails: List<u64>,
    ) -> Result<MemoryDoor, AllocError>
        requires { 1 ≤ most }
        ensures made { IfOk result (λ door. door ≡ new_door inputs room most fails) }
    {
        let log = Log::with_room(alloc, inputs.len())?;
        let coming = Coming::of(alloc, inputs, room as usize)?;
        Ok(MemoryDoor {
            coming,
            present: None,
            log,
            most,
            uses: Uses::new(fails),
        })
    }

    /// The connections that were finished, in order.
    pub fn log(&self) -> &[Entry]
        ensures same { result.now ≡ self.now.connections.log }
    {
        self.log.as_slice()
    }
}

impl Sink for MemoryDoor {
    ghost told = { λ d. Some d.written };

    ghost faults = { λ d. d.uses.faults };

    ghost use Rattle.gw_base.specs.DoorInMemory.{shown_beside};

    ghost beside = { shown_beside };

    fn write(&mut self, piece: &[u8]) -> Result<usize, Failed>
        requires { 0 < length piece.now }
        ensures some { IfOk result (λ n. (0 < n) × (n ≤ length piece.now)) }
        ensures appended { IfOk result (λ n. self.new.written ≡ self.old.written ++ take n piece.now) }
        ensures kept { OnErr result (self.new.written ≡ self.old.written) }
        ensures counts { Counts (IsErr result) self.old.uses.faults self.new.uses.faults }
        ensures others { shown_beside self.new ≡ shown_beside self.old }

        // A write goes well exactly where it is not to fail and there is a connection with room for what is taken.
        ensures went { writes_next self.old piece.now ≡ true
            → (result ≡ Ok (write_count self.old piece.now)) × (self.new ≡ after_write self.old piece.now) }
        ensures failed { writes_next self.old piece.now ≡ false → IsErr result × (self.new ≡ after_failed self.old) }

        // Without calls that are to fail it never fails where there is a connection with that room.
        ensures never_fails { self.old.uses.fails ≡ [] → fits_open self.old piece.now ≡ true → IsOk result }
    {
        let count = piece.len().min(self.most as usize);
        let room = spare_of(&self.present);
        if !self.uses.begin(count <= room) {
            return Err(Failed);
        }
        if let Some(present) = &mut self.present {
            present.write(&piece[..count]);
        }
        Ok(count)
    }
}

impl Door for MemoryDoor {
    fn next(&mut self) -> Result<bool, Failed>
        requires { self.old.present ≡ false }
        ensures came { result ≡ Ok true → Arrives (shown_beside self.old) (shown_beside self.new) }
        ensures fresh { result ≡ Ok true → self.new.written ≡ [] }
        ensures none { result ≡ Ok false → NoneComes (shown_beside self.old) (shown_beside self.new) }
        ensures kept { OnErr result (shown_beside self.new ≡ shown_beside self.old) }
        ensures stays { result ≢ Ok true → self.new.written ≡ self.old.written }
        ensures counts { Counts (IsErr result) self.old.uses.faults self.new.uses.faults }

        // It fails exactly where it is to fail. Else the first of those to come is present, if there is one.
        ensures failed { fails_next self.old.uses ≡ true → IsErr result × (self.new ≡ after_failed self.old) }
        ensures ended { fails_next self.old.uses ≡ false → self.old.connections.coming ≡ []
            → (result ≡ Ok false) × (self.new ≡ after_none self.old) }
        ensures went { fails_next self.old.uses ≡ false
            → (input : List ℕ) (later : List (List ℕ)) → self.old.connections.coming ≡ input ∷ later
            → (result ≡ Ok true) × (self.new ≡ after_next self.old input later) }

        // Without calls that are to fail it never fails.
        ensures never_fails { self.old.uses.fails ≡ [] → IsOk result }
    {
        if !self.uses.begin(true) {
            return Err(Failed);
        }
        match self.coming.next() {
            Some(connection) => {
                self.present = Some(connection);
                Ok(true)
            }
            None => Ok(false),
        }
    }

    fn read(&mut self, buf: &mut [u8]) -> Result<usize, Failed>
        requires present { self.old.present ≡ true }
        requires room { 0 < length buf.old }
        ensures count { IfOk result (λ n. n ≤ length buf.old) }
        ensures taken { IfOk result (λ n. Takes (shown_beside self.old) (shown_beside self.new) (take n buf.new)) }
        ensures kept { OnErr result (shown_beside self.new ≡ shown_beside self.old) }
        ensures output { self.new.written ≡ self.old.written }
        ensures counts { Counts (IsErr result) self.old.uses.faults self.new.uses.faults }

        // It fails exactly where it is to fail. Else it gives the next bytes, and as many as it may.
        ensures failed { fails_next self.old.uses ≡ true → IsErr result × (self.new ≡ after_failed self.old) }
        ensures went { fails_next self.old.uses ≡ false
            → (result ≡ Ok (read_count self.old (length buf.old)))
            × (self.new ≡ after_read self.old (read_count self.old (length buf.old))) }

        // Without calls that are to fail it never fails.
        ensures never_fails { self.old.uses.fails ≡ [] → IsOk result }
    {
        if !self.uses.begin(true) {
            return Err(Failed);
        }
        match &mut self.present {
            Some(present) => Ok(present.read(self.most as usize, buf)),
            None => Ok(0),
        }
    }

    fn finish(&mut self, mark: Mark, moment: Option<Moment>)
        requires { self.old.present ≡ true }
        ensures logged { Logs (shown_beside self.old) (shown_beside self.new) (Some self.old.written) mark moment }
        ensures exactly { self.new ≡ after_finish self.old mark moment }
    {
        if let Some(present) = self.present.take() {
            self.log.add(present.finish(mark, moment));
        }
    }
}

// How many more bytes may be written to the connection, if there is one.
fn spare_of(present: &Option<Connection>) -> usize
    ensures { result ≡ option_map_or (λ c. c.spare) present.now 0 }
{
    match present {
        Some(connection) => connection.spare(),
        None => 0,
    }
}
