//! The connections of a door in memory: those to come, one that is present, and those that were finished.
ghost use Rattle.std.specs.Prelude.{◌≡◌, ◌++◌, ◌∷◌, [], ◌-◌, ◌<◌, ◌≤◌, length, take, drop, min, None, IfOk, IfSome};
ghost use Rattle.gw_base.specs.DoorInMemory.{Open, opened, with_written, Awaited, Kept};

use crate::buffer::Buf;
use crate::door::{Entry, Mark};
use crate::list::{Bytes, List};
use crate::moment::Moment;
use std::alloc::{AllocError, Global};
use std::collections::VecDeque;
use std::marker::Model;

// One connection, with room for its output. A contract sees its input, what is unread of it, what is
// written, and the room that is left.
#[derive(Debug, Drop)]
pub struct Connection {
    input: Bytes,
    read: usize,
    output: Buf,
}

impl Model for Connection {
    ghost use Rattle.std.specs.Prelude.{◌≤◌, length, drop};
    ghost use Rattle.gw_base.specs.DoorInMemory.{Open};

    ghost Value = { Open };

    ghost view = { λ c. record {
      input = c.input;
      unread = drop c.read c.input;
      written = c.output.bytes;
      spare = c.output.spare;
    } };

    ghost invariant = { λ c. c.read ≤ length c.input };
}

impl Connection {
    // A connection of this input, with room for that many bytes of output.
    pub fn new(alloc: Global, input: Bytes, room: usize) -> Result<Connection, AllocError>
        ensures { IfOk result (λ connection. connection ≡ opened room input) }
    {
        let output = Buf::with_room(alloc, room)?;
        Ok(Connection {
            input,
            read: 0,
            output,
        })
    }

    // How many more bytes may be written to it.
    pub fn spare(&self) -> usize
        ensures { result ≡ self.now.spare }
    {
        self.output.spare()
    }

    // Reads the next bytes into the front of `buf`, at most that many, and answers how many.
    pub fn read(&mut self, most: usize, buf: &mut [u8]) -> usize
        ensures count { result ≡ min (min most (length buf.old)) (length self.old.unread) }
        ensures piece { take result buf.new ≡ take result self.old.unread }
        ensures left { self.new ≡ record self.old { unread = drop result self.old.unread } }
    {
        let (_, unread) = self.input.as_slice().split_at(self.read);
        let count = most.min(buf.len()).min(unread.len());
        buf[..count].copy_from_slice(&unread[..count]);
        self.read += count;
        count
    }

    // Writes bytes after those that are written.
    pub fn write(&mut self, bytes: &[u8])
        requires { length bytes.now ≤ self.old.spare }
        ensures { self.new ≡ with_written self.old bytes.now }
    {
        self.output.put_slice(bytes);
    }

    // Its entry of the log, which takes no memory.
    pub fn finish(self, mark: Mark, moment: Option<Moment>) -> Entry
        ensures { result ≡ record { input = self.input; mark = mark; moment = moment; output = self.written } }
    {
        let Connection {
            input,
            read: _,
            output,
        } = self;
        Entry {
            input,
            mark,
            moment,
            output: output.into_bytes(),
        }
    }
}

// Connections to come, each with room for its output. A contract sees their inputs and that room.
#[derive(Debug, Drop)]
pub struct Coming {
    connections: VecDeque<Connection>,
    room: usize,
}

impl Model for Coming {
    ghost use Rattle.std.specs.Prelude.{◌≡◌, map, All};
    ghost use Rattle.gw_base.specs.DoorInMemory.{Awaited, opened};

    ghost Value = { Awaited };

    ghost view = { λ c. record { inputs = map (λ c. c.input) c.connections.items; room = c.room } };

    ghost invariant = { λ c. All (λ held. held ≡ opened c.room held.input) c.connections.items };
}

impl Coming {
    // Connections of these inputs, each with room for that many bytes of output.
    pub fn of(alloc: Global, inputs: List<Bytes>, room: usize) -> Result<Coming, AllocError>
        ensures { IfOk result (λ coming. coming ≡ record { inputs = inputs; room = room }) }
    {
        let mut connections = VecDeque::with_capacity(alloc, inputs.len())?;
        for input in inputs.into_vec() {
            connections.push_back(Connection::new(alloc, input, room)?)?;
        }
        Ok(Coming { connections, room })
    }

    // Takes the first connection out, if there is one. Takes no memory.
    pub fn next(&mut self) -> Option<Connection>
        ensures none { result ≡ None → (self.old.inputs ≡ []) × (self.new ≡ self.old) }
        ensures first { IfSome result (λ first. self.old.inputs ≡ first.input ∷ self.new.inputs) }
        ensures fresh { IfSome result (λ first. first ≡ opened self.old.room first.input) }
        ensures room { self.new.room ≡ self.old.room }
    {
        self.connections.pop_front()
    }
}

// Entries of a log whose memory is taken at once. A contract sees them, and how many more it takes.
#[derive(Debug, Drop)]
pub struct Log {
    entries: Vec<Entry>,
    spare: usize,
}

impl Model for Log {
    ghost use Rattle.std.specs.Prelude.{◌+◌, ◌≤◌, vec_len, vec_capacity};
    ghost use Rattle.gw_base.specs.DoorInMemory.{Kept};

    ghost Value = { Kept };

    ghost view = { λ l. record { entries = l.entries.items; spare = l.spare } };

    ghost invariant = { λ l. vec_len l.entries + l.spare ≤ vec_capacity l.entries };
}

impl Log {
    // An empty log that takes that many entries.
    pub fn with_room(alloc: Global, room: usize) -> Result<Log, AllocError>
        ensures { IfOk result (λ log. log ≡ record { entries = []; spare = room }) }
    {
        Ok(Log {
            entries: Vec::with_capacity(alloc, room)?,
            spare: room,
        })
    }

    // Adds an entry, which takes no memory.
    pub fn add(&mut self, entry: Entry)
        requires { 0 < self.old.spare }
        ensures { self.new ≡ record { entries = self.old.entries ++ entry ∷ []; spare = self.old.spare - 1 } }
    {
        self.spare -= 1;
        self.entries.push(entry).unwrap();
    }

    // The entries, in order.
    pub fn as_slice(&self) -> &[Entry]
        ensures { result.now ≡ self.now.entries }
    {
        self.entries.as_slice()
    }
}
