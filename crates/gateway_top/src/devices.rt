//! The real files and streams. They count their faults and tell nothing of their content, but what is read and written
//! goes where std's own reads and writes say.
ghost use Rattle.std.specs.Prelude.{◌≡◌, ◌<◌, ◌≤◌, ◌++◌, ◌+◌, ℕ, List, None, length, take, min, IfOk, IfSome, IsErr, IsOk, IsErrOf, OnOk};
ghost use Rattle.std.specs.Io.KnownBytes.{WriteAppends};
ghost use Rattle.gw_base.specs.Count.{Counts, last_count};
ghost use Rattle.gateway_top.specs.Devices.{IsAbsent};

use gw_base::{Bytes, Failed, FileFault, Files, Got, Sink};
use std::fs::File;
use std::io::{self, ErrorKind, Read, Write};
use std::marker::Model;

// Reads what a reader has left, or its first `limit` bytes and one more, straight after what is there.
fn read_front<B: Read + Drop>(reader: B, limit: u64, into: &mut Bytes) -> io::Result<usize>
    ensures after { (bytes : List ℕ) × (into.new ≡ into.old ++ bytes) }
    ensures count { IfOk result (λ n. length into.new ≡ length into.old + n) }
    ensures front { OnOk result (IfSome (B.remaining reader) (λ bytes.
        into.new ≡ into.old ++ take (min (limit + 1) last_count) bytes)) }
{
    into.read_to_end(&mut reader.take(limit.saturating_add(1)))
}

/// The files of the machine, by their paths. A contract sees the count of faults.
#[derive(Drop)]
pub struct DirFiles<'a, R: std::rt::Files> {
    rt: &'a R,
    faults: u64,
}

impl<'a, R: std::rt::Files> Model for DirFiles<'a, R> {
    ghost use Rattle.std.specs.Prelude.{ℕ};

    ghost Value = { ℕ };

    ghost view = { λ d. d.faults };
}

impl<'a, R: std::rt::Files> DirFiles<'a, R> {
    /// The files that the runtime reaches, with no fault so far.
    pub fn new(rt: &'a R) -> DirFiles<'a, R>
        ensures { result ≡ 0 }
    {
        DirFiles { rt, faults: 0 }
    }

    // Reads the file's bytes, or its first `limit` bytes and one more, straight after what is there.
    fn read_after(&self, name: &str, limit: u64, into: &mut Bytes) -> io::Result<usize>
        ensures after { (bytes : List ℕ) × (into.new ≡ into.old ++ bytes) }
        ensures count { IfOk result (λ n. length into.new ≡ length into.old + n) }
    {
        read_front(File::open(self.rt, name)?, limit, into)
    }

    // What a failed read is: a file that isn't there, want of memory, or a fault, which is counted.
    fn failed(&mut self, kind: ErrorKind) -> Result<Got, FileFault>
        ensures missing { IfOk result (λ got. got ≡ Got.Missing) }
        ensures absent { IsOk result → IsAbsent kind }
        ensures told { IsAbsent kind → IsOk result }
        ensures counts { Counts (IsErrOf result FileFault.Failed) self.old self.new }
    {
        match kind {
            ErrorKind::NotFound | ErrorKind::NotADirectory => Ok(Got::Missing),
            ErrorKind::OutOfMemory => Err(FileFault::Memory),
            _ => {
                self.faults = self.faults.saturating_add(1);
                Err(FileFault::Failed)
            }
        }
    }
}

impl<'a, R: std::rt::Files> Files for DirFiles<'a, R> {
    ghost told = { λ _. None };

    ghost faults = { λ faults. faults };

    fn read_file(&mut self, name: &str, limit: u64, into: &mut Bytes) -> Result<Got, FileFault> {
        let before = into.len();
        let read = self.read_after(name, limit, into);
        let count = (into.len() - before) as u64;
        if read.is_ok() && count <= limit {
            return Ok(Got::Whole);
        }
        into.truncate(before);
        match read {
            Ok(_) => Ok(Got::TooLong),
            Err(fault) => self.failed(fault.kind()),
        }
    }
}

/// A stream of the machine, as standard output. A contract sees what std says that it holds, and the count of faults.
#[derive(Drop)]
pub struct StdSink<W: Write + Drop> {
    stream: W,
    faults: u64,
}

impl<W: Write + Drop> Model for StdSink<W> {
    ghost use Rattle.gateway_top.specs.Devices.{Stream};

    ghost Value = { Stream };

    ghost view = { λ s. record { held = W.contents s.stream; faults = s.faults } };
}

impl<W: Write + Drop> StdSink<W> {
    /// A sink that writes to the stream, with no fault so far.
    pub fn new(stream: W) -> StdSink<W>
        ensures held { result.held ≡ W.contents stream }
        ensures faults { result.faults ≡ 0 }
    {
        StdSink { stream, faults: 0 }
    }
}

impl<W: Write + Drop> Sink for StdSink<W> {
    ghost told = { λ _. None };

    ghost faults = { λ s. s.faults };

    fn write(&mut self, piece: &[u8]) -> Result<usize, Failed>
        requires { 0 < length piece.now }
        ensures some { IfOk result (λ n. (0 < n) × (n ≤ length piece.now)) }
        // After what the stream held stand just the bytes of the piece that are counted, and after a failure none.
        ensures held { WriteAppends self.old.held self.new.held result piece.now }
        ensures counts { Counts (IsErr result) self.old.faults self.new.faults }
    {
        match self.stream.write(piece) {
            Ok(count) if 0 < count => Ok(count),
            _ => {
                self.faults = self.faults.saturating_add(1);
                Err(Failed)
            }
        }
    }
}
