//! A door: connections that come one after the other, and the log of those that were finished.
ghost use Rattle.std.specs.Prelude.{◌≡◌, ◌≢◌, ◌≤◌, ◌<◌, true, false, [], length, take, Ok, OnErr, IfOk, IsErr, option_map};
ghost use Rattle.gw_base.specs.Count.{Counts};
ghost use Rattle.gw_base.specs.Connections.{Arrives, NoneComes, Takes, Logs};

use crate::list::Bytes;
use crate::moment::Moment;
use crate::sink::{Failed, Sink};

/// How a connection ended.
#[derive(Clone, Copy, Debug, PartialEq, Eq)]
pub enum Mark {
    /// A delivery was applied.
    Taken,
    /// A feed was accepted.
    Fed,
    /// A GET was answered with status 200.
    Shown,
    /// The request was refused with this status.
    Refused(u16),
    /// Want of memory; nothing was changed.
    Memory,
    /// The clock failed; nothing was read.
    ClockFault,
    /// A read failed; nothing was answered.
    Lost,
    /// What would have been applied or accepted couldn't be kept first; nothing was changed.
    Unkept,
}

/// One finished connection: its whole input, how it ended, its moment, and what was written.
#[derive(Debug, Drop)]
pub struct Entry {
    /// The whole input of the connection, read or not.
    pub input: Bytes,
    /// How it ended.
    pub mark: Mark,
    /// The moment at which it was answered, if the clock gave one.
    pub moment: Option<Moment>,
    /// The output, which is a prefix of the answer.
    pub output: Bytes,
}

/// Connections, one after the other. What is written as to a sink is the present connection's output.
pub trait Door: Sink {
    /// Makes the next connection present, with nothing written; false where none is to come. Where none
    /// comes, and after a failure, the output that is told stays as it was.
    fn next(&mut self) -> Result<bool, Failed>
        requires { (Self.beside self.old).present ≡ false }
        ensures came { result ≡ Ok true → Arrives (Self.beside self.old) (Self.beside self.new) }
        ensures fresh { result ≡ Ok true → Self.told self.new ≡ option_map (λ _. []) (Self.told self.old) }
        ensures none { result ≡ Ok false → NoneComes (Self.beside self.old) (Self.beside self.new) }
        ensures failed { OnErr result (Self.beside self.new ≡ Self.beside self.old) }
        ensures stays { result ≢ Ok true → Self.told self.new ≡ Self.told self.old }
        ensures counts { Counts (IsErr result) (Self.faults self.old) (Self.faults self.new) };

    /// Reads the next bytes of the present connection's input into the front of `buf`, and answers how
    /// many; 0 exactly at the input's end.
    fn read(&mut self, buf: &mut [u8]) -> Result<usize, Failed>
        requires present { (Self.beside self.old).present ≡ true }
        requires room { 0 < length buf.old }
        ensures count { IfOk result (λ n. n ≤ length buf.old) }
        ensures taken { IfOk result (λ n. Takes (Self.beside self.old) (Self.beside self.new) (take n buf.new)) }
        ensures failed { OnErr result (Self.beside self.new ≡ Self.beside self.old) }
        ensures output { Self.told self.new ≡ Self.told self.old }
        ensures counts { Counts (IsErr result) (Self.faults self.old) (Self.faults self.new) };

    /// Ends the present connection, and logs it with its whole input and output. Nothing is written
    /// to the next one yet.
    fn finish(&mut self, mark: Mark, moment: Option<Moment>)
        requires { (Self.beside self.old).present ≡ true }
        ensures logged { Logs (Self.beside self.old) (Self.beside self.new) (Self.told self.old) mark moment }
        ensures fresh { Self.told self.new ≡ option_map (λ _. []) (Self.told self.old) }
        ensures counts { Counts ⊥ (Self.faults self.old) (Self.faults self.new) };
}
