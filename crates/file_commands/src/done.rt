//! What a command writes. Contracts see the bytes of both streams, as `specs/Done.antt` has them.
ghost use Rattle.std.specs.Prelude.{◌≡◌, List, OnOk, IsErr, Ok};
ghost use Rattle.gw_base.specs.Count.{Counts, Rose};
ghost use Rattle.gw_base.specs.Told.{PutsUnless, with_bytes};
ghost use Rattle.gateway_core.specs.Arrivals.{Arrival};
ghost use Rattle.gateway_core.specs.Standing.{Stands};
ghost use Rattle.file_commands.specs.Work.{IsConverted};

use gateway_core::{Gateway, serves_what_arrived_law};
use gw_base::{Bytes, Failed, Moment, Sink, put_all};
use std::marker::Model;

// What goes to standard output.
#[derive(Drop)]
enum Output {
    // A text.
    Text(Bytes),
    // The feed that a gateway serves at a moment, which is written from what the gateway keeps.
    Feed(Gateway, Moment),
}

/// What a command writes: for standard output, and for standard error afterwards.
#[derive(Drop)]
pub struct Done {
    out: Output,
    err: Bytes,
}

impl Model for Done {
    ghost use Rattle.file_commands.specs.Done.{Done};
    ghost use Rattle.file_commands.specs.Outputs.{bytes_of};

    ghost Value = { Done };

    ghost view = { λ d. record { out = bytes_of d.out; err = d.err } };
}

impl Done {
    /// A text for standard output, and one for standard error.
    pub fn texts(out: Bytes, err: Bytes) -> Done
        ensures { result ≡ record { out = out; err = err } }
    {
        Done {
            out: Output::Text(out),
            err,
        }
    }

    /// The feed that the gateway serves at that moment, and the reports. The feed isn't copied.
    pub fn feed(gate: Gateway, at: Moment, reports: Bytes) -> Done
        ensures { (arrivals : List Arrival) → Stands gate arrivals
            → IsConverted at gate.setting (record { arrivals = arrivals; reports = reports }) (Ok result) }
    {
        serves_what_arrived_law(&gate, at);
        Done {
            out: Output::Feed(gate, at),
            err: reports,
        }
    }

    /// Writes what is for standard output. After a failure a prefix of it is written. Takes no memory.
    pub fn write_out<S: Sink>(&self, sink: &mut S) -> Result<(), Failed>
        ensures all { OnOk result (S.told sink.new ≡ with_bytes (S.told sink.old) self.now.out) }
        ensures front { PutsUnless (Rose (S.faults sink.old) (S.faults sink.new)) (S.told sink.old)
            (S.told sink.new) self.now.out }
        ensures counts { Counts (IsErr result) (S.faults sink.old) (S.faults sink.new) }
        ensures others { S.beside sink.new ≡ S.beside sink.old }
    {
        match &self.out {
            Output::Text(text) => put_all(sink, text.as_slice()),
            Output::Feed(gate, at) => gate.write_feed(*at, sink),
        }
    }

    /// What is for standard error.
    pub fn err(&self) -> &[u8]
        ensures { result.now ≡ self.now.err }
    {
        self.err.as_slice()
    }
}
