//! The top call: a list of words is carried out over the devices, and a status comes back.
ghost use Rattle.std.specs.Prelude.{◌≡◌, ◌≤◌, ◌⊎◌, [], false, codes, IfSome};
ghost use Rattle.gw_base.specs.Changes.{change};
ghost use Rattle.gw_base.specs.Connections.{Connections};
ghost use Rattle.gw_base.specs.Count.{Rose};
ghost use Rattle.gw_base.specs.Told.{with_bytes, PutsUnless};
ghost use Rattle.gateway_server.specs.Serving.{Tells};
ghost use Rattle.gateway_top.specs.Headline.{Headline};
ghost use Rattle.gateway_top.specs.Published.{Publishes};
ghost use Rattle.gateway_top.specs.Runs.{IsRun, line};
ghost use Rattle.command_words.specs.Words.{IsJob, Make, Task, make_task, task_job};

use crate::ending::{ended, turned_away};
use crate::server_run::run_server;
use crate::task_run::run_task;
use command_words::{Work, job};
use file_commands::{DONE, Exit, FAILED};
use gw_base::{Clock, Door, Failed, Files, Sink, Text, put_all};
use std::alloc::Global;

/// Carries out the words over the devices, and answers the status: 0 where the work was done, 2 for
/// words of no command, 65 for input that is refused, 66 for a missing file, 71 for want of memory,
/// 74 where a device failed. Nothing is written to `out` before all input was read and accepted.
pub fn gateway<F: Files, D: Door, C: Clock, S: Sink, E: Sink>(
    alloc: Global,
    words: &[Text],
    files: &mut F,
    door: &mut D,
    clock: &mut C,
    out: &mut S,
    err: &mut E,
) -> u8
    requires { (D.beside door.old).present ≡ false }

    // The headline, over the log of this call, where the files are told and the door tells its connections. Over any
    // connections, each feed served, read as protobuf and propagated by GTFS Realtime's rules, gives every stop of
    // every dated journey in the window exactly the time and place, skip or absence of the last-recorded SIRI journey
    // taken before it; each SIRI text served gives every call the propagated time and place of the last accepted feed;
    // the feed's bytes are those rebuilt from all deliveries taken.
    ensures headline { IfSome (F.told files.old) (λ folder. (told : Connections)
        → Tells (D.told door.old) (D.beside door.old) told
        → Headline (Rose (D.faults door.old) (D.faults door.new)) words.now folder [] told
        (D.beside door.new)) }

    // The status, and what the devices show before and after: how the run ended, by its words.
    ensures run { IsRun words.now result (record {
      files = change F.told F.faults files.old files.new;
      out = change S.told S.faults out.old out.new;
      err = change E.told E.faults err.old err.new;
      doorway = record {
        output = change D.told D.faults door.old door.new;
        before = D.beside door.old;
        now = D.beside door.new;
        clock = change C.told C.faults clock.old clock.new;
      };
    }) }

    // With status 0, `out` got what the words ask for over files that are told: a feed that publishes just the journeys
    // taken, or what else; and of `make` the counts of its sample, whatever is told.
    ensures publishes { result ≡ 0 → Publishes words.now (F.told files.old) (S.told out.old) (S.told out.new) }

    // With words of no command no device but `err` is called; other commands than `serve` call neither door nor clock,
    // and `make` calls no files either.
    ensures uncalled { result ≡ 2 → (files.new ≡ files.old) × (out.new ≡ out.old) × (door.new ≡ door.old)
        × (clock.new ≡ clock.old) }
    ensures idle { (task : Task) → IsJob words.now (task_job task) → (door.new ≡ door.old) × (clock.new ≡ clock.old) }
    ensures unread { (command : Make) → IsJob words.now (task_job (make_task command)) → files.new ≡ files.old }

    // What stays: the files, that no connection is present, and what the streams show beside. No count falls.
    ensures files { F.told files.new ≡ F.told files.old }
    ensures absent { (D.beside door.new).present ≡ false }
    ensures beside { (S.beside out.new ≡ S.beside out.old) × (E.beside err.new ≡ E.beside err.old) }
    ensures counts { (F.faults files.old ≤ F.faults files.new)
        × (S.faults out.old ≤ S.faults out.new) × (E.faults err.old ≤ E.faults err.new)
        × (D.faults door.old ≤ D.faults door.new) × (C.faults clock.old ≤ C.faults clock.new) }
{
    match job(words) {
        Ok(Work::Serve(server)) => run_server(alloc, &server, files, door, clock, err),
        Ok(Work::Task(task)) => run_task(alloc, &task, files, out, err),
        Err(bad) => turned_away(err, bad.at),
    }
}

/// Prints a text on `out`, and answers the status: 0, or 74 where the device failed.
pub fn print<S: Sink>(out: &mut S, text: &str) -> u8
    ensures all { result ≡ 0 → S.told out.new ≡ with_bytes (S.told out.old) text.now }
    ensures front { PutsUnless (Rose (S.faults out.old) (S.faults out.new)) (S.told out.old) (S.told out.new) text.now }
    ensures failed { (result ≡ 0) ⊎ (result ≡ 74) × Rose (S.faults out.old) (S.faults out.new) }
    ensures counts { S.faults out.old ≤ S.faults out.new }
    ensures others { S.beside out.new ≡ S.beside out.old }
{
    match put_all(out, text.as_bytes()) {
        Ok(()) => DONE,
        Err(Failed) => FAILED,
    }
}

/// Ends for want of memory, before any command was carried out, and answers the status 71.
pub fn no_memory<E: Sink>(err: &mut E) -> u8
    ensures status { result ≡ 71 }
    ensures front { PutsUnless (Rose (E.faults err.old) (E.faults err.new)) (E.told err.old) (E.told err.new)
        (line (codes "memory")) }
    ensures counts { E.faults err.old ≤ E.faults err.new }
    ensures others { E.beside err.new ≡ E.beside err.old }
{
    ended(err, &Exit::Memory)
}
