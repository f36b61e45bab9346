//! A run of a command that writes its result and ends. The definitions are those of `specs/Runs.antt`.
ghost use Rattle.std.specs.Prelude.{◌≡◌, ◌≤◌, ◌⊎◌, ℕ, false, length, take, OnOk, IsErr};
ghost use Rattle.gw_base.specs.Changes.{change};
ghost use Rattle.gw_base.specs.Count.{Rose};
ghost use Rattle.gw_base.specs.Told.{with_bytes, PutsUnless};
ghost use Rattle.gateway_top.specs.Published.{PublishesTask};
ghost use Rattle.gateway_top.specs.Runs.{RunsTask};
ghost use Rattle.command_words.specs.Windowed.{CanRun, reads_files};
ghost use Rattle.file_commands.specs.Tasks.{OverFiles};
ghost use Rattle.command_words.specs.Works.{task_of};

use crate::ending::ended;
use command_words::Task;
use file_commands::{DONE, Done, Exit, task_work};
use gw_base::{Failed, Files, Sink, put_all};
use std::alloc::Global;

// Writes what a command writes: all to `out`, then all to `err`.
fn written<S: Sink, E: Sink>(out: &mut S, err: &mut E, done: &Done) -> Result<(), Failed>
    ensures all { OnOk result ((S.told out.new ≡ with_bytes (S.told out.old) done.now.out)
        × (E.told err.new ≡ with_bytes (E.told err.old) done.now.err)) }
    ensures out { PutsUnless (Rose (S.faults out.old) (S.faults out.new)) (S.told out.old)
        (S.told out.new) done.now.out }
    ensures err { (n : ℕ) × (n ≤ length done.now.err)
        × (E.told err.new ≡ with_bytes (E.told err.old) (take n done.now.err)) }
    ensures cause { IsErr result → Rose (S.faults out.old) (S.faults out.new)
        ⊎ Rose (E.faults err.old) (E.faults err.new) }
    ensures counts { (S.faults out.old ≤ S.faults out.new) × (E.faults err.old ≤ E.faults err.new) }
    ensures others { (S.beside out.new ≡ S.beside out.old) × (E.beside err.new ≡ E.beside err.old) }
{
    done.write_out(out)?;
    put_all(err, done.err())
}

/// Carries out a command over the files, and answers the status: 0 where all was written, 65, 66 or 71 as its work
/// ended, 74 where a device failed. Nothing is written to `out` before all input was read and accepted.
pub fn run_task<F: Files, S: Sink, E: Sink>(
    alloc: Global,
    task: &Task<'_>,
    files: &mut F,
    out: &mut S,
    err: &mut E,
) -> u8
    requires { CanRun (task_of task.now) }
    ensures run { RunsTask (task_of task.now) result (change F.told F.faults files.old files.new)
        (change S.told S.faults out.old out.new) (change E.told E.faults err.old err.new) }
    ensures publishes { result ≡ 0 → OverFiles (task_of task.now) (F.told files.old) (λ told.
        PublishesTask (task_of task.now) told (S.told out.old) (S.told out.new)) }
    ensures worded { ¬ (result ≡ 2) }
    ensures files { F.told files.new ≡ F.told files.old }
    ensures unread { reads_files (task_of task.now) ≡ false → files.new ≡ files.old }
    ensures beside { (S.beside out.new ≡ S.beside out.old) × (E.beside err.new ≡ E.beside err.old) }
    ensures counts { (F.faults files.old ≤ F.faults files.new)
        × (S.faults out.old ≤ S.faults out.new) × (E.faults err.old ≤ E.faults err.new) }
{
    let done = match task_work(alloc, task, files) {
        Ok(done) => done,
        Err(exit) => return ended(err, &exit),
    };
    match written(out, err, &done) {
        Ok(()) => DONE,
        Err(Failed) => ended(err, &Exit::Failed),
    }
}
