//! The top call where a server may have a journal on a disk.
ghost use Rattle.std.specs.Prelude.{◌≡◌, ◌≤◌, ℕ, Bool, List, false, None, Some, IfSome};
ghost use Rattle.gw_base.specs.Changes.{change};
ghost use Rattle.gw_base.specs.Connections.{Connections};
ghost use Rattle.gw_base.specs.Count.{Rose};
ghost use Rattle.gw_base.specs.declared.door.Entry as entries;
ghost use Rattle.gateway_server.specs.Crashes.{HoldsOfBodies};
ghost use Rattle.gateway_server.specs.Serving.{Tells};
ghost use Rattle.gateway_top.specs.Keeping.{HeadlineKept, IsKeptRun, SurvivesRun};
ghost use Rattle.gateway_top.specs.Published.{PublishesWith};
ghost use Rattle.gateway_top.specs.Serving.{HasLogged};
ghost use Rattle.command_words.specs.Words.{IsJobWith, Make, Serve, Task, make_task, serve_job, task_job, with_journal};

use crate::ending::turned_away;
use crate::kept_run::run_kept;
use crate::server_run::run_server;
use crate::task_run::run_task;
use command_words::{Work, kept_job};
use delivery_journal::Disk;
use gw_base::{Clock, Door, Files, Sink, Text};
use std::alloc::Global;

/// Carries out the words over the devices, and answers the status, as `gateway` does; and `serve` may have the pair
/// `--journal F`, by which each body is on `disk` before it is acknowledged, and what was acknowledged is there again
/// after a restart. Status 65 also comes where the journal isn't opened again, and 74 where the disk failed. Without
/// the pair the disk isn't called.
pub fn gateway_kept<F: Files, D: Door, C: Clock, S: Sink, E: Sink, K: Disk>(
    alloc: Global,
    words: &[Text],
    files: &mut F,
    door: &mut D,
    clock: &mut C,
    out: &mut S,
    err: &mut E,
    disk: &mut K,
) -> u8
    requires { (D.beside door.old).present ≡ false }

    // The headline, over the log of this call and the bodies that the journal kept before it, where the files and the
    // disk are told and the door tells its connections.
    ensures headline { IfSome (F.told files.old) (λ folder. (told : Connections)
        → Tells (D.told door.old) (D.beside door.old) told
        → HeadlineKept (Rose (D.faults door.old) (D.faults door.new)) words.now folder (K.told disk.old) told
        (D.beside door.new)) }

    // After a crash, at any moment of the call and after it: the disk holds what it held at the entry and a prefix of
    // the bodies of the entries marked Taken, Fed or Unkept, in their order, or what a crash at the entry might have
    // left; and at the end all bodies of the entries marked Taken or Fed.
    ensures crash { (file : List ℕ) → K.told disk.old ≡ Some file
        → (told : Connections) → Tells (D.told door.old) (D.beside door.old) told
        → (command : Serve) → IsJobWith with_journal words.now (serve_job command)
        → (journal : List ℕ) → command.journal ≡ Some journal
        → (entries : List entries.Entry) (left : Connections) → HasLogged told (D.beside door.new) entries left
        → (is_sound : Bool) × HoldsOfBodies
        (SurvivesRun K.may_leave K.clock K.left_since disk.old disk.new file) is_sound entries }

    // The status, and what the devices show before and after: how the run ended, by its words.
    ensures run { IsKeptRun words.now
        (change K.told K.faults disk.old disk.new) result (record {
          files = change F.told F.faults files.old files.new;
          out = change S.told S.faults out.old out.new;
          err = change E.told E.faults err.old err.new;
          doorway = record {
            output = change D.told D.faults door.old door.new;
            before = D.beside door.old;
            now = D.beside door.new;
            clock = change C.told C.faults clock.old clock.new;
          };
        }) }

    // With status 0, `out` got what the words ask for over files that are told.
    ensures publishes { result ≡ 0
        → PublishesWith with_journal words.now (F.told files.old) (S.told out.old) (S.told out.new) }

    // With words of no command no device but `err` is called; other commands than `serve` call neither door nor clock
    // nor disk, and `make` calls no files either; without a journal the disk isn't called.
    ensures uncalled { result ≡ 2 → (files.new ≡ files.old) × (out.new ≡ out.old) × (door.new ≡ door.old)
        × (clock.new ≡ clock.old) × (disk.new ≡ disk.old) }
    ensures idle { (task : Task) → IsJobWith with_journal words.now (task_job task)
        → (door.new ≡ door.old) × (clock.new ≡ clock.old) × (disk.new ≡ disk.old) }
    ensures unread { (command : Make) → IsJobWith with_journal words.now (task_job (make_task command))
        → files.new ≡ files.old }
    ensures unkept { (command : Serve) → IsJobWith with_journal words.now (serve_job command)
        → command.journal ≡ None → disk.new ≡ disk.old }

    // What stays: the files, that no connection is present, and what the streams show beside. No count falls.
    ensures files { F.told files.new ≡ F.told files.old }
    ensures absent { (D.beside door.new).present ≡ false }
    ensures beside { (S.beside out.new ≡ S.beside out.old) × (E.beside err.new ≡ E.beside err.old) }
    ensures counts { (F.faults files.old ≤ F.faults files.new)
        × (S.faults out.old ≤ S.faults out.new) × (E.faults err.old ≤ E.faults err.new)
        × (D.faults door.old ≤ D.faults door.new) × (C.faults clock.old ≤ C.faults clock.new)
        × (K.faults disk.old ≤ K.faults disk.new) }
{
    match kept_job(words) {
        Ok(Work::Serve(server)) => match server.journal {
            Some(_journal) => run_kept(alloc, &server, files, door, clock, err, disk),
            None => run_server(alloc, &server, files, door, clock, err),
        },
        Ok(Work::Task(task)) => run_task(alloc, &task, files, out, err),
        Err(bad) => turned_away(err, bad.at),
    }
}
