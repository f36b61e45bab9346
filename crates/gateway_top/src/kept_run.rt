//! A run of `serve` with a journal: it opens over its files and its journal, and then serves connections. The
//! definitions are those of `specs/Keeping.antt`.
ghost use Rattle.std.specs.Prelude.{◌≡◌, ◌≤◌, ◌⊎◌, ◌++◌, ℕ, Bool, List, true, false, decimal, length, option_map, IfErr, IfOk, IsErr, IsOk, Ok, OnErr, OnOk, Some};
ghost use Rattle.gw_base.specs.Changes.{change};
ghost use Rattle.gw_base.specs.Connections.{Connections};
ghost use Rattle.gw_base.specs.Count.{Rose};
ghost use Rattle.gw_base.specs.declared.door.Entry as entries;
ghost use Rattle.delivery_journal.specs.Disk.{Survives, WhereTold};
ghost use Rattle.delivery_journal.specs.Kept.{KeptBody, kept};
ghost use Rattle.delivery_journal.specs.Standing.{opened_file};
ghost use Rattle.gateway_durable.specs.Reopening.{RefusesFile};
ghost use Rattle.gateway_durable.specs.Runs.{HasKept};
ghost use Rattle.gateway_durable.specs.Standing.{DurableStandsOn};
ghost use Rattle.gateway_durable.specs.declared.reopen_fault.ReopenFault as faults;
ghost use Rattle.gateway_server.specs.Crashes.{HoldsOfBodies};
ghost use Rattle.gateway_server.specs.Durable.{held_of, journal_room};
ghost use Rattle.gateway_server.specs.Past.{IsLawfulAfter, LeavesPast, Past, StandsFor};
ghost use Rattle.gateway_server.specs.Serving.{CountsCausesAfter, Tells, failures};
ghost use Rattle.gateway_top.specs.Keeping as spec;
ghost use Rattle.gateway_top.specs.Keeping.{BeginsWith, EndsUnkept, RunsKept, SurvivesRun};
ghost use Rattle.gateway_top.specs.Serving.{HasLogged, ServedBy};
ghost use Rattle.command_words.specs.Windowed.{HasWindow};
ghost use Rattle.command_words.specs.Works.{server_of};
ghost use Rattle.file_commands.specs.declared.exit.Exit.TheVariants as exits;

use crate::ending::ended;
use command_words::Server;
use delivery_journal::Disk;
use file_commands::{DONE, Exit, setting};
use gateway_core::Setting;
use gateway_durable::{Durable, ReopenFault};
use gateway_server::{serve_all_kept, what_is_well_formed_is_taken_law};
use gw_base::{Bytes, Clock, Door, Failed, Files, ShortText, Sink, Text};
use http_talk::HeadReader;
use std::alloc::{AllocError, Global};

// The end of a run whose journal is refused, with a number.
fn numbered(alloc: Global, name: &str, number: u64) -> Result<Exit, AllocError>
    requires { length name.now ≤ 64 }
    ensures { IfOk result (λ end. end ≡ exits.Refused (name.now ++ decimal number)) }
{
    let text = ShortText::of_number(name, number);
    Ok(Exit::Refused(Text::copied(alloc, text.as_str())?))
}

// How a run ends whose journal isn't opened again.
fn reopen_end(alloc: Global, fault: ReopenFault) -> Result<Exit, AllocError>
    ensures { IfOk result (λ end. end ≡ spec.reopen_end fault) }
{
    match fault {
        ReopenFault::Disk => Ok(Exit::Failed),
        ReopenFault::NotJournal => Ok(Exit::Refused(Text::copied(alloc, "NotJournal")?)),
        ReopenFault::Damaged(at) => numbered(alloc, "Damaged ", at),
        ReopenFault::Replay(number) => numbered(alloc, "Replay ", number),
        ReopenFault::Memory => Ok(Exit::Memory),
    }
}

// The durable gateway of the journal on a disk, or how the run ends.
fn reopened<K: Disk>(alloc: Global, setting: Setting, disk: &mut K) -> Result<Durable, Exit>
    ensures begins { IfOk result (λ durable. (past : Past) × StandsFor (held_of durable) past × (past.is_sound ≡ true)
        × WhereTold (K.told disk.old) (λ file. BeginsWith setting file past)) }
    ensures sound { IfOk result (λ durable. durable.journal.is_sound ≡ true) }
    ensures setting { IfOk result (λ durable. durable.gate.setting ≡ setting) }
    ensures stands { IfOk result (λ durable. DurableStandsOn K.told K.may_leave durable disk.new) }
    ensures file { OnOk result (K.told disk.new ≡ option_map opened_file (K.told disk.old)) }
    ensures fault { IfErr result (λ end. (why : faults.ReopenFault)
        × WhereTold (K.told disk.old) (λ file. RefusesFile setting file why) × (end ≡ spec.reopen_end why)
        × (why ≡ ReopenFault.Disk → Rose (K.faults disk.old) (K.faults disk.new))) }
    ensures any_moment { WhereTold (K.told disk.old) (λ file. Survives K.clock K.left_since disk.old disk.new
        (λ image. K.may_leave disk.old image ⊎ (kept image ≡ kept file))) }
    ensures never_falls { K.faults disk.old ≤ K.faults disk.new }
{
    match Durable::reopen(alloc, setting, disk) {
        Ok(durable) => Ok(durable),
        Err(fault) => Err(reopen_end(alloc, fault)?),
    }
}

// Serves so many connections over a durable gateway, or all that come. All memory but that for what is posted is taken
// before the first one.
fn served<D: Door, C: Clock, K: Disk>(
    alloc: Global,
    durable: &mut Durable,
    disk: &mut K,
    connections: u32,
    door: &mut D,
    clock: &mut C,
) -> Result<Result<(), Failed>, AllocError>
    requires absent { (D.beside door.old).present ≡ false }
    requires sound { durable.old.journal.is_sound ≡ true }
    requires stands { DurableStandsOn K.told K.may_leave durable.old disk.old }
    ensures memory { OnErr result ((door.new ≡ door.old) × (clock.new ≡ clock.old) × (disk.new ≡ disk.old)) }
    ensures served { IfOk result (λ end. (told : Connections) → Tells (D.told door.old) (D.beside door.old) told
        → (past : Past) → StandsFor (held_of durable.old) past
        → ServedBy (IsLawfulAfter (Rose (D.faults door.old) (D.faults door.new))
        (Rose (K.faults disk.old) (K.faults disk.new)) journal_room durable.old.gate.setting)
        (LeavesPast journal_room durable.old.gate.setting) (IsOk end × (durable.new.journal.is_sound ≡ true))
        connections past told (change C.told C.faults clock.old clock.new) (D.beside door.new)) }
    ensures unkept { IfOk result (λ end. durable.new.journal.is_sound ≡ false
        → (told : Connections) → Tells (D.told door.old) (D.beside door.old) told
        → (past : Past) → StandsFor (held_of durable.old) past → (past.is_sound ≡ true)
        → (entries : List entries.Entry) (left : Connections) → HasLogged told (D.beside door.new) entries left
        → EndsUnkept entries) }
    ensures causes { IfOk result (λ end. (told : Connections) → Tells (D.told door.old) (D.beside door.old) told
        → (past : Past) → StandsFor (held_of durable.old) past
        → (entries : List entries.Entry) (left : Connections) → HasLogged told (D.beside door.new) entries left
        → CountsCausesAfter (Rose (K.faults disk.old) (K.faults disk.new)) journal_room durable.old.gate.setting past
        entries (failures end) (D.faults door.old) (D.faults door.new) (C.faults clock.old) (C.faults clock.new)) }
    ensures crash { IfOk result (λ end. (told : Connections) → Tells (D.told door.old) (D.beside door.old) told
        → (past : Past) → StandsFor (held_of durable.old) past
        → (entries : List entries.Entry) (left : Connections) → HasLogged told (D.beside door.new) entries left
        → (file : List ℕ) → K.told disk.old ≡ Some file → (bodies : List KeptBody) → kept file ≡ Ok bodies
        → HoldsOfBodies (HasKept K.told K.may_leave K.clock K.left_since disk.old disk.new
        durable.old.gate.setting bodies) durable.new.journal.is_sound entries) }
    ensures absent { (D.beside door.new).present ≡ false }
    ensures failed { IfOk result (λ end. IsErr end → Rose (D.faults door.old) (D.faults door.new)) }
    ensures disk_failed { durable.new.journal.is_sound ≡ false → Rose (K.faults disk.old) (K.faults disk.new) }
    ensures counts { (D.faults door.old ≤ D.faults door.new) × (C.faults clock.old ≤ C.faults clock.new)
        × (K.faults disk.old ≤ K.faults disk.new) }
{
    let mut reader = HeadReader::make(alloc)?;
    let mut body = Bytes::new(alloc);
    Ok(serve_all_kept(
        alloc,
        durable,
        disk,
        &mut reader,
        &mut body,
        door,
        clock,
        connections,
    ))
}

/// Serves over the files and the journal on a disk, and answers the status: 0 where so many connections were served or
/// none is to come, 65 where the journal isn't opened again, 74 where the files failed, the door or the disk, 71 for
/// want of memory before the first connection.
pub fn run_kept<F: Files, D: Door, C: Clock, E: Sink, K: Disk>(
    alloc: Global,
    server: &Server<'_>,
    files: &mut F,
    door: &mut D,
    clock: &mut C,
    err: &mut E,
    disk: &mut K,
) -> u8
    requires window { HasWindow server.now.scope.from server.now.scope.days }
    requires absent { (D.beside door.old).present ≡ false }
    ensures run { RunsKept (server_of server.now)
        (change K.told K.faults disk.old disk.new) result
        (change F.told F.faults files.old files.new) (change E.told E.faults err.old err.new) (record {
          output = change D.told D.faults door.old door.new;
          before = D.beside door.old;
          now = D.beside door.new;
          clock = change C.told C.faults clock.old clock.new;
        }) }
    ensures crash { (file : List ℕ) → K.told disk.old ≡ Some file
        → (told : Connections) → Tells (D.told door.old) (D.beside door.old) told
        → (entries : List entries.Entry) (left : Connections) → HasLogged told (D.beside door.new) entries left
        → (is_sound : Bool) × HoldsOfBodies
        (SurvivesRun K.may_leave K.clock K.left_since disk.old disk.new file) is_sound entries }
    ensures worded { ¬ (result ≡ 2) }
    ensures absent { (D.beside door.new).present ≡ false }
    ensures files { F.told files.new ≡ F.told files.old }
    ensures beside { E.beside err.new ≡ E.beside err.old }
    ensures counts { (F.faults files.old ≤ F.faults files.new) × (E.faults err.old ≤ E.faults err.new)
        × (D.faults door.old ≤ D.faults door.new) × (C.faults clock.old ≤ C.faults clock.new)
        × (K.faults disk.old ≤ K.faults disk.new) }
{
    what_is_well_formed_is_taken_law();
    let setting = match setting(alloc, files, &server.scope, Some(server.keep)) {
        Ok(setting) => setting,
        Err(exit) => return ended(err, &exit),
    };
    let mut durable = match reopened(alloc, setting, disk) {
        Ok(durable) => durable,
        Err(exit) => return ended(err, &exit),
    };
    match served(alloc, &mut durable, disk, server.connections, door, clock) {
        Ok(Ok(())) => {
            if durable.is_sound() {
                DONE
            } else {
                ended(err, &Exit::Failed)
            }
        }
        Ok(Err(Failed)) => ended(err, &Exit::Failed),
        Err(AllocError) => ended(err, &Exit::Memory),
    }
}
