//! Connections over a durable gateway: a body that is acknowledged is on the disk. The definitions are those of
//! `specs/Durable.antt` and `specs/Crashes.antt`.
ghost use Rattle.std.specs.Prelude.{◌≡◌, ◌≤◌, ◌⊎◌, ◌++◌, ◌∷◌, [], true, false, not, ℕ, List, length, Some, Ok, OnOk, IsErr};
ghost use Rattle.gw_base.specs.Changes.{change};
ghost use Rattle.gw_base.specs.Connections.{Connections};
ghost use Rattle.gw_base.specs.Count.{Counts, Rose};
ghost use Rattle.gw_base.specs.declared.door.Entry as entries;
ghost use Rattle.gw_base.specs.Limits.{body_limit};
ghost use Rattle.delivery_journal.specs.Kept.{KeptBody, kept};
ghost use Rattle.gateway_durable.specs.Runs.{HasKept};
ghost use Rattle.gateway_durable.specs.Standing.{DurableStandsOn};
ghost use Rattle.gateway_server.specs.Crashes.{HoldsOfBodies};
ghost use Rattle.gateway_server.specs.Durable.{held_of, journal_room};
ghost use Rattle.gateway_server.specs.Past.{Past, StandsFor, is_unkept};
ghost use Rattle.gateway_server.specs.Serving.{CountsCausesAfter, IsEnd, IsFresh, IsLogged, ServesAfter, ServesAllAfter, Tells, failures};

use crate::connection::serve_one_with;
use crate::connections::serve_with;
use delivery_journal::Disk;
use gateway_durable::{Durable, a_crash_leaves_a_prefix_law};
use gw_base::{Bytes, Clock, Door, Failed};
use http_talk::HeadReader;
use std::alloc::Global;

/// Serves the present connection over a durable gateway whose journal is sound, as `serve_one` does over a gateway by
/// itself; each body is held whole, and is on the disk before it is acknowledged. Where the door and the disk tell, the
/// entry is lawful after what there was before it, and a crash at any moment of the call leaves a file with the bodies
/// that it held before, and behind them the one that was posted, or not; once the entry is marked Taken or Fed every
/// crash leaves that too. The journal isn't sound afterwards exactly where the entry is marked Unkept, which comes only
/// where the disk's count of faults rose.
pub fn serve_kept<D: Door, C: Clock, K: Disk>(
    alloc: Global,
    durable: &mut Durable,
    disk: &mut K,
    reader: &mut HeadReader,
    body: &mut Bytes,
    door: &mut D,
    clock: &mut C,
)
    requires present { (D.beside door.old).present ≡ true }
    requires sound { durable.old.journal.is_sound ≡ true }
    requires stands { DurableStandsOn K.told K.may_leave durable.old disk.old }
    ensures serves { (told : Connections) → IsFresh (D.told door.old) (D.beside door.old) told
        → (past : Past) → StandsFor (held_of durable.old) past
        → ServesAfter (Rose (D.faults door.old) (D.faults door.new)) (Rose (K.faults disk.old) (K.faults disk.new))
        journal_room (held_of durable.old) past told (change C.told C.faults clock.old clock.new) (D.told door.new)
        (D.beside door.new) (held_of durable.new) }
    ensures unsound { (told : Connections) → IsFresh (D.told door.old) (D.beside door.old) told
        → (past : Past) → StandsFor (held_of durable.old) past
        → (entry : entries.Entry) → IsLogged told (D.beside door.new) entry
        → durable.new.journal.is_sound ≡ not (is_unkept entry.mark) }

    // What a crash leaves, at any moment of the call and after it.
    ensures crash { (told : Connections) → IsFresh (D.told door.old) (D.beside door.old) told
        → (entry : entries.Entry) → IsLogged told (D.beside door.new) entry
        → (file : List ℕ) → K.told disk.old ≡ Some file → (bodies : List KeptBody) → kept file ≡ Ok bodies
        → HoldsOfBodies (HasKept K.told K.may_leave K.clock K.left_since disk.old disk.new
        durable.old.gate.setting bodies) durable.new.journal.is_sound (entry ∷ []) }
    ensures stands { durable.new.journal.is_sound ≡ true → DurableStandsOn K.told K.may_leave durable.new disk.new }

    ensures held { length body.new ≤ body_limit }
    ensures ended { (D.beside door.new).present ≡ false }
    ensures setting { durable.new.gate.setting ≡ durable.old.gate.setting }
    ensures keeping { K.faults disk.old ≤ K.faults disk.new }
    ensures counts { D.faults door.old ≤ D.faults door.new }
    ensures clock { C.faults clock.old ≤ C.faults clock.new }
{
    a_crash_leaves_a_prefix_law::<K>();
    body.clear();
    serve_one_with(alloc, durable, disk, reader, body, door, clock);
}

/// Serves connections over a durable gateway whose journal is sound, until none is to come, so many were served or
/// the journal isn't sound any more; Failed is a fault of the door in `next`, which ends it. Where the door and the
/// disk tell, each connection has its entry in the log, which is lawful after what there was before it, so that one
/// marked Unkept is the last one; and a crash at any moment of the call leaves a file with the bodies that it held
/// before, and behind them a prefix of those of the entries marked Taken, Fed or Unkept, in their order. At the end
/// every crash leaves all the bodies of the entries marked Taken or Fed. The entries that are lost or cut short are,
/// with that fault of the door, no more than the faults that the door counted, and those for which the clock failed
/// no more than the clock counted. The journal isn't sound any more only where the disk's count of faults rose.
pub fn serve_all_kept<D: Door, C: Clock, K: Disk>(
    alloc: Global,
    durable: &mut Durable,
    disk: &mut K,
    reader: &mut HeadReader,
    body: &mut Bytes,
    door: &mut D,
    clock: &mut C,
    connections: u32,
) -> Result<(), Failed>
    requires absent { (D.beside door.old).present ≡ false }
    requires sound { durable.old.journal.is_sound ≡ true }
    requires stands { DurableStandsOn K.told K.may_leave durable.old disk.old }
    ensures serves { (told : Connections) → Tells (D.told door.old) (D.beside door.old) told
        → (past : Past) → StandsFor (held_of durable.old) past
        → (count : ℕ) × (count ≤ connections)
        × ServesAllAfter (Rose (D.faults door.old) (D.faults door.new)) (Rose (K.faults disk.old) (K.faults disk.new))
        journal_room (held_of durable.old) past told (change C.told C.faults clock.old clock.new) (D.told door.new)
        (D.beside door.new) (held_of durable.new) count
        × OnOk result ((count ≡ connections) ⊎ (IsEnd (D.beside door.new) ⊎ (durable.new.journal.is_sound ≡ false))) }
    ensures causes { (told left : Connections) → Tells (D.told door.old) (D.beside door.old) told
        → (D.beside door.new).told ≡ Some left
        → (past : Past) → StandsFor (held_of durable.old) past
        → (logged : List entries.Entry) → left.log ≡ told.log ++ logged
        → CountsCausesAfter (Rose (K.faults disk.old) (K.faults disk.new)) journal_room durable.old.gate.setting past
        logged (failures result) (D.faults door.old) (D.faults door.new) (C.faults clock.old) (C.faults clock.new) }

    // What a crash leaves, at any moment of the call and after it.
    ensures crash { (told left : Connections) → Tells (D.told door.old) (D.beside door.old) told
        → (D.beside door.new).told ≡ Some left
        → (past : Past) → StandsFor (held_of durable.old) past
        → (logged : List entries.Entry) → left.log ≡ told.log ++ logged
        → (file : List ℕ) → K.told disk.old ≡ Some file → (bodies : List KeptBody) → kept file ≡ Ok bodies
        → HoldsOfBodies (HasKept K.told K.may_leave K.clock K.left_since disk.old disk.new
        durable.old.gate.setting bodies) durable.new.journal.is_sound logged }
    ensures stands { durable.new.journal.is_sound ≡ true → DurableStandsOn K.told K.may_leave durable.new disk.new }

    ensures held { length body.new ≤ body_limit }
    ensures absent { (D.beside door.new).present ≡ false }
    ensures setting { durable.new.gate.setting ≡ durable.old.gate.setting }
    ensures keeping { K.faults disk.old ≤ K.faults disk.new }
    ensures failed { durable.new.journal.is_sound ≡ false → Rose (K.faults disk.old) (K.faults disk.new) }
    ensures counts { Counts (IsErr result) (D.faults door.old) (D.faults door.new) }
    ensures clock { C.faults clock.old ≤ C.faults clock.new }
{
    a_crash_leaves_a_prefix_law::<K>();
    body.clear();
    serve_with(alloc, durable, disk, reader, body, door, clock, connections)
}
