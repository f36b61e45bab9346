//! A gateway with the journal of the bodies that it took. The definitions are those of `specs/Standing.antt`,
//! `Taking.antt` and `Reopening.antt`.
ghost use Rattle.std.specs.Prelude.{◌≡◌, ◌⊎◌, ◌≤◌, ℕ, List, length, true, option_map, IfErr, IfOk, OnOk, Err};
ghost use Rattle.gw_base.specs.Count.{Counts};
ghost use Rattle.gw_base.specs.Limits.{body_limit};
ghost use Rattle.gw_base.specs.declared.kind.Kind.TheVariants as kind;
ghost use Rattle.delivery_journal.specs.Disk.{Survives, WhereTold};
ghost use Rattle.delivery_journal.specs.Kept.{kept};
ghost use Rattle.delivery_journal.specs.Standing.{opened_file};
ghost use Rattle.gateway_core.specs.Arrivals.{Arrival};
ghost use Rattle.gateway_core.specs.Standing.{Stands};
ghost use Rattle.gateway_durable.specs.Reopening.{FileCanReplay, RefusesFile, StandsForFile};
ghost use Rattle.gateway_durable.specs.Standing.{DurableStandsOn};
ghost use Rattle.gateway_durable.specs.Taking.{TakesDurably};

use crate::laws::kept_bodies_replay_law;
use crate::reopen_fault::{ReopenFault, of_open};
use crate::reopening::replay_all;
use crate::taking::take_on;
use delivery_journal::{Disk, Journal};
use gateway_core::{Accepted, Gateway, KeptFault, Setting};
use gw_base::{Kind, Moment};
use std::alloc::{AllocError, Global};
use std::marker::Model;

/// A gateway, and the journal that keeps each body on a disk before the gateway takes it. Each call takes the disk on
/// which the journal stands. A contract sees the gateway and the journal.
#[derive(Drop)]
pub struct Durable {
    gate: Gateway,
    journal: Journal,
}

impl Model for Durable {
    ghost use Rattle.std.specs.Coded.{codes};
    ghost use Rattle.gateway_durable.specs.Standing.{DurableGate};
    ghost use Rattle.gateway_core.specs.contracts.gateway.Gateway as gateways;
    ghost use Rattle.delivery_journal.specs.contracts.journal.Journal as journals;

    ghost Value = { DurableGate };

    ghost coded = { Prim.hlevel (codes, gateways.the_row.coded, journals.the_row.coded) };

    ghost view = { λ d. record { gate = d.gate; journal = d.journal } };
}

impl Durable {
    /// Opens the journal on a disk, which makes a file of at most 9 bytes anew, and takes the bodies that it holds
    /// one after the other, each with its kind and its moment, at a gateway of this setting. Err with Disk only where
    /// the disk failed; NotJournal and Damaged as `Journal::open` has them; Replay with the number, from 1, of the
    /// first body that is refused after those before it, which comes never where all can be taken; Memory for want of
    /// memory.
    pub fn reopen<K: Disk>(
        alloc: Global,
        setting: Setting,
        disk: &mut K,
    ) -> Result<Durable, ReopenFault>
        ensures sound { IfOk result (λ durable. durable.journal.is_sound ≡ true) }
        ensures setting { IfOk result (λ durable. durable.gate.setting ≡ setting) }
        ensures stands { IfOk result (λ durable. DurableStandsOn K.told K.may_leave durable disk.new) }
        ensures gate { IfOk result (λ durable. (arrivals : List Arrival) × Stands durable.gate arrivals) }

        // It stands for the bodies that the file held, which is made anew where it has at most 9 bytes.
        ensures list { IfOk result (λ durable. WhereTold (K.told disk.old)
            (λ file. StandsForFile setting file durable.gate)) }
        ensures file { OnOk result (K.told disk.new ≡ option_map opened_file (K.told disk.old)) }

        // NotJournal, Damaged and Replay come exactly where the file is so, unless the disk fails or memory is short.
        ensures fault { IfErr result (λ why. WhereTold (K.told disk.old) (λ file. RefusesFile setting file why)) }
        ensures never { IfErr result (λ why. (n : ℕ) → why ≡ ReopenFault.Replay n
            → WhereTold (K.told disk.old) (λ file. ¬ FileCanReplay setting file)) }

        // A crash in the call leaves what a crash before it might have left, or a file that holds the same.
        ensures any_moment { WhereTold (K.told disk.old) (λ file. Survives K.clock K.left_since disk.old disk.new
            (λ image. K.may_leave disk.old image ⊎ (kept image ≡ kept file))) }

        ensures counts { Counts (result ≡ Err ReopenFault.Disk) (K.faults disk.old) (K.faults disk.new) }
    {
        kept_bodies_replay_law();
        let journal = match Journal::open(disk) {
            Ok(journal) => journal,
            Err(fault) => return Err(of_open(fault)),
        };
        let mut gate = match Gateway::start(alloc, setting) {
            Ok(gate) => gate,
            Err(AllocError) => return Err(ReopenFault::Memory),
        };
        match replay_all(alloc, &mut gate, &journal, disk) {
            Ok(()) => Ok(Durable { gate, journal }),
            Err(fault) => Err(fault),
        }
    }

    /// Takes a body of a kind that arrives at a moment, of at most 16,777,216 bytes, as `Gateway::take` does, once it
    /// is on the disk: the journal appends it only where it would be taken, after all memory is taken. After Ok every
    /// crash leaves it. Err as `take` refuses a body; Full where it would be taken and the file would have more than
    /// 1 TiB, and then nothing was done; Unkept where it would be taken and the disk failed, and then the journal
    /// isn't sound any more and has to be opened again; Memory for want of memory. After each of them the gateway is
    /// as before.
    pub fn take<K: Disk>(
        &mut self,
        alloc: Global,
        disk: &mut K,
        kind: Kind,
        body: &[u8],
        moment: Moment,
    ) -> Result<Accepted, KeptFault>
        requires sound { self.old.journal.is_sound ≡ true }
        requires stands { DurableStandsOn K.told K.may_leave self.old disk.old }
        requires small { length body.now ≤ body_limit }
        ensures { TakesDurably K.told K.may_leave K.clock K.left_since K.faults self.old disk.old
            (record { kind = kind; moment = moment; body = body.now }) result self.new disk.new }
    {
        take_on(
            alloc,
            &mut self.gate,
            &mut self.journal,
            disk,
            kind,
            body,
            moment,
        )
    }

    /// Takes a delivery of journeys (SIRI 2.0, EstimatedTimetableDelivery) that arrives at a moment, as `take` does.
    pub fn take_estimated<K: Disk>(
        &mut self,
        alloc: Global,
        disk: &mut K,
        body: &[u8],
        moment: Moment,
    ) -> Result<Accepted, KeptFault>
        requires sound { self.old.journal.is_sound ≡ true }
        requires stands { DurableStandsOn K.told K.may_leave self.old disk.old }
        requires small { length body.now ≤ body_limit }
        ensures { TakesDurably K.told K.may_leave K.clock K.left_since K.faults self.old disk.old
            (record { kind = kind.Estimated; moment = moment; body = body.now }) result self.new disk.new }
    {
        self.take(alloc, disk, Kind::Estimated, body, moment)
    }

    /// Takes a delivery of situations (SIRI 2.0, SituationExchangeDelivery) that arrives at a moment, as `take` does.
    pub fn take_situations<K: Disk>(
        &mut self,
        alloc: Global,
        disk: &mut K,
        body: &[u8],
        moment: Moment,
    ) -> Result<Accepted, KeptFault>
        requires sound { self.old.journal.is_sound ≡ true }
        requires stands { DurableStandsOn K.told K.may_leave self.old disk.old }
        requires small { length body.now ≤ body_limit }
        ensures { TakesDurably K.told K.may_leave K.clock K.left_since K.faults self.old disk.old
            (record { kind = kind.Situations; moment = moment; body = body.now }) result self.new disk.new }
    {
        self.take(alloc, disk, Kind::Situations, body, moment)
    }

    /// Takes a feed (GTFS Realtime, FeedMessage) that arrives whole at a moment, as `take` does.
    pub fn take_feed<K: Disk>(
        &mut self,
        alloc: Global,
        disk: &mut K,
        body: &[u8],
        moment: Moment,
    ) -> Result<Accepted, KeptFault>
        requires sound { self.old.journal.is_sound ≡ true }
        requires stands { DurableStandsOn K.told K.may_leave self.old disk.old }
        requires small { length body.now ≤ body_limit }
        ensures { TakesDurably K.told K.may_leave K.clock K.left_since K.faults self.old disk.old
            (record { kind = kind.Feed; moment = moment; body = body.now }) result self.new disk.new }
    {
        self.take(alloc, disk, Kind::Feed, body, moment)
    }

    /// The gateway, lent: what it serves is what it stands for.
    pub fn gate(&self) -> &Gateway
        ensures value { result.now ≡ self.now.gate }
    {
        &self.gate
    }

    /// Whether it may be used: it is, unless a call answered Unkept.
    pub fn is_sound(&self) -> bool
        ensures value { result ≡ self.now.journal.is_sound }
    {
        self.journal.is_sound()
    }
}
