//! A body is taken once a journal keeps it. The definitions are those of `specs/Taking.antt`.
ghost use Rattle.std.specs.Prelude.{◌≡◌, ◌≤◌, length, true};
ghost use Rattle.gw_base.specs.Limits.{body_limit};
ghost use Rattle.gateway_durable.specs.Standing.{DurableStandsOn};
ghost use Rattle.gateway_durable.specs.Taking.{TakesDurably};

use crate::keeper::Keeper;
use delivery_journal::{Disk, Journal};
use gateway_core::{Accepted, Gateway, KeptFault};
use gw_base::{Kind, Moment};
use std::alloc::Global;

/// Takes a body at a gateway, once the journal has it on the disk on which both stand.
pub fn take_on<K: Disk>(
    alloc: Global,
    gate: &mut Gateway,
    journal: &mut Journal,
    disk: &mut K,
    kind: Kind,
    body: &[u8],
    moment: Moment,
) -> Result<Accepted, KeptFault>
    requires sound { journal.old.is_sound ≡ true }
    requires stands { DurableStandsOn K.told K.may_leave (record { gate = gate.old; journal = journal.old }) disk.old }
    requires small { length body.now ≤ body_limit }
    ensures { TakesDurably K.told K.may_leave K.clock K.left_since K.faults
        (record { gate = gate.old; journal = journal.old }) disk.old
        (record { kind = kind; moment = moment; body = body.now }) result
        (record { gate = gate.new; journal = journal.new }) disk.new }
{
    let mut keeper = Keeper { disk, journal };
    gate.take_kept(alloc, kind, body, moment, &mut keeper)
}
