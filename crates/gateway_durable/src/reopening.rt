//! The bodies that a journal holds are taken again, one after the other.
ghost use Rattle.std.specs.Prelude.{◌≡◌, ◌≤◌, ◌<◌, ◌++◌, [], List as Values, length, true, IfErr, IfOk, IfSome, OnOk, Ok, Err};
ghost use Rattle.gw_base.specs.Count.{Counts};
ghost use Rattle.gw_base.specs.Limits.{body_limit};
ghost use Rattle.delivery_journal.specs.Disk.{ReadsOnly, WhereTold};
ghost use Rattle.delivery_journal.specs.Kept.{KeptBody, kept, place_after};
ghost use Rattle.delivery_journal.specs.Standing.{Gives, StandsOn};
ghost use Rattle.gateway_core.specs.Arrivals.{Arrival};
ghost use Rattle.gateway_core.specs.Standing.{Stands};
ghost use Rattle.gateway_durable.specs.Again as spec;
ghost use Rattle.gateway_durable.specs.Reopening.{RefusesBodies, StandsForBodies};

use crate::keeper::KeptAlready;
use crate::reopen_fault::{ReopenFault, of_next};
use delivery_journal::{Disk, Journal};
use gateway_core::{Gateway, KeptFault};
use gw_base::{BODY_LIMIT, Bytes, Kind, List, Moment};
use std::alloc::Global;

// Why a body that is kept already isn't taken again, of which this is the number.
fn of_kept(fault: KeptFault, number: u64) -> ReopenFault
    ensures { result ≡ spec.of_kept fault number }
{
    match fault {
        KeptFault::NotJson => ReopenFault::Replay(number),
        KeptFault::NotDelivery(_) => ReopenFault::Replay(number),
        KeptFault::Feed(_) => ReopenFault::Replay(number),
        KeptFault::Differential => ReopenFault::Replay(number),
        KeptFault::TooManyCalls(_) => ReopenFault::Replay(number),
        // Nothing has to be kept, so that these two don't come.
        KeptFault::Unkept => ReopenFault::Memory,
        KeptFault::Full(_) => ReopenFault::Memory,
        KeptFault::Memory => ReopenFault::Memory,
    }
}

// Takes a body again that is kept already, of which this is the number.
fn take_again(
    alloc: Global,
    gate: &mut Gateway,
    kind: Kind,
    moment: Moment,
    body: &[u8],
    number: u64,
) -> Result<(), ReopenFault>
    requires small { length body.now ≤ body_limit }
    ensures takes { (arrivals : Values Arrival) → Stands gate.old arrivals → spec.TakesAgain gate.old.setting arrivals
        (record { kind = kind; moment = moment; body = body.now }) number result gate.new }
    ensures stands { (arrivals : Values Arrival) → Stands gate.old arrivals
        → (now : Values Arrival) × Stands gate.new now }
    ensures setting { gate.new.setting ≡ gate.old.setting }
    ensures fault { IfErr result spec.IsNotOfDisk }
{
    let mut nothing = KeptAlready { done: () };
    match gate.take_kept(alloc, kind, body, moment, &mut nothing) {
        Ok(_accepted) => return Ok(()),
        Err(fault) => return Err(of_kept(fault, number)),
    }
}

// The body behind the gate at `at`, in the place of what is in `body`: its kind, its moment, and the place of the next
// gate, which is further. None at the closed gate.
fn read_next<K: Disk>(
    journal: &Journal,
    disk: &mut K,
    at: u64,
    body: &mut Bytes,
) -> Result<Option<(Kind, Moment, u64)>, ReopenFault>
    requires sound { journal.now.is_sound ≡ true }
    requires stands { StandsOn K.told K.may_leave journal.now disk.old }
    requires place { at ≤ journal.now.end }
    ensures body { IfOk result (λ answer. WhereTold (K.told disk.old) (λ file. (before rest : Values KeptBody)
        → kept file ≡ Ok (before ++ rest) → at ≡ place_after before → Gives rest at answer body.new)) }
    ensures further { IfOk result (λ answer. IfSome answer (λ found. at < found.2)) }
    ensures small { IfOk result (λ answer. IfSome answer (λ _. length body.new ≤ body_limit)) }
    ensures fault { IfErr result spec.IsFree }
    ensures stands { StandsOn K.told K.may_leave journal.now disk.new }
    ensures reads { ReadsOnly K.told K.may_leave K.clock K.left_since disk.old disk.new }
    ensures counts { Counts (result ≡ Err ReopenFault.Disk) (K.faults disk.old) (K.faults disk.new) }
{
    match journal.next(disk, at, body) {
        Ok(None) => Ok(None),
        Ok(Some((kind, moment, next))) => {
            // Of a disk that doesn't tell its file nothing is known of what was read.
            if next <= at || body.len() as u64 > BODY_LIMIT {
                return Err(ReopenFault::Memory);
            }
            Ok(Some((kind, moment, next)))
        }
        Err(fault) => Err(of_next(fault)),
    }
}

// Takes the body again behind the gate at `at`, before which there are so many, and answers the place of the next gate;
// None where there are no more.
fn replay_next<K: Disk>(
    alloc: Global,
    gate: &mut Gateway,
    journal: &Journal,
    disk: &mut K,
    at: u64,
    count: u64,
    body: &mut Bytes,
) -> Result<Option<u64>, ReopenFault>
    requires sound { journal.now.is_sound ≡ true }
    requires stands { StandsOn K.told K.may_leave journal.now disk.old }
    requires place { at ≤ journal.now.end }
    requires few { count ≤ at }
    ensures replays { WhereTold (K.told disk.old) (λ file. (bodies : Values KeptBody) → kept file ≡ Ok bodies
        → spec.HasReplayed gate.old.setting bodies at count gate.old
        → spec.ReplaysNext gate.old.setting bodies count result gate.new) }
    ensures gate { (arrivals : Values Arrival) → Stands gate.old arrivals
        → (now : Values Arrival) × Stands gate.new now }
    ensures setting { gate.new.setting ≡ gate.old.setting }
    ensures further { IfOk result (λ answer. IfSome answer (λ next. at < next)) }
    ensures stands { StandsOn K.told K.may_leave journal.now disk.new }
    ensures reads { ReadsOnly K.told K.may_leave K.clock K.left_since disk.old disk.new }
    ensures counts { Counts (result ≡ Err ReopenFault.Disk) (K.faults disk.old) (K.faults disk.new) }
{
    match read_next(journal, disk, at, body) {
        Ok(None) => Ok(None),
        Ok(Some((kind, moment, next))) => {
            match take_again(alloc, gate, kind, moment, body.as_slice(), count + 1) {
                Ok(()) => Ok(Some(next)),
                Err(fault) => Err(fault),
            }
        }
        Err(fault) => Err(fault),
    }
}

/// Takes all bodies of a journal again, one after the other, at a gateway that took nothing yet.
pub fn replay_all<K: Disk>(
    alloc: Global,
    gate: &mut Gateway,
    journal: &Journal,
    disk: &mut K,
) -> Result<(), ReopenFault>
    requires sound { journal.now.is_sound ≡ true }
    requires stands { StandsOn K.told K.may_leave journal.now disk.old }
    requires nothing { Stands gate.old [] }
    ensures replays { OnOk result (WhereTold (K.told disk.old) (λ file. (bodies : Values KeptBody)
        → kept file ≡ Ok bodies → StandsForBodies gate.old.setting bodies gate.new)) }
    ensures fault { IfErr result (λ why. WhereTold (K.told disk.old) (λ file. (bodies : Values KeptBody)
        → kept file ≡ Ok bodies → RefusesBodies gate.old.setting bodies why)) }
    ensures gate { (arrivals : Values Arrival) × Stands gate.new arrivals }
    ensures setting { gate.new.setting ≡ gate.old.setting }
    ensures stands { StandsOn K.told K.may_leave journal.now disk.new }
    ensures reads { ReadsOnly K.told K.may_leave K.clock K.left_since disk.old disk.new }
    ensures counts { Counts (result ≡ Err ReopenFault.Disk) (K.faults disk.old) (K.faults disk.new) }
{
    let mut body: Bytes = List::new(alloc);
    let mut at: u64 = 8;
    let mut count: u64 = 0;
    while at <= journal.end() {
        match replay_next(alloc, gate, journal, disk, at, count, &mut body) {
            Ok(None) => return Ok(()),
            Ok(Some(next)) => at = next,
            Err(fault) => return Err(fault),
        }
        count += 1;
    }
    // The file of a disk that doesn't tell it may lead past its end.
    Err(ReopenFault::Memory)
}
