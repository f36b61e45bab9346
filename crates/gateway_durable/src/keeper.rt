//! What keeps a body before a gateway takes it: a journal with its disk; or nothing, for a body that is kept already.
ghost use Rattle.std.specs.Prelude.{◌≡◌};
ghost use Rattle.gateway_durable.specs.Appending.{of_append};

use delivery_journal::{AppendFault, Disk, Journal};
use gateway_core::{Before, KeepFault};
use gw_base::{Kind, Moment};

// A journal, and the disk on which it stands.
#[derive(Drop)]
pub struct Keeper<'a, K> {
    pub disk: &'a mut K,
    pub journal: &'a mut Journal,
}

// Why a body isn't kept that isn't appended.
fn of_append(answer: Result<(), AppendFault>) -> Result<(), KeepFault>
    ensures { result ≡ of_append answer }
{
    match answer {
        Ok(()) => Ok(()),
        Err(AppendFault::Disk) => Err(KeepFault::Failed),
        Err(AppendFault::Full(end)) => Err(KeepFault::Full(end)),
    }
}

impl<K: Disk> Before for Keeper<'_, K> {
    ghost use Rattle.std.specs.Prelude.{◌≡◌, true};
    ghost use Rattle.delivery_journal.specs.Standing.{StandsOn};
    ghost use Rattle.gateway_durable.specs.Appending.{Appends, full_at};

    ghost faults = { λ k. K.faults k.disk.now };

    ghost is_ready = { λ k. (k.journal.now.is_sound ≡ true) × StandsOn K.told K.may_leave k.journal.now k.disk.now };

    ghost full = { λ k count. full_at k.journal.now count };

    ghost keeps = { λ old kind moment body answer now. Appends K.told K.may_leave K.clock K.left_since
        old.journal.now old.disk.now (record { kind = kind; moment = moment; body = body }) answer
        now.journal.now now.disk.now
        × (now.journal.ghost_name ≡ old.journal.ghost_name) × (now.disk.ghost_name ≡ old.disk.ghost_name) };

    fn keep(&mut self, kind: Kind, moment: Moment, body: &[u8]) -> Result<(), KeepFault> {
        of_append(self.journal.append(self.disk, kind, moment, body))
    }
}

// Nothing: the body is kept already.
#[derive(Drop)]
pub struct KeptAlready {
    // It keeps no more than that.
    pub done: (),
}

impl Before for KeptAlready {
    ghost use Rattle.std.specs.Prelude.{◌≡◌, Ok, None, ⊤};

    ghost faults = { λ k. 0 };

    ghost is_ready = { λ k. ⊤ };

    ghost full = { λ k count. None };

    ghost keeps = { λ old kind moment body answer now. answer ≡ Ok tt };

    fn keep(&mut self, _: Kind, _: Moment, _: &[u8]) -> Result<(), KeepFault> {
        Ok(())
    }
}
