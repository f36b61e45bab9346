//! Why the next body of a journal isn't read.

use gw_base::Failed;
use std::alloc::AllocError;

/// Why the next body of a journal wasn't read.
#[derive(Clone, Copy, Debug, PartialEq, Eq)]
pub enum NextFault {
    /// The disk failed, and its count of faults rose.
    Disk,
    /// Want of memory. It also comes from a disk that doesn't tell its file, where the file isn't any more as it was
    /// opened.
    Memory,
}

impl From<Failed> for NextFault {
    ghost use Rattle.std.specs.Prelude.{◌≡◌};
    ghost use Rattle.delivery_journal.specs.declared.next_fault.NextFault.TheVariants.{Disk};

    ghost from_gives = { λ _ fault. fault ≡ Disk };

    fn from(_: Failed) -> NextFault {
        NextFault::Disk
    }
}

impl From<AllocError> for NextFault {
    ghost use Rattle.std.specs.Prelude.{◌≡◌};
    ghost use Rattle.delivery_journal.specs.declared.next_fault.NextFault.TheVariants.{Memory};

    ghost from_gives = { λ _ fault. fault ≡ Memory };

    fn from(_: AllocError) -> NextFault {
        NextFault::Memory
    }
}
