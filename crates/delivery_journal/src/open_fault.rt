//! Why a journal isn't opened.

use gw_base::Failed;

/// Why a file isn't opened as a journal.
#[derive(Clone, Copy, Debug, PartialEq, Eq)]
pub enum OpenFault {
    /// The disk failed, and its count of faults rose.
    Disk,
    /// The file has more than 9 bytes and doesn't begin with `GWJRNL01`.
    NotJournal,
    /// At this place there is no gate, or an open one with no whole record behind it.
    Damaged(u64),
}

impl From<Failed> for OpenFault {
    ghost use Rattle.std.specs.Prelude.{◌≡◌};
    ghost use Rattle.delivery_journal.specs.declared.open_fault.OpenFault.TheVariants.{Disk};

    ghost from_gives = { λ _ fault. fault ≡ Disk };

    fn from(_: Failed) -> OpenFault {
        OpenFault::Disk
    }
}
