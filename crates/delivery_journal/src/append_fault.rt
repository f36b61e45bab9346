//! Why a body isn't appended.

use gw_base::Failed;

/// Why a body wasn't appended to a journal.
#[derive(Clone, Copy, Debug, PartialEq, Eq)]
pub enum AppendFault {
    /// The disk failed, and its count of faults rose. The journal isn't sound any more: it has to be opened again.
    Disk,
    /// The file would have more bytes than a journal's file may have. Nothing was written. With the closed gate's
    /// place.
    Full(u64),
}

impl From<Failed> for AppendFault {
    ghost use Rattle.std.specs.Prelude.{◌≡◌};
    ghost use Rattle.delivery_journal.specs.declared.append_fault.AppendFault.TheVariants.{Disk};

    ghost from_gives = { λ _ fault. fault ≡ Disk };

    fn from(_: Failed) -> AppendFault {
        AppendFault::Disk
    }
}
