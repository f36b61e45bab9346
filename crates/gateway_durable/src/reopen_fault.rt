//! Why a durable gateway isn't opened again.
ghost use Rattle.std.specs.Prelude.{◌≡◌};
ghost use Rattle.gateway_durable.specs.Reopening.{of_next, of_open};

use delivery_journal::{NextFault, OpenFault};

/// Why a durable gateway isn't opened again.
#[derive(Clone, Copy, Debug, PartialEq, Eq)]
pub enum ReopenFault {
    /// The disk failed, and its count of faults rose.
    Disk,
    /// The file has more than 9 bytes and doesn't begin as a journal does.
    NotJournal,
    /// At this place of the file, in bytes, there is no gate, or an open one with no whole record behind it.
    Damaged(u64),
    /// The body of this number, from 1, is refused after those before it, and not for want of memory: it was kept over
    /// another timetable, zone or window.
    Replay(u64),
    /// Want of memory. It also comes from a disk that doesn't tell its file, where the file isn't any more as it was
    /// opened.
    Memory,
}

// The same of a journal that isn't opened.
pub fn of_open(fault: OpenFault) -> ReopenFault
    ensures { result ≡ of_open fault }
{
    match fault {
        OpenFault::Disk => ReopenFault::Disk,
        OpenFault::NotJournal => ReopenFault::NotJournal,
        OpenFault::Damaged(at) => ReopenFault::Damaged(at),
    }
}

// The same of a body that isn't read off a journal.
pub fn of_next(fault: NextFault) -> ReopenFault
    ensures { result ≡ of_next fault }
{
    match fault {
        NextFault::Disk => ReopenFault::Disk,
        NextFault::Memory => ReopenFault::Memory,
    }
}
