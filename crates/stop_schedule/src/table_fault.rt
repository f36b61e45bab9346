//! Why a timetable was not read.
ghost use Rattle.std.specs.Prelude.{◌≡◌};
ghost use Rattle.stop_schedule.specs.declared.table_fault.TableFault.TheVariants as Fault;

use crate::column::Column;
use crate::table_file::TableFile;
use std::alloc::{AllocError, AllocFailed};
use thiserror::Error;

/// Why a timetable was not read. Rows are data rows, which count from 1.
#[derive(Clone, Copy, Debug, PartialEq, Eq, Error)]
pub enum TableFault {
    /// A needed file is not there.
    #[error("{} is missing", .0.name())]
    Missing(TableFile),
    /// A file has over 268,435,456 bytes.
    #[error("{} is too long", .0.name())]
    TooLong(TableFile),
    /// The first row of a file doesn't name a column that is read.
    #[error("{} has no column {}", .0.name(), .1.name())]
    NoColumn(TableFile, Column),
    /// A field that is read isn't UTF-8.
    #[error("{}, row {}: not UTF-8", .0.name(), .1)]
    NotUtf8(TableFile, u64),
    /// A field has another form than its column's; an id is empty.
    #[error("{}, row {}: {} has another form", .0.name(), .1, .2.name())]
    BadField(TableFile, u64, Column),
    /// An id has over 200 bytes, or the row is one more than are taken.
    #[error("{}, row {}: over a limit", .0.name(), .1)]
    Limit(TableFile, u64),
    /// The zone of an agency differs from the first agency's.
    #[error("agency.txt, row {}: another zone", .0)]
    Zones(u64),
    /// The trip, route or stop isn't in its file.
    #[error("{}, row {}: {} is unknown", .0.name(), .1, .2.name())]
    Unknown(TableFile, u64, Column),
    /// The key of the row was in an earlier row.
    #[error("{}, row {}: stood in an earlier row", .0.name(), .1)]
    Duplicate(TableFile, u64),
    /// The first or last stop of a trip has no time.
    #[error("stop_times.txt, row {}: a trip's end without a time", .0)]
    UntimedEnd(u64),
    /// A file could not be read: the outside failed, and its count of faults rose.
    #[error("{} could not be read", .0.name())]
    Failed(TableFile),
    /// Want of memory.
    #[error("out of memory")]
    Memory,
}

impl From<AllocError> for TableFault {
    ghost from_gives = { λ _ fault. fault ≡ Fault.Memory };

    fn from(_error: AllocError) -> TableFault {
        TableFault::Memory
    }
}

impl<T: Drop> From<AllocFailed<T>> for TableFault {
    ghost from_gives = { λ _ fault. fault ≡ Fault.Memory };

    fn from(_error: AllocFailed<T>) -> TableFault {
        TableFault::Memory
    }
}
