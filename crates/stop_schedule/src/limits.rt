//! The limits of a folder. They are those of `specs/Limits.antt`, which the functions that use them meet.
ghost use Rattle.std.specs.Prelude.{◌≡◌};
ghost use Rattle.stop_schedule.specs.Limits as spec;

use crate::table_file::TableFile;

/// The bytes that a file has at most.
pub(crate) const MAX_FILE_LEN: u64 = 268_435_456;

/// The stops that a trip has at most.
pub(crate) const MAX_STOPS: usize = 250;

/// The data rows that a file has at most.
pub(crate) fn row_limit(file: TableFile) -> u64
    ensures { result ≡ spec.row_limit file }
{
    match file {
        TableFile::Agency => 10_000,
        TableFile::Stops => 100_000,
        TableFile::Routes => 100_000,
        TableFile::Trips => 200_000,
        TableFile::Calendar => 200_000,
        TableFile::CalendarDates => 4_000_000,
        TableFile::Frequencies => 200_000,
        TableFile::StopTimes => 4_000_000,
    }
}
