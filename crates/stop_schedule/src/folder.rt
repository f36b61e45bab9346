//! The files of a folder, by name.
ghost use Rattle.std.specs.Prelude.{◌≡◌, IfSome, IfOk};
ghost use Rattle.std.specs.String.{string_bytes};
ghost use Rattle.gw_base.specs.Count.{Counts};
ghost use Rattle.gw_base.specs.Directory.{bytes_of};
ghost use Rattle.stop_schedule.specs.Failures.{IfFailed};
ghost use Rattle.stop_schedule.specs.Answers.{HasFailed};
ghost use Rattle.stop_schedule.specs.Sheet.{GivesFile};
ghost use Rattle.stop_schedule.specs.Timetable.{path_of};

use crate::limits::MAX_FILE_LEN;
use crate::table_fault::TableFault;
use crate::table_file::TableFile;
use gw_base::{Bytes, FileFault, Files, Got};
use std::alloc::{AllocError, Global};

// The name of a file in a folder.
fn path(alloc: Global, dir: &str, file: TableFile) -> Result<String, AllocError>
    ensures { IfOk result (λ path. string_bytes path ≡ path_of dir.now file) }
{
    let mut path = String::from_str(alloc, dir)?;
    path.push_str("/")?;
    path.push_str(file.name())?;
    Ok(path)
}

/// Reads a file of a folder, of at most 268,435,456 bytes, in place of what the buffer has, and says whether
/// it is there.
pub(crate) fn read_file<F: Files>(
    alloc: Global,
    files: &mut F,
    dir: &str,
    file: TableFile,
    buffer: &mut Bytes,
) -> Result<bool, TableFault>
    ensures exact { IfSome (F.told files.old)
        (λ told. GivesFile result file (bytes_of told (path_of dir.now file)) buffer.new) }
    ensures counts { Counts (HasFailed result) (F.faults files.old) (F.faults files.new) }
    ensures failed { IfFailed result (λ named. named ≡ file) }
    ensures same { F.told files.new ≡ F.told files.old }
{
    let Ok(path) = path(alloc, dir, file) else {
        return Err(TableFault::Memory);
    };
    buffer.clear();
    match files.read_file(path.as_str(), MAX_FILE_LEN, buffer) {
        Ok(Got::Whole) => Ok(true),
        Ok(Got::Missing) => Ok(false),
        Ok(Got::TooLong) => Err(TableFault::TooLong(file)),
        Err(FileFault::Failed) => Err(TableFault::Failed(file)),
        Err(FileFault::Memory) => Err(TableFault::Memory),
    }
}
