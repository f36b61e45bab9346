//! Further files of a command, read whole.
ghost use Rattle.std.specs.Prelude.{◌≡◌, ◌++◌, IfOk, IfSome, IsErrOf};
ghost use Rattle.gw_base.specs.Answers.{UnlessFree};
ghost use Rattle.gw_base.specs.Count.{Counts};
ghost use Rattle.file_commands.specs.Exits.{is_free};
ghost use Rattle.file_commands.specs.Work as steps;

use crate::exit::Exit;
use gw_base::{Bytes, FileFault, Files, Got, Text};
use std::alloc::{AllocError, Global};

/// The most bytes that a zone file may have.
pub const ZONE_LIMIT: u64 = 1_048_576;

/// Two texts, one after the other.
pub fn joined(alloc: Global, first: &str, second: &str) -> Result<Text, AllocError>
    ensures { IfOk result (λ text. text ≡ first.now ++ second.now) }
{
    let mut text = Text::copied(alloc, first)?;
    text.push(second)?;
    Ok(text)
}

/// The bytes of a further file, at most so many. Err: Missing or TooLong with its name, Failed, or want of memory.
pub fn further_file<F: Files>(
    alloc: Global,
    files: &mut F,
    name: &str,
    limit: u64,
) -> Result<Bytes, Exit>
    ensures told { IfSome (F.told files.old) (λ told. UnlessFree is_free result
        (steps.IsFurtherFile limit name.now told)) }
    ensures counts { Counts (IsErrOf result Exit.Failed) (F.faults files.old) (F.faults files.new) }
    ensures same { F.told files.new ≡ F.told files.old }
{
    let mut bytes = Bytes::new(alloc);
    match files.read_file(name, limit, &mut bytes) {
        Ok(Got::Whole) => Ok(bytes),
        Ok(Got::Missing) => Err(Exit::Missing(joined(alloc, "Missing ", name)?)),
        Ok(Got::TooLong) => Err(Exit::Refused(joined(alloc, "TooLong ", name)?)),
        Err(FileFault::Failed) => Err(Exit::Failed),
        Err(FileFault::Memory) => Err(Exit::Memory),
    }
}
