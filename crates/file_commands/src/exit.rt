//! How a command's work ends before anything is written. The definitions are those of `specs/Exits.antt`.
ghost use Rattle.std.specs.Prelude.{◌≡◌};
ghost use Rattle.file_commands.specs.Exits.{status_of, text_of};

use gw_base::Text;
use std::alloc::AllocError;

/// The work was done.
pub const DONE: u8 = 0;
/// The input is refused.
const REFUSED: u8 = 65;
/// A file is missing.
const MISSING: u8 = 66;
/// Want of memory.
const MEMORY: u8 = 71;
/// A device failed.
pub const FAILED: u8 = 74;

/// Why a command's work ended before anything was written.
#[derive(Debug, Drop)]
pub enum Exit {
    /// The input is refused. The text says where and why.
    Refused(Text),
    /// A file that is needed isn't there. The text names it.
    Missing(Text),
    /// The files failed.
    Failed,
    /// Want of memory.
    Memory,
}

impl From<AllocError> for Exit {
    ghost use Rattle.std.specs.Prelude.{◌≡◌};
    ghost use Rattle.file_commands.specs.declared.exit.Exit.TheVariants.{Memory};

    ghost from_gives = { λ _ e. e ≡ Memory };

    fn from(_e: AllocError) -> Exit {
        Exit::Memory
    }
}

impl Exit {
    /// The status that the program then ends with.
    pub fn status(&self) -> u8
        ensures { result ≡ status_of self.now }
    {
        match self {
            Exit::Refused(_) => REFUSED,
            Exit::Missing(_) => MISSING,
            Exit::Failed => FAILED,
            Exit::Memory => MEMORY,
        }
    }

    /// What standard error is told.
    pub fn text(&self) -> &str
        ensures { result.now ≡ text_of self.now }
    {
        match self {
            Exit::Refused(text) | Exit::Missing(text) => text.as_str(),
            Exit::Failed => "failed",
            Exit::Memory => "memory",
        }
    }
}
