//! Files in memory.
ghost use Rattle.std.specs.Prelude.{◌≡◌, ◌≢◌, ◌++◌, ◌≤◌, ℕ, List, true, false, if◌then◌else◌, length, Ok, Err, Some, None, IsErrOf, option_map};
ghost use Rattle.gw_base.specs.Count.{Counts};
ghost use Rattle.gw_base.specs.Directory.{bytes_of, IsRead, IsLonger};
ghost use Rattle.gw_base.specs.Memory.{fails_next, after_use, after_fault};

use crate::files::{FileFault, Files, Got};
use crate::list::{Bytes, List};
use crate::text::Text;
use crate::uses::Uses;
use std::marker::Model;

/// Files in memory, with the numbers of the reads that are to fail. It tells its files. A contract sees
/// the files and the uses.
#[derive(Debug, Drop)]
pub struct MemoryFiles {
    files: List<(Text, Bytes)>,
    uses: Uses,
}

impl Model for MemoryFiles {
    ghost use Rattle.gw_base.specs.Memory.{FilesInMemory};

    ghost Value = { FilesInMemory };

    ghost view = { λ m. record { files = m.files; uses = m.uses } };
}

impl MemoryFiles {
    /// These files; of two equal names the first counts. `fails` has the numbers, from 1, of the reads
    /// that are to fail. Takes no memory.
    pub fn make(files: List<(Text, Bytes)>, fails: List<u64>) -> MemoryFiles
        ensures { result ≡ record { files = files; uses = record { fails = fails; made = 0; faults = 0 } } }
    {
        MemoryFiles {
            files,
            uses: Uses::new(fails),
        }
    }
}

// The bytes of the first file of that name.
fn file_of<'a>(files: &'a [(Text, Bytes)], name: &str) -> Option<&'a Bytes>
    ensures { option_map (λ bytes. bytes.now) result ≡ bytes_of files.now name.now }
{
    for (held, bytes) in files {
        if held.as_str() == name {
            return Some(bytes);
        }
    }
    None
}

impl Files for MemoryFiles {
    ghost told = { λ m. Some m.files };

    ghost faults = { λ m. m.uses.faults };

    fn read_file(&mut self, name: &str, limit: u64, into: &mut Bytes) -> Result<Got, FileFault>
        ensures appended { result ≡ Ok Got.Whole → (bytes : List ℕ) × (length bytes ≤ limit)
            × (into.new ≡ into.old ++ bytes) }
        ensures kept { result ≢ Ok Got.Whole → into.new ≡ into.old }
        ensures whole { result ≡ Ok Got.Whole → IsRead (bytes_of self.old.files name.now) limit into.old into.new }
        ensures missing { result ≡ Ok Got.Missing → bytes_of self.old.files name.now ≡ None }
        ensures too_long { result ≡ Ok Got.TooLong → IsLonger (bytes_of self.old.files name.now) limit }
        ensures counts { Counts (IsErrOf result FileFault.Failed) self.old.uses.faults self.new.uses.faults }

        // It fails exactly where the use's number is among those that are to fail.
        ensures fails { fails_next self.old.uses ≡ true → result ≡ Err FileFault.Failed }
        ensures goes { fails_next self.old.uses ≡ false → result ≢ Err FileFault.Failed }
        ensures files { self.new.files ≡ self.old.files }
        ensures uses { self.new.uses ≡ (if fails_next self.old.uses then after_fault self.old.uses
            else after_use self.old.uses) }
    {
        if !self.uses.begin(true) {
            return Err(FileFault::Failed);
        }
        let Some(bytes) = file_of(self.files.as_slice(), name) else {
            return Ok(Got::Missing);
        };
        if limit < bytes.len() as u64 {
            return Ok(Got::TooLong);
        }
        match into.extend(bytes.as_slice()) {
            Ok(()) => Ok(Got::Whole),
            Err(_) => Err(FileFault::Memory),
        }
    }
}
