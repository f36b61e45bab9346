//! Files by name.
ghost use Rattle.std.specs.Prelude.{◌≡◌, ◌≢◌, ℕ, ◌≤◌, ◌++◌, List, Option, None, length, Ok, IfSome, IsErrOf};
ghost use Rattle.gw_base.specs.Count.{Counts};
ghost use Rattle.gw_base.specs.Directory.{bytes_of, IsRead, IsLonger};

use crate::list::Bytes;

/// What there is at a name.
#[derive(Clone, Copy, Debug, PartialEq, Eq)]
pub enum Got {
    /// A file of at most so many bytes, which were read.
    Whole,
    /// No file.
    Missing,
    /// A file of more bytes, of which none are kept.
    TooLong,
}

/// Why a file was not read.
#[derive(Clone, Copy, Debug, PartialEq, Eq)]
pub enum FileFault {
    /// The outside failed, and the count of faults rose.
    Failed,
    /// Want of memory.
    Memory,
}

/// Files by name, as a folder or a list in memory.
pub trait Files {
    /// The files, each name with its bytes, where they are told. Of two equal names the first counts.
    ghost told: { Self → Option (List (List ℕ × List ℕ)) };

    /// How many faults were met. The count never falls, and stands still at the last value of a u64.
    ghost faults: { Self → ℕ };

    /// Reads the file of that name, of at most `limit` bytes, after what is in `into`. On every other
    /// answer `into` stays as it was. No call changes the files.
    fn read_file(&mut self, name: &str, limit: u64, into: &mut Bytes) -> Result<Got, FileFault>
        ensures appended { result ≡ Ok Got.Whole → (bytes : List ℕ) × (length bytes ≤ limit)
            × (into.new ≡ into.old ++ bytes) }
        ensures kept { result ≢ Ok Got.Whole → into.new ≡ into.old }
        ensures whole { result ≡ Ok Got.Whole → IfSome (told self.old)
            (λ files. IsRead (bytes_of files name.now) limit into.old into.new) }
        ensures missing { result ≡ Ok Got.Missing → IfSome (told self.old) (λ files. bytes_of files name.now ≡ None) }
        ensures too_long { result ≡ Ok Got.TooLong → IfSome (told self.old)
            (λ files. IsLonger (bytes_of files name.now) limit) }
        ensures counts { Counts (IsErrOf result FileFault.Failed) (faults self.old) (faults self.new) }
        ensures same { told self.new ≡ told self.old };
}
