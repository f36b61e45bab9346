//! A disk with one file, as far as a journal needs it: what a read gives, and what a crash may leave.
ghost use Rattle.std.specs.Prelude.{◌≡◌, ℕ, ◌≤◌, ◌+◌, List, Option, IfOk, OnOk, IsErr, length, take, drop, option_map};
ghost use Rattle.gw_base.specs.Count.{Counts};
ghost use Rattle.delivery_journal.specs.Disk.{with_bytes_at, Torn, ComeBy, NoMore, LeavesThis, Passes, WhereTold, Changes};

use gw_base::Failed;

/// A file on a disk. Between two syncs that went well a crash may leave any bytes in each range that was written, and
/// past the old end, byte by byte; the others stay. After a sync that went well a crash leaves what a read gives.
/// A disk may tell its file, as one in memory does, or not, as the real one.
pub trait Disk {
    /// What a read gives, where it tells: the bytes of the file.
    ghost told: { Self → Option (List ℕ) };

    /// The images that a crash now may leave.
    ghost may_leave: { Self → List ℕ → Type 0 };

    /// Its clock, which counts its changes.
    ghost clock: { Self → ℕ };

    /// The images that a crash at some moment since that reading of the clock may have left, in a call or between two.
    ghost left_since: { Self → ℕ → List ℕ → Type 0 };

    /// How many faults it met. The count never falls, and stands still at the last value of a u64.
    ghost faults: { Self → ℕ };

    /// How many bytes the file has.
    fn len(&mut self) -> Result<u64, Failed>
        ensures value { IfOk result (λ len. WhereTold (told self.old) (λ file. len ≡ length file)) }
        ensures same { told self.new ≡ told self.old }
        ensures images { NoMore (may_leave self.old) (may_leave self.new) }
        ensures time { Passes (clock self.old) (clock self.new) (left_since self.old) (left_since self.new)
            (may_leave self.new) }
        ensures counts { Counts (IsErr result) (faults self.old) (faults self.new) };

    /// Reads the bytes from that place on into the whole of `into`. They lie inside the file.
    fn read_at(&mut self, at: u64, into: &mut [u8]) -> Result<(), Failed>
        requires inside { WhereTold (told self.old) (λ file. at + length into.old ≤ length file) }
        ensures bytes { OnOk result (WhereTold (told self.old)
            (λ file. into.new ≡ take (length into.old) (drop at file))) }
        ensures same { told self.new ≡ told self.old }
        ensures images { NoMore (may_leave self.old) (may_leave self.new) }
        ensures time { Passes (clock self.old) (clock self.new) (left_since self.old) (left_since self.new)
            (may_leave self.new) }
        ensures counts { Counts (IsErr result) (faults self.old) (faults self.new) };

    /// Writes the bytes at that place, over what stands there and past the end. After a failure any bytes may stand in
    /// their range.
    fn write_at(&mut self, at: u64, bytes: &[u8]) -> Result<(), Failed>
        requires inside { WhereTold (told self.old) (λ file. at ≤ length file) }
        ensures put { OnOk result (told self.new
            ≡ option_map (λ file. with_bytes_at file at bytes.now) (told self.old)) }
        ensures range { Changes (Torn at (length bytes.now)) (told self.old) (told self.new) }
        ensures images { ComeBy (Torn at (length bytes.now)) (may_leave self.old) (may_leave self.new) }
        ensures time { Passes (clock self.old) (clock self.new) (left_since self.old) (left_since self.new)
            (may_leave self.new) }
        ensures counts { Counts (IsErr result) (faults self.old) (faults self.new) };

    /// Brings all that was written onto the disk: when it went well, a crash leaves what a read gives.
    fn sync(&mut self) -> Result<(), Failed>
        ensures on_disk { OnOk result (WhereTold (told self.old) (λ file. LeavesThis file (may_leave self.new))) }
        ensures same { told self.new ≡ told self.old }
        ensures images { NoMore (may_leave self.old) (may_leave self.new) }
        ensures time { Passes (clock self.old) (clock self.new) (left_since self.old) (left_since self.new)
            (may_leave self.new) }
        ensures counts { Counts (IsErr result) (faults self.old) (faults self.new) };

    /// The file as it reads is one of the images that a crash now may leave.
    ghost reads_as_left: { (disk : Self) (file : List ℕ) → told disk ≡ Option.Some file → may_leave disk file };

    /// What a crash now may leave is among what a crash since any reading of the clock may have left.
    ghost now_counts: { (disk : Self) (since : ℕ) (image : List ℕ) → since ≤ clock disk → may_leave disk image
        → left_since disk since image };

    /// Since the clock's present reading there is no moment but now.
    ghost only_now: { (disk : Self) (image : List ℕ) → left_since disk (clock disk) image → may_leave disk image };
}
