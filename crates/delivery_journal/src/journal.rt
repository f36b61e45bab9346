//! A journal over a disk: it is opened, read body by body, and appended to.
ghost use Rattle.std.specs.Prelude.{◌≡◌, ◌≢◌, ◌⊎◌, ◌+◌, ◌≤◌, ◌<◌, ℕ, List, true, false, length, take, IfOk, IfErr, OnOk, IsErr, Ok, Err, option_map, ◌++◌, None};
ghost use Rattle.gw_base.specs.Count.{Counts};
ghost use Rattle.gw_base.specs.Limits.{body_limit};
ghost use Rattle.delivery_journal.specs.Disk.{WhereTold, LeavesThis, ReadsOnly, Survives};
ghost use Rattle.delivery_journal.specs.Kept.{KeptBody, kept, found, magic, place_after};
ghost use Rattle.std.specs.Str.{bytes_eq};
ghost use Rattle.delivery_journal.specs.Standing.{StandsOn, Adds, Gives, HoldsWithOrWithout, new_file, opened_file, appended_file};

use crate::append_fault::AppendFault;
use crate::body_reading::{read_body, whole_at};
use crate::disk::Disk;
use crate::next_fault::NextFault;
use crate::open_fault::OpenFault;
use crate::reading::find_end;
use crate::writing::{open_gate, write_record};
use gw_base::{Bytes, Failed, Kind, Moment};
use std::marker::Model;

// The most bytes that the file of a journal may have: 1 TiB.
const FILE_LIMIT: u64 = 1_099_511_627_776;

/// A journal whose file lies on a disk. A contract sees the place of the closed gate behind its list, and whether it
/// is sound.
#[derive(Debug, Drop)]
pub struct Journal {
    end: u64,
    sound: bool,
}

impl Model for Journal {
    ghost use Rattle.delivery_journal.specs.Standing.{Standing};

    ghost Value = { Standing };

    ghost view = { λ j. record { end = j.end; is_sound = j.sound } };
}

impl Journal {
    /// Opens the file on the disk, which it brings onto the disk first. A file of at most 9 bytes is made anew, and
    /// holds nothing. Takes no memory.
    pub fn open<K: Disk>(disk: &mut K) -> Result<Journal, OpenFault>
        ensures sound { IfOk result (λ journal. journal.is_sound ≡ true) }
        ensures stands { IfOk result (λ journal. StandsOn K.told K.may_leave journal disk.new) }
        ensures file { OnOk result (K.told disk.new ≡ option_map opened_file (K.told disk.old)) }
        ensures list { OnOk result (WhereTold (K.told disk.old) (λ file. (bodies : List KeptBody)
            × (kept file ≡ Ok bodies) × (kept (opened_file file) ≡ Ok bodies))) }

        // NotJournal and Damaged come exactly where the file is so, unless the disk fails.
        ensures fault { IfErr result (λ fault. fault ≢ OpenFault.Disk → WhereTold (K.told disk.old)
            (λ file. kept file ≡ Err fault)) }

        // A crash in the call leaves what a crash before it might have left, or a file that holds the same.
        ensures any_moment { WhereTold (K.told disk.old) (λ file. Survives K.clock K.left_since disk.old disk.new
            (λ image. K.may_leave disk.old image ⊎ (kept image ≡ kept file))) }

        ensures counts { Counts (result ≡ Err OpenFault.Disk) (K.faults disk.old) (K.faults disk.new) }
    {
        let len = synced_len(disk)?;
        if len <= 9 {
            make_new(disk)?;
            return Ok(Journal {
                end: 8,
                sound: true,
            });
        }
        let end = find(disk, len)?;
        Ok(Journal { end, sound: true })
    }

    /// The body behind the gate at `at`, whose bytes take the place of those in `body`: its kind, its moment, and the
    /// place of the next gate. None at the closed gate behind the list.
    pub fn next<K: Disk>(
        &self,
        disk: &mut K,
        at: u64,
        body: &mut Bytes,
    ) -> Result<Option<(Kind, Moment, u64)>, NextFault>
        requires sound { self.now.is_sound ≡ true }
        requires stands { StandsOn K.told K.may_leave self.now disk.old }
        requires place { at ≤ self.now.end }
        ensures body { IfOk result (λ answer. WhereTold (K.told disk.old) (λ file. (before rest : List KeptBody)
            → kept file ≡ Ok (before ++ rest) → at ≡ place_after before → Gives rest at answer body.new)) }
        ensures end { at ≡ self.now.end → result ≡ Ok None }
        ensures stands { StandsOn K.told K.may_leave self.now disk.new }
        ensures reads { ReadsOnly K.told K.may_leave K.clock K.left_since disk.old disk.new }
        ensures counts { Counts (result ≡ Err NextFault.Disk) (K.faults disk.old) (K.faults disk.new) }
    {
        if at == self.end {
            return Ok(None);
        }
        let header = match whole_at(disk, at, self.end)? {
            Some(header) => header,
            None => return Err(NextFault::Memory),
        };
        read_body(disk, at + 14, header.count, body)?;
        Ok(Some((header.kind, header.moment, at + 14 + header.count)))
    }

    /// Appends a body of at most 16 MiB, with its kind and moment. When it answers Ok, every crash from then on leaves
    /// it. Full where the file would have more than 1 TiB, and then nothing was done. After a fault of the disk the
    /// journal isn't sound any more, and is to be opened again. Takes no memory.
    pub fn append<K: Disk>(
        &mut self,
        disk: &mut K,
        kind: Kind,
        moment: Moment,
        body: &[u8],
    ) -> Result<(), AppendFault>
        requires sound { self.old.is_sound ≡ true }
        requires stands { StandsOn K.told K.may_leave self.old disk.old }
        requires short { length body.now ≤ body_limit }

        ensures added { OnOk result (Adds (record { kind = kind; moment = moment; body = body.now })
            (K.told disk.old) (K.told disk.new)) }
        ensures ok { OnOk result (self.new
            ≡ record { end = self.old.end + 14 + length body.now; is_sound = true }) }
        ensures stands { result ≢ Err AppendFault.Disk → StandsOn K.told K.may_leave self.new disk.new }

        // A crash in the call leaves the bodies from before it, or those and the new one.
        ensures any_moment { WhereTold (K.told disk.old) (λ file. (bodies : List KeptBody) → kept file ≡ Ok bodies
            → Survives K.clock K.left_since disk.old disk.new
            (HoldsWithOrWithout bodies (record { kind = kind; moment = moment; body = body.now }))) }

        // Full comes exactly where the file would be too long, and then nothing was done.
        ensures full { 1099511627776 < self.old.end + 15 + length body.now
            → (result ≡ Err (AppendFault.Full self.old.end)) × (self.new ≡ self.old) × (disk.new ≡ disk.old) }
        ensures not_full { self.old.end + 15 + length body.now ≤ 1099511627776
            → (end : ℕ) → result ≢ Err (AppendFault.Full end) }

        ensures unsound { result ≡ Err AppendFault.Disk → self.new.is_sound ≡ false }
        ensures counts { Counts (result ≡ Err AppendFault.Disk) (K.faults disk.old) (K.faults disk.new) }

        // The file, byte by byte.
        ensures bytes { OnOk result (K.told disk.new ≡ option_map (appended_file self.old.end
            (record { kind = kind; moment = moment; body = body.now })) (K.told disk.old)) }
    {
        let _secs = moment.secs();
        if self.end > FILE_LIMIT - 15 - body.len() as u64 {
            return Err(AppendFault::Full(self.end));
        }
        self.sound = false;
        write_record(disk, self.end, kind, moment, body)?;
        open_gate(disk, self.end)?;
        self.end += 14 + body.len() as u64;
        self.sound = true;
        Ok(())
    }

    /// The place of the closed gate behind the list, in bytes from the file's beginning.
    pub fn end(&self) -> u64
        ensures value { result ≡ self.now.end }
    {
        self.end
    }

    /// Whether it may be used: it is, unless an `append` met a fault of the disk.
    pub fn is_sound(&self) -> bool
        ensures value { result ≡ self.now.is_sound }
    {
        self.sound
    }
}

// Brings all onto the disk, and asks for the file's length.
fn synced_len<K: Disk>(disk: &mut K) -> Result<u64, Failed>
    ensures len { IfOk result (λ len. WhereTold (K.told disk.old) (λ file. length file ≡ len)) }
    ensures on_disk { OnOk result (WhereTold (K.told disk.old) (λ file. LeavesThis file (K.may_leave disk.new))) }
    ensures reads { ReadsOnly K.told K.may_leave K.clock K.left_since disk.old disk.new }
    ensures counts { Counts (IsErr result) (K.faults disk.old) (K.faults disk.new) }
{
    disk.sync()?;
    disk.len()
}

// Makes a file of at most 9 bytes one that holds nothing.
fn make_new<K: Disk>(disk: &mut K) -> Result<(), Failed>
    requires { WhereTold (K.told disk.old) (λ file. length file ≤ 9) }
    ensures file { OnOk result (K.told disk.new ≡ option_map (λ _. new_file) (K.told disk.old)) }
    ensures on_disk { OnOk result (WhereTold (K.told disk.new) (λ file. LeavesThis file (K.may_leave disk.new))) }
    ensures any_moment { (file : List ℕ) → length file ≤ 9 → LeavesThis file (K.may_leave disk.old)
        → Survives K.clock K.left_since disk.old disk.new (λ image. length image ≤ 9) }
    ensures counts { Counts (IsErr result) (K.faults disk.old) (K.faults disk.new) }
{
    disk.write_at(0, b"GWJRNL01\0")?;
    disk.sync()
}

// Whether the file, of more than 9 bytes, begins as a journal does.
fn has_magic<K: Disk>(disk: &mut K) -> Result<bool, Failed>
    requires { WhereTold (K.told disk.old) (λ file. 9 < length file) }
    ensures magic { IfOk result (λ is. WhereTold (K.told disk.old) (λ file. is ≡ bytes_eq (take 8 file) magic)) }
    ensures reads { ReadsOnly K.told K.may_leave K.clock K.left_since disk.old disk.new }
    ensures counts { Counts (IsErr result) (K.faults disk.old) (K.faults disk.new) }
{
    let mut bytes = [0u8; 8];
    disk.read_at(0, &mut bytes)?;
    Ok(bytes.as_slice() == b"GWJRNL01".as_slice())
}

// The closed gate of the list in a file of that length, which is more than 9 bytes, or why there is none.
fn find<K: Disk>(disk: &mut K, len: u64) -> Result<u64, OpenFault>
    requires long { 9 < len }
    requires length { WhereTold (K.told disk.old) (λ file. length file ≡ len) }
    ensures found { IfOk result (λ end. WhereTold (K.told disk.old) (λ file. (bodies : List KeptBody)
        × (found file ≡ Ok (record { bodies = bodies; end = end })))) }
    ensures fault { IfErr result (λ fault. fault ≢ OpenFault.Disk → WhereTold (K.told disk.old)
        (λ file. found file ≡ Err fault)) }
    ensures reads { ReadsOnly K.told K.may_leave K.clock K.left_since disk.old disk.new }
    ensures counts { Counts (result ≡ Err OpenFault.Disk) (K.faults disk.old) (K.faults disk.new) }
{
    if !has_magic(disk)? {
        return Err(OpenFault::NotJournal);
    }
    find_end(disk, len)
}
