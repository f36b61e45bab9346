//! What stands at a gate's place, read off a disk.
ghost use Rattle.std.specs.Prelude.{◌≡◌, ◌≢◌, ◌+◌, ◌≤◌, ◌<◌, List, length, drop, ◌∷◌, None, Some, IfOk, IfErr, IfSome, IsErr, MatchOption, Ok, Err};
ghost use Rattle.gw_base.specs.Count.{Counts};
ghost use Rattle.delivery_journal.specs.Disk.{WhereTold, ReadsOnly};
ghost use Rattle.delivery_journal.specs.Kept.{KeptBody, header_of, record_of, found_from};

use crate::disk::Disk;
use crate::header::{Header, read_header};
use crate::open_fault::OpenFault;
use gw_base::Failed;

// The gate at a place inside the file.
pub fn gate_at<K: Disk>(disk: &mut K, at: u64) -> Result<u8, Failed>
    requires inside { WhereTold (K.told disk.old) (λ file. at < length file) }
    ensures gate { IfOk result (λ gate. WhereTold (K.told disk.old)
        (λ file. drop at file ≡ gate ∷ drop (at + 1) file)) }
    ensures reads { ReadsOnly K.told K.may_leave K.clock K.left_since disk.old disk.new }
    ensures counts { Counts (IsErr result) (K.faults disk.old) (K.faults disk.new) }
{
    let mut gate = [0u8; 1];
    disk.read_at(at, &mut gate)?;
    Ok(gate[0])
}

// The header behind a gate whose header lies inside the file.
pub fn header_at<K: Disk>(disk: &mut K, at: u64) -> Result<Option<Header>, Failed>
    requires inside { WhereTold (K.told disk.old) (λ file. at + 14 ≤ length file) }
    requires small { at + 14 < 18446744073709551616 }
    ensures header { IfOk result (λ header. WhereTold (K.told disk.old)
        (λ file. header ≡ header_of (drop (at + 1) file))) }
    ensures reads { ReadsOnly K.told K.may_leave K.clock K.left_since disk.old disk.new }
    ensures counts { Counts (IsErr result) (K.faults disk.old) (K.faults disk.new) }
{
    let mut bytes = [0u8; 13];
    disk.read_at(at + 1, &mut bytes)?;
    Ok(read_header(&bytes))
}

// The place behind the record of an open gate, in a file of that length; None where no whole record stands there.
pub fn end_of_record<K: Disk>(disk: &mut K, at: u64, len: u64) -> Result<Option<u64>, Failed>
    requires inside { at < len }
    requires length { WhereTold (K.told disk.old) (λ file. length file ≡ len) }
    ensures end { IfOk result (λ end. WhereTold (K.told disk.old) (λ file. MatchOption end
        (record_of (drop (at + 1) file) ≡ None)
        (λ next. (kept : KeptBody) × (record_of (drop (at + 1) file) ≡ Some kept)
        × (next ≡ at + 14 + length kept.body)))) }
    ensures within { IfOk result (λ end. IfSome end (λ next. (at < next) × (next ≤ len))) }
    ensures reads { ReadsOnly K.told K.may_leave K.clock K.left_since disk.old disk.new }
    ensures counts { Counts (IsErr result) (K.faults disk.old) (K.faults disk.new) }
{
    let left = len - at;
    if left < 14 {
        return Ok(None);
    }
    let header = header_at(disk, at)?;
    Ok(end_behind(header, at, left))
}

// The place behind a record with this header, if its body ends within so many bytes from its gate on.
fn end_behind(header: Option<Header>, at: u64, left: u64) -> Option<u64>
    requires room { 14 ≤ left }
    requires small { at + left < 18446744073709551616 }
    ensures none { header ≡ None → result ≡ None }
    ensures some { IfSome header (λ h. MatchOption result (left < 14 + h.count)
        (λ end. (14 + h.count ≤ left) × (end ≡ at + 14 + h.count))) }
{
    match header {
        None => None,
        Some(header) => {
            if header.count <= left - 14 {
                Some(at + 14 + header.count)
            } else {
                None
            }
        }
    }
}

// The closed gate of the list that begins at place 8, in a file of that length, or the damage before it.
pub fn find_end<K: Disk>(disk: &mut K, len: u64) -> Result<u64, OpenFault>
    requires length { WhereTold (K.told disk.old) (λ file. length file ≡ len) }
    ensures found { IfOk result (λ end. WhereTold (K.told disk.old) (λ file. (bodies : List KeptBody)
        × (found_from 0 8 (drop 8 file) ≡ Ok (record { bodies = bodies; end = end })))) }
    ensures fault { IfErr result (λ fault. fault ≢ OpenFault.Disk → WhereTold (K.told disk.old)
        (λ file. found_from 0 8 (drop 8 file) ≡ Err fault)) }
    ensures reads { ReadsOnly K.told K.may_leave K.clock K.left_since disk.old disk.new }
    ensures counts { Counts (result ≡ Err OpenFault.Disk) (K.faults disk.old) (K.faults disk.new) }
{
    let mut at: u64 = 8;
    while at < len {
        let gate = gate_at(disk, at)?;
        if gate == 0 {
            return Ok(at);
        }
        match end_of_record(disk, at, len)? {
            None => return Err(OpenFault::Damaged(at)),
            Some(next) => at = next,
        }
    }
    Err(OpenFault::Damaged(at))
}
