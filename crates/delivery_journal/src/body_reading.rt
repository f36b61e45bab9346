//! The body of a record, read off a disk.
ghost use Rattle.std.specs.Prelude.{◌≡◌, ◌+◌, ◌≤◌, ◌<◌, ◌++◌, length, take, drop, OnOk, IfOk, IfSome, IsErr, Err, Some};
ghost use Rattle.gw_base.specs.Count.{Counts};
ghost use Rattle.delivery_journal.specs.declared.header.Header.{Header};
ghost use Rattle.delivery_journal.specs.Disk.{WhereTold, ReadsOnly};
ghost use Rattle.delivery_journal.specs.Kept.{header_of};

use crate::disk::Disk;
use crate::header::Header;
use crate::next_fault::NextFault;
use crate::reading::header_at;
use gw_base::{Bytes, Failed};

// The header of a record that ends at or before the place `end`, behind the gate at `at`.
pub fn whole_at<K: Disk>(disk: &mut K, at: u64, end: u64) -> Result<Option<Header>, Failed>
    requires before { at ≤ end }
    requires inside { WhereTold (K.told disk.old) (λ file. end ≤ length file) }
    ensures header { IfOk result (λ found. WhereTold (K.told disk.old) (λ file. (h : Header)
        → header_of (drop (at + 1) file) ≡ Some h → at + 14 + h.count ≤ end → found ≡ Some h)) }
    ensures fits { IfOk result (λ found. IfSome found (λ h. at + 14 + h.count ≤ end)) }
    ensures reads { ReadsOnly K.told K.may_leave K.clock K.left_since disk.old disk.new }
    ensures counts { Counts (IsErr result) (K.faults disk.old) (K.faults disk.new) }
{
    let left = end - at;
    if left < 14 {
        return Ok(None);
    }
    let header = header_at(disk, at)?;
    Ok(fitting(header, left - 14))
}

// The header, if its body has at most so many bytes.
fn fitting(header: Option<Header>, most: u64) -> Option<Header>
    ensures some { IfSome header (λ h. h.count ≤ most → result ≡ header) }
    ensures fits { IfSome result (λ h. h.count ≤ most) }
{
    match header {
        None => None,
        Some(header) => {
            if header.count <= most {
                Some(header)
            } else {
                None
            }
        }
    }
}

// Reads so many bytes from a place on, in the place of what is in `body`.
pub fn read_body<K: Disk>(
    disk: &mut K,
    at: u64,
    count: u64,
    body: &mut Bytes,
) -> Result<(), NextFault>
    requires inside { WhereTold (K.told disk.old) (λ file. at + count ≤ length file) }
    requires small { at + count < 18446744073709551616 }
    ensures body { OnOk result (WhereTold (K.told disk.old) (λ file. body.new ≡ take count (drop at file))) }
    ensures reads { ReadsOnly K.told K.may_leave K.clock K.left_since disk.old disk.new }
    ensures counts { Counts (result ≡ Err NextFault.Disk) (K.faults disk.old) (K.faults disk.new) }
{
    body.clear();
    let mut room = [0u8; 4096];
    let mut done: u64 = 0;
    while done < count {
        let piece = (count - done).min(4096);
        read_piece(disk, at + done, room.as_mut_slice(), piece as usize, body)?;
        done += piece;
    }
    Ok(())
}

// Reads so many bytes from a place on, behind what is in `body`, by way of `room`.
fn read_piece<K: Disk>(
    disk: &mut K,
    at: u64,
    room: &mut [u8],
    count: usize,
    body: &mut Bytes,
) -> Result<(), NextFault>
    requires fits { count ≤ length room.old }
    requires inside { WhereTold (K.told disk.old) (λ file. at + count ≤ length file) }
    ensures body { OnOk result (WhereTold (K.told disk.old)
        (λ file. body.new ≡ body.old ++ take count (drop at file))) }
    ensures reads { ReadsOnly K.told K.may_leave K.clock K.left_since disk.old disk.new }
    ensures counts { Counts (result ≡ Err NextFault.Disk) (K.faults disk.old) (K.faults disk.new) }
{
    let (piece, _) = room.split_at_mut(count);
    disk.read_at(at, piece)?;
    body.extend(piece)?;
    Ok(())
}
