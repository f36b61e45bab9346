//! The two steps in which a body is appended: all of it is written behind the closed gate, and then the gate is opened.
ghost use Rattle.std.specs.Prelude.{◌≡◌, ◌+◌, ◌≤◌, ◌<◌, option_map, length, take, [], ◌∷◌, ◌++◌, OnOk, IsErr};
ghost use Rattle.gw_base.specs.Count.{Counts};
ghost use Rattle.delivery_journal.specs.Disk.{WhereTold, LeavesThis, Survives, Torn, with_bytes_at};
ghost use Rattle.delivery_journal.specs.HeaderBytes.{header_bytes};

use crate::disk::Disk;
use crate::header::write_header;
use gw_base::{Failed, Kind, Moment};

// Writes a record without its gate, and a closed gate behind it, behind the closed gate at `end`, and brings all of it
// onto the disk. A crash meanwhile leaves a file that is the same up to that gate.
pub fn write_record<K: Disk>(
    disk: &mut K,
    end: u64,
    kind: Kind,
    moment: Moment,
    body: &[u8],
) -> Result<(), Failed>
    requires inside { WhereTold (K.told disk.old) (λ file. end < length file) }
    requires short { length body.now ≤ 16777216 }
    requires room { end + 15 + length body.now ≤ 1099511627776 }
    ensures file { OnOk result (K.told disk.new ≡ option_map (λ file. with_bytes_at file (end + 1)
        (header_bytes kind moment (length body.now) ++ body.now ++ 0 ∷ [])) (K.told disk.old)) }
    ensures on_disk { OnOk result (WhereTold (K.told disk.new) (λ file. LeavesThis file (K.may_leave disk.new))) }
    ensures any_moment { WhereTold (K.told disk.old) (λ file. LeavesThis file (K.may_leave disk.old)
        → Survives K.clock K.left_since disk.old disk.new (λ image. take (end + 1) image ≡ take (end + 1) file)) }
    ensures counts { Counts (IsErr result) (K.faults disk.old) (K.faults disk.new) }
{
    let count = body.len() as u32;
    let behind = end + 14 + body.len() as u64;
    disk.write_at(end + 1, &write_header(kind, moment, count))?;
    disk.write_at(end + 14, body)?;
    disk.write_at(behind, &[0])?;
    disk.sync()
}

// Opens the gate at `end` by a write of its own, and brings it onto the disk. A crash meanwhile leaves any byte there,
// and all else.
pub fn open_gate<K: Disk>(disk: &mut K, end: u64) -> Result<(), Failed>
    requires inside { WhereTold (K.told disk.old) (λ file. end < length file) }
    ensures file { OnOk result (K.told disk.new
        ≡ option_map (λ file. with_bytes_at file end (1 ∷ [])) (K.told disk.old)) }
    ensures on_disk { OnOk result (WhereTold (K.told disk.new) (λ file. LeavesThis file (K.may_leave disk.new))) }
    ensures any_moment { WhereTold (K.told disk.old) (λ file. LeavesThis file (K.may_leave disk.old)
        → Survives K.clock K.left_since disk.old disk.new (λ image. Torn end 1 file image)) }
    ensures counts { Counts (IsErr result) (K.faults disk.old) (K.faults disk.new) }
{
    disk.write_at(end, &[1])?;
    disk.sync()
}
