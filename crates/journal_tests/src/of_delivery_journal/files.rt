//! The files of the rows, and disks with them.

use delivery_journal::MemoryDisk;
use gw_base::List;
use std::alloc::Global;
use std::process::Abort;

/// A delivery of 53 bytes.
pub const BODY: &[u8] = br#"{"ServiceDelivery":{"EstimatedTimetableDelivery":[]}}"#;

/// The file of a journal that holds nothing.
pub const NEW: &[u8] = b"\x47\x57\x4a\x52\x4e\x4c\x30\x31\x00";

/// The file of a journal that holds that body as a delivery of estimated timetables at 1714543200.
pub const AFTER_ONE: &[u8] =
    b"\x47\x57\x4a\x52\x4e\x4c\x30\x31\x01\x01\x00\x00\x00\x00\x66\x31\xda\x60\x00\x00\x00\x35\
    {\"ServiceDelivery\":{\"EstimatedTimetableDelivery\":[]}}\x00";

/// A disk with this file, of which the calls with these numbers fail.
pub fn disk_of(rt: &impl Abort, alloc: Global, file: &[u8], fails: &[u64]) -> MemoryDisk {
    let mut numbers = List::new(alloc);
    for number in fails {
        let added = numbers.push(*number);
        assert!(rt; added.is_ok());
    }
    let made = MemoryDisk::make(alloc, file, 4_096, 256, numbers);
    made.expect(rt, "memory")
}
