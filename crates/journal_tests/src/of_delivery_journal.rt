//! A journal and the disk in memory: what the file holds byte by byte, and what of it is read again.
ghost use Rattle.std.specs.Prelude.{◌≡◌, true};
ghost use Rattle.delivery_journal.specs.Standing.{StandsOn};

mod crashes;
mod damage;
mod far_end;
pub mod files;
mod memory_disk;

use delivery_journal::*;
use files::{AFTER_ONE, BODY, NEW, disk_of};
use gw_base::{BODY_LIMIT, Bytes, Kind, Moment};
use std::alloc::Global;
use std::process::Abort;

// A body with its kind, and its moment in seconds since 1970.
pub type Row = (Kind, i64, &'static [u8]);

// Whether the journal gives these bodies, in this order, and no other.
fn gives<K: Disk>(alloc: Global, journal: &Journal, disk: &mut K, wanted: &[Row]) -> bool
    requires sound { journal.now.is_sound ≡ true }
    requires stands { StandsOn K.told K.may_leave journal.now disk.old }
{
    let mut at = 8u64;
    let mut body = Bytes::new(alloc);
    for row in wanted {
        if at > journal.end() {
            return false;
        }
        match journal.next(disk, at, &mut body) {
            Ok(Some((kind, moment, next))) => {
                if kind != row.0 || moment.secs() != row.1 || body.as_slice() != row.2 {
                    return false;
                }
                at = next;
            }
            Ok(None) | Err(_) => return false,
        }
    }
    at == journal.end() && journal.next(disk, at, &mut body) == Ok(None)
}

// The place of the closed gate of a journal that gives these bodies. None where it gives others.
pub fn opened<K: Disk>(
    alloc: Global,
    disk: &mut K,
    wanted: &[Row],
) -> Result<Option<u64>, OpenFault> {
    let journal = Journal::open(disk)?;
    if journal.is_sound() && gives(alloc, &journal, disk, wanted) {
        Ok(Some(journal.end()))
    } else {
        Ok(None)
    }
}

// Appends a body, if it isn't too long, and answers whether it is kept.
fn keep<K: Disk>(journal: &mut Journal, disk: &mut K, row: &Row) -> bool
    requires sound { journal.old.is_sound ≡ true }
    requires stands { StandsOn K.told K.may_leave journal.old disk.old }
    ensures sound { result ≡ true → journal.new.is_sound ≡ true }
    ensures stands { result ≡ true → StandsOn K.told K.may_leave journal.new disk.new }
{
    let (kind, secs, body) = *row;
    let Some(moment) = Moment::new(secs) else {
        return false;
    };
    if body.len() as u64 > BODY_LIMIT {
        return false;
    }
    journal.append(disk, kind, moment, body).is_ok()
}

// Opens the journal and appends the bodies, as long as the disk doesn't fail. Answers how many are kept; None where it
// wasn't opened.
pub fn keep_all<K: Disk>(disk: &mut K, rows: &[Row]) -> Option<usize> {
    let Ok(mut journal) = Journal::open(disk) else {
        return None;
    };
    let mut count = 0usize;
    for row in rows {
        if !keep(&mut journal, disk, row) {
            return Some(count);
        }
        count = count.saturating_add(1);
    }
    Some(count)
}

static EMPTY: [&[u8]; 11] = [
    b"",
    b"G",
    b"GW",
    b"\0\0\0",
    b"GWJR",
    b"\xff\xff\xff\xff\xff",
    b"GWJRNL",
    b"GWJRNL0",
    b"GWJRNL01",
    b"GWJRNL01\0",
    b"NOJRNL99\x01",
];

// A file of at most 9 bytes is made anew.
fn try_short(rt: &impl Abort, alloc: Global, file: &[u8]) {
    let mut disk = disk_of(rt, alloc, file, &[]);
    assert_eq!(rt; opened(alloc, &mut disk, &[]), Ok(Some(8)));
    assert_eq!(rt; disk.file(), NEW);
}

fn each_short(rt: &impl Abort, alloc: Global, files: &[&[u8]]) {
    for file in files {
        try_short(rt, alloc, file);
    }
}

#[test]
fn a_file_of_at_most_nine_bytes_is_made_anew(rt: HostRuntime) {
    each_short(&rt, rt.alloc(), &EMPTY);
}

pub const FIRST: Row = (Kind::Estimated, 1_714_543_200, BODY);

#[test]
fn a_body_is_appended_byte_by_byte(rt: HostRuntime) {
    let alloc = rt.alloc();
    let mut disk = disk_of(&rt, alloc, b"", &[]);
    assert_eq!(rt; keep_all(&mut disk, &[FIRST]), Some(1));
    assert_eq!(rt; disk.file().len(), 76);
    assert_eq!(rt; disk.file(), AFTER_ONE);
    assert_eq!(rt; opened(alloc, &mut disk, &[FIRST]), Ok(Some(75)));
}
