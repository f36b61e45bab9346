//! A disk in memory.
ghost use Rattle.std.specs.Prelude.{◌≡◌, ◌≢◌, ◌<◌, ◌≤◌, ◌+◌, ◌∷◌, ◌++◌, [], true, false, not, if◌then◌else◌, length, Ok, Some, None, IfOk, IfSome, vec_len, vec_capacity};
ghost use Rattle.gw_base.specs.Count.{Counts};
ghost use Rattle.gw_base.specs.Memory.{fails_next, after_use, after_fault};
ghost use Rattle.delivery_journal.specs.Disk.{with_bytes_at};
ghost use Rattle.delivery_journal.specs.CrashImages.{calls_of, bytes_of, unsynced, crash_image, image_count};
ghost use Rattle.delivery_journal.specs.DiskInMemory.{content_now, IsImage, LeftSince, written_count, recorded, has_room, IsNoted};

use crate::call::{Call, Op, Record};
use crate::disk::Disk;
use gw_base::{Bytes, Failed, List};
use std::alloc::{AllocError, Global};
use std::marker::Model;

// The uses so far, and the numbers of those that are to fail.
#[derive(Debug, Drop)]
struct Uses {
    fails: List<u64>,
    made: u64,
    faults: u64,
}

impl Model for Uses {
    ghost use Rattle.gw_base.specs.Memory.{Uses as Seen};

    ghost Value = { Seen };

    ghost view = { λ u. record { fails = u.fails; made = u.made; faults = u.faults } };
}

impl Uses {
    // Counts one more use; false where it is to fail, or can't be done.
    fn begin(&mut self, can: bool) -> bool
        ensures goes { result ≡ (if fails_next self.old then false else can) }
        ensures counted { self.new ≡ (if result then after_use self.old else after_fault self.old) }
        ensures counts { Counts (result ≡ false) self.old.faults self.new.faults }
    {
        self.made = self.made.saturating_add(1);
        let goes = !self.fails.as_slice().contains(&self.made) && can;
        if !goes {
            self.faults = self.faults.saturating_add(1);
        }
        goes
    }
}

/// A disk in memory of a stated room, with the numbers of the calls that are to fail. It tells its file, and it keeps
/// a record of all calls. A write that is to fail puts the first half of its bytes. A call that doesn't fit in the
/// room that is left is a fault, and does nothing. A contract sees the file that it began with, the record, and the
/// uses.
#[derive(Debug, Drop)]
pub struct MemoryDisk {
    start: Bytes,
    file: Vec<u8>,
    calls: Record,
    uses: Uses,
}

impl Model for MemoryDisk {
    ghost use Rattle.std.specs.Prelude.{◌≡◌, ◌+◌, ◌≤◌, vec_len, vec_capacity};
    ghost use Rattle.delivery_journal.specs.DiskInMemory.{DiskInMemory, content_after};

    ghost Value = { DiskInMemory };

    ghost view = { λ d. record { start = d.start; calls = d.calls; uses = d.uses } };

    ghost invariant = { λ d. (d.file.items ≡ (content_after d.start d.calls.done).file)
        × (vec_len d.file + d.calls.room ≤ vec_capacity d.file) };
}

impl MemoryDisk {
    /// A disk with this file on it, which takes `calls` calls, whose writes have at most `room` bytes together. `fails`
    /// has the numbers, from 1, of the calls that are to fail. All memory is taken at once.
    pub fn make(
        alloc: Global,
        file: &[u8],
        room: u32,
        calls: u32,
        fails: List<u64>,
    ) -> Result<MemoryDisk, AllocError>
        ensures made { IfOk result (λ disk. disk ≡ record {
          start = file.now;
          calls = record { done = []; calls_left = calls; room = room };
          uses = record { fails = fails; made = 0; faults = 0 };
        }) }
    {
        let mut content = Vec::with_capacity(alloc, file.len().saturating_add(room as usize))?;
        content.extend_from_slice(file)?;
        Ok(MemoryDisk {
            start: List::copied(alloc, file)?,
            file: content,
            calls: Record::with_room(alloc, calls as usize, room as usize)?,
            uses: Uses {
                fails,
                made: 0,
                faults: 0,
            },
        })
    }

    /// The file as it reads.
    pub fn file(&self) -> &[u8]
        ensures same { result.now ≡ (content_now self.now).file }
    {
        self.file.as_slice()
    }

    /// The calls so far, in order, but for those for which there was no room.
    pub fn calls(&self) -> &[Call]
        ensures same { result.now ≡ calls_of self.now.calls.done }
    {
        self.calls.calls()
    }

    /// The bytes that the writes were to put, one after the other.
    pub fn bytes_to_write(&self) -> &[u8]
        ensures same { result.now ≡ bytes_of self.now.calls.done }
    {
        self.calls.bytes()
    }

    /// The file that a crash now leaves, by a number. Its digits to the base 5 say, from the lowest on, what of each
    /// write since the last sync that went well is on the disk: nothing (0), all (1), its first half (2), or `fill` in
    /// the place of each of its bytes (3) or of those of its first half (4). The numbers repeat past `image_count`.
    pub fn image(&self, alloc: Global, number: u64, fill: u8) -> Result<Bytes, AllocError>
        ensures image { IfOk result (λ image. image ≡ crash_image number fill (unsynced self.now.calls.done)
            (content_now self.now).on_disk) }
        ensures may_be_left { IfOk result (λ image. IsImage (content_now self.now) image) }
    {
        self.calls.image(alloc, self.start.as_slice(), number, fill)
    }

    /// How many numbers of images there are: 5 to the power of the count of the writes since the last sync that went
    /// well, and at most the last value of a u64.
    pub fn image_count(&self) -> u64
        ensures value { result ≡ image_count (unsynced self.now.calls.done) }
    {
        self.calls.image_count()
    }
}

// Notes a call, if there is room for it, and answers whether it goes well.
fn note(
    calls: &mut Record,
    uses: &mut Uses,
    op: Op,
    at: u64,
    count: u64,
    bytes: &[u8],
) -> Option<bool>
    requires count { written_count (record { op = op; at = at; count = count; went = true }) ≡ length bytes.now }
    ensures none { has_room calls.old (length bytes.now) ≡ false
        → (result ≡ None) × (calls.new ≡ calls.old) × (uses.new ≡ after_fault uses.old) }
    ensures some { has_room calls.old (length bytes.now) ≡ true
        → (result ≡ Some (not (fails_next uses.old)))
        × (calls.new ≡ recorded calls.old (record {
          call = record { op = op; at = at; count = count; went = not (fails_next uses.old) };
          bytes = bytes.now;
        }))
        × (uses.new ≡ (if fails_next uses.old then after_fault uses.old else after_use uses.old)) }
    ensures added { IfSome result (λ went. calls.new.done ≡ calls.old.done ++ record {
      call = record { op = op; at = at; count = count; went = went };
      bytes = bytes.now;
    } ∷ []) }
    ensures noted { IsNoted op at count bytes.now calls.old.done calls.new.done }
    ensures counts { Counts (result ≢ Some true) uses.old.faults uses.new.faults }
{
    if !calls.has_room(bytes.len()) {
        uses.begin(false);
        return None;
    }
    let went = uses.begin(true);
    calls.add(
        Call {
            op,
            at,
            count,
            went,
        },
        bytes,
    );
    Some(went)
}

// Puts one byte at its place in the file, or at its end, within its room.
fn put_byte(file: &mut Vec<u8>, at: usize, byte: u8)
    requires place { at ≤ vec_len file.old }
    requires room { vec_len file.old < vec_capacity file.old }
    ensures put { file.new.items ≡ with_bytes_at file.old.items at (byte ∷ []) }
    ensures place { at < vec_len file.new }
    ensures longer { vec_len file.old ≤ vec_len file.new }
    ensures len { vec_len file.new ≤ vec_len file.old + 1 }
    ensures room { vec_capacity file.old ≤ vec_capacity file.new }
{
    if at < file.len() {
        file[at] = byte;
    } else {
        file.push(byte).unwrap();
    }
}

// Puts the bytes at their place in the file, within its room.
fn put_bytes(file: &mut Vec<u8>, at: usize, bytes: &[u8])
    requires place { at ≤ vec_len file.old }
    requires room { vec_len file.old + length bytes.now ≤ vec_capacity file.old }
    ensures put { file.new.items ≡ with_bytes_at file.old.items at bytes.now }
    ensures len { vec_len file.new ≤ vec_len file.old + length bytes.now }
    ensures room { vec_capacity file.old ≤ vec_capacity file.new }
{
    let mut place = at;
    for byte in bytes {
        put_byte(file, place, *byte);
        place += 1;
    }
}

impl Disk for MemoryDisk {
    ghost use Rattle.std.specs.Prelude.{◌≡◌, length};
    ghost use Rattle.delivery_journal.specs.CrashImages.{calls_of, bytes_of, unsynced, crash_image, image_count};
    ghost use Rattle.delivery_journal.specs.DiskInMemory.{content_now, IsImage, LeftSince};
    ghost use Rattle.delivery_journal.specs.ImageLaws.{reads_as_left, is_left_now, only_left_now};

    ghost told = { λ d. Some (content_now d).file };

    ghost may_leave = { λ d image. IsImage (content_now d) image };

    ghost clock = { λ d. length d.calls.done };

    ghost left_since = { λ d since image. LeftSince d since image };

    ghost faults = { λ d. d.uses.faults };

    ghost reads_as_left = { reads_as_left };

    ghost now_counts = { is_left_now };

    ghost only_now = { only_left_now };

    fn len(&mut self) -> Result<u64, Failed> {
        match note(&mut self.calls, &mut self.uses, Op::Len, 0, 0, &[]) {
            Some(true) => Ok(self.file.len() as u64),
            _ => Err(Failed),
        }
    }

    fn read_at(&mut self, at: u64, into: &mut [u8]) -> Result<(), Failed> {
        let count = into.len();
        match note(
            &mut self.calls,
            &mut self.uses,
            Op::Read,
            at,
            count as u64,
            &[],
        ) {
            Some(true) => {
                let (_, behind) = self.file.as_slice().split_at(at as usize);
                let (bytes, _) = behind.split_at(count);
                into.copy_from_slice(bytes);
                Ok(())
            }
            _ => Err(Failed),
        }
    }

    fn write_at(&mut self, at: u64, bytes: &[u8]) -> Result<(), Failed> {
        match note(
            &mut self.calls,
            &mut self.uses,
            Op::Write,
            at,
            bytes.len() as u64,
            bytes,
        ) {
            None => Err(Failed),
            Some(true) => {
                put_bytes(&mut self.file, at as usize, bytes);
                Ok(())
            }
            Some(false) => {
                let (half, _) = bytes.split_at(bytes.len() / 2);
                put_bytes(&mut self.file, at as usize, half);
                Err(Failed)
            }
        }
    }

    fn sync(&mut self) -> Result<(), Failed> {
        match note(&mut self.calls, &mut self.uses, Op::Sync, 0, 0, &[]) {
            Some(true) => Ok(()),
            _ => Err(Failed),
        }
    }
}
