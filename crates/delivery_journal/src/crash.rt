//! The file that a crash leaves of a disk in memory, by a number: its calls are gone through again.
ghost use Rattle.std.specs.Prelude.{◌≡◌, ◌/◌, ◌%◌, if◌then◌else◌, ℕ, List, IfOk, OnOk, length, replicate};
ghost use Rattle.std.specs.List.{fold};
ghost use Rattle.delivery_journal.specs.Disk.{with_bytes_at};
ghost use Rattle.delivery_journal.specs.DiskInMemory.{Done, done_calls, total_count, bytes_put};
ghost use Rattle.delivery_journal.specs.CrashImages.{torn_bytes, torn_by, next_unsynced, unsynced, image_count};
ghost use Rattle.delivery_journal.specs.CrashSteps.{next_crash};

use crate::call::{Call, Op};
use gw_base::Bytes;
use std::alloc::{AllocError, Global};
use std::marker::Model;

// The file as it reads, the one that a crash leaves, and the digits of the number that are left.
#[derive(Drop)]
struct Crash {
    file: Bytes,
    image: Bytes,
    left: u64,
}

impl Model for Crash {
    ghost use Rattle.delivery_journal.specs.CrashSteps.{Crash as Kept};

    ghost Value = { Kept };

    ghost view = { λ c. record { file = c.file; image = c.image; left = c.left } };
}

impl Crash {
    // One call more, with the bytes that it was to write.
    fn take(
        &mut self,
        alloc: Global,
        call: Call,
        bytes: &[u8],
        number: u64,
        fill: u8,
    ) -> Result<(), AllocError>
        ensures { OnOk result (self.new
            ≡ next_crash number fill self.old (record { call = call; bytes = bytes.now })) }
    {
        match call.op {
            Op::Len | Op::Read => Ok(()),
            Op::Write => self.take_write(alloc, call, bytes, fill),
            Op::Sync => self.take_sync(alloc, call.went, number),
        }
    }

    fn take_write(
        &mut self,
        alloc: Global,
        call: Call,
        bytes: &[u8],
        fill: u8,
    ) -> Result<(), AllocError>
        ensures { OnOk result (self.new ≡ record {
          file = with_bytes_at self.old.file call.at (bytes_put call.went bytes.now);
          image = torn_by (self.old.left % 5) fill (record { call = call; bytes = bytes.now }) self.old.image;
          left = self.old.left / 5;
        }) }
    {
        self.file = put_part(alloc, self.file.as_slice(), call, bytes)?;
        let way = self.left % 5;
        self.image = tear(alloc, way, fill, call, bytes, self.image.as_slice())?;
        self.left /= 5;
        Ok(())
    }

    fn take_sync(&mut self, alloc: Global, went: bool, number: u64) -> Result<(), AllocError>
        ensures { OnOk result (self.new ≡ (if went
            then record { file = self.old.file; image = self.old.file; left = number } else self.old)) }
    {
        if went {
            self.image = Bytes::copied(alloc, self.file.as_slice())?;
            self.left = number;
        }
        Ok(())
    }
}

// The bytes put at their place in the file.
fn put_at(alloc: Global, file: &[u8], at: u64, bytes: &[u8]) -> Result<Bytes, AllocError>
    ensures { IfOk result (λ made. made ≡ with_bytes_at file.now at bytes.now) }
{
    let (front, rest) = file.split_at((at as usize).min(file.len()));
    let (_, behind) = rest.split_at(bytes.len().min(rest.len()));
    let mut made = Bytes::copied(alloc, front)?;
    made.extend(bytes)?;
    made.extend(behind)?;
    Ok(made)
}

// The file after a write, which puts the first half of its bytes where it fails.
fn put_part(alloc: Global, file: &[u8], call: Call, bytes: &[u8]) -> Result<Bytes, AllocError>
    ensures { IfOk result (λ made. made ≡ with_bytes_at file.now call.at (bytes_put call.went bytes.now)) }
{
    let (half, _) = bytes.split_at(bytes.len() / 2);
    if call.went {
        put_at(alloc, file, call.at, bytes)
    } else {
        put_at(alloc, file, call.at, half)
    }
}

// So many bytes, each of them this one.
fn repeated(alloc: Global, count: usize, fill: u8) -> Result<Bytes, AllocError>
    ensures { IfOk result (λ bytes. bytes ≡ replicate count fill) }
{
    let mut bytes = Bytes::new(alloc);
    let mut done: usize = 0;
    while done < count {
        bytes.push(fill)?;
        done += 1;
    }
    Ok(bytes)
}

// What a torn write puts.
fn tear_bytes(alloc: Global, way: u64, fill: u8, bytes: &[u8]) -> Result<Bytes, AllocError>
    ensures { IfOk result (λ put. put ≡ torn_bytes way fill bytes.now) }
{
    let (half, _) = bytes.split_at(bytes.len() / 2);
    match way {
        0 => Ok(Bytes::new(alloc)),
        1 => Bytes::copied(alloc, bytes),
        2 => Bytes::copied(alloc, half),
        3 => repeated(alloc, bytes.len(), fill),
        _ => repeated(alloc, half.len(), fill),
    }
}

// The file after a torn write.
fn tear(
    alloc: Global,
    way: u64,
    fill: u8,
    call: Call,
    bytes: &[u8],
    file: &[u8],
) -> Result<Bytes, AllocError>
    ensures { IfOk result (λ torn. torn ≡ torn_by way fill (record { call = call; bytes = bytes.now }) file.now) }
{
    if call.at > file.len() as u64 {
        return Bytes::copied(alloc, file);
    }
    let put = tear_bytes(alloc, way, fill, bytes)?;
    put_at(alloc, file, call.at, put.as_slice())
}

// The file that a crash leaves after these calls, whose writes were to put these bytes, on a disk that began with this
// file.
pub fn image_after(
    alloc: Global,
    start: &[u8],
    calls: &[Call],
    bytes: &[u8],
    number: u64,
    fill: u8,
) -> Result<Bytes, AllocError>
    requires count { total_count calls.now ≡ length bytes.now }
    ensures { IfOk result (λ image. image ≡ (fold (next_crash number fill)
        (record { file = start.now; image = start.now; left = number }) (done_calls calls.now bytes.now)).image) }
{
    let mut crash = Crash {
        file: Bytes::copied(alloc, start)?,
        image: Bytes::copied(alloc, start)?,
        left: number,
    };
    let mut rest = bytes;
    for call in calls {
        let (written, behind) = rest.split_at(call.written());
        crash.take(alloc, *call, written, number, fill)?;
        rest = behind;
    }
    Ok(crash.image)
}

// How many numbers of images there are after one call more.
fn count_after(count: u64, call: &Call) -> u64
    ensures { (writes : List Done) → (bytes : List ℕ) → count ≡ image_count writes
        → result ≡ image_count (next_unsynced writes (record { call = call.now; bytes = bytes })) }
{
    match call.op {
        Op::Len | Op::Read => count,
        Op::Write => count.saturating_mul(5),
        Op::Sync => { if call.went { 1 } else { count } }
    }
}

// How many numbers of images there are after these calls.
pub fn count_images(calls: &[Call]) -> u64
    ensures { (bytes : List ℕ) → result ≡ image_count (unsynced (done_calls calls.now bytes)) }
{
    let mut count: u64 = 1;
    for call in calls {
        count = count_after(count, call);
    }
    count
}
