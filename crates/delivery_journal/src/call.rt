//! The record of the calls of a disk in memory.
ghost use Rattle.std.specs.Prelude.{◌≡◌, ◌≤◌, ◌<◌, ◌+◌, length, IfOk, []};
ghost use Rattle.std.specs.List.{fold};
ghost use Rattle.delivery_journal.specs.DiskInMemory.{written_count, recorded, has_room};
ghost use Rattle.delivery_journal.specs.CrashImages.{calls_of, bytes_of, unsynced, image_count};
ghost use Rattle.delivery_journal.specs.CrashSteps.{next_crash};

use crate::crash::{count_images, image_after};
use gw_base::{Buf, Bytes};
use std::alloc::{AllocError, Global};
use std::marker::Model;

/// Which call of a disk it was.
#[derive(Clone, Copy, Debug, PartialEq, Eq)]
pub enum Op {
    /// It asked for the length.
    Len,
    /// It read bytes.
    Read,
    /// It wrote bytes.
    Write,
    /// It brought all onto the disk.
    Sync,
}

/// A call of a disk: which one, the place and the count of the bytes that it was to read or write (0 of another call),
/// and whether it went well.
#[derive(Clone, Copy, Debug, PartialEq, Eq)]
pub struct Call {
    /// Which call it was.
    pub op: Op,
    /// The place in the file.
    pub at: u64,
    /// How many bytes.
    pub count: u64,
    /// Whether it went well.
    pub went: bool,
}

impl Call {
    // How many bytes it was to write.
    pub(crate) fn written(&self) -> usize
        ensures { result ≡ written_count self.now }
    {
        match self.op {
            Op::Write => self.count as usize,
            Op::Len | Op::Read | Op::Sync => 0,
        }
    }
}

// The calls so far, with the bytes of all writes, one after the other. Its memory is taken when it is made.
#[derive(Debug, Drop)]
pub struct Record {
    calls: Vec<Call>,
    calls_left: usize,
    bytes: Buf,
}

impl Model for Record {
    ghost use Rattle.std.specs.Prelude.{◌≡◌, ◌+◌, ◌≤◌, vec_len, vec_capacity, length};
    ghost use Rattle.delivery_journal.specs.DiskInMemory.{Recorded, done_calls, total_count};

    ghost Value = { Recorded };

    ghost view = { λ r. record {
      done = done_calls r.calls.items r.bytes.bytes;
      calls_left = r.calls_left;
      room = r.bytes.spare;
    } };

    ghost invariant = { λ r. (vec_len r.calls + r.calls_left ≤ vec_capacity r.calls)
        × (total_count r.calls.items ≡ length r.bytes.bytes) };
}

impl Record {
    // An empty record, for that many calls, whose writes have at most so many bytes together.
    pub fn with_room(alloc: Global, calls: usize, bytes: usize) -> Result<Record, AllocError>
        ensures { IfOk result (λ made. made ≡ record { done = []; calls_left = calls; room = bytes }) }
    {
        Ok(Record {
            calls: Vec::with_capacity(alloc, calls)?,
            calls_left: calls,
            bytes: Buf::with_room(alloc, bytes)?,
        })
    }

    // Whether a call that writes so many bytes has room in it.
    pub fn has_room(&self, count: usize) -> bool
        ensures { result ≡ has_room self.now count }
    {
        self.calls_left > 0 && count <= self.bytes.spare()
    }

    // Adds a call, with the bytes that it was to write.
    pub fn add(&mut self, call: Call, bytes: &[u8])
        requires calls { 0 < self.old.calls_left }
        requires room { length bytes.now ≤ self.old.room }
        requires count { written_count call ≡ length bytes.now }
        ensures { self.new ≡ recorded self.old (record { call = call; bytes = bytes.now }) }
    {
        self.calls_left -= 1;
        self.calls.push(call).unwrap();
        self.bytes.put_slice(bytes);
    }

    // The calls, in order.
    pub fn calls(&self) -> &[Call]
        ensures { result.now ≡ calls_of self.now.done }
    {
        self.calls.as_slice()
    }

    // The bytes of all writes, one after the other.
    pub fn bytes(&self) -> &[u8]
        ensures { result.now ≡ bytes_of self.now.done }
    {
        self.bytes.as_slice()
    }

    // How many numbers of images there are.
    pub fn image_count(&self) -> u64
        ensures { result ≡ image_count (unsynced self.now.done) }
    {
        count_images(self.calls.as_slice())
    }

    // The file that a crash leaves, by a number, on a disk that began with this file.
    pub fn image(
        &self,
        alloc: Global,
        start: &[u8],
        number: u64,
        fill: u8,
    ) -> Result<Bytes, AllocError>
        ensures { IfOk result (λ image. image ≡ (fold (next_crash number fill)
            (record { file = start.now; image = start.now; left = number }) self.now.done).image) }
    {
        image_after(
            alloc,
            start,
            self.calls.as_slice(),
            self.bytes.as_slice(),
            number,
            fill,
        )
    }
}
