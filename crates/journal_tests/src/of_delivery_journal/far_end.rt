//! A journal of nearly 1 TiB, on a disk that makes up its bytes and doesn't tell them.
ghost use Rattle.std.specs.Prelude.{◌≤◌, None, ⊤};

use delivery_journal::*;
use gw_base::{BODY_LIMIT, Failed, Kind, Moment};
use std::process::Abort;

// A disk whose file is a journal of large bodies, with the closed gate at `end`. It counts its writes and syncs.
#[derive(Drop)]
struct Large {
    end: u64,
    writes: u64,
    syncs: u64,
}

// How many bytes the body behind the gate at `at` has, so that a gate comes to stand at `end`.
fn body_at(at: u64, end: u64) -> u64
    ensures { result ≤ 16777216 }
{
    let left = end.saturating_sub(at).saturating_sub(14);
    if left <= BODY_LIMIT {
        left
    } else if left <= 2 * BODY_LIMIT {
        left / 2
    } else {
        BODY_LIMIT
    }
}

// The header behind the gate at `at`.
fn header_at(at: u64, end: u64) -> [u8; 13] {
    let [a, b, c, d] = (body_at(at, end) as u32).to_be_bytes();
    [3, 0, 0, 0, 0, 0, 0, 0, 0, a, b, c, d]
}

// The bytes that stand from a place on: the beginning, a gate, or a header.
fn fill(into: &mut [u8], at: u64, end: u64) {
    match into.len() {
        1 => into.fill(if at < end { 1 } else { 0 }),
        8 => into.copy_from_slice(b"GWJRNL01"),
        13 => into.copy_from_slice(&header_at(at.saturating_sub(1), end)),
        _ => {}
    }
}

impl Disk for Large {
    ghost told = { λ _. None };

    ghost may_leave = { λ _ _. ⊤ };

    ghost clock = { λ _. 0 };

    ghost left_since = { λ _ _ _. ⊤ };

    ghost faults = { λ _. 0 };

    ghost reads_as_left = { λ _ _ _. tt };

    ghost now_counts = { λ _ _ _ _ _. tt };

    ghost only_now = { λ _ _ _. tt };

    fn len(&mut self) -> Result<u64, Failed> {
        Ok(self.end.saturating_add(1))
    }

    fn read_at(&mut self, at: u64, into: &mut [u8]) -> Result<(), Failed> {
        fill(into, at, self.end);
        Ok(())
    }

    fn write_at(&mut self, _at: u64, _bytes: &[u8]) -> Result<(), Failed> {
        self.writes = self.writes.saturating_add(1);
        Ok(())
    }

    fn sync(&mut self) -> Result<(), Failed> {
        self.syncs = self.syncs.saturating_add(1);
        Ok(())
    }
}

// Appends three bytes to a journal with this end. Answers what came, with the counts of writes and syncs.
fn append_at(rt: &impl Abort, end: u64) -> (Result<(), AppendFault>, u64, u64) {
    let mut disk = Large {
        end,
        writes: 0,
        syncs: 0,
    };
    let mut journal = Journal::open(&mut disk).expect(rt, "a journal");
    assert_eq!(rt; journal.end(), end);
    let moment = Moment::new(0).expect(rt, "a moment");
    let appended = journal.append(&mut disk, Kind::Feed, moment, b"abc");
    (appended, disk.writes, disk.syncs)
}

#[test]
fn a_full_journal_is_left_as_it_is(rt: HostRuntime) {
    let limit: u64 = 1_099_511_627_776;
    let most = limit - 18;
    assert_eq!(rt; append_at(&rt, most), (Ok(()), 4, 3));
    let full = Err(AppendFault::Full(most + 1));
    assert_eq!(rt; append_at(&rt, most + 1), (full, 0, 1));
}
