//! A stop at each call of two appends, and each file that a crash then leaves.

use super::files::disk_of;
use super::{FIRST, Row, keep_all, opened};
use delivery_journal::MemoryDisk;
use gw_base::Kind;
use std::alloc::Global;
use std::process::Abort;

static ROWS: [Row; 2] = [FIRST, (Kind::Feed, 1_714_543_201, b"a feed")];

// How many calls the opening of an empty disk and two appends make.
const CALLS: u64 = 16;

// The image holds the bodies that are kept, or these and the next one.
fn try_image(rt: &impl Abort, alloc: Global, image: &[u8], kept: usize) {
    let rows = ROWS.as_slice();
    let (before, _) = rows.split_at(kept.min(2));
    let (with, _) = rows.split_at(kept.saturating_add(1).min(2));
    let without = opened(alloc, &mut disk_of(rt, alloc, image, &[]), before);
    let with = opened(alloc, &mut disk_of(rt, alloc, image, &[]), with);
    assert!(rt;
        matches!(without, Ok(Some(_))) || matches!(with, Ok(Some(_))),
        "{image:?}"
    );
}

fn try_images(rt: &impl Abort, alloc: Global, disk: &MemoryDisk, fill: u8, kept: usize) {
    for number in 0..disk.image_count() {
        let image = disk.image(alloc, number, fill).expect(rt, "memory");
        try_image(rt, alloc, image.as_slice(), kept);
    }
}

// The call with this number fails, and no later one is made.
fn try_stop(rt: &impl Abort, alloc: Global, call: u64) {
    let mut disk = disk_of(rt, alloc, b"", &[call]);
    let kept = keep_all(&mut disk, &ROWS);
    assert_eq!(rt; disk.calls().len() as u64, call.min(CALLS), "{call}");
    let kept = kept.unwrap_or(0);
    assert_eq!(rt;
        kept,
        if call <= 10 {
            0
        } else if call <= CALLS {
            1
        } else {
            2
        }
    );
    for fill in [0, 2, 255] {
        try_images(rt, alloc, &disk, fill, kept);
    }
}

#[test]
fn each_crash_leaves_what_was_kept(rt: HostRuntime) {
    for call in 1..CALLS + 2 {
        try_stop(&rt, rt.alloc(), call);
    }
}
