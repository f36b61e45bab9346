//! The disk of a real file: what lies in it, who else may open it, and what is no such file.

use crate::of_delivery_journal::files::{AFTER_ONE, NEW};
use crate::of_delivery_journal::{FIRST, keep_all, opened};
use delivery_journal::{Disk, OpenFault};
use file_disk::FileDisk;
use gw_base::Failed;
use std::fs;
use std::io::ErrorKind;
use std::test::Fail;

const FOLDER: &str = "journal_tests_files";

const PATH: &str = "journal_tests_files/journal";

const MISSING: &str = "journal_tests_files/no/journal";

// An empty folder.
fn make_folder(rt: &HostRuntime) -> Result<(), Fail> {
    match fs::remove_dir_all(rt, FOLDER) {
        Ok(()) => {}
        Err(fault) if fault.kind() == ErrorKind::NotFound => {}
        Err(fault) => return Err(fault.into()),
    }
    fs::create_dir(rt, FOLDER)?;
    Ok(())
}

// What the first two calls of a disk answer.
fn sync_and_len<K: Disk>(disk: &mut K) -> (Result<(), Failed>, Result<u64, Failed>) {
    (disk.sync(), disk.len())
}

#[test]
fn a_journal_lies_in_a_file(rt: HostRuntime) -> Result<(), Fail> {
    let alloc = rt.alloc();
    make_folder(&rt)?;
    let mut disk = FileDisk::new(&rt, PATH);
    assert!(rt; !fs::exists(&rt, PATH)?);
    assert_eq!(rt; keep_all(&mut disk, &[]), Some(0));
    assert_eq!(rt; fs::read(&rt, PATH)?.as_slice(), NEW);
    assert_eq!(rt; keep_all(&mut disk, &[FIRST]), Some(1));
    assert_eq!(rt; fs::read(&rt, PATH)?.as_slice(), AFTER_ONE);

    // Nobody else has it meanwhile.
    let mut other = FileDisk::new(&rt, PATH);
    assert_eq!(rt; sync_and_len(&mut other), (Err(Failed), Err(Failed)));
    drop(disk);
    assert_eq!(rt; sync_and_len(&mut other), (Ok(()), Ok(76)));
    assert_eq!(rt; opened(alloc, &mut other, &[FIRST]), Ok(Some(75)));
    fs::remove_dir_all(&rt, FOLDER)?;
    Ok(())
}

#[test]
fn what_is_no_file_is_a_disk_that_fails(rt: HostRuntime) -> Result<(), Fail> {
    for path in [".", "/dev/null", MISSING, ""] {
        let mut disk = FileDisk::new(&rt, path);
        assert_eq!(rt;
            opened(rt.alloc(), &mut disk, &[]),
            Err(OpenFault::Disk),
            "{path}"
        );
    }
    Ok(())
}
