//! Each real device once, and the top call over a delivery, and over a server whose door and clock fail.
//! `gateway_cases` has the top call over devices in memory, case by case; the repository's own checks run it over the
//! real devices.
mod delivery;
mod door_faults;
mod doors;
mod runs;

use gateway_top::{DirFiles, StdSink};
use gw_base::{Bytes, Failed, FileFault, Files, Got, Sink};
use std::alloc::Global;
use std::fs::{self, File};
use std::process::Abort;
use std::test::Fail;
use std::{io, process};

// A file of five bytes is too long for a limit of four, and read behind what is there for one of five.
fn is_read<F: Files>(rt: &impl Abort, alloc: Global, files: &mut F, path: &str) {
    let mut into = Bytes::copied(alloc, b"-").expect(rt, "memory");
    assert_eq!(rt; files.read_file(path, 4, &mut into), Ok(Got::TooLong));
    assert_eq!(rt; files.read_file(path, 5, &mut into), Ok(Got::Whole));
    assert_eq!(rt; into.as_slice(), b"-abcde".as_slice());
}

#[test]
fn a_file_is_read_as_it_was_written(rt: HostRuntime) -> Result<(), Fail> {
    let path = format!(in rt.alloc(); "/tmp/gateway-test-{}", process::id(rt.process()))?;
    fs::write(&rt, path.as_str(), b"abcde")?;
    is_read(&rt, rt.alloc(), &mut DirFiles::new(&rt), path.as_str());
    fs::remove_file(&rt, path.as_str())?;
    Ok(())
}

#[test]
fn a_file_that_is_not_read_leaves_nothing(rt: HostRuntime) {
    let mut files = DirFiles::new(&rt);
    let mut into = Bytes::new(rt.alloc());
    assert_eq!(rt;
        files.read_file("/dev/null/none", 4, &mut into),
        Ok(Got::Missing)
    );
    assert_eq!(rt; files.read_file("/", 4, &mut into), Err(FileFault::Failed));
    assert!(rt; into.is_empty());
}

#[test]
fn a_pipe_gets_the_bytes(rt: HostRuntime) -> Result<(), Fail> {
    let (mut reader, writer) = io::pipe(&rt)?;
    let mut sink = StdSink::new(writer);
    assert_eq!(rt; sink.write(b"abc"), Ok(3));
    drop(sink);
    let mut got = Bytes::new(rt.alloc());
    got.read_to_end(&mut reader)?;
    assert_eq!(rt; got.as_slice(), b"abc".as_slice());
    let mut full = StdSink::new(File::create(&rt, "/dev/full")?);
    assert_eq!(rt; full.write(b"abc"), Err(Failed));
    Ok(())
}
