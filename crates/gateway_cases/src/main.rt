//! The top call over devices in memory, case by case: cases are read from the files that the words name, and what each
//! run leaves is printed. README.md says how a case is written.
#![tactic(auto)]

mod given;
mod lines;
mod pieces;
mod printing;
mod runs;

use gateway_top::{DirFiles, StdSink};
use gw_base::{Bytes, Failed, Files, Got, Moment, Sink, put_all};
use lines::Cases;
use pieces::Trouble;
use std::alloc::Global;
use std::env::{Env, FillError};
use std::process::ExitCode;

// The most bytes of a file of cases, and of its name.
const MOST_BYTES: u64 = 16_777_216;

const MOST_NAME: usize = 256;

// Reads a file of cases and carries it out. Err for want of memory.
fn take_file<F: Files>(
    alloc: Global,
    files: &mut F,
    name: &str,
    cases: &mut Cases,
) -> Result<(), Trouble> {
    let mut bytes = Bytes::new(alloc);
    let read = files.read_file(name, MOST_BYTES, &mut bytes);
    let text = str::from_utf8(bytes.as_slice());
    match (read, text) {
        (Ok(Got::Whole), Ok(text)) => cases.take(alloc, text),
        _ => {
            cases.shown.push_str("not read: ")?;
            cases.shown.push_str(name)?;
            Ok(cases.shown.push_str("\n")?)
        }
    }
}

// Carries out each file that the words name, and prints what its cases leave.
fn print_all<E: Env, F: Files, S: Sink>(
    env: &E,
    alloc: Global,
    files: &mut F,
    cases: &mut Cases,
    out: &mut S,
) -> Result<(), Trouble> {
    let mut buf = [0; MOST_NAME];
    for place in 1..usize::MAX {
        let length = match env.arg(place, buf.as_mut_slice()) {
            Ok(length) => length,
            Err(FillError::NotPresent) => break,
            Err(FillError::TooLong) => 0,
        };
        let name = str::from_utf8(&buf.as_slice()[..length]).unwrap_or("");
        take_file(alloc, files, name, cases)?;
        if let Err(Failed) = put_all(out, cases.shown.as_str().as_bytes()) {
            return Err(Trouble::Form);
        }
        cases.shown.clear();
    }
    Ok(())
}

fn main(rt: HostRuntime) -> ExitCode {
    let alloc = rt.alloc();
    let mut out = StdSink::new(rt.stdout());
    let Some(moment) = Moment::new(0) else {
        return ExitCode::from(1);
    };
    let mut cases = Cases::new(alloc, moment);
    let mut files = DirFiles::new(&rt);
    match print_all(&rt, alloc, &mut files, &mut cases, &mut out) {
        Ok(()) => ExitCode::from(0),
        Err(_) => {
            let _ = put_all(&mut out, b"ended before its end\n");
            ExitCode::from(1)
        }
    }
}
