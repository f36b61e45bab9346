//! Public calls of the libraries of feeds, case by case: questions are read from the files that the words name, and
//! what each is answered is printed. README.md says how a case is written.
#![tactic(auto)]

mod asked;
mod bytes;
mod fields;
mod journeys;
mod kinds;
mod lines;
mod pieces;
mod printing;
mod said;
mod situations;
mod spelled;
mod wire;

use lines::Cases;
use printing::Trouble;
use std::alloc::Global;
use std::env::{Env, FillError};
use std::fs;
use std::process::ExitCode;
use std::rt::Files;

// The most bytes of a file's name.
const MOST_NAME: usize = 256;

// Reads a file of cases and carries it out.
fn take_file(
    rt: &(impl Files + AllocGlobal),
    name: &str,
    cases: &mut Cases,
) -> Result<(), Trouble> {
    match fs::read_to_string(rt, name) {
        Ok(text) => cases.take(rt.alloc(), text.as_str()),
        Err(_) => {
            cases.shown.push_str("not read: ")?;
            cases.shown.push_str(name)?;
            Ok(cases.shown.push_str("\n")?)
        }
    }
}

// Carries out each file that the words name, and prints what its questions are answered.
fn print_all<R: Env + Files + AllocGlobal + Print>(
    rt: &R,
    cases: &mut Cases,
) -> Result<(), Trouble> {
    let mut buf = [0; MOST_NAME];
    for place in 1..usize::MAX {
        let length = match rt.arg(place, buf.as_mut_slice()) {
            Ok(length) => length,
            Err(FillError::NotPresent) => break,
            Err(FillError::TooLong) => 0,
        };
        let name = str::from_utf8(&buf.as_slice()[..length]).unwrap_or("");
        take_file(rt, name, cases)?;
        if rt.print(cases.shown.as_str()).is_err() {
            return Err(Trouble::Form);
        }
        cases.shown.clear();
    }
    Ok(())
}

fn main(rt: HostRuntime) -> ExitCode {
    let mut cases = Cases::new(rt.alloc());
    match print_all(&rt, &mut cases) {
        Ok(()) => ExitCode::from(0),
        Err(_) => ExitCode::from(1),
    }
}
