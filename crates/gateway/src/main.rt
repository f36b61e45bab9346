//! The program `gateway`: deliveries of SIRI 2.0 over one GTFS Schedule folder become a GTFS Realtime 2.0
//! feed, and a feed becomes a delivery or lines; a server takes both and answers both, and may keep what it took in a
//! journal; and a sample that is made shows on any machine that it works. `main` hands the real words and devices to
//! the top call.
#![tactic(auto)]

ghost use Rattle.std.specs.Prelude.{◌≡◌, false};

mod command_line;

use command_line::{USAGE, words_of};
use delivery_journal::Disk;
use file_disk::FileDisk;
use gateway_top::{DirFiles, StdSink, address, gateway_kept, journal, no_memory, print};
use gw_base::{Clock, Door, Files, Sink, Text};
use std::alloc::Global;
use std::process::ExitCode;
use tcp_door::{Limits, SystemClock, TcpDoor};

const VERSION: &str = concat!("gateway ", "0.1.0", "\n");

// The status of the top call. `main` needs none of its clauses, which make a proof long.
fn status_of<F: Files, D: Door, C: Clock, S: Sink, E: Sink, K: Disk>(
    alloc: Global,
    words: &[Text],
    files: &mut F,
    door: &mut D,
    clock: &mut C,
    out: &mut S,
    err: &mut E,
    disk: &mut K,
) -> u8
    requires { (D.beside door.old).present ≡ false }
{
    gateway_kept(alloc, words, files, door, clock, out, err, disk)
}

fn main(rt: HostRuntime) -> ExitCode {
    let alloc = rt.alloc();
    let mut out = StdSink::new(rt.stdout());
    let mut err = StdSink::new(rt.stderr());
    let status = match words_of(&rt, alloc) {
        Ok(words) => match words.as_slice() {
            [word] if word.as_str() == "--help" => print(&mut out, USAGE),
            [word] if word.as_str() == "--version" => print(&mut out, VERSION),
            words => status_of(
                alloc,
                words,
                &mut DirFiles::new(&rt),
                &mut TcpDoor::new(&rt, alloc, address(words), Limits::usual()),
                &mut SystemClock::new(&rt),
                &mut out,
                &mut err,
                &mut FileDisk::new(&rt, journal(words).unwrap_or("")),
            ),
        },
        Err(_) => no_memory(&mut err),
    };
    ExitCode::from(status)
}
