//! Runs of the top call over devices in memory, and what each leaves: its status, both outputs, and the connections.
ghost use Rattle.std.specs.Prelude.{◌≡◌, false};

use crate::given::{Device, Given};
use crate::printing::{add_answer, add_bytes};
use delivery_journal::{Disk, MemoryDisk};
use gateway_top::gateway_kept;
use gw_base::{
    Bytes, Clock, Door, Entry, Files, Mark, MemoryClock, MemoryDoor, MemoryFiles, Moment, Sink,
    Text,
};
use service_day::write_moment;
use std::alloc::{AllocError, Global};

// The top call over any devices. Neither its clauses nor what devices in memory do are in a caller's goals.
fn call<F: Files, D: Door, C: Clock, S: Sink, E: Sink, K: Disk>(
    alloc: Global,
    words: &[Text],
    files: &mut F,
    door: &mut D,
    clock: &mut C,
    out: &mut S,
    err: &mut E,
    disk: &mut K,
) -> u8
    requires { (D.beside door.old).present ≡ false }
{
    gateway_kept(alloc, words, files, door, clock, out, err, disk)
}

/// What a run left: the bytes of standard output, the journal's file, and the lines of all that it left.
#[derive(Drop)]
pub struct Left {
    pub out: Bytes,
    pub disk: Bytes,
    pub lines: String,
}

/// The run of a round. Each device is made in a function of its own, so that none has many to drop.
pub fn run(alloc: Global, given: &Given, round: u64) -> Result<Left, AllocError> {
    let mut files = given.files(alloc, round)?;
    run_over(alloc, given, round, &mut files)
}

fn run_over(
    alloc: Global,
    given: &Given,
    round: u64,
    files: &mut MemoryFiles,
) -> Result<Left, AllocError> {
    let mut clock = given.clock(alloc, round)?;
    run_at(alloc, given, round, files, &mut clock)
}

fn run_at(
    alloc: Global,
    given: &Given,
    round: u64,
    files: &mut MemoryFiles,
    clock: &mut MemoryClock,
) -> Result<Left, AllocError> {
    let mut disk = given.disk(alloc, round)?;
    let mut lines = String::new(alloc);
    let out = run_kept(alloc, given, round, files, clock, &mut disk, &mut lines)?;
    add_disk(alloc, given.journal.as_slice(), disk.file(), &mut lines)?;
    let disk = Bytes::copied(alloc, disk.file())?;
    Ok(Left { out, disk, lines })
}

// Answers what standard output got, and adds the lines of all but the disk.
fn run_kept(
    alloc: Global,
    given: &Given,
    round: u64,
    files: &mut MemoryFiles,
    clock: &mut MemoryClock,
    disk: &mut MemoryDisk,
    lines: &mut String,
) -> Result<Bytes, AllocError> {
    let mut door = given.door(alloc, round)?;
    let out = run_door(alloc, given, round, files, clock, disk, &mut door, lines)?;
    add_entries(alloc, given.inputs.as_slice(), door.log(), lines)?;
    Ok(out)
}

// Answers what standard output got, and adds the lines of the status and of both outputs.
fn run_door(
    alloc: Global,
    given: &Given,
    round: u64,
    files: &mut MemoryFiles,
    clock: &mut MemoryClock,
    disk: &mut MemoryDisk,
    door: &mut MemoryDoor,
    lines: &mut String,
) -> Result<Bytes, AllocError>
    requires { door.old.present ≡ false }
{
    let mut out = given.out(alloc, round)?;
    let mut err = given.err(alloc, round)?;
    let words = given.words.as_slice();
    let status = call(alloc, words, files, door, clock, &mut out, &mut err, disk);
    add_status(alloc, status, lines)?;
    add_output(alloc, given, Device::Out, out.written(), lines)?;
    add_output(alloc, given, Device::Err, err.written(), lines)?;
    Bytes::copied(alloc, out.written())
}

fn add_status(alloc: Global, status: u8, into: &mut String) -> Result<(), AllocError> {
    let line = format!(in alloc; "status {status}\n")?;
    into.push_str(line.as_str())
}

// Adds what an output got, if that is anything, or that it is a front.
fn add_output(
    alloc: Global,
    given: &Given,
    device: Device,
    got: &[u8],
    into: &mut String,
) -> Result<(), AllocError> {
    let is_front = given.is_front(device, got);
    if got.is_empty() && !is_front {
        return Ok(());
    }
    into.push_str(if device == Device::Out { "out" } else { "err" })?;
    if is_front {
        return into.push_str(" a front\n");
    }
    into.push_str("\n")?;
    add_bytes(alloc, got, into)
}

// Adds the journal's file, if it isn't what it was.
fn add_disk(alloc: Global, before: &[u8], now: &[u8], into: &mut String) -> Result<(), AllocError> {
    if now == before {
        return Ok(());
    }
    into.push_str("disk\n")?;
    add_bytes(alloc, now, into)
}

// Adds the entries of the log, to which these inputs belong.
fn add_entries(
    alloc: Global,
    inputs: &[Bytes],
    log: &[Entry],
    into: &mut String,
) -> Result<(), AllocError> {
    for (place, entry) in log.iter().enumerate() {
        let line = format!(in alloc; "connection {}", place.saturating_add(1))?;
        into.push_str(line.as_str())?;
        match inputs.get(place) {
            Some(input) if input.as_slice() == entry.input.as_slice() => {}
            _ => into.push_str(" of another input")?,
        }
        add_mark(alloc, entry.mark, into)?;
        add_moment(entry.moment, into)?;
        into.push_str("\n")?;
        add_answer(alloc, entry.output.as_slice(), into)?;
    }
    Ok(())
}

fn add_mark(alloc: Global, mark: Mark, into: &mut String) -> Result<(), AllocError> {
    match mark {
        Mark::Taken => into.push_str(" Taken"),
        Mark::Fed => into.push_str(" Fed"),
        Mark::Shown => into.push_str(" Shown"),
        Mark::Memory => into.push_str(" Memory"),
        Mark::ClockFault => into.push_str(" ClockFault"),
        Mark::Lost => into.push_str(" Lost"),
        Mark::Unkept => into.push_str(" Unkept"),
        Mark::Refused(status) => {
            let text = format!(in alloc; " Refused {status}")?;
            into.push_str(text.as_str())
        }
    }
}

fn add_moment(moment: Option<Moment>, into: &mut String) -> Result<(), AllocError> {
    let Some(moment) = moment else {
        return Ok(());
    };
    let text = write_moment(moment.secs());
    into.push_str(" at ")?;
    match str::from_utf8(text.as_slice()) {
        Ok(text) => into.push_str(text),
        Err(_) => Ok(()),
    }
}
