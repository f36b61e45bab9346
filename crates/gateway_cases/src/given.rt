//! What a run of the top call is given: words, files, connections, and how its devices are bounded.
ghost use Rattle.std.specs.Prelude.{◌≡◌, ◌≤◌, false, IfOk};

use crate::pieces::{Named, bytes_of};
use delivery_journal::MemoryDisk;
use gw_base::{Bytes, List, MemoryClock, MemoryDoor, MemoryFiles, MemorySink, Moment, Text};
use std::alloc::{AllocError, Global};

/// A device whose calls are counted.
#[derive(Clone, Copy, Debug, PartialEq, Eq)]
pub enum Device {
    Files,
    Out,
    Err,
    Door,
    Clock,
    Disk,
}

/// The device of that name.
pub fn device_of(name: &str) -> Option<Device> {
    match name {
        "files" => Some(Device::Files),
        "out" => Some(Device::Out),
        "err" => Some(Device::Err),
        "door" => Some(Device::Door),
        "clock" => Some(Device::Clock),
        "disk" => Some(Device::Disk),
        _ => None,
    }
}

/// A number, or that of the round.
#[derive(Clone, Copy, Debug, PartialEq, Eq)]
pub enum Number {
    Of(u64),
    OfRound,
}

impl Number {
    /// The number in a round.
    pub fn within(&self, round: u64) -> u64 {
        match self {
            Number::Of(number) => *number,
            Number::OfRound => round,
        }
    }
}

/// The number of a word.
pub fn number_of(word: &str) -> Option<Number> {
    match word {
        "#" => Some(Number::OfRound),
        _ => Some(Number::Of(word.parse::<u64>().ok()?)),
    }
}

/// An output of which only that it is a front of these bytes is shown, and no more of them unless all may be there.
#[derive(Drop)]
pub struct Front {
    pub device: Device,
    pub may_be_whole: bool,
    pub of: Bytes,
}

impl Front {
    /// Whether an output's bytes are such a front.
    pub fn has(&self, device: Device, got: &[u8]) -> bool {
        let whole = self.of.as_slice();
        self.device == device && whole.starts_with(got) && (self.may_be_whole || whole != got)
    }
}

/// What the runs of a case are given.
#[derive(Drop)]
pub struct Given {
    /// The words of the next run.
    pub words: List<Text>,
    /// The files of all cases, those of this one, and the names that it goes without.
    pub common: List<Named>,
    pub own: List<Named>,
    pub without: List<Text>,
    /// The connections' inputs, and the moments of the clock.
    pub inputs: List<Bytes>,
    pub moments: List<Moment>,
    /// The journal's file before the next run.
    pub journal: Bytes,
    /// The calls that fail, each of a device.
    pub fails: List<(Device, Number)>,
    /// How many bytes standard output, standard error and each connection have room for.
    pub out_room: Number,
    pub err_room: Number,
    pub door_room: Number,
    /// How many bytes the door reads and writes at a time.
    pub cut: Number,
    /// The numbers of the rounds.
    pub rounds: List<u64>,
    /// Which outputs are shown as fronts alone.
    pub fronts: List<Front>,
}

const ROOM: Number = Number::Of(100_000);

const ONCE: Number = Number::Of(65_536);

// How many bytes are written to the disk at most, and how many calls it has.
const DISK_ROOM: u32 = 1_000_000;

const DISK_CALLS: u32 = 10_000;

impl Given {
    /// Nothing yet.
    pub fn new(alloc: Global) -> Given {
        Given {
            words: List::new(alloc),
            common: List::new(alloc),
            own: List::new(alloc),
            without: List::new(alloc),
            inputs: List::new(alloc),
            moments: List::new(alloc),
            journal: Bytes::new(alloc),
            fails: List::new(alloc),
            out_room: ROOM,
            err_room: ROOM,
            door_room: ROOM,
            cut: ONCE,
            rounds: List::new(alloc),
            fronts: List::new(alloc),
        }
    }

    /// Forgets what a case was given; the common files stay.
    pub fn clear(&mut self) {
        self.words.clear();
        self.own.clear();
        self.without.clear();
        self.inputs.clear();
        self.moments.clear();
        self.journal.clear();
        self.fails.clear();
        self.out_room = ROOM;
        self.err_room = ROOM;
        self.door_room = ROOM;
        self.cut = ONCE;
        self.rounds.clear();
        self.fronts.clear();
    }

    /// The bytes of the file of that name.
    pub fn file(&self, name: &str) -> Option<&Bytes> {
        match bytes_of(self.own.as_slice(), name) {
            Some(bytes) => Some(bytes),
            None => bytes_of(self.common.as_slice(), name),
        }
    }

    /// Whether these bytes of an output are shown as a front alone.
    pub fn is_front(&self, device: Device, got: &[u8]) -> bool {
        for front in self.fronts.as_slice() {
            if front.has(device, got) {
                return true;
            }
        }
        false
    }

    // The numbers of a device's calls that fail in a round.
    fn fails_of(&self, alloc: Global, device: Device, round: u64) -> Result<List<u64>, AllocError> {
        let mut fails = List::new(alloc);
        for (of, number) in self.fails.as_slice() {
            if *of == device {
                fails.push(number.within(round))?;
            }
        }
        Ok(fails)
    }

    /// The files in a round.
    pub fn files(&self, alloc: Global, round: u64) -> Result<MemoryFiles, AllocError> {
        let mut files = List::new(alloc);
        for (name, _) in self.own.as_slice() {
            self.add_file(alloc, name, &mut files)?;
        }
        for (name, _) in self.common.as_slice() {
            self.add_file(alloc, name, &mut files)?;
        }
        Ok(MemoryFiles::make(files, self.fails_of(alloc, Device::Files, round)?))
    }

    // Adds the file of that name, unless the case goes without it.
    fn add_file(
        &self,
        alloc: Global,
        name: &Text,
        files: &mut List<Named>,
    ) -> Result<(), AllocError> {
        if self.without.as_slice().contains(name) {
            return Ok(());
        }
        let Some(bytes) = self.file(name.as_str()) else {
            return Ok(());
        };
        let name = Text::copied(alloc, name.as_str())?;
        files.push((name, Bytes::copied(alloc, bytes.as_slice())?))
    }

    /// Standard output in a round.
    pub fn out(&self, alloc: Global, round: u64) -> Result<MemorySink, AllocError> {
        let fails = self.fails_of(alloc, Device::Out, round)?;
        MemorySink::make(alloc, self.out_room.within(round), fails)
    }

    /// Standard error in a round.
    pub fn err(&self, alloc: Global, round: u64) -> Result<MemorySink, AllocError> {
        let fails = self.fails_of(alloc, Device::Err, round)?;
        MemorySink::make(alloc, self.err_room.within(round), fails)
    }

    /// The clock in a round.
    pub fn clock(&self, alloc: Global, round: u64) -> Result<MemoryClock, AllocError> {
        let mut moments = List::new(alloc);
        for moment in self.moments.as_slice() {
            moments.push(*moment)?;
        }
        Ok(MemoryClock::make(moments, self.fails_of(alloc, Device::Clock, round)?))
    }

    /// The journal's disk in a round.
    pub fn disk(&self, alloc: Global, round: u64) -> Result<MemoryDisk, AllocError> {
        let fails = self.fails_of(alloc, Device::Disk, round)?;
        MemoryDisk::make(alloc, self.journal.as_slice(), DISK_ROOM, DISK_CALLS, fails)
    }

    /// The door in a round, to which no connection came yet. It reads and writes at least a byte at a time.
    pub fn door(&self, alloc: Global, round: u64) -> Result<MemoryDoor, AllocError>
        ensures { IfOk result (λ door. door.present ≡ false) }
    {
        let mut inputs = List::new(alloc);
        for input in self.inputs.as_slice() {
            inputs.push(Bytes::copied(alloc, input.as_slice())?)?;
        }
        let fails = self.fails_of(alloc, Device::Door, round)?;
        let most = at_least_one(self.cut.within(round));
        MemoryDoor::make(alloc, inputs, self.door_room.within(round), most, fails)
    }
}

fn at_least_one(number: u64) -> u64
    ensures { 1 ≤ result }
{
    if number == 0 { 1 } else { number }
}
