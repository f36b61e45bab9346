//! A disk over a file of the machine.
ghost use Rattle.std.specs.Prelude.{◌≡◌, None, IsErr, ⊤};
ghost use Rattle.gw_base.specs.Count.{Counts};

use crate::opening::open;
use delivery_journal::Disk;
use gw_base::Failed;
use std::fs::File;
use std::io::{self, ErrorKind};
use std::marker::Model;
use std::os::unix::fs::FileExt;
use std::rt::Files;

/// A file of the machine, which it opens and locks at the first call: a file that isn't there is made, in a folder that
/// is. What is no regular file, or is locked by somebody else, is a disk whose calls fail. A contract sees the count of
/// faults.
#[derive(Drop)]
pub struct FileDisk<'a, R: Files<File = File>> {
    rt: &'a R,
    path: &'a str,
    file: Option<File>,
    faults: u64,
}

impl<'a, R: Files<File = File>> Model for FileDisk<'a, R> {
    ghost use Rattle.std.specs.Prelude.{ℕ};

    ghost Value = { ℕ };

    ghost view = { λ d. d.faults };
}

impl<'a, R: Files<File = File>> FileDisk<'a, R> {
    /// The disk of the file with that path, which isn't opened yet, with no fault so far. Takes no memory.
    pub fn new(rt: &'a R, path: &'a str) -> FileDisk<'a, R>
        ensures { result ≡ 0 }
    {
        FileDisk {
            rt,
            path,
            file: None,
            faults: 0,
        }
    }

    // Opens the file, if it isn't open.
    fn open(&mut self) -> io::Result<()>
        ensures same { self.new ≡ self.old }
    {
        if self.file.is_none() {
            self.file = Some(open(self.rt, self.path)?);
        }
        Ok(())
    }

    // The open file.
    fn file(&self) -> io::Result<&File> {
        match &self.file {
            Some(file) => Ok(file),
            None => Err(io::Error::from(ErrorKind::NotFound)),
        }
    }

    fn len_of_file(&mut self) -> io::Result<u64>
        ensures same { self.new ≡ self.old }
    {
        self.open()?;
        Ok(self.file()?.metadata()?.len())
    }

    fn read_file(&mut self, at: u64, into: &mut [u8]) -> io::Result<()>
        ensures same { self.new ≡ self.old }
    {
        self.open()?;
        self.file()?.read_exact_at(into, at)
    }

    fn write_file(&mut self, at: u64, bytes: &[u8]) -> io::Result<()>
        ensures same { self.new ≡ self.old }
    {
        self.open()?;
        self.file()?.write_all_at(bytes, at)
    }

    fn sync_file(&mut self) -> io::Result<()>
        ensures same { self.new ≡ self.old }
    {
        self.open()?;
        self.file()?.sync_all()
    }
}

// The answer of a call of the system, whose error is a fault and is counted.
fn counted<T>(answer: io::Result<T>, faults: &mut u64) -> Result<T, Failed>
    ensures counts { Counts (IsErr result) faults.old faults.new }
{
    match answer {
        Ok(value) => Ok(value),
        Err(_) => {
            *faults = faults.saturating_add(1);
            Err(Failed)
        }
    }
}

impl<'a, R: Files<File = File>> Disk for FileDisk<'a, R> {
    ghost told = { λ _. None };

    ghost may_leave = { λ _ _. ⊤ };

    ghost clock = { λ _. 0 };

    ghost left_since = { λ _ _ _. ⊤ };

    ghost faults = { λ faults. faults };

    ghost reads_as_left = { λ _ _ _. tt };

    ghost now_counts = { λ _ _ _ _ _. tt };

    ghost only_now = { λ _ _ _. tt };

    fn len(&mut self) -> Result<u64, Failed> {
        let answer = self.len_of_file();
        counted(answer, &mut self.faults)
    }

    fn read_at(&mut self, at: u64, into: &mut [u8]) -> Result<(), Failed> {
        let answer = self.read_file(at, into);
        counted(answer, &mut self.faults)
    }

    fn write_at(&mut self, at: u64, bytes: &[u8]) -> Result<(), Failed> {
        let answer = self.write_file(at, bytes);
        counted(answer, &mut self.faults)
    }

    fn sync(&mut self) -> Result<(), Failed> {
        let answer = self.sync_file();
        counted(answer, &mut self.faults)
    }
}
