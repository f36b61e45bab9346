//! What the questions of a case are asked over: files, a zone and a window.
use crate::pieces::{Named, Trouble, bytes_of};
use gw_base::{Bytes, List, MemoryFiles, Text};
use service_day::{Day, DayForm, Window, Zone, ZoneFault, read_day};
use std::alloc::{AllocError, Global};
use stop_schedule::{TableFault, Timetable, read_timetable};

/// A zone as its rule or its file says it.
#[derive(Drop)]
pub enum ZoneText {
    Rule(Text),
    File(Bytes),
}

impl ZoneText {
    /// The zone, if it is one.
    pub fn zone(&self, alloc: Global) -> Result<Zone, ZoneFault> {
        match self {
            ZoneText::Rule(rule) => Zone::from_rule(rule.as_str()),
            ZoneText::File(bytes) => Zone::from_file(alloc, bytes.as_slice()),
        }
    }
}

/// A window's first day and how many days it has.
#[derive(Clone, Copy)]
pub struct Days {
    pub first: Day,
    pub days: u8,
}

/// The days of the words FIRST DAYS.
pub fn days_of(first: &str, days: &str) -> Option<Days> {
    let first = read_day(first, DayForm::Either)?;
    let days = days.parse::<u8>().ok()?;
    Some(Days { first, days })
}

/// What the questions of a case are asked over.
#[derive(Drop)]
pub struct Given {
    /// The files of all cases, those of this one, and the names that it goes without.
    pub common: List<Named>,
    pub own: List<Named>,
    pub without: List<Text>,
    /// The file that a question is, in the place of another.
    pub asked: Option<Named>,
    /// The numbers of the reads that fail.
    pub fails: List<u64>,
    /// The zone and the window of all cases, and those of this one.
    pub common_zone: Option<ZoneText>,
    pub own_zone: Option<ZoneText>,
    pub common_days: Option<Days>,
    pub own_days: Option<Days>,
}

impl Given {
    /// Nothing yet.
    pub fn new(alloc: Global) -> Given {
        Given {
            common: List::new(alloc),
            own: List::new(alloc),
            without: List::new(alloc),
            asked: None,
            fails: List::new(alloc),
            common_zone: None,
            own_zone: None,
            common_days: None,
            own_days: None,
        }
    }

    /// Forgets what a case was given; what is common stays.
    pub fn clear(&mut self) {
        self.own.clear();
        self.without.clear();
        self.asked = None;
        self.fails.clear();
        self.own_zone = None;
        self.own_days = None;
    }

    // The bytes of the file of that name, of which the one that was given last counts.
    fn file(&self, name: &str) -> Option<&Bytes> {
        match bytes_of(self.own.as_slice(), name) {
            Some(bytes) => Some(bytes),
            None => bytes_of(self.common.as_slice(), name),
        }
    }

    // Adds the file of that name, unless the case goes without it.
    fn add_file(
        &self,
        alloc: Global,
        name: &Text,
        files: &mut List<Named>,
    ) -> Result<(), AllocError> {
        if self.without.as_slice().contains(name) {
            return Ok(());
        }
        match self.file(name.as_str()) {
            Some(bytes) => add_copy(alloc, name, bytes, files),
            None => Ok(()),
        }
    }

    // The files by their names, of which the first of a name counts.
    fn named_files(&self, alloc: Global) -> Result<List<Named>, AllocError> {
        let mut files = List::new(alloc);
        if let Some((name, bytes)) = &self.asked {
            add_copy(alloc, name, bytes, &mut files)?;
        }
        for (name, _) in self.own.as_slice() {
            self.add_file(alloc, name, &mut files)?;
        }
        for (name, _) in self.common.as_slice() {
            self.add_file(alloc, name, &mut files)?;
        }
        Ok(files)
    }

    // The numbers of the reads that fail.
    fn failing(&self, alloc: Global) -> Result<List<u64>, AllocError> {
        let mut fails = List::new(alloc);
        for number in self.fails.as_slice() {
            fails.push(*number)?;
        }
        Ok(fails)
    }

    /// What is read of the folder g.
    pub fn read(&self, alloc: Global) -> Result<Timetable, TableFault> {
        let files = self.named_files(alloc)?;
        let fails = self.failing(alloc)?;
        let mut files = MemoryFiles::make(files, fails);
        read_timetable(alloc, &mut files, "g")
    }

    /// The timetable of the folder.
    pub fn table(&self, alloc: Global) -> Result<Timetable, Trouble> {
        match self.read(alloc) {
            Ok(table) => Ok(table),
            Err(TableFault::Memory) => Err(Trouble::Memory),
            Err(_) => Err(Trouble::Form),
        }
    }

    // The zone as it was said.
    fn zone_text(&self) -> Option<&ZoneText> {
        match &self.own_zone {
            Some(zone) => Some(zone),
            None => self.common_zone.as_ref(),
        }
    }

    /// The zone.
    pub fn zone(&self, alloc: Global) -> Result<Zone, Trouble> {
        let Some(text) = self.zone_text() else {
            return Err(Trouble::Form);
        };
        match text.zone(alloc) {
            Ok(zone) => Ok(zone),
            Err(ZoneFault::Memory) => Err(Trouble::Memory),
            Err(ZoneFault::Refused) => Err(Trouble::Form),
        }
    }

    /// The days of the window.
    pub fn days(&self) -> Option<Days> {
        match self.own_days {
            Some(days) => Some(days),
            None => self.common_days,
        }
    }

    /// The window in a zone.
    pub fn window(&self, zone: &Zone) -> Result<Window, Trouble> {
        match self.days() {
            Some(days) => window_of(zone, days),
            None => Err(Trouble::Form),
        }
    }
}

// Adds a copy of a file.
fn add_copy(
    alloc: Global,
    name: &Text,
    bytes: &Bytes,
    files: &mut List<Named>,
) -> Result<(), AllocError> {
    let name = Text::copied(alloc, name.as_str())?;
    files.push((name, Bytes::copied(alloc, bytes.as_slice())?))
}

// The window of days in a zone, if there may be one.
fn window_of(zone: &Zone, given: Days) -> Result<Window, Trouble> {
    let Days { first, days } = given;
    if days < 1 || 31 < days || first.number() < 365 || 2_932_000 < first.number() {
        return Err(Trouble::Form);
    }
    Ok(Window::make(zone, first, days)?)
}
