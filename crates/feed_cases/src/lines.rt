//! The lines of cases, each carried out as it is read.
use crate::asked::{add_answer, add_spelled};
use crate::bytes::bytes_of;
use crate::kinds::{BytesKind, Kind, kind_of};
use crate::printing::Trouble;
use gw_base::Bytes;
use std::alloc::Global;

/// What was read so far, and the lines of the transcript.
#[derive(Drop)]
pub struct Cases {
    // How many days the window has.
    days: u8,
    // What stands before each question, and what questions are asked of.
    front: Bytes,
    kind: Option<Kind>,
    /// The transcript of what was carried out.
    pub shown: String,
}

// The first word of a line, and what stands behind the blank after it.
fn first_word(line: &str) -> (&str, &str) {
    match line.split_once(' ') {
        Some(parts) => parts,
        None => (line, ""),
    }
}

impl Cases {
    /// None yet.
    pub fn new(alloc: Global) -> Cases {
        Cases {
            days: 2,
            front: Bytes::new(alloc),
            kind: None,
            shown: String::new(alloc),
        }
    }

    /// Carries out the lines of a text; a line that isn't is shown with its number.
    pub fn take(&mut self, alloc: Global, text: &str) -> Result<(), Trouble> {
        for (place, line) in text.lines().enumerate() {
            match self.take_line(alloc, line) {
                Ok(()) => {}
                Err(Trouble::Memory) => return Err(Trouble::Memory),
                Err(Trouble::Form) => self.show_wrong(alloc, place.saturating_add(1), line)?,
            }
        }
        Ok(())
    }

    fn show_wrong(&mut self, alloc: Global, number: usize, line: &str) -> Result<(), Trouble> {
        let told = format!(in alloc; "line {number} is none of a case: {line}\n")?;
        Ok(self.shown.push_str(told.as_str())?)
    }

    fn take_line(&mut self, alloc: Global, line: &str) -> Result<(), Trouble> {
        if line.is_empty() || line.starts_with('#') {
            return Ok(());
        }
        match first_word(line) {
            ("?", text) => self.ask(alloc, line, text),
            ("case", name) => self.begin(alloc, name),
            ("front", text) => self.set_front(alloc, text),
            ("days", count) => self.set_days(count),
            ("ask", kind) => self.set_kind(kind),
            _ => Err(Trouble::Form),
        }
    }

    // Begins a case.
    fn begin(&mut self, alloc: Global, name: &str) -> Result<(), Trouble> {
        self.days = 2;
        self.front = Bytes::new(alloc);
        self.kind = None;
        self.shown.push_str("\ncase ")?;
        self.shown.push_str(name)?;
        Ok(self.shown.push_str("\n")?)
    }

    fn set_front(&mut self, alloc: Global, text: &str) -> Result<(), Trouble> {
        self.front = bytes_of(alloc, text)?;
        Ok(())
    }

    fn set_days(&mut self, count: &str) -> Result<(), Trouble> {
        match count.parse::<u8>() {
            Ok(days) => {
                self.days = days;
                Ok(())
            }
            Err(_) => Err(Trouble::Form),
        }
    }

    fn set_kind(&mut self, text: &str) -> Result<(), Trouble> {
        let (name, moment) = first_word(text);
        self.kind = kind_of(name, moment);
        match self.kind {
            Some(_) => Ok(()),
            None => Err(Trouble::Form),
        }
    }

    fn ask(&mut self, alloc: Global, line: &str, text: &str) -> Result<(), Trouble> {
        self.shown.push_str(line)?;
        self.shown.push_str("\n")?;
        let Some(kind) = self.kind else {
            return Err(Trouble::Form);
        };
        match kind {
            Kind::Spelled(kind) => add_spelled(alloc, kind, text, &mut self.shown),
            Kind::Bytes(kind) => self.ask_bytes(alloc, kind, text),
        }
    }

    fn ask_bytes(&mut self, alloc: Global, kind: BytesKind, text: &str) -> Result<(), Trouble> {
        let mut whole = Bytes::copied(alloc, self.front.as_slice())?;
        whole.extend(bytes_of(alloc, text)?.as_slice())?;
        add_answer(alloc, kind, self.days, whole.as_slice(), &mut self.shown)
    }
}
