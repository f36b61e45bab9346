//! The lines of cases, each carried out as it is read.
use crate::asked::{Question, add_answer};
use crate::given::{Given, ZoneText, days_of};
use crate::kinds::{Kind, kind_of};
use crate::pieces::{Named, Trouble, add_content, first_word, is_content};
use crate::printing::add_bytes;
use gw_base::{Bytes, List, Text};
use std::alloc::Global;
use std::mem;

// What the lines of content are for.
#[derive(Drop)]
enum Target {
    Nothing,
    File(Text),
    Piece(Text),
    Zone,
    Before,
    After,
    Question,
}

/// What was read so far, and the lines of the transcript.
#[derive(Drop)]
pub struct Cases {
    given: Given,
    pieces: List<Named>,
    in_case: bool,
    // What questions are asked of, with the word behind it, and what stands round each.
    kind: Option<Kind>,
    of: Text,
    before: Bytes,
    after: Bytes,
    target: Target,
    content: Bytes,
    /// The transcript of what was carried out.
    pub shown: String,
}

impl Cases {
    /// None yet.
    pub fn new(alloc: Global) -> Cases {
        Cases {
            given: Given::new(alloc),
            pieces: List::new(alloc),
            in_case: false,
            kind: None,
            of: Text::new(alloc),
            before: Bytes::new(alloc),
            after: Bytes::new(alloc),
            target: Target::Nothing,
            content: Bytes::new(alloc),
            shown: String::new(alloc),
        }
    }

    /// Carries out the lines of a text; a line that isn't is shown with its number.
    pub fn take(&mut self, alloc: Global, text: &str) -> Result<(), Trouble> {
        self.in_case = false;
        for (place, line) in text.lines().enumerate() {
            match self.take_line(alloc, line) {
                Ok(()) => {}
                Err(Trouble::Memory) => return Err(Trouble::Memory),
                Err(Trouble::Form) => self.show_wrong(alloc, place.saturating_add(1), line)?,
            }
        }
        self.close(alloc)
    }

    fn show_wrong(&mut self, alloc: Global, number: usize, line: &str) -> Result<(), Trouble> {
        let told = format!(in alloc; "line {number} is none of a case: {line}\n")?;
        Ok(self.shown.push_str(told.as_str())?)
    }

    fn take_line(&mut self, alloc: Global, line: &str) -> Result<(), Trouble> {
        if line.is_empty() || line.starts_with('#') {
            return Ok(());
        }
        if is_content(line) {
            return add_content(alloc, self.pieces.as_slice(), line, &mut self.content);
        }
        self.close(alloc)?;
        match first_word(line) {
            ("?", "") => self.aim(Target::Question),
            ("?", text) => self.ask_line(alloc, text),
            ("case", name) => self.begin(alloc, name),
            (word, rest) => self.take_setting(alloc, word, rest),
        }
    }

    fn take_setting(&mut self, alloc: Global, word: &str, rest: &str) -> Result<(), Trouble> {
        match word {
            "file" => self.aim(Target::File(Text::copied(alloc, rest)?)),
            "piece" => self.aim(Target::Piece(Text::copied(alloc, rest)?)),
            "zone-file" => self.aim(Target::Zone),
            "before" => self.aim(Target::Before),
            "after" => self.aim(Target::After),
            "without" => Ok(self.given.without.push(Text::copied(alloc, rest)?)?),
            "fail" => self.add_fail(rest),
            "zone" => self.set_rule(alloc, rest),
            "window" => self.set_window(rest),
            "ask" => self.set_kind(alloc, rest),
            _ => Err(Trouble::Form),
        }
    }

    // Begins a case.
    fn begin(&mut self, alloc: Global, name: &str) -> Result<(), Trouble> {
        self.given.clear();
        self.kind = None;
        self.of = Text::new(alloc);
        self.before = Bytes::new(alloc);
        self.after = Bytes::new(alloc);
        self.in_case = true;
        self.shown.push_str("\ncase ")?;
        self.shown.push_str(name)?;
        Ok(self.shown.push_str("\n")?)
    }

    // The lines of content that follow are for that.
    fn aim(&mut self, target: Target) -> Result<(), Trouble> {
        self.target = target;
        Ok(())
    }

    // Puts the content so far where it belongs.
    fn close(&mut self, alloc: Global) -> Result<(), Trouble> {
        let content = mem::replace(&mut self.content, Bytes::new(alloc));
        match mem::replace(&mut self.target, Target::Nothing) {
            Target::Nothing if content.is_empty() => Ok(()),
            Target::Nothing => Err(Trouble::Form),
            Target::File(name) => self.add_file(name, content),
            Target::Piece(name) => Ok(self.pieces.push((name, content))?),
            Target::Zone => self.set_zone(ZoneText::File(content)),
            Target::Before => self.set_before(content),
            Target::After => self.set_after(content),
            Target::Question => self.ask_content(alloc, &content),
        }
    }

    fn set_before(&mut self, content: Bytes) -> Result<(), Trouble> {
        self.before = content;
        Ok(())
    }

    fn set_after(&mut self, content: Bytes) -> Result<(), Trouble> {
        self.after = content;
        Ok(())
    }

    // A file before the first case of a text is one of all cases.
    fn add_file(&mut self, name: Text, content: Bytes) -> Result<(), Trouble> {
        if self.in_case {
            self.given.own.push((name, content))?;
        } else {
            self.given.common.push((name, content))?;
        }
        Ok(())
    }

    fn add_fail(&mut self, rest: &str) -> Result<(), Trouble> {
        match rest.parse::<u64>() {
            Ok(number) => Ok(self.given.fails.push(number)?),
            Err(_) => Err(Trouble::Form),
        }
    }

    fn set_rule(&mut self, alloc: Global, rule: &str) -> Result<(), Trouble> {
        let rule = Text::copied(alloc, rule)?;
        self.set_zone(ZoneText::Rule(rule))
    }

    // The same holds for a zone and a window.
    fn set_zone(&mut self, zone: ZoneText) -> Result<(), Trouble> {
        if self.in_case {
            self.given.own_zone = Some(zone);
        } else {
            self.given.common_zone = Some(zone);
        }
        Ok(())
    }

    fn set_window(&mut self, rest: &str) -> Result<(), Trouble> {
        let (first, days) = first_word(rest);
        let days = days_of(first, days);
        if days.is_none() {
            return Err(Trouble::Form);
        }
        if self.in_case {
            self.given.own_days = days;
        } else {
            self.given.common_days = days;
        }
        Ok(())
    }

    fn set_kind(&mut self, alloc: Global, rest: &str) -> Result<(), Trouble> {
        let (name, of) = first_word(rest);
        self.kind = kind_of(name);
        self.of = Text::copied(alloc, of)?;
        match self.kind {
            Some(_) => Ok(()),
            None => Err(Trouble::Form),
        }
    }

    // A question of one line.
    fn ask_line(&mut self, alloc: Global, text: &str) -> Result<(), Trouble> {
        self.shown.push_str("? ")?;
        self.shown.push_str(text)?;
        self.shown.push_str("\n")?;
        self.ask(alloc, text.as_bytes())
    }

    // A question of lines of content.
    fn ask_content(&mut self, alloc: Global, content: &Bytes) -> Result<(), Trouble> {
        self.shown.push_str("?\n")?;
        add_bytes(alloc, content.as_slice(), &mut self.shown)?;
        self.ask(alloc, content.as_slice())
    }

    fn ask(&mut self, alloc: Global, bytes: &[u8]) -> Result<(), Trouble> {
        let whole = self.between(alloc, bytes)?;
        let Some(kind) = self.kind else {
            return Err(Trouble::Form);
        };
        self.set_asked(alloc, kind, &whole)?;
        let question = Question {
            kind,
            of: self.of.as_str(),
            bytes: whole.as_slice(),
        };
        add_answer(alloc, &self.given, question, &mut self.shown)
    }

    // A question with what stands round it.
    fn between(&self, alloc: Global, bytes: &[u8]) -> Result<Bytes, Trouble> {
        let mut whole = Bytes::copied(alloc, self.before.as_slice())?;
        whole.extend(bytes)?;
        whole.extend(self.after.as_slice())?;
        Ok(whole)
    }

    // A question may be a file of the folder, whose name stands behind the kind.
    fn set_asked(&mut self, alloc: Global, kind: Kind, whole: &Bytes) -> Result<(), Trouble> {
        self.given.asked = None;
        if kind.is_folder() && !self.of.as_str().is_empty() {
            let name = Text::copied(alloc, self.of.as_str())?;
            self.given.asked = Some((name, Bytes::copied(alloc, whole.as_slice())?));
        }
        Ok(())
    }
}
