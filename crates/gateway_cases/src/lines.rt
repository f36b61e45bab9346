//! The lines of cases, each carried out as it is read.
use crate::given::{Device, Front, Given, Number, device_of, number_of};
use crate::pieces::{Named, Trouble, add_content, bytes_of, first_word, is_content};
use crate::runs::run;
use gw_base::{Bytes, List, Moment, Text};
use service_day::read_utc;
use std::alloc::Global;
use std::mem;

// What the lines of content are for.
#[derive(Drop)]
enum Target {
    Nothing,
    File(Text),
    Piece(Text),
    Input,
    Post(Text),
    Disk,
}

/// What was read so far, and the lines of the transcript.
#[derive(Drop)]
pub struct Cases {
    given: Given,
    pieces: List<Named>,
    in_case: bool,
    moment: Moment,
    target: Target,
    content: Bytes,
    // What the last run wrote to standard output, and the number of the run in its case.
    last: Bytes,
    run: u64,
    /// The transcript of what was carried out.
    pub shown: String,
}

impl Cases {
    /// None yet, at that moment.
    pub fn new(alloc: Global, moment: Moment) -> Cases {
        Cases {
            given: Given::new(alloc),
            pieces: List::new(alloc),
            in_case: false,
            moment,
            target: Target::Nothing,
            content: Bytes::new(alloc),
            last: Bytes::new(alloc),
            run: 0,
            shown: String::new(alloc),
        }
    }

    /// Carries out the lines of a text; a line that isn't is shown with its number.
    pub fn take(&mut self, alloc: Global, text: &str) -> Result<(), Trouble> {
        self.in_case = false;
        for (place, line) in text.lines().enumerate() {
            match self.take_line(alloc, line) {
                Ok(()) => {}
                Err(Trouble::Memory) => return Err(Trouble::Memory),
                Err(Trouble::Form) => self.show_wrong(alloc, place.saturating_add(1), line)?,
            }
        }
        self.close(alloc)
    }

    fn show_wrong(&mut self, alloc: Global, number: usize, line: &str) -> Result<(), Trouble> {
        let told = format!(in alloc; "line {number} is none of a case: {line}\n")?;
        Ok(self.shown.push_str(told.as_str())?)
    }

    // Carries out a line, or those of a piece for `do`.
    fn take_line(&mut self, alloc: Global, line: &str) -> Result<(), Trouble> {
        let ("do", name) = first_word(line) else {
            return self.take_one(alloc, line);
        };
        self.close(alloc)?;
        let Some(piece) = bytes_of(self.pieces.as_slice(), name) else {
            return Err(Trouble::Form);
        };
        let lines = Bytes::copied(alloc, piece.as_slice())?;
        let Ok(lines) = str::from_utf8(lines.as_slice()) else {
            return Err(Trouble::Form);
        };
        for line in lines.lines() {
            self.take_one(alloc, line)?;
        }
        Ok(())
    }

    fn take_one(&mut self, alloc: Global, line: &str) -> Result<(), Trouble> {
        if line.is_empty() || line.starts_with('#') {
            return Ok(());
        }
        if is_content(line) {
            return add_content(alloc, self.pieces.as_slice(), line, &mut self.content);
        }
        self.close(alloc)?;
        let (word, rest) = first_word(line);
        match word {
            "case" => self.begin(rest),
            "file" => self.aim(Target::File(Text::copied(alloc, rest)?)),
            "piece" => self.aim(Target::Piece(Text::copied(alloc, rest)?)),
            "input" => self.aim(Target::Input),
            "disk" => self.aim(Target::Disk),
            "post" => self.aim(Target::Post(Text::copied(alloc, rest)?)),
            "get" => self.get(alloc, rest),
            _ => self.take_setting(alloc, word, rest),
        }
    }

    fn take_setting(&mut self, alloc: Global, word: &str, rest: &str) -> Result<(), Trouble> {
        match word {
            "without" => Ok(self.given.without.push(Text::copied(alloc, rest)?)?),
            "at" => self.set_moment(rest),
            "fail" => self.add_fail(rest),
            "room" => self.set_room(rest),
            "cut" => self.set_cut(rest),
            "each" => self.set_rounds(rest),
            "front" => self.add_front(alloc, rest, true),
            "part" => self.add_front(alloc, rest, false),
            "word" => Ok(self.given.words.push(Text::copied(alloc, rest)?)?),
            "words" => self.add_words(alloc, rest),
            "run" => self.run_all(alloc, rest),
            "keep" => self.keep(alloc, rest),
            _ => Err(Trouble::Form),
        }
    }

    // Begins a case.
    fn begin(&mut self, name: &str) -> Result<(), Trouble> {
        self.given.clear();
        self.in_case = true;
        self.run = 0;
        self.shown.push_str("\ncase ")?;
        self.shown.push_str(name)?;
        Ok(self.shown.push_str("\n")?)
    }

    // The lines of content that follow are for that.
    fn aim(&mut self, target: Target) -> Result<(), Trouble> {
        self.target = target;
        Ok(())
    }

    // Puts the content so far where it belongs.
    fn close(&mut self, alloc: Global) -> Result<(), Trouble> {
        let content = mem::replace(&mut self.content, Bytes::new(alloc));
        match mem::replace(&mut self.target, Target::Nothing) {
            Target::Nothing if content.is_empty() => Ok(()),
            Target::Nothing => Err(Trouble::Form),
            Target::File(name) => self.add_file(name, content),
            Target::Piece(name) => Ok(self.pieces.push((name, content))?),
            Target::Input => self.add_input(content),
            Target::Post(path) => self.post(alloc, &path, &content),
            Target::Disk => {
                self.given.journal = content;
                Ok(())
            }
        }
    }

    // A file before the first case of a text is one of all cases.
    fn add_file(&mut self, name: Text, content: Bytes) -> Result<(), Trouble> {
        if self.in_case {
            self.given.own.push((name, content))?;
        } else {
            self.given.common.push((name, content))?;
        }
        Ok(())
    }

    fn add_input(&mut self, input: Bytes) -> Result<(), Trouble> {
        self.given.moments.push(self.moment)?;
        self.given.inputs.push(input)?;
        Ok(())
    }

    fn get(&mut self, alloc: Global, path: &str) -> Result<(), Trouble> {
        let head = format!(in alloc; "GET {path} HTTP/1.1\r\n\r\n")?;
        self.add_input(Bytes::copied(alloc, head.as_str().as_bytes())?)
    }

    fn post(&mut self, alloc: Global, path: &Text, body: &Bytes) -> Result<(), Trouble> {
        let path = path.as_str();
        let length = body.len();
        let head = format!(in alloc; "POST {path} HTTP/1.1\r\nContent-Length: {length}\r\n\r\n")?;
        let mut input = Bytes::copied(alloc, head.as_str().as_bytes())?;
        input.extend(body.as_slice())?;
        self.add_input(input)
    }

    fn set_moment(&mut self, text: &str) -> Result<(), Trouble> {
        let Some(moment) = moment_of(text) else {
            return Err(Trouble::Form);
        };
        self.moment = moment;
        Ok(())
    }

    fn add_fail(&mut self, rest: &str) -> Result<(), Trouble> {
        match device_and_number(rest) {
            Some(fail) => Ok(self.given.fails.push(fail)?),
            None => Err(Trouble::Form),
        }
    }

    fn set_room(&mut self, rest: &str) -> Result<(), Trouble> {
        match device_and_number(rest) {
            Some((Device::Out, room)) => self.given.out_room = room,
            Some((Device::Err, room)) => self.given.err_room = room,
            Some((Device::Door, room)) => self.given.door_room = room,
            _ => return Err(Trouble::Form),
        }
        Ok(())
    }

    fn set_cut(&mut self, rest: &str) -> Result<(), Trouble> {
        match number_of(rest) {
            Some(cut) => self.given.cut = cut,
            None => return Err(Trouble::Form),
        }
        Ok(())
    }

    // The numbers and the ranges, as 1-40, of rounds.
    fn set_rounds(&mut self, rest: &str) -> Result<(), Trouble> {
        self.given.rounds.clear();
        for word in rest.split(' ') {
            let (from, to) = match word.split_once('-') {
                Some(range) => range,
                None => (word, word),
            };
            let (Ok(from), Ok(to)) = (from.parse::<u64>(), to.parse::<u64>()) else {
                return Err(Trouble::Form);
            };
            for round in from..=to {
                self.given.rounds.push(round)?;
            }
        }
        Ok(())
    }

    fn add_front(&mut self, alloc: Global, rest: &str, may_be_whole: bool) -> Result<(), Trouble> {
        let (name, piece) = first_word(rest);
        let piece = bytes_of(self.pieces.as_slice(), piece);
        let (Some(device), Some(piece)) = (device_of(name), piece) else {
            return Err(Trouble::Form);
        };
        let of = Bytes::copied(alloc, piece.as_slice())?;
        Ok(
            self.given.fronts.push(Front {
                device,
                may_be_whole,
                of,
            })?,
        )
    }

    fn add_words(&mut self, alloc: Global, words: &str) -> Result<(), Trouble> {
        for word in words.split(' ') {
            self.given.words.push(Text::copied(alloc, word)?)?;
        }
        Ok(())
    }

    // What the last run wrote becomes a file.
    fn keep(&mut self, alloc: Global, name: &str) -> Result<(), Trouble> {
        let name = Text::copied(alloc, name)?;
        let bytes = Bytes::copied(alloc, self.last.as_slice())?;
        Ok(self.given.own.push((name, bytes))?)
    }

    // Runs the words so far, and these behind them, in each round.
    fn run_all(&mut self, alloc: Global, words: &str) -> Result<(), Trouble> {
        if !words.is_empty() {
            self.add_words(alloc, words)?;
        }
        self.run = self.run.saturating_add(1);
        let line = format!(in alloc; "run {}\n", self.run)?;
        self.shown.push_str(line.as_str())?;
        if self.given.rounds.is_empty() {
            let left = run(alloc, &self.given, 0)?;
            self.last = left.out;
            self.given.journal = left.disk;
            self.shown.push_str(left.lines.as_str())?;
        } else {
            self.run_rounds(alloc)?;
        }
        self.given.words.clear();
        Ok(())
    }

    // Runs all rounds; of those after one another that leave the same the first and the last are shown.
    fn run_rounds(&mut self, alloc: Global) -> Result<(), Trouble> {
        let mut before = String::new(alloc);
        let mut first = 0;
        let mut last = 0;
        for place in 0..self.given.rounds.len() {
            let Some(round) = self.given.rounds.as_slice().get(place).copied() else {
                break;
            };
            let left = self.run_once(alloc, round)?;
            if left.as_str() != before.as_str() {
                self.show_rounds(alloc, first, last, before.as_str())?;
                before = left;
                first = round;
            }
            last = round;
        }
        self.show_rounds(alloc, first, last, before.as_str())
    }

    fn show_rounds(
        &mut self,
        alloc: Global,
        first: u64,
        last: u64,
        left: &str,
    ) -> Result<(), Trouble> {
        if left.is_empty() {
            return Ok(());
        }
        let line = format!(in alloc; "rounds {first} to {last}\n")?;
        self.shown.push_str(line.as_str())?;
        Ok(self.shown.push_str(left)?)
    }

    // The lines of what a round leaves.
    fn run_once(&mut self, alloc: Global, round: u64) -> Result<String, Trouble> {
        let left = run(alloc, &self.given, round)?;
        self.last = left.out;
        Ok(left.lines)
    }
}

fn moment_of(text: &str) -> Option<Moment> {
    Moment::new(read_utc(text)?)
}

fn device_and_number(text: &str) -> Option<(Device, Number)> {
    let (name, number) = text.split_once(' ')?;
    Some((device_of(name)?, number_of(number)?))
}
