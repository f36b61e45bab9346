//! The words of a command line. Only exactly the lists of words of a command are accepted.
ghost use Rattle.std.specs.Prelude.{◌≡◌, map, option_map, slice_get, IfOk, IfErr, IsTrue};
ghost use Rattle.std.specs.List.{list_all};
ghost use Rattle.std.specs.Option.{option_copied};
ghost use Rattle.command_words.specs.Rows.{has_flag, have_flags, pair_of, row_of};
ghost use Rattle.command_words.specs.Words as spec;
ghost use Rattle.command_words.specs.Words.{IsJob, IsJobWith, IsRefusedAt, IsRefusedWith, Says, SaysBoard, SaysMake, SaysScope, SaysServe, SaysShow, SaysTask, SaysToGtfsrt, SaysToSiri, SaysToSiriSx, with_journal, zone_by};
ghost use Rattle.command_words.specs.Works.{board_of, job_of, scope_of, server_of, task_of, zone_of};

mod forms;
mod table;

use forms::{
    Form, connection_count, day_count, first_day, kept_count, minute_count, moment, seed_number,
    stop_count, trip_count, visit_count,
};
use gw_base::{Moment, Text};
use service_day::Day;
use table::{Command, Pair, check};

/// The word at which a list of words stops being the start of an accepted one, counted from 0.
#[derive(Clone, Copy, Debug, PartialEq, Eq)]
pub struct BadWord {
    /// The number of words of the longest prefix that an accepted list starts with.
    pub at: u64,
}

/// The zone of the timetable, as the words name it.
#[derive(Clone, Copy, Debug)]
pub enum ZoneWord<'a> {
    /// A POSIX rule.
    Rule(&'a Text),
    /// A file.
    File(&'a Text),
}

/// What a command works over.
#[derive(Clone, Copy, Debug)]
pub struct Scope<'a> {
    /// The GTFS Schedule folder.
    pub gtfs: &'a Text,
    /// The zone of its times.
    pub zone: ZoneWord<'a>,
    /// The first day of the window.
    pub from: Day,
    /// The number of days of the window, from 1 to 32.
    pub days: u8,
}

/// What the words of `serve` say: deliveries and feeds are taken, and a feed and a SIRI text served, over HTTP.
#[derive(Clone, Copy, Debug)]
pub struct Server<'a> {
    /// What it works over.
    pub scope: Scope<'a>,
    /// How many days before the local one are kept as the window rolls, fewer than it has.
    pub keep: u8,
    /// The address at which connections are taken.
    pub listen: &'a Text,
    /// How many connections are served.
    pub connections: u32,
    /// The file of its journal, if it has one.
    pub journal: Option<&'a Text>,
}

/// What the words of `board` say: what a display at a stop shows.
#[derive(Clone, Copy, Debug)]
pub struct AtStop<'a> {
    /// What it works over.
    pub scope: Scope<'a>,
    /// The moment at which the board is made, and from which on it shows visits.
    pub at: Moment,
    /// The id of the stop.
    pub stop: &'a Text,
    /// Of how many minutes it shows visits, from 1 to 1,440.
    pub minutes: u32,
    /// How many visits it shows at most, from 1 to 10,000.
    pub most: u32,
    /// The words of the deliveries: for each a flag and a file.
    pub more: &'a [Text],
}

/// A command that writes its result and ends.
#[derive(Clone, Copy, Debug)]
pub enum Task<'a> {
    /// `to-gtfsrt`: deliveries become a feed.
    ToGtfsrt {
        /// What it works over.
        scope: Scope<'a>,
        /// The moment at which the feed is made.
        at: Moment,
        /// The words of the deliveries: for each a flag, which says what it delivers, and a file.
        more: &'a [Text],
    },
    /// `to-siri`: a feed becomes a delivery.
    ToSiri {
        /// What it works over.
        scope: Scope<'a>,
        /// The moment at which the delivery is made.
        at: Moment,
        /// The feed's file.
        feed: &'a Text,
    },
    /// `to-siri-sx`: the alerts of a feed become a delivery of situations.
    ToSiriSx {
        /// What it works over.
        scope: Scope<'a>,
        /// The moment at which the delivery is made.
        at: Moment,
        /// The feed's file.
        feed: &'a Text,
    },
    /// `show`: what a feed says.
    Show {
        /// What it works over.
        scope: Scope<'a>,
        /// The feed's file.
        feed: &'a Text,
    },
    /// `board`: what a display at a stop shows of deliveries.
    Board(AtStop<'a>),
    /// `make`: a sample is run through the whole path, and what its feed says is counted. It reads no file.
    Make {
        /// What its draws begin with.
        seed: u32,
        /// How many trips it has, from 1 to 20,000.
        trips: u32,
        /// At how many stops each of them stops, from 2 to 100.
        stops: u32,
    },
}

/// A command with its words read.
#[derive(Clone, Copy, Debug)]
pub enum Work<'a> {
    /// `serve`.
    Serve(Server<'a>),
    /// Any other command.
    Task(Task<'a>),
}

const GTFS: Pair = Pair {
    flags: &["--gtfs"],
    form: Form::Filled,
};

const ZONE: Pair = Pair {
    flags: &["--zone-rule", "--zone-file"],
    form: Form::Filled,
};

const FROM: Pair = Pair {
    flags: &["--from"],
    form: Form::Day,
};

const DAYS: Pair = Pair {
    flags: &["--days"],
    form: Form::DayCount,
};

const KEEP: Pair = Pair {
    flags: &["--keep"],
    form: Form::KeptCount,
};

const LISTEN: Pair = Pair {
    flags: &["--listen"],
    form: Form::Filled,
};

const CONNECTIONS: Pair = Pair {
    flags: &["--connections"],
    form: Form::ConnectionCount,
};

const AT: Pair = Pair {
    flags: &["--at"],
    form: Form::Moment,
};

const FEED: Pair = Pair {
    flags: &["--feed"],
    form: Form::Filled,
};

const SEED: Pair = Pair {
    flags: &["--seed"],
    form: Form::Seed,
};

const TRIPS: Pair = Pair {
    flags: &["--trips"],
    form: Form::TripCount,
};

const STOPS: Pair = Pair {
    flags: &["--stops"],
    form: Form::StopCount,
};

const STOP: Pair = Pair {
    flags: &["--stop"],
    form: Form::Filled,
};

const MINUTES: Pair = Pair {
    flags: &["--minutes"],
    form: Form::MinuteCount,
};

const MAX: Pair = Pair {
    flags: &["--max"],
    form: Form::VisitCount,
};

const JOURNAL: Pair = Pair {
    flags: &["--journal"],
    form: Form::Filled,
};

// No further pair.
const NONE: Pair = Pair {
    flags: &[],
    form: Form::Filled,
};

// The commands, where `serve` has these optional pairs. In a list of words the value of the pair of number n, from 0
// on, is the word of number 2n + 2.
fn commands(optional: &'static [Pair]) -> [Command; 7]
    requires { IsTrue (list_all has_flag optional.now) }
    ensures rows { map row_of result ≡ spec.commands (map pair_of optional.now) }
    ensures flags { IsTrue (have_flags result) }
{
    [
        Command {
            name: "serve",
            pairs: &[GTFS, ZONE, FROM, DAYS, KEEP, LISTEN, CONNECTIONS],
            optional,
            repeated: NONE,
        },
        Command {
            name: "to-gtfsrt",
            pairs: &[GTFS, ZONE, FROM, DAYS, AT],
            optional: &[],
            repeated: Pair {
                flags: &["--et", "--sx"],
                form: Form::Filled,
            },
        },
        Command {
            name: "to-siri",
            pairs: &[GTFS, ZONE, FROM, DAYS, AT, FEED],
            optional: &[],
            repeated: NONE,
        },
        Command {
            name: "to-siri-sx",
            pairs: &[GTFS, ZONE, FROM, DAYS, AT, FEED],
            optional: &[],
            repeated: NONE,
        },
        Command {
            name: "show",
            pairs: &[GTFS, ZONE, FROM, DAYS, FEED],
            optional: &[],
            repeated: NONE,
        },
        Command {
            name: "board",
            pairs: &[GTFS, ZONE, FROM, DAYS, AT, STOP, MINUTES, MAX],
            optional: &[],
            repeated: Pair {
                flags: &["--et"],
                form: Form::Filled,
            },
        },
        Command {
            name: "make",
            pairs: &[SEED, TRIPS, STOPS],
            optional: &[],
            repeated: NONE,
        },
    ]
}

// The zone that a flag and its value name.
fn zone_word<'a>(flag: &Text, value: &'a Text) -> ZoneWord<'a>
    ensures { zone_of result ≡ zone_by flag.now value.now }
{
    if flag.as_str() == "--zone-file" {
        ZoneWord::File(value)
    } else {
        ZoneWord::Rule(value)
    }
}

// What the words say of what a command works over.
fn scope_in(words: &[Text]) -> Scope<'_>
    requires { (scope : spec.Scope) × SaysScope words.now scope }
    ensures { SaysScope words.now (scope_of result) }
{
    Scope {
        gtfs: &words[2],
        zone: zone_word(&words[3], &words[4]),
        from: first_day(&words[6]).unwrap(),
        days: day_count(&words[8]).unwrap(),
    }
}

// The word of that number, if there is one.
fn word_at(words: &[Text], number: usize) -> Option<&Text>
    ensures { slice_get words.now number ≡ option_map (λ word. word.now) result }
{
    match words.get(number) {
        Some(word) => Some(word),
        None => None,
    }
}

// What the words of `serve` say.
fn serve(words: &[Text]) -> Server<'_>
    requires { (command : spec.Serve) × SaysServe words.now command }
    ensures { SaysServe words.now (server_of result) }
{
    Server {
        scope: scope_in(words),
        keep: kept_count(&words[10]).unwrap(),
        listen: &words[12],
        connections: connection_count(&words[14]).unwrap(),
        journal: word_at(words, 16),
    }
}

// What the words of `to-gtfsrt` say.
fn to_gtfsrt(words: &[Text]) -> Task<'_>
    requires { (command : spec.ToGtfsrt) × SaysToGtfsrt words.now command }
    ensures { SaysTask words.now (task_of result) }
{
    Task::ToGtfsrt {
        scope: scope_in(words),
        at: moment(&words[10]).unwrap(),
        more: &words[11..],
    }
}

// What the words of `to-siri` say.
fn to_siri(words: &[Text]) -> Task<'_>
    requires { (command : spec.ToSiri) × SaysToSiri words.now command }
    ensures { SaysTask words.now (task_of result) }
{
    Task::ToSiri {
        scope: scope_in(words),
        at: moment(&words[10]).unwrap(),
        feed: &words[12],
    }
}

// What the words of `to-siri-sx` say.
fn to_siri_sx(words: &[Text]) -> Task<'_>
    requires { (command : spec.ToSiri) × SaysToSiriSx words.now command }
    ensures { SaysTask words.now (task_of result) }
{
    Task::ToSiriSx {
        scope: scope_in(words),
        at: moment(&words[10]).unwrap(),
        feed: &words[12],
    }
}

// What the words of `show` say.
fn show(words: &[Text]) -> Task<'_>
    requires { (command : spec.Show) × SaysShow words.now command }
    ensures { SaysTask words.now (task_of result) }
{
    Task::Show {
        scope: scope_in(words),
        feed: &words[10],
    }
}

// What the words of `board` say.
fn board(words: &[Text]) -> AtStop<'_>
    requires { (command : spec.Board) × SaysBoard words.now command }
    ensures { SaysBoard words.now (board_of result) }
{
    AtStop {
        scope: scope_in(words),
        at: moment(&words[10]).unwrap(),
        stop: &words[12],
        minutes: minute_count(&words[14]).unwrap(),
        most: visit_count(&words[16]).unwrap(),
        more: &words[17..],
    }
}

// What the words of `make` say.
fn make(words: &[Text]) -> Task<'_>
    requires { (command : spec.Make) × SaysMake words.now command }
    ensures { SaysTask words.now (task_of result) }
{
    Task::Make {
        seed: seed_number(&words[2]).unwrap(),
        trips: trip_count(&words[4]).unwrap(),
        stops: stop_count(&words[6]).unwrap(),
    }
}

// What the words of a command say.
fn read(words: &[Text]) -> Work<'_>
    requires { (job : spec.Job) × Says words.now job }
    ensures { Says words.now (job_of result) }
{
    match words[0].as_str() {
        "serve" => Work::Serve(serve(words)),
        "to-gtfsrt" => Work::Task(to_gtfsrt(words)),
        "to-siri" => Work::Task(to_siri(words)),
        "to-siri-sx" => Work::Task(to_siri_sx(words)),
        "board" => Work::Task(Task::Board(board(words))),
        "make" => Work::Task(make(words)),
        _ => Work::Task(show(words)),
    }
}

/// The address at which connections are to be taken, which is empty for other commands than `serve`. Takes no memory.
pub fn address(words: &[Text]) -> &str
    ensures listens { (command : spec.Serve) → IsJobWith with_journal words.now (spec.serve_job command)
        → result.now ≡ command.listen }
{
    match kept_job(words) {
        Ok(Work::Serve(server)) => server.listen.as_str(),
        Ok(Work::Task(_task)) => "",
        Err(_bad) => "",
    }
}

/// The file of the journal of a server; None for other commands than `serve`, and where it has none. Takes no memory.
pub fn journal(words: &[Text]) -> Option<&str>
    ensures file { (command : spec.Serve) → IsJobWith with_journal words.now (spec.serve_job command)
        → option_copied result ≡ command.journal }
{
    match kept_job(words) {
        Ok(Work::Serve(server)) => match server.journal {
            Some(file) => Some(file.as_str()),
            None => None,
        },
        Ok(Work::Task(_task)) => None,
        Err(_bad) => None,
    }
}

// The command that the words are, where `serve` has these optional pairs, or the word at fault.
fn job_with<'a>(optional: &'static [Pair], words: &'a [Text]) -> Result<Work<'a>, BadWord>
    requires { IsTrue (list_all has_flag optional.now) }
    ensures accepted { IfOk result (λ work. IsJobWith (map pair_of optional.now) words.now (job_of work)) }
    ensures refused { IfErr result (λ bad. IsRefusedWith (map pair_of optional.now) words.now bad.at) }
{
    check(&commands(optional), words)?;
    Ok(read(words))
}

/// The command that the words are, or the word at fault. Takes no memory.
pub fn job(words: &[Text]) -> Result<Work<'_>, BadWord>
    ensures accepted { IfOk result (λ work. IsJob words.now (job_of work)) }
    ensures refused { IfErr result (λ bad. IsRefusedAt words.now bad.at) }
{
    job_with(&[], words)
}

/// The command that the words are where a server may have a journal, or the word at fault. Takes no memory.
pub fn kept_job(words: &[Text]) -> Result<Work<'_>, BadWord>
    ensures accepted { IfOk result (λ work. IsJobWith with_journal words.now (job_of work)) }
    ensures refused { IfErr result (λ bad. IsRefusedWith with_journal words.now bad.at) }
{
    job_with(&[JOURNAL], words)
}
