//! The made folder as files in memory, and what a sample is worked over: the zone, the day and the moment of
//! `specs/Made.antt`.
ghost use Rattle.std.specs.Prelude.{◌≡◌, ◌++◌, ◌∷◌, [], None, IfOk, IfSome, IsErrOf, IsSome, OnOk};
ghost use Rattle.gw_base.specs.Answers.{UnlessFree};
ghost use Rattle.gw_base.specs.Directory.{bytes_of};
ghost use Rattle.sample_counts.specs.Counts as counts;
ghost use Rattle.command_words.specs.Windowed.{HasWindow};
ghost use Rattle.command_words.specs.Words.{by_rule};
ghost use Rattle.command_words.specs.Works.{scope_of};
ghost use Rattle.sample_maker.specs.Folder.{folder as files_of};
ghost use Rattle.file_commands.specs.Exits.{is_free};
ghost use Rattle.file_commands.specs.Made as spec;
ghost use Rattle.file_commands.specs.Made.{HasMadeDay};
ghost use Rattle.file_commands.specs.Samples as steps;
ghost use Rattle.file_commands.specs.Served.{text_of};
ghost use Rattle.file_commands.specs.Work.{IsSettingOf};

use crate::exit::Exit;
use crate::opening::setting;
use command_words::{Scope, ZoneWord};
use gateway_core::Setting;
use gw_base::{Bytes, Files, List, MemoryFiles, Moment, Text};
use sample_maker::Maker;
use service_day::{Day, DayForm, read_day};
use std::alloc::{AllocError, Global};

/// What the folder and each delivery are named.
pub const MADE: &str = "made";

// The sample's service day, 2024-05-01.
fn made_day() -> Day
    ensures { result ≡ counts.made_day }
{
    match read_day("2024-05-01", DayForm::Dashed) {
        Some(day) => day,
        None => unreachable!(),
    }
}

/// The moment at which that day starts: then the deliveries arrive, and the feed is made.
pub fn made_moment() -> Moment
    ensures { result ≡ spec.made_at }
{
    Moment::new(1_714_521_600).unwrap()
}

/// How work over files in memory ends.
pub fn from_memory(end: Exit) -> Exit
    ensures { result ≡ steps.from_memory end }
{
    match end {
        Exit::Failed => Exit::Memory,
        end => end,
    }
}

// The path of a file in the made folder.
fn path_in(alloc: Global, name: &str) -> Result<Text, AllocError>
    ensures { IfOk result (λ path. path ≡ spec.path_in name.now) }
{
    let mut path = Text::copied(alloc, "made/")?;
    path.push(name)?;
    Ok(path)
}

// Adds the file of that name.
fn add_file(
    alloc: Global,
    files: &mut List<(Text, Bytes)>,
    maker: &Maker,
    name: &str,
) -> Result<(), AllocError>
    requires { IsSome (bytes_of (files_of maker.now.trips maker.now.stops) name.now) }
    ensures { OnOk result (files.new ≡ files.old
        ++ (spec.path_in name.now, text_of maker.now.trips maker.now.stops name.now) ∷ []) }
{
    let path = path_in(alloc, name)?;
    let text = maker.file(alloc, name)?;
    files.push((path, text))
}

// The files of the made folder.
fn made_files(alloc: Global, maker: &Maker) -> Result<List<(Text, Bytes)>, AllocError>
    ensures { IfOk result (λ files. files ≡ spec.made_files maker.now.trips maker.now.stops) }
{
    let mut files = List::new(alloc);
    add_file(alloc, &mut files, maker, "agency.txt")?;
    add_file(alloc, &mut files, maker, "stops.txt")?;
    add_file(alloc, &mut files, maker, "routes.txt")?;
    add_file(alloc, &mut files, maker, "trips.txt")?;
    add_file(alloc, &mut files, maker, "calendar.txt")?;
    add_file(alloc, &mut files, maker, "stop_times.txt")?;
    Ok(files)
}

// What a sample is worked over, as words would say it: the folder of that name, and the zone of that rule.
fn made_scope<'a>(gtfs: &'a Text, rule: &'a Text) -> Scope<'a>
    ensures value { scope_of result
        ≡ record { gtfs = gtfs.now; zone = by_rule rule.now; from = counts.made_day; days = 1 } }
    ensures window { HasWindow result.from result.days }
{
    Scope {
        gtfs,
        zone: ZoneWord::Rule(rule),
        from: made_day(),
        days: 1,
    }
}

// What is worked over in the folder of that name, and the zone of that rule.
fn setting_in<F: Files>(
    alloc: Global,
    files: &mut F,
    gtfs: &Text,
    rule: &Text,
) -> Result<Setting, Exit>
    ensures told { IfSome (F.told files.old) (λ told. UnlessFree is_free result
        (IsSettingOf (record { gtfs = gtfs.now; zone = by_rule rule.now; from = counts.made_day; days = 1 }) None
        told)) }
{
    setting(alloc, files, &made_scope(gtfs, rule), None)
}

/// What a sample is worked over.
pub fn made_setting(alloc: Global, maker: &Maker) -> Result<Setting, Exit>
    ensures told { UnlessFree is_free result (steps.IsMadeSetting maker.now.trips maker.now.stops) }
    ensures day { IfOk result HasMadeDay }
    ensures calm { ¬ IsErrOf result Exit.Failed }
{
    let files = made_files(alloc, maker)?;
    let mut files = MemoryFiles::make(files, List::new(alloc));
    let gtfs = Text::copied(alloc, MADE)?;
    let rule = Text::copied(alloc, "UTC0")?;
    match setting_in(alloc, &mut files, &gtfs, &rule) {
        Ok(setting) => Ok(setting),
        Err(end) => Err(from_memory(end)),
    }
}
