//! The work of the commands, step by step in the order of `specs/Work.antt`. Nothing is written here.
ghost use Rattle.std.specs.Prelude.{◌≡◌, false, IfSome, IsErrOf};
ghost use Rattle.gw_base.specs.Answers.{UnlessFree};
ghost use Rattle.gw_base.specs.Count.{Counts};
ghost use Rattle.file_commands.specs.Exits.{is_free};
ghost use Rattle.file_commands.specs.Tasks.{IsTaskWork, OverFiles};
ghost use Rattle.file_commands.specs.Work as steps;
ghost use Rattle.command_words.specs.Windowed.{CanRun, HasWindow, reads_files};
ghost use Rattle.command_words.specs.Works.{board_of, scope_of, task_of};

use crate::boards::board_at;
use crate::deliveries::deliveries;
use crate::done::Done;
use crate::exit::Exit;
use crate::feeds::{feed_file, lines_of, siri_of, sx_of};
use crate::opening::setting;
use crate::samples::made_line;
use command_words::{AtStop, Scope, Task};
use gateway_core::{Gateway, Setting};
use gw_base::{Files, Moment, Text};
use std::alloc::Global;

// The conversion of the deliveries of the files that words name.
fn conversion<F: Files>(
    alloc: Global,
    files: &mut F,
    at: Moment,
    setting: Setting,
    words: &[Text],
) -> Result<Done, Exit>
    ensures told { IfSome (F.told files.old) (λ told. UnlessFree is_free result
        (steps.IsConversion at setting words.now told)) }
    ensures counts { Counts (IsErrOf result Exit.Failed) (F.faults files.old) (F.faults files.new) }
    ensures same { F.told files.new ≡ F.told files.old }
{
    let mut gate = Gateway::start(alloc, setting)?;
    match deliveries(alloc, files, &mut gate, at, words) {
        Ok(reports) => Ok(Done::feed(gate, at, reports)),
        Err(end) => Err(end),
    }
}

// The work of `to-gtfsrt`.
fn to_gtfsrt<F: Files>(
    alloc: Global,
    files: &mut F,
    scope: &Scope<'_>,
    at: Moment,
    more: &[Text],
) -> Result<Done, Exit>
    requires { HasWindow scope.now.from scope.now.days }
    ensures told { IfSome (F.told files.old) (λ told. UnlessFree is_free result
        (steps.IsToGtfsrtWork
        (record { scope = scope_of scope.now; at = at; more = more.now }) told)) }
    ensures counts { Counts (IsErrOf result Exit.Failed) (F.faults files.old) (F.faults files.new) }
    ensures same { F.told files.new ≡ F.told files.old }
{
    match setting(alloc, files, scope, None) {
        Ok(setting) => conversion(alloc, files, at, setting, more),
        Err(end) => Err(end),
    }
}

// What `to-siri` makes of a feed's file over a setting.
fn siri_of_file<F: Files>(
    alloc: Global,
    files: &mut F,
    at: Moment,
    setting: &Setting,
    name: &str,
) -> Result<Done, Exit>
    ensures told { IfSome (F.told files.old) (λ told. UnlessFree is_free result
        (steps.IsSiriOfFile at setting.now name.now told)) }
    ensures counts { Counts (IsErrOf result Exit.Failed) (F.faults files.old) (F.faults files.new) }
    ensures same { F.told files.new ≡ F.told files.old }
{
    match feed_file(alloc, files, name) {
        Ok(feed) => siri_of(alloc, at, setting, name, feed),
        Err(end) => Err(end),
    }
}

// The work of `to-siri`.
fn to_siri<F: Files>(
    alloc: Global,
    files: &mut F,
    scope: &Scope<'_>,
    at: Moment,
    feed: &str,
) -> Result<Done, Exit>
    requires { HasWindow scope.now.from scope.now.days }
    ensures told { IfSome (F.told files.old) (λ told. UnlessFree is_free result
        (steps.IsToSiriWork
        (record { scope = scope_of scope.now; at = at; feed = feed.now }) told)) }
    ensures counts { Counts (IsErrOf result Exit.Failed) (F.faults files.old) (F.faults files.new) }
    ensures same { F.told files.new ≡ F.told files.old }
{
    match setting(alloc, files, scope, None) {
        Ok(setting) => siri_of_file(alloc, files, at, &setting, feed),
        Err(end) => Err(end),
    }
}

// What `to-siri-sx` makes of a feed's file over a setting.
fn sx_of_file<F: Files>(
    alloc: Global,
    files: &mut F,
    at: Moment,
    setting: &Setting,
    name: &str,
) -> Result<Done, Exit>
    ensures told { IfSome (F.told files.old) (λ told. UnlessFree is_free result
        (steps.IsSxOfFile at setting.now name.now told)) }
    ensures counts { Counts (IsErrOf result Exit.Failed) (F.faults files.old) (F.faults files.new) }
    ensures same { F.told files.new ≡ F.told files.old }
{
    match feed_file(alloc, files, name) {
        Ok(feed) => sx_of(alloc, at, setting, name, &feed),
        Err(end) => Err(end),
    }
}

// The work of `to-siri-sx`.
fn to_siri_sx<F: Files>(
    alloc: Global,
    files: &mut F,
    scope: &Scope<'_>,
    at: Moment,
    feed: &str,
) -> Result<Done, Exit>
    requires { HasWindow scope.now.from scope.now.days }
    ensures told { IfSome (F.told files.old) (λ told. UnlessFree is_free result
        (steps.IsToSiriSxWork
        (record { scope = scope_of scope.now; at = at; feed = feed.now }) told)) }
    ensures counts { Counts (IsErrOf result Exit.Failed) (F.faults files.old) (F.faults files.new) }
    ensures same { F.told files.new ≡ F.told files.old }
{
    match setting(alloc, files, scope, None) {
        Ok(setting) => sx_of_file(alloc, files, at, &setting, feed),
        Err(end) => Err(end),
    }
}

// What `show` makes of a feed's file over a setting.
fn lines_of_file<F: Files>(
    alloc: Global,
    files: &mut F,
    setting: &Setting,
    name: &str,
) -> Result<Done, Exit>
    ensures told { IfSome (F.told files.old) (λ told. UnlessFree is_free result
        (steps.IsLinesOfFile setting.now name.now told)) }
    ensures counts { Counts (IsErrOf result Exit.Failed) (F.faults files.old) (F.faults files.new) }
    ensures same { F.told files.new ≡ F.told files.old }
{
    match feed_file(alloc, files, name) {
        Ok(feed) => Ok(lines_of(alloc, setting, feed)?),
        Err(end) => Err(end),
    }
}

// The work of `show`.
fn show<F: Files>(alloc: Global, files: &mut F, scope: &Scope<'_>, feed: &str) -> Result<Done, Exit>
    requires { HasWindow scope.now.from scope.now.days }
    ensures told { IfSome (F.told files.old) (λ told. UnlessFree is_free result
        (steps.IsShowWork (record { scope = scope_of scope.now; feed = feed.now }) told)) }
    ensures counts { Counts (IsErrOf result Exit.Failed) (F.faults files.old) (F.faults files.new) }
    ensures same { F.told files.new ≡ F.told files.old }
{
    match setting(alloc, files, scope, None) {
        Ok(setting) => lines_of_file(alloc, files, &setting, feed),
        Err(end) => Err(end),
    }
}

// The work of `board`.
fn board<F: Files>(alloc: Global, files: &mut F, board: &AtStop<'_>) -> Result<Done, Exit>
    requires { HasWindow board.now.scope.from board.now.scope.days }
    ensures told { IfSome (F.told files.old) (λ told. UnlessFree is_free result
        (steps.IsBoardWork (board_of board.now) told)) }
    ensures counts { Counts (IsErrOf result Exit.Failed) (F.faults files.old) (F.faults files.new) }
    ensures same { F.told files.new ≡ F.told files.old }
{
    match setting(alloc, files, &board.scope, None) {
        Ok(setting) => board_at(alloc, files, board, setting),
        Err(end) => Err(end),
    }
}

/// The work of a command over the files: what it writes, or how it ends.
pub fn task_work<F: Files>(alloc: Global, task: &Task<'_>, files: &mut F) -> Result<Done, Exit>
    requires { CanRun (task_of task.now) }
    ensures told { OverFiles (task_of task.now) (F.told files.old) (λ told. UnlessFree is_free result
        (IsTaskWork (task_of task.now) told)) }
    ensures counts { Counts (IsErrOf result Exit.Failed) (F.faults files.old) (F.faults files.new) }
    ensures same { F.told files.new ≡ F.told files.old }
    ensures unread { reads_files (task_of task.now) ≡ false → files.new ≡ files.old }
{
    match task {
        Task::ToGtfsrt { scope, at, more } => to_gtfsrt(alloc, files, scope, *at, more),
        Task::ToSiri { scope, at, feed } => to_siri(alloc, files, scope, *at, feed.as_str()),
        Task::ToSiriSx { scope, at, feed } => to_siri_sx(alloc, files, scope, *at, feed.as_str()),
        Task::Show { scope, feed } => show(alloc, files, scope, feed.as_str()),
        Task::Board(at_stop) => board(alloc, files, at_stop),
        Task::Make { seed, trips, stops } => made_line(alloc, *seed, *trips, *stops),
    }
}
