//! What `board` makes of deliveries. The functions meet `specs/Work.antt`.
ghost use Rattle.std.specs.Prelude.{◌≡◌, ◌<◌, [], List, length, IfOk, IfSome, IsErrOf};
ghost use Rattle.gw_base.specs.Answers.{UnlessFree};
ghost use Rattle.gw_base.specs.Count.{Counts};
ghost use Rattle.gateway_core.specs.Arrivals.{Arrival};
ghost use Rattle.gateway_core.specs.Standing.{Stands};
ghost use Rattle.file_commands.specs.Exits.{is_free};
ghost use Rattle.file_commands.specs.Served.{IsStanding};
ghost use Rattle.file_commands.specs.Work as steps;
ghost use Rattle.command_words.specs.Works.{board_of as said};

use crate::deliveries::deliveries;
use crate::done::Done;
use crate::exit::Exit;
use crate::reading::joined;
use board_command::board_of;
use command_words::AtStop;
use gateway_core::{Gateway, Setting};
use gw_base::{Bytes, Files};
use std::alloc::Global;
use timetable::StopNo;

// The stop of that id.
fn stop_named(alloc: Global, setting: &Setting, id: &str) -> Result<StopNo, Exit>
    ensures told { UnlessFree is_free result (steps.IsStop id.now setting.now) }
    ensures within { IfOk result (λ stop. stop.0 < length setting.now.table.stops) }
    ensures calm { ¬ IsErrOf result Exit.Failed }
{
    match setting.table.find_stop(id) {
        Some(stop) => Ok(stop),
        None => Err(Exit::Refused(joined(alloc, "UnknownStop ", id)?)),
    }
}

// The board of a gateway at a stop, after the reports on what it took.
fn board_of_gate(
    alloc: Global,
    gate: &Gateway,
    board: &AtStop<'_>,
    stop: StopNo,
    reports: Bytes,
) -> Result<Done, Exit>
    requires stop { stop.0 < length gate.now.setting.table.stops }
    requires stands { IsStanding gate.now }
    ensures told { (arrivals : List Arrival) → Stands gate.now arrivals → UnlessFree is_free result
        (steps.IsBoardOf (said board.now) gate.now.setting stop
        (record { arrivals = arrivals; reports = reports })) }
    ensures calm { ¬ IsErrOf result Exit.Failed }
{
    let out = board_of(alloc, gate, board.at, stop, board.minutes, board.most)?;
    Ok(Done::texts(out, reports))
}

// The board of the files' deliveries at a stop, by a gateway that took nothing yet.
fn board_taken<F: Files>(
    alloc: Global,
    files: &mut F,
    gate: &mut Gateway,
    board: &AtStop<'_>,
    stop: StopNo,
) -> Result<Done, Exit>
    requires new { Stands gate.old [] }
    requires stop { stop.0 < length gate.old.setting.table.stops }
    ensures told { IfSome (F.told files.old) (λ told. UnlessFree is_free result
        (steps.IsBoardOfFiles (said board.now) gate.old.setting told stop)) }
    ensures counts { Counts (IsErrOf result Exit.Failed) (F.faults files.old) (F.faults files.new) }
    ensures same { F.told files.new ≡ F.told files.old }
{
    match deliveries(alloc, files, gate, board.at, board.more) {
        Ok(reports) => board_of_gate(alloc, gate, board, stop, reports),
        Err(end) => Err(end),
    }
}

// The board of the files' deliveries at a stop of the setting.
fn board_of_files<F: Files>(
    alloc: Global,
    files: &mut F,
    board: &AtStop<'_>,
    setting: Setting,
    stop: StopNo,
) -> Result<Done, Exit>
    requires { stop.0 < length setting.table.stops }
    ensures told { IfSome (F.told files.old) (λ told. UnlessFree is_free result
        (steps.IsBoardOfFiles (said board.now) setting told stop)) }
    ensures counts { Counts (IsErrOf result Exit.Failed) (F.faults files.old) (F.faults files.new) }
    ensures same { F.told files.new ≡ F.told files.old }
{
    let mut gate = Gateway::start(alloc, setting)?;
    board_taken(alloc, files, &mut gate, board, stop)
}

/// The board of the files' deliveries at the stop that the words name.
pub fn board_at<F: Files>(
    alloc: Global,
    files: &mut F,
    board: &AtStop<'_>,
    setting: Setting,
) -> Result<Done, Exit>
    ensures told { IfSome (F.told files.old) (λ told. UnlessFree is_free result
        (steps.IsBoardAt (said board.now) setting told)) }
    ensures counts { Counts (IsErrOf result Exit.Failed) (F.faults files.old) (F.faults files.new) }
    ensures same { F.told files.new ≡ F.told files.old }
{
    match stop_named(alloc, &setting, board.stop.as_str()) {
        Ok(stop) => board_of_files(alloc, files, board, setting, stop),
        Err(end) => Err(end),
    }
}
