//! The deliveries that a command reads, file by file, each taken by the gateway. The functions meet `specs/Work.antt`.
ghost use Rattle.std.specs.Prelude.{◌≡◌, ◌++◌, [], List, IfSome, IsErrOf, OnOk, option_map};
ghost use Rattle.gw_base.specs.Answers.{UnlessFree};
ghost use Rattle.gw_base.specs.Count.{Counts};
ghost use Rattle.file_commands.specs.Exits.{is_free};
ghost use Rattle.file_commands.specs.Served.{IsNext, IsStanding, Takes, TakesAll};
ghost use Rattle.file_commands.specs.Work as steps;
ghost use Rattle.file_commands.specs.Work.{nothing};
ghost use Rattle.gateway_core.specs.Arrivals.{Arrival};
ghost use Rattle.gateway_core.specs.Reports as reports;
ghost use Rattle.gateway_core.specs.Standing.{Stands};

use crate::bodies::body_end;
use crate::exit::Exit;
use crate::reading::further_file;
use gateway_core::{Gateway, feed_report};
use gw_base::{BODY_LIMIT, Bytes, Files, Moment, Text};
use journey_model::Report;
use std::alloc::{AllocError, Global};

// The flag of a delivery of situations.
const SITUATIONS: &str = "--sx";

/// The flag of a delivery of journeys.
pub const JOURNEYS: &str = "--et";

// Takes the body of a delivery of journeys, which arrives at that moment.
fn journeys_taken(
    alloc: Global,
    gate: &mut Gateway,
    at: Moment,
    body: &[u8],
    name: &str,
) -> Result<Report, Exit>
    ensures told { (arrivals : List Arrival) → Stands gate.old arrivals → UnlessFree is_free result
        (Takes (steps.GivesJourneys gate.old.setting at name.now body.now arrivals) at arrivals gate.new) }
    ensures calm { ¬ IsErrOf result Exit.Failed }
    ensures setting { gate.new.setting ≡ gate.old.setting }
{
    match gate.take_estimated(alloc, body, at) {
        Ok(accepted) => Ok(accepted.report),
        Err(fault) => Err(body_end(alloc, name, fault)?),
    }
}

// Takes the body of a delivery of situations.
fn situations_taken(
    alloc: Global,
    gate: &mut Gateway,
    at: Moment,
    body: &[u8],
    name: &str,
) -> Result<Report, Exit>
    ensures told { (arrivals : List Arrival) → Stands gate.old arrivals → UnlessFree is_free result
        (Takes (steps.GivesSituations gate.old.setting at name.now body.now arrivals) at arrivals gate.new) }
    ensures calm { ¬ IsErrOf result Exit.Failed }
    ensures setting { gate.new.setting ≡ gate.old.setting }
{
    match gate.take_situations(alloc, body, at) {
        Ok(accepted) => Ok(accepted.report),
        Err(fault) => Err(body_end(alloc, name, fault)?),
    }
}

// Takes a body of what its flag says: situations after `--sx`, else journeys.
fn body_taken(
    alloc: Global,
    gate: &mut Gateway,
    at: Moment,
    flag: &str,
    body: &[u8],
    name: &str,
) -> Result<Report, Exit>
    ensures told { (arrivals : List Arrival) → Stands gate.old arrivals → UnlessFree is_free result
        (Takes (steps.GivesBody gate.old.setting at flag.now name.now body.now arrivals) at arrivals gate.new) }
    ensures calm { ¬ IsErrOf result Exit.Failed }
    ensures setting { gate.new.setting ≡ gate.old.setting }
{
    if flag == SITUATIONS {
        situations_taken(alloc, gate, at, body, name)
    } else {
        journeys_taken(alloc, gate, at, body, name)
    }
}

/// Takes what a file delivers, after the flag that says what that is.
pub fn file_taken<F: Files>(
    alloc: Global,
    files: &mut F,
    gate: &mut Gateway,
    at: Moment,
    flag: &str,
    name: &str,
) -> Result<Report, Exit>
    ensures told { IfSome (F.told files.old) (λ told. (arrivals : List Arrival)
        → Stands gate.old arrivals → UnlessFree is_free result
        (Takes (steps.GivesFile gate.old.setting at flag.now name.now told arrivals) at arrivals gate.new)) }
    ensures stands { IsStanding gate.old → OnOk result (IsStanding gate.new) }
    ensures counts { Counts (IsErrOf result Exit.Failed) (F.faults files.old) (F.faults files.new) }
    ensures same { F.told files.new ≡ F.told files.old }
    ensures setting { gate.new.setting ≡ gate.old.setting }
{
    let body = further_file(alloc, files, name, BODY_LIMIT)?;
    body_taken(alloc, gate, at, flag, body.as_slice(), name)
}

// The first two words, a flag and a path, and the words after them.
fn next_file(words: &[Text]) -> Option<(&Text, &Text, &[Text])>
    ensures { IsNext words.now (option_map (λ next. (next.0.now, next.1.now, next.2.now)) result) }
{
    match words {
        [flag, name, after @ ..] => Some((flag, name, after)),
        _ => None,
    }
}

// The reports so far with the one on a file more.
fn add_report(
    alloc: Global,
    so_far: &mut Bytes,
    name: &str,
    report: &Report,
) -> Result<(), AllocError>
    ensures { OnOk result (so_far.new ≡ so_far.old ++ reports.feed_report name.now report.now) }
{
    let lines = feed_report(alloc, name, report)?;
    so_far.extend(lines.as_slice())
}

/// Takes the deliveries of the files that words name, a flag before each, in order, by a gateway that took nothing yet.
/// Each arrives at that moment. Answers the reports on them.
pub fn deliveries<F: Files>(
    alloc: Global,
    files: &mut F,
    gate: &mut Gateway,
    at: Moment,
    words: &[Text],
) -> Result<Bytes, Exit>
    requires new { Stands gate.old [] }
    ensures told { IfSome (F.told files.old) (λ told. UnlessFree is_free result
        (TakesAll (steps.Arrives gate.old.setting at told words.now nothing) gate.new)) }
    ensures stands { OnOk result (IsStanding gate.new) }
    ensures counts { Counts (IsErrOf result Exit.Failed) (F.faults files.old) (F.faults files.new) }
    ensures same { F.told files.new ≡ F.told files.old }
    ensures setting { gate.new.setting ≡ gate.old.setting }
{
    let mut so_far = Bytes::new(alloc);
    let mut rest = words;
    while let Some((flag, name, after)) = next_file(rest) {
        let report = match file_taken(alloc, files, gate, at, flag.as_str(), name.as_str()) {
            Ok(report) => report,
            Err(end) => return Err(end),
        };
        add_report(alloc, &mut so_far, name.as_str(), &report)?;
        rest = after;
    }
    Ok(so_far)
}
