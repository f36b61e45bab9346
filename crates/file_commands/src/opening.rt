//! What a command works over: the timetable of its folder, its zone, and the window. The functions meet the first steps
//! of `specs/Work.antt`.
ghost use Rattle.std.specs.Prelude.{◌≡◌, IfOk, IfSome, IsErrOf};
ghost use Rattle.gw_base.specs.Answers.{UnlessFree};
ghost use Rattle.gw_base.specs.Count.{Counts};
ghost use Rattle.command_words.specs.Windowed.{HasWindow};
ghost use Rattle.command_words.specs.Words.{by_file};
ghost use Rattle.command_words.specs.Works.{scope_of, zone_of};
ghost use Rattle.file_commands.specs.Exits.{is_free};
ghost use Rattle.file_commands.specs.Work as steps;

use crate::exit::Exit;
use crate::folder_end::folder_end;
use crate::reading::{ZONE_LIMIT, further_file};
use command_words::{Scope, ZoneWord};
use gateway_core::Setting;
use gw_base::{Files, Text};
use service_day::{Window, Zone, ZoneFault};
use std::alloc::{AllocError, Global};
use stop_schedule::{Timetable, read_timetable};

// The timetable of a folder.
fn folder<F: Files>(alloc: Global, files: &mut F, dir: &str) -> Result<Timetable, Exit>
    ensures told { IfSome (F.told files.old) (λ told. UnlessFree is_free result (steps.IsFolder dir.now told)) }
    ensures counts { Counts (IsErrOf result Exit.Failed) (F.faults files.old) (F.faults files.new) }
    ensures same { F.told files.new ≡ F.told files.old }
{
    match read_timetable(alloc, files, dir) {
        Ok(table) => Ok(table),
        Err(fault) => Err(folder_end(alloc, dir, fault)?),
    }
}

// The end that a fault of a zone is.
fn zone_end(alloc: Global, fault: ZoneFault) -> Result<Exit, AllocError>
    ensures { IfOk result (λ end. end ≡ steps.zone_end fault) }
{
    match fault {
        ZoneFault::Refused => Ok(Exit::Refused(Text::copied(alloc, "zone refused")?)),
        ZoneFault::Memory => Ok(Exit::Memory),
    }
}

// The zone of a POSIX rule.
fn rule_zone(alloc: Global, rule: &str) -> Result<Zone, Exit>
    ensures told { UnlessFree is_free result (steps.IsZoneOfRule rule.now) }
    ensures calm { ¬ IsErrOf result Exit.Failed }
{
    match Zone::from_rule(rule) {
        Ok(zone) => Ok(zone),
        Err(fault) => Err(zone_end(alloc, fault)?),
    }
}

// The zone of the bytes of a TZif file.
fn table_zone(alloc: Global, bytes: &[u8]) -> Result<Zone, Exit>
    ensures told { UnlessFree is_free result (steps.IsZoneOfTable bytes.now) }
    ensures calm { ¬ IsErrOf result Exit.Failed }
{
    match Zone::from_file(alloc, bytes) {
        Ok(zone) => Ok(zone),
        Err(fault) => Err(zone_end(alloc, fault)?),
    }
}

// The zone of a TZif file.
fn file_zone<F: Files>(alloc: Global, files: &mut F, path: &str) -> Result<Zone, Exit>
    ensures told { IfSome (F.told files.old) (λ told. UnlessFree is_free result
        (steps.IsNamedZone (by_file path.now) told)) }
    ensures counts { Counts (IsErrOf result Exit.Failed) (F.faults files.old) (F.faults files.new) }
    ensures same { F.told files.new ≡ F.told files.old }
{
    let bytes = further_file(alloc, files, path, ZONE_LIMIT)?;
    table_zone(alloc, bytes.as_slice())
}

// The zone that the words name.
fn zone<F: Files>(alloc: Global, files: &mut F, word: &ZoneWord<'_>) -> Result<Zone, Exit>
    ensures told { IfSome (F.told files.old) (λ told. UnlessFree is_free result
        (steps.IsNamedZone (zone_of word.now) told)) }
    ensures counts { Counts (IsErrOf result Exit.Failed) (F.faults files.old) (F.faults files.new) }
    ensures same { F.told files.new ≡ F.told files.old }
{
    match word {
        ZoneWord::Rule(rule) => rule_zone(alloc, rule.as_str()),
        ZoneWord::File(path) => file_zone(alloc, files, path.as_str()),
    }
}

// The zone and the window after a timetable.
fn setting_over<F: Files>(
    alloc: Global,
    files: &mut F,
    scope: &Scope<'_>,
    keep: Option<u8>,
    table: Timetable,
) -> Result<Setting, Exit>
    requires { HasWindow scope.now.from scope.now.days }
    ensures told { IfSome (F.told files.old) (λ told. UnlessFree is_free result
        (steps.IsSettingOver table (zone_of scope.now.zone) scope.now.from scope.now.days keep told)) }
    ensures counts { Counts (IsErrOf result Exit.Failed) (F.faults files.old) (F.faults files.new) }
    ensures same { F.told files.new ≡ F.told files.old }
{
    let zone = zone(alloc, files, &scope.zone)?;
    let window = Window::make(&zone, scope.from, scope.days)?;
    Ok(Setting {
        table,
        zone,
        window,
        keep,
    })
}

/// What a command works over, and how many days it keeps.
pub fn setting<F: Files>(
    alloc: Global,
    files: &mut F,
    scope: &Scope<'_>,
    keep: Option<u8>,
) -> Result<Setting, Exit>
    requires { HasWindow scope.now.from scope.now.days }
    ensures told { IfSome (F.told files.old) (λ told. UnlessFree is_free result
        (steps.IsSettingOf (scope_of scope.now) keep told)) }
    ensures counts { Counts (IsErrOf result Exit.Failed) (F.faults files.old) (F.faults files.new) }
    ensures same { F.told files.new ≡ F.told files.old }
{
    match folder(alloc, files, scope.gtfs.as_str()) {
        Ok(table) => setting_over(alloc, files, scope, keep, table),
        Err(end) => Err(end),
    }
}
