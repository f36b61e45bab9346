//! The rows of `calendar.txt` and `calendar_dates.txt`: on which days services run.
ghost use Rattle.std.specs.Prelude.{◌≡◌, true};
ghost use Rattle.std.specs.Str.{is_utf8};
ghost use Rattle.stop_schedule.specs.Services as spec;
ghost use Rattle.stop_schedule.specs.Sheet.{nth};

use crate::column::Column;
use crate::forms::date;
use crate::sheet::Sheet;
use crate::table_fault::TableFault;
use crate::table_file::TableFile;
use crate::taking::TakesRows;
use service_day::Day;
use std::alloc::Global;
use std::collections::HashMap;
use timetable::{Calendar, Ids};

/// The calendars of the rows, by the number of their service.
#[derive(Drop)]
pub(crate) struct CalendarRows {
    pub(crate) services: Ids,
    pub(crate) calendars: HashMap<u32, Calendar>,
}

/// The exceptions of the rows, whether the service runs, by the number of the service and the day.
#[derive(Drop)]
pub(crate) struct DateRows {
    pub(crate) services: Ids,
    pub(crate) exceptions: HashMap<(u32, i32), bool>,
}

// The weekdays of the row at hand.
fn weekdays(sheet: &Sheet<'_>) -> [bool; 7]
    ensures { result ≡ spec.weekdays sheet.now.row }
{
    [
        is_one(sheet, 1),
        is_one(sheet, 2),
        is_one(sheet, 3),
        is_one(sheet, 4),
        is_one(sheet, 5),
        is_one(sheet, 6),
        is_one(sheet, 7),
    ]
}

// Whether a field of the row at hand is `1`.
fn is_one(sheet: &Sheet<'_>, column: usize) -> bool
    ensures { result ≡ spec.is_one column sheet.now.row }
{
    sheet.field(column) == b"1".as_slice()
}

// The day that a field of the row at hand names.
fn day(sheet: &Sheet<'_>, column: usize) -> Option<Day>
    ensures { is_utf8 (nth column sheet.now.row) ≡ true → result ≡ spec.day_in column sheet.now.row }
{
    match sheet.text(column) {
        Some(text) => date(text),
        None => None,
    }
}

impl TakesRows for CalendarRows {
    ghost use Rattle.std.specs.Prelude.{◌<◌, ◌+◌, length};
    ghost use Rattle.stop_schedule.specs.Causes.{calendar_fault};
    ghost use Rattle.stop_schedule.specs.Holding.{HoldsCalendars};
    ghost use Rattle.stop_schedule.specs.Limits.{row_limit};
    ghost use Rattle.stop_schedule.specs.declared.table_file.TableFile.TheVariants as TableFile;

    ghost file_of = { λ _. TableFile.Calendar };

    ghost fault = { λ _. calendar_fault };

    ghost given = { λ _. 0 };

    ghost Keeps = { λ taker number. length taker.services < row_limit TableFile.Trips + number };

    ghost Holds = { λ start taker rows. HoldsCalendars start.services taker.services taker.calendars rows };

    fn file(&self) -> TableFile {
        TableFile::Calendar
    }

    fn take(&mut self, alloc: Global, sheet: &Sheet<'_>, number: u64) -> Result<(), TableFault> {
        let (Some(start), Some(end)) = (day(sheet, 8), day(sheet, 9)) else {
            return Err(TableFault::BadField(TableFile::Calendar, number, Column::StartDate));
        };
        let calendar = Calendar {
            weekdays: weekdays(sheet),
            start,
            end,
        };
        let Some(service) = sheet.text(0) else {
            return Err(TableFault::NotUtf8(TableFile::Calendar, number));
        };
        let service = self.services.number_of(alloc, service)?;
        match self.calendars.insert(service, calendar) {
            Ok(None) => Ok(()),
            Ok(Some(_)) => Err(TableFault::Duplicate(TableFile::Calendar, number)),
            Err(_) => Err(TableFault::Memory),
        }
    }
}

impl TakesRows for DateRows {
    ghost use Rattle.std.specs.Prelude.{◌<◌, ◌+◌, length};
    ghost use Rattle.stop_schedule.specs.Causes.{date_fault};
    ghost use Rattle.stop_schedule.specs.Holding.{HoldsDates};
    ghost use Rattle.stop_schedule.specs.Limits.{row_limit};
    ghost use Rattle.stop_schedule.specs.declared.table_file.TableFile.TheVariants as TableFile;

    ghost file_of = { λ _. TableFile.CalendarDates };

    ghost fault = { λ _. date_fault };

    ghost given = { λ _. 0 };

    ghost Keeps = { λ taker number. length taker.services
        < row_limit TableFile.Trips + row_limit TableFile.Calendar + number };

    ghost Holds = { λ start taker rows. HoldsDates start.services taker.services taker.exceptions rows };

    fn file(&self) -> TableFile {
        TableFile::CalendarDates
    }

    fn take(&mut self, alloc: Global, sheet: &Sheet<'_>, number: u64) -> Result<(), TableFault> {
        let Some(day) = day(sheet, 1) else {
            return Err(TableFault::BadField(TableFile::CalendarDates, number, Column::Date));
        };
        let Some(service) = sheet.text(0) else {
            return Err(TableFault::NotUtf8(TableFile::CalendarDates, number));
        };
        let service = self.services.number_of(alloc, service)?;
        let added = is_one(sheet, 2);
        match self.exceptions.insert((service, day.number()), added) {
            Ok(None) => Ok(()),
            Ok(Some(_)) => Err(TableFault::Duplicate(TableFile::CalendarDates, number)),
            Err(_) => Err(TableFault::Memory),
        }
    }
}
