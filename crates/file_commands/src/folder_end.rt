//! The end that a fault of the folder is, with its text. The definition is that of `specs/FolderTexts.antt`.
ghost use Rattle.std.specs.Prelude.{◌≡◌, ◌++◌, IfOk, OnOk};
ghost use Rattle.file_commands.specs.FolderTexts as texts;
ghost use Rattle.file_commands.specs.FolderTexts.{row_text, column_text};
ghost use Rattle.stop_schedule.specs.Timetable.{file_name};

use crate::exit::Exit;
use gw_base::Text;
use itoa::Buffer;
use std::alloc::{AllocError, Global};
use stop_schedule::{Column, TableFault, TableFile};

// The path of a file that is missing, with its word.
fn missing(alloc: Global, dir: &str, file: TableFile) -> Result<Exit, AllocError>
    ensures { IfOk result (λ end. end ≡ texts.folder_end dir.now (TableFault.Missing file)) }
{
    let mut text = Text::copied(alloc, "Missing ")?;
    text.push(dir)?;
    text.push("/")?;
    text.push(file.name())?;
    Ok(Exit::Missing(text))
}

// A fault's name with the file.
fn named(alloc: Global, name: &str, file: TableFile) -> Result<Text, AllocError>
    ensures { IfOk result (λ text. text ≡ name.now ++ file_name file) }
{
    let mut text = Text::copied(alloc, name)?;
    text.push(file.name())?;
    Ok(text)
}

// Adds a row's number.
fn push_row(text: &mut Text, row: u64) -> Result<(), AllocError>
    ensures { OnOk result (text.new ≡ text.old ++ row_text row) }
{
    let mut digits = Buffer::new();
    text.push(" ")?;
    text.push(digits.format(row))
}

// Adds a column's name.
fn push_column(text: &mut Text, column: Column) -> Result<(), AllocError>
    ensures { OnOk result (text.new ≡ text.old ++ column_text column) }
{
    text.push(" ")?;
    text.push(column.name())
}

// A fault's name with the file and the row.
fn at_row(alloc: Global, name: &str, file: TableFile, row: u64) -> Result<Text, AllocError>
    ensures { IfOk result (λ text. text ≡ name.now ++ file_name file ++ row_text row) }
{
    let mut text = named(alloc, name, file)?;
    push_row(&mut text, row)?;
    Ok(text)
}

// A fault's name with the row alone.
fn of_row(alloc: Global, name: &str, row: u64) -> Result<Text, AllocError>
    ensures { IfOk result (λ text. text ≡ name.now ++ row_text row) }
{
    let mut text = Text::copied(alloc, name)?;
    push_row(&mut text, row)?;
    Ok(text)
}

// A fault's name with the file and the column.
fn of_column(alloc: Global, name: &str, file: TableFile, column: Column) -> Result<Text, AllocError>
    ensures { IfOk result (λ text. text ≡ name.now ++ file_name file ++ column_text column) }
{
    let mut text = named(alloc, name, file)?;
    push_column(&mut text, column)?;
    Ok(text)
}

// A fault's name with the file, the row and the column.
fn at_field(
    alloc: Global,
    name: &str,
    file: TableFile,
    row: u64,
    column: Column,
) -> Result<Text, AllocError>
    ensures { IfOk result (λ text. text ≡ name.now ++ file_name file ++ row_text row ++ column_text column) }
{
    let mut text = at_row(alloc, name, file, row)?;
    push_column(&mut text, column)?;
    Ok(text)
}

/// The end that a fault of the folder `dir` is.
pub fn folder_end(alloc: Global, dir: &str, fault: TableFault) -> Result<Exit, AllocError>
    ensures { IfOk result (λ end. end ≡ texts.folder_end dir.now fault) }
{
    let text = match fault {
        TableFault::Missing(file) => return missing(alloc, dir, file),
        TableFault::Failed(_) => return Ok(Exit::Failed),
        TableFault::Memory => return Ok(Exit::Memory),
        TableFault::TooLong(file) => named(alloc, "TooLong ", file),
        TableFault::NoColumn(file, column) => of_column(alloc, "NoColumn ", file, column),
        TableFault::NotUtf8(file, row) => at_row(alloc, "NotUtf8 ", file, row),
        TableFault::BadField(file, row, column) => at_field(alloc, "BadField ", file, row, column),
        TableFault::Limit(file, row) => at_row(alloc, "Limit ", file, row),
        TableFault::Zones(row) => of_row(alloc, "Zones", row),
        TableFault::Unknown(file, row, column) => at_field(alloc, "Unknown ", file, row, column),
        TableFault::Duplicate(file, row) => at_row(alloc, "Duplicate ", file, row),
        TableFault::UntimedEnd(row) => of_row(alloc, "UntimedEnd", row),
    };
    Ok(Exit::Refused(text?))
}
