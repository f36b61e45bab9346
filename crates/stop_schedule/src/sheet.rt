//! The data rows of a file, of which the columns that are read are found by name. The functions meet
//! `specs/Sheet.antt`.
ghost use Rattle.std.specs.Prelude.{◌≡◌, ◌∷◌, [], Ok, IfOk};
ghost use Rattle.std.specs.Bool.{MatchBool};
ghost use Rattle.std.specs.Option.{MatchOption};
ghost use Rattle.std.specs.Prelude.{true, false};
ghost use Rattle.std.specs.Str.{is_utf8};
ghost use Rattle.gw_base.specs.Chains.{ok_map};
ghost use Rattle.gw_base.specs.Answers.{UnlessFree};
ghost use Rattle.stop_schedule.specs.Answers.{HasFailed, is_free};
ghost use Rattle.stop_schedule.specs.Rows.{rows};
ghost use Rattle.stop_schedule.specs.Sheet.{left_of, nth, places_of, sheet_of};
ghost use Rattle.stop_schedule.specs.Layout.{columns as columns_of};

use crate::layout::{columns, is_optional};
use crate::rows::Rows;
use crate::table_fault::TableFault;
use crate::table_file::TableFile;
use std::alloc::{AllocError, Global};
use std::marker::Model;

/// The data rows of a file: the one at hand, and those that are left to read, each with the fields of the
/// columns that are read, in their order. A contract sees both.
#[derive(Drop)]
pub(crate) struct Sheet<'a> {
    rows: Rows<'a>,
    places: Vec<usize>,
}

impl<'a> Model for Sheet<'a> {
    ghost use Rattle.std.specs.Prelude.{map};
    ghost use Rattle.stop_schedule.specs.RowReader.{RowsLeft};
    ghost use Rattle.stop_schedule.specs.Sheet.{fields_at};

    ghost Value = { RowsLeft };

    ghost view = { λ s. record {
      row = fields_at s.places.items s.rows.row;
      left = map (fields_at s.places.items) s.rows.left;
    } };
}

// The places of a file's columns where the row at hand names the columns, or the first that it has to
// name and doesn't.
fn find_places(alloc: Global, rows: &Rows<'_>, file: TableFile) -> Result<Vec<usize>, TableFault>
    ensures no_failure { HasFailed result → ⊥ }
    ensures exact { UnlessFree is_free result
        (λ answer. ok_map (λ places. places.items) answer ≡ places_of file rows.now.row (columns_of file)) }
{
    let mut places = Vec::new(alloc);
    for (column, _) in columns(file) {
        if let Some(place) = rows.column(column.name()) {
            places.push(place)?;
            continue;
        }
        if !is_optional(*column) {
            return Err(TableFault::NoColumn(file, *column));
        }
    }
    Ok(places)
}

/// A field as a text, if it is one.
pub(crate) fn text_of(field: &[u8]) -> Option<&str>
    ensures cases { MatchOption result (is_utf8 field.now ≡ false)
        (λ text. (text.now ≡ field.now) × (is_utf8 field.now ≡ true)) }
{
    match str::from_utf8(field) {
        Ok(text) => Some(text),
        Err(_) => None,
    }
}

impl<'a> Sheet<'a> {
    /// The data rows of a file by its bytes, of which none is read yet; or the first column that the first
    /// row doesn't name.
    pub(crate) fn open(
        alloc: Global,
        bytes: &'a [u8],
        file: TableFile,
    ) -> Result<Sheet<'a>, TableFault>
        ensures exact { UnlessFree is_free result (λ answer. sheet_of file (rows bytes.now) ≡ left_of answer) }
        ensures no_failure { HasFailed result → ⊥ }
    {
        let mut rows = Rows::open(alloc, bytes);
        rows.advance()?;
        let places = find_places(alloc, &rows, file)?;
        Ok(Sheet { rows, places })
    }

    /// Reads the next data row, and says whether there was one. After want of memory there are none.
    pub(crate) fn advance(&mut self) -> Result<bool, AllocError>
        ensures reads { IfOk result
            (λ found. MatchBool found (self.old.left ≡ self.new.row ∷ self.new.left) (self.old.left ≡ [])) }
    {
        self.rows.advance()
    }

    /// The field of a column of the row at hand, without the blanks round it; empty where the row is shorter.
    pub(crate) fn field(&self, column: usize) -> &[u8]
        ensures value { result.now ≡ nth column self.now.row }
    {
        match self.places.as_slice().get(column) {
            Some(place) => self.rows.field(*place),
            None => &[],
        }
    }

    /// The same as a text, if it is one.
    pub(crate) fn text(&self, column: usize) -> Option<&str>
        ensures cases { MatchOption result (is_utf8 (nth column self.now.row) ≡ false)
            (λ text. (text.now ≡ nth column self.now.row) × (is_utf8 (nth column self.now.row) ≡ true)) }
    {
        text_of(self.field(column))
    }
}
