//! The rows of a table, read one after the other into one record. The functions meet `specs/Rows.antt`.
ghost use Rattle.std.specs.Prelude.{◌≡◌, ◌∷◌, [], true, false, IfOk};
ghost use Rattle.std.specs.Bool.{MatchBool};
ghost use Rattle.csv.specs.Reading.{error_kind, stops_reader};
ghost use Rattle.stop_schedule.specs.Fields.{field_of};
ghost use Rattle.stop_schedule.specs.Rows.{rows, column as column_of};

use crate::fields::trimmed;
use csv::{ByteRecord, Error, ErrorKind, Reader, ReaderBuilder};
use std::alloc::{AllocError, Global};
use std::marker::Model;

/// The rows of a table's bytes: the one at hand, and those that are left to read. A contract sees both.
#[derive(Drop)]
pub(crate) struct Rows<'a> {
    reader: Reader<&'a [u8]>,
    row: ByteRecord,
}

impl<'a> Model for Rows<'a> {
    ghost use Rattle.csv.specs.Records.{fields_of};
    ghost use Rattle.stop_schedule.specs.RowReader.{RowsLeft, rows_of, IsPlainUnlessFailed};

    ghost Value = { RowsLeft };

    ghost view = { λ r. record { row = fields_of r.row; left = rows_of r.reader } };

    ghost invariant = { λ r. IsPlainUnlessFailed r.reader };
}

// What is told of a read that stopped the reader. Bytes that lie in memory can't fail to be read, but `csv` doesn't
// say so of the reader that it is given: that too is told as want of memory.
fn refusal(error: Error) -> AllocError
    requires { stops_reader (error_kind error) ≡ true }
{
    match error.into_kind() {
        ErrorKind::OutOfMemory | ErrorKind::Io(_) => AllocError,
        _ => unreachable!(),
    }
}

impl<'a> Rows<'a> {
    /// The rows of these bytes, of which none is read yet.
    pub(crate) fn open(alloc: Global, bytes: &'a [u8]) -> Rows<'a>
        ensures left { result.left ≡ rows bytes.now }
    {
        let reader = ReaderBuilder::new()
            .has_headers(false)
            .flexible(true)
            .from_reader(alloc, bytes);
        Rows {
            reader,
            row: ByteRecord::new(alloc),
        }
    }

    /// Reads the next row, which is empty where there was none, and says whether there was one. After want of
    /// memory there are none.
    pub(crate) fn advance(&mut self) -> Result<bool, AllocError>
        ensures none { IfOk result (λ found. found ≡ false → self.new.row ≡ []) }
        ensures reads { IfOk result
            (λ found. MatchBool found (self.old.left ≡ self.new.row ∷ self.new.left) (self.old.left ≡ [])) }
    {
        let found = match self.reader.read_byte_record(&mut self.row) {
            Ok(found) => found,
            Err(error) => return Err(refusal(error)),
        };
        if !found {
            self.row.clear();
        }
        Ok(found)
    }

    /// The trimmed field at a place of the row at hand, empty where the row is shorter.
    pub(crate) fn field(&self, place: usize) -> &[u8]
        ensures value { result.now ≡ field_of place self.now.row }
    {
        trimmed(self.row.get(place).unwrap_or(&[]))
    }

    /// The place of the first column of that name, where the row at hand names the columns.
    pub(crate) fn column(&self, name: &str) -> Option<usize>
        ensures place { result ≡ column_of name.now self.now.row }
    {
        for place in 0..self.row.len() {
            if self.field(place) == name.as_bytes() {
                return Some(place);
            }
        }
        None
    }
}
