//! The faults that a row of any file may have. The functions meet `specs/Faults.antt`.
ghost use Rattle.std.specs.Prelude.{◌≡◌, true, false};
ghost use Rattle.std.specs.Str.{is_utf8};
ghost use Rattle.stop_schedule.specs.Forms as forms_of;
ghost use Rattle.stop_schedule.specs.Faults as spec;

use crate::forms::{Form, fits, seconds, sequence};
use crate::layout::columns;
use crate::limits::row_limit;
use crate::sheet::{Sheet, text_of};
use crate::table_fault::TableFault;
use crate::table_file::TableFile;
use timetable::MAX_ID_LEN;

// Whether a field is an id that is too long.
fn is_long(form: Form, text: &str) -> bool
    ensures { result ≡ spec.is_long form text.now }
{
    match form {
        Form::Id | Form::OptionalId => text.len() > MAX_ID_LEN,
        _ => false,
    }
}

// Whether a field has the form by its digits, so that it is a text too, which isn't read once more then.
fn has_digits(form: Form, field: &[u8]) -> bool
    ensures text { result ≡ true → is_utf8 field.now ≡ true }
    ensures fits { result ≡ true → forms_of.fits form field.now ≡ true }
    ensures short { result ≡ true → spec.is_long form field.now ≡ false }
{
    match form {
        Form::Sequence => sequence(field).is_some(),
        Form::Time => seconds(field).is_some(),
        _ => false,
    }
}

/// The first fault of the row at hand, which is the data row of that number, by its fields and the number
/// alone.
pub(crate) fn row_fault(sheet: &Sheet<'_>, file: TableFile, number: u64) -> Option<TableFault>
    ensures { result ≡ spec.common_fault file number sheet.now.row }
{
    let mut bad = None;
    let mut long = false;
    for (i, (column, form)) in columns(file).iter().enumerate() {
        let field = sheet.field(i);
        if has_digits(*form, field) {
            continue;
        }
        let Some(text) = text_of(field) else {
            return Some(TableFault::NotUtf8(file, number));
        };
        if bad.is_none() && !fits(*form, text) {
            bad = Some(*column);
        }
        long |= is_long(*form, text);
    }
    if let Some(column) = bad {
        return Some(TableFault::BadField(file, number, column));
    }
    if long || number > row_limit(file) {
        return Some(TableFault::Limit(file, number));
    }
    None
}
