//! The numbers of ids that the row at hand names.
ghost use Rattle.std.specs.Prelude.{◌≡◌, ◌<◌, Some, is_some, length, slice_get, position, true, IfSome, IsTrue};
ghost use Rattle.std.specs.Str.{bytes_eq, is_utf8};
ghost use Rattle.stop_schedule.specs.Sheet.{nth};
ghost use Rattle.timetable.specs.Ids.{are_ids, has_id};

use crate::sheet::Sheet;
use timetable::Ids;

/// The number of the id in a column of the row at hand.
pub(crate) fn find_in(ids: &Ids, sheet: &Sheet<'_>, column: usize) -> Option<u32>
    ensures place { is_utf8 (nth column sheet.now.row) ≡ true
        → result ≡ position (bytes_eq (nth column sheet.now.row)) ids.now }
    ensures found { is_utf8 (nth column sheet.now.row) ≡ true
        → is_some result ≡ has_id (nth column sheet.now.row) ids.now }
    ensures within { IfSome result (λ place. place < length ids.now) }
    ensures at { IfSome result (λ place. slice_get ids.now place ≡ Some (nth column sheet.now.row)) }
    ensures ids { IsTrue (are_ids ids.now) }
{
    // the call shows that these are ids
    let _ = ids.len();
    match sheet.text(column) {
        Some(id) => ids.find(id),
        None => None,
    }
}

/// The same, by a number that is tried first.
pub(crate) fn find_from(ids: &Ids, sheet: &Sheet<'_>, column: usize, number: u32) -> Option<u32>
    ensures place { is_utf8 (nth column sheet.now.row) ≡ true
        → result ≡ position (bytes_eq (nth column sheet.now.row)) ids.now }
    ensures found { is_utf8 (nth column sheet.now.row) ≡ true
        → is_some result ≡ has_id (nth column sheet.now.row) ids.now }
    ensures within { IfSome result (λ place. place < length ids.now) }
    ensures at { IfSome result (λ place. slice_get ids.now place ≡ Some (nth column sheet.now.row)) }
    ensures ids { IsTrue (are_ids ids.now) }
{
    // the call shows that these are ids
    let _ = ids.len();
    if ids.is_at(sheet.field(column), number) {
        return Some(number);
    }
    find_in(ids, sheet, column)
}
