//! Dates as texts, `YYYY-MM-DD` and `YYYYMMDD`, read and written.
ghost use Rattle.std.specs.Prelude.{◌≡◌, Some, All, length};
ghost use Rattle.service_day.specs.DayTexts.{day_of, dashed_day, compact_day, dashed_text, compact_text};
ghost use Rattle.service_day.specs.Digits.{IsDigit};
ghost use Rattle.service_day.specs.declared.days.DayForm.TheVariants as Form;

use crate::days::{Day, DayForm};
use crate::digits::{four_at, has_form, two_at, two_digits};

const DASHED: &[u8] = b"0000-00-00";

const COMPACT: &[u8] = b"00000000";

/// The day that the text names in the form: four digits of the year, two of the month and two of the
/// day, joined by `-` or by nothing (ISO 8601, GTFS Date). None exactly where the text has another form
/// or the calendar has no such date in the years 0001 to 9999. Takes no memory.
pub fn read_day(text: &str, form: DayForm) -> Option<Day>
    ensures { result ≡ day_of form text.now }
{
    let text = text.as_bytes();
    match form {
        DayForm::Dashed => read_dashed(text),
        DayForm::Compact => read_compact(text),
        DayForm::Either => {
            if has_form(DASHED, text) {
                read_dashed(text)
            } else {
                read_compact(text)
            }
        }
    }
}

#[tactic(auto, unfolding(crate::specs::DayTexts::dashed_day))]
fn read_dashed(text: &[u8]) -> Option<Day>
    ensures { result ≡ dashed_day text.now }
{
    if !has_form(DASHED, text) {
        return None;
    }
    Day::from_parts(four_at(text, 0), two_at(text, 5), two_at(text, 8))
}

#[tactic(auto, unfolding(crate::specs::DayTexts::compact_day))]
fn read_compact(text: &[u8]) -> Option<Day>
    ensures { result ≡ compact_day text.now }
{
    if !has_form(COMPACT, text) {
        return None;
    }
    Day::from_parts(four_at(text, 0), two_at(text, 4), two_at(text, 6))
}

/// The day as `YYYY-MM-DD`. Takes no memory.
pub fn day_text(day: Day) -> [u8; 10]
    ensures value { result ≡ dashed_text day }
    ensures length { length (dashed_text day) ≡ 10 }
    ensures reads { day_of Form.Dashed (dashed_text day) ≡ Some day }
{
    let (year, month, day) = day.parts();
    let ([y1, y2], [y3, y4]) = (two_digits(year / 100), two_digits(year % 100));
    let ([m1, m2], [d1, d2]) = (two_digits(month), two_digits(day));
    [y1, y2, y3, y4, b'-', m1, m2, b'-', d1, d2]
}

/// The day as `YYYYMMDD`, the Date of GTFS. Takes no memory.
pub fn day_compact(day: Day) -> [u8; 8]
    ensures value { result ≡ compact_text day }
    ensures length { length (compact_text day) ≡ 8 }
    ensures digits { All IsDigit (compact_text day) }
    ensures reads { day_of Form.Compact (compact_text day) ≡ Some day }
{
    let (year, month, day) = day.parts();
    let ([y1, y2], [y3, y4]) = (two_digits(year / 100), two_digits(year % 100));
    let ([m1, m2], [d1, d2]) = (two_digits(month), two_digits(day));
    [y1, y2, y3, y4, m1, m2, d1, d2]
}
