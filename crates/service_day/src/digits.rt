//! Texts of a fixed form, read and written by the place: which places hold digits, and what two or
//! four of them spell.
ghost use Rattle.std.specs.Prelude.{◌≡◌, ◌+◌, ◌≤◌, ◌<◌, length, IsTrue};
ghost use Rattle.service_day.specs.Digits as spec;

/// Whether the text has the form: a digit where the form has `0`, and else the form's own character.
pub(crate) fn has_form(form: &[u8], text: &[u8]) -> bool
    ensures value { result ≡ spec.has_form form.now text.now }
    ensures len { IsTrue result → length text.now ≡ length form.now }
{
    if text.len() != form.len() {
        return false;
    }
    for (i, p) in form.iter().enumerate() {
        if !is_at(*p, text[i]) {
            return false;
        }
    }
    true
}

/// Whether the character may stand at that place of a form.
fn is_at(place: u8, c: u8) -> bool
    ensures { result ≡ spec.is_at place c }
{
    if place == b'0' {
        c.is_ascii_digit()
    } else {
        place == c
    }
}

/// What the digit there stands for.
fn digit_at(text: &[u8], at: usize) -> u32
    requires { at < length text.now }
    ensures value { result ≡ spec.digit_at text.now at }
    ensures bound { result ≤ 207 }
{
    let c = text[at];
    c.saturating_sub(b'0') as u32
}

/// What the two digits from `at` on spell.
pub(crate) fn two_at(text: &[u8], at: usize) -> u32
    requires { at + 2 ≤ length text.now }
    ensures value { result ≡ spec.two_at text.now at }
    ensures bound { result ≤ 2277 }
{
    10 * digit_at(text, at) + digit_at(text, at + 1)
}

/// What the four digits from `at` on spell.
pub(crate) fn four_at(text: &[u8], at: usize) -> u32
    requires { at + 4 ≤ length text.now }
    ensures { result ≡ spec.four_at text.now at }
{
    100 * two_at(text, at) + two_at(text, at + 2)
}

/// A number below 100 in two digits.
pub(crate) fn two_digits(n: u32) -> [u8; 2]
    requires { n < 100 }
    ensures { result ≡ spec.two_digits n }
{
    [b'0' + (n / 10) as u8, b'0' + (n % 10) as u8]
}
