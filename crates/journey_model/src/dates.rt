//! Dates as texts.
ghost use Rattle.std.specs.Prelude.{◌≡◌, All};
ghost use Rattle.std.specs.Char.{IsAsciiDigit};

/// The text of the eight digits of a date (GTFS Schedule reference, Date).
pub fn date_text(date: &[u8; 8]) -> &str
    requires { All IsAsciiDigit date.now }
    ensures same { result.now ≡ date.now }
{
    match str::from_utf8(date) {
        Ok(text) => text,
        Err(_) => unreachable!(),
    }
}
