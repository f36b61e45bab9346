//! The texts of numbers.
ghost use Rattle.std.specs.Prelude.{◌≡◌, ◌==◌, false, true, is_some, option_and_then, slice_index, length, ◌<◌, IsTrue};
ghost use Rattle.serde_json.specs.Find.{as_u64};
ghost use Rattle.json_tree.specs.Trees.{num};
ghost use Rattle.serde_json.specs.Read.{number_of, number_from, float_of};

use fast_float::Numeral;

// Whether a number has a minus.
fn has_minus(bytes: &[u8]) -> bool
    ensures value { result ≡ (slice_index bytes.now 0 == 45) }
    ensures some { IsTrue result → 0 < length bytes.now }
{
    !bytes.is_empty() && bytes[0] == b'-'
}

// Whether the nearest float of 64 bits isn't infinite.
fn is_finite(negative: bool, numeral: &Numeral<'_>) -> bool
    ensures { result ≡ is_some (float_of negative numeral.now) }
{
    numeral.to_float::<f64>(negative).is_finite()
}

// Whether a number without a minus is in range.
fn unsigned_fits(numeral: &Numeral<'_>) -> bool
    ensures { result ≡ is_some (number_from false numeral.now) }
{
    match numeral.to_u64() {
        Some(_) => true,
        None => is_finite(false, numeral),
    }
}

// Whether a number with a minus is in range.
fn negative_fits(numeral: &Numeral<'_>) -> bool
    ensures { result ≡ is_some (number_from true numeral.now) }
{
    if let Some(n) = numeral.to_i64(true) {
        if n < 0 {
            return true;
        }
    }
    is_finite(true, numeral)
}

/// Whether the number that a text writes is an integer of 64 bits or in the range of the floats of 64 bits.
pub fn fits(text: &str) -> bool
    ensures { result ≡ is_some (number_of text.now) }
{
    let bytes = text.as_bytes();
    if has_minus(bytes) {
        negative_fits(&Numeral::scan(&bytes[1..]))
    } else {
        unsigned_fits(&Numeral::scan(bytes))
    }
}

// A number without a minus, if it is one in decimal digits alone, below 2^64.
fn unsigned(numeral: &Numeral<'_>) -> Option<u64>
    ensures { result ≡ option_and_then as_u64 (number_from false numeral.now) }
{
    numeral.to_u64()
}

/// The number that a text writes, if it is one in decimal digits alone, below 2^64.
pub fn whole_number(text: &str) -> Option<u64>
    ensures value { result ≡ as_u64 (num text.now) }
{
    let bytes = text.as_bytes();
    if has_minus(bytes) {
        None
    } else {
        unsigned(&Numeral::scan(bytes))
    }
}
