//! Pieces of a sample's texts, written one after the other.
ghost use Rattle.std.specs.Prelude.{◌≡◌, ◌++◌, ◌<◌, OnOk, decimal};
ghost use Rattle.service_day.specs.Digits.{two_digits as digits_of};
ghost use Rattle.service_day.specs.Utc.{clock_text};
ghost use Rattle.sample_maker.specs.Pieces.{led};

use gw_base::Bytes;
use itoa::Buffer;
use std::alloc::AllocError;

/// Adds a text after what leads to it.
#[tactic(auto, unfolding(crate::specs::Pieces::led))]
pub(crate) fn put(out: &mut Bytes, lead: &[u8], text: &[u8]) -> Result<(), AllocError>
    ensures { OnOk result (out.new ≡ out.old ++ led lead.now text.now) }
{
    out.extend(lead)?;
    out.extend(text)
}

/// Adds a number in decimal after what leads to it.
pub(crate) fn put_number(out: &mut Bytes, lead: &[u8], number: u32) -> Result<(), AllocError>
    ensures { OnOk result (out.new ≡ out.old ++ led lead.now (decimal number)) }
{
    let mut digits = Buffer::new();
    put(out, lead, digits.format(number).as_bytes())
}

// A number below 100 in two digits.
fn two_digits(number: u32) -> [u8; 2]
    requires { number < 100 }
    ensures { result ≡ digits_of number }
{
    [b'0' + (number / 10) as u8, b'0' + (number % 10) as u8]
}

/// A second of the service day as `HH:MM:SS` (GTFS Schedule, Time).
pub(crate) fn clock(second: u32) -> [u8; 8]
    requires { second < 360000 }
    ensures { result ≡ clock_text second }
{
    let [h1, h2] = two_digits(second / 3600);
    let [m1, m2] = two_digits(second / 60 % 60);
    let [s1, s2] = two_digits(second % 60);
    [h1, h2, b':', m1, m2, b':', s1, s2]
}
