//! Lines of answers.
use gw_base::Moment;
use service_day::{Day, day_compact, day_text, write_moment};
use std::alloc::AllocError;

/// Adds a line.
pub fn add_line(line: &str, into: &mut String) -> Result<(), AllocError> {
    into.push_str(line)?;
    into.push_str("\n")
}

// Adds bytes that are a text.
fn push_ascii(bytes: &[u8], into: &mut String) -> Result<(), AllocError> {
    match str::from_utf8(bytes) {
        Ok(text) => into.push_str(text),
        Err(_) => into.push_str("no text"),
    }
}

/// Adds a day as YYYY-MM-DD.
pub fn push_day(day: Day, into: &mut String) -> Result<(), AllocError> {
    push_ascii(&day_text(day), into)
}

/// Adds a day as YYYYMMDD.
pub fn push_compact(day: Day, into: &mut String) -> Result<(), AllocError> {
    push_ascii(&day_compact(day), into)
}

/// Adds a moment as YYYY-MM-DDThh:mm:ssZ.
pub fn push_moment(moment: Moment, into: &mut String) -> Result<(), AllocError> {
    push_ascii(&write_moment(moment.secs()), into)
}

/// Adds what is one of two.
pub fn add_choice(
    is_one: bool,
    one: &str,
    other: &str,
    into: &mut String,
) -> Result<(), AllocError> {
    add_line(if is_one { one } else { other }, into)
}
