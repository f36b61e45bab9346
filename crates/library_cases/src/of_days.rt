//! Days and moments as texts and as numbers.
use crate::pieces::Trouble;
use crate::shown::{add_line, push_compact, push_day, push_moment};
use gw_base::Moment;
use service_day::{Day, DayForm, read_day, read_utc};
use std::alloc::{AllocError, Global};

/// Adds the form of a day, its number, its weekday and both texts.
pub fn add_day(alloc: Global, text: &str, into: &mut String) -> Result<(), Trouble> {
    let dashed = read_day(text, DayForm::Dashed);
    let compact = read_day(text, DayForm::Compact);
    if read_day(text, DayForm::Either) != dashed.or(compact) {
        return Ok(add_line("the forms disagree", into)?);
    }
    Ok(add_forms(alloc, dashed, compact, into)?)
}

fn add_forms(
    alloc: Global,
    dashed: Option<Day>,
    compact: Option<Day>,
    into: &mut String,
) -> Result<(), AllocError> {
    match (dashed, compact) {
        (Some(day), None) => add_form(alloc, "dashed", day, into),
        (None, Some(day)) => add_form(alloc, "compact", day, into),
        (Some(_), Some(_)) => add_line("both forms", into),
        (None, None) => add_line("no day", into),
    }
}

fn add_form(alloc: Global, form: &str, day: Day, into: &mut String) -> Result<(), AllocError> {
    let front = format!(in alloc; "{form} {} weekday {} ", day.number(), day.weekday())?;
    into.push_str(front.as_str())?;
    push_day(day, into)?;
    into.push_str(" ")?;
    push_compact(day, into)?;
    into.push_str("\n")
}

// The day of the words DAY DAYS so many days later; None where there is no such day.
fn later_of(first: &str, days: &str) -> Result<Option<Day>, Trouble> {
    match (read_day(first, DayForm::Either), days.parse::<i32>()) {
        (Some(day), Ok(days)) => Ok(day.plus(days)),
        _ => Err(Trouble::Form),
    }
}

/// Adds the day that many days later.
pub fn add_later(text: &str, into: &mut String) -> Result<(), Trouble> {
    let Some((first, days)) = text.split_once(' ') else {
        return Err(Trouble::Form);
    };
    Ok(add_day_or_none(later_of(first, days)?, into)?)
}

fn add_day_or_none(day: Option<Day>, into: &mut String) -> Result<(), AllocError> {
    let Some(day) = day else {
        return add_line("no day", into);
    };
    push_day(day, into)?;
    into.push_str("\n")
}

/// Adds the moment of so many seconds.
pub fn add_seconds(text: &str, into: &mut String) -> Result<(), Trouble> {
    match text.parse::<i64>() {
        Ok(secs) => Ok(add_moment_or_none(Moment::new(secs), into)?),
        Err(_) => Err(Trouble::Form),
    }
}

fn add_moment_or_none(moment: Option<Moment>, into: &mut String) -> Result<(), AllocError> {
    let Some(moment) = moment else {
        return add_line("no moment", into);
    };
    push_moment(moment, into)?;
    into.push_str("\n")
}

/// Adds the seconds of a moment of UTC, and its text.
pub fn add_utc(alloc: Global, text: &str, into: &mut String) -> Result<(), Trouble> {
    let Some(secs) = read_utc(text) else {
        return Ok(add_line("no moment", into)?);
    };
    let front = format!(in alloc; "{secs} ")?;
    into.push_str(front.as_str())?;
    Ok(add_moment_or_none(Moment::new(secs), into)?)
}
