//! Zones, and what is read in one.
use crate::given::Given;
use crate::pieces::Trouble;
use crate::shown::{add_choice, add_line, push_day};
use service_day::{
    Day, DayForm, MomentFault, Zone, ZoneFault, day_start, local_day, read_day, read_moment,
};
use std::alloc::{AllocError, Global};

/// Adds the seconds and nanoseconds of a moment.
pub fn add_moment(
    alloc: Global,
    zone: &Zone,
    text: &str,
    into: &mut String,
) -> Result<(), Trouble> {
    match read_moment(text, zone) {
        Ok(instant) => {
            let line = format!(in alloc; "{}.{}", instant.secs, instant.nanos)?;
            Ok(add_line(line.as_str(), into)?)
        }
        Err(MomentFault::NotMoment) => Ok(add_line("no moment", into)?),
        Err(_) => Err(Trouble::Memory),
    }
}

// When a day starts in the zone, if it is one that may.
fn start_in_zone(zone: &Zone, day: Day) -> Option<i64> {
    if day.number() < 365 || 2_932_166 < day.number() {
        return None;
    }
    day_start(zone, day).ok()
}

fn push_secs(alloc: Global, secs: Option<i64>, into: &mut String) -> Result<(), AllocError> {
    let Some(secs) = secs else {
        return into.push_str("-");
    };
    let text = format!(in alloc; "{secs}")?;
    into.push_str(text.as_str())
}

// When a day starts in the zone and in the window.
fn starts_of(
    alloc: Global,
    given: &Given,
    day: Day,
) -> Result<(Option<i64>, Option<i64>), Trouble> {
    let zone = given.zone(alloc)?;
    let window = given.window(&zone)?;
    Ok((start_in_zone(&zone, day), window.start_of(day)))
}

/// Adds when a day starts in the zone, and when in the window, if it is in it.
pub fn add_start(
    alloc: Global,
    given: &Given,
    text: &str,
    into: &mut String,
) -> Result<(), Trouble> {
    let Some(day) = read_day(text, DayForm::Either) else {
        return Err(Trouble::Form);
    };
    let (of_zone, of_window) = starts_of(alloc, given, day)?;
    push_secs(alloc, of_zone, into)?;
    into.push_str(" ")?;
    push_secs(alloc, of_window, into)?;
    Ok(into.push_str("\n")?)
}

// The local date of so many seconds, if they are a moment.
fn date_at(zone: &Zone, secs: i64) -> Option<Day> {
    if secs < 0 || 253_370_764_799 < secs {
        return None;
    }
    local_day(zone, secs).ok()
}

/// Adds the local date of so many seconds.
pub fn add_date(zone: &Zone, text: &str, into: &mut String) -> Result<(), Trouble> {
    let Ok(secs) = text.parse::<i64>() else {
        return Err(Trouble::Form);
    };
    match date_at(zone, secs) {
        Some(day) => push_day(day, into)?,
        None => into.push_str("no moment")?,
    }
    Ok(into.push_str("\n")?)
}

// Whether it was read; Err for want of memory.
fn is_read(read: Result<Zone, ZoneFault>) -> Result<bool, AllocError> {
    match read {
        Ok(_) => Ok(true),
        Err(ZoneFault::Refused) => Ok(false),
        Err(ZoneFault::Memory) => Err(AllocError),
    }
}

/// Adds whether a text is a rule.
pub fn add_rule(text: &str, into: &mut String) -> Result<(), Trouble> {
    let is_one = is_read(Zone::from_rule(text))?;
    Ok(add_choice(is_one, "read", "refused", into)?)
}

/// Adds whether bytes are a zone's file.
pub fn add_file(alloc: Global, bytes: &[u8], into: &mut String) -> Result<(), Trouble> {
    let is_one = is_read(Zone::from_file(alloc, bytes))?;
    Ok(add_choice(is_one, "read", "refused", into)?)
}

/// Adds from which length on a front of these bytes is a zone's file or is none.
pub fn add_fronts(alloc: Global, bytes: &[u8], into: &mut String) -> Result<(), Trouble> {
    let mut before = None;
    for end in 0..=bytes.len() {
        let (front, _) = bytes.split_at(end);
        let is_one = is_read(Zone::from_file(alloc, front))?;
        if before != Some(is_one) {
            let line = format!(in alloc; "from {end} ")?;
            into.push_str(line.as_str())?;
            add_choice(is_one, "read", "refused", into)?;
        }
        before = Some(is_one);
    }
    Ok(())
}
