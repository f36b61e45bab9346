//! The setting that a gateway of the tests starts with.
use gateway_core::Setting;
use service_day::{DayForm, Window, Zone, read_day};
use std::alloc::Global;
use std::process::Abort;
use test_folder::{paris, sample};
use timetable::Timetable;

// The timetable over three days from 2024-05-01 on.
fn over(table: Timetable, zone: Zone, keep: Option<u8>) -> Option<Setting> {
    let first = read_day("20240501", DayForm::Compact)?;
    if first.number() < 365 || first.number() > 2_932_000 {
        return None;
    }
    match Window::make(&zone, first, 3) {
        Ok(window) => Some(Setting {
            table,
            zone,
            window,
            keep,
        }),
        Err(_) => None,
    }
}

/// The sample folder's timetable over three days from 2024-05-01 on, of which so many are kept as the window rolls.
pub(crate) fn setting(rt: &impl Abort, alloc: Global, keep: Option<u8>) -> Setting {
    let table = sample(alloc).expect(rt, "a timetable");
    over(table, paris().expect(rt, "a zone"), keep).expect(rt, "a setting")
}
