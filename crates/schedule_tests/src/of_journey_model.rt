//! The texts of faults and reports, and readings of stops.
use gw_base::{Bytes, List, Text};
use journey_model::{Fault, Report, StopReading, add_report, fault_text, filled_text};
use std::alloc::{AllocError, Global};
use std::process::Abort;
use timetable::StopNo;

// Faults with their texts, as far as no case has them.
static TEXTS: [(Fault, &str); 5] = [
    (Fault::OtherRelation(-1), "OtherRelation -1"),
    (Fault::Full, "Full"),
    (Fault::OtherPlace(3), "OtherPlace 3"),
    (Fault::PlacesTooLong(4_097), "PlacesTooLong 4097"),
    (
        Fault::DelayRange(u64::MAX, i128::MIN),
        "DelayRange 18446744073709551615 -170141183460469231731687303715884105728",
    ),
];

// Each fault has that text.
fn each_text(rt: &impl Abort, texts: &[(Fault, &str)]) {
    for (fault, text) in texts {
        assert_eq!(rt; fault_text(fault).as_str(), *text);
    }
}

#[test]
fn faults_have_their_texts(rt: HostRuntime) {
    each_text(&rt, &TEXTS);
}

// A report on three items, of which the last two are set aside.
fn report(alloc: Global) -> Result<Report, AllocError> {
    let mut aside = List::new(alloc);
    aside.push((1, Fault::NotRunning))?;
    aside.push((2, Fault::UnknownStop(4)))?;
    Ok(Report {
        taken: 1,
        passed: 5,
        aside,
    })
}

// The lines of that report after a text.
fn lines(alloc: Global, lead: &[u8]) -> Result<Bytes, AllocError> {
    let mut lines = Bytes::new(alloc);
    add_report(&mut lines, lead, &report(alloc)?)?;
    Ok(lines)
}

#[test]
fn a_report_has_a_line_for_each_item_set_aside(rt: HostRuntime) {
    let lines = lines(rt.alloc(), b"a.json ").expect(&rt, "memory");
    let wanted =
        "a.json aside 1 NotRunning\na.json aside 2 UnknownStop 4\na.json taken 1 passed 5 aside 2\n";
    assert!(rt; lines.as_slice() == wanted.as_bytes());
}

#[test]
fn an_empty_text_counts_as_missing(rt: HostRuntime) {
    let text = Text::copied(rt.alloc(), "T1").expect(&rt, "memory");
    assert_eq!(rt; filled_text(&Some(text)), Some("T1"));
    assert_eq!(rt; filled_text(&Some(Text::new(rt.alloc()))), None);
    assert_eq!(rt; filled_text(&None), None);
}

#[test]
fn a_stop_is_absent_skipped_or_timed(rt: HostRuntime) {
    let timed = StopReading::Timed {
        arrival: 0,
        departure: 0,
        place: StopNo(0),
    };
    assert!(rt; StopReading::Absent.is_absent() && !StopReading::Absent.is_skipped());
    assert!(rt; StopReading::Skipped.is_skipped() && !StopReading::Skipped.is_absent());
    assert!(rt; !timed.is_absent() && !timed.is_skipped());
}
