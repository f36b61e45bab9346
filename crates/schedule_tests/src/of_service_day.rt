//! Days, moments and zones, as far as no case of `library_cases` says it.
use service_day::*;
use std::alloc::Global;
use std::process::Abort;
use std::test::Fail;

const PARIS: &str = "CET-1CEST,M3.5.0,M10.5.0/3";

#[test]
fn moments_of_one_second_are_told_apart(rt: HostRuntime) {
    let zone = Zone::from_rule(PARIS).expect(&rt, "a zone");
    let early = read_moment("2024-05-01T06:01:00.5Z", &zone);
    let late = read_moment("2024-05-01T06:01:00.75Z", &zone);
    assert!(rt; early.expect(&rt, "early") < late.expect(&rt, "late"));
}

#[test]
fn a_window_has_its_days(rt: HostRuntime) -> Result<(), Fail> {
    let zone = Zone::from_rule(PARIS).expect(&rt, "a zone");
    let first = read_day("2024-03-30", DayForm::Dashed).expect(&rt, "a day");
    if first.number() < 365 || first.number() > 2_932_163 {
        return Ok(());
    }
    let window = Window::make(&zone, first, 3)?;
    assert!(rt; window.first() == first);
    assert_eq!(rt; window.days(), 3);
    Ok(())
}

// The file America/Bogota of the IANA Time Zone Database.
const BOGOTA: &[u8; 246] =
    b"TZif2\0\0\0\0\0\0\0\0\0\0\0\0\0\0\0\0\0\0\0\0\0\0\0\0\0\0\0\0\0\0\x05\0\0\0\x04\0\0\0\x10\x80\0\0\0\x98XUp*\x03\
      sP+t\x89@\x7f\xff\xff\xff\x01\x03\x02\x03\x03\xff\xff\xba\x90\0\0\xff\xff\xba\x90\0\x04\xff\xff\xc7\xc0\x01\x08\
      \xff\xff\xb9\xb0\0\x0cLMT\0BMT\0-04\0-05\0TZif2\0\0\0\0\0\0\0\0\0\0\0\0\0\0\0\0\0\0\0\0\0\0\0\0\0\0\0\0\0\0\x05\
      \0\0\0\x04\0\0\0\x10\xff\xff\xff\xff^\x9c4\xf0\xff\xff\xff\xff\x98XUp\0\0\0\0*\x03sP\0\0\0\0+t\x89@\0\0\0\0\x7f\
      \xff\xff\xff\x01\x03\x02\x03\x03\xff\xff\xba\x90\0\0\xff\xff\xba\x90\0\x04\xff\xff\xc7\xc0\x01\x08\xff\xff\xb9\
      \xb0\0\x0cLMT\0BMT\0-04\0-05\0\n<-05>5\n";

// The second of a local time in the zone of a file; None where the file is refused.
fn second_in(
    rt: &impl Abort,
    alloc: Global,
    file: &[u8],
    text: &str,
) -> Result<Option<i64>, ZoneFault> {
    let zone = match Zone::from_file(alloc, file) {
        Ok(zone) => zone,
        Err(ZoneFault::Refused) => return Ok(None),
        Err(fault) => return Err(fault),
    };
    Ok(Some(read_moment(text, &zone).expect(rt, "a moment").secs))
}

#[test]
fn a_zone_file_is_read_whole_or_refused(rt: HostRuntime) {
    let noon = second_in(&rt, rt.alloc(), BOGOTA, "1992-07-01T12:00:00");
    assert_eq!(rt; noon, Ok(Some(710_006_400)));
    let noon = second_in(&rt, rt.alloc(), &BOGOTA[..245], "1992-07-01T12:00:00");
    assert_eq!(rt; noon, Ok(None));
}
