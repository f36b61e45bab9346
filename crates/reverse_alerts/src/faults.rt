//! For which fault an alert is set aside. The functions meet `specs/Taken.antt`.
ghost use Rattle.std.specs.Prelude.{◌≡◌};
ghost use Rattle.std.specs.Option.{option_or};
ghost use Rattle.reverse_alerts.specs.Progress as progress;
ghost use Rattle.reverse_alerts.specs.Taken as spec;

use gw_base::{Alert, LAST_MOMENT, Member, Period};
use journey_model::Fault;

// The fault of an alert without a number.
fn number_fault(id: &str) -> Option<Fault>
    ensures { result ≡ spec.number_fault id.now }
{
    if id.is_empty() {
        return Some(Fault::BadField(Member::SituationNumber));
    }
    None
}

// The fault of a bound of a period, which is told under that name.
fn bound_fault(member: Member, bound: Option<u64>) -> Option<Fault>
    ensures { result ≡ spec.bound_fault member bound }
{
    match bound {
        Some(secs) if secs > LAST_MOMENT as u64 => Some(Fault::BadField(member)),
        _ => None,
    }
}

// The fault of a period: its start comes first.
fn period_fault(period: &Period) -> Option<Fault>
    ensures { result ≡ spec.period_fault period.now }
{
    match bound_fault(Member::StartTime, period.start) {
        Some(fault) => Some(fault),
        None => bound_fault(Member::EndTime, period.end),
    }
}

// The fault of the first period that has one.
fn periods_fault(periods: &[Period]) -> Option<Fault>
    ensures { result ≡ spec.periods_fault periods.now }
{
    for period in periods {
        if let Some(fault) = period_fault(period) {
            return Some(fault);
        }
    }
    None
}

// The fault of an alert of which nothing that is named is there.
fn affects_fault(named: usize) -> Option<Fault>
    ensures { result ≡ progress.none_named named }
{
    if named == 0 {
        return Some(Fault::NoAffects);
    }
    None
}

// The first fault of an alert whose entity has an id.
fn fault_after(alert: &Alert, named: usize) -> Option<Fault>
    ensures { result ≡ option_or (spec.periods_fault alert.now.periods) (progress.none_named named) }
{
    match periods_fault(alert.periods.as_slice()) {
        Some(fault) => Some(fault),
        None => affects_fault(named),
    }
}

/// The first fault of an alert, by the id of its entity and how many things its selectors name.
pub(crate) fn fault_of(id: &str, alert: &Alert, named: usize) -> Option<Fault>
    ensures { result ≡ progress.fault_by id.now alert.now named }
{
    match number_fault(id) {
        Some(fault) => Some(fault),
        None => fault_after(alert, named),
    }
}
