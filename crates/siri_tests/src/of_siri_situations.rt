//! A delivery of situations over the sample folder is read.
use journey_model::{Context, Fault, Ref, Situation, ValidPeriod};
use siri_calls::DeliveryFault;
use siri_situations::{Item, SituationDelivery, read_situations};
use std::alloc::Global;
use std::process::Abort;
use test_folder::{paris, sample, window};
use timetable::RouteNo;

// A situation with a reference that is known and one that isn't, and a situation without any.
const DELIVERY: &str = concat!(
    r#"{"ServiceDelivery":{"SituationExchangeDelivery":{"Situations":{"PtSituationElement":["#,
    r#"{"SituationNumber":"S1","Version":1,"ValidityPeriod":{"StartTime":"2024-05-01T00:00:00Z"},"#,
    r#""EquipmentReason":"signalFailure","Consequences":{"Consequence":[{"Condition":"delayed"}]},"#,
    r#""Summary":"Late","Affects":{"Networks":{"AffectedNetwork":{"AffectedLine":[{"LineRef":"R2"},"#,
    r#"{"LineRef":"R9"}]}}}},{"SituationNumber":"S2"}]}}}}"#,
);

// Whether a situation has that number, cause, effect and summary.
fn has_senses(one: &Situation) -> bool {
    let has_summary = match &one.summary {
        Some(text) => text.as_str() == "Late",
        None => false,
    };
    one.number.as_str() == "S1"
        && one.version == 1
        && one.served
        && one.cause == 3
        && one.effect == 3
        && has_summary
        && one.description.is_none()
}

// Whether it holds then and refers to that.
fn has_places(one: &Situation) -> bool {
    let period = ValidPeriod {
        start: Some(1_714_521_600),
        end: None,
    };
    one.periods.as_slice() == [period].as_slice()
        && one.refs.as_slice() == [Ref::Route(RouteNo(1))].as_slice()
}

// Whether a delivery says that.
fn is_said(delivery: &SituationDelivery) -> bool {
    let are_said = match delivery.items.as_slice() {
        [Item::Taken(one), Item::Aside(Fault::NoAffects)] => has_senses(one) && has_places(one),
        _ => false,
    };
    are_said && delivery.passed == 1
}

// What a body says. Its clauses are in no caller's goals.
fn read(alloc: Global, context: &Context<'_>) -> Result<SituationDelivery, DeliveryFault> {
    read_situations(alloc, DELIVERY.as_bytes(), context)
}

fn assert_said(rt: &impl Abort, alloc: Global, context: &Context<'_>) {
    let delivery = read(alloc, context).expect(rt, "a delivery");
    assert!(rt; is_said(&delivery));
}

#[test]
fn a_delivery_of_situations_is_read(rt: HostRuntime) {
    let alloc = rt.alloc();
    let table = sample(alloc).expect(&rt, "a timetable");
    let zone = paris().expect(&rt, "a zone");
    let window = window(&zone, 2).expect(&rt, "a window");
    let context = Context {
        table: &table,
        zone: &zone,
        window: &window,
    };
    assert_said(&rt, alloc, &context);
}
