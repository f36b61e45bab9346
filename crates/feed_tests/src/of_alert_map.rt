//! The bytes of an alert's entity.
ghost use Rattle.std.specs.Prelude.{◌≡◌, ◌<◌, ◌∷◌, [], length, IfOk};
ghost use Rattle.alert_map.specs.Alerts.{IsOfEntity};

use alert_map::{alert_entity, entity_body_len};
use gw_base::{Bytes, List, Text};
use journey_model::{Ref, Situation, ValidPeriod};
use std::alloc::{AllocError, Global};
use test_folder::sample;
use timetable::{RouteNo, Timetable};

// The alert of the route R1 from 2024-05-01T00:00:00Z on: a technical problem with significant delays, `Late`.
const ENTITY: &[u8] =
    b"\x12(\x0a\x08alert:S1*\x1c\x0a\x06\x08\x80\x8c\xc6\xb1\x06*\x04\x12\x02R10\x038\x03R\x08\x0a\x06\x0a\x04Late";

// The periods of the situation.
fn periods(alloc: Global) -> Result<List<ValidPeriod>, AllocError> {
    let mut periods = List::new(alloc);
    periods.push(ValidPeriod {
        start: Some(1_714_521_600),
        end: None,
    })?;
    Ok(periods)
}

// What the situation refers to.
fn refs(alloc: Global, route: RouteNo) -> Result<List<Ref>, AllocError>
    ensures { IfOk result (λ refs. refs ≡ Ref.Route route ∷ []) }
{
    let mut refs = List::new(alloc);
    refs.push(Ref::Route(route))?;
    Ok(refs)
}

// The situation.
fn situation(alloc: Global, route: RouteNo) -> Result<Situation, AllocError>
    ensures { IfOk result (λ one. one.refs ≡ Ref.Route route ∷ []) }
{
    let number = Text::copied(alloc, "S1")?;
    let summary = Text::copied(alloc, "Late")?;
    let periods = periods(alloc)?;
    Ok(Situation {
        number,
        version: 1,
        served: true,
        periods,
        refs: refs(alloc, route)?,
        cause: 3,
        effect: 3,
        summary: Some(summary),
        description: None,
    })
}

// Its entity.
fn entity_of(alloc: Global, table: &Timetable, route: RouteNo) -> Result<Bytes, AllocError>
    requires { route.0 < length table.now.routes }
    ensures { IfOk result IsOfEntity }
{
    let situation = situation(alloc, route)?;
    alert_entity(alloc, table, &situation)
}

// The entity of the situation that refers to the route of that id, and how long its body is.
fn written(alloc: Global, table: &Timetable, id: &str) -> Option<(Bytes, u64)> {
    let route = table.find_route(id)?;
    let bytes = entity_of(alloc, table, route).ok()?;
    let len = entity_body_len(bytes.as_slice());
    Some((bytes, len))
}

#[test]
fn a_situation_is_written_as_its_entity(rt: HostRuntime) {
    let table = sample(rt.alloc()).expect(&rt, "a timetable");
    let (bytes, len) = written(rt.alloc(), &table, "R1").expect(&rt, "an entity");
    assert_eq!(rt; bytes.as_slice(), ENTITY);
    assert_eq!(rt; len, 40);
}
