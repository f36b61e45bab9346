//! Connections, one after the other. The definitions are those of `specs/Serving.antt`.
ghost use Rattle.std.specs.Prelude.{◌≡◌, ◌≤◌, ◌⊎◌, ◌++◌, [], true, false, ℕ, List, length, Some, OnOk, IsErr};
ghost use Rattle.gw_base.specs.Changes.{change};
ghost use Rattle.gw_base.specs.Connections.{Connections};
ghost use Rattle.gw_base.specs.Count.{Counts, Rose};
ghost use Rattle.gw_base.specs.declared.door.Entry as entries;
ghost use Rattle.gw_base.specs.Limits.{body_limit};
ghost use Rattle.delivery_journal.specs.Kept.{KeptBody};
ghost use Rattle.gateway_core.specs.Arrivals.{Arrival};
ghost use Rattle.gateway_core.specs.Standing.{Stands};
ghost use Rattle.gateway_server.specs.Crashes.{HoldsOfBodies};
ghost use Rattle.gateway_server.specs.Past.{Past, StandsFor};
ghost use Rattle.gateway_server.specs.Serving.{CountsCauses, CountsCausesAfter, IsEnd, ServesAll, ServesAllAfter, Tells, failures};

use crate::connection::serve_one_with;
use crate::holds_gateway::HoldsGateway;
use crate::posted_body::{PostedBody, emptied};
use gateway_core::Gateway;
use gw_base::{Bytes, Clock, Door, Failed};
use http_talk::HeadReader;
use std::alloc::Global;

/// Serves connections over what holds a gateway, until none is to come, so many were served or nothing more can be
/// taken; Failed is a fault of the door in `next`, which ends it. Where the door tells its connections, each has its
/// entry in the log, which is lawful after what there was before it; so a connection for which keeping its body failed
/// is the last one. The entries that are lost or cut short are, with that fault of the door, no more than the faults
/// that the door counted, and those for which the clock failed no more than the clock counted. `posted` holds at most
/// 16,777,216 bytes. `serve` is this over a gateway by itself.
pub fn serve_with<K, H: HoldsGateway<K>, D: Door, C: Clock>(
    alloc: Global,
    host: &mut H,
    beside: &mut K,
    reader: &mut HeadReader,
    posted: &mut H::Body,
    door: &mut D,
    clock: &mut C,
    connections: u32,
) -> Result<(), Failed>
    requires absent { (D.beside door.old).present ≡ false }
    requires small { H.Body.taken posted.old ≤ body_limit }
    requires ready { (H.held host.old).is_sound ≡ true → H.is_ready host.old beside.old }
    ensures serves { (told : Connections) → Tells (D.told door.old) (D.beside door.old) told
        → (past : Past) → StandsFor (H.held host.old) past
        → (count : ℕ) × (count ≤ connections)
        × ServesAllAfter (Rose (D.faults door.old) (D.faults door.new))
        (Rose (H.faults beside.old) (H.faults beside.new)) H.room (H.held host.old) past told
        (change C.told C.faults clock.old clock.new) (D.told door.new) (D.beside door.new) (H.held host.new) count
        × OnOk result ((count ≡ connections) ⊎ (IsEnd (D.beside door.new) ⊎ ((H.held host.new).is_sound ≡ false))) }
    ensures causes { (told left : Connections) → Tells (D.told door.old) (D.beside door.old) told
        → (D.beside door.new).told ≡ Some left
        → (past : Past) → StandsFor (H.held host.old) past
        → (logged : List entries.Entry) → left.log ≡ told.log ++ logged
        → CountsCausesAfter (Rose (H.faults beside.old) (H.faults beside.new)) H.room
        (H.held host.old).gate.setting past logged (failures result) (D.faults door.old) (D.faults door.new)
        (C.faults clock.old) (C.faults clock.new) }
    ensures keeps { (told left : Connections) → Tells (D.told door.old) (D.beside door.old) told
        → (D.beside door.new).told ≡ Some left
        → (past : Past) → StandsFor (H.held host.old) past
        → (logged : List entries.Entry) → left.log ≡ told.log ++ logged
        → (first : K) (before : List KeptBody) → H.keeps first before [] host.old beside.old
        → HoldsOfBodies (λ taken failed. H.keeps first (before ++ taken) failed host.new beside.new)
        (H.held host.new).is_sound logged }
    ensures small { H.Body.taken posted.new ≤ body_limit }
    ensures absent { (D.beside door.new).present ≡ false }
    ensures setting { (H.held host.new).gate.setting ≡ (H.held host.old).gate.setting }
    ensures ready { (H.held host.new).is_sound ≡ true → H.is_ready host.new beside.new }
    ensures keeping { H.faults beside.old ≤ H.faults beside.new }
    ensures failed { (H.held host.old).is_sound ≡ true → (H.held host.new).is_sound ≡ false
        → Rose (H.faults beside.old) (H.faults beside.new) }
    ensures counts { Counts (IsErr result) (D.faults door.old) (D.faults door.new) }
    ensures clock { C.faults clock.old ≤ C.faults clock.new }
{
    let mut left = connections;
    while left > 0 {
        if !host.is_sound() {
            return Ok(());
        }
        match door.next() {
            Ok(true) => {}
            Ok(false) => return Ok(()),
            Err(Failed) => return Err(Failed),
        }
        serve_one_with(alloc, host, beside, reader, posted, door, clock);
        left -= 1;
    }
    Ok(())
}

/// Serves connections until none is to come or so many were served; Failed is a fault of the door in `next`, which ends
/// it. Where the door tells its connections, each has its entry in the log, which is lawful after what arrived before
/// it. The entries that are lost or cut short are, with that fault of the door, no more than the faults that the door
/// counted, and those for which the clock failed no more than the clock counted. `body` holds at most 16,777,216 bytes,
/// where it did before.
pub fn serve<D: Door, C: Clock>(
    alloc: Global,
    gate: &mut Gateway,
    reader: &mut HeadReader,
    body: &mut Bytes,
    door: &mut D,
    clock: &mut C,
    connections: u32,
) -> Result<(), Failed>
    requires absent { (D.beside door.old).present ≡ false }
    ensures serves { (told : Connections) → Tells (D.told door.old) (D.beside door.old) told
        → (arrivals : List Arrival) → Stands gate.old arrivals
        → (count : ℕ) × (count ≤ connections)
        × ServesAll (Rose (D.faults door.old) (D.faults door.new)) gate.old arrivals told
        (change C.told C.faults clock.old clock.new) (D.told door.new) (D.beside door.new) gate.new count
        × OnOk result ((count ≡ connections) ⊎ IsEnd (D.beside door.new)) }
    ensures causes { (told left : Connections) → Tells (D.told door.old) (D.beside door.old) told
        → (D.beside door.new).told ≡ Some left
        → (arrivals : List Arrival) → Stands gate.old arrivals
        → (logged : List entries.Entry) → left.log ≡ told.log ++ logged
        → CountsCauses gate.old.setting arrivals logged (failures result) (D.faults door.old) (D.faults door.new)
        (C.faults clock.old) (C.faults clock.new) }
    ensures held { length body.old ≤ body_limit → length body.new ≤ body_limit }
    ensures absent { (D.beside door.new).present ≡ false }
    ensures setting { gate.new.setting ≡ gate.old.setting }
    ensures counts { Counts (IsErr result) (D.faults door.old) (D.faults door.new) }
    ensures clock { C.faults clock.old ≤ C.faults clock.new }
{
    let mut posted = PostedBody::with_buffer(emptied(std::mem::replace(body, Bytes::new(alloc))));
    let end = serve_with(
        alloc,
        gate,
        &mut (),
        reader,
        &mut posted,
        door,
        clock,
        connections,
    );
    *body = posted.into_buffer(alloc);
    end
}
