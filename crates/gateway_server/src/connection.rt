//! One connection, from its first read to its entry in the log. The definitions are those of `specs/Serving.antt`.
ghost use Rattle.std.specs.Prelude.{◌≡◌, ◌≤◌, ◌++◌, ◌∷◌, [], true, false, ℕ, List, length};
ghost use Rattle.gw_base.specs.Changes.{change};
ghost use Rattle.gw_base.specs.Connections.{Connections};
ghost use Rattle.gw_base.specs.Count.{Rose};
ghost use Rattle.gw_base.specs.Limits.{body_limit};
ghost use Rattle.gw_base.specs.Told.{PutsUnless};
ghost use Rattle.gw_base.specs.declared.door.Entry.{Entry};
ghost use Rattle.delivery_journal.specs.Kept.{KeptBody};
ghost use Rattle.http_talk.specs.declared.refusal.Refusal.TheVariants as refusal;
ghost use Rattle.door_talk.specs.Requests.{HasRead, IsWithin};
ghost use Rattle.gateway_core.specs.Arrivals.{Arrival};
ghost use Rattle.gateway_core.specs.Standing.{Stands};
ghost use Rattle.gateway_server.specs.Answers.{refused_with};
ghost use Rattle.gateway_server.specs.Bodies as bodies;
ghost use Rattle.gateway_server.specs.Completeness.{Completes};
ghost use Rattle.gateway_server.specs.Crashes.{HoldsOfBodies};
ghost use Rattle.gateway_server.specs.Log.{is_taken};
ghost use Rattle.gateway_server.specs.Past.{Past, StandsFor, is_unkept};
ghost use Rattle.gateway_server.specs.Serving.{IsFresh, IsLogged, LogsOne, Serves, ServesAfter};
ghost use Rattle.gateway_server.specs.Steps.{Answers, PutsShown, PutsTaken, body_where, entry_at};

use crate::answers::{put_answer, put_feed, put_refusal, put_siri};
use crate::completeness::what_is_well_formed_is_taken_law;
use crate::holds_gateway::HoldsGateway;
use crate::not_taken::NotTaken;
use crate::posted_body::{PostedBody, emptied};
use crate::take::fault_of;
use door_talk::{Asked, read_request};
use gateway_core::{BodyRefusal, Gateway, serves_what_arrived_law};
use gw_base::{Bytes, Clock, Door, Failed, Kind, Mark, Moment, Sink};
use http_talk::{Answer, HeadReader, Refusal, Resource};
use std::alloc::Global;

// Answers a GET.
fn show<K, H: HoldsGateway<K>, S: Sink>(sink: &mut S, host: &H, what: Resource, moment: Moment)
    ensures shows { (arrivals : List Arrival) → Stands (H.held host.now).gate arrivals
        → PutsShown (Rose (S.faults sink.old) (S.faults sink.new)) (H.held host.now).gate.setting arrivals moment what
        (S.told sink.old) (S.told sink.new) }
    ensures counts { S.faults sink.old ≤ S.faults sink.new }
    ensures others { S.beside sink.new ≡ S.beside sink.old }
{
    let gate = host.gateway();
    match what {
        Resource::Feed => {
            serves_what_arrived_law(gate, moment);
            put_feed(sink, gate, moment);
        }
        Resource::Timetable => put_siri(sink, gate),
    }
}

// The mark of a connection whose body of a kind is taken.
fn taken_mark(kind: Kind) -> Mark
    ensures { result ≡ bodies.taken_mark kind }
{
    match kind {
        Kind::Estimated | Kind::Situations => Mark::Taken,
        Kind::Feed => Mark::Fed,
    }
}

// Answers with the refusal of a body.
fn refuse<S: Sink>(sink: &mut S, why: BodyRefusal) -> Mark
    ensures puts { PutsUnless (Rose (S.faults sink.old) (S.faults sink.new)) (S.told sink.old) (S.told sink.new)
        (refused_with (bodies.refusal_of (bodies.fault_of why))) }
    ensures mark { result ≡ bodies.refused_mark (bodies.fault_of why) }
    ensures counts { S.faults sink.old ≤ S.faults sink.new }
    ensures others { S.beside sink.new ≡ S.beside sink.old }
{
    match fault_of(&why) {
        Some(fault) => {
            put_refusal(sink, Refusal::Body(fault));
            Mark::Refused(400)
        }
        None => {
            put_refusal(sink, Refusal::Memory);
            Mark::Memory
        }
    }
}

// Answers a body that isn't taken.
fn turn_away<S: Sink>(sink: &mut S, why: NotTaken) -> Mark
    ensures puts { PutsUnless (Rose (S.faults sink.old) (S.faults sink.new)) (S.told sink.old) (S.told sink.new)
        (refused_with (bodies.refusal_for why)) }
    ensures mark { result ≡ bodies.mark_for why }
    ensures counts { S.faults sink.old ≤ S.faults sink.new }
    ensures others { S.beside sink.new ≡ S.beside sink.old }
{
    match why {
        NotTaken::Refused(why) => refuse(sink, why),
        NotTaken::Unkept => {
            put_refusal(sink, Refusal::Journal);
            Mark::Unkept
        }
        NotTaken::Full => {
            put_refusal(sink, Refusal::JournalFull);
            Mark::Refused(500)
        }
    }
}

// Takes a body that was posted and came whole, and answers with the report on it or with why it isn't taken.
fn take<K, H: HoldsGateway<K>, S: Sink>(
    alloc: Global,
    host: &mut H,
    beside: &mut K,
    kind: Kind,
    posted: &mut H::Body,
    moment: Moment,
    sink: &mut S,
) -> Mark
    requires stands { (bytes : List ℕ) × H.Body.stands (H.held host.old).gate posted.old moment kind bytes }
    requires small { H.Body.taken posted.old ≤ body_limit }
    requires sound { (H.held host.old).is_sound ≡ true }
    requires ready { H.is_ready host.old beside.old }
    ensures takes { (arrivals : List Arrival) → Stands (H.held host.old).gate arrivals
        → (bytes : List ℕ) → H.Body.stands (H.held host.old).gate posted.old moment kind bytes
        → PutsTaken (Rose (S.faults sink.old) (S.faults sink.new)) (Rose (H.faults beside.old) (H.faults beside.new))
        H.room (H.held host.old) arrivals moment kind bytes result (S.told sink.old) (S.told sink.new)
        (H.held host.new) }
    ensures keeps { (bytes : List ℕ) → H.Body.stands (H.held host.old).gate posted.old moment kind bytes
        → (first : K) (before : List KeptBody) → H.keeps first before [] host.old beside.old
        → H.keeps first
        (before ++ body_where (is_taken result) (record { kind = kind; moment = moment; body = bytes }))
        (body_where (is_unkept result) (record { kind = kind; moment = moment; body = bytes })) host.new beside.new }
    ensures unkept { (H.held host.new).is_sound ≡ true → is_unkept result ≡ false }
    ensures unchanged { is_taken result ≡ false → (H.held host.new).gate ≡ (H.held host.old).gate }
    ensures setting { (H.held host.new).gate.setting ≡ (H.held host.old).gate.setting }
    ensures small { H.Body.taken posted.new ≤ H.Body.taken posted.old }
    ensures ready { (H.held host.new).is_sound ≡ true → H.is_ready host.new beside.new }
    ensures keeping { H.faults beside.old ≤ H.faults beside.new }
    ensures failed { (H.held host.new).is_sound ≡ false → Rose (H.faults beside.old) (H.faults beside.new) }
    ensures counts { S.faults sink.old ≤ S.faults sink.new }
    ensures others { S.beside sink.new ≡ S.beside sink.old }
{
    match host.take(alloc, beside, posted, kind, moment) {
        Ok(accepted) => {
            put_answer(sink, &Answer::Json, accepted.text.as_slice());
            taken_mark(kind)
        }
        Err(why) => turn_away(sink, why),
    }
}

// Reads the request of the present connection, does what it asks for at that moment, and answers. The mark is what the
// connection is to be finished with.
fn answer<K, H: HoldsGateway<K>, D: Door>(
    alloc: Global,
    host: &mut H,
    beside: &mut K,
    reader: &mut HeadReader,
    posted: &mut H::Body,
    door: &mut D,
    moment: Moment,
) -> Mark
    requires present { (D.beside door.old).present ≡ true }
    requires small { H.Body.taken posted.old ≤ body_limit }
    requires sound { (H.held host.old).is_sound ≡ true }
    requires ready { H.is_ready host.old beside.old }
    ensures answers { (told : Connections) → IsFresh (D.told door.old) (D.beside door.old) told
        → (past : Past) → StandsFor (H.held host.old) past
        → Answers (Rose (D.faults door.old) (D.faults door.new)) (Rose (H.faults beside.old) (H.faults beside.new))
        H.room (H.held host.old).gate.setting past told.input moment result (D.told door.new) (H.held host.new) }
    ensures keeps { (told : Connections) → IsFresh (D.told door.old) (D.beside door.old) told
        → (first : K) (before : List KeptBody) → H.keeps first before [] host.old beside.old → (written : List ℕ)
        → HoldsOfBodies (λ taken failed. H.keeps first (before ++ taken) failed host.new beside.new)
        (H.held host.new).is_sound (entry_at told.input moment result written ∷ []) }
    ensures reads { (bytes : List ℕ) × HasRead (D.beside door.old) (D.beside door.new) bytes × IsWithin bytes }
    ensures unchanged { is_taken result ≡ false → (H.held host.new).gate ≡ (H.held host.old).gate }
    ensures small { H.Body.taken posted.new ≤ body_limit }
    ensures setting { (H.held host.new).gate.setting ≡ (H.held host.old).gate.setting }
    ensures ready { (H.held host.new).is_sound ≡ true → H.is_ready host.new beside.new }
    ensures keeping { H.faults beside.old ≤ H.faults beside.new }
    ensures failed { (H.held host.new).is_sound ≡ false → Rose (H.faults beside.old) (H.faults beside.new) }
    ensures counts { D.faults door.old ≤ D.faults door.new }
{
    match read_request(alloc, reader, host.gateway(), moment, posted, door) {
        Asked::Get(what) => {
            show(door, &*host, what, moment);
            Mark::Shown
        }
        Asked::Post(kind) => take(alloc, host, beside, kind, posted, moment, door),
        Asked::Refused(why) => {
            put_refusal(door, why);
            Mark::Refused(why.status().code)
        }
        Asked::NoRoom => {
            put_refusal(door, Refusal::Memory);
            Mark::Memory
        }
        Asked::Lost => Mark::Lost,
    }
}

// Answers that there is no moment. Nothing of the request is read.
fn refuse_unread<D: Door>(door: &mut D)
    ensures puts { PutsUnless (Rose (D.faults door.old) (D.faults door.new)) (D.told door.old) (D.told door.new)
        (refused_with refusal.Clock) }
    ensures counts { D.faults door.old ≤ D.faults door.new }
    ensures unread { D.beside door.new ≡ D.beside door.old }
{
    put_refusal(door, Refusal::Clock);
}

/// Serves the present connection over what holds a gateway and can take more: the clock is asked once, the request is
/// read, what is posted is taken and what is asked for is answered, and the connection is finished, whatever fails
/// (RFC 9112). Where the door tells its connections, the log has one entry more, which is lawful after what there was
/// before. `posted` holds at most 16,777,216 bytes. `serve_one` is this over a gateway by itself.
pub fn serve_one_with<K, H: HoldsGateway<K>, D: Door, C: Clock>(
    alloc: Global,
    host: &mut H,
    beside: &mut K,
    reader: &mut HeadReader,
    posted: &mut H::Body,
    door: &mut D,
    clock: &mut C,
)
    requires present { (D.beside door.old).present ≡ true }
    requires small { H.Body.taken posted.old ≤ body_limit }
    requires sound { (H.held host.old).is_sound ≡ true }
    requires ready { H.is_ready host.old beside.old }
    ensures serves { (told : Connections) → IsFresh (D.told door.old) (D.beside door.old) told
        → (past : Past) → StandsFor (H.held host.old) past
        → ServesAfter (Rose (D.faults door.old) (D.faults door.new)) (Rose (H.faults beside.old) (H.faults beside.new))
        H.room (H.held host.old) past told (change C.told C.faults clock.old clock.new) (D.told door.new)
        (D.beside door.new) (H.held host.new) }
    ensures logs { (told : Connections) → IsFresh (D.told door.old) (D.beside door.old) told
        → LogsOne told (change C.told C.faults clock.old clock.new) (D.beside door.new) }
    ensures unchanged { (told : Connections) → IsFresh (D.told door.old) (D.beside door.old) told
        → (entry : Entry) → IsLogged told (D.beside door.new) entry → is_taken entry.mark ≡ false
        → (H.held host.new).gate ≡ (H.held host.old).gate }
    ensures keeps { (told : Connections) → IsFresh (D.told door.old) (D.beside door.old) told
        → (entry : Entry) → IsLogged told (D.beside door.new) entry
        → (first : K) (before : List KeptBody) → H.keeps first before [] host.old beside.old
        → HoldsOfBodies (λ taken failed. H.keeps first (before ++ taken) failed host.new beside.new)
        (H.held host.new).is_sound (entry ∷ []) }
    ensures small { H.Body.taken posted.new ≤ body_limit }
    ensures ended { (D.beside door.new).present ≡ false }
    ensures setting { (H.held host.new).gate.setting ≡ (H.held host.old).gate.setting }
    ensures ready { (H.held host.new).is_sound ≡ true → H.is_ready host.new beside.new }
    ensures keeping { H.faults beside.old ≤ H.faults beside.new }
    ensures failed { (H.held host.new).is_sound ≡ false → Rose (H.faults beside.old) (H.faults beside.new) }
    ensures counts { D.faults door.old ≤ D.faults door.new }
    ensures clock { C.faults clock.old ≤ C.faults clock.new }
{
    match clock.now() {
        Ok(moment) => {
            let mark = answer(alloc, host, beside, reader, posted, door, moment);
            H::let_go(alloc, posted);
            door.finish(mark, Some(moment));
        }
        Err(Failed) => {
            refuse_unread(door);
            door.finish(Mark::ClockFault, None);
        }
    }
}

/// Serves the present connection: the clock is asked once, the request is read, what is posted is taken and what is
/// asked for is answered, and the connection is finished, whatever fails (RFC 9112). Where the door tells its
/// connections, the log has one entry more, which is lawful after what arrived before; where no count rose, what is
/// well formed is taken, and what is asked for is shown; and a gateway that took nothing is as before. `body` holds at
/// most 16,777,216 bytes, where it did before.
pub fn serve_one<D: Door, C: Clock>(
    alloc: Global,
    gate: &mut Gateway,
    reader: &mut HeadReader,
    body: &mut Bytes,
    door: &mut D,
    clock: &mut C,
)
    requires present { (D.beside door.old).present ≡ true }
    ensures serves { (told : Connections) → IsFresh (D.told door.old) (D.beside door.old) told
        → (arrivals : List Arrival) → Stands gate.old arrivals
        → Serves (Rose (D.faults door.old) (D.faults door.new)) gate.old arrivals told
        (change C.told C.faults clock.old clock.new) (D.told door.new) (D.beside door.new) gate.new }
    ensures completes { (told : Connections) → IsFresh (D.told door.old) (D.beside door.old) told
        → (arrivals : List Arrival) → Stands gate.old arrivals
        → (entry : Entry) → IsLogged told (D.beside door.new) entry
        → Completes (Rose (D.faults door.old) (D.faults door.new)) gate.old.setting arrivals entry }
    ensures logs { (told : Connections) → IsFresh (D.told door.old) (D.beside door.old) told
        → LogsOne told (change C.told C.faults clock.old clock.new) (D.beside door.new) }
    ensures unchanged { (told : Connections) → IsFresh (D.told door.old) (D.beside door.old) told
        → (entry : Entry) → IsLogged told (D.beside door.new) entry → is_taken entry.mark ≡ false
        → gate.new ≡ gate.old }
    ensures held { length body.old ≤ body_limit → length body.new ≤ body_limit }
    ensures ended { (D.beside door.new).present ≡ false }
    ensures setting { gate.new.setting ≡ gate.old.setting }
    ensures counts { D.faults door.old ≤ D.faults door.new }
    ensures clock { C.faults clock.old ≤ C.faults clock.new }
{
    what_is_well_formed_is_taken_law();
    let mut posted = PostedBody::with_buffer(emptied(std::mem::replace(body, Bytes::new(alloc))));
    serve_one_with(alloc, gate, &mut (), reader, &mut posted, door, clock);
    *body = posted.into_buffer(alloc);
}
