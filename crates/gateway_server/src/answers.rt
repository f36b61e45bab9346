//! Answers, written to a connection. The definitions are those of `specs/Answers.antt`.
ghost use Rattle.std.specs.Prelude.{◌≡◌, ◌≤◌, List};
ghost use Rattle.gw_base.specs.Count.{Rose};
ghost use Rattle.gw_base.specs.Told.{PutsUnless};
ghost use Rattle.http_talk.specs.declared.answer.Answer.TheVariants as answer;
ghost use Rattle.gateway_core.specs.Arrivals.{Arrival};
ghost use Rattle.gateway_core.specs.Standing.{Stands, served};
ghost use Rattle.gateway_server.specs.Answers as spec;

use gateway_core::Gateway;
use gw_base::{Failed, Moment, Sink, put_all};
use http_talk::{Answer, Refusal, answer_head, refusal_text};

/// Writes an answer with this body, or a prefix of it where the sink fails.
pub fn put_answer<S: Sink>(sink: &mut S, kind: &Answer, body: &[u8])
    ensures front { PutsUnless (Rose (S.faults sink.old) (S.faults sink.new))
        (S.told sink.old) (S.told sink.new) (spec.answer_of kind.now body.now) }
    ensures counts { S.faults sink.old ≤ S.faults sink.new }
    ensures others { S.beside sink.new ≡ S.beside sink.old }
{
    let head = answer_head(kind, body.len() as u64);
    match put_all(sink, head.as_slice()) {
        Ok(()) => {}
        Err(Failed) => return,
    }
    let _done = put_all(sink, body);
}

/// Writes a refusal.
pub fn put_refusal<S: Sink>(sink: &mut S, why: Refusal)
    ensures front { PutsUnless (Rose (S.faults sink.old) (S.faults sink.new))
        (S.told sink.old) (S.told sink.new) (spec.refused_with why) }
    ensures counts { S.faults sink.old ≤ S.faults sink.new }
    ensures others { S.beside sink.new ≡ S.beside sink.old }
{
    let text = refusal_text(&why);
    put_answer(sink, &Answer::Refused(why), text.as_slice());
}

/// Writes the answer whose body is the feed that the gateway serves at that moment.
pub fn put_feed<S: Sink>(sink: &mut S, gate: &Gateway, moment: Moment)
    ensures front { (arrivals : List Arrival) → Stands gate.now arrivals
        → PutsUnless (Rose (S.faults sink.old) (S.faults sink.new)) (S.told sink.old) (S.told sink.new)
        (spec.answer_of answer.Feed (served moment gate.now)) }
    ensures counts { S.faults sink.old ≤ S.faults sink.new }
    ensures others { S.beside sink.new ≡ S.beside sink.old }
{
    let head = answer_head(&Answer::Feed, gate.feed_len(moment));
    match put_all(sink, head.as_slice()) {
        Ok(()) => {}
        Err(Failed) => return,
    }
    let _done = gate.write_feed(moment, sink);
}

/// Writes the answer whose body is the SIRI text that the gateway serves.
pub fn put_siri<S: Sink>(sink: &mut S, gate: &Gateway)
    ensures front { PutsUnless (Rose (S.faults sink.old) (S.faults sink.new))
        (S.told sink.old) (S.told sink.new) (spec.answer_of answer.Json gate.now.text) }
    ensures counts { S.faults sink.old ≤ S.faults sink.new }
    ensures others { S.beside sink.new ≡ S.beside sink.old }
{
    let head = answer_head(&Answer::Json, gate.siri_len());
    match put_all(sink, head.as_slice()) {
        Ok(()) => {}
        Err(Failed) => return,
    }
    let _done = gate.write_siri(sink);
}
