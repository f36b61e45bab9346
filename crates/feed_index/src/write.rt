//! The bytes of the entries in the order of their keys, written to a sink. Small pieces are gathered in a buffer that
//! is a local of the call.
ghost use Rattle.std.specs.Prelude.{◌≡◌, ◌++◌, [], if◌then◌else◌, Bool, OnOk, OnErr, IsErr};
ghost use Rattle.gw_base.specs.Count.{Counts, Rose};
ghost use Rattle.gw_base.specs.Told.{PutsUnless, with_bytes};
ghost use Rattle.feed_index.specs.Chosen.{Sends, chosen};
ghost use Rattle.feed_index.specs.Rows.{AreHeld, entries_of};

use crate::row::Row;
use arrayvec::ArrayVec;
use gw_base::{Failed, Sink, put_all};
use span_pool::SpanPool;

/// How many bytes are gathered.
const ROOM: usize = 65_536;

/// A test of the values of entries.
pub trait Choice<R> {
    /// Whether a value passes.
    ghost test: { Self → R → Bool };

    /// Whether this value passes.
    fn passes(&self, value: &R) -> bool
        ensures value { result ≡ test self.now value.now };
}

/// Gathers a piece, and writes what is gathered where it has no room after it.
fn gather<S: Sink>(
    gathered: &mut ArrayVec<u8, ROOM>,
    sink: &mut S,
    piece: &[u8],
) -> Result<(), Failed>
    ensures sent { OnOk result
        (Sends (S.told sink.old) (S.told sink.new) gathered.new.items (gathered.old.items ++ piece.now)) }
    ensures front { OnErr result
        (PutsUnless (Rose (S.faults sink.old) (S.faults sink.new)) (S.told sink.old) (S.told sink.new)
        (gathered.old.items ++ piece.now)) }
    ensures counts { Counts (IsErr result) (S.faults sink.old) (S.faults sink.new) }
    ensures others { S.beside sink.new ≡ S.beside sink.old }
{
    if gathered.try_extend_from_slice(piece).is_ok() {
        return Ok(());
    }
    match put_all(sink, gathered.as_slice()) {
        Ok(()) => {}
        Err(end) => return Err(end),
    }
    gathered.clear();
    if gathered.try_extend_from_slice(piece).is_ok() {
        return Ok(());
    }
    match put_all(sink, piece) {
        Ok(()) => Ok(()),
        Err(end) => Err(end),
    }
}

/// Gathers a piece where its value passes.
fn offer<R, C: Choice<R>, S: Sink>(
    choice: &C,
    gathered: &mut ArrayVec<u8, ROOM>,
    sink: &mut S,
    value: &R,
    piece: &[u8],
) -> Result<(), Failed>
    ensures sent { OnOk result
        (Sends (S.told sink.old) (S.told sink.new) gathered.new.items
        (gathered.old.items ++ (if C.test choice.now value.now then piece.now else []))) }
    ensures front { OnErr result
        (PutsUnless (Rose (S.faults sink.old) (S.faults sink.new)) (S.told sink.old) (S.told sink.new)
        (gathered.old.items ++ (if C.test choice.now value.now then piece.now else []))) }
    ensures counts { Counts (IsErr result) (S.faults sink.old) (S.faults sink.new) }
    ensures others { S.beside sink.new ≡ S.beside sink.old }
{
    if choice.passes(value) {
        return gather(gathered, sink, piece);
    }
    Ok(())
}

/// Gathers the bytes of the rows whose values pass.
fn gather_rows<K, R, C: Choice<R>, S: Sink>(
    rows: &[Row<K, R>],
    pool: &SpanPool,
    choice: &C,
    gathered: &mut ArrayVec<u8, ROOM>,
    sink: &mut S,
) -> Result<(), Failed>
    requires held { AreHeld rows.now pool.now.spans }
    requires none { gathered.old.items ≡ [] }
    ensures sent { OnOk result
        (Sends (S.told sink.old) (S.told sink.new) gathered.new.items
        (chosen (C.test choice.now) (entries_of pool.now.spans rows.now))) }
    ensures front { OnErr result
        (PutsUnless (Rose (S.faults sink.old) (S.faults sink.new)) (S.told sink.old) (S.told sink.new)
        (chosen (C.test choice.now) (entries_of pool.now.spans rows.now))) }
    ensures counts { Counts (IsErr result) (S.faults sink.old) (S.faults sink.new) }
    ensures others { S.beside sink.new ≡ S.beside sink.old }
{
    for row in rows {
        let piece = pool.span(&row.slot);
        match offer(choice, gathered, sink, &row.value, piece) {
            Ok(()) => {}
            Err(end) => return Err(end),
        }
    }
    Ok(())
}

/// Writes the bytes of the rows whose values pass, in their order.
pub fn write_rows<K, R, C: Choice<R>, S: Sink>(
    rows: &[Row<K, R>],
    pool: &SpanPool,
    choice: &C,
    sink: &mut S,
) -> Result<(), Failed>
    requires held { AreHeld rows.now pool.now.spans }
    ensures all { OnOk result
        (S.told sink.new
        ≡ with_bytes (S.told sink.old) (chosen (C.test choice.now) (entries_of pool.now.spans rows.now))) }
    ensures front { PutsUnless (Rose (S.faults sink.old) (S.faults sink.new)) (S.told sink.old) (S.told sink.new)
        (chosen (C.test choice.now) (entries_of pool.now.spans rows.now)) }
    ensures counts { Counts (IsErr result) (S.faults sink.old) (S.faults sink.new) }
    ensures others { S.beside sink.new ≡ S.beside sink.old }
{
    let mut rest = ArrayVec::<u8, ROOM>::new();
    match gather_rows(rows, pool, choice, &mut rest, sink) {
        Ok(()) => {}
        Err(end) => return Err(end),
    }
    match put_all(sink, rest.as_slice()) {
        Ok(()) => Ok(()),
        Err(end) => Err(end),
    }
}
