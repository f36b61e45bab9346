//! Messages in messages, by the rules of `specs/Meaning.antt`, which are the same for all messages.
ghost use Rattle.std.specs.Prelude.{◌≡◌, Some, List, map, IfOk};
ghost use Rattle.std.specs.List.{concat};
ghost use Rattle.wire_fields.specs.Grammar.{WireField};
ghost use Rattle.wire_fields.specs.Seen.{field_of};
ghost use Rattle.feed_reading.specs.Meaning.{Means, AreBodies, IsMessage, AreMessages};
ghost use Rattle.feed_reading.specs.Plain.{Finds};

use crate::plain::kinds::bodies;
use crate::plain_fault::PlainFault;
use gw_base::{Boxed, Bytes, List};
use std::alloc::{AllocError, Global};
use wire_fields::{Field, list_fields};

// A message that is read from the list of its fields.
pub trait Message: Drop {
    ghost use Rattle.std.specs.Prelude.{List};
    ghost use Rattle.wire_fields.specs.Grammar.{WireField};

    // Which fields it has: its table of `specs/Tables.antt`.
    ghost table: { List WireField → Self → Type 0 };

    // The message of these fields.
    fn of_fields(alloc: Global, fields: &[Field<'_>]) -> Result<Self, PlainFault>
        ensures { Finds (table (map field_of fields.now)) result };
}

impl<M: Message> Message for Boxed<M> {
    ghost table = { M.table };

    fn of_fields(alloc: Global, fields: &[Field<'_>]) -> Result<Boxed<M>, PlainFault> {
        Ok(Boxed::new(alloc, M::of_fields(alloc, fields)?)?)
    }
}

// The message that bytes mean.
pub fn read<M: Message>(alloc: Global, bytes: &[u8]) -> Result<M, PlainFault>
    ensures { Finds (Means M.table bytes.now) result }
{
    let fields = list_fields(alloc, bytes)?;
    M::of_fields(alloc, fields.as_slice())
}

// Answers well where each body is a list of fields by itself.
fn each_listed(alloc: Global, bodies: &[&[u8]]) -> Result<(), PlainFault>
    ensures { Finds (λ _. AreBodies (map (λ body. body.now) bodies.now)) result }
{
    for body in bodies {
        list_fields(alloc, body)?;
    }
    Ok(())
}

// The bodies, one after the other.
fn joined(alloc: Global, bodies: &[&[u8]]) -> Result<Bytes, AllocError>
    ensures { IfOk result (λ bytes. bytes ≡ concat (map (λ body. body.now) bodies.now)) }
{
    let mut bytes = List::new(alloc);
    for body in bodies {
        bytes.extend(body)?;
    }
    Ok(bytes)
}

// The message that the bodies of a field number mean together, if there is one.
pub fn embedded<M: Message>(
    alloc: Global,
    fields: &[Field<'_>],
    number: u32,
) -> Result<Option<M>, PlainFault>
    ensures { Finds (IsMessage M.table number (map field_of fields.now)) result }
{
    let bodies = bodies(alloc, fields, number)?;
    each_listed(alloc, bodies.as_slice())?;
    if bodies.is_empty() {
        return Ok(None);
    }
    let bytes = joined(alloc, bodies.as_slice())?;
    Ok(Some(read(alloc, bytes.as_slice())?))
}

// The message that the bodies of a field number mean together, which has to be there.
pub fn required<M: Message>(
    alloc: Global,
    fields: &[Field<'_>],
    number: u32,
) -> Result<M, PlainFault>
    ensures { Finds (λ m. IsMessage M.table number (map field_of fields.now) (Some m)) result }
{
    embedded(alloc, fields, number)?.ok_or(PlainFault::Meaningless)
}

// The messages that each body of a field number means, in order.
pub fn repeated<M: Message>(
    alloc: Global,
    fields: &[Field<'_>],
    number: u32,
) -> Result<List<M>, PlainFault>
    ensures { Finds (AreMessages M.table number (map field_of fields.now)) result }
{
    let bodies = bodies(alloc, fields, number)?;
    let mut messages = List::new(alloc);
    for body in bodies.as_slice() {
        messages.push(read(alloc, body)?)?;
    }
    Ok(messages)
}
