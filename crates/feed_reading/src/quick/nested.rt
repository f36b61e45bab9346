//! Messages that are read from the front, by one rule for all.
ghost use Rattle.std.specs.Prelude.{ℕ, List, [], Some, IfOk, OnOk};
ghost use Rattle.wire_fields.specs.Grammar.{WireField};
ghost use Rattle.wire_fields.specs.Seen.{field_of};
ghost use Rattle.feed_reading.specs.Meaning.{Means, IsMessage, AreMessages};
ghost use Rattle.feed_reading.specs.Partly.{Goes, IsFound};

use crate::plain::kinds::body_in;
use crate::plain_fault::PlainFault;
use crate::quick::found::Found;
use gw_base::{Boxed, List};
use std::alloc::{AllocError, Global};
use wire_fields::{Field, next_field};

// What is known of a message after some of its fields.
pub trait Parts<'a>: Drop {
    ghost use Rattle.std.specs.Prelude.{List, [], IfOk, OnOk};
    ghost use Rattle.wire_fields.specs.Grammar.{WireField};
    ghost use Rattle.wire_fields.specs.Seen.{field_of};
    ghost use Rattle.feed_reading.specs.Partly.{Goes};

    // The message.
    type Whole;

    // What is known: by `specs/Partly.antt`.
    ghost after: { List WireField → Self → Type 0 };

    // The message's table.
    ghost table: { List WireField → Self.Whole → Type 0 };

    // Before the first field of these bytes.
    fn start(alloc: Global, bytes: &[u8]) -> Result<Self, AllocError>
        ensures { IfOk result (λ parts. after [] parts) };

    // One field further.
    fn take(&mut self, alloc: Global, field: &Field<'a>) -> Result<(), PlainFault>
        ensures { OnOk result (Goes after (field_of field.now) self.old self.new) };

    // The message of the fields.
    fn finish(self, alloc: Global) -> Result<Self::Whole, PlainFault>
        ensures { IfOk result (λ whole. (fields : List WireField) → after fields self → table fields whole) };
}

// A message that is read from bytes.
pub trait QuickMessage: Drop {
    ghost use Rattle.std.specs.Prelude.{List, IfOk};
    ghost use Rattle.wire_fields.specs.Grammar.{WireField};
    ghost use Rattle.feed_reading.specs.Meaning.{Means};

    // The message's table.
    ghost table: { List WireField → Self → Type 0 };

    // The message that bytes mean.
    fn read(alloc: Global, bytes: &[u8]) -> Result<Self, PlainFault>
        ensures { IfOk result (λ message. Means table bytes.now message) };
}

// A message that stands apart is rare.
impl<M: QuickMessage> QuickMessage for Boxed<M> {
    ghost table = { M.table };

    #[cold]
    #[inline(never)]
    fn read(alloc: Global, bytes: &[u8]) -> Result<Boxed<M>, PlainFault> {
        Ok(Boxed::new(alloc, M::read(alloc, bytes)?)?)
    }
}

// Adds the message that the body of a field means, if the field has this number.
#[inline(always)]
pub fn add_message<M: QuickMessage>(
    alloc: Global,
    number: u32,
    field: &Field<'_>,
    messages: &mut List<M>,
) -> Result<(), PlainFault>
    ensures { OnOk result (Goes (AreMessages M.table number) (field_of field.now) messages.old messages.new) }
{
    match body_in(field, number) {
        Some(body) => {
            let message = M::read(alloc, body)?;
            messages.push(message)?;
            Ok(())
        }
        None => Ok(()),
    }
}

// The message that the bodies mean together, if there are some.
#[inline(always)]
pub fn read_found<M: QuickMessage>(
    alloc: Global,
    found: &Found<'_>,
) -> Result<Option<M>, PlainFault>
    ensures { IfOk result
        (λ message. (number : ℕ) (fields : List WireField) → IsFound number fields found.now
        → IsMessage M.table number fields message) }
{
    match found {
        Found::Nothing => Ok(None),
        Found::One(body) => Ok(Some(M::read(alloc, body)?)),
        Found::Joined(bytes) => Ok(Some(M::read(alloc, bytes.as_slice())?)),
    }
}

// The message that the bodies mean together, which has to be there.
#[inline(always)]
pub fn read_required<M: QuickMessage>(alloc: Global, found: &Found<'_>) -> Result<M, PlainFault>
    ensures { IfOk result
        (λ message. (number : ℕ) (fields : List WireField) → IsFound number fields found.now
        → IsMessage M.table number fields (Some message)) }
{
    match read_found(alloc, found)? {
        Some(message) => Ok(message),
        None => Err(PlainFault::Meaningless),
    }
}

// The message that bytes mean.
#[inline(always)]
pub fn read_parts<'a, P: Parts<'a>>(alloc: Global, bytes: &'a [u8]) -> Result<P::Whole, PlainFault>
    ensures { IfOk result (λ whole. Means P.table bytes.now whole) }
{
    let mut parts = P::start(alloc, bytes)?;
    let mut at = 0;
    while let Some((field, next)) = next_field(bytes, at)? {
        parts.take(alloc, &field)?;
        at = next;
    }
    parts.finish(alloc)
}
