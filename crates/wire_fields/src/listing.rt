//! All fields of a message at once: the plain reader, one field after the other.
ghost use Rattle.std.specs.Prelude.{◌≡◌, List, map, IfOk, IfErr, MatchResult};
ghost use Rattle.wire_fields.specs.Grammar.{WireField, AreFields};
ghost use Rattle.wire_fields.specs.Seen.{field_of};
ghost use Rattle.wire_fields.specs.Listing.{HasCause};

use crate::fault::ListFault;
use crate::field::Field;
use crate::reading::next_field;
use gw_base::List;
use std::alloc::Global;

/// The fields of a message, in order. A fault of the wire comes exactly where the bytes are no list of fields.
pub fn list_fields<'a>(alloc: Global, bytes: &'a [u8]) -> Result<List<Field<'a>>, ListFault>
    ensures fields { IfOk result (λ list. AreFields bytes.now (map field_of list)) }
    ensures cause { IfErr result (λ fault. HasCause bytes.now fault) }
    ensures reads { (fields : List WireField) → AreFields bytes.now fields →
        MatchResult result (λ list. map field_of list ≡ fields) (λ fault. fault ≡ ListFault.Memory) }
{
    let mut fields = List::new(alloc);
    let mut at = 0;
    while let Some((field, next)) = next_field(bytes, at)? {
        fields.push(field)?;
        at = next;
    }
    Ok(fields)
}
