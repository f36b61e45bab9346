//! Whether bytes are a list of fields by themselves.
ghost use Rattle.std.specs.Prelude.{List, IfOk, IfErr};
ghost use Rattle.wire_fields.specs.Grammar.{WireField, AreFields};
ghost use Rattle.wire_fields.specs.Breaks.{IsBroken};

use wire_fields::{WireFault, next_field};

// Where bytes are no list of fields, if they are none.
pub fn check_fields(bytes: &[u8]) -> Result<(), WireFault>
    ensures whole { IfOk result (λ _. (fields : List WireField) × AreFields bytes.now fields) }
    ensures broken { IfErr result (λ fault. IsBroken bytes.now fault.at fault.kind) }
{
    let mut at = 0;
    while let Some((_field, next)) = next_field(bytes, at)? {
        at = next;
    }
    Ok(())
}
