//! The laws of the wire grammar, each the contract of a function that does nothing. They are about the definitions
//! that the readers' and writers' contracts cite.
ghost use Rattle.std.specs.Prelude.{◌≡◌, ◌≢◌, ℕ, List, ◌++◌, ◌<◌, ◌≤◌, ◌^◌, ◌⊎◌, length};
ghost use Rattle.gw_base.specs.declared.wire_kind.WireKind.{WireKind};
ghost use Rattle.wire_fields.specs.Grammar.{WireField, Varint, Bytes, IsVarint, IsSpelling, AreFields};
ghost use Rattle.wire_fields.specs.Breaks.{IsBroken};
ghost use Rattle.wire_fields.specs.TopReading.{Top, StandsFor};
ghost use Rattle.wire_fields.specs.Spelling.{varint, varint_field, bytes_field};

/// Bytes are at most one list of fields.
pub fn fields_are_one_law()
    ensures { (bytes : List ℕ) (fields others : List WireField) → AreFields bytes fields → AreFields bytes others
        → fields ≡ others }
{}

/// Bytes break at most at one place and in one way.
pub fn the_break_is_one_law()
    ensures { (bytes : List ℕ) (at other_at : ℕ) (kind other_kind : WireKind) →
        IsBroken bytes at kind → IsBroken bytes other_at other_kind → (at ≡ other_at) × (kind ≡ other_kind) }
{}

/// Bytes are a list of fields or break, and never both.
pub fn fields_or_a_break_law()
    ensures one { (bytes : List ℕ) → ((fields : List WireField) × AreFields bytes fields)
        ⊎ ((at : ℕ) × (kind : WireKind) × IsBroken bytes at kind) }
    ensures not_both { (bytes : List ℕ) (fields : List WireField) (at : ℕ) (kind : WireKind) → AreFields bytes fields
        → ¬ IsBroken bytes at kind }
{}

/// Bytes that break in another way than being cut short break in the same way at the same place, whatever follows.
pub fn a_break_stays_law()
    ensures { (bytes more : List ℕ) (at : ℕ) (kind : WireKind) → IsBroken bytes at kind →
        kind ≢ WireKind.Truncated → IsBroken (bytes ++ more) at kind }
{}

/// Bytes that a reader of the top level stands for break in no other way than being cut short, so that another break is
/// told as soon as it is there.
pub fn a_break_is_told_law()
    ensures { (top : Top) (bytes : List ℕ) (at : ℕ) (kind : WireKind) → StandsFor top bytes → IsBroken bytes at kind →
        kind ≡ WireKind.Truncated }
{}

/// A list of fields after a list of fields is a list of fields.
pub fn fields_join_law()
    ensures { (front back : List ℕ) (fields others : List WireField) →
        AreFields front fields → AreFields back others → AreFields (front ++ back) (fields ++ others) }
{}

/// What is written is the field's spelling, and so is read as that field.
pub fn written_fields_are_spellings_law()
    ensures varint { (value : ℕ) → value < 2 ^ 64 → IsVarint (varint value) value }
    ensures number { (number value : ℕ) → 1 ≤ number → number ≤ 536870911 → value < 2 ^ 64 →
        IsSpelling 64 (record { number = number; payload = Varint value }) (varint_field number value) }
    ensures bytes { (number : ℕ) (body : List ℕ) → 1 ≤ number → number ≤ 536870911 → length body < 2 ^ 64 →
        IsSpelling 64 (record { number = number; payload = Bytes body }) (bytes_field number body) }
{}
