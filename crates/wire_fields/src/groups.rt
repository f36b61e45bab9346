//! The groups that are open at a place.
ghost use Rattle.std.specs.Prelude.{◌≡◌, ◌∷◌, [], ◌==◌, length, Some, None, OnOk, OnErr, IfErr};
ghost use Rattle.wire_fields.specs.Grammar.{Group};
ghost use Rattle.wire_fields.specs.Breaks.{open_after_field, open_after_end, open_after_item};
ghost use Rattle.wire_fields.specs.Reading.{kind_of_block};
ghost use Rattle.wire_fields.specs.Seen.{item_of};

use crate::field::Value;
use crate::item::Item;
use gw_base::WireKind;
use std::marker::Model;

/// The numbers of the groups that are open, at most 64. A contract sees the list of them, the innermost first.
#[derive(Debug, Drop)]
pub struct OpenGroups {
    numbers: [u32; 64],
    count: usize,
}

impl Model for OpenGroups {
    ghost use Rattle.std.specs.Prelude.{ℕ, ◌≤◌, List, take, reverse};

    ghost Value = { List ℕ };

    ghost view = { λ g. reverse (take g.count g.numbers) };

    ghost invariant = { λ g. g.count ≤ 64 };
}

impl OpenGroups {
    /// No open group.
    pub fn none() -> OpenGroups
        ensures none { result ≡ [] }
    {
        OpenGroups {
            numbers: [0; 64],
            count: 0,
        }
    }

    /// One open group.
    pub fn with_first(number: u32) -> OpenGroups
        ensures first { result ≡ number ∷ [] }
    {
        let mut numbers = [0; 64];
        numbers[0] = number;
        OpenGroups { numbers, count: 1 }
    }

    /// Whether none is open.
    pub fn is_empty(&self) -> bool
        ensures value { result ≡ (length self.now == 0) }
    {
        self.count == 0
    }

    /// Goes on to the next item: opens the group that it starts, or closes the one that it ends.
    /// An item that can't follow is answered with what is wrong, and changes nothing.
    pub fn follow(&mut self, item: Item<'_>) -> Result<(), WireKind>
        ensures ok { OnOk result (open_after_item self.old (item_of item.entry) ≡ Some self.new) }
        ensures err { OnErr result ((open_after_item self.old (item_of item.entry) ≡ None) × (self.new ≡ self.old)) }
        ensures kind { IfErr result (λ kind. kind ≡ kind_of_block (item_of item.entry)) }
    {
        match item {
            Item::Ends(number) => self.close(number),
            Item::Holds(field) => match field.value {
                Value::Group => self.open(field.number),
                _ => Ok(()),
            },
        }
    }

    /// Opens a group in the innermost one, if there is room for it.
    pub fn open(&mut self, number: u32) -> Result<(), WireKind>
        ensures ok { OnOk result (open_after_field self.old number Group ≡ Some self.new) }
        ensures err { OnErr result ((open_after_field self.old number Group ≡ None) × (self.new ≡ self.old)) }
        ensures kind { IfErr result (λ kind. kind ≡ WireKind.DeepGroup) }
    {
        if self.count == 64 {
            return Err(WireKind::DeepGroup);
        }
        self.numbers[self.count] = number;
        self.count += 1;
        Ok(())
    }

    /// Closes the innermost group, if it has this number.
    pub fn close(&mut self, number: u32) -> Result<(), WireKind>
        ensures ok { OnOk result (open_after_end self.old number ≡ Some self.new) }
        ensures err { OnErr result ((open_after_end self.old number ≡ None) × (self.new ≡ self.old)) }
        ensures kind { IfErr result (λ kind. kind ≡ WireKind.BadGroup) }
    {
        if self.count == 0 || self.numbers[self.count - 1] != number {
            return Err(WireKind::BadGroup);
        }
        self.count -= 1;
        Ok(())
    }
}
