//! A slot: the number under which a pool holds a span.
use std::marker::Model;

/// The number under which a pool holds a span, from `put` until it is given back. A contract sees the number.
#[derive(Debug, Drop)]
pub struct Slot {
    pub(crate) number: usize,
}

impl Model for Slot {
    ghost use Rattle.std.specs.Prelude.{ℕ};

    ghost Value = { ℕ };

    ghost view = { λ a. a.number };
}
