//! A text. Contracts see it as the list of its UTF-8 bytes.
ghost use Rattle.std.specs.Prelude.{◌≡◌, ◌++◌, [], Some, IfOk, OnOk, OnErr, bytes_eq, refl};
ghost use Rattle.std.specs.Cmp.{partial_equiv_from_equiv};
ghost use Rattle.std.specs.Cmp.Lexicographic.{slice_cmp, nat_list_eq_equiv, nat_list_cmp_total, texts_ties, texts_po};
ghost use Rattle.std.specs.Ordering.{nat_cmp};
ghost use Rattle.std.specs.String.{string_bytes};

use std::alloc::{AllocError, Global};
use std::cmp::Ordering;
use std::marker::Model;

/// A text. A contract sees it as the list of its UTF-8 bytes.
#[derive(Debug, Drop)]
pub struct Text {
    text: String,
}

impl Model for Text {
    ghost use Rattle.std.specs.Prelude.{List, ℕ};
    ghost use Rattle.std.specs.String.{string_bytes};

    ghost Value = { List ℕ };

    ghost view = { λ a. string_bytes a.text };
}

impl Text {
    /// An empty text, which takes no memory.
    pub fn new(alloc: Global) -> Text
        ensures empty { result ≡ [] }
    {
        Text {
            text: String::new(alloc),
        }
    }

    /// The text of a string, which takes no memory.
    pub fn from_string(text: String) -> Text
        ensures same { result ≡ string_bytes text }
    {
        Text { text }
    }

    /// A copy of a text.
    pub fn copied(alloc: Global, text: &str) -> Result<Text, AllocError>
        ensures same { IfOk result (λ copy. copy ≡ text.now) }
    {
        Ok(Text {
            text: String::from_str(alloc, text)?,
        })
    }

    /// Adds a text at the end. For want of memory the text stays as it was.
    pub fn push(&mut self, piece: &str) -> Result<(), AllocError>
        ensures added { OnOk result (self.new ≡ self.old ++ piece.now) }
        ensures kept { OnErr result (self.new ≡ self.old) }
    {
        self.text.push_str(piece)
    }

    /// The text.
    pub fn as_str(&self) -> &str
        ensures same { result.now ≡ self.now }
    {
        self.text.as_str()
    }
}

/// Texts are equal where their bytes are.
impl PartialEq for Text {
    ghost eq = { λ a b. bytes_eq a b };

    ghost laws = { partial_equiv_from_equiv nat_list_eq_equiv };

    fn eq(&self, other: &Text) -> bool {
        self.as_str() == other.as_str()
    }
}

impl Eq for Text {
    ghost laws = { nat_list_eq_equiv };
}

/// Texts stand in the order of their bytes.
impl PartialOrd for Text {
    ghost partial_cmp = { λ a b. Some (slice_cmp nat_cmp a b) };

    ghost laws = { texts_po };

    fn partial_cmp(&self, other: &Text) -> Option<Ordering> {
        Some(self.cmp(other))
    }
}

impl Ord for Text {
    ghost cmp = { λ a b. slice_cmp nat_cmp a b };

    ghost total = { nat_list_cmp_total };

    ghost matches_partial_cmp = { λ a b. refl };

    ghost matches_eq = { λ a b. texts_ties a b };

    fn cmp(&self, other: &Text) -> Ordering {
        self.as_str().cmp(other.as_str())
    }
}
