//! A list of values, and bytes as a list of them. Contracts see the list alone, and not its room.
ghost use Rattle.std.specs.Prelude.{◌≡◌, ◌==◌, ◌+◌, ◌++◌, ◌∷◌, [], ℕ, List as Values, take, length, OnOk, OnErr, IfOk, IfSome};
ghost use Rattle.std.specs.Io.{appended_bytes};
ghost use Rattle.std.specs.Io.KnownBytes.{Consumes, IsAtEnd};

use std::alloc::{AllocError, Global};
use std::io::{self, Read};
use std::marker::Model;

/// A list of values. A contract sees it as the list of them.
#[derive(Debug, Drop)]
pub struct List<T> {
    items: Vec<T>,
}

/// A list of bytes.
pub type Bytes = List<u8>;

impl<T> Model for List<T> {
    ghost use Rattle.std.specs.Prelude.{List};

    ghost Value = { List T };

    ghost view = { λ a. a.items.items };
}

impl<T> List<T> {
    /// An empty list, which takes no memory.
    pub fn new(alloc: Global) -> List<T>
        ensures empty { result ≡ [] }
    {
        List {
            items: Vec::new(alloc),
        }
    }

    /// The list of a vector's elements, which takes no memory.
    pub fn from_vec(items: Vec<T>) -> List<T>
        ensures same { result ≡ items.items }
    {
        List { items }
    }

    /// The vector of the elements, which takes no memory.
    pub fn into_vec(self) -> Vec<T>
        ensures same { result.items ≡ self }
    {
        let List { items } = self;
        items
    }

    /// The number of elements.
    pub fn len(&self) -> usize
        ensures value { result ≡ length self.now }
    {
        self.items.len()
    }

    /// Whether there is no element.
    pub fn is_empty(&self) -> bool
        ensures value { result ≡ (length self.now == 0) }
    {
        self.items.is_empty()
    }

    /// The elements, in order.
    pub fn as_slice(&self) -> &[T]
        ensures same { result.now ≡ self.now }
    {
        self.items.as_slice()
    }
}

impl<T: Drop> List<T> {
    /// Takes all elements out. The room stays.
    pub fn clear(&mut self)
        ensures empty { self.new ≡ [] }
    {
        self.items.clear();
    }

    /// Adds an element at the end. For want of memory the list stays and the element is dropped.
    pub fn push(&mut self, value: T) -> Result<(), AllocError>
        ensures added { OnOk result (self.new ≡ self.old ++ value ∷ []) }
        ensures kept { OnErr result (self.new ≡ self.old) }
    {
        self.items.push(value)?;
        Ok(())
    }
}

impl List<u8> {
    /// The bytes of a slice, copied.
    pub fn copied(alloc: Global, bytes: &[u8]) -> Result<Bytes, AllocError>
        ensures same { IfOk result (λ list. list ≡ bytes.now) }
    {
        Ok(List {
            items: Vec::from_slice(alloc, bytes)?,
        })
    }

    /// Adds bytes at the end. For want of memory the list stays as it was.
    pub fn extend(&mut self, bytes: &[u8]) -> Result<(), AllocError>
        ensures added { OnOk result (self.new ≡ self.old ++ bytes.now) }
        ensures kept { OnErr result (self.new ≡ self.old) }
    {
        self.items.extend_from_slice(bytes)
    }

    /// Leaves the first `count` bytes, and keeps the room.
    pub fn truncate(&mut self, count: usize)
        ensures front { self.new ≡ take count self.old }
    {
        self.items.truncate(count);
    }

    /// Reads to the end of what the reader gives, after the bytes that are there: after a fault too they
    /// are still there. Answers how many bytes came. What has come is what the reader no longer has.
    pub fn read_to_end<R: Read>(&mut self, reader: &mut R) -> io::Result<usize>
        ensures after { (bytes : Values ℕ) × (self.new ≡ self.old ++ bytes) }
        ensures count { IfOk result (λ n. length self.new ≡ length self.old + n) }
        ensures whole { OnOk result (IfSome (R.remaining reader.old) (λ bytes. self.new ≡ self.old ++ bytes)) }
        ensures end { OnOk result (IsAtEnd (R.remaining reader.new)) }
        ensures left { Consumes (R.remaining reader.old) (R.remaining reader.new) (appended_bytes self.old self.new) }
    {
        reader.read_to_end(&mut self.items)
    }
}
