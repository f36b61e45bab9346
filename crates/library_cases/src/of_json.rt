//! Texts of JSON, and the whole number that stands under `a`.
use crate::pieces::Trouble;
use crate::shown::add_line;
use json::{Scratch, Value};
use json_tree::{Names, TreeFault, find, read_kept, read_tree, whole_number};
use std::alloc::{AllocError, Global};

// The number under `a`, where it is a whole one.
fn number_at(tree: &Value<'_>) -> Option<u64> {
    match find(tree, "a") {
        Some(Value::Number(text)) => whole_number(text),
        _ => None,
    }
}

fn read_whole(alloc: Global, bytes: &[u8]) -> Result<Option<u64>, TreeFault> {
    let mut scratch = Scratch::new(alloc);
    match read_tree(alloc, bytes, &mut scratch) {
        Ok(tree) => Ok(number_at(&tree)),
        Err(fault) => Err(fault),
    }
}

// The name that is looked for.
struct NamedA;

impl Names for NamedA {
    ghost use Rattle.std.specs.Prelude.{codes};
    ghost use Rattle.std.specs.Str.{bytes_eq};

    ghost has = { λ name. bytes_eq name (codes "a") };

    fn has(name: &str) -> bool {
        name == "a"
    }
}

// The same of a tree that keeps no other members.
fn read_named(alloc: Global, bytes: &[u8]) -> Result<Option<u64>, TreeFault> {
    let mut scratch = Scratch::new(alloc);
    match read_kept::<NamedA>(alloc, bytes, &mut scratch) {
        Ok(tree) => Ok(number_at(&tree)),
        Err(fault) => Err(fault),
    }
}

fn push_number(
    alloc: Global,
    read: Result<Option<u64>, TreeFault>,
    into: &mut String,
) -> Result<(), AllocError> {
    match read {
        Ok(Some(number)) => {
            let line = format!(in alloc; "a {number}")?;
            add_line(line.as_str(), into)
        }
        Ok(None) => add_line("none", into),
        Err(TreeFault::NotJson) => add_line("NotJson", into),
        Err(TreeFault::Memory) => Err(AllocError),
    }
}

/// Adds the number under `a`, by the tree with all members; and where the one without the others says something else,
/// by that too.
pub fn add_number(alloc: Global, bytes: &[u8], into: &mut String) -> Result<(), Trouble> {
    let whole = read_whole(alloc, bytes);
    let named = read_named(alloc, bytes);
    push_number(alloc, whole, into)?;
    if named != whole {
        push_number(alloc, named, into)?;
    }
    Ok(())
}
