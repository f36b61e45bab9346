//! A text is read as a tree.
ghost use Rattle.std.specs.Prelude.{◌≡◌, is_some, Some, None, Err, IfOk, IfErr};
ghost use Rattle.std.specs.Str.{IsUtf8};
ghost use Rattle.json.specs.Value.{value_view};
ghost use Rattle.serde_json.specs.Read.{of_json, read};
ghost use Rattle.json_tree.specs.Faults.{Says};
ghost use Rattle.json_tree.specs.Trees.{view};

use crate::numbers::fits;
use json::{Error, Reader, Scratch, Value};
use std::alloc::{AllocError, Global};

/// Why bytes were not read as a tree.
#[derive(Clone, Copy, Debug, PartialEq, Eq)]
pub enum TreeFault {
    /// They aren't JSON in UTF-8, nested at most 127 deep, with numbers in range.
    NotJson,
    /// Want of memory.
    Memory,
}

/// How deep arrays and objects may nest.
pub const MOST_DEPTH: usize = 127;

/// Whether each number of a tree is in range.
pub fn are_in_range(tree: &Value<'_>) -> bool
    ensures { result ≡ is_some (of_json (value_view tree.now)) }
{
    match tree {
        Value::Number(text) => fits(text),
        Value::Array(items) => {
            for item in items.as_slice() {
                if !are_in_range(item) {
                    return false;
                }
            }
            true
        }
        Value::Object(members) => {
            for member in members.as_slice() {
                if !are_in_range(&member.1) {
                    return false;
                }
            }
            true
        }
        Value::Null | Value::Bool(_) | Value::String(_) => true,
    }
}

// The tree of a text whose numbers may be out of range.
fn any_tree<'a>(
    alloc: Global,
    text: &'a str,
    scratch: &'a mut Scratch,
) -> Result<Value<'a>, TreeFault>
    ensures tree { IfOk result (λ tree. read text.now ≡ of_json (value_view tree)) }
    ensures fault { IfErr result (Says (read text.now ≡ None)) }
{
    let mut reader = match Reader::new(text, scratch) {
        Ok(reader) => reader,
        Err(AllocError) => return Err(TreeFault::Memory),
    };
    let tree = match Value::read(alloc, &mut reader, MOST_DEPTH) {
        Ok(tree) => tree,
        Err(Error::Invalid) => return Err(TreeFault::NotJson),
        Err(_) => return Err(TreeFault::Memory),
    };
    match reader.next() {
        None => Ok(tree),
        Some(_) => Err(TreeFault::NotJson),
    }
}

// The tree of a text.
fn tree_of_text<'a>(
    alloc: Global,
    text: &'a str,
    scratch: &'a mut Scratch,
) -> Result<Value<'a>, TreeFault>
    ensures tree { IfOk result (λ tree. read text.now ≡ Some (view tree)) }
    ensures fault { IfErr result (Says (read text.now ≡ None)) }
{
    let tree = any_tree(alloc, text, scratch)?;
    if are_in_range(&tree) {
        Ok(tree)
    } else {
        Err(TreeFault::NotJson)
    }
}

/// The tree of bytes that are JSON in UTF-8 (RFC 8259), as `serde_json` reads it. `scratch` has room for texts with
/// escapes. Want of memory may come in the place of any answer.
pub fn read_tree<'a>(
    alloc: Global,
    bytes: &'a [u8],
    scratch: &'a mut Scratch,
) -> Result<Value<'a>, TreeFault>
    ensures text { IfOk result (λ _. IsUtf8 bytes.now) }
    ensures tree { IfOk result (λ tree. read bytes.now ≡ Some (view tree)) }
    ensures fault { IfErr result (Says (IsUtf8 bytes.now → read bytes.now ≡ None)) }
{
    match simdutf8::compat::from_utf8(bytes) {
        Ok(text) => tree_of_text(alloc, text, scratch),
        Err(_) => Err(TreeFault::NotJson),
    }
}
