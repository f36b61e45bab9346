//! A text is read as a tree of which only the members stay whose names are kept, by `specs/Kept.antt`.
ghost use Rattle.std.specs.Prelude.{◌≡◌, ◌<◌, ◌++◌, [], ◌∷◌, length, option_map, Some, None, IfOk, OnOk, IfErr};
ghost use Rattle.std.specs.Str.{IsUtf8};
ghost use Rattle.json.specs.Json.{value, items, members};
ghost use Rattle.json.specs.Value.{value_view, items_view, members_view};
ghost use Rattle.serde_json.specs.Read.{read, of_json, converted};
ghost use Rattle.json_tree.specs.Faults.{Says};
ghost use Rattle.json_tree.specs.Keeping.{kept_if_fits, items_if_fit, members_if_fit};
ghost use Rattle.json_tree.specs.Kept.{IsKeptOf};

use crate::numbers::fits;
use crate::reading::{MOST_DEPTH, TreeFault, are_in_range};
use json::{Error, Reader, Scratch, Token, Value};
use std::alloc::{AllocError, Global};

/// Names of members that are kept.
pub trait Names {
    ghost use Rattle.std.specs.Prelude.{◌≡◌, ℕ, List, Bool};

    /// Whether a name is kept.
    ghost has: { List ℕ → Bool };

    /// Whether this name is kept.
    fn has(name: &str) -> bool
        ensures { result ≡ has name.now };
}

// `Vec::push`, which looks for room first.
#[inline(always)]
fn push<T: Drop>(list: &mut Vec<T>, item: T) -> Result<(), AllocError>
    ensures { OnOk result (list.new.items ≡ list.old.items ++ item ∷ []) }
{
    if list.len() < list.capacity() {
        list.push_reserved(item);
        return Ok(());
    }
    match list.push(item) {
        Ok(()) => Ok(()),
        Err(_) => Err(AllocError),
    }
}

// Passes over the next value of the reader, whose numbers must be in range.
fn pass_value<'a>(alloc: Global, reader: &mut Reader<'a>, depth: usize) -> Result<(), TreeFault>
    ensures ok { OnOk result (option_map (λ p. p.1) (converted of_json (value depth reader.old)) ≡ Some reader.new) }
    ensures shorter { OnOk result (length reader.new < length reader.old) }
    ensures fault { IfErr result (Says (converted of_json (value depth reader.old) ≡ None)) }
{
    let passed = match Value::read(alloc, reader, depth) {
        Ok(passed) => passed,
        Err(Error::Invalid) => return Err(TreeFault::NotJson),
        Err(_) => return Err(TreeFault::Memory),
    };
    if are_in_range(&passed) {
        Ok(())
    } else {
        Err(TreeFault::NotJson)
    }
}

// What is kept of the next value of the reader. Arrays and objects may nest `depth` deep. Members are gathered in one
// list for all objects that aren't at their end yet, so that the list of each is made with just its room.
#[cycle(keep)]
#[inline(always)]
fn keep_value<'a, N: Names>(
    alloc: Global,
    reader: &mut Reader<'a>,
    gathered: &mut Vec<(&'a str, Value<'a>)>,
    depth: usize,
) -> Result<Value<'a>, TreeFault>
    ensures ok { IfOk result
        (λ tree. converted (kept_if_fits N.has) (value depth reader.old) ≡ Some (value_view tree, reader.new)) }
    ensures shorter { OnOk result (length reader.new < length reader.old) }
    ensures stays { OnOk result (gathered.new.items ≡ gathered.old.items) }
    ensures fault { IfErr result (Says (converted (kept_if_fits N.has) (value depth reader.old) ≡ None)) }
{
    let Some(token) = reader.next() else {
        return Err(TreeFault::NotJson);
    };
    match token {
        Token::String(text) => Ok(Value::String(text)),
        Token::Number(text) => {
            if fits(text) {
                Ok(Value::Number(text))
            } else {
                Err(TreeFault::NotJson)
            }
        }
        Token::Bool(b) => Ok(Value::Bool(b)),
        Token::Null => Ok(Value::Null),
        Token::EndObject | Token::EndArray | Token::Key(_) | Token::Bad => Err(TreeFault::NotJson),
        Token::BeginArray => {
            if depth == 0 {
                return Err(TreeFault::NotJson);
            }
            match keep_items::<N>(alloc, reader, gathered, depth - 1) {
                Ok(list) => Ok(Value::Array(list)),
                Err(fault) => Err(fault),
            }
        }
        Token::BeginObject => {
            if depth == 0 {
                return Err(TreeFault::NotJson);
            }
            match keep_members::<N>(alloc, reader, gathered, depth - 1) {
                Ok(list) => Ok(Value::Object(list)),
                Err(fault) => Err(fault),
            }
        }
    }
}

// What is kept of the items of an array, after the bracket that begins it.
#[cycle(keep)]
#[inline(never)]
fn keep_items<'a, N: Names>(
    alloc: Global,
    reader: &mut Reader<'a>,
    gathered: &mut Vec<(&'a str, Value<'a>)>,
    depth: usize,
) -> Result<Vec<Value<'a>>, TreeFault>
    ensures ok { IfOk result
        (λ list. converted (items_if_fit N.has) (items (value depth) (length reader.old) reader.old)
        ≡ Some (items_view list.items, reader.new)) }
    ensures shorter { OnOk result (length reader.new < length reader.old) }
    ensures stays { OnOk result (gathered.new.items ≡ gathered.old.items) }
    ensures fault { IfErr result
        (Says (converted (items_if_fit N.has) (items (value depth) (length reader.old) reader.old) ≡ None)) }
{
    let mut found = Vec::new(alloc);
    while !reader.take_end_array() {
        let item = match keep_value::<N>(alloc, reader, gathered, depth) {
            Ok(item) => item,
            Err(fault) => return Err(fault),
        };
        if push(&mut found, item).is_err() {
            return Err(TreeFault::Memory);
        }
    }
    Ok(found)
}

// What is kept of the members of an object, after the brace that begins it.
#[cycle(keep)]
#[inline(never)]
fn keep_members<'a, N: Names>(
    alloc: Global,
    reader: &mut Reader<'a>,
    gathered: &mut Vec<(&'a str, Value<'a>)>,
    depth: usize,
) -> Result<Vec<(&'a str, Value<'a>)>, TreeFault>
    ensures ok { IfOk result
        (λ list. converted (members_if_fit N.has) (members (value depth) (length reader.old) reader.old)
        ≡ Some (members_view list.items, reader.new)) }
    ensures shorter { OnOk result (length reader.new < length reader.old) }
    ensures stays { OnOk result (gathered.new.items ≡ gathered.old.items) }
    ensures fault { IfErr result
        (Says (converted (members_if_fit N.has) (members (value depth) (length reader.old) reader.old) ≡ None)) }
{
    let start = gathered.len();
    loop {
        let key = match reader.next_key() {
            Ok(Some(key)) => key,
            Ok(None) => {
                return match gathered.split_off(start) {
                    Ok(list) => Ok(list),
                    Err(_) => Err(TreeFault::Memory),
                };
            }
            Err(_) => return Err(TreeFault::NotJson),
        };
        if !N::has(key) {
            match pass_value(alloc, reader, depth) {
                Ok(()) => continue,
                Err(fault) => return Err(fault),
            }
        }
        let member = match keep_value::<N>(alloc, reader, gathered, depth) {
            Ok(member) => member,
            Err(fault) => return Err(fault),
        };
        if push(gathered, (key, member)).is_err() {
            return Err(TreeFault::Memory);
        }
    }
}

// What is kept of the tree of a text.
fn kept_of_text<'a, N: Names>(
    alloc: Global,
    text: &'a str,
    scratch: &'a mut Scratch,
) -> Result<Value<'a>, TreeFault>
    ensures tree { IfOk result (IsKeptOf N.has (read text.now)) }
    ensures fault { IfErr result (Says (read text.now ≡ None)) }
{
    let mut reader = match Reader::new(text, scratch) {
        Ok(reader) => reader,
        Err(AllocError) => return Err(TreeFault::Memory),
    };
    let mut gathered = Vec::new(alloc);
    let tree = match keep_value::<N>(alloc, &mut reader, &mut gathered, MOST_DEPTH) {
        Ok(tree) => tree,
        Err(fault) => return Err(fault),
    };
    match reader.next() {
        None => Ok(tree),
        Some(_) => Err(TreeFault::NotJson),
    }
}

/// The tree of bytes that are JSON in UTF-8 (RFC 8259), as `read_tree` gives it, but without the members whose names
/// aren't kept, at any depth. What such a member holds is read too, so that a fault in it is found. `scratch` has room
/// for texts with escapes. Want of memory may come in the place of any answer.
pub fn read_kept<'a, N: Names>(
    alloc: Global,
    bytes: &'a [u8],
    scratch: &'a mut Scratch,
) -> Result<Value<'a>, TreeFault>
    ensures text { IfOk result (λ _. IsUtf8 bytes.now) }
    ensures tree { IfOk result (λ tree. IsKeptOf N.has (read bytes.now) tree) }
    ensures fault { IfErr result (Says (IsUtf8 bytes.now → read bytes.now ≡ None)) }
{
    match simdutf8::compat::from_utf8(bytes) {
        Ok(text) => kept_of_text::<N>(alloc, text, scratch),
        Err(_) => Err(TreeFault::NotJson),
    }
}
