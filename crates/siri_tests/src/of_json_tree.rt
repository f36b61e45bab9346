//! Texts and what stands in them under `a`.
use json::{Scratch, Value};
use json_tree::{Names, TreeFault, find, read_kept, read_tree, whole_number};
use std::alloc::Global;

// The number under `a`, where it is a whole one.
fn read(alloc: Global, bytes: &[u8]) -> Result<Option<u64>, TreeFault> {
    let mut scratch = Scratch::new(alloc);
    match read_tree(alloc, bytes, &mut scratch) {
        Ok(tree) => match find(&tree, "a") {
            Some(Value::Number(text)) => Ok(whole_number(text)),
            _ => Ok(None),
        },
        Err(fault) => Err(fault),
    }
}

#[test]
fn a_text_is_read(rt: HostRuntime) {
    assert_eq!(rt; read(rt.alloc(), b"{\"a\":1,\"b\":2,\"a\":3}"), Ok(Some(3)));
}

// The name that is looked for.
struct NamedA;

impl Names for NamedA {
    ghost use Rattle.std.specs.Prelude.{codes};
    ghost use Rattle.std.specs.Str.{bytes_eq};

    ghost has = { λ name. bytes_eq name (codes "a") };

    fn has(name: &str) -> bool {
        name == "a"
    }
}

// How many members an object has, and how many items an array.
fn size(tree: &Value<'_>) -> usize {
    match tree {
        Value::Object(members) => members.len(),
        Value::Array(items) => items.len(),
        _ => 0,
    }
}

// How many members are kept, and how many in the one under `a`.
fn sizes(alloc: Global, bytes: &[u8]) -> Result<(usize, usize), TreeFault> {
    let mut scratch = Scratch::new(alloc);
    match read_kept::<NamedA>(alloc, bytes, &mut scratch) {
        Ok(tree) => Ok((
            size(&tree),
            find(&tree, "a").map(|found| size(found)).unwrap_or(0),
        )),
        Err(fault) => Err(fault),
    }
}

#[test]
fn members_of_other_names_are_left_out_at_any_depth(rt: HostRuntime) {
    let alloc = rt.alloc();
    let other_names = b"{\"b\":{\"a\":1},\"a\":{\"b\":2,\"c\":[{\"a\":1}]}}";
    assert_eq!(rt; sizes(alloc, other_names), Ok((1, 0)));
    let several = b"{\"a\":0,\"\\u0061\":{\"aa\":0,\"a\":1,\"A\":0,\"a\":2}}";
    assert_eq!(rt; sizes(alloc, several), Ok((2, 2)));
    let items = b"{\"a\":[1,{\"b\":2},[]]}";
    assert_eq!(rt; sizes(alloc, items), Ok((1, 3)));
}
