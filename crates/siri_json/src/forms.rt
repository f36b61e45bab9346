//! The forms of members in JSON after SIRI Lite. The functions meet `specs/Forms.antt`.
ghost use Rattle.std.specs.Prelude.{◌≡◌, [], codes, map};
ghost use Rattle.std.specs.Char.{is_ascii_digit};
ghost use Rattle.std.specs.List.{list_all};
ghost use Rattle.serde_json.specs.Find.{get};
ghost use Rattle.json_tree.specs.Trees.{view};
ghost use Rattle.siri_json.specs.Forms as spec;
ghost use Rattle.siri_json.specs.Shown.{text_form, moment_form, tree_form, trees_form};

use json::Value;
use json_tree::{find, whole_number};
use service_day::{Day, DayForm, Instant, Zone, read_day, read_moment};
use std::slice;

/// What a member is in the form that is asked.
#[derive(Clone, Copy, Debug, PartialEq, Eq)]
pub enum Form<T> {
    /// It is missing: not there, null, empty or an object without a value.
    Missing,
    /// It is of another form.
    Wrong,
    /// It is of the form, and says this.
    Found(T),
}

/// The longest text of a number of 64 bits.
const MOST_DIGITS: usize = 20;

// A text that isn't empty.
fn filled(text: &str) -> Form<&str>
    ensures { text_form result ≡ spec.filled text.now }
{
    if text.is_empty() {
        Form::Missing
    } else {
        Form::Found(text)
    }
}

// The text under `value` in an object.
fn text_under_value<'t>(tree: &'t Value<'_>) -> Form<&'t str>
    ensures { text_form result ≡ spec.text_under_value (get (codes "value") (view tree.now)) }
{
    match find(tree, "value") {
        None | Some(Value::Null) => Form::Missing,
        Some(Value::String(text)) => filled(text),
        Some(Value::Array(items)) => match items.first() {
            None => Form::Missing,
            Some(_) => Form::Wrong,
        },
        Some(Value::Bool(_) | Value::Number(_) | Value::Object(_)) => Form::Wrong,
    }
}

// A string, or an object whose `value` is a string.
fn plain_text<'t>(tree: &'t Value<'_>) -> Form<&'t str>
    ensures { text_form result ≡ spec.plain_text (view tree.now) }
{
    match tree {
        Value::Null => Form::Missing,
        Value::String(text) => filled(text),
        Value::Object(_) => text_under_value(tree),
        _ => Form::Wrong,
    }
}

/// A Text.
pub fn text<'t>(tree: &'t Value<'_>) -> Form<&'t str>
    ensures { text_form result ≡ spec.text (view tree.now) }
{
    match tree {
        Value::Array(items) => match items.first() {
            Some(first) => plain_text(first),
            None => Form::Missing,
        },
        _ => plain_text(tree),
    }
}

// What a Text says as a Flag.
fn flag_named(text: &str) -> Form<bool>
    ensures { result ≡ spec.flag_named text.now }
{
    match text {
        "true" | "1" => Form::Found(true),
        "false" | "0" => Form::Found(false),
        _ => Form::Wrong,
    }
}

/// A Flag: a Boolean, or a Text among `true`, `1`, `false` and `0`.
pub fn flag(tree: &Value<'_>) -> Form<bool>
    ensures { result ≡ spec.flag (view tree.now) }
{
    match tree {
        Value::Bool(flag) => Form::Found(*flag),
        _ => match text(tree) {
            Form::Missing => Form::Missing,
            Form::Wrong => Form::Wrong,
            Form::Found(text) => flag_named(text),
        },
    }
}

// Whether each byte is a decimal digit.
fn are_digits(text: &str) -> bool
    ensures { result ≡ list_all is_ascii_digit text.now }
{
    text.bytes().all(|byte| byte.is_ascii_digit())
}

// What a Text says as a Whole.
fn whole_named(text: &str) -> Form<u64>
    ensures { result ≡ spec.whole_named text.now }
{
    if text.len() > MOST_DIGITS || !are_digits(text) {
        return Form::Wrong;
    }
    match text.parse() {
        Ok(number) => Form::Found(number),
        Err(_) => Form::Wrong,
    }
}

/// A Whole: a number in decimal digits alone, or a Text of 1 to 20 decimal digits, below 2^64.
pub fn whole(tree: &Value<'_>) -> Form<u64>
    ensures { result ≡ spec.whole (view tree.now) }
{
    match tree {
        Value::Number(number) => match whole_number(number) {
            Some(number) => Form::Found(number),
            None => Form::Wrong,
        },
        _ => match text(tree) {
            Form::Missing => Form::Missing,
            Form::Wrong => Form::Wrong,
            Form::Found(text) => whole_named(text),
        },
    }
}

/// The moment that a Text names in a zone.
pub fn moment(tree: &Value<'_>, zone: &Zone) -> Form<Instant>
    ensures { moment_form result ≡ spec.moment zone.now (view tree.now) }
{
    match text(tree) {
        Form::Missing => Form::Missing,
        Form::Wrong => Form::Wrong,
        Form::Found(text) => match read_moment(text, zone) {
            Ok(instant) => Form::Found(instant),
            Err(_) => Form::Wrong,
        },
    }
}

/// The day that a Text names, dashed or compact.
pub fn day(tree: &Value<'_>) -> Form<Day>
    ensures { result ≡ spec.day (view tree.now) }
{
    match text(tree) {
        Form::Missing => Form::Missing,
        Form::Wrong => Form::Wrong,
        Form::Found(text) => match read_day(text, DayForm::Either) {
            Some(day) => Form::Found(day),
            None => Form::Wrong,
        },
    }
}

/// An object.
pub fn object_form<'t, 'a>(tree: &'t Value<'a>) -> Form<&'t Value<'a>>
    ensures { tree_form result ≡ spec.object_form (view tree.now) }
{
    match tree {
        Value::Object(_) => Form::Found(tree),
        Value::Null => Form::Missing,
        Value::String(text) => {
            if text.is_empty() {
                Form::Missing
            } else {
                Form::Wrong
            }
        }
        Value::Array(items) => match items.first() {
            None => Form::Missing,
            Some(_) => Form::Wrong,
        },
        Value::Bool(_) | Value::Number(_) => Form::Wrong,
    }
}

/// No trees.
pub fn none<'t, 'a>() -> &'t [Value<'a>]
    ensures { result.now ≡ [] }
{
    &[]
}

/// The items of a repeated element, which is an array or one item.
pub fn repeated<'t, 'a>(tree: &'t Value<'a>) -> &'t [Value<'a>]
    ensures { map view result.now ≡ spec.repeated (view tree.now) }
{
    match tree {
        Value::Null => &[],
        Value::String(text) if text.is_empty() => &[],
        Value::Array(items) => items.as_slice(),
        _ => slice::from_ref(tree),
    }
}

/// Whether a tree is an object.
pub fn is_object(tree: &Value<'_>) -> bool
    ensures { result ≡ spec.is_object (view tree.now) }
{
    matches!(tree, Value::Object(_))
}

/// Whether each of some trees is an object.
pub fn are_objects(trees: &[Value<'_>]) -> bool
    ensures { result ≡ list_all (λ tree. spec.is_object (view tree)) trees.now }
{
    trees.iter().all(|tree| is_object(tree))
}

/// A repeated element whose items are objects.
pub fn objects<'t, 'a>(tree: &'t Value<'a>) -> Form<&'t [Value<'a>]>
    ensures { trees_form result ≡ spec.objects (view tree.now) }
{
    let trees = repeated(tree);
    if are_objects(trees) {
        Form::Found(trees)
    } else {
        Form::Wrong
    }
}
