//! Commands as tables of pairs of words, and the place at which words stop being the start of a command.
ghost use Rattle.std.specs.Prelude.{◌≡◌, ◌≤◌, ◌∷◌, map, drop, length, IfOk, IfErr, IfSome, IsTrue, MatchOption, slice_get};
ghost use Rattle.std.specs.Option.{option_map, option_copied};
ghost use Rattle.std.proofs.Common.{get_or};
ghost use Rattle.command_words.specs.Pairs.{IsWrongAt};
ghost use Rattle.command_words.specs.Rows.{form_of, have_flags, pair_of, row_of};
ghost use Rattle.command_words.specs.Tables as spec;
ghost use Rattle.command_words.specs.Tables.{ArePairs, IsAccepted, IsSatisfiable, StopsAt, with_name};

use super::BadWord;
use super::forms::{Form, has_form};
use gw_base::Text;

/// A pair of words: one of some flags, and after it a value of a form.
#[derive(Clone, Copy, Debug)]
pub struct Pair {
    /// The flags.
    pub flags: &'static [&'static str],
    /// The form of the value.
    pub form: Form,
}

/// A command: a name, and then pairs of a flag and a value in their order.
#[derive(Clone, Copy, Debug)]
pub struct Command {
    /// Its first word.
    pub name: &'static str,
    /// Its pairs.
    pub pairs: &'static [Pair],
    /// The pairs that may follow them, of which the last ones may be missing.
    pub optional: &'static [Pair],
    /// The pair after all of them that there may be any number of: none where it has no flag.
    pub repeated: Pair,
}

// The word is a flag of the pair.
fn is_flag(pair: &Pair, word: &Text) -> bool
    ensures { result ≡ spec.is_flag (pair_of pair.now) word.now }
{
    pair.flags.iter().any(|flag| *flag == word.as_str())
}

// The command of that name.
fn named<'a>(commands: &'a [Command], name: &Text) -> Option<&'a Command>
    ensures { option_map row_of (option_copied result) ≡ with_name (map row_of commands.now) name.now }
{
    commands
        .iter()
        .find(|command| command.name == name.as_str())
}

// The optional pair of that number: after the last one, the repeated one.
fn optional_at(command: &Command, number: usize) -> &Pair
    ensures { pair_of result.now
        ≡ get_or (row_of command.now).optional number (row_of command.now).repeated }
{
    match command.optional.get(number) {
        Some(pair) => pair,
        None => &command.repeated,
    }
}

// The pair of that number: after the last optional one, the repeated one.
fn pair_at(command: &Command, number: usize) -> &Pair
    ensures { pair_of result.now ≡ spec.pair_at (row_of command.now) number }
{
    match command.pairs.get(number) {
        Some(pair) => pair,
        None => optional_at(command, number - command.pairs.len()),
    }
}

// The value of the pair that the words begin with and the words after it, or the number of the wrong word.
fn split_pair<'a>(
    pair: &Pair,
    before: &Text,
    words: &'a [Text],
) -> Result<(&'a Text, &'a [Text]), usize>
    ensures flag { IfOk result (λ _. IfSome (slice_get words.now 0) (λ flag.
        IsTrue (spec.is_flag (pair_of pair.now) flag))) }
    ensures value { IfOk result (λ parts. IsTrue (form_of pair.now.form before.now parts.0.now)) }
    ensures rest { IfOk result (λ parts. drop 1 words.now ≡ parts.0.now ∷ parts.1.now) }
    ensures wrong { IfErr result (λ at. IsWrongAt (pair_of pair.now) before.now words.now at) }
    ensures within { IfErr result (λ at. at ≤ length words.now) }
{
    let Some((flag, after)) = words.split_first() else {
        return Err(0);
    };
    if !is_flag(pair, flag) {
        return Err(0);
    }
    match after.split_first() {
        Some((value, rest)) if has_form(pair.form, before, value) => Ok((value, rest)),
        _ => Err(1),
    }
}

// The number of the first wrong word after a command's name, if there is one.
fn wrong_word(command: &Command, name: &Text, words: &[Text]) -> Option<usize>
    requires { IsSatisfiable (row_of command.now) }
    ensures { MatchOption result
        (ArePairs (row_of command.now) 0 name.now words.now)
        (λ at. StopsAt (ArePairs (row_of command.now) 0 name.now) words.now at) }
{
    let count = words.len();
    let mut before = name;
    let mut rest = words;
    let mut number = 0;
    while number < command.pairs.len() || !rest.is_empty() {
        match split_pair(pair_at(command, number), before, rest) {
            Ok((value, after)) => {
                before = value;
                rest = after;
            }
            Err(wrong) => return Some(count - rest.len() + wrong),
        }
        number += 1;
    }
    None
}

/// Whether the words are those of one of the commands; else Err with the word at fault. Takes no memory.
pub fn check(commands: &[Command], words: &[Text]) -> Result<(), BadWord>
    requires { IsTrue (have_flags commands.now) }
    ensures accepted { IfOk result (λ _. IsAccepted (map row_of commands.now) words.now) }
    ensures refused { IfErr result (λ bad. StopsAt (IsAccepted (map row_of commands.now)) words.now bad.at) }
{
    let Some((name, after)) = words.split_first() else {
        return Err(BadWord { at: 0 });
    };
    let Some(command) = named(commands, name) else {
        return Err(BadWord { at: 0 });
    };
    match wrong_word(command, name, after) {
        None => Ok(()),
        Some(at) => Err(BadWord { at: at as u64 + 1 }),
    }
}
