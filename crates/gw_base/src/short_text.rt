//! Short texts that are put together from words and numbers in a fixed room, without memory.
ghost use Rattle.std.specs.Prelude.{◌≡◌, ◌++◌, ◌+◌, ◌≤◌, [], codes, decimal, length};
ghost use Rattle.std.specs.Fmt.{signed_decimal};

use arrayvec::ArrayString;
use itoa::Buffer;
use std::marker::Model;

// Room for the longest text that is put together so, the head of an answer.
const ROOM: usize = 256;

/// A text of at most 256 bytes, as the name of a fault with its arguments. A contract sees its bytes.
#[derive(Debug, Drop)]
pub struct ShortText {
    text: ArrayString<ROOM>,
}

impl Model for ShortText {
    ghost use Rattle.std.specs.Prelude.{List, ℕ};

    ghost Value = { List ℕ };

    ghost view = { λ t. t.text.bytes };
}

impl ShortText {
    /// The empty text.
    pub fn new() -> ShortText
        ensures { result ≡ [] }
    {
        ShortText {
            text: ArrayString::new(),
        }
    }

    /// A text of a word.
    pub fn of(word: &str) -> ShortText
        requires { length word.now ≤ 64 }
        ensures value { result ≡ word.now }
    {
        let mut text = ArrayString::new();
        text.push_str(word);
        ShortText { text }
    }

    /// A text of two words, one after the other.
    pub fn of_words(first: &str, second: &str) -> ShortText
        requires first { length first.now ≤ 64 }
        requires second { length second.now ≤ 64 }
        ensures value { result ≡ first.now ++ second.now }
    {
        let mut text = ArrayString::new();
        text.push_str(first);
        text.push_str(second);
        ShortText { text }
    }

    /// A text of a word and a number after it, in decimal.
    pub fn of_number(word: &str, number: u64) -> ShortText
        requires { length word.now ≤ 64 }
        ensures value { result ≡ word.now ++ decimal number }
        ensures short { length result ≤ length word.now + 40 }
    {
        let mut digits = Buffer::new();
        let mut text = ArrayString::new();
        text.push_str(word);
        text.push_str(digits.format(number));
        ShortText { text }
    }

    /// A text of a word and a number after it, in decimal, which may be negative.
    pub fn of_signed(word: &str, number: i32) -> ShortText
        requires { length word.now ≤ 64 }
        ensures value { result ≡ word.now ++ signed_decimal number }
        ensures short { length result ≤ length word.now + 40 }
    {
        let mut digits = Buffer::new();
        let mut text = ArrayString::new();
        text.push_str(word);
        text.push_str(digits.format(number));
        ShortText { text }
    }

    /// A text of a word, a number in decimal and a further word, which stands after a space.
    pub fn of_number_and_word(word: &str, number: u64, further: &str) -> ShortText
        requires word { length word.now ≤ 64 }
        requires further { length further.now ≤ 64 }
        ensures value { result ≡ word.now ++ decimal number ++ codes " " ++ further.now }
        ensures short { length result ≤ length word.now + 41 + length further.now }
    {
        let mut digits = Buffer::new();
        let mut text = ArrayString::new();
        text.push_str(word);
        text.push_str(digits.format(number));
        text.push_str(" ");
        text.push_str(further);
        ShortText { text }
    }

    /// Appends a word.
    pub fn push(&mut self, word: &str)
        requires { length self.old + length word.now ≤ 256 }
        ensures value { self.new ≡ self.old ++ word.now }
        ensures len { length self.new ≡ length self.old + length word.now }
    {
        self.text.push_str(word);
    }

    /// The text.
    pub fn as_str(&self) -> &str
        ensures { result.now ≡ self.now }
    {
        self.text.as_str()
    }

    /// The bytes of the text.
    pub fn as_slice(&self) -> &[u8]
        ensures { result.now ≡ self.now }
    {
        self.text.as_str().as_bytes()
    }
}
