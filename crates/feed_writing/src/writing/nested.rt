//! Messages in messages: how long they are, and how they are written after what stands in a buffer.
ghost use Rattle.std.specs.Prelude.{◌<◌, ◌≤◌, ℕ, List, length, IfSome};
ghost use Rattle.std.specs.List.{flat_map, AllByRecursion};
ghost use Rattle.wire_fields.specs.Spelling.{bytes_field};
ghost use Rattle.gw_base.specs.declared.messages.Translation.{Translation};
ghost use Rattle.feed_writing.specs.Written.{if_there, translated_field};
ghost use Rattle.feed_writing.specs.Sound.{IsSoundTranslation};
ghost use Rattle.feed_writing.specs.Sizes.{Counts, Appends};

use crate::writing::fields::{bytes_size, plus};
use gw_base::{Boxed, Buf, List, Translation};
use wire_fields::put_bytes_head;

// A message that knows its length and writes itself.
pub trait WrittenMessage {
    ghost use Rattle.std.specs.Prelude.{ℕ, ◌≤◌, List, length};
    ghost use Rattle.feed_writing.specs.Sizes.{Counts, Appends};

    // How it is written: its bytes by `specs/Written.antt`.
    ghost written: { Self → List ℕ };

    // What holds of it by its types, by `specs/Sound.antt`.
    ghost sound: { Self → Type 0 };

    // How many bytes it has, or the greatest number where it has more.
    fn size(&self) -> u64
        ensures { Counts result (written self.now) };

    // Writes it at the end.
    fn put(&self, buf: &mut Buf)
        requires { length (written self.now) ≤ buf.old.spare }
        ensures appends { Appends buf.old buf.new (written self.now) }
        ensures sound { sound self.now };
}

impl<M: WrittenMessage> WrittenMessage for Boxed<M> {
    ghost written = { M.written };

    ghost sound = { M.sound };

    fn size(&self) -> u64 {
        self.get().size()
    }

    fn put(&self, buf: &mut Buf) {
        self.get().put(buf);
    }
}

// How long a field of a message is.
#[inline(always)]
pub fn message_size<M: WrittenMessage>(number: u32, message: &M) -> u64
    ensures { Counts result (bytes_field number (M.written message.now)) }
{
    bytes_size(number, message.size())
}

// How long a message is, if there is one.
#[inline(always)]
pub fn size_if_there<M: WrittenMessage>(message: &Option<M>) -> u64
    ensures { Counts result (if_there M.written message.now) }
{
    match message {
        Some(message) => message.size(),
        None => 0,
    }
}

// How long a field of a message is whose size is known.
#[inline(always)]
pub fn optional_sized_size<M: WrittenMessage>(number: u32, size: u64, message: &Option<M>) -> u64
    requires { Counts size (if_there M.written message.now) }
    ensures { Counts result (if_there (λ m. bytes_field number (M.written m)) message.now) }
{
    match message {
        Some(_) => bytes_size(number, size),
        None => 0,
    }
}

#[inline(always)]
pub fn optional_message_size<M: WrittenMessage>(number: u32, message: &Option<M>) -> u64
    ensures { Counts result (if_there (λ m. bytes_field number (M.written m)) message.now) }
{
    match message {
        Some(message) => message_size(number, message),
        None => 0,
    }
}

// How long the fields of messages are, one after the other.
pub fn messages_size<M: WrittenMessage>(number: u32, messages: &List<M>) -> u64
    ensures { Counts result (flat_map (λ m. bytes_field number (M.written m)) messages.now) }
{
    let mut size = 0;
    for message in messages.as_slice() {
        size = plus(size, message_size(number, message));
    }
    size
}

// Writes a field of a message whose size is known.
#[inline(always)]
pub fn put_sized<M: WrittenMessage>(buf: &mut Buf, number: u32, size: u64, message: &M)
    requires first { 1 ≤ number }
    requires last { number ≤ 536870911 }
    requires size { Counts size (M.written message.now) }
    requires room { length (bytes_field number (M.written message.now)) ≤ buf.old.spare }
    ensures appends { Appends buf.old buf.new (bytes_field number (M.written message.now)) }
    ensures sound { M.sound message.now }
{
    // no buffer has more room than the greatest length
    let _most = buf.spare();
    put_bytes_head(buf, number, size);
    message.put(buf);
}

// Writes a field of a message.
#[inline(always)]
pub fn put_message<M: WrittenMessage>(buf: &mut Buf, number: u32, message: &M)
    requires first { 1 ≤ number }
    requires last { number ≤ 536870911 }
    requires room { length (bytes_field number (M.written message.now)) ≤ buf.old.spare }
    ensures appends { Appends buf.old buf.new (bytes_field number (M.written message.now)) }
    ensures sound { M.sound message.now }
{
    put_sized(buf, number, message.size(), message);
}

#[inline(always)]
pub fn put_optional_message<M: WrittenMessage>(buf: &mut Buf, number: u32, message: &Option<M>)
    requires first { 1 ≤ number }
    requires last { number ≤ 536870911 }
    requires room { length (if_there (λ m. bytes_field number (M.written m)) message.now) ≤ buf.old.spare }
    ensures appends { Appends buf.old buf.new (if_there (λ m. bytes_field number (M.written m)) message.now) }
    ensures sound { IfSome message.now M.sound }
{
    if let Some(message) = message {
        put_message(buf, number, message);
    }
}

// The same of a message whose size is known.
#[inline(always)]
pub fn put_optional_sized<M: WrittenMessage>(
    buf: &mut Buf,
    number: u32,
    size: u64,
    message: &Option<M>,
)
    requires first { 1 ≤ number }
    requires last { number ≤ 536870911 }
    requires size { Counts size (if_there M.written message.now) }
    requires room { length (if_there (λ m. bytes_field number (M.written m)) message.now) ≤ buf.old.spare }
    ensures appends { Appends buf.old buf.new (if_there (λ m. bytes_field number (M.written m)) message.now) }
    ensures sound { IfSome message.now M.sound }
{
    if let Some(message) = message {
        put_sized(buf, number, size, message);
    }
}

// Writes the fields of messages, one after the other.
pub fn put_messages<M: WrittenMessage>(buf: &mut Buf, number: u32, messages: &List<M>)
    requires first { 1 ≤ number }
    requires last { number ≤ 536870911 }
    requires room { length (flat_map (λ m. bytes_field number (M.written m)) messages.now) ≤ buf.old.spare }
    ensures appends { Appends buf.old buf.new (flat_map (λ m. bytes_field number (M.written m)) messages.now) }
    ensures sound { AllByRecursion M.sound messages.now }
{
    for message in messages.as_slice() {
        put_message(buf, number, message);
    }
}

// How long a text in several languages is, which isn't written where there is none.
pub fn translations_size(number: u32, translations: &List<Translation>) -> u64
    ensures { Counts result (translated_field number translations.now) }
{
    if translations.is_empty() {
        return 0;
    }
    message_size(number, translations)
}

// Writes a text in several languages.
pub fn put_translations(buf: &mut Buf, number: u32, translations: &List<Translation>)
    requires first { 1 ≤ number }
    requires last { number ≤ 536870911 }
    requires room { length (translated_field number translations.now) ≤ buf.old.spare }
    ensures appends { Appends buf.old buf.new (translated_field number translations.now) }
    ensures sound { AllByRecursion IsSoundTranslation translations.now }
{
    if !translations.is_empty() {
        put_message(buf, number, translations);
    }
}
