//! The texts of refusals. The definitions are those of `specs/Texts.antt`.
ghost use Rattle.std.specs.Prelude.{◌≡◌, ◌≤◌, length};
ghost use Rattle.http_talk.specs.Texts as texts;

use crate::refusal::{BodyFault, Refusal};
use gw_base::{ShortText, WireKind};

/// The text of a body's fault. A contract sees its bytes.
pub type BodyFaultText = ShortText;

/// The text of a refusal, with the LF after it. A contract sees its bytes.
pub type RefusalText = ShortText;

/// The name of a kind of break in protobuf's encoding, as messages tell it.
pub fn kind_name(kind: WireKind) -> &'static str
    ensures name { result.now ≡ texts.kind_name kind }
    ensures short { length result.now ≤ 10 }
{
    match kind {
        WireKind::Truncated => "Truncated",
        WireKind::LongVarint => "LongVarint",
        WireKind::BadTag => "BadTag",
        WireKind::BadGroup => "BadGroup",
        WireKind::DeepGroup => "DeepGroup",
    }
}

/// The text of a body's fault: its name, then its arguments, each after a space, numbers in decimal. Takes no memory.
pub fn body_fault_text(fault: &BodyFault) -> BodyFaultText
    ensures value { result ≡ texts.fault_text fault.now }
    ensures short { length result ≤ 160 }
{
    match fault {
        BodyFault::NotJson => ShortText::of("NotJson"),
        BodyFault::NotDelivery(member) => ShortText::of_words("NotDelivery ", member.name()),
        BodyFault::Wire(at, kind) => ShortText::of_number_and_word("Wire ", *at, kind_name(*kind)),
        BodyFault::MissingField(at, field) => ShortText::of_number_and_word(
            "MissingField ",
            *at,
            field.name(),
        ),
        BodyFault::NotText(at) => ShortText::of_number("NotText ", *at),
        BodyFault::EntityTooLong(at) => ShortText::of_number("EntityTooLong ", *at),
        BodyFault::Differential => ShortText::of("Differential"),
        BodyFault::TooManyCalls(count) => ShortText::of_number("TooManyCalls ", *count),
    }
}

// The words of a refusal: its name, or the fault of the body.
fn refusal_words(refusal: &Refusal) -> ShortText
    ensures value { result ≡ texts.refusal_words refusal.now }
    ensures short { length result ≤ 160 }
{
    match refusal {
        Refusal::Head => ShortText::of("Head"),
        Refusal::Cut => ShortText::of("Cut"),
        Refusal::Length => ShortText::of("Length"),
        Refusal::NotFound => ShortText::of("NotFound"),
        Refusal::Method(_) => ShortText::of("Method"),
        Refusal::NeedLength => ShortText::of("NeedLength"),
        Refusal::TooLarge => ShortText::of("TooLarge"),
        Refusal::TooManyFields => ShortText::of("TooManyFields"),
        Refusal::Clock => ShortText::of("Clock"),
        Refusal::Journal => ShortText::of("Journal"),
        Refusal::JournalFull => ShortText::of("JournalFull"),
        Refusal::Memory => ShortText::of("Memory"),
        Refusal::Body(fault) => body_fault_text(fault),
    }
}

/// The body of a refusal's answer: `H`, the status, the refusal's name and its arguments, and LF. Takes no memory.
pub fn refusal_text(refusal: &Refusal) -> RefusalText
    ensures { result ≡ texts.refusal_text refusal.now }
{
    let words = refusal_words(refusal);
    let mut text = ShortText::of_number("H", refusal.status().code as u64);
    text.push(" ");
    text.push(words.as_str());
    text.push("\n");
    text
}
