//! The status of a refusal. The definition is `status_of` of `specs/Statuses.antt`.
ghost use Rattle.std.specs.Prelude.{◌≡◌, ◌≤◌, length};
ghost use Rattle.http_talk.specs.Statuses as spec;

use crate::refusal::Refusal;

/// A status of an answer (RFC 9110, section 15).
#[derive(Clone, Copy, Debug)]
pub struct Status {
    /// The code, of three digits.
    pub code: u16,
    /// The reason, which stands after the code.
    pub reason: &'static str,
}

impl Refusal {
    /// The status that a refusal is answered with (RFC 9110, section 15).
    pub fn status(&self) -> Status
        ensures code { result.code ≡ (spec.status_of self.now).code }
        ensures reason { result.reason.now ≡ (spec.status_of self.now).reason }
        ensures short { length result.reason.now ≤ 40 }
    {
        let (code, reason) = match self {
            Refusal::Head | Refusal::Cut | Refusal::Length | Refusal::Body(_) => (
                400,
                "Bad Request",
            ),
            Refusal::NotFound => (404, "Not Found"),
            Refusal::Method(_) => (405, "Method Not Allowed"),
            Refusal::NeedLength => (411, "Length Required"),
            Refusal::TooLarge => (413, "Content Too Large"),
            Refusal::TooManyFields => (431, "Request Header Fields Too Large"),
            Refusal::Clock | Refusal::Journal | Refusal::JournalFull => (
                500,
                "Internal Server Error",
            ),
            Refusal::Memory => (503, "Service Unavailable"),
        };
        Status { code, reason }
    }
}
