//! What a reader of heads answers.
use crate::refusal::Refusal;
use crate::target::Head;

/// What comes of a piece of a connection's input.
#[derive(Clone, Copy, Debug, PartialEq, Eq)]
pub enum Fed {
    /// The head isn't whole yet.
    More,
    /// The head ends after `used` bytes of the piece. The others begin the body.
    Whole { used: usize, head: Head },
    /// The request is refused.
    Refused(Refusal),
}
