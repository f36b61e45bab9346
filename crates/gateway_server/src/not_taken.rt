//! Why a body isn't taken. The definitions are those of `specs/Holding.antt`.
use gateway_core::BodyRefusal;

/// Why a body isn't taken that was posted and came whole.
#[derive(Debug, Drop)]
pub enum NotTaken {
    /// It is refused.
    Refused(BodyRefusal),
    /// It would be taken, and keeping it failed.
    Unkept,
    /// It would be taken, and there is no room to keep it behind what is kept.
    Full,
}
