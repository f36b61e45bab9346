//! What a situation says before what it affects.
use gw_base::{List, Text};
use journey_model::ValidPeriod;

/// What a situation says of itself.
#[derive(Debug, Drop)]
pub(crate) struct Head {
    /// Its number.
    pub number: Text,
    /// Its version.
    pub version: u64,
    /// Whether it is served.
    pub served: bool,
}

/// The texts of a situation.
#[derive(Debug, Drop)]
pub(crate) struct Words {
    /// A short text.
    pub summary: Option<Text>,
    /// A longer text.
    pub description: Option<Text>,
}

/// What a situation says before what it affects.
#[derive(Debug, Drop)]
pub(crate) struct Content {
    /// What it says of itself.
    pub head: Head,
    /// When it holds.
    pub periods: List<ValidPeriod>,
    /// Its texts.
    pub words: Words,
}
