//! The fields of a feed's top level, read over any cuts of its bytes. None of the bytes is stored.
//! `specs/TopReading.antt` says what a reader stands for.
mod advance;
mod chain;
mod event;
mod part;
mod reader;
mod turn;

pub use event::{Step, TopEvent};
pub use part::{Chain, Part};
pub use reader::TopReader;
