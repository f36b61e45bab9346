//! How many fields bytes are, read whole and over any cuts.
ghost use Rattle.std.specs.Prelude.{◌<◌};

use std::alloc::{AllocError, Global};
use wire_fields::{ListFault, Step, TopEvent, TopReader, WireFault, list_fields};

// The most bytes that a reader takes.
const MOST: usize = 16_777_216;

/// How many fields bytes are, or where they break.
pub type Count = Result<usize, WireFault>;

/// How many fields bytes are.
pub fn count(alloc: Global, bytes: &[u8]) -> Result<Count, AllocError> {
    match list_fields(alloc, bytes) {
        Ok(fields) => Ok(Ok(fields.len())),
        Err(ListFault::Wire(fault)) => Ok(Err(fault)),
        Err(ListFault::Memory) => Err(AllocError),
    }
}

// How many fields end with a step, where so many bytes of a payload are left, and how many are left then.
fn fields_ended(step: Step, left: u64) -> (usize, u64) {
    let left = match step.event {
        TopEvent::Begin { len, .. } => len,
        TopEvent::Part => left.saturating_sub(step.used as u64),
        TopEvent::Other => 0,
        TopEvent::More | TopEvent::Broken(_) => return (0, left),
    };
    (usize::from(left == 0), left)
}

/// The same in pieces of so many bytes; none of more bytes than a reader takes.
pub fn count_in_pieces(bytes: &[u8], size: usize) -> Option<Count>
    requires some { 0 < size }
{
    if bytes.len() > MOST {
        return None;
    }
    let mut reader = TopReader::make();
    let mut rest = bytes;
    let mut left = 0;
    let mut fields = 0usize;
    while !rest.is_empty() {
        let (piece, _) = rest.split_at(size.min(rest.len()));
        let step = reader.step(piece);
        if let TopEvent::Broken(fault) = step.event {
            return Some(Err(fault));
        }
        let (ended, now_left) = fields_ended(step, left);
        fields = fields.saturating_add(ended);
        left = now_left;
        let (_, after) = rest.split_at(step.used);
        rest = after;
    }
    match reader.end() {
        None => Some(Ok(fields)),
        Some(fault) => Some(Err(fault)),
    }
}
