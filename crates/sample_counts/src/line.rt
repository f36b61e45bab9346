//! The line of counts. The definition is that of `specs/Counts.antt`.
ghost use Rattle.std.specs.Prelude.{◌≡◌, ◌++◌, IfOk, OnOk, decimal};
ghost use Rattle.sample_maker.specs.Pieces.{led};
ghost use Rattle.sample_counts.specs.Counts.{counts_text};

use crate::counts::SampleCounts;
use gw_base::Bytes;
use itoa::Buffer;
use std::alloc::{AllocError, Global};

// Adds a number after what leads to it.
#[tactic(auto, unfolding(sample_maker::specs::Pieces::led))]
fn put(line: &mut Bytes, lead: &[u8], number: u64) -> Result<(), AllocError>
    ensures { OnOk result (line.new ≡ line.old ++ led lead.now (decimal number)) }
{
    let mut digits = Buffer::new();
    line.extend(lead)?;
    line.extend(digits.format(number).as_bytes())
}

/// The line of a sample of so many trips at so many stops, with LF:
/// `trips T stops S skipped K absent N timed M updates U bytes B`. Err for want of memory.
pub fn counts_line(
    alloc: Global,
    trips: u32,
    stops: u32,
    counts: &SampleCounts,
) -> Result<Bytes, AllocError>
    ensures { IfOk result (λ line. line ≡ counts_text trips stops counts.now) }
{
    let mut line = Bytes::new(alloc);
    put(&mut line, b"trips ", trips as u64)?;
    put(&mut line, b" stops ", stops as u64)?;
    put(&mut line, b" skipped ", counts.skipped)?;
    put(&mut line, b" absent ", counts.absent)?;
    put(&mut line, b" timed ", counts.timed)?;
    put(&mut line, b" updates ", counts.updates)?;
    put(&mut line, b" bytes ", counts.bytes)?;
    line.extend(b"\n")?;
    Ok(line)
}
