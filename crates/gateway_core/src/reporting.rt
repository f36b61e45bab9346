//! The report on a delivery or a feed: a line for each item that was set aside, and a line with the counts. The
//! definition is that of `specs/Reports.antt`.
ghost use Rattle.std.specs.Prelude.{◌≡◌, IfOk};
ghost use Rattle.gateway_core.specs.Reports as spec;

use gw_base::Bytes;
use journey_model::{Report, add_report};
use std::alloc::{AllocError, Global};

/// The report on the items of a file: the lines `FILE aside I FAULT` of those that are set aside, and the line
/// `FILE taken T passed P aside N`. Err for want of memory.
pub fn feed_report(alloc: Global, file: &str, report: &Report) -> Result<Bytes, AllocError>
    ensures { IfOk result (λ lines. lines ≡ spec.feed_report file.now report.now) }
{
    let mut lead = Bytes::new(alloc);
    lead.extend(file.as_bytes())?;
    lead.extend(b" ")?;
    let mut lines = Bytes::new(alloc);
    add_report(&mut lines, lead.as_slice(), report)?;
    Ok(lines)
}
