//! Reports on what was read, and the lines that tell them. The definitions are those of `specs/Reports.antt`.
ghost use Rattle.std.specs.Prelude.{◌≡◌, ◌++◌, OnOk};
ghost use Rattle.std.specs.List.{flat_map};
ghost use Rattle.journey_model.specs.Reports as spec;

use crate::fault::{Fault, fault_text};
use gw_base::{Bytes, List};
use itoa::Buffer;
use std::alloc::AllocError;

/// What became of the items of a delivery or a feed.
#[derive(Debug, Drop)]
pub struct Report {
    /// How many were taken.
    pub taken: u64,
    /// How many were passed over.
    pub passed: u64,
    /// Those that were set aside: the number of each item, counted from 0, and why; by rising number.
    pub aside: List<(u64, Fault)>,
}

// Adds the line of an item that is set aside.
fn add_aside(lines: &mut Bytes, lead: &[u8], number: u64, fault: &Fault) -> Result<(), AllocError>
    ensures { OnOk result (lines.new ≡ lines.old ++ spec.aside_line lead.now (number, fault.now)) }
{
    let mut digits = Buffer::new();
    let text = fault_text(fault);
    lines.extend(lead)?;
    lines.extend(b"aside ")?;
    lines.extend(digits.format(number).as_bytes())?;
    lines.extend(b" ")?;
    lines.extend(text.as_str().as_bytes())?;
    lines.extend(b"\n")
}

// Adds the lines of the items that are set aside.
fn add_all_aside(lines: &mut Bytes, lead: &[u8], aside: &[(u64, Fault)]) -> Result<(), AllocError>
    ensures { OnOk result (lines.new ≡ lines.old ++ flat_map (spec.aside_line lead.now) aside.now) }
{
    for (number, fault) in aside {
        add_aside(lines, lead, *number, fault)?;
    }
    Ok(())
}

// Adds the line of counts.
fn add_counts(
    lines: &mut Bytes,
    lead: &[u8],
    taken: u64,
    passed: u64,
    aside: u64,
) -> Result<(), AllocError>
    ensures { OnOk result (lines.new ≡ lines.old ++ spec.count_line lead.now taken passed aside) }
{
    let mut digits = Buffer::new();
    lines.extend(lead)?;
    lines.extend(b"taken ")?;
    lines.extend(digits.format(taken).as_bytes())?;
    lines.extend(b" passed ")?;
    lines.extend(digits.format(passed).as_bytes())?;
    lines.extend(b" aside ")?;
    lines.extend(digits.format(aside).as_bytes())?;
    lines.extend(b"\n")
}

/// Adds the lines of a report, each after the bytes of `lead` and with LF at its end: `aside I FAULT` of each item that
/// is set aside, and `taken T passed P aside N`. Err for want of memory.
pub fn add_report(lines: &mut Bytes, lead: &[u8], report: &Report) -> Result<(), AllocError>
    ensures { OnOk result (lines.new ≡ lines.old ++ spec.report_lines lead.now report.now) }
{
    let aside = report.aside.as_slice();
    add_all_aside(lines, lead, aside)?;
    add_counts(lines, lead, report.taken, report.passed, aside.len() as u64)
}
