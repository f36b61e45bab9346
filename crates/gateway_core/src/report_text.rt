//! The report on a body that was taken, as JSON: `{"aside":[{"fault":"TEXT","index":I}],"passed":P,"taken":T}`. A
//! fault's text is of names and decimal numbers, so no byte of it needs an escape (RFC 8259, section 7). The functions
//! meet `report_json` of `specs/Taking.antt`.
ghost use Rattle.std.specs.Prelude.{◌≡◌, ◌++◌, codes, decimal, map, IfOk, OnOk};
ghost use Rattle.std.specs.List.{flat_map};
ghost use Rattle.gateway_core.specs.Taking as spec;

use gw_base::Bytes;
use itoa::Buffer;
use journey_model::{Fault, Report, fault_text};
use std::alloc::{AllocError, Global};

// Adds an item that is set aside.
fn add_aside(text: &mut Bytes, number: u64, fault: &Fault) -> Result<(), AllocError>
    ensures { OnOk result (text.new ≡ text.old ++ spec.aside_json (number, fault.now)) }
{
    let mut digits = Buffer::new();
    let said = fault_text(fault);
    text.extend(b"{\"fault\":\"")?;
    text.extend(said.as_str().as_bytes())?;
    text.extend(b"\",\"index\":")?;
    text.extend(digits.format(number).as_bytes())?;
    text.extend(b"}")
}

// Adds items, each after a comma.
fn add_others(text: &mut Bytes, others: &[(u64, Fault)]) -> Result<(), AllocError>
    ensures { OnOk result (text.new ≡ text.old
        ++ flat_map (λ one. codes "," ++ spec.aside_json one) others.now) }
{
    for (number, fault) in others {
        text.extend(b",")?;
        add_aside(text, *number, fault)?;
    }
    Ok(())
}

// Adds items, joined by commas.
fn add_joined(text: &mut Bytes, aside: &[(u64, Fault)]) -> Result<(), AllocError>
    ensures { OnOk result (text.new ≡ text.old ++ spec.joined (map spec.aside_json aside.now)) }
{
    let Some((first, others)) = aside.split_first() else {
        return Ok(());
    };
    add_aside(text, first.0, &first.1)?;
    add_others(text, others)
}

// Adds what follows the items.
fn add_counts(text: &mut Bytes, passed: u64, taken: u64) -> Result<(), AllocError>
    ensures { OnOk result (text.new ≡ text.old
        ++ codes "],\"passed\":" ++ decimal passed ++ codes ",\"taken\":" ++ decimal taken ++ codes "}") }
{
    let mut digits = Buffer::new();
    text.extend(b"],\"passed\":")?;
    text.extend(digits.format(passed).as_bytes())?;
    text.extend(b",\"taken\":")?;
    text.extend(digits.format(taken).as_bytes())?;
    text.extend(b"}")
}

/// The report as JSON. Err for want of memory.
pub(crate) fn report_json(alloc: Global, report: &Report) -> Result<Bytes, AllocError>
    ensures text { IfOk result (λ text. text ≡ spec.report_json report.now) }
{
    let mut text = Bytes::new(alloc);
    text.extend(b"{\"aside\":[")?;
    add_joined(&mut text, report.aside.as_slice())?;
    add_counts(&mut text, report.passed, report.taken)?;
    Ok(text)
}
