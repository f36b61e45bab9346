//! The end that a fault of a body is: its file's name, and the fault as a server says it of a posted body. The
//! definitions are those of `specs/Bodies.antt`.
ghost use Rattle.std.specs.Prelude.{◌≡◌, IfOk};
ghost use Rattle.file_commands.specs.Bodies as ends;

use crate::exit::Exit;
use crate::reading::joined;
use feed_messages::FeedFault;
use http_talk::{BodyFault, body_fault_text};
use siri_calls::DeliveryFault;
use std::alloc::{AllocError, Global};

/// The end that a body's fault is.
pub fn fault_end(alloc: Global, name: &str, fault: &BodyFault) -> Result<Exit, AllocError>
    ensures { IfOk result (λ end. end ≡ ends.fault_end name.now fault.now) }
{
    let mut text = joined(alloc, name, " ")?;
    text.push(body_fault_text(fault).as_str())?;
    Ok(Exit::Refused(text))
}

/// The end that a fault of a delivery's body is.
pub fn body_end(alloc: Global, name: &str, fault: DeliveryFault) -> Result<Exit, AllocError>
    ensures { IfOk result (λ end. end ≡ ends.body_end name.now fault) }
{
    match fault {
        DeliveryFault::NotJson => fault_end(alloc, name, &BodyFault::NotJson),
        DeliveryFault::NotDelivery(member) => {
            fault_end(alloc, name, &BodyFault::NotDelivery(member))
        }
        DeliveryFault::Memory => Ok(Exit::Memory),
    }
}

/// The end that a fault of a feed's body is.
pub fn feed_end(alloc: Global, name: &str, fault: FeedFault) -> Result<Exit, AllocError>
    ensures { IfOk result (λ end. end ≡ ends.feed_end name.now fault) }
{
    match fault {
        FeedFault::EntityTooLong(at) => fault_end(alloc, name, &BodyFault::EntityTooLong(at)),
        FeedFault::Wire(fault) => fault_end(alloc, name, &BodyFault::Wire(fault.at, fault.kind)),
        FeedFault::NotText(at) => fault_end(alloc, name, &BodyFault::NotText(at)),
        FeedFault::MissingField(at, field) => {
            fault_end(alloc, name, &BodyFault::MissingField(at, field))
        }
        FeedFault::Memory => Ok(Exit::Memory),
    }
}
