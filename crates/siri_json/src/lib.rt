//! What deliveries of any kind have in common (SIRI 2.0, in JSON after SIRI Lite): the forms of their members, the way
//! down from the root, and what the answer of reading one says of its items. It stands on `json_tree` for the tree and
//! on `journey_model` for faults. Its point is the calls of `forms`: each says exactly when a member is missing, wrong
//! or found, and what it is then (`specs/Forms.antt`).
#![tactic(auto)]

mod delivery;
pub mod fields;
pub mod forms;
pub mod frame;
mod read_fault;
mod writing;

pub use delivery::{Delivery, DeliveryFault, Item};
pub use read_fault::ReadFault;
pub use writing::{put_comma, put_moment, put_number, put_text};
