//! A journal of the bodies that were accepted, each on the disk before it is acknowledged.
#![tactic(auto)]

mod append_fault;
mod body_reading;
mod call;
mod crash;
mod disk;
mod header;
mod journal;
mod memory_disk;
mod next_fault;
mod open_fault;
mod reading;
mod writing;

pub use append_fault::AppendFault;
pub use call::{Call, Op};
pub use disk::Disk;
pub use journal::Journal;
pub use memory_disk::MemoryDisk;
pub use next_fault::NextFault;
pub use open_fault::OpenFault;
