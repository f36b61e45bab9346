//! A real file as the disk of a journal. It stands on `delivery_journal`, whose trait `Disk` it meets. It counts its
//! faults and tells nothing of its content. Its point is that `FileDisk` meets the clauses of `Disk` over any file.
#![tactic(auto)]

mod file_disk;
mod opening;

pub use file_disk::FileDisk;
