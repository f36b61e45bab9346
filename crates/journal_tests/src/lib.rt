//! The public calls of delivery_journal and file_disk, as their callers call them: journals on disks in memory that are
//! whole, short, damaged, full, or stopped at any call, and on a real file. Its point is that each call answers a first
//! good case with something, and that each image of a crash opens again.
#![tactic(auto)]

#[cfg(test)]
mod of_delivery_journal;
#[cfg(test)]
mod of_file_disk;
