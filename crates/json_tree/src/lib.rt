//! JSON as a tree whose texts stand where they were read (RFC 8259); members can be left out by their names. It stands
//! on no crate of this repository, but on the kit's `json` and `serde_json`. Its point is `read_tree`: the tree's data
//! is what `serde_json` reads from the text, by that crate's definition `read`; and `read_kept`, which gives what is
//! kept of it.
#![tactic(auto)]

mod keeping;
mod looking;
mod numbers;
mod reading;

pub use keeping::{Names, read_kept};
pub use looking::find;
pub use numbers::whole_number;
pub use reading::{TreeFault, read_tree};
