//! The wire grammar of protobuf: the fields of a message, written and read. What is written meets
//! `specs/Spelling.antt`, and what is read `specs/Grammar.antt` and `specs/Breaks.antt`. It stands on `gw_base`. Its
//! point is `next_field`: the next field, or the break of the bytes, of which there is exactly one or none
//! (`fields_or_a_break_law`); `TopReader` finds both over any pieces.
#![tactic(auto)]

mod fault;
mod field;
mod groups;
mod item;
mod laws;
mod listing;
mod reading;
mod top;
mod varint;
mod writing;

pub use fault::ListFault;
pub use field::{Field, Value, WireFault};
pub use laws::{
    a_break_is_told_law, a_break_stays_law, fields_are_one_law, fields_join_law,
    fields_or_a_break_law, the_break_is_one_law, written_fields_are_spellings_law,
};
pub use listing::list_fields;
pub use reading::{first_number, next_field};
pub use top::{Chain, Part, Step, TopEvent, TopReader};
pub use varint::{Varint, spell_varint, varint_len};
pub use writing::{put_bytes_head, put_field_bytes, put_field_varint, put_varint};
