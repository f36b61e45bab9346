//! Request heads and answers of HTTP/1.1 (RFC 9112): what a connection's bytes ask for, which is `IsRequest` of
//! `specs/Request.antt`, and the bytes of an answer, which are those of `specs/Answers.antt`. It stands on `gw_base`,
//! and on `httparse` for header lines. Its point is `HeadReader::feed`: over any pieces of an input it gives the head
//! or the refusal that the whole input has, and an input has one alone.
#![tactic(auto)]

mod answer;
mod ends;
mod fed;
mod head;
mod laws;
mod length;
mod place;
mod reader;
mod refusal;
mod status;
mod target;
mod texts;
mod whole;

pub use answer::{Answer, HeadBytes, answer_head};
pub use ends::HEAD_LIMIT;
pub use fed::Fed;
pub use laws::an_input_asks_for_one_thing_law;
pub use reader::HeadReader;
pub use refusal::{Allow, BodyFault, Refusal};
pub use status::Status;
pub use target::{Action, Head, Resource, Target};
pub use texts::{BodyFaultText, RefusalText, body_fault_text, kind_name, refusal_text};
pub use whole::{WholeRequest, request_of};
