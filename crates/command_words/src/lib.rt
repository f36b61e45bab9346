//! The words of a command line: only exactly the lists of words of a command are accepted, by one table of commands,
//! and read as what the command is to do. It stands on `service_day`, which reads days and moments, and on
//! `sample_maker`, which says what a sample may be. Its point is `job`, with a journal `kept_job`: what the words say,
//! by `Says` of `specs/Words.antt`, or the word at fault.
#![tactic(auto)]

mod words;

pub use words::{
    AtStop, BadWord, Scope, Server, Task, Work, ZoneWord, address, job, journal, kept_job,
};
