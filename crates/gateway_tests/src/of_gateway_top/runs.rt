//! What the tests of the top call share: words, files and sinks in memory, and the call over any devices.
ghost use Rattle.std.specs.Prelude.{◌≡◌, false};

use gateway_top::gateway;
use gw_base::{
    Bytes, Clock, Door, Files, List, MemoryClock, MemoryFiles, MemorySink, Moment, Sink, Text,
};
use std::alloc::{AllocError, Global};
use test_folder::sample_files;

/// The words of a text, which stand after single spaces.
pub fn words_of(alloc: Global, text: &str) -> Result<Vec<Text>, AllocError> {
    let mut words = Vec::new(alloc);
    for word in text.split(' ') {
        words.push(Text::copied(alloc, word)?)?;
    }
    Ok(words)
}

/// These numbers as a list.
pub fn numbers(alloc: Global, values: &[u64]) -> Result<List<u64>, AllocError> {
    let mut list = List::new(alloc);
    for value in values {
        list.push(*value)?;
    }
    Ok(list)
}

/// The files of the sample folder `g`, and a delivery `f`.
pub fn files_with(alloc: Global, delivery: &[u8]) -> Result<MemoryFiles, AllocError> {
    let mut files = List::new(alloc);
    for (name, bytes) in sample_files() {
        files.push((Text::copied(alloc, name)?, Bytes::copied(alloc, bytes)?))?;
    }
    files.push((Text::copied(alloc, "f")?, Bytes::copied(alloc, delivery)?))?;
    Ok(MemoryFiles::make(files, List::new(alloc)))
}

/// A sink of that room.
pub fn sink(alloc: Global, room: u64) -> Result<MemorySink, AllocError> {
    MemorySink::make(alloc, room, List::new(alloc))
}

/// A clock that gives these moments, of which these calls fail.
pub fn clock_of(alloc: Global, seconds: &[i64], fails: &[u64]) -> Result<MemoryClock, AllocError> {
    let mut moments = List::new(alloc);
    for second in seconds {
        if let Some(moment) = Moment::new(*second) {
            moments.push(moment)?;
        }
    }
    Ok(MemoryClock::make(moments, numbers(alloc, fails)?))
}

/// The top call over any devices. Neither its clauses nor what devices in memory do are in a caller's goals.
pub fn call<F: Files, D: Door, C: Clock, S: Sink, E: Sink>(
    alloc: Global,
    words: &[Text],
    files: &mut F,
    door: &mut D,
    clock: &mut C,
    out: &mut S,
    err: &mut E,
) -> u8
    requires { (D.beside door.old).present ≡ false }
{
    gateway(alloc, words, files, door, clock, out, err)
}
