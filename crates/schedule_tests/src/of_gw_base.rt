//! Each public call once on its happy path, and the objects in memory with uses that fail.
ghost use Rattle.std.specs.Prelude.{None};

mod doors;

use gw_base::*;
use std::alloc::{AllocError, Global};
use std::process::Abort;
use std::test::Fail;

fn numbers(rt: &impl Abort, alloc: Global, values: &[u64]) -> List<u64> {
    let mut list = List::new(alloc);
    for value in values {
        let added = list.push(*value);
        assert!(rt; added.is_ok());
    }
    list
}

#[test]
fn lists_hold_what_they_are_given(rt: HostRuntime) -> Result<(), Fail> {
    let mut list = List::new(rt.alloc());
    assert!(rt; list.is_empty());
    list.push(7u32)?;
    list.push(9)?;
    assert_eq!(rt; list.as_slice(), [7, 9].as_slice());
    assert_eq!(rt; list.len(), 2);
    assert_eq!(rt;
        List::from_vec(list.into_vec()).as_slice(),
        [7, 9].as_slice()
    );
    Ok(())
}

#[test]
fn bytes_and_texts_hold_what_they_are_given(rt: HostRuntime) -> Result<(), Fail> {
    let mut bytes = Bytes::copied(rt.alloc(), b"ab")?;
    bytes.extend(b"cd")?;
    assert_eq!(rt; bytes.as_slice(), b"abcd".as_slice());
    let text = Text::copied(rt.alloc(), "Zürich")?;
    assert_eq!(rt; text.as_str(), "Zürich");
    let owned = Text::from_string(String::from_str(rt.alloc(), "T1")?);
    assert_eq!(rt; owned.as_str(), "T1");
    let apart = Boxed::new(rt.alloc(), owned)?;
    assert_eq!(rt; apart.get().as_str(), "T1");
    Ok(())
}

#[test]
fn a_buffer_takes_its_room_and_no_more(rt: HostRuntime) -> Result<(), Fail> {
    let mut buf = Buf::with_room(rt.alloc(), 3)?;
    buf.put(1);
    buf.put_slice(&[2, 3]);
    assert_eq!(rt; buf.spare(), 0);
    assert_eq!(rt; buf.as_slice(), [1, 2, 3].as_slice());
    assert_eq!(rt; buf.into_bytes().as_slice(), [1, 2, 3].as_slice());
    Ok(())
}

// Files of these names and bytes.
fn files_of(alloc: Global, given: &[(&str, &[u8])]) -> Result<List<(Text, Bytes)>, AllocError> {
    let mut files = List::new(alloc);
    for (name, bytes) in given {
        files.push((Text::copied(alloc, name)?, Bytes::copied(alloc, bytes)?))?;
    }
    Ok(files)
}

// A name, the bytes that its file may have, and what reading it answers.
type Reading = (&'static str, u64, Result<Got, FileFault>);

static READINGS: [Reading; 5] = [
    ("a", 5, Ok(Got::Whole)),
    ("a", 4, Ok(Got::TooLong)),
    ("a", 5, Err(FileFault::Failed)),
    ("c", 5, Ok(Got::Missing)),
    ("b", 0, Ok(Got::Whole)),
];

// Each reading answers so. Over any files, so that what those in memory do isn't in the goals.
fn each_reading<F: Files>(rt: &impl Abort, files: &mut F, into: &mut Bytes, readings: &[Reading]) {
    for (name, limit, wanted) in readings {
        assert_eq!(rt;
            files.read_file(name, *limit, into),
            *wanted,
            "{name} {limit}"
        );
    }
}

#[test]
fn files_in_memory_are_read_by_name(rt: HostRuntime) {
    let alloc = rt.alloc();
    let files = files_of(alloc, &[("a", b"first"), ("a", b"second"), ("b", b"")]);
    let mut files = MemoryFiles::make(files.expect(&rt, "memory"), numbers(&rt, alloc, &[3]));
    let mut into = Bytes::copied(alloc, b">").expect(&rt, "memory");
    each_reading(&rt, &mut files, &mut into, &READINGS);
    assert_eq!(rt; into.as_slice(), b">first".as_slice());
}

// Pieces, and what putting each answers.
static PUTS: [(&[u8], Result<(), Failed>); 5] = [
    (b"abc", Ok(())),
    (b"d", Err(Failed)),
    (b"defg", Err(Failed)),
    (b"", Ok(())),
    (b"def", Ok(())),
];

// Each piece is put so. Over any sink, so that what one in memory does isn't in the goals.
fn each_put<S: Sink>(rt: &impl Abort, sink: &mut S, puts: &[(&[u8], Result<(), Failed>)]) {
    for (piece, wanted) in puts {
        assert_eq!(rt; put_all(sink, piece), *wanted);
    }
}

#[test]
fn a_sink_in_memory_fails_where_it_is_told_to(rt: HostRuntime) {
    let made = MemorySink::make(rt.alloc(), 6, numbers(&rt, rt.alloc(), &[2]));
    let mut sink = made.expect(&rt, "memory");
    each_put(&rt, &mut sink, &PUTS);
    assert_eq!(rt; sink.written(), b"abcdef".as_slice());
}

// A sink that takes at most two bytes a piece.
#[derive(Drop)]
struct Narrow {
    pieces: Vec<u8>,
}

impl Sink for Narrow {
    ghost told = { λ _. None };

    ghost faults = { λ _. 0 };

    fn write(&mut self, piece: &[u8]) -> Result<usize, Failed> {
        let taken = piece.len().min(2);
        match self.pieces.extend_from_slice(&piece[..taken]) {
            Ok(()) => Ok(taken),
            Err(_) => Ok(1),
        }
    }
}

#[test]
fn all_is_put_in_pieces(rt: HostRuntime) {
    let mut sink = Narrow {
        pieces: Vec::new(rt.alloc()),
    };
    assert_eq!(rt; put_all(&mut sink, b"abcde"), Ok(()));
    assert_eq!(rt; sink.pieces.as_slice(), b"abcde".as_slice());
}
