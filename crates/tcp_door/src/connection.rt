//! A connection of the network, whose reads and writes all end in time.

use crate::limits::Limits;
use std::io::{self, ErrorKind, Read, Write};
use std::net::{Net, OpenStream, Shutdown};
use std::time::{Clock, Duration, Instant};

/// How many bytes of an answer are gathered before they leave.
pub const ROOM: usize = 65_536;

/// How many bytes of what nobody asked for are read at once.
const DRAINED: usize = 16_384;

/// A connection with the time at which it is over. It is closed where it is dropped.
#[derive(Drop)]
pub struct Connection<'a, R: Net + Clock> {
    rt: &'a R,
    stream: R::Stream,
    limits: Limits,
    begun: Instant,
    // The time at which its answer begins, once it does.
    answers: Option<Instant>,
    // How many bytes came and went.
    moved: u64,
    // The waits that are set, in whole seconds; zero where none is.
    read_wait: Duration,
    write_wait: Duration,
}

fn too_late() -> io::Error {
    io::Error::from(ErrorKind::TimedOut)
}

// A time in whole seconds that is no shorter: a wait that is set so needn't be set anew for each piece.
fn whole_seconds(time: Duration) -> Duration {
    Duration::from_secs(
        time.as_secs()
            .saturating_add(if time.subsec_nanos() == 0 { 0 } else { 1 }),
    )
}

impl<'a, R: Net + Clock> Connection<'a, R> {
    /// The connection of a stream, which begins at that time. What is written to the stream leaves at once.
    pub fn new(
        rt: &'a R,
        stream: R::Stream,
        limits: Limits,
        begun: Instant,
    ) -> io::Result<Connection<'a, R>> {
        stream.set_nodelay(true)?;
        Ok(Connection {
            rt,
            stream,
            limits,
            begun,
            answers: None,
            moved: 0,
            read_wait: Duration::ZERO,
            write_wait: Duration::ZERO,
        })
    }

    /// Writes a piece after what is held, and holds what of it fits in the room. Where it doesn't fit, all leaves.
    pub fn put(&mut self, held: &mut Vec<u8>, piece: &[u8]) -> io::Result<()> {
        self.begin_answer()?;
        self.patience()?;
        if held.is_empty() && ROOM <= piece.len() {
            return self.write_all(piece);
        }
        let (front, rest) = piece.split_at(piece.len().min(ROOM.saturating_sub(held.len())));
        held.extend_from_slice(front)?;
        if rest.is_empty() {
            return Ok(());
        }
        self.write_all(held.as_slice())?;
        held.clear();
        self.write_all(rest)
    }

    /// Sends what is held, and ends the output. What the client still sends is read and dropped: where not all that it
    /// asked was read, or something has come. Answers the stream where the client may still be at its answer. An error
    /// is one of the output alone.
    pub fn finish(mut self, held: &[u8], is_unread: bool) -> io::Result<Option<R::Stream>> {
        self.write_all(held)?;
        Ok(match self.is_left_open(is_unread) {
            Ok(true) => Some(self.into_stream()),
            _ => None,
        })
    }

    fn into_stream(self) -> R::Stream {
        let Connection { stream, .. } = self;
        stream
    }

    // The answer has a wait of its own, from its first piece on.
    fn begin_answer(&mut self) -> io::Result<()> {
        if self.answers.is_none() {
            self.answers = Some(Instant::now(self.rt)?);
        }
        Ok(())
    }

    // Ends the output, so that a client sees the end of its answer, and reads and drops what it still sends, so that
    // no reset takes the answer away from it. Whether the client hasn't ended its own output.
    fn is_left_open(&mut self, is_unread: bool) -> io::Result<bool> {
        self.stream.shutdown(Shutdown::Write)?;
        if !is_unread {
            match self.has_come()? {
                Some(0) => return Ok(false),
                Some(_) => {}
                None => return Ok(true),
            }
        }
        self.drain()
    }

    // How many bytes of what had come were read without waiting: 0 at the client's end, and None where nothing had.
    fn has_come(&mut self) -> io::Result<Option<usize>> {
        let mut buf = [0; DRAINED];
        self.stream.set_nonblocking(true)?;
        let read = self.stream.read(&mut buf);
        self.stream.set_nonblocking(false)?;
        match read {
            Ok(count) => Ok(Some(count)),
            Err(fault) if fault.kind() == ErrorKind::WouldBlock => Ok(None),
            Err(fault) => Err(fault),
        }
    }

    // Reads and drops what still comes, for a short time. Whether the client hasn't ended its output.
    fn drain(&mut self) -> io::Result<bool> {
        let mut buf = [0; DRAINED];
        let start = Instant::now(self.rt)?;
        let mut count = 0u64;
        self.stream.set_read_timeout(Some(self.limits.quiet))?;
        for _ in 0..u64::MAX {
            let spent = Instant::now(self.rt)?.duration_since(start);
            if self.limits.drain <= spent || self.limits.drain_bytes <= count {
                return Ok(true);
            }
            match self.stream.read(&mut buf) {
                Ok(0) => return Ok(false),
                Ok(more) => count = count.saturating_add(more as u64),
                Err(fault) if is_wait(fault.kind()) => return Ok(true),
                Err(fault) => return Err(fault),
            }
        }
        Ok(true)
    }

    // How long the connection has: longer with each byte that came or went.
    fn span(&self) -> Duration {
        let Limits {
            wait,
            pace,
            whole,
            ..
        } = self.limits;
        let more = match self.moved.checked_div(pace) {
            Some(seconds) => Duration::from_secs(seconds),
            None => Duration::ZERO,
        };
        wait.saturating_add(more).min(whole)
    }

    // How long it still has; the answer has a wait of its own.
    fn left(&self, now: Instant) -> Duration {
        let left = self.span().saturating_sub(now.duration_since(self.begun));
        match self.answers {
            Some(start) => left.max(self.limits.wait.saturating_sub(now.duration_since(start))),
            None => left,
        }
    }

    // How long the next read or write may wait, in whole seconds; an error where the connection is over.
    fn patience(&self) -> io::Result<Duration> {
        let left = self.left(Instant::now(self.rt)?);
        if left.is_zero() {
            Err(too_late())
        } else {
            Ok(whole_seconds(left.min(self.limits.wait)))
        }
    }
}

// Whether an error tells that nothing came in time.
fn is_wait(kind: ErrorKind) -> bool {
    matches!(
        kind,
        ErrorKind::WouldBlock | ErrorKind::TimedOut | ErrorKind::Interrupted
    )
}

impl<'a, R: Net + Clock> Read for Connection<'a, R> {
    fn read(&mut self, buf: &mut [u8]) -> io::Result<usize> {
        for _ in 0..u64::MAX {
            let wait = self.patience()?;
            if wait != self.read_wait {
                self.stream.set_read_timeout(Some(wait))?;
                self.read_wait = wait;
            }
            match self.stream.read(buf) {
                Ok(count) => {
                    self.moved = self.moved.saturating_add(count as u64);
                    return Ok(count);
                }
                Err(fault) if fault.kind() == ErrorKind::Interrupted => {}
                Err(fault) => return Err(fault),
            }
        }
        Err(io::Error::from(ErrorKind::Interrupted))
    }
}

impl<'a, R: Net + Clock> Write for Connection<'a, R> {
    fn write(&mut self, buf: &[u8]) -> io::Result<usize> {
        let wait = self.patience()?;
        if wait != self.write_wait {
            self.stream.set_write_timeout(Some(wait))?;
            self.write_wait = wait;
        }
        let count = self.stream.write(buf)?;
        self.moved = self.moved.saturating_add(count as u64);
        Ok(count)
    }

    fn flush(&mut self) -> io::Result<()> {
        Ok(())
    }
}
