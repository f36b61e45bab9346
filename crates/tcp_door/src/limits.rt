//! How long and how much a door of the network takes of a client. No contract speaks of it.

use std::time::Duration;

/// The limits of each connection.
#[derive(Clone, Copy, Debug, Drop)]
pub struct Limits {
    /// How long one read or write may wait, how long a connection has before its first byte, and how long its answer
    /// has at least.
    pub wait: Duration,
    /// How many bytes that came or went give a connection a second more.
    pub pace: u64,
    /// The longest time of a connection, but for the wait that its answer has.
    pub whole: Duration,
    /// How long the input that nobody asked for is read on after the answer, at most.
    pub drain: Duration,
    /// How long after its last byte it is still waited for.
    pub quiet: Duration,
    /// How many bytes of it are read at most.
    pub drain_bytes: u64,
}

impl Limits {
    /// The limits of the program: 30 s for a read or write; for a connection 30 s and a second more for each 64 KiB
    /// that came or went, at most 300 s; and after the answer 200 ms, 20 ms after the last byte, and 32 MiB.
    pub fn usual() -> Limits {
        Limits {
            wait: Duration::from_secs(30),
            pace: 64 << 10,
            whole: Duration::from_secs(300),
            drain: Duration::from_millis(200),
            quiet: Duration::from_millis(20),
            drain_bytes: 32 << 20,
        }
    }
}
