//! What an error of `accept` tells: of one client, of the machine's room, or of the end.

use std::io::{Error, ErrorKind};

/// What an error of `accept` tells.
#[derive(Clone, Copy, Debug, PartialEq, Eq)]
pub enum Refused {
    /// One client went away, or a firewall turned it away; the next may come.
    Client,
    /// The machine has no memory or descriptors at this moment.
    Room,
    /// No connection will come.
    All,
}

// Numbers of Linux (accept(2)) whose kinds tell less than they do.
const NOT_PERMITTED: i32 = 1;

const OUT_OF_MEMORY: i32 = 12;

const TOO_MANY_FILES_IN_SYSTEM: i32 = 23;

const TOO_MANY_FILES: i32 = 24;

const OUT_OF_STREAMS: i32 = 63;

const NOT_ON_THE_NETWORK: i32 = 64;

const PROTOCOL: i32 = 71;

const NO_PROTOCOL_OPTION: i32 = 92;

const PROTOCOL_NOT_SUPPORTED: i32 = 93;

const SOCKET_TYPE_NOT_SUPPORTED: i32 = 94;

const NOT_SUPPORTED: i32 = 95;

const NO_BUFFERS: i32 = 105;

const HOST_DOWN: i32 = 112;

/// What an error of `accept` tells.
pub fn kind_of(fault: &Error) -> Refused {
    match fault.raw_os_error() {
        Some(
            OUT_OF_MEMORY | TOO_MANY_FILES_IN_SYSTEM | TOO_MANY_FILES | OUT_OF_STREAMS | NO_BUFFERS,
        ) => Refused::Room,
        Some(
            NOT_PERMITTED
            | NOT_ON_THE_NETWORK
            | PROTOCOL
            | NO_PROTOCOL_OPTION
            | PROTOCOL_NOT_SUPPORTED
            | SOCKET_TYPE_NOT_SUPPORTED
            | NOT_SUPPORTED
            | HOST_DOWN,
        ) => Refused::Client,
        _ => kind_of_others(fault.kind()),
    }
}

fn kind_of_others(kind: ErrorKind) -> Refused {
    match kind {
        ErrorKind::ConnectionAborted
        | ErrorKind::ConnectionReset
        | ErrorKind::HostUnreachable
        | ErrorKind::NetworkUnreachable
        | ErrorKind::NetworkDown
        | ErrorKind::TimedOut
        | ErrorKind::Interrupted => Refused::Client,
        _ => Refused::All,
    }
}
