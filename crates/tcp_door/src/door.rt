//! The door of the network. It tells nothing of its connections but whether one is present.
ghost use Rattle.std.specs.Prelude.{◌≡◌, ◌<◌, ◌≤◌, true, false, None, Ok, [], length, take, IsSome, IsOk, IsErr, IfOk, OnOk, OnErr};
ghost use Rattle.gw_base.specs.Count.{Counts, Rose};
ghost use Rattle.gw_base.specs.Told.{with_bytes};
ghost use Rattle.gw_base.specs.Connections.{Arrives, NoneComes, Takes, Logs};
ghost use Rattle.tcp_door.specs.DoorOfTcp.{told_of, beside_of, new_door};

use crate::accepting::{Refused, kind_of};
use crate::connection::{Connection, ROOM};
use crate::limits::Limits;
use gw_base::{Door, Failed, Mark, Moment, Sink};
use std::alloc::Global;
use std::io::{self, ErrorKind, Read};
use std::marker::Model;
use std::net::{Net, OpenListener, TcpListener};
use std::time::{Clock, Duration, Instant};

/// How many connections stay open for their clients once they are answered.
const LEAVING: usize = 16;

/// How often, and how many milliseconds each time, a door waits for room or descriptors of the machine before `next`
/// fails.
const WAITS: u32 = 100;

const PAUSE: u64 = 100;

/// A door of connections over TCP, one present at a time. What is written is gathered and leaves in large
/// pieces, at the latest in `finish`, and bytes that can't leave are a fault then. A connection whose client hasn't
/// ended stays open without being read or written, until 16 others were answered: a close would drop what the client
/// hasn't got yet as soon as it sends one byte more. A contract sees the port, whether a connection is present, what is
/// gathered, and the count of faults.
#[derive(Drop)]
pub struct TcpDoor<'a, R: Net + Clock> {
    rt: &'a R,
    address: &'a str,
    limits: Limits,
    bound: Option<(R::Listener, u16)>,
    present: bool,
    connection: Option<Connection<'a, R>>,
    leaving: Vec<R::Stream>,
    held: Vec<u8>,
    faults: u64,
}

impl<'a, R: Net + Clock> Model for TcpDoor<'a, R> {
    ghost use Rattle.std.specs.Prelude.{option_map};
    ghost use Rattle.tcp_door.specs.DoorOfTcp.{DoorOfTcp};

    ghost Value = { DoorOfTcp };

    ghost view = { λ d. record {
      port = option_map (λ b. b.1) d.bound;
      present = d.present;
      held = d.held.items;
      faults = d.faults;
    } };
}

impl<'a, R: Net + Clock> TcpDoor<'a, R> {
    /// A door at that address, an IP address or host and a port as `127.0.0.1:8080`, which isn't bound yet.
    /// Takes no memory.
    pub fn new(rt: &'a R, alloc: Global, address: &'a str, limits: Limits) -> TcpDoor<'a, R>
        ensures { result ≡ new_door }
    {
        TcpDoor {
            rt,
            address,
            limits,
            bound: None,
            present: false,
            connection: None,
            leaving: Vec::new(alloc),
            held: Vec::new(alloc),
            faults: 0,
        }
    }

    /// Binds the door to its address, and takes the room for answers. A door that is bound stays so.
    pub fn bind(&mut self) -> Result<(), Failed>
        ensures bound { OnOk result (IsSome self.new.port) }
        ensures failed { OnErr result (self.new.port ≡ None) }
        ensures again { IsSome self.old.port → IsOk result × (self.new ≡ self.old) }
        ensures present { self.new.present ≡ self.old.present }
        ensures counts { Counts (IsErr result) self.old.faults self.new.faults }
    {
        if self.bound.is_some() {
            return Ok(());
        }
        match self.listen() {
            Ok(()) => Ok(()),
            Err(_) => Err(self.fault()),
        }
    }

    /// The port to which it is bound; None exactly before a successful `bind`.
    pub fn port(&self) -> Option<u16>
        ensures same { result ≡ self.now.port }
    {
        match &self.bound {
            Some((_, port)) => Some(*port),
            None => None,
        }
    }

    // Counts a fault.
    fn fault(&mut self) -> Failed
        ensures rose { Rose self.old.faults self.new.faults }
        ensures never_falls { self.old.faults ≤ self.new.faults }
        ensures port { self.new.port ≡ self.old.port }
        ensures present { self.new.present ≡ self.old.present }
    {
        self.faults = self.faults.saturating_add(1);
        Failed
    }

    // Takes the room and binds.
    fn listen(&mut self) -> io::Result<()>
        ensures bound { OnOk result (IsSome self.new.port) }
        ensures failed { OnErr result (self.new.port ≡ self.old.port) }
        ensures present { self.new.present ≡ self.old.present }
        ensures faults { self.new.faults ≡ self.old.faults }
    {
        self.held.reserve(ROOM)?;
        self.leaving.reserve(LEAVING)?;
        let listener = TcpListener::bind(self.rt, self.address)?;
        let port = listener.local_addr()?.port();
        self.bound = Some((listener, port));
        Ok(())
    }

    // The next connection. A client that went away before is passed over; for room or descriptors it waits a while.
    fn accept(&mut self) -> io::Result<Connection<'a, R>>
        ensures { self.new ≡ self.old }
    {
        let mut waits = 0;
        for _ in 0..u64::MAX {
            let fault = match self.one() {
                Ok(Some(connection)) => return Ok(connection),
                Ok(None) => continue,
                Err(fault) => fault,
            };
            match kind_of(&fault) {
                Refused::Client => {}
                Refused::Room if waits < WAITS => {
                    waits += 1;
                    self.leaving.clear();
                    self.rt.sleep(Duration::from_millis(PAUSE));
                }
                _ => return Err(fault),
            }
        }
        Err(no_connection())
    }

    // The next stream as a connection, or None where its client is gone already.
    fn one(&self) -> io::Result<Option<Connection<'a, R>>> {
        let Some((listener, _)) = &self.bound else {
            return Err(no_connection());
        };
        let (stream, _) = listener.accept()?;
        let begun = Instant::now(self.rt)?;
        Ok(Connection::new(self.rt, stream, self.limits, begun).ok())
    }

    // Leaves a stream open for its client; of more than 16 the first one is closed.
    fn leave_open(&mut self, stream: R::Stream)
        ensures { self.new ≡ self.old }
    {
        if LEAVING <= self.leaving.len() {
            let _first = self.leaving.remove(0);
        }
        let _kept = self.leaving.push(stream);
    }
}

fn no_connection() -> io::Error {
    io::Error::from(ErrorKind::NotConnected)
}

impl<'a, R: Net + Clock> Sink for TcpDoor<'a, R> {
    ghost use Rattle.tcp_door.specs.DoorOfTcp.{told_of, beside_of};

    ghost told = { told_of };

    ghost faults = { λ d. d.faults };

    ghost beside = { beside_of };

    /// Takes the whole piece. What can't leave is a fault; the connection is then closed, and each later call
    /// on it is a fault too.
    fn write(&mut self, piece: &[u8]) -> Result<usize, Failed>
        requires { 0 < length piece.now }
        ensures some { IfOk result (λ n. (0 < n) × (n ≤ length piece.now)) }
        ensures appended { IfOk result (λ n. told_of self.new ≡ with_bytes (told_of self.old) (take n piece.now)) }
        ensures failed { OnErr result (told_of self.new ≡ told_of self.old) }
        ensures counts { Counts (IsErr result) self.old.faults self.new.faults }
        ensures others { beside_of self.new ≡ beside_of self.old }
        ensures port { self.new.port ≡ self.old.port }
    {
        let put = match &mut self.connection {
            Some(connection) => connection.put(&mut self.held, piece),
            None => Err(no_connection()),
        };
        if put.is_ok() {
            return Ok(piece.len());
        }
        self.connection = None;
        Err(self.fault())
    }
}

impl<'a, R: Net + Clock> Door for TcpDoor<'a, R> {
    fn next(&mut self) -> Result<bool, Failed>
        requires { self.old.present ≡ false }
        ensures came { result ≡ Ok true → Arrives (beside_of self.old) (beside_of self.new) }
        ensures none { result ≡ Ok false → NoneComes (beside_of self.old) (beside_of self.new) }
        ensures failed { OnErr result (beside_of self.new ≡ beside_of self.old) }
        ensures counts { Counts (IsErr result) self.old.faults self.new.faults }
        // Nothing is gathered for it yet.
        ensures empty { OnOk result (self.new.held ≡ []) }
        // It never tells that none is to come.
        ensures always { IfOk result (λ comes. comes ≡ true) }
        ensures bound { OnOk result (IsSome self.new.port) }
        ensures port { IsSome self.old.port → self.new.port ≡ self.old.port }
    {
        self.bind()?;
        match self.accept() {
            Ok(connection) => {
                self.held.clear();
                self.connection = Some(connection);
                self.present = true;
                Ok(true)
            }
            Err(_) => Err(self.fault()),
        }
    }

    fn read(&mut self, buf: &mut [u8]) -> Result<usize, Failed>
        requires present { self.old.present ≡ true }
        requires room { 0 < length buf.old }
        ensures count { IfOk result (λ n. n ≤ length buf.old) }
        ensures taken { IfOk result (λ n. Takes (beside_of self.old) (beside_of self.new) (take n buf.new)) }
        ensures failed { OnErr result (beside_of self.new ≡ beside_of self.old) }
        ensures counts { Counts (IsErr result) self.old.faults self.new.faults }
        ensures port { self.new.port ≡ self.old.port }
    {
        let read = match &mut self.connection {
            Some(connection) => connection.read(buf),
            None => Err(no_connection()),
        };
        match read {
            Ok(count) => Ok(count),
            Err(_) => Err(self.fault()),
        }
    }

    fn finish(&mut self, mark: Mark, moment: Option<Moment>)
        requires { self.old.present ≡ true }
        ensures logged { Logs (beside_of self.old) (beside_of self.new) None mark moment }
        ensures counts { Counts ⊥ self.old.faults self.new.faults }
        ensures port { self.new.port ≡ self.old.port }
    {
        self.present = false;
        let Some(connection) = self.connection.take() else {
            return;
        };
        if mark == Mark::Lost {
            return;
        }
        let is_unread = matches!(mark, Mark::Refused(_) | Mark::Memory | Mark::ClockFault);
        match connection.finish(self.held.as_slice(), is_unread) {
            Ok(Some(stream)) => self.leave_open(stream),
            Ok(None) => {}
            Err(_) => {
                self.fault();
            }
        }
    }
}
