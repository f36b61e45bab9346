//! The door and the clock at work, each in one thread, with clients over the machine's own network.
ghost use Rattle.std.specs.Prelude.{◌≡◌, ◌<◌, false, length};

use gw_base::{Clock, Door, Failed, Mark, put_all};
use std::alloc::Global;
use std::io::{self, ErrorKind, Read, Write};
use std::net::{Ipv4Addr, SocketAddr, TcpStream};
use std::test::Fail;
use std::time::{Duration, Instant, SystemTime, UNIX_EPOCH};
use tcp_door::*;

static GET: &[u8] = b"GET /gtfs-rt HTTP/1.1\r\nHost: localhost\r\n\r\n";

static POST: &[u8] = b"POST /siri/et HTTP/1.1\r\nContent-Length: 16777217\r\n\r\n";

static HEAD: &[u8] = b"HTTP/1.1 200 OK\r\nConnection: close\r\n\r\n";

static REFUSAL: &[u8] = b"HTTP/1.1 413 Content Too Large\r\nConnection: close\r\n\r\n";

// A client of the door that is bound to this port.
fn client(rt: &HostRuntime, port: Option<u16>) -> io::Result<TcpStream> {
    match port {
        Some(port) => TcpStream::connect(rt, SocketAddr::from((Ipv4Addr::LOCALHOST, port))),
        None => Err(io::Error::from(ErrorKind::NotConnected)),
    }
}

// Serves the next connection: one read, and an answer of two pieces. Answers what the read answered.
fn serve<D: Door>(
    door: &mut D,
    buf: &mut [u8],
    answer: (&[u8], &[u8]),
    mark: Mark,
) -> Result<usize, Failed>
    requires absent { (D.beside door.old).present ≡ false }
    requires room { 0 < length buf.old }
    ensures absent { (D.beside door.new).present ≡ false }
{
    if door.next()? {
        let read = door.read(buf);
        let (head, body) = answer;
        let written = put_all(door, head).is_ok() && put_all(door, body).is_ok();
        door.finish(mark, None);
        return if written { read } else { Err(Failed) };
    }
    Err(Failed)
}

// All that the client still gets.
fn rest(alloc: Global, client: &mut TcpStream) -> io::Result<Vec<u8>> {
    let mut bytes = Vec::new(alloc);
    client.read_to_end(&mut bytes)?;
    Ok(bytes)
}

#[test]
fn an_answer_comes_whole(rt: HostRuntime) -> Result<(), Fail> {
    for size in [3usize, 65_536, 200_000] {
        let mut door = TcpDoor::new(&rt, rt.alloc(), "127.0.0.1:0", Limits::usual());
        assert_eq!(rt; door.port(), None);
        assert_eq!(rt; door.bind(), Ok(()));
        let mut body = Vec::new(rt.alloc());
        body.resize(size, b'b')?;
        let mut client = client(&rt, door.port())?;
        client.write_all(GET)?;
        let mut buf = [0u8; 1024];
        let read = serve(&mut door, &mut buf, (HEAD, body.as_slice()), Mark::Shown);
        assert_eq!(rt; read, Ok(GET.len()));
        assert!(rt; buf.starts_with(GET));
        let answer = rest(rt.alloc(), &mut client)?;
        assert!(rt; answer.starts_with(HEAD) && answer.ends_with(body.as_slice()));
        assert_eq!(rt; answer.len(), HEAD.len() + size);
    }
    Ok(())
}

// Serves the next connection as `serve` does; its client sends more once its request was read, and once more when it
// was answered.
fn serve_late<D: Door>(
    door: &mut D,
    buf: &mut [u8],
    client: &mut TcpStream,
    body: &[u8],
) -> io::Result<bool>
    requires absent { (D.beside door.old).present ≡ false }
    requires room { 0 < length buf.old }
    ensures absent { (D.beside door.new).present ≡ false }
{
    if let Ok(true) = door.next() {
        let read = door.read(buf).is_ok();
        let sent = client.write_all(GET);
        let written = put_all(door, HEAD).is_ok() && put_all(door, body).is_ok();
        door.finish(Mark::Shown, None);
        sent?;
        client.write_all(GET)?;
        return Ok(read && written);
    }
    Ok(false)
}

#[test]
fn late_bytes_tear_no_answer(rt: HostRuntime) -> Result<(), Fail> {
    let mut door = TcpDoor::new(&rt, rt.alloc(), "127.0.0.1:0", Limits::usual());
    assert_eq!(rt; door.bind(), Ok(()));
    let mut body = Vec::new(rt.alloc());
    body.resize(1_000_000, b'b')?;
    let mut client = client(&rt, door.port())?;
    client.write_all(GET)?;
    let mut buf = [0u8; 43];
    assert!(rt; serve_late(&mut door, &mut buf, &mut client, body.as_slice())?);
    let answer = rest(rt.alloc(), &mut client)?;
    assert!(rt; answer.starts_with(HEAD) && answer.ends_with(body.as_slice()));
    assert_eq!(rt; answer.len(), HEAD.len() + body.len());
    Ok(())
}

#[test]
fn the_usual_limits(rt: HostRuntime) {
    let usual = Limits::usual();
    assert_eq!(rt; usual.wait, Duration::from_secs(30));
    assert_eq!(rt; usual.pace, 65_536);
    assert_eq!(rt; usual.whole, Duration::from_secs(300));
    assert_eq!(rt; usual.drain, Duration::from_millis(200));
}

#[test]
fn a_silent_client_is_left(rt: HostRuntime) -> Result<(), Fail> {
    let (short, usual) = (Duration::from_millis(500), Limits::usual());
    let rows = [
        Limits {
            wait: short,
            ..usual
        },
        Limits {
            whole: short,
            ..usual
        },
    ];
    for limits in rows {
        let mut door = TcpDoor::new(&rt, rt.alloc(), "127.0.0.1:0", limits);
        assert_eq!(rt; door.bind(), Ok(()));
        let mut buf = [0u8; 1024];
        let mut silent = client(&rt, door.port())?;
        let start = Instant::now(&rt)?;
        let lost = serve(&mut door, &mut buf, (b"", b""), Mark::Lost);
        assert_eq!(rt; lost, Err(Failed));
        assert!(rt; start.elapsed(&rt)? < Duration::from_secs(10));
        assert_eq!(rt; rest(rt.alloc(), &mut silent)?.len(), 0);
        let mut next = client(&rt, door.port())?;
        next.write_all(GET)?;
        let read = serve(&mut door, &mut buf, (HEAD, b"body"), Mark::Shown);
        assert_eq!(rt; read, Ok(GET.len()));
        assert_eq!(rt; rest(rt.alloc(), &mut next)?.len(), HEAD.len() + 4);
    }
    Ok(())
}

// Sends the head and then as much of a body as the machine takes of one that isn't read. Answers how many bytes.
fn send_much(client: &mut TcpStream) -> io::Result<usize> {
    client.set_nonblocking(true)?;
    client.write_all(POST)?;
    let mut count = 0usize;
    for _ in 0..4_096 {
        match client.write(&[b'x'; 4_096]) {
            Ok(more) => count = count.saturating_add(more),
            Err(fault) if fault.kind() == ErrorKind::WouldBlock => break,
            Err(fault) => return Err(fault),
        }
    }
    client.set_nonblocking(false)?;
    Ok(count)
}

#[test]
fn the_answer_of_a_refused_post_comes_whole(rt: HostRuntime) -> Result<(), Fail> {
    let mut door = TcpDoor::new(&rt, rt.alloc(), "127.0.0.1:0", Limits::usual());
    assert_eq!(rt; door.bind(), Ok(()));
    let mut client = client(&rt, door.port())?;
    assert!(rt; 1_000_000 < send_much(&mut client)?);
    let mut buf = [0u8; 1024];
    let read = serve(
        &mut door,
        &mut buf,
        (REFUSAL, b"too large"),
        Mark::Refused(413),
    );
    assert_eq!(rt; read, Ok(1024));
    let answer = rest(rt.alloc(), &mut client)?;
    assert!(rt; answer.starts_with(REFUSAL) && answer.ends_with(b"too large"));
    Ok(())
}

// The seconds since 1970 that the machine tells.
fn seconds(rt: &HostRuntime) -> io::Result<u64> {
    match SystemTime::now(rt)?.duration_since(UNIX_EPOCH) {
        Ok(time) => Ok(time.as_secs()),
        Err(_) => Err(io::Error::from(ErrorKind::InvalidData)),
    }
}

#[test]
fn the_clock_gives_the_machines_moment(rt: HostRuntime) -> Result<(), Fail> {
    let before = seconds(&rt)?;
    let moment = SystemClock::new(&rt).now();
    let after = seconds(&rt)?;
    assert!(rt;
        moment.is_ok_and(|one| {
            u64::try_from(one.secs()).is_ok_and(|secs| before <= secs && secs <= after)
        })
    );
    Ok(())
}
