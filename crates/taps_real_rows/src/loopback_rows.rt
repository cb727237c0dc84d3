use mio::net::TcpStream;
use std::net::{Ipv4Addr, Net, SocketAddr, TcpListener};
use std::os::fd::AsRawFd;
use std::rt::Runtime;
use std::test::Fail;
use std::{fs, rt};
use taps_base::NoMemory;
use taps_endpoint::{Address, parse_address};
use taps_real::RealSockets;
use taps_socket::{Cause, How, ListenAnswer, Sockets, StartAnswer, Target};
use taps_stack::Stack;

// What came of an attempt to connect.
#[derive(Clone, Copy, Debug, PartialEq, Eq)]
enum Seen {
    Refused(Cause),
    Completed,
    Broke(Cause),
    Reached,
    Faulted,
}

// Attempts with nobody at the other end, and what comes of each.
const NOBODY: [(Stack, &[u8], Seen); 7] = [
    (Stack::Tcp, b"127.0.0.1:1", Seen::Broke(Cause::Refused)),
    (
        Stack::Tcp,
        b"255.255.255.255:9",
        Seen::Refused(Cause::Unreachable),
    ),
    (Stack::Tcp, b"unix:none.sock", Seen::Refused(Cause::Other)),
    (
        Stack::Unix,
        b"unix:none.sock",
        Seen::Refused(Cause::Refused),
    ),
    (Stack::Unix, b"127.0.0.1:1", Seen::Refused(Cause::Other)),
    (Stack::Udp, b"127.0.0.1:9", Seen::Completed),
    (
        Stack::Udp,
        b"255.255.255.255:9",
        Seen::Refused(Cause::Other),
    ),
];

// Listens in this order, and why each is refused, if it is. The file of the first one stays, since
// nothing closes that listener.
const LISTENS: [(Stack, &[u8], Option<Cause>); 5] = [
    (Stack::Unix, b"unix:l.sock", None),
    (Stack::Unix, b"unix:l.sock", Some(Cause::Other)),
    (Stack::Unix, b"unix:none/l.sock", Some(Cause::Other)),
    (Stack::Unix, b"127.0.0.1:1", Some(Cause::Other)),
    (Stack::Tcp, b"203.0.113.77:9", Some(Cause::Other)),
];

// One attempt, and a wait of 50 milliseconds.
fn attempt<N: Sockets>(net: &mut N, target: Target) -> Result<Seen, NoMemory> {
    net.reserve(3)?;
    let began = net.now();
    if let StartAnswer::Refused { cause, .. } = net.start(0, target) {
        return Ok(Seen::Refused(cause));
    }
    match net.wait(began.saturating_add(50)).how {
        How::Reached => Ok(Seen::Reached),
        How::Completed(_) => Ok(Seen::Completed),
        How::Broke(_, cause) => Ok(Seen::Broke(cause)),
        How::Faulted => Ok(Seen::Faulted),
    }
}

// Why a listen was refused, if it was.
fn refusal<N: Sockets>(net: &mut N, target: Target) -> Result<Option<Cause>, NoMemory> {
    net.reserve(1)?;
    match target.stack {
        Stack::Tcp | Stack::Unix => match net.listen(target) {
            ListenAnswer::Listening { .. } => Ok(None),
            ListenAnswer::Refused { cause, .. } => Ok(Some(cause)),
        },
        Stack::Udp => Ok(None),
    }
}

fn attempt_at<N: Sockets>(net: &mut N, stack: Stack, text: &[u8]) -> Result<Seen, Fail> {
    let address = parse_address(text)?;
    Ok(attempt(net, Target { stack, address })?)
}

fn refusal_at<N: Sockets>(net: &mut N, stack: Stack, text: &[u8]) -> Result<Option<Cause>, Fail> {
    let address = parse_address(text)?;
    Ok(refusal(net, Target { stack, address })?)
}

#[test]
fn nobody_is_there(rt: HostRuntime) -> Result<(), Fail> {
    let mut net = RealSockets::new(rt.alloc(), rt)?;
    for (stack, text, seen) in &NOBODY {
        assert_eq!(rt; attempt_at(&mut net, *stack, text)?, *seen);
    }
    Ok(())
}

#[test]
fn listens_that_are_refused(rt: HostRuntime) -> Result<(), Fail> {
    let _ = fs::remove_file(&rt, "l.sock");
    let mut net = RealSockets::new(rt.alloc(), rt)?;
    for (stack, text, why) in &LISTENS {
        assert_eq!(rt; refusal_at(&mut net, *stack, text)?, *why);
    }
    Ok(())
}

// A listener whose backlog is full does not answer.
#[test]
fn a_full_backlog_is_silent(rt: HostRuntime) -> Result<(), Fail> {
    let silent = TcpListener::bind(&rt, "127.0.0.1:0")?;
    let place = silent.local_addr()?;
    let _ = libc::net::listen(silent.as_raw_fd(), 0);
    let first = TcpStream::connect(&rt, place)?;
    let address = Address::V4 {
        octets: [127, 0, 0, 1],
        port: place.port(),
    };
    let mut net = RealSockets::new(rt.alloc(), rt)?;
    let stack = Stack::Tcp;
    assert_eq!(rt;
        attempt(&mut net, Target { stack, address })?,
        Seen::Reached
    );
    drop((silent, first));
    Ok(())
}

fn descriptors(rt: &HostRuntime) -> Result<u32, Fail> {
    let mut count = 0u32;
    for entry in fs::read_dir(rt, "/proc/self/fd")? {
        let _ = entry?;
        count = count.saturating_add(1);
    }
    Ok(count)
}

// The descriptors while the sockets of both tables are open: those of a listener, of a socket that
// broke and of one that completed.
fn descriptors_between(rt: &HostRuntime) -> Result<u32, Fail> {
    let mut net = RealSockets::new(rt.alloc(), *rt)?;
    for (stack, text, _) in &LISTENS {
        refusal_at(&mut net, *stack, text)?;
    }
    for (stack, text, _) in &NOBODY {
        attempt_at(&mut net, *stack, text)?;
    }
    descriptors(rt)
}

#[test]
fn no_descriptor_is_left(rt: HostRuntime) -> Result<(), Fail> {
    let _ = fs::remove_file(&rt, "l.sock");
    let before = descriptors(&rt)?;
    let between = descriptors_between(&rt)?;
    assert_eq!(rt; between, before.saturating_add(3));
    assert_eq!(rt; descriptors(&rt)?, before);
    Ok(())
}
