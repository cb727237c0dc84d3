// Runs over the sockets of the system: both ends in one program, and ends that the test holds itself.
use crate::run_real;
use mio::net::{TcpListener, TcpStream, UdpSocket, UnixListener};
use std::alloc::Global;
use std::io::{ErrorKind, Read};
use std::net::{Ipv4Addr, Net, SocketAddr};
use std::process::Abort;
use std::rt::Runtime;
use std::test::Fail;
use std::{fs, thread};
use taps_base::MemorySink;
use taps_framer::Framer;
use taps_frames::Len16;

const TRIES: u32 = 1_000_000;

// A file of this name and text, and the end of what `run` writes on it.
struct Talk {
    name: &'static str,
    file: &'static str,
    end: &'static str,
}

static BOTH_ENDS_OVER_TCP: Talk = Talk {
    name: "tcp.toml",
    file: "framers = [\"len16\"]
[[local]]
address = \"127.0.0.1:47113\"
[[remote]]
address = \"127.0.0.1:47113\"
[[message]]
text = \"a\"
[[message]]
text = \"b\"
[exchange]
role = \"loop\"
",
    end: "\nsent 0 2\nsent 1 0\nreceived 1 0 61\nreceived 1 1 62\ndone\n",
};

static BOTH_ENDS_OVER_A_UNIX_PATH: Talk = Talk {
    name: "unix.toml",
    file: "framers = [\"len16\"]
[[local]]
address = \"unix:taps.sock\"
[[remote]]
address = \"unix:taps.sock\"
[[message]]
text = \"a\"
[[message]]
text = \"b\"
[exchange]
role = \"loop\"
",
    end: "\nsent 0 2\nsent 1 0\nreceived 1 0 61\nreceived 1 1 62\ndone\n",
};

static TO_A_LISTENER: Talk = Talk {
    name: "listener.toml",
    file: "framers = [\"len16\"]
[[remote]]
address = \"127.0.0.1:47114\"
[[message]]
text = \"a\"
[[message]]
text = \"b\"
",
    end: "\nready 0\nclose 0\nsent 0 2\ndone\n",
};

static DATAGRAMS: Talk = Talk {
    name: "datagrams.toml",
    file: "profile = \"unreliable-datagram\"
[[remote]]
address = \"127.0.0.1:47115\"
[[message]]
text = \"a\"
[[message]]
text = \"b\"
",
    end: "\nready 0\nclose 0\nsent 0 2\ndone\n",
};

static TO_THE_SECOND_ADDRESS: Talk = Talk {
    name: "second.toml",
    file: "[[remote]]
address = \"127.0.0.2:47112\"
[[remote]]
address = \"127.0.0.1:47112\"
",
    end: "\nready 1\nclose 1\nsent 0 0\ndone\n",
};

static TO_A_UNIX_PATH: Talk = Talk {
    name: "far.toml",
    file: "[[remote]]
address = \"unix:far.sock\"
",
    end: "\nready 0\nclose 0\nsent 0 0\ndone\n",
};

fn at_port(port: u16) -> SocketAddr {
    SocketAddr::from((Ipv4Addr::LOCALHOST, port))
}

// `run` on this file ends with 0, writes a text with this end, and nothing on the error output.
fn holds<R: Abort + Runtime + Net + AllocGlobal + Copy>(rt: &R, talk: &Talk) -> Result<(), Fail> {
    fs::write(rt, talk.name, talk.file)?;
    let mut out = MemorySink::new(rt.alloc(), 4096, None)?;
    let mut err = MemorySink::new(rt.alloc(), 200, None)?;
    let code = run(rt, talk.name, &mut out, &mut err)?;
    let log = str::from_utf8(out.bytes());
    assert!(rt; log.is_ok_and(|log| log.ends_with(talk.end)), "{log:?}");
    assert_eq!(rt; err.bytes(), b"".as_slice());
    assert_eq!(rt; code, 0);
    Ok(())
}

// The exit code of `run` on this file, with a shelf of one framer.
fn run<R: Runtime + Net + AllocGlobal + Copy>(
    rt: &R,
    name: &str,
    out: &mut MemorySink,
    err: &mut MemorySink,
) -> Result<u8, Fail> {
    let words = words(rt.alloc(), name)?;
    let mut shelf: Vec<Box<dyn Framer>> = Vec::new(rt.alloc());
    shelf.push(Box::new(rt.alloc(), Len16)?)?;
    Ok(run_real(rt.alloc(), *rt, &words, out, err, &shelf).code())
}

fn words(alloc: Global, name: &str) -> Result<Vec<String>, Fail> {
    let mut words = Vec::new(alloc);
    words.push(String::from_str(alloc, "run")?)?;
    words.push(String::from_str(alloc, name)?)?;
    Ok(words)
}

// The next connection.
fn accepted(listener: &TcpListener) -> Result<TcpStream, Fail> {
    for _ in 0..TRIES {
        match listener.accept() {
            Ok((stream, _)) => return Ok(stream),
            Err(e) if e.kind() == ErrorKind::WouldBlock => thread::yield_now(),
            Err(e) => return Err(Fail::from(e)),
        }
    }
    Err(Fail::from("no connection came"))
}

// All bytes up to the end of the stream.
fn heard<S: Read>(alloc: Global, stream: &mut S) -> Result<Vec<u8>, Fail> {
    let mut heard = Vec::new(alloc);
    let mut piece = [0u8; 64];
    for _ in 0..TRIES {
        match stream.read(&mut piece) {
            Ok(0) => return Ok(heard),
            Ok(count) => heard.extend_from_slice(&piece[..count])?,
            Err(e) if e.kind() == ErrorKind::WouldBlock => thread::yield_now(),
            Err(e) => return Err(Fail::from(e)),
        }
    }
    Err(Fail::from("the stream did not end"))
}

// The length of the next datagram.
fn datagram(socket: &UdpSocket, out: &mut [u8]) -> Result<usize, Fail> {
    for _ in 0..TRIES {
        match socket.recv(out) {
            Ok(count) => return Ok(count),
            Err(e) if e.kind() == ErrorKind::WouldBlock => thread::yield_now(),
            Err(e) => return Err(Fail::from(e)),
        }
    }
    Err(Fail::from("no datagram came"))
}

#[test]
fn both_ends_over_tcp(rt: HostRuntime) -> Result<(), Fail> {
    holds(&rt, &BOTH_ENDS_OVER_TCP)
}

// The file of the socket is gone with its listener.
#[test]
fn both_ends_over_a_unix_path(rt: HostRuntime) -> Result<(), Fail> {
    // (what a run that was ended left in this folder)
    let _gone = fs::remove_file(&rt, "taps.sock");
    holds(&rt, &BOTH_ENDS_OVER_A_UNIX_PATH)?;
    assert!(rt; !fs::exists(&rt, "taps.sock")?);
    Ok(())
}

#[test]
fn two_messages_to_a_listener(rt: HostRuntime) -> Result<(), Fail> {
    let listener = TcpListener::bind(&rt, at_port(47_114))?;
    holds(&rt, &TO_A_LISTENER)?;
    let mut far = accepted(&listener)?;
    assert_eq!(rt;
        heard(rt.alloc(), &mut far)?.as_slice(),
        b"\0\x01a\0\x01b".as_slice()
    );
    Ok(())
}

#[test]
fn two_datagrams(rt: HostRuntime) -> Result<(), Fail> {
    let far = UdpSocket::bind(&rt, at_port(47_115))?;
    holds(&rt, &DATAGRAMS)?;
    let mut piece = [0u8; 64];
    for want in [b"a", b"b"] {
        assert_eq!(rt; datagram(&far, &mut piece)?, 1);
        assert_eq!(rt; &piece[..1], want.as_slice());
    }
    Ok(())
}

#[test]
fn the_second_address_over_tcp(rt: HostRuntime) -> Result<(), Fail> {
    let listener = TcpListener::bind(&rt, at_port(47_112))?;
    holds(&rt, &TO_THE_SECOND_ADDRESS)?;
    let mut far = accepted(&listener)?;
    assert_eq!(rt; heard(rt.alloc(), &mut far)?.as_slice(), b"".as_slice());
    Ok(())
}

#[test]
fn a_listener_at_a_unix_path(rt: HostRuntime) -> Result<(), Fail> {
    // (the file of an earlier run in this folder)
    let _gone = fs::remove_file(&rt, "far.sock");
    let listener = UnixListener::bind(&rt, "far.sock")?;
    holds(&rt, &TO_A_UNIX_PATH)?;
    let (mut far, _) = listener.accept()?;
    assert_eq!(rt; heard(rt.alloc(), &mut far)?.as_slice(), b"".as_slice());
    Ok(())
}
