ghost use Rattle.std.specs.Prelude.{◌≡◌, true, IfOk};
ghost use Rattle.std.specs.Io.{ReadsAtMost, WritesAtMost};
ghost use Rattle.taps_real.specs.OpenSockets.{is_open};

use crate::cause::cause_of;
use mio::net::{TcpListener, TcpStream, UdpSocket, UnixListener, UnixStream};
use std::io::{ErrorKind, Read, Write};
use std::net::{Ipv4Addr, Ipv6Addr, Net, Shutdown, SocketAddr};
use std::{fs, io, rt, str};
use taps_endpoint::{Address, UnixPath};
use taps_socket::{Cause, Target};
use taps_stack::Stack;

/// A socket of the system, which does not block: made, looked at, tried once. One that is let go of is
/// closed.
#[derive(Drop)]
pub(crate) enum Held {
    Closed,
    Tcp(TcpStream),
    Unix(UnixStream),
    Udp(UdpSocket),
    TcpListening(TcpListener),
    UnixListening(UnixListener, UnixPath),
}

/// What one look at a pending socket shows.
#[derive(Clone, Copy)]
pub(crate) enum Look {
    Pending,
    Completed,
    Broke(Cause),
}

// The stack and the address do not fit, or the socket has no such call.
fn wrong_kind() -> io::Error {
    io::Error::from(ErrorKind::InvalidInput)
}

fn inet4(octets: [u8; 4], port: u16) -> SocketAddr {
    let [a, b, c, d] = octets;
    SocketAddr::from((Ipv4Addr::new(a, b, c, d), port))
}

fn inet6(fields: [u16; 8], port: u16) -> SocketAddr {
    let [a, b, c, d, e, f, g, h] = fields;
    SocketAddr::from((Ipv6Addr::new(a, b, c, d, e, f, g, h), port))
}

// The address of the system, if it is not a path.
fn inet(address: &Address) -> Option<SocketAddr> {
    match address {
        Address::V4 { octets, port } => Some(inet4(*octets, *port)),
        Address::V6 { fields, port } => Some(inet6(*fields, *port)),
        Address::Unix(_) => None,
    }
}

fn path_text(path: &UnixPath) -> io::Result<&str> {
    match str::from_utf8(path.bytes()) {
        Ok(text) => Ok(text),
        Err(_) => Err(wrong_kind()),
    }
}

/// Begins to connect, and returns at once. Over Unix sockets it is connected then.
pub(crate) fn begin<R: Net>(system: &R, target: &Target) -> io::Result<Held>
    ensures { IfOk result (λ held. is_open held ≡ true) }
{
    match target.stack {
        Stack::Tcp => begin_tcp(
            system,
            inet(&target.address).ok_or(ErrorKind::InvalidInput)?,
        ),
        Stack::Udp => begin_udp(
            system,
            inet(&target.address).ok_or(ErrorKind::InvalidInput)?,
        ),
        Stack::Unix => begin_unix(system, &target.address),
    }
}

fn begin_tcp<R: Net>(system: &R, address: SocketAddr) -> io::Result<Held>
    ensures { IfOk result (λ held. is_open held ≡ true) }
{
    let stream = TcpStream::connect(system, address)?;
    // A small message is not to wait for the one before it. A refusal changes nothing of the bytes.
    let _ = stream.set_nodelay(true);
    Ok(Held::Tcp(stream))
}

fn begin_unix<R: Net>(system: &R, address: &Address) -> io::Result<Held>
    ensures { IfOk result (λ held. is_open held ≡ true) }
{
    match address {
        Address::Unix(path) => Ok(Held::Unix(UnixStream::connect(system, path_text(path)?)?)),
        Address::V4 { .. } | Address::V6 { .. } => Err(wrong_kind()),
    }
}

fn begin_udp<R: Net>(system: &R, address: SocketAddr) -> io::Result<Held>
    ensures { IfOk result (λ held. is_open held ≡ true) }
{
    let any = match address {
        SocketAddr::V4(_) => SocketAddr::from((Ipv4Addr::UNSPECIFIED, 0)),
        SocketAddr::V6(_) => SocketAddr::from((Ipv6Addr::UNSPECIFIED, 0)),
    };
    let socket = UdpSocket::bind(system, any)?;
    socket.connect(address)?;
    Ok(Held::Udp(socket))
}

/// Binds and listens. A file that is there already is left, and refuses the listen: it may be a live one's.
pub(crate) fn listen<R: rt::Files + Net>(system: &R, target: &Target) -> io::Result<Held>
    ensures { IfOk result (λ held. is_open held ≡ true) }
{
    match target.stack {
        Stack::Tcp => listen_tcp(
            system,
            inet(&target.address).ok_or(ErrorKind::InvalidInput)?,
        ),
        Stack::Unix => listen_unix(system, &target.address),
        Stack::Udp => Err(wrong_kind()),
    }
}

fn listen_tcp<R: Net>(system: &R, address: SocketAddr) -> io::Result<Held>
    ensures { IfOk result (λ held. is_open held ≡ true) }
{
    Ok(Held::TcpListening(TcpListener::bind(system, address)?))
}

fn listen_unix<R: rt::Files + Net>(system: &R, address: &Address) -> io::Result<Held>
    ensures { IfOk result (λ held. is_open held ≡ true) }
{
    match address {
        Address::Unix(path) => {
            let listener = UnixListener::bind(system, path_text(path)?)?;
            Ok(Held::UnixListening(listener, *path))
        }
        Address::V4 { .. } | Address::V6 { .. } => Err(wrong_kind()),
    }
}

/// Removes the file that a listening Unix socket made. A file that cannot be removed is left.
pub(crate) fn remove_file<R: rt::Files>(system: &R, held: &Held) {
    if let Held::UnixListening(_, path) = held {
        if let Ok(text) = path_text(path) {
            let _ = fs::remove_file(system, text);
        }
    }
}

impl Held {
    /// One look at a socket that is pending. The system reports an error once, so what is seen here is
    /// to be told.
    pub(crate) fn look(&self) -> Look {
        match self {
            Held::Tcp(stream) => look_tcp(stream),
            Held::Unix(_) | Held::Udp(_) => Look::Completed,
            Held::Closed | Held::TcpListening(_) | Held::UnixListening(_, _) => Look::Pending,
        }
    }

    /// One try to accept.
    pub(crate) fn accept(&self) -> io::Result<Held>
        ensures { IfOk result (λ held. is_open held ≡ true) }
    {
        match self {
            Held::TcpListening(listener) => {
                let (stream, _) = listener.accept()?;
                let _ = stream.set_nodelay(true);
                Ok(Held::Tcp(stream))
            }
            Held::UnixListening(listener, _) => {
                let (stream, _) = listener.accept()?;
                Ok(Held::Unix(stream))
            }
            Held::Closed | Held::Tcp(_) | Held::Unix(_) | Held::Udp(_) => Err(wrong_kind()),
        }
    }

    /// One try to send.
    pub(crate) fn write(&self, bytes: &[u8]) -> io::Result<usize>
        ensures { WritesAtMost result bytes.now }
    {
        match self {
            Held::Tcp(stream) => write_tcp(stream, bytes),
            Held::Unix(stream) => write_unix(stream, bytes),
            Held::Udp(socket) => socket.send(bytes),
            Held::Closed | Held::TcpListening(_) | Held::UnixListening(_, _) => Err(wrong_kind()),
        }
    }

    /// One try to receive.
    pub(crate) fn read(&self, out: &mut [u8]) -> io::Result<usize>
        ensures { ReadsAtMost result out.new }
    {
        match self {
            Held::Tcp(stream) => read_tcp(stream, out),
            Held::Unix(stream) => read_unix(stream, out),
            Held::Udp(socket) => socket.recv(out),
            Held::Closed | Held::TcpListening(_) | Held::UnixListening(_, _) => Err(wrong_kind()),
        }
    }

    /// Ends the sending side. What fails here was ended before.
    pub(crate) fn shut(&self) {
        match self {
            Held::Tcp(stream) => {
                let _ = stream.shutdown(Shutdown::Write);
            }
            Held::Unix(stream) => {
                let _ = stream.shutdown(Shutdown::Write);
            }
            Held::Closed | Held::Udp(_) | Held::TcpListening(_) | Held::UnixListening(_, _) => {}
        }
    }
}

fn look_tcp(stream: &TcpStream) -> Look {
    match stream.take_error() {
        Ok(None) => match stream.peer_addr() {
            Ok(_) => Look::Completed,
            Err(error) if error.kind() == ErrorKind::NotConnected => Look::Pending,
            Err(error) => Look::Broke(cause_of(&error)),
        },
        Ok(Some(error)) => Look::Broke(cause_of(&error)),
        Err(error) => Look::Broke(cause_of(&error)),
    }
}

fn write_tcp(mut stream: &TcpStream, bytes: &[u8]) -> io::Result<usize>
    ensures { WritesAtMost result bytes.now }
{
    stream.write(bytes)
}

fn write_unix(mut stream: &UnixStream, bytes: &[u8]) -> io::Result<usize>
    ensures { WritesAtMost result bytes.now }
{
    stream.write(bytes)
}

fn read_tcp(mut stream: &TcpStream, out: &mut [u8]) -> io::Result<usize>
    ensures { ReadsAtMost result out.new }
{
    stream.read(out)
}

fn read_unix(mut stream: &UnixStream, out: &mut [u8]) -> io::Result<usize>
    ensures { ReadsAtMost result out.new }
{
    stream.read(out)
}
