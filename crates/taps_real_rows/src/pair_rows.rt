ghost use Rattle.std.specs.Prelude.{◌≡◌, ◌≤◌, [], length, true, Ok, IfSome};
ghost use Rattle.taps_stack.specs.StackTable.{is_stream};
ghost use Rattle.taps_socket.specs.Sides.{carries_stream, may_send, may_receive};
ghost use Rattle.taps_real_rows.specs.Pairs.{IsPair, MayExchange, HasNoItem};

use mio::net::UdpSocket;
use std::fs;
use std::net::{Ipv4Addr, Net, SocketAddr};
use std::process::Abort;
use std::rt::Runtime;
use std::test::Fail;
use taps_base::NoMemory;
use taps_endpoint::parse_address;
use taps_real::RealSockets;
use taps_socket::{
    AcceptAnswer, How, ListenAnswer, RecvAnswer, SendAnswer, Sockets, StartAnswer, Target,
};
use taps_stack::Stack;

const WORD: [u8; 5] = *b"hello";

const UNTIL: u64 = 60_000;

// A socket that is connected to a listener, and the one that was accepted there.
pub fn pair<N: Sockets>(target: Target, net: &mut N) -> Option<(u32, u32)>
    requires fresh { (N.net net.old).trace ≡ [] }
    requires room { 9 ≤ (N.net net.old).spare }
    requires stream { is_stream target.stack ≡ true }
    ensures { IfSome result (λ pair. IsPair pair.0 pair.1 4 (N.net net.new)) }
{
    let ListenAnswer::Listening {
        socket: listener,
        ..
    } = net.listen(copy_of(&target))
    else {
        return None;
    };
    let StartAnswer::Started { socket: near, .. } = net.start(0, target) else {
        return None;
    };
    let How::Completed(done) = net.wait(UNTIL).how else {
        return None;
    };
    if done != near {
        return None;
    }
    match net.accept(listener, UNTIL) {
        AcceptAnswer::Accepted { socket, .. } => Some((near, socket)),
        AcceptAnswer::Timed { .. } | AcceptAnswer::Faulted { .. } => None,
    }
}

fn copy_of(target: &Target) -> Target
    ensures { result ≡ target.now }
{
    *target
}

// Whether the word was sent whole.
fn send_word<N: Sockets>(socket: u32, net: &mut N) -> Result<bool, NoMemory>
    requires may { may_send (N.net net.old).trace socket ≡ true }
    requires room { 1 ≤ (N.net net.old).spare }
    ensures { result ≡ Ok true → HasNoItem (N.net net.old) (N.net net.new) }
{
    net.make_room(socket, 5)?;
    match net.send(socket, &WORD, UNTIL) {
        SendAnswer::Sent { count, .. } => Ok(count == 5),
        SendAnswer::Timed { .. } | SendAnswer::Failed(_) => Ok(false),
    }
}

// Whether the word came whole.
fn receive_word<N: Sockets>(socket: u32, out: &mut [u8], net: &mut N) -> bool
    requires may { may_receive (N.net net.old).trace socket ≡ true }
    requires room { 1 ≤ (N.net net.old).spare }
    requires most { length out.old ≡ 65535 }
    ensures still { result ≡ true → HasNoItem (N.net net.old) (N.net net.new) }
    ensures most { length out.new ≡ 65535 }
{
    match net.recv(socket, out, UNTIL) {
        RecvAnswer::Got { count, .. } => &out[..count] == WORD.as_slice(),
        RecvAnswer::End | RecvAnswer::Timed { .. } | RecvAnswer::Failed(_) => false,
    }
}

// Whether the word and then the end of the sending side came there.
fn hear<N: Sockets>(near: u32, far: u32, out: &mut [u8], net: &mut N) -> Result<bool, NoMemory>
    requires pair { IsPair near far 4 (N.net net.old) }
    requires most { length out.old ≡ 65535 }
{
    if !send_word(near, net)? || !receive_word(far, out, net) {
        return Ok(false);
    }
    net.shut(near);
    Ok(net.recv(far, out, UNTIL) == RecvAnswer::End)
}

// Whether a word and then the end came over a new pair.
fn heard_over<R: Abort + Runtime + Net + AllocGlobal + Copy>(
    rt: &R,
    stack: Stack,
    text: &[u8],
) -> Result<bool, Fail>
    requires { is_stream stack ≡ true }
{
    let address = parse_address(text)?;
    let mut net = RealSockets::new(rt.alloc(), *rt)?;
    net.reserve(9)?;
    let Some((near, far)) = pair(Target { stack, address }, &mut net) else {
        return Ok(false);
    };
    let mut out = vec![in rt.alloc(); 0; 65535]?;
    Ok(hear(near, far, &mut out, &mut net)?)
}

// Whether a listener was there, and was closed.
fn listen_and_close<N: Sockets>(target: Target, net: &mut N) -> bool
    requires fresh { (N.net net.old).trace ≡ [] }
    requires room { 2 ≤ (N.net net.old).spare }
    requires stream { is_stream target.stack ≡ true }
{
    match net.listen(target) {
        ListenAnswer::Listening { socket, .. } => {
            net.close(socket);
            true
        }
        ListenAnswer::Refused { .. } => false,
    }
}

// The file that a listener made is removed when it is closed.
#[test]
fn a_closed_listener_leaves_no_file(rt: HostRuntime) -> Result<(), Fail> {
    let address = parse_address(b"unix:closed.sock")?;
    let stack = Stack::Unix;
    let mut net = RealSockets::new(rt.alloc(), rt)?;
    net.reserve(2)?;
    assert!(rt; listen_and_close(Target { stack, address }, &mut net));
    assert!(rt; !fs::exists(&rt, "closed.sock")?);
    Ok(())
}

// A socket that is connected to a target, over datagrams.
fn connected<N: Sockets>(target: Target, net: &mut N) -> Option<u32>
    requires fresh { (N.net net.old).trace ≡ [] }
    requires room { 4 ≤ (N.net net.old).spare }
    ensures { IfSome result (λ socket. MayExchange socket 2 (N.net net.new)) }
{
    let StartAnswer::Started { socket, .. } = net.start(0, target) else {
        return None;
    };
    match net.wait(UNTIL).how {
        How::Completed(done) => { if done == socket { Some(socket) } else { None } }
        How::Reached | How::Broke(_, _) | How::Faulted => None,
    }
}

// The far end answers a word with an empty datagram and the word.
fn answer(far: &UdpSocket) -> Result<(), Fail> {
    let mut out = [0u8; 16];
    let (count, from) = far.recv_from(&mut out)?;
    far.send_to(b"", from)?;
    far.send_to(&out[..count], from)?;
    Ok(())
}

// Whether a word came back from there.
fn echoed<N: Sockets>(socket: u32, far: &UdpSocket, net: &mut N) -> Result<bool, Fail>
    requires { MayExchange socket 2 (N.net net.old) }
{
    let mut out = [0u8; 65535];
    if !send_word(socket, net)? {
        return Ok(false);
    }
    answer(far)?;
    Ok(receive_word(socket, &mut out, net))
}

// An empty datagram is passed over.
#[test]
fn a_word_over_udp(rt: HostRuntime) -> Result<(), Fail> {
    let far = UdpSocket::bind(&rt, SocketAddr::from((Ipv4Addr::LOCALHOST, 47_117)))?;
    let address = parse_address(b"127.0.0.1:47117")?;
    let stack = Stack::Udp;
    let mut net = RealSockets::new(rt.alloc(), rt)?;
    net.reserve(4)?;
    let Some(socket) = connected(Target { stack, address }, &mut net) else {
        return Err(Fail::from("not connected"));
    };
    assert!(rt; echoed(socket, &far, &mut net)?);
    Ok(())
}

#[test]
fn a_word_over_tcp(rt: HostRuntime) -> Result<(), Fail> {
    assert!(rt; heard_over(&rt, Stack::Tcp, b"127.0.0.1:47116")?);
    Ok(())
}

#[test]
fn a_word_over_a_unix_path(rt: HostRuntime) -> Result<(), Fail> {
    let _ = fs::remove_file(&rt, "pair.sock");
    assert!(rt; heard_over(&rt, Stack::Unix, b"unix:pair.sock")?);
    Ok(())
}
