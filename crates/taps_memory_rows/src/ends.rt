// The two ends of a connection in memory, and the calls that the tests make on one of them.
ghost use Rattle.std.specs.Prelude.{◌≡◌, ◌≤◌, ◌<◌, [], All, length, true, false, IfOk};
ghost use Rattle.taps_socket.specs.Net.{with_spare};
ghost use Rattle.taps_connection.specs.Conditions.{IsHeld};
ghost use Rattle.taps_connection.specs.Sources.{unread_of};
ghost use Rattle.taps_connection.specs.Unread.{IsWanting};
ghost use Rattle.taps_memory_rows.specs.Ends.{IsUsable, AreUsable, IsLive, LeavesOthers, AreMet};

use std::alloc::Global;
use std::process::Abort;
use taps_base::{Body, NoMemory};
use taps_chain::{Chain, Heard};
use taps_connection::{Connection, Established, Pulled, Pushed};
use taps_endpoint::Address;
use taps_framer::Framer;
use taps_message::Message;
use taps_property::ConnectionProps;
use taps_socket::{AcceptAnswer, Cause, How, ListenAnswer, Sockets, StartAnswer, Target};
use taps_stack::Stack;

/// 127.0.0.1:7 over TCP.
pub const TARGET: Target = Target {
    stack: Stack::Tcp,
    address: Address::V4 {
        octets: [127, 0, 0, 1],
        port: 7,
    },
};

// The number of the socket that is started, and of that which is accepted.
const STARTER: u32 = 1;

const ACCEPTOR: u32 = 2;

/// There is room for two items.
pub fn make_spare<N: Sockets, R: Abort>(rt: &R, net: &mut N)
    ensures net { N.net net.new ≡ with_spare (N.net net.old) (N.net net.new).spare }
    ensures spare { 2 ≤ (N.net net.new).spare }
{
    if net.reserve(2).is_err() {
        assert!(rt; false);
        unreachable!()
    }
}

// Listens, starts a connection, accepts it and listens no more.
fn join<N: Sockets, R: Abort>(rt: &R, net: &mut N)
    requires { (N.net net.old).trace ≡ [] }
    ensures { AreMet (N.net net.new) }
{
    if net.reserve(5).is_err() {
        assert!(rt; false);
        unreachable!()
    }
    let ListenAnswer::Listening {
        socket: listener,
        ..
    } = net.listen(TARGET)
    else {
        assert!(rt; false);
        unreachable!()
    };
    let StartAnswer::Started {
        socket: starter,
        ..
    } = net.start(0, TARGET)
    else {
        assert!(rt; false);
        unreachable!()
    };
    let How::Completed(completed) = net.wait(1000).how else {
        assert!(rt; false);
        unreachable!()
    };
    assert_eq!(rt; (listener, starter, completed), (0, STARTER, STARTER));
    let AcceptAnswer::Accepted {
        socket: acceptor,
        ..
    } = net.accept(listener, 1000)
    else {
        assert!(rt; false);
        unreachable!()
    };
    assert_eq!(rt; acceptor, ACCEPTOR);
    net.close(listener);
}

// A connection over such a socket.
fn begin<'a, N: Sockets>(
    alloc: Global,
    shelf: &'a Vec<Box<dyn Framer>>,
    places: &[usize],
    socket: u32,
    net: &N,
) -> Result<Connection<'a, Established>, NoMemory>
    requires held { IsHeld (N.net net.now).trace socket true false false }
    requires few { length places.now ≤ 8 }
    requires within { All (λ p. p < length shelf.now.items) places.now }
    ensures socket { IfOk result (λ c. c.socket ≡ socket) }
    ensures usable { IfOk result (λ c. IsUsable ⟦<dyn Framer as Framer>⟧ c (N.net net.now)) }
{
    let _ = net;
    let chain = Chain::new(alloc, shelf, places)?;
    let props = ConnectionProps::defaults();
    Connection::new(alloc, socket, Stack::Tcp, chain, props, 4096, 0)
}

/// Connections over both ends of one.
pub fn meet<'a, N: Sockets, R: Abort>(
    rt: &R,
    alloc: Global,
    shelf: &'a Vec<Box<dyn Framer>>,
    places: &[usize],
    net: &mut N,
) -> (Connection<'a, Established>, Connection<'a, Established>)
    requires new { (N.net net.old).trace ≡ [] }
    requires few { length places.now ≤ 8 }
    requires within { All (λ p. p < length shelf.now.items) places.now }
    ensures { AreUsable ⟦<dyn Framer as Framer>⟧ result.0 result.1 (N.net net.new) }
{
    join(rt, net);
    match begin(alloc, shelf, places, STARTER, net) {
        Ok(starter) => match begin(alloc, shelf, places, ACCEPTOR, net) {
            Ok(acceptor) => (starter, acceptor),
            Err(_) => {
                assert!(rt; false);
                let_go(rt, starter, net);
                unreachable!()
            }
        },
        Err(_) => {
            assert!(rt; false);
            unreachable!()
        }
    }
}

/// A message is accepted.
pub fn accept_message<N: Sockets, R: Abort>(
    rt: &R,
    connection: &mut Connection<'_, Established>,
    net: &mut N,
    message: Message,
)
    requires usable { IsUsable ⟦<dyn Framer as Framer>⟧ connection.old (N.net net.old) }
    ensures usable { IsUsable ⟦<dyn Framer as Framer>⟧ connection.new (N.net net.new) }
    ensures socket { connection.new.socket ≡ connection.old.socket }
    ensures net { N.net net.new ≡ N.net net.old }
{
    let _ = net;
    assert!(rt; connection.send(message, 0).is_ok());
}

#[tactic(auto, using(crate::proofs::Others::push_leaves))]
/// Drives out up to a time. It does not fail.
pub fn push<N: Sockets, R: Abort>(
    rt: &R,
    connection: &mut Connection<'_, Established>,
    net: &mut N,
    until: u64,
) -> Pushed
    requires usable { IsUsable ⟦<dyn Framer as Framer>⟧ connection.old (N.net net.old) }
    ensures usable { IsUsable ⟦<dyn Framer as Framer>⟧ connection.new (N.net net.new) }
    ensures socket { connection.new.socket ≡ connection.old.socket }
    ensures others { LeavesOthers connection.old.socket (N.net net.old) (N.net net.new) }
{
    if until >= 9223372036854775808 {
        assert!(rt; false);
        unreachable!()
    }
    make_spare(rt, net);
    match connection.drive_out(net, until) {
        Pushed::Failed(_) => {
            assert!(rt; false);
            unreachable!()
        }
        Pushed::Sent(number) => Pushed::Sent(number),
        Pushed::Empty => Pushed::Empty,
        Pushed::Expired(number) => Pushed::Expired(number),
        Pushed::Timed(at) => Pushed::Timed(at),
        Pushed::NotSpeakable { number, layer } => Pushed::NotSpeakable { number, layer },
        Pushed::NoMemory => Pushed::NoMemory,
    }
}

/// What comes of asking for a message.
#[derive(Debug, Drop)]
pub enum Came {
    Message(Body),
    More,
    Ended,
    Timed(u64),
}

/// Asks for a message, and where none is there for bytes, up to a time. It does not fail, and nothing that came is bad.
pub fn pull<N: Sockets, R: Abort>(
    rt: &R,
    connection: &mut Connection<'_, Established>,
    net: &mut N,
    until: u64,
) -> Came
    requires usable { IsUsable ⟦<dyn Framer as Framer>⟧ connection.old (N.net net.old) }
    ensures usable { IsUsable ⟦<dyn Framer as Framer>⟧ connection.new (N.net net.new) }
    ensures socket { connection.new.socket ≡ connection.old.socket }
    ensures others { LeavesOthers connection.old.socket (N.net net.old) (N.net net.new) }
{
    if connection.given() == u64::MAX {
        assert!(rt; false);
        unreachable!()
    }
    match connection.receive() {
        Heard::Message(body) => Came::Message(body),
        Heard::Need => ask(rt, connection, net, until),
        Heard::Bad(_) => {
            assert!(rt; false);
            unreachable!()
        }
        Heard::NoMemory => {
            assert!(rt; false);
            unreachable!()
        }
    }
}

#[tactic(auto, using(crate::proofs::Others::pull_leaves))]
fn ask<N: Sockets, R: Abort>(
    rt: &R,
    connection: &mut Connection<'_, Established>,
    net: &mut N,
    until: u64,
) -> Came
    requires usable { IsUsable ⟦<dyn Framer as Framer>⟧ connection.old (N.net net.old) }
    requires wanting { IsWanting (unread_of connection.old.receiver.source) }
    ensures usable { IsUsable ⟦<dyn Framer as Framer>⟧ connection.new (N.net net.new) }
    ensures socket { connection.new.socket ≡ connection.old.socket }
    ensures others { LeavesOthers connection.old.socket (N.net net.old) (N.net net.new) }
{
    if until >= 9223372036854775808 || connection.has_ended() {
        assert!(rt; false);
        unreachable!()
    }
    make_spare(rt, net);
    match connection.drive_in(net, until) {
        Pulled::Got => Came::More,
        Pulled::Ended => Came::Ended,
        Pulled::Timed(at) => Came::Timed(at),
        Pulled::Failed(_) => {
            assert!(rt; false);
            unreachable!()
        }
        Pulled::NoMemory => {
            assert!(rt; false);
            unreachable!()
        }
    }
}

#[tactic(auto, using(crate::proofs::Others::close_leaves))]
/// Closes the socket.
pub fn let_go<N: Sockets, R: Abort>(rt: &R, connection: Connection<'_, Established>, net: &mut N)
    requires live { IsLive connection.socket (N.net net.old) }
    ensures others { LeavesOthers connection.entry.socket (N.net net.old) (N.net net.new) }
{
    make_spare(rt, net);
    let _closed = connection.abort(net);
}

/// Closes the sockets of both ends.
pub fn let_both_go<N: Sockets, R: Abort>(
    rt: &R,
    one: Connection<'_, Established>,
    other: Connection<'_, Established>,
    net: &mut N,
)
    requires { AreUsable ⟦<dyn Framer as Framer>⟧ one other (N.net net.old) }
{
    let_go(rt, one, net);
    let_go(rt, other, net);
}

/// Driving out fails with this cause.
pub fn fail<N: Sockets, R: Abort>(
    rt: &R,
    connection: &mut Connection<'_, Established>,
    net: &mut N,
    cause: Cause,
)
    requires usable { IsUsable ⟦<dyn Framer as Framer>⟧ connection.old (N.net net.old) }
    ensures live { IsLive connection.new.socket (N.net net.new) }
{
    make_spare(rt, net);
    let answer = connection.drive_out(net, 1000);
    assert_eq!(rt; answer, Pushed::Failed(cause));
}
