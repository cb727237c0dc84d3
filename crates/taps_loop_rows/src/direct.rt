// A row of both ends over sockets in memory that are given to them: how the sockets were joined, what the one end
// sends, and what comes of it.
ghost use Rattle.std.specs.Prelude.{◌≡◌, ◌≤◌, [], length, true};
ghost use Rattle.taps_socket.specs.declared.item.How.TheVariants as how;
ghost use Rattle.taps_socket.specs.Sides.{may_accept, may_send};
ghost use Rattle.taps_loop_rows.specs.Joins.{AreTwo, HasAccepted, HasListened, HasStarted, HasWaited, MayLoop};

use std::alloc::Global;
use std::process::Abort;
use taps_base::{Body, NoMemory};
use taps_chain::Chain;
use taps_connection::{Listener, ListenerAnswer};
use taps_endpoint::Address;
use taps_exchange::{Exchanged, Outcome};
use taps_framer::Framer;
use taps_loop::{Looped, Reporting, loop_over};
use taps_memory::MemoryNet;
use taps_message::Message;
use taps_property::{Capacity, ConnectionProps, MessageProps};
use taps_socket::{Cause, How, Item, Recorder, SendAnswer, Sockets, StartAnswer, Target};
use taps_stack::Stack;

/// When the sockets are joined, in milliseconds.
const JOINED: u64 = 5;

/// 127.0.0.1:9000 over TCP.
const TARGET: Target = Target {
    stack: Stack::Tcp,
    address: Address::V4 {
        octets: [127, 0, 0, 1],
        port: 9000,
    },
};

/// Which sockets the two ends have. The listener's is 0.
#[derive(Clone, Copy)]
pub enum Peers {
    /// Member 0 has the second connection, 2, and the first one, 1, is accepted, on which these bytes were written.
    Apart(&'static [u8]),
    /// The same, and the first connection was closed behind these bytes.
    ApartClosed(&'static [u8]),
    /// Member 0 has the first connection, 1, which was accepted and closed there, and the second one, 2, is accepted.
    Gone,
    /// Member 0 has the one connection, 1, which was accepted.
    Alone,
}

/// What comes of it: the outcome, how many messages were sent, and those that were heard; or no exchange.
#[derive(Clone, Copy)]
pub enum Came {
    Exchanged(Outcome, u64, &'static [&'static [u8]]),
    Timed,
    Faulted,
}

/// An item behind the joining. Its time is that of the joining, and the listener of an accepted socket is the one.
#[derive(Clone, Copy)]
pub enum Seen {
    Accepted(u32),
    Faulted,
    /// A send failed, since the other end was closed.
    Reset(u32),
    Ended(u32),
    Closed(u32),
}

/// The waits and accepts that fault are counted together from 0, those that join the sockets among them. The last
/// reported time is the one behind all calls.
#[derive(Clone, Copy)]
pub struct Row {
    pub peers: Peers,
    pub faults: &'static [u64],
    pub ring: u32,
    pub messages: &'static [&'static [u8]],
    pub deadline_ms: u64,
    pub came: Came,
    pub seen: &'static [Seen],
    pub told: u64,
}

// Listens for two connections.
fn listen<N: Sockets, R: Abort>(rt: &R, net: &mut N) -> Listener
    requires fresh { (N.net net.old).trace ≡ [] }
    ensures { HasListened result (N.net net.new) }
{
    if net.reserve(20).is_err() {
        assert!(rt; false);
        unreachable!()
    }
    match Listener::listen(net, TARGET, 2) {
        Ok(listener) => {
            assert_eq!(rt; listener.socket(), 0);
            listener
        }
        Err(_) => {
            assert!(rt; false);
            unreachable!()
        }
    }
}

// Starts a connection.
fn start<N: Sockets, R: Abort>(rt: &R, socket: u32, net: &mut N)
    requires { 1 ≤ (N.net net.old).spare }
    ensures { HasStarted socket (N.net net.old) (N.net net.new) }
{
    let StartAnswer::Started {
        socket: started,
        ..
    } = net.start(0, TARGET)
    else {
        assert!(rt; false);
        unreachable!()
    };
    assert_eq!(rt; started, socket);
}

// Waits until a connection has completed.
fn complete<N: Sockets, R: Abort>(rt: &R, socket: u32, net: &mut N)
    requires { 1 ≤ (N.net net.old).spare }
    ensures { HasWaited (how.Completed socket) (N.net net.old) (N.net net.new) }
{
    let How::Completed(completed) = net.wait(JOINED).how else {
        assert!(rt; false);
        unreachable!()
    };
    assert_eq!(rt; completed, socket);
}

// Waits until the time has come.
fn reach<N: Sockets, R: Abort>(rt: &R, net: &mut N)
    requires { 1 ≤ (N.net net.old).spare }
    ensures { HasWaited how.Reached (N.net net.old) (N.net net.new) }
{
    let How::Reached = net.wait(JOINED).how else {
        assert!(rt; false);
        unreachable!()
    };
}

// Accepts a connection.
fn accept<N: Sockets, R: Abort>(rt: &R, listener: &mut Listener, accepted: u32, net: &mut N)
    requires may { may_accept (N.net net.old).trace listener.old.socket ≡ true }
    requires room { 1 ≤ (N.net net.old).spare }
    ensures { HasAccepted accepted (N.net net.old) (N.net net.new) listener.old listener.new }
{
    let ListenerAnswer::Accepted { socket, .. } = listener.accept(net, JOINED) else {
        assert!(rt; false);
        unreachable!()
    };
    assert_eq!(rt; socket, accepted);
}

// Sends these bytes.
fn write<N: Sockets, R: Abort>(rt: &R, socket: u32, bytes: &[u8], net: &mut N)
    requires may { may_send (N.net net.old).trace socket ≡ true }
    requires room { 1 ≤ (N.net net.old).spare }
    ensures trace { (N.net net.new).trace ≡ (N.net net.old).trace }
    ensures spare { (N.net net.new).spare ≡ (N.net net.old).spare }
{
    assert!(rt; bytes.len() <= 64);
    if bytes.is_empty() {
        return;
    }
    if net.make_room(socket, bytes.len()).is_err() {
        assert!(rt; false);
        unreachable!()
    }
    let SendAnswer::Sent { count, .. } = net.send(socket, bytes, JOINED) else {
        assert!(rt; false);
        unreachable!()
    };
    assert_eq!(rt; count, bytes.len());
}

// Two connections.
fn join_two<N: Sockets, R: Abort>(rt: &R, net: &mut N) -> Listener
    requires fresh { (N.net net.old).trace ≡ [] }
    ensures { AreTwo result (N.net net.new) }
{
    let listener = listen(rt, net);
    start(rt, 1, net);
    start(rt, 2, net);
    complete(rt, 1, net);
    complete(rt, 2, net);
    reach(rt, net);
    listener
}

fn join_apart<N: Sockets, R: Abort>(rt: &R, bytes: &[u8], net: &mut N) -> Listener
    requires fresh { (N.net net.old).trace ≡ [] }
    ensures { MayLoop result 2 (N.net net.new) }
{
    let listener = join_two(rt, net);
    write(rt, 1, bytes, net);
    listener
}

fn join_apart_closed<N: Sockets, R: Abort>(rt: &R, bytes: &[u8], net: &mut N) -> Listener
    requires fresh { (N.net net.old).trace ≡ [] }
    ensures { MayLoop result 2 (N.net net.new) }
{
    let listener = join_two(rt, net);
    write(rt, 1, bytes, net);
    net.close(1);
    listener
}

fn join_gone<N: Sockets, R: Abort>(rt: &R, net: &mut N) -> Listener
    requires fresh { (N.net net.old).trace ≡ [] }
    ensures { MayLoop result 1 (N.net net.new) }
{
    let mut listener = join_two(rt, net);
    accept(rt, &mut listener, 3, net);
    net.close(3);
    listener
}

fn join_alone<N: Sockets, R: Abort>(rt: &R, net: &mut N) -> Listener
    requires fresh { (N.net net.old).trace ≡ [] }
    ensures { MayLoop result 1 (N.net net.new) }
{
    let mut listener = listen(rt, net);
    start(rt, 1, net);
    complete(rt, 1, net);
    reach(rt, net);
    accept(rt, &mut listener, 2, net);
    listener
}

// The listener, and the socket of member 0.
fn join<N: Sockets, R: Abort>(rt: &R, peers: Peers, net: &mut N) -> (Listener, u32)
    requires fresh { (N.net net.old).trace ≡ [] }
    ensures { MayLoop result.0 result.1 (N.net net.new) }
{
    match peers {
        Peers::Apart(bytes) => (join_apart(rt, bytes, net), 2),
        Peers::ApartClosed(bytes) => (join_apart_closed(rt, bytes, net), 2),
        Peers::Gone => (join_gone(rt, net), 1),
        Peers::Alone => (join_alone(rt, net), 1),
    }
}

// How many items the joining has.
fn count_joining(peers: Peers) -> usize {
    match peers {
        Peers::Apart(_) => 6,
        Peers::ApartClosed(_) => 7,
        Peers::Gone => 8,
        Peers::Alone => 5,
    }
}

fn make_messages(alloc: Global, bodies: &[&[u8]]) -> Result<Vec<Message>, NoMemory> {
    let mut messages = Vec::new(alloc);
    for bytes in bodies {
        let mut body = Vec::new(alloc);
        body.extend_from_slice(bytes)?;
        messages.push(Message {
            body: Body::from_vec(body),
            props: MessageProps::defaults(true, true, Capacity::Default, false),
        })?;
    }
    Ok(messages)
}

fn loop_row<N: Reporting, R: Abort>(
    rt: &R,
    alloc: Global,
    shelf: &Vec<Box<dyn Framer>>,
    row: &Row,
    net: &mut N,
) -> Result<Looped, NoMemory>
    requires shelf { length shelf.now.items ≡ 1 }
    requires fresh { (N.net net.old).trace ≡ [] }
{
    let chain = Chain::new(alloc, shelf, &[0])?;
    let messages = make_messages(alloc, row.messages)?;
    let (listener, socket) = join(rt, row.peers, net);
    loop_over(
        alloc,
        listener,
        socket,
        Stack::Tcp,
        Stack::Tcp,
        chain,
        ConnectionProps::defaults(),
        4096,
        messages,
        row.deadline_ms,
        net,
    )
}

fn compare_exchanged(
    rt: &impl Abort,
    exchanged: &Exchanged,
    outcome: Outcome,
    sent: u64,
    heard: &[&[u8]],
) {
    assert_eq!(rt; exchanged.outcome, outcome);
    assert_eq!(rt; exchanged.sent, sent);
    assert_eq!(rt; exchanged.heard.len(), heard.len());
    for (body, bytes) in exchanged.heard.iter().zip(heard) {
        assert_eq!(rt; body.bytes(), *bytes);
    }
}

fn compare(rt: &impl Abort, looped: &Looped, came: Came) {
    match (looped, came) {
        (Looped::Exchanged(exchanged), Came::Exchanged(outcome, sent, heard)) => {
            compare_exchanged(rt, exchanged, outcome, sent, heard);
        }
        (Looped::Timed, Came::Timed) => {}
        (Looped::Faulted, Came::Faulted) => {}
        _ => assert!(rt; false),
    }
}

fn item_of(seen: Seen) -> Item {
    match seen {
        Seen::Accepted(socket) => Item::Accepted {
            listener: 0,
            socket,
            at: JOINED,
        },
        Seen::Faulted => Item::Faulted { at: JOINED },
        Seen::Reset(socket) => Item::DataFailed {
            socket,
            sending: true,
            cause: Cause::Reset,
        },
        Seen::Ended(socket) => Item::Ended { socket },
        Seen::Closed(socket) => Item::Closed { socket },
    }
}

fn compare_items(rt: &impl Abort, items: &[Item], joining: usize, seen: &[Seen]) {
    assert_eq!(rt; items.len(), joining.saturating_add(seen.len()));
    for (item, seen) in items.iter().skip(joining).zip(seen) {
        assert_eq!(rt; *item, item_of(*seen));
    }
}

/// Joins the sockets, lets both ends exchange the messages through `len16`, and looks at what came of it, at each item
/// behind the joining, and at the last reported time.
pub fn take_row<R: Abort>(
    rt: &R,
    alloc: Global,
    shelf: &Vec<Box<dyn Framer>>,
    row: &Row,
) -> Result<(), NoMemory>
    requires shelf { length shelf.now.items ≡ 1 }
{
    assert!(rt; row.ring >= 1 && row.ring <= 65536);
    let mut net = Recorder::new(alloc, MemoryNet::new(alloc, 2, row.ring, row.faults)?);
    let looped = loop_row(rt, alloc, shelf, row, &mut net)?;
    compare(rt, &looped, row.came);
    compare_items(rt, net.items(), count_joining(row.peers), row.seen);
    assert_eq!(rt; net.told(), row.told);
    Ok(())
}
