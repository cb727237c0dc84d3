ghost use Rattle.std.specs.Prelude.{◌≡◌, ◌≤◌, [], true, false, length, IfOk, IfSome};
ghost use Rattle.taps_socket.specs.RaceSockets.{pending_sockets};
ghost use Rattle.taps_connection_rows.specs.Usable.{IsUsable, IsOpen};

use crate::interpreter::{Going, Step, take_step};
use crate::{LongSockets, meet};
use std::alloc::{AllocError, Global};
use std::process::Abort;
use std::test::Fail;
use taps_base::NoMemory;
use taps_chain::Chain;
use taps_connection::{Connection, Established, Pulled, Pushed};
use taps_framer::Framer;
use taps_frames::Len16;
use taps_property::ConnectionProps;
use taps_script::ScriptSockets;
use taps_socket::{Cause, Item, Sockets};
use taps_stack::Stack;

// A script; the stack; whether messages go through `len16`; how many bytes are asked for at once; the calls of a connection over
// its socket; and how often its sending side is ended by them.
type Row = (&'static [u8], Stack, bool, u64, &'static [Step], usize);

static OUT: [Row; 8] = [
    // A final message ends the stream in the same call, and no other does.
    (
        b"leaf 0 completes 0",
        Stack::Tcp,
        true,
        65536,
        &[
            Step::Out(50, Pushed::Empty),
            Step::Send(3, false),
            Step::Send(0, false),
            Step::Out(50, Pushed::Sent(0)),
            Step::Out(50, Pushed::Sent(1)),
            Step::Out(50, Pushed::Empty),
        ],
        0,
    ),
    (
        b"leaf 0 completes 0",
        Stack::Tcp,
        true,
        65536,
        &[
            Step::Send(3, false),
            Step::Send(1, true),
            Step::Out(50, Pushed::Sent(0)),
            Step::Out(50, Pushed::Sent(1)),
        ],
        1,
    ),
    // With no layer the stream is one message; a second one cannot be encoded.
    (
        b"leaf 0 completes 0",
        Stack::Unix,
        false,
        65536,
        &[
            Step::Send(3, false),
            Step::Send(4, false),
            Step::Send(0, true),
            Step::Out(50, Pushed::Sent(0)),
            Step::Out(
                50,
                Pushed::NotSpeakable {
                    number: 1,
                    layer: 0,
                },
            ),
            Step::Out(
                50,
                Pushed::NotSpeakable {
                    number: 2,
                    layer: 0,
                },
            ),
            Step::Out(50, Pushed::Empty),
        ],
        1,
    ),
    (
        b"leaf 0 completes 0\ntake 65536",
        Stack::Tcp,
        false,
        65536,
        &[
            Step::Send(4194304, false),
            Step::Out(50, Pushed::Sent(0)),
            Step::Out(50, Pushed::Empty),
        ],
        1,
    ),
    // A datagram has 1 to 65,507 bytes; none ends anything.
    (
        b"leaf 0 completes 0\ntake 1",
        Stack::Udp,
        false,
        65536,
        &[
            Step::Send(0, false),
            Step::Send(65507, false),
            Step::Send(65508, false),
            Step::Send(1, true),
            Step::Out(
                50,
                Pushed::NotSpeakable {
                    number: 0,
                    layer: 0,
                },
            ),
            Step::Out(50, Pushed::Sent(1)),
            Step::Out(
                50,
                Pushed::NotSpeakable {
                    number: 2,
                    layer: 0,
                },
            ),
            Step::Out(50, Pushed::Sent(3)),
            Step::Out(50, Pushed::Empty),
        ],
        0,
    ),
    // Through a layer an empty message is a datagram, and one of 65,506 bytes is too long.
    (
        b"leaf 0 completes 0",
        Stack::Udp,
        true,
        65536,
        &[
            Step::Send(0, false),
            Step::Send(65505, false),
            Step::Send(65506, false),
            Step::Out(50, Pushed::Sent(0)),
            Step::Out(50, Pushed::Sent(1)),
            Step::Out(
                50,
                Pushed::NotSpeakable {
                    number: 2,
                    layer: 0,
                },
            ),
        ],
        0,
    ),
    // A begun message goes out later, though its lifetime has passed then; one behind it has expired.
    (
        b"leaf 0 completes 0\npeer holds 60",
        Stack::Tcp,
        true,
        65536,
        &[
            Step::SendFor(3, 50),
            Step::SendFor(3, 50),
            Step::SendFor(3, 61),
            Step::Out(40, Pushed::Timed(40)),
            Step::Out(50, Pushed::Timed(50)),
            Step::Out(99, Pushed::Sent(0)),
            Step::Out(99, Pushed::Expired(1)),
            Step::Out(99, Pushed::Sent(2)),
            Step::Out(99, Pushed::Empty),
        ],
        0,
    ),
    // After a failure nothing may be called but `abort`.
    (
        b"leaf 0 completes 0\npeer fails 0 reset",
        Stack::Tcp,
        true,
        65536,
        &[
            Step::Send(3, true),
            Step::Out(50, Pushed::Failed(Cause::Reset)),
        ],
        0,
    ),
];

static IN: [Row; 9] = [
    // The messages of a stream, in any cutting; the rest is no message.
    (
        b"leaf 0 completes 0\ngive 2\npeer sends 5 00030001020000000100\npeer sends 9 0005\npeer ends 20",
        Stack::Tcp,
        true,
        65536,
        &[
            Step::In(4, Pulled::Timed(4)),
            Step::In(50, Pulled::Got),
            Step::In(50, Pulled::Got),
            Step::In(50, Pulled::Got),
            Step::Hears(3),
            Step::In(50, Pulled::Got),
            Step::Hears(0),
            Step::In(50, Pulled::Got),
            Step::Hears(1),
            Step::In(50, Pulled::Got),
            Step::Needs,
            Step::In(50, Pulled::Ended),
            Step::Needs,
            Step::Needs,
        ],
        0,
    ),
    (
        b"leaf 0 completes 0\npeer sends 5 0001000000",
        Stack::Tcp,
        true,
        1,
        &[
            Step::In(50, Pulled::Got),
            Step::In(50, Pulled::Got),
            Step::In(50, Pulled::Got),
            Step::Hears(1),
            Step::In(50, Pulled::Got),
            Step::In(50, Pulled::Got),
            Step::Hears(0),
            Step::In(50, Pulled::Timed(50)),
        ],
        0,
    ),
    // With no layer the stream is one message, once, when it has ended.
    (
        b"leaf 0 completes 0\npeer sends 5 000102\npeer sends 6 0304\npeer ends 9",
        Stack::Tcp,
        false,
        65536,
        &[
            Step::In(5, Pulled::Got),
            Step::Needs,
            Step::In(50, Pulled::Got),
            Step::Needs,
            Step::In(50, Pulled::Ended),
            Step::Hears(5),
            Step::Needs,
        ],
        0,
    ),
    (
        b"leaf 0 completes 0\npeer ends 0",
        Stack::Unix,
        false,
        65536,
        &[Step::In(50, Pulled::Ended), Step::Hears(0), Step::Needs],
        0,
    ),
    // Each datagram is a message, or bad, once.
    (
        b"leaf 0 completes 0\npeer sends 5 000100\npeer sends 5 0005\npeer sends 5 00010000\npeer sends 5 00020001",
        Stack::Udp,
        true,
        65536,
        &[
            Step::In(50, Pulled::Got),
            Step::Hears(1),
            Step::In(50, Pulled::Got),
            Step::Bad(1, 0, 2),
            Step::Needs,
            Step::In(50, Pulled::Got),
            Step::Bad(2, 0, 3),
            Step::In(50, Pulled::Got),
            Step::Hears(2),
            Step::In(50, Pulled::Timed(50)),
        ],
        0,
    ),
    (
        b"leaf 0 completes 0\ngive 1\npeer sends 5 0001\npeer sends 5 00",
        Stack::Udp,
        false,
        65536,
        &[
            Step::In(50, Pulled::Got),
            Step::Hears(2),
            Step::In(50, Pulled::Got),
            Step::Hears(1),
            Step::Needs,
        ],
        0,
    ),
    // What is sent comes back.
    (
        b"leaf 0 completes 0\npeer echo",
        Stack::Tcp,
        true,
        65536,
        &[
            Step::Send(0, false),
            Step::Send(65535, false),
            Step::Send(7, false),
            Step::Out(50, Pushed::Sent(0)),
            Step::Out(50, Pushed::Sent(1)),
            Step::Out(50, Pushed::Sent(2)),
            Step::In(50, Pulled::Got),
            Step::Hears(0),
            Step::In(50, Pulled::Got),
            Step::Hears(65535),
            Step::Hears(7),
            Step::In(50, Pulled::Timed(50)),
        ],
        0,
    ),
    (
        b"leaf 0 completes 0\npeer echo\ngive 1",
        Stack::Udp,
        false,
        65536,
        &[
            Step::Send(65507, false),
            Step::Send(1, false),
            Step::Out(50, Pushed::Sent(0)),
            Step::Out(50, Pushed::Sent(1)),
            Step::In(50, Pulled::Got),
            Step::Hears(65507),
            Step::In(50, Pulled::Got),
            Step::Hears(1),
            Step::In(50, Pulled::Timed(50)),
        ],
        0,
    ),
    (
        b"leaf 0 completes 0\npeer fails 5 reset",
        Stack::Tcp,
        true,
        65536,
        &[Step::In(50, Pulled::Failed(Cause::Reset))],
        0,
    ),
];

// Room is made before, for more or fewer bytes than come, at any time; it changes nothing of what is heard.
const ROOM: [Row; 4] = [
    (
        b"leaf 0 completes 0\ngive 2\npeer sends 5 0003000102\npeer ends 20",
        Stack::Tcp,
        true,
        4096,
        &[
            Step::RoomFor(4096),
            Step::RoomFor(4096),
            Step::In(50, Pulled::Got),
            Step::Room(0),
            Step::Room(1),
            Step::In(50, Pulled::Got),
            Step::Room(65536),
            Step::In(50, Pulled::Got),
            Step::Room(65536),
            Step::Hears(3),
            Step::RoomFor(4096),
            Step::In(50, Pulled::Ended),
            Step::Room(65536),
            Step::Needs,
        ],
        0,
    ),
    (
        b"leaf 0 completes 0\npeer sends 5 000100",
        Stack::Tcp,
        true,
        1,
        &[
            Step::RoomFor(1),
            Step::In(50, Pulled::Got),
            Step::RoomFor(1),
            Step::In(50, Pulled::Got),
            Step::RoomFor(1),
            Step::In(50, Pulled::Got),
            Step::Hears(1),
        ],
        0,
    ),
    (
        b"leaf 0 completes 0\npeer sends 5 000102\npeer ends 9",
        Stack::Tcp,
        false,
        65536,
        &[
            Step::RoomFor(65536),
            Step::In(50, Pulled::Got),
            Step::Room(3),
            Step::Room(65536),
            Step::In(50, Pulled::Ended),
            Step::Hears(3),
            Step::Room(65536),
            Step::Needs,
        ],
        0,
    ),
    (
        b"leaf 0 completes 0\npeer sends 5 000100\npeer sends 5 0005",
        Stack::Udp,
        true,
        1,
        &[
            Step::RoomFor(65535),
            Step::In(50, Pulled::Got),
            Step::Room(65536),
            Step::Hears(1),
            Step::RoomFor(65535),
            Step::In(50, Pulled::Got),
            Step::Bad(1, 0, 2),
        ],
        0,
    ),
];

// A connection over the socket of one leaf, if it wins.
pub fn connect<'a, N: Sockets>(
    alloc: Global,
    shelf: &'a Vec<Box<dyn Framer>>,
    stack: Stack,
    layered: bool,
    piece: u64,
    net: &mut N,
) -> Result<Option<Connection<'a, Established>>, NoMemory>
    requires shelf { length shelf.now.items ≡ 1 }
    requires idle { pending_sockets (N.net net.old).trace ≡ [] }
    requires piece { (1 ≤ piece) × (piece ≤ 65536) }
    ensures { IfOk result (λ made. IfSome made (λ connection.
        IsUsable ⟦<dyn Framer as Framer>⟧ connection (N.net net.new) false)) }
{
    let Some(socket) = meet(alloc, stack, net)? else {
        return Ok(None);
    };
    let places: &[usize] = if layered { &[0] } else { &[] };
    let chain = Chain::new(alloc, shelf, places)?;
    let props = ConnectionProps::defaults();
    Ok(Some(Connection::new(alloc, socket, stack, chain, props, piece, 0)?))
}

fn count_shuts(items: &[Item]) -> usize {
    items
        .iter()
        .filter(|item| matches!(item, Item::Shut { .. }))
        .count()
}

/// How many sockets were closed.
pub fn count_closes(items: &[Item]) -> usize {
    items
        .iter()
        .filter(|item| matches!(item, Item::Closed { .. }))
        .count()
}

// Makes the call as long as the connection may be used.
pub fn take_if<N: Sockets, R: Abort>(
    rt: &R,
    alloc: Global,
    connection: &mut Connection<'_, Established>,
    net: &mut N,
    going: Going,
    step: Step,
) -> Going
    requires opened { IsOpen connection.old (N.net net.old) }
    requires usable { going.goes_on ≡ true →
        IsUsable ⟦<dyn Framer as Framer>⟧ connection.old (N.net net.old) going.ended }
    ensures opened { IsOpen connection.new (N.net net.new) }
    ensures usable { result.goes_on ≡ true →
        IsUsable ⟦<dyn Framer as Framer>⟧ connection.new (N.net net.new) result.ended }
{
    if going.goes_on {
        take_step(rt, alloc, connection, net, going.ended, step)
    } else {
        going
    }
}

// Makes a call so often.
pub fn repeat_step<N: Sockets, R: Abort>(
    rt: &R,
    alloc: Global,
    connection: &mut Connection<'_, Established>,
    net: &mut N,
    going: Going,
    times: u64,
    step: Step,
) -> Going
    requires opened { IsOpen connection.old (N.net net.old) }
    requires usable { going.goes_on ≡ true →
        IsUsable ⟦<dyn Framer as Framer>⟧ connection.old (N.net net.old) going.ended }
    ensures opened { IsOpen connection.new (N.net net.new) }
    ensures usable { result.goes_on ≡ true →
        IsUsable ⟦<dyn Framer as Framer>⟧ connection.new (N.net net.new) result.ended }
{
    if times == 0 {
        return going;
    }
    let then = take_if(rt, alloc, connection, net, going, step);
    repeat_step(rt, alloc, connection, net, then, times - 1, step)
}

// Makes the calls.
fn take_steps<N: Sockets, R: Abort>(
    rt: &R,
    alloc: Global,
    connection: &mut Connection<'_, Established>,
    net: &mut N,
    going: Going,
    steps: &[Step],
)
    requires opened { IsOpen connection.old (N.net net.old) }
    requires usable { going.goes_on ≡ true →
        IsUsable ⟦<dyn Framer as Framer>⟧ connection.old (N.net net.old) going.ended }
    ensures { IsOpen connection.new (N.net net.new) }
{
    if let [step, others @ ..] = steps {
        let then = take_if(rt, alloc, connection, net, going, *step);
        take_steps(rt, alloc, connection, net, then, others);
    }
}

// Makes a call so often and then the others, and aborts the connection.
fn use_up<N: Sockets, R: Abort>(
    rt: &R,
    alloc: Global,
    connection: Connection<'_, Established>,
    net: &mut N,
    times: u64,
    first: Step,
    steps: &[Step],
)
    requires opened { IsOpen connection (N.net net.old) }
    requires usable { IsUsable ⟦<dyn Framer as Framer>⟧ connection (N.net net.old) false }
{
    let mut connection = connection;
    let going = Going {
        goes_on: true,
        ended: false,
    };
    let going = repeat_step(rt, alloc, &mut connection, net, going, times, first);
    take_steps(rt, alloc, &mut connection, net, going, steps);
    let _closed = connection.abort(net);
}

fn take_row(
    rt: &impl Abort,
    alloc: Global,
    shelf: &Vec<Box<dyn Framer>>,
    row: &Row,
) -> Result<(), NoMemory>
    requires { length shelf.now.items ≡ 1 }
{
    let (script, stack, layered, piece, steps, shuts) = *row;
    let Ok(mut net) = ScriptSockets::read(alloc, script) else {
        assert!(rt; false);
        return Ok(());
    };
    assert!(rt; piece >= 1 && piece <= 65536);
    match connect(alloc, shelf, stack, layered, piece, &mut net)? {
        Some(connection) => use_up(rt, alloc, connection, &mut net, 0, Step::Needs, steps),
        None => assert!(rt; false),
    }
    assert_eq!(rt; count_shuts(net.items()), shuts);
    assert_eq!(rt; count_closes(net.items()), 1);
    Ok(())
}

#[test]
fn messages_go_out(rt: HostRuntime) -> Result<(), Fail> {
    let mut shelf: Vec<Box<dyn Framer>> = Vec::new(rt.alloc());
    shelf.push(Box::new(rt.alloc(), Len16)?)?;
    assert_eq!(rt; shelf.len(), 1);
    for row in &OUT {
        take_row(&rt, rt.alloc(), &shelf, row)?;
    }
    Ok(())
}

#[test]
fn messages_come_in(rt: HostRuntime) -> Result<(), Fail> {
    let mut shelf: Vec<Box<dyn Framer>> = Vec::new(rt.alloc());
    shelf.push(Box::new(rt.alloc(), Len16)?)?;
    assert_eq!(rt; shelf.len(), 1);
    for row in &IN {
        take_row(&rt, rt.alloc(), &shelf, row)?;
    }
    Ok(())
}

#[test]
fn room_is_made_before(rt: HostRuntime) -> Result<(), Fail> {
    let mut shelf: Vec<Box<dyn Framer>> = Vec::new(rt.alloc());
    shelf.push(Box::new(rt.alloc(), Len16)?)?;
    assert_eq!(rt; shelf.len(), 1);
    for row in &ROOM {
        take_row(&rt, rt.alloc(), &shelf, row)?;
    }
    Ok(())
}

// How many bytes are asked for at once of a stream with no layer, how often they come before it ends, how often they
// are read first, and the calls behind these.
static LONG: [(u64, usize, u64, &[Step]); 3] = [
    // 4,194,304 bytes.
    (
        65536,
        64,
        64,
        &[
            Step::Needs,
            Step::In(50, Pulled::Ended),
            Step::HearsMuch(4194304),
            Step::Needs,
        ],
    ),
    // 4,194,305 bytes.
    (
        10565,
        397,
        396,
        &[
            Step::Needs,
            Step::In(50, Pulled::Got),
            Step::Bad(0, 0, 4194304),
            Step::Bad(0, 0, 4194304),
        ],
    ),
    // 4,259,840 bytes.
    (
        65536,
        65,
        64,
        &[
            Step::Needs,
            Step::In(50, Pulled::Got),
            Step::Bad(0, 0, 4194304),
            Step::Bad(0, 0, 4194304),
        ],
    ),
];

// A script by which so many bytes come, one at once, and the stream ends.
fn make_script(alloc: Global, bytes: usize) -> Result<Vec<u8>, AllocError> {
    let mut text = Vec::from_slice(alloc, b"leaf 0 completes 0\ngive 1\npeer sends 0 ")?;
    for _ in 0..bytes {
        text.extend_from_slice(b"00")?;
    }
    text.extend_from_slice(b"\npeer ends 0")?;
    Ok(text)
}

fn take_long(
    rt: &impl Abort,
    alloc: Global,
    shelf: &Vec<Box<dyn Framer>>,
    row: &(u64, usize, u64, &[Step]),
) -> Result<(), NoMemory>
    requires { length shelf.now.items ≡ 1 }
{
    let (piece, pieces, first, steps) = *row;
    let script = make_script(alloc, pieces)?;
    let Ok(net) = ScriptSockets::read(alloc, &script) else {
        assert!(rt; false);
        return Ok(());
    };
    assert!(rt; piece >= 1 && piece <= 65536);
    let mut net = LongSockets::new(net);
    let got = Step::In(50, Pulled::Got);
    match connect(alloc, shelf, Stack::Tcp, false, piece, &mut net)? {
        Some(connection) => use_up(rt, alloc, connection, &mut net, first, got, steps),
        None => assert!(rt; false),
    }
    Ok(())
}

#[test]
fn a_stream_of_4194304_bytes_is_a_message(rt: HostRuntime) -> Result<(), Fail> {
    let mut shelf: Vec<Box<dyn Framer>> = Vec::new(rt.alloc());
    shelf.push(Box::new(rt.alloc(), Len16)?)?;
    assert_eq!(rt; shelf.len(), 1);
    for row in &LONG {
        take_long(&rt, rt.alloc(), &shelf, row)?;
    }
    Ok(())
}
