ghost use Rattle.std.specs.Prelude.{◌≡◌, ◌≤◌, ◌<◌, ◌^◌, ◌-◌, true, false};
ghost use Rattle.taps_connection_rows.specs.Usable.{IsUsable, IsOpen};

use crate::made::{make_message, make_props, make_zeros};
use std::alloc::Global;
use std::process::Abort;
use taps_base::Body;
use taps_chain::{BadAt, Heard};
use taps_connection::{Connection, Established, Pulled, Pushed};
use taps_framer::Framer;
use taps_message::Message;
use taps_socket::Sockets;

/// A call on a connection, and what comes of it.
#[derive(Clone, Copy)]
pub enum Step {
    /// A message of so many bytes, final or not, is accepted at 0.
    Send(usize, bool),
    /// One of so many bytes 0 is.
    SendZeros(usize),
    /// One of so many bytes with a lifetime in milliseconds is.
    SendFor(usize, u64),
    /// What comes of driving out up to a time.
    Out(u64, Pushed),
    /// More has to come; what then comes of driving in up to a time.
    In(u64, Pulled),
    /// Room for so many bytes that are to come is made.
    Room(u64),
    /// Room for as many as a receive asks for is made, and that is so many.
    RoomFor(u64),
    /// A message of so many bytes, which count from 0 to 250, is heard.
    Hears(usize),
    /// A message of so many bytes is heard.
    HearsMuch(usize),
    /// More has to come.
    Needs,
    /// What is heard is bad: the message, the layer and the place.
    Bad(u64, u8, u64),
}

/// Whether the connection may be used further, and whether the other end ended its sending side.
#[derive(Clone, Copy)]
pub struct Going {
    pub goes_on: bool,
    pub ended: bool,
}

fn goes_on(ended: bool) -> Going
    ensures { result ≡ record { goes_on = true; ended = ended } }
{
    Going {
        goes_on: true,
        ended,
    }
}

fn stops(ended: bool) -> Going
    ensures { result ≡ record { goes_on = false; ended = ended } }
{
    Going {
        goes_on: false,
        ended,
    }
}

/// Makes the call, and compares what comes of it.
pub fn take_step<N: Sockets, R: Abort>(
    rt: &R,
    alloc: Global,
    connection: &mut Connection<'_, Established>,
    net: &mut N,
    ended: bool,
    step: Step,
) -> Going
    requires usable { IsUsable ⟦<dyn Framer as Framer>⟧ connection.old (N.net net.old) ended }
    ensures opened { IsOpen connection.new (N.net net.new) }
    ensures usable { result.goes_on ≡ true →
        IsUsable ⟦<dyn Framer as Framer>⟧ connection.new (N.net net.new) result.ended }
{
    if net.reserve(2).is_err() {
        assert!(rt; false);
        return stops(ended);
    }
    match step {
        Step::Send(length, is_final) => {
            let message = make_message(alloc, length, make_props(None, is_final));
            send(rt, connection, net, ended, message.ok())
        }
        Step::SendZeros(length) => {
            let message = make_zeros(alloc, length, make_props(None, false));
            send(rt, connection, net, ended, message.ok())
        }
        Step::SendFor(length, lifetime) => {
            let message = make_message(alloc, length, make_props(Some(lifetime), false));
            send(rt, connection, net, ended, message.ok())
        }
        Step::Out(until, answer) => drive_out(rt, connection, net, ended, until, answer),
        Step::In(until, answer) => drive_in(rt, connection, net, ended, until, answer),
        Step::Room(bytes) => make_room(rt, connection, net, ended, bytes),
        Step::RoomFor(piece) => {
            assert_eq!(rt; connection.piece(), piece);
            make_room(rt, connection, net, ended, piece)
        }
        Step::Hears(length) => hear(rt, connection, net, ended, Expected::Counted(length)),
        Step::HearsMuch(length) => hear(rt, connection, net, ended, Expected::Any(length)),
        Step::Needs => hear(rt, connection, net, ended, Expected::Need),
        Step::Bad(message, layer, place) => {
            let bad = BadAt {
                message,
                layer,
                place,
            };
            hear(rt, connection, net, ended, Expected::Bad(bad))
        }
    }
}

// A message is accepted.
fn send<N: Sockets, R: Abort>(
    rt: &R,
    connection: &mut Connection<'_, Established>,
    net: &mut N,
    ended: bool,
    message: Option<Message>,
) -> Going
    requires usable { IsUsable ⟦<dyn Framer as Framer>⟧ connection.old (N.net net.old) ended }
    ensures opened { IsOpen connection.new (N.net net.new) }
    ensures usable { result.goes_on ≡ true →
        IsUsable ⟦<dyn Framer as Framer>⟧ connection.new (N.net net.new) result.ended }
{
    let _ = net;
    match message {
        Some(message) => {
            assert!(rt; connection.send(message, 0).is_ok());
            goes_on(ended)
        }
        None => {
            assert!(rt; false);
            stops(ended)
        }
    }
}

// Driving out comes to this answer.
fn drive_out<N: Sockets, R: Abort>(
    rt: &R,
    connection: &mut Connection<'_, Established>,
    net: &mut N,
    ended: bool,
    until: u64,
    expected: Pushed,
) -> Going
    requires usable { IsUsable ⟦<dyn Framer as Framer>⟧ connection.old (N.net net.old) ended }
    requires room { 2 ≤ (N.net net.old).spare }
    ensures opened { IsOpen connection.new (N.net net.new) }
    ensures usable { result.goes_on ≡ true →
        IsUsable ⟦<dyn Framer as Framer>⟧ connection.new (N.net net.new) result.ended }
{
    if until >= 9223372036854775808 {
        return stops(ended);
    }
    let answer = connection.drive_out(net, until);
    assert_eq!(rt; answer, expected);
    match answer {
        Pushed::Failed(_) => stops(ended),
        _ => goes_on(ended),
    }
}

// Room for bytes that are to come is made.
fn make_room<N: Sockets, R: Abort>(
    rt: &R,
    connection: &mut Connection<'_, Established>,
    net: &mut N,
    ended: bool,
    bytes: u64,
) -> Going
    requires usable { IsUsable ⟦<dyn Framer as Framer>⟧ connection.old (N.net net.old) ended }
    ensures opened { IsOpen connection.new (N.net net.new) }
    ensures usable { result.goes_on ≡ true →
        IsUsable ⟦<dyn Framer as Framer>⟧ connection.new (N.net net.new) result.ended }
{
    let _ = net;
    if bytes > 65536 {
        assert!(rt; false);
        return stops(ended);
    }
    assert!(rt; connection.make_room_in(bytes).is_ok());
    goes_on(ended)
}

// More has to come, and driving in comes to this answer.
fn drive_in<N: Sockets, R: Abort>(
    rt: &R,
    connection: &mut Connection<'_, Established>,
    net: &mut N,
    ended: bool,
    until: u64,
    expected: Pulled,
) -> Going
    requires usable { IsUsable ⟦<dyn Framer as Framer>⟧ connection.old (N.net net.old) ended }
    requires room { 2 ≤ (N.net net.old).spare }
    ensures opened { IsOpen connection.new (N.net net.new) }
    ensures usable { result.goes_on ≡ true →
        IsUsable ⟦<dyn Framer as Framer>⟧ connection.new (N.net net.new) result.ended }
{
    if until >= 9223372036854775808 || ended || connection.given() == u64::MAX {
        assert!(rt; false);
        return stops(ended);
    }
    let Heard::Need = connection.receive() else {
        assert!(rt; false);
        return stops(ended);
    };
    let answer = connection.drive_in(net, until);
    assert_eq!(rt; answer, expected);
    match answer {
        Pulled::Failed(_) => stops(ended),
        Pulled::Ended => goes_on(true),
        Pulled::Got => goes_on(ended),
        Pulled::Timed(_) => goes_on(ended),
        Pulled::NoMemory => goes_on(ended),
    }
}

/// What is to be heard.
#[derive(Clone, Copy)]
pub enum Expected {
    /// A message of so many bytes, which count from 0 to 250.
    Counted(usize),
    /// A message of so many bytes.
    Any(usize),
    /// Nothing yet.
    Need,
    /// What came is bad.
    Bad(BadAt),
}

// This is heard.
fn hear<N: Sockets, R: Abort>(
    rt: &R,
    connection: &mut Connection<'_, Established>,
    net: &mut N,
    ended: bool,
    expected: Expected,
) -> Going
    requires usable { IsUsable ⟦<dyn Framer as Framer>⟧ connection.old (N.net net.old) ended }
    ensures opened { IsOpen connection.new (N.net net.new) }
    ensures usable { result.goes_on ≡ true →
        IsUsable ⟦<dyn Framer as Framer>⟧ connection.new (N.net net.new) result.ended }
{
    let _ = net;
    if connection.given() == u64::MAX {
        assert!(rt; false);
        return stops(ended);
    }
    let heard = connection.receive();
    compare(rt, &heard, expected);
    goes_on(ended)
}

fn compare(rt: &impl Abort, heard: &Heard, expected: Expected) {
    match heard {
        Heard::Message(body) => compare_body(rt, body, expected),
        Heard::Need => assert!(rt; matches!(expected, Expected::Need)),
        Heard::Bad(bad) => match expected {
            Expected::Bad(at) => assert_eq!(rt; *bad, at),
            _ => assert!(rt; false),
        },
        Heard::NoMemory => assert!(rt; false),
    }
}

/// Compares what was heard.
pub fn compare_body(rt: &impl Abort, body: &Body, expected: Expected) {
    match expected {
        Expected::Counted(length) => {
            assert_eq!(rt; body.bytes().len(), length);
            for (i, byte) in body.bytes().iter().enumerate() {
                assert_eq!(rt; *byte as usize, i % 251);
            }
        }
        Expected::Any(length) => assert_eq!(rt; body.bytes().len(), length),
        Expected::Need | Expected::Bad(_) => assert!(rt; false),
    }
}
