// What `bench/connection` measures: messages of 1,024 bytes out and in, and the same bytes over the sockets alone.
ghost use Rattle.std.specs.Prelude.{◌≡◌, ◌≤◌, ◌-◌, true, false, length};
ghost use Rattle.taps_connection_rows.specs.Usable.{IsUsable, IsOpen};
ghost use Rattle.taps_connection_rows.specs.Meetings.{IsMet};

use crate::connection_rows::{connect, repeat_step, take_if};
use crate::interpreter::{Going, Step};
use crate::meet;
use std::alloc::{AllocError, Global};
use std::process::Abort;
use std::test::Fail;
use taps_base::NoMemory;
use taps_connection::{Connection, Established, Pulled, Pushed};
use taps_framer::Framer;
use taps_frames::Len16;
use taps_script::ScriptSockets;
use taps_socket::{RecvAnswer, SendAnswer, Sockets};
use taps_stack::Stack;

const ECHO: &[u8] = b"leaf 0 completes 0\npeer echo";

// A piece has 32 messages of 1,024 bytes through `len16`.
const PIECE: u64 = 32832;

const UNTIL: u64 = 60000;

// The messages from this number on go out, up to the 256th.
fn send_out<N: Sockets, R: Abort>(
    rt: &R,
    alloc: Global,
    connection: &mut Connection<'_, Established>,
    net: &mut N,
    going: Going,
    number: u64,
) -> Going
    requires opened { IsOpen connection.old (N.net net.old) }
    requires usable { going.goes_on ≡ true →
        IsUsable ⟦<dyn Framer as Framer>⟧ connection.old (N.net net.old) going.ended }
    ensures opened { IsOpen connection.new (N.net net.new) }
    ensures usable { result.goes_on ≡ true →
        IsUsable ⟦<dyn Framer as Framer>⟧ connection.new (N.net net.new) result.ended }
{
    if number >= 256 {
        return going;
    }
    let step = Step::Out(UNTIL, Pushed::Sent(number));
    let then = take_if(rt, alloc, connection, net, going, step);
    send_out(rt, alloc, connection, net, then, number + 1)
}

// So many pieces come in, and the messages of each are heard.
fn hear_pieces<N: Sockets, R: Abort>(
    rt: &R,
    alloc: Global,
    connection: &mut Connection<'_, Established>,
    net: &mut N,
    going: Going,
    pieces: u64,
) -> Going
    requires opened { IsOpen connection.old (N.net net.old) }
    requires usable { going.goes_on ≡ true →
        IsUsable ⟦<dyn Framer as Framer>⟧ connection.old (N.net net.old) going.ended }
    ensures opened { IsOpen connection.new (N.net net.new) }
    ensures usable { result.goes_on ≡ true →
        IsUsable ⟦<dyn Framer as Framer>⟧ connection.new (N.net net.new) result.ended }
{
    if pieces == 0 {
        return going;
    }
    let got = Step::In(UNTIL, Pulled::Got);
    let come = take_if(rt, alloc, connection, net, going, got);
    let heard = repeat_step(rt, alloc, connection, net, come, 32, Step::HearsMuch(1024));
    hear_pieces(rt, alloc, connection, net, heard, pieces - 1)
}

// 256 messages of 1,024 bytes go out of a connection and come back.
fn exchange<N: Sockets, R: Abort>(
    rt: &R,
    alloc: Global,
    connection: Connection<'_, Established>,
    net: &mut N,
)
    requires opened { IsOpen connection (N.net net.old) }
    requires usable { IsUsable ⟦<dyn Framer as Framer>⟧ connection (N.net net.old) false }
{
    let mut connection = connection;
    let going = Going {
        goes_on: true,
        ended: false,
    };
    let step = Step::SendZeros(1024);
    let accepted = repeat_step(rt, alloc, &mut connection, net, going, 256, step);
    let sent = send_out(rt, alloc, &mut connection, net, accepted, 0);
    let heard = hear_pieces(rt, alloc, &mut connection, net, sent, 8);
    assert!(rt; heard.goes_on);
    let _closed = connection.abort(net);
}

fn exchange_once(
    rt: &impl Abort,
    alloc: Global,
    shelf: &Vec<Box<dyn Framer>>,
) -> Result<(), NoMemory>
    requires { length shelf.now.items ≡ 1 }
{
    let Ok(mut net) = ScriptSockets::read(alloc, ECHO) else {
        assert!(rt; false);
        return Ok(());
    };
    match connect(alloc, shelf, Stack::Tcp, true, PIECE, &mut net)? {
        Some(connection) => exchange(rt, alloc, connection, &mut net),
        None => assert!(rt; false),
    }
    Ok(())
}

fn exchange_times(rt: &impl Abort, alloc: Global, times: u64) -> Result<(), Fail> {
    let mut shelf: Vec<Box<dyn Framer>> = Vec::new(alloc);
    shelf.push(Box::new(alloc, Len16)?)?;
    assert_eq!(rt; shelf.len(), 1);
    for _ in 0..times {
        exchange_once(rt, alloc, &shelf)?;
    }
    Ok(())
}

#[test]
fn messages_of_4_mib(rt: HostRuntime) -> Result<(), Fail> {
    exchange_times(&rt, rt.alloc(), 16)
}

#[test]
fn messages_of_8_mib(rt: HostRuntime) -> Result<(), Fail> {
    exchange_times(&rt, rt.alloc(), 32)
}

// A frame of 1,026 bytes is sent whole.
fn send_frame<N: Sockets>(net: &mut N, socket: u32, frame: &[u8]) -> bool
    requires met { IsMet true (N.net net.old) socket }
    requires frame { length frame.now ≡ 1026 }
    ensures { result ≡ true → IsMet true (N.net net.new) socket }
{
    if net.reserve(2).is_err() {
        return false;
    }
    if net.make_room(socket, 1026).is_err() {
        return false;
    }
    match net.send(socket, frame, UNTIL) {
        SendAnswer::Sent { count, .. } => count == 1026,
        _ => false,
    }
}

fn send_frames<N: Sockets>(net: &mut N, socket: u32, frame: &[u8], times: u64) -> bool
    requires met { IsMet true (N.net net.old) socket }
    requires frame { length frame.now ≡ 1026 }
    ensures { result ≡ true → IsMet true (N.net net.new) socket }
{
    if times == 0 {
        return true;
    }
    if !send_frame(net, socket, frame) {
        return false;
    }
    send_frames(net, socket, frame, times - 1)
}

// A whole piece comes.
fn take_piece<N: Sockets>(net: &mut N, socket: u32, piece: &mut [u8]) -> bool
    requires met { IsMet true (N.net net.old) socket }
    requires piece { length piece.old ≡ 32832 }
    ensures { result ≡ true → IsMet true (N.net net.new) socket }
{
    if net.reserve(2).is_err() {
        return false;
    }
    match net.recv(socket, piece, UNTIL) {
        RecvAnswer::Got { count, .. } => count == 32832,
        _ => false,
    }
}

fn take_pieces<N: Sockets>(net: &mut N, socket: u32, piece: &mut [u8], times: u64) -> bool
    requires met { IsMet true (N.net net.old) socket }
    requires piece { length piece.old ≡ 32832 }
    ensures { result ≡ true → IsMet true (N.net net.new) socket }
{
    if times == 0 {
        return true;
    }
    if !take_piece(net, socket, piece) {
        return false;
    }
    take_pieces(net, socket, piece, times - 1)
}

fn move_once(
    rt: &impl Abort,
    alloc: Global,
    frame: &[u8],
    piece: &mut [u8],
) -> Result<(), NoMemory> {
    assert_eq!(rt; (frame.len(), piece.len()), (1026, 32832));
    let Ok(mut net) = ScriptSockets::read(alloc, ECHO) else {
        assert!(rt; false);
        return Ok(());
    };
    let Some(socket) = meet(alloc, Stack::Tcp, &mut net)? else {
        assert!(rt; false);
        return Ok(());
    };
    if send_frames(&mut net, socket, frame, 256) {
        assert!(rt; take_pieces(&mut net, socket, piece, 8));
    } else {
        assert!(rt; false);
    }
    Ok(())
}

fn zeros(alloc: Global, length: usize) -> Result<Vec<u8>, AllocError> {
    vec![in alloc; 0; length]
}

fn move_times(rt: &impl Abort, alloc: Global, times: u64) -> Result<(), Fail> {
    let frame = zeros(alloc, 1026)?;
    let mut piece = zeros(alloc, 32832)?;
    for _ in 0..times {
        move_once(rt, alloc, &frame, &mut piece)?;
    }
    Ok(())
}

#[test]
fn bytes_of_4_mib(rt: HostRuntime) -> Result<(), Fail> {
    move_times(&rt, rt.alloc(), 16)
}

#[test]
fn bytes_of_8_mib(rt: HostRuntime) -> Result<(), Fail> {
    move_times(&rt, rt.alloc(), 32)
}
