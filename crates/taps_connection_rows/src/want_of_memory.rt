// A connection over scripted sockets whose memory runs out at any place. A call that finds none is made once more:
// nothing is lost, and the message goes out or is heard then. Where it finds none again the connection is given up. Its
// socket is closed once, whatever failed. Each test prints what was seen, for the check that lets each allocation fail.
ghost use Rattle.std.specs.Prelude.{◌≡◌, [], length, IfOk, OnErr};
ghost use Rattle.taps_stack.specs.StackTable.{is_stream};
ghost use Rattle.taps_connection.specs.Sources.{unread_of};
ghost use Rattle.taps_connection.specs.Unread.{IsWanting};
ghost use Rattle.taps_connection_rows.specs.Meetings.{IsMet};
ghost use Rattle.taps_connection_rows.specs.Usable.{IsUsable, IsOpen};

use crate::connection_rows::count_closes;
use crate::interpreter::{Expected, compare_body};
use crate::made::{make_message, make_props};
use crate::meet;
use std::alloc::Global;
use std::process::Abort;
use std::test::Fail;
use taps_base::NoMemory;
use taps_chain::{Chain, Heard};
use taps_connection::{Connection, Established, Pulled, Pushed};
use taps_framer::Framer;
use taps_frames::Len16;
use taps_message::PushError;
use taps_property::ConnectionProps;
use taps_script::{ScriptError, ScriptSockets};
use taps_socket::Sockets;
use taps_stack::Stack;

const UNTIL: u64 = 60000;

// What is to be done on a connection.
#[derive(Clone, Copy)]
enum Task {
    // A message of so many bytes is accepted.
    Send(usize),
    // That of this number goes out.
    Out(u64),
    // One of so many bytes is heard.
    Hear(usize),
}

// A script; the stack; whether messages go through `len16`; and the tasks.
type Row = (&'static [u8], Stack, bool, &'static [Task]);

const STREAM: Row = (
    b"leaf 0 completes 0\npeer echo",
    Stack::Tcp,
    true,
    &[
        Task::Send(300),
        Task::Send(0),
        Task::Out(0),
        Task::Out(1),
        Task::Hear(300),
        Task::Hear(0),
    ],
);

const ONE_MESSAGE: Row = (
    b"leaf 0 completes 0\npeer sends 5 000102\npeer ends 9",
    Stack::Tcp,
    false,
    &[Task::Send(300), Task::Out(0), Task::Hear(3)],
);

const DATAGRAMS: Row = (
    b"leaf 0 completes 0\npeer echo",
    Stack::Udp,
    true,
    &[
        Task::Send(300),
        Task::Send(0),
        Task::Out(0),
        Task::Out(1),
        Task::Hear(300),
        Task::Hear(0),
    ],
);

// What came of a task.
#[derive(Clone, Copy)]
enum Came {
    Done,
    More,
    NoMemory,
}

fn bring_out<N: Sockets, R: Abort>(
    rt: &R,
    connection: &mut Connection<'_, Established>,
    net: &mut N,
    number: u64,
) -> Came
    requires usable { IsUsable ⟦<dyn Framer as Framer>⟧ connection.old (N.net net.old) connection.old.receiver.ended }
    ensures usable { IsUsable ⟦<dyn Framer as Framer>⟧ connection.new (N.net net.new) connection.new.receiver.ended }
{
    if net.reserve(2).is_err() {
        return Came::NoMemory;
    }
    match connection.drive_out(net, UNTIL) {
        Pushed::Sent(sent) => {
            assert_eq!(rt; sent, number);
            Came::Done
        }
        Pushed::NoMemory => {
            assert_eq!(rt; connection.waiting(), Some(number));
            Came::NoMemory
        }
        _ => {
            assert!(rt; false);
            Came::NoMemory
        }
    }
}

// Whether room for the bytes that are asked for next can be made.
fn has_room<N: Sockets>(connection: &mut Connection<'_, Established>, net: &N) -> bool
    requires usable { IsUsable ⟦<dyn Framer as Framer>⟧ connection.old (N.net net.now) connection.old.receiver.ended }
    requires wanting { IsWanting (unread_of connection.old.receiver.source) }
    ensures usable { IsUsable ⟦<dyn Framer as Framer>⟧ connection.new (N.net net.now) connection.new.receiver.ended }
    ensures wanting { IsWanting (unread_of connection.new.receiver.source) }
{
    let _ = net;
    let piece = connection.piece();
    connection.make_room_in(piece).is_ok()
}

fn ask<N: Sockets, R: Abort>(
    rt: &R,
    connection: &mut Connection<'_, Established>,
    net: &mut N,
) -> Came
    requires usable { IsUsable ⟦<dyn Framer as Framer>⟧ connection.old (N.net net.old) connection.old.receiver.ended }
    requires wanting { IsWanting (unread_of connection.old.receiver.source) }
    ensures usable { IsUsable ⟦<dyn Framer as Framer>⟧ connection.new (N.net net.new) connection.new.receiver.ended }
{
    if !has_room(connection, net) {
        return Came::NoMemory;
    }
    pull(rt, connection, net)
}

// Asks once, where room was made before.
fn pull<N: Sockets, R: Abort>(
    rt: &R,
    connection: &mut Connection<'_, Established>,
    net: &mut N,
) -> Came
    requires usable { IsUsable ⟦<dyn Framer as Framer>⟧ connection.old (N.net net.old) connection.old.receiver.ended }
    requires wanting { IsWanting (unread_of connection.old.receiver.source) }
    ensures usable { IsUsable ⟦<dyn Framer as Framer>⟧ connection.new (N.net net.new) connection.new.receiver.ended }
{
    if net.reserve(2).is_err() {
        return Came::NoMemory;
    }
    assert!(rt; !connection.has_ended());
    match connection.drive_in(net, UNTIL) {
        Pulled::Got => Came::More,
        Pulled::Ended => Came::More,
        // Memory does not run out where room was made before.
        _ => {
            assert!(rt; false);
            Came::NoMemory
        }
    }
}

fn hear<N: Sockets, R: Abort>(
    rt: &R,
    connection: &mut Connection<'_, Established>,
    net: &mut N,
    length: usize,
) -> Came
    requires usable { IsUsable ⟦<dyn Framer as Framer>⟧ connection.old (N.net net.old) connection.old.receiver.ended }
    ensures usable { IsUsable ⟦<dyn Framer as Framer>⟧ connection.new (N.net net.new) connection.new.receiver.ended }
{
    if connection.given() == u64::MAX {
        assert!(rt; false);
        return Came::NoMemory;
    }
    match connection.receive() {
        Heard::Message(body) => {
            compare_body(rt, &body, Expected::Counted(length));
            Came::Done
        }
        Heard::Need => ask(rt, connection, net),
        Heard::NoMemory => Came::NoMemory,
        Heard::Bad(_) => {
            assert!(rt; false);
            Came::NoMemory
        }
    }
}

fn accept<N: Sockets, R: Abort>(
    rt: &R,
    alloc: Global,
    connection: &mut Connection<'_, Established>,
    net: &mut N,
    length: usize,
) -> Came
    requires usable { IsUsable ⟦<dyn Framer as Framer>⟧ connection.old (N.net net.old) connection.old.receiver.ended }
    ensures usable { IsUsable ⟦<dyn Framer as Framer>⟧ connection.new (N.net net.new) connection.new.receiver.ended }
{
    let _ = net;
    match make_message(alloc, length, make_props(None, false)) {
        Ok(message) => match connection.send(message, 0) {
            Ok(()) => Came::Done,
            Err((refusal, back)) => {
                assert_eq!(rt; refusal, PushError::NoMemory);
                assert_eq!(rt; back.body.bytes().len(), length);
                Came::NoMemory
            }
        },
        Err(_) => Came::NoMemory,
    }
}

fn do_task<N: Sockets, R: Abort>(
    rt: &R,
    alloc: Global,
    connection: &mut Connection<'_, Established>,
    net: &mut N,
    task: Task,
) -> Came
    requires usable { IsUsable ⟦<dyn Framer as Framer>⟧ connection.old (N.net net.old) connection.old.receiver.ended }
    ensures usable { IsUsable ⟦<dyn Framer as Framer>⟧ connection.new (N.net net.new) connection.new.receiver.ended }
{
    match task {
        Task::Send(length) => accept(rt, alloc, connection, net, length),
        Task::Out(number) => bring_out(rt, connection, net, number),
        Task::Hear(length) => hear(rt, connection, net, length),
    }
}

// How far the tasks are: how many calls may still be made, how often memory ran out, and whether it did in the last
// call.
#[derive(Clone, Copy)]
struct Progress {
    left: u64,
    wants: u64,
    wanting: bool,
}

// The tasks are done one after the other. It tells how often memory ran out, or that it did twice at one place.
fn do_tasks<N: Sockets, R: Abort>(
    rt: &R,
    alloc: Global,
    connection: &mut Connection<'_, Established>,
    net: &mut N,
    tasks: &[Task],
    progress: Progress,
) -> Result<u64, NoMemory>
    requires usable { IsUsable ⟦<dyn Framer as Framer>⟧ connection.old (N.net net.old) connection.old.receiver.ended }
    ensures opened { IsOpen connection.new (N.net net.new) }
{
    let Progress {
        left,
        wants,
        wanting,
    } = progress;
    if left == 0 {
        assert!(rt; false);
        return Err(NoMemory);
    }
    let [task, others @ ..] = tasks else {
        return Ok(wants);
    };
    let left = left - 1;
    let none = Progress {
        left,
        wants,
        wanting: false,
    };
    match do_task(rt, alloc, connection, net, *task) {
        Came::Done => do_tasks(rt, alloc, connection, net, others, none),
        Came::More => do_tasks(rt, alloc, connection, net, tasks, none),
        Came::NoMemory => {
            if wanting {
                return Err(NoMemory);
            }
            let again = Progress {
                left,
                wants: wants.saturating_add(1),
                wanting: true,
            };
            do_tasks(rt, alloc, connection, net, tasks, again)
        }
    }
}

// What one row came to.
#[derive(Clone, Copy)]
enum Seen {
    Whole,
    WholeAfterWant,
    NoMemory,
    NoMemoryOnTheConnection,
}

// A connection over a socket, which stays open where memory runs out.
fn begin<'a, N: Sockets>(
    alloc: Global,
    shelf: &'a Vec<Box<dyn Framer>>,
    socket: u32,
    stack: Stack,
    layered: bool,
    net: &N,
) -> Result<Connection<'a, Established>, NoMemory>
    requires shelf { length shelf.now.items ≡ 1 }
    requires met { IsMet (is_stream stack) (N.net net.now) socket }
    ensures { IfOk result (λ connection.
        IsUsable ⟦<dyn Framer as Framer>⟧ connection (N.net net.now) connection.receiver.ended) }
{
    let _ = net;
    let places: &[usize] = if layered { &[0] } else { &[] };
    let chain = Chain::new(alloc, shelf, places)?;
    let props = ConnectionProps::defaults();
    Connection::new(alloc, socket, stack, chain, props, 4096, 0)
}

// The tasks are done on a connection over a socket, which is closed then.
fn use_up<N: Sockets, R: Abort>(
    rt: &R,
    alloc: Global,
    shelf: &Vec<Box<dyn Framer>>,
    socket: u32,
    net: &mut N,
    row: &Row,
) -> Seen
    requires shelf { length shelf.now.items ≡ 1 }
    requires met { IsMet (is_stream row.now.1) (N.net net.old) socket }
{
    let (_, stack, layered, tasks) = *row;
    match begin(alloc, shelf, socket, stack, layered, net) {
        Ok(made) => {
            let mut connection = made;
            let first = Progress {
                left: 100,
                wants: 0,
                wanting: false,
            };
            let wants = do_tasks(rt, alloc, &mut connection, net, tasks, first);
            let _closed = connection.abort(net);
            match wants {
                Ok(0) => Seen::Whole,
                Ok(_) => Seen::WholeAfterWant,
                Err(NoMemory) => Seen::NoMemoryOnTheConnection,
            }
        }
        Err(NoMemory) => {
            net.close(socket);
            Seen::NoMemory
        }
    }
}

fn sockets<R: Abort>(rt: &R, alloc: Global, script: &[u8]) -> Result<ScriptSockets, NoMemory>
    ensures { IfOk result (λ net. net.trace ≡ []) }
{
    match ScriptSockets::read(alloc, script) {
        Ok(net) => Ok(net),
        Err(why) => {
            assert_eq!(rt; why, ScriptError::NoMemory);
            Err(NoMemory)
        }
    }
}

fn take_row<R: Abort>(rt: &R, alloc: Global, row: &Row) -> Result<Seen, NoMemory> {
    let mut shelf: Vec<Box<dyn Framer>> = Vec::new(alloc);
    shelf.push(Box::new(alloc, Len16)?)?;
    assert_eq!(rt; shelf.len(), 1);
    let mut net = sockets(rt, alloc, row.0)?;
    let met = match meet(alloc, row.1, &mut net) {
        Ok(met) => met,
        Err(none) => {
            assert!(rt; net.items().is_empty());
            return Err(none);
        }
    };
    let Some(socket) = met else {
        assert!(rt; false);
        return Err(NoMemory);
    };
    let seen = use_up(rt, alloc, &shelf, socket, &mut net, row);
    assert_eq!(rt; count_closes(net.items()), 1);
    Ok(seen)
}

fn shown(seen: Result<Seen, NoMemory>) -> &'static str {
    match seen {
        Ok(Seen::Whole) => "whole",
        Ok(Seen::WholeAfterWant) => "whole after want of memory",
        Ok(Seen::NoMemoryOnTheConnection) => "no memory on the connection",
        Ok(Seen::NoMemory) | Err(NoMemory) => "no memory",
    }
}

#[test]
fn messages_of_a_stream(rt: HostRuntime) -> Result<(), Fail> {
    let seen = shown(take_row(&rt, rt.alloc(), &STREAM));
    println!(rt; "seen: {seen}")?;
    Ok(())
}

#[test]
fn the_message_of_a_stream_with_no_layer(rt: HostRuntime) -> Result<(), Fail> {
    let seen = shown(take_row(&rt, rt.alloc(), &ONE_MESSAGE));
    println!(rt; "seen: {seen}")?;
    Ok(())
}

#[test]
fn messages_of_datagrams(rt: HostRuntime) -> Result<(), Fail> {
    let seen = shown(take_row(&rt, rt.alloc(), &DATAGRAMS));
    println!(rt; "seen: {seen}")?;
    Ok(())
}
