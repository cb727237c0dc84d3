// Both ends of a connection in memory make calls in turn, as a table tells.
ghost use Rattle.std.specs.Prelude.{◌≡◌, ◌≤◌, ◌<◌, [], All, length, IfOk};
ghost use Rattle.taps_memory_rows.specs.Ends.{IsUsable, IsLive, LeavesOthers, AreUsable};

use crate::ends::{Came, accept_message, fail, let_go, meet, pull, push};
use crate::made::{count_closes, make_message};
use std::alloc::Global;
use std::process::Abort;
use std::test::Fail;
use taps_base::NoMemory;
use taps_connection::{Connection, Established, Pulled, Pushed};
use taps_framer::Framer;
use taps_frames::Len16;
use taps_memory::MemoryNet;
use taps_socket::{Cause, Sockets};

// Which end makes a call.
#[derive(Clone, Copy)]
enum End {
    Starter,
    Acceptor,
}

// A call on an end, and what comes of it.
#[derive(Clone, Copy)]
enum Step {
    // A message of so many bytes, final or not, is accepted at 0.
    Send(usize, bool),
    // What comes of driving out up to a time.
    Out(u64, Pushed),
    // No message is there; what then comes of driving in up to a time.
    In(u64, Pulled),
    // A message of so many bytes, which count from 0 to 250, is heard.
    Hears(usize),
}

// The bytes of a ring; whether messages go through `len16`; the calls of both ends; those of the accepted end after the
// other was closed; and with what cause a further message then fails, if it does.
type Row = (
    u32,
    bool,
    &'static [(End, Step)],
    &'static [Step],
    Option<Cause>,
);

static ROWS: [Row; 7] = [
    // A ring of a byte: each send takes one, and is timed before the rest.
    (
        1,
        true,
        &[
            (End::Starter, Step::Out(10, Pushed::Empty)),
            (End::Starter, Step::Send(1, false)),
            (End::Starter, Step::Out(10, Pushed::Timed(10))),
            (End::Starter, Step::Out(5, Pushed::Timed(10))),
            (End::Acceptor, Step::In(20, Pulled::Got)),
            (End::Acceptor, Step::In(20, Pulled::Timed(20))),
            (End::Starter, Step::Out(30, Pushed::Timed(30))),
            (End::Acceptor, Step::In(40, Pulled::Got)),
            (End::Starter, Step::Out(40, Pushed::Sent(0))),
            (End::Acceptor, Step::In(40, Pulled::Got)),
            (End::Acceptor, Step::Hears(1)),
            (End::Acceptor, Step::In(50, Pulled::Timed(50))),
        ],
        &[Step::In(60, Pulled::Ended)],
        None,
    ),
    // The rest of a message goes out in a later call, before the message behind it.
    (
        7,
        true,
        &[
            (End::Starter, Step::Send(10, false)),
            (End::Starter, Step::Send(2, false)),
            (End::Starter, Step::Out(10, Pushed::Timed(10))),
            (End::Acceptor, Step::In(10, Pulled::Got)),
            (End::Starter, Step::Out(20, Pushed::Sent(0))),
            (End::Starter, Step::Out(20, Pushed::Timed(20))),
            (End::Acceptor, Step::In(20, Pulled::Got)),
            (End::Acceptor, Step::Hears(10)),
            (End::Acceptor, Step::In(30, Pulled::Timed(30))),
            (End::Starter, Step::Out(30, Pushed::Sent(1))),
            (End::Acceptor, Step::In(30, Pulled::Got)),
            (End::Acceptor, Step::Hears(2)),
        ],
        &[Step::In(60, Pulled::Ended)],
        None,
    ),
    // Both directions have rings of their own. What was sent is heard after the other end was closed.
    (
        7,
        true,
        &[
            (End::Starter, Step::Send(5, false)),
            (End::Acceptor, Step::Send(4, false)),
            (End::Starter, Step::Out(10, Pushed::Sent(0))),
            (End::Acceptor, Step::Out(10, Pushed::Sent(0))),
            (End::Starter, Step::In(10, Pulled::Got)),
            (End::Starter, Step::Hears(4)),
        ],
        &[
            Step::In(20, Pulled::Got),
            Step::Hears(5),
            Step::In(20, Pulled::Ended),
        ],
        Some(Cause::Reset),
    ),
    // A begun message fails, too, where the other end was closed.
    (
        7,
        true,
        &[
            (End::Acceptor, Step::Send(9, false)),
            (End::Acceptor, Step::Out(10, Pushed::Timed(10))),
            (End::Starter, Step::In(10, Pulled::Got)),
        ],
        &[],
        Some(Cause::Reset),
    ),
    // A final message ends the stream behind its bytes, and the other direction goes on.
    (
        4096,
        true,
        &[
            (End::Starter, Step::Send(4093, false)),
            (End::Starter, Step::Send(1, true)),
            (End::Starter, Step::Out(10, Pushed::Sent(0))),
            (End::Starter, Step::Out(10, Pushed::Timed(10))),
            (End::Acceptor, Step::In(10, Pulled::Got)),
            (End::Acceptor, Step::Hears(4093)),
            (End::Starter, Step::Out(10, Pushed::Sent(1))),
            (End::Acceptor, Step::In(10, Pulled::Got)),
            (End::Acceptor, Step::Hears(1)),
            (End::Acceptor, Step::In(10, Pulled::Ended)),
            (End::Acceptor, Step::Send(3, false)),
            (End::Acceptor, Step::Out(10, Pushed::Sent(0))),
            (End::Starter, Step::In(10, Pulled::Got)),
            (End::Starter, Step::Hears(3)),
        ],
        &[],
        None,
    ),
    // A ring takes as many bytes as it has, and no more.
    (
        65536,
        true,
        &[
            (End::Starter, Step::Send(65534, false)),
            (End::Starter, Step::Send(0, false)),
            (End::Starter, Step::Out(10, Pushed::Sent(0))),
            (End::Starter, Step::Out(10, Pushed::Timed(10))),
            (End::Acceptor, Step::In(10, Pulled::Got)),
            (End::Starter, Step::Out(10, Pushed::Sent(1))),
        ],
        &[],
        None,
    ),
    // With no layer the stream is one message, which is heard when it has ended.
    (
        7,
        false,
        &[
            (End::Starter, Step::Send(8, false)),
            (End::Starter, Step::Out(10, Pushed::Timed(10))),
            (End::Acceptor, Step::In(10, Pulled::Got)),
            (End::Starter, Step::Out(20, Pushed::Sent(0))),
            (End::Acceptor, Step::In(20, Pulled::Got)),
            (End::Acceptor, Step::In(20, Pulled::Ended)),
            (End::Acceptor, Step::Hears(8)),
        ],
        &[],
        None,
    ),
];

fn compare_pulled(rt: &impl Abort, came: &Came, expected: Pulled) {
    match came {
        Came::More => assert_eq!(rt; expected, Pulled::Got),
        Came::Ended => assert_eq!(rt; expected, Pulled::Ended),
        Came::Timed(at) => assert_eq!(rt; expected, Pulled::Timed(*at)),
        Came::Message(_) => assert!(rt; false),
    }
}

fn compare_heard(rt: &impl Abort, came: &Came, length: usize) {
    match came {
        Came::Message(body) => {
            assert_eq!(rt; body.bytes().len(), length);
            for (i, byte) in body.bytes().iter().enumerate() {
                assert_eq!(rt; *byte as usize, i % 251);
            }
        }
        _ => assert!(rt; false),
    }
}

// Makes the call, and compares what comes of it.
fn take_step<N: Sockets, R: Abort>(
    rt: &R,
    alloc: Global,
    connection: &mut Connection<'_, Established>,
    net: &mut N,
    step: Step,
)
    requires usable { IsUsable ⟦<dyn Framer as Framer>⟧ connection.old (N.net net.old) }
    ensures usable { IsUsable ⟦<dyn Framer as Framer>⟧ connection.new (N.net net.new) }
    ensures socket { connection.new.socket ≡ connection.old.socket }
    ensures others { LeavesOthers connection.old.socket (N.net net.old) (N.net net.new) }
{
    match step {
        Step::Send(length, is_final) => send(rt, alloc, connection, net, length, is_final),
        Step::Out(until, answer) => {
            let came = push(rt, connection, net, until);
            assert_eq!(rt; came, answer);
        }
        Step::In(until, answer) => {
            let came = pull(rt, connection, net, until);
            compare_pulled(rt, &came, answer);
        }
        Step::Hears(length) => {
            let came = pull(rt, connection, net, 0);
            compare_heard(rt, &came, length);
        }
    }
}

#[tactic(auto, using(crate::proofs::Others::same_leaves))]
fn send<N: Sockets, R: Abort>(
    rt: &R,
    alloc: Global,
    connection: &mut Connection<'_, Established>,
    net: &mut N,
    length: usize,
    is_final: bool,
)
    requires usable { IsUsable ⟦<dyn Framer as Framer>⟧ connection.old (N.net net.old) }
    ensures usable { IsUsable ⟦<dyn Framer as Framer>⟧ connection.new (N.net net.new) }
    ensures socket { connection.new.socket ≡ connection.old.socket }
    ensures others { LeavesOthers connection.old.socket (N.net net.old) (N.net net.new) }
{
    match make_message(alloc, length, is_final) {
        Ok(message) => accept_message(rt, connection, net, message),
        Err(_) => {
            assert!(rt; false);
            unreachable!()
        }
    }
}

fn take_turn<N: Sockets, R: Abort>(
    rt: &R,
    alloc: Global,
    starter: &mut Connection<'_, Established>,
    acceptor: &mut Connection<'_, Established>,
    net: &mut N,
    turn: &(End, Step),
)
    requires { AreUsable ⟦<dyn Framer as Framer>⟧ starter.old acceptor.old (N.net net.old) }
    ensures { AreUsable ⟦<dyn Framer as Framer>⟧ starter.new acceptor.new (N.net net.new) }
{
    let (end, step) = *turn;
    match end {
        End::Starter => take_step(rt, alloc, starter, net, step),
        End::Acceptor => take_step(rt, alloc, acceptor, net, step),
    }
}

fn take_turns<N: Sockets, R: Abort>(
    rt: &R,
    alloc: Global,
    starter: &mut Connection<'_, Established>,
    acceptor: &mut Connection<'_, Established>,
    net: &mut N,
    turns: &[(End, Step)],
)
    requires { AreUsable ⟦<dyn Framer as Framer>⟧ starter.old acceptor.old (N.net net.old) }
    ensures { AreUsable ⟦<dyn Framer as Framer>⟧ starter.new acceptor.new (N.net net.new) }
{
    if let [turn, others @ ..] = turns {
        take_turn(rt, alloc, starter, acceptor, net, turn);
        take_turns(rt, alloc, starter, acceptor, net, others);
    }
}

fn take_steps<N: Sockets, R: Abort>(
    rt: &R,
    alloc: Global,
    connection: &mut Connection<'_, Established>,
    net: &mut N,
    steps: &[Step],
)
    requires { IsUsable ⟦<dyn Framer as Framer>⟧ connection.old (N.net net.old) }
    ensures { IsUsable ⟦<dyn Framer as Framer>⟧ connection.new (N.net net.new) }
{
    if let [step, others @ ..] = steps {
        take_step(rt, alloc, connection, net, *step);
        take_steps(rt, alloc, connection, net, others);
    }
}

// The calls of an end alone, and the failure of its next message, if it fails.
fn finish<N: Sockets, R: Abort>(
    rt: &R,
    alloc: Global,
    connection: Connection<'_, Established>,
    net: &mut N,
    steps: &[Step],
    failure: Option<Cause>,
)
    requires { IsUsable ⟦<dyn Framer as Framer>⟧ connection (N.net net.old) }
{
    let mut connection = connection;
    take_steps(rt, alloc, &mut connection, net, steps);
    if let Some(cause) = failure {
        send(rt, alloc, &mut connection, net, 1, false);
        fail(rt, &mut connection, net, cause);
    }
    let_go(rt, connection, net);
}

fn talk<N: Sockets, R: Abort>(
    rt: &R,
    alloc: Global,
    starter: Connection<'_, Established>,
    acceptor: Connection<'_, Established>,
    net: &mut N,
    row: &Row,
)
    requires { AreUsable ⟦<dyn Framer as Framer>⟧ starter acceptor (N.net net.old) }
{
    let (_, _, turns, steps, failure) = *row;
    let mut starter = starter;
    let mut acceptor = acceptor;
    take_turns(rt, alloc, &mut starter, &mut acceptor, net, turns);
    let_go(rt, starter, net);
    finish(rt, alloc, acceptor, net, steps, failure);
}

fn meet_and_talk<N: Sockets, R: Abort>(
    rt: &R,
    alloc: Global,
    shelf: &Vec<Box<dyn Framer>>,
    net: &mut N,
    row: &Row,
)
    requires shelf { length shelf.now.items ≡ 1 }
    requires new { (N.net net.old).trace ≡ [] }
{
    let places: &[usize] = if row.1 { &[0] } else { &[] };
    let (starter, acceptor) = meet(rt, alloc, shelf, places, net);
    talk(rt, alloc, starter, acceptor, net, row);
}

fn take_row(rt: &impl Abort, alloc: Global, row: &Row) -> Result<(), NoMemory> {
    let mut shelf: Vec<Box<dyn Framer>> = Vec::new(alloc);
    shelf.push(Box::new(alloc, Len16)?)?;
    assert_eq!(rt; shelf.len(), 1);
    assert!(rt; row.0 >= 1 && row.0 <= 65536);
    let mut net = MemoryNet::new(alloc, 1, row.0, &[])?;
    meet_and_talk(rt, alloc, &shelf, &mut net, row);
    assert_eq!(rt; count_closes(net.items()), 3);
    Ok(())
}

#[test]
fn both_ends_take_turns(rt: HostRuntime) -> Result<(), Fail> {
    for row in &ROWS {
        take_row(&rt, rt.alloc(), row)?;
    }
    Ok(())
}
