// Listeners over sockets in memory, as a table tells.
ghost use Rattle.std.specs.Prelude.{◌≡◌, [], true};
ghost use Rattle.taps_socket.specs.Sides.{may_accept};

use crate::ends::{TARGET, make_spare};
use crate::made::count_closes;
use std::alloc::Global;
use std::process::Abort;
use std::test::Fail;
use taps_base::NoMemory;
use taps_connection::{Listener, ListenerAnswer};
use taps_memory::MemoryNet;
use taps_socket::{Cause, How, Item, Sockets, StartAnswer, Target, WaitAnswer};
use taps_stack::Stack;

// A call, and what comes of it. Times are in milliseconds.
#[derive(Clone, Copy)]
enum Call {
    // A start to the target of the listener gives a socket of this number, at a time.
    Starts(u32, u64),
    // A start over a stack is refused at a time.
    Refused(Stack, Cause, u64),
    // A wait up to a time ends so, at a time.
    Waits(u64, How, u64),
    // An accept up to a time.
    Accepts(u64, ListenerAnswer),
}

// How many connections there may be; the waits and accepts that fault; how many connections the listener takes at most;
// the calls; and how often an accept was faulted.
type Row = (u32, &'static [u64], u64, &'static [Call], usize);

static ROWS: [Row; 5] = [
    // Connections are accepted in the order of their starts, up to the limit, behind which the sockets are not asked.
    (
        4,
        &[],
        2,
        &[
            Call::Starts(1, 0),
            Call::Starts(2, 0),
            Call::Starts(3, 0),
            Call::Waits(5, How::Completed(1), 0),
            Call::Accepts(5, ListenerAnswer::Accepted { socket: 4, at: 0 }),
            Call::Waits(5, How::Completed(2), 0),
            Call::Accepts(5, ListenerAnswer::Accepted { socket: 5, at: 0 }),
            Call::Accepts(9, ListenerAnswer::LimitReached(2)),
            Call::Waits(5, How::Completed(3), 0),
            Call::Waits(9, How::Reached, 9),
            Call::Accepts(10, ListenerAnswer::LimitReached(2)),
        ],
        0,
    ),
    // An accept may come before the wait. Where no connection waits it is timed, not before its time and not before the
    // last reported one.
    (
        4,
        &[],
        9,
        &[
            Call::Accepts(50, ListenerAnswer::Timed(50)),
            Call::Accepts(40, ListenerAnswer::Timed(50)),
            Call::Starts(1, 50),
            Call::Accepts(40, ListenerAnswer::Accepted { socket: 2, at: 50 }),
            Call::Accepts(60, ListenerAnswer::Timed(60)),
            Call::Waits(60, How::Completed(1), 60),
            Call::Waits(70, How::Reached, 70),
            Call::Starts(3, 70),
            Call::Accepts(70, ListenerAnswer::Accepted { socket: 4, at: 70 }),
        ],
        0,
    ),
    // A faulted accept takes no connection, and a later one does. Waits and accepts are counted together, from 0.
    (
        4,
        &[1, 2, 4],
        1,
        &[
            Call::Starts(1, 0),
            Call::Waits(9, How::Completed(1), 0),
            Call::Accepts(9, ListenerAnswer::Faulted),
            Call::Accepts(9, ListenerAnswer::Faulted),
            Call::Accepts(9, ListenerAnswer::Accepted { socket: 2, at: 0 }),
            Call::Waits(9, How::Faulted, 0),
            Call::Accepts(9, ListenerAnswer::LimitReached(1)),
            Call::Waits(9, How::Reached, 9),
        ],
        2,
    ),
    // A wait that faults tells of no socket, and the next one does.
    (
        4,
        &[0],
        0,
        &[
            Call::Starts(1, 0),
            Call::Waits(9, How::Faulted, 0),
            Call::Waits(9, How::Completed(1), 0),
            Call::Accepts(9, ListenerAnswer::LimitReached(0)),
        ],
        0,
    ),
    // A start is refused over datagrams, where nobody listens, and where all connections were used.
    (
        1,
        &[],
        3,
        &[
            Call::Refused(Stack::Udp, Cause::Refused, 0),
            Call::Refused(Stack::Unix, Cause::Refused, 0),
            Call::Accepts(9, ListenerAnswer::Timed(9)),
            Call::Starts(1, 9),
            Call::Refused(Stack::Tcp, Cause::Memory, 9),
            Call::Accepts(9, ListenerAnswer::Accepted { socket: 2, at: 9 }),
        ],
        0,
    ),
];

// A start over a stack comes to this.
fn start<N: Sockets, R: Abort>(
    rt: &R,
    listener: &Listener,
    net: &mut N,
    stack: Stack,
    expected: StartAnswer,
)
    requires may { may_accept (N.net net.old).trace listener.now.socket ≡ true }
    ensures may { may_accept (N.net net.new).trace listener.now.socket ≡ true }
{
    let _ = listener;
    make_spare(rt, net);
    let target = Target { stack, ..TARGET };
    let answer = net.start(0, target);
    assert_eq!(rt; answer, expected);
}

// A wait comes to this.
fn wait<N: Sockets, R: Abort>(
    rt: &R,
    listener: &Listener,
    net: &mut N,
    until: u64,
    expected: WaitAnswer,
)
    requires may { may_accept (N.net net.old).trace listener.now.socket ≡ true }
    ensures may { may_accept (N.net net.new).trace listener.now.socket ≡ true }
{
    let _ = listener;
    make_spare(rt, net);
    let answer = net.wait(until);
    assert_eq!(rt; (answer.at, answer.how), (expected.at, expected.how));
}

// An accept comes to this.
fn accept<N: Sockets, R: Abort>(
    rt: &R,
    listener: &mut Listener,
    net: &mut N,
    until: u64,
    expected: ListenerAnswer,
)
    requires may { may_accept (N.net net.old).trace listener.old.socket ≡ true }
    ensures may { may_accept (N.net net.new).trace listener.new.socket ≡ true }
{
    if until >= 9223372036854775808 {
        assert!(rt; false);
        unreachable!()
    }
    make_spare(rt, net);
    let answer = listener.accept(net, until);
    assert_eq!(rt; answer, expected);
}

fn make_call<N: Sockets, R: Abort>(rt: &R, listener: &mut Listener, net: &mut N, call: Call)
    requires may { may_accept (N.net net.old).trace listener.old.socket ≡ true }
    ensures may { may_accept (N.net net.new).trace listener.new.socket ≡ true }
{
    match call {
        Call::Starts(socket, at) => {
            start(
                rt,
                listener,
                net,
                Stack::Tcp,
                StartAnswer::Started { socket, at },
            )
        }
        Call::Refused(stack, cause, at) => {
            start(rt, listener, net, stack, StartAnswer::Refused { cause, at })
        }
        Call::Waits(until, how, at) => wait(rt, listener, net, until, WaitAnswer { at, how }),
        Call::Accepts(until, answer) => accept(rt, listener, net, until, answer),
    }
}

fn make_calls<N: Sockets, R: Abort>(rt: &R, listener: &mut Listener, net: &mut N, calls: &[Call])
    requires may { may_accept (N.net net.old).trace listener.old.socket ≡ true }
    ensures may { may_accept (N.net net.new).trace listener.new.socket ≡ true }
{
    if let [call, others @ ..] = calls {
        make_call(rt, listener, net, *call);
        make_calls(rt, listener, net, others);
    }
}

fn stop<N: Sockets, R: Abort>(rt: &R, listener: Listener, net: &mut N)
    requires may { may_accept (N.net net.old).trace listener.socket ≡ true }
{
    make_spare(rt, net);
    listener.stop(net);
}

// A further listen on the same target is refused.
fn listen_again<N: Sockets, R: Abort>(rt: &R, listener: &Listener, net: &mut N)
    requires may { may_accept (N.net net.old).trace listener.now.socket ≡ true }
    ensures may { may_accept (N.net net.new).trace listener.now.socket ≡ true }
{
    let _ = listener;
    make_spare(rt, net);
    match Listener::listen(net, TARGET, 1) {
        Err(cause) => assert_eq!(rt; cause, Cause::Other),
        Ok(other) => {
            assert!(rt; false);
            other.stop(net);
        }
    }
}

// Listens, makes the calls and stops.
fn listen<N: Sockets, R: Abort>(rt: &R, net: &mut N, limit: u64, calls: &[Call])
    requires { (N.net net.old).trace ≡ [] }
{
    make_spare(rt, net);
    match Listener::listen(net, TARGET, limit) {
        Ok(made) => {
            let mut listener = made;
            assert_eq!(rt; listener.socket(), 0);
            listen_again(rt, &listener, net);
            make_calls(rt, &mut listener, net, calls);
            stop(rt, listener, net);
        }
        Err(_) => assert!(rt; false),
    }
}

fn count_faults(items: &[Item]) -> usize {
    items
        .iter()
        .filter(|item| matches!(item, Item::Faulted { .. }))
        .count()
}

fn take_row(rt: &impl Abort, alloc: Global, row: &Row) -> Result<(), NoMemory> {
    let (pairs, faults, limit, calls, faulted) = *row;
    assert!(rt; pairs <= 64);
    let mut net = MemoryNet::new(alloc, pairs, 4, faults)?;
    listen(rt, &mut net, limit, calls);
    assert_eq!(rt;
        (count_closes(net.items()), count_faults(net.items())),
        (1, faulted)
    );
    Ok(())
}

#[test]
fn a_listener_takes_connections(rt: HostRuntime) -> Result<(), Fail> {
    for row in &ROWS {
        take_row(&rt, rt.alloc(), row)?;
    }
    Ok(())
}
