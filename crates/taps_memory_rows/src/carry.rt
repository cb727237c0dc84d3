// A message is brought from one end of a connection to the other.
ghost use Rattle.std.specs.Prelude.{◌≡◌};
ghost use Rattle.taps_memory_rows.specs.Ends.{IsUsable, AreUsable};

use crate::ends::{Came, accept_message, pull, push};
use crate::made::plain_message;
use std::alloc::Global;
use std::process::Abort;
use taps_connection::{Connection, Established, Pushed};
use taps_framer::Framer;
use taps_socket::Sockets;

const UNTIL: u64 = 1000;

// How often the two ends take turns at most.
const TURNS: u64 = 10000;

fn send<N: Sockets, R: Abort>(
    rt: &R,
    alloc: Global,
    connection: &mut Connection<'_, Established>,
    net: &mut N,
    body: &[u8],
)
    requires usable { IsUsable ⟦<dyn Framer as Framer>⟧ connection.old (N.net net.old) }
    ensures usable { IsUsable ⟦<dyn Framer as Framer>⟧ connection.new (N.net net.new) }
    ensures socket { connection.new.socket ≡ connection.old.socket }
    ensures net { N.net net.new ≡ N.net net.old }
{
    match plain_message(alloc, body) {
        Ok(message) => accept_message(rt, connection, net, message),
        Err(_) => {
            assert!(rt; false);
            unreachable!()
        }
    }
}

// Whether the message whose turn it is can be sent: more of it goes out then, if there is room.
fn push_out<N: Sockets, R: Abort>(
    rt: &R,
    from: &mut Connection<'_, Established>,
    to: &Connection<'_, Established>,
    net: &mut N,
) -> bool
    requires { AreUsable ⟦<dyn Framer as Framer>⟧ from.old to.now (N.net net.old) }
    ensures { AreUsable ⟦<dyn Framer as Framer>⟧ from.new to.now (N.net net.new) }
{
    let _ = to;
    match push(rt, from, net, UNTIL) {
        Pushed::Sent(_) | Pushed::Timed(_) | Pushed::Empty => true,
        Pushed::NotSpeakable { .. } => false,
        _ => {
            assert!(rt; false);
            false
        }
    }
}

// Whether the message is heard: more of it comes in, if it is there.
fn pull_in<N: Sockets, R: Abort>(
    rt: &R,
    from: &Connection<'_, Established>,
    to: &mut Connection<'_, Established>,
    net: &mut N,
    body: &[u8],
) -> bool
    requires { AreUsable ⟦<dyn Framer as Framer>⟧ from.now to.old (N.net net.old) }
    ensures { AreUsable ⟦<dyn Framer as Framer>⟧ from.now to.new (N.net net.new) }
{
    let _ = from;
    match pull(rt, to, net, UNTIL) {
        Came::Message(heard) => {
            assert_eq!(rt; heard.bytes(), body);
            true
        }
        Came::Ended => {
            assert!(rt; false);
            false
        }
        _ => false,
    }
}

fn take_turns<N: Sockets, R: Abort>(
    rt: &R,
    from: &mut Connection<'_, Established>,
    to: &mut Connection<'_, Established>,
    net: &mut N,
    body: &[u8],
    turns: u64,
) -> bool
    requires { AreUsable ⟦<dyn Framer as Framer>⟧ from.old to.old (N.net net.old) }
    ensures { AreUsable ⟦<dyn Framer as Framer>⟧ from.new to.new (N.net net.new) }
{
    if turns == 0 {
        assert!(rt; false);
        return false;
    }
    if !push_out(rt, from, to, net) {
        return false;
    }
    if pull_in(rt, from, to, net, body) {
        return true;
    }
    take_turns(rt, from, to, net, body, turns - 1)
}

/// A message of these bytes is accepted at one end, goes out in turns with the other, and is heard there. It is false
/// where it cannot be sent.
pub fn carry<N: Sockets, R: Abort>(
    rt: &R,
    alloc: Global,
    from: &mut Connection<'_, Established>,
    to: &mut Connection<'_, Established>,
    net: &mut N,
    body: &[u8],
) -> bool
    requires { AreUsable ⟦<dyn Framer as Framer>⟧ from.old to.old (N.net net.old) }
    ensures { AreUsable ⟦<dyn Framer as Framer>⟧ from.new to.new (N.net net.new) }
{
    send(rt, alloc, from, net, body);
    take_turns(rt, from, to, net, body, TURNS)
}
