// Both ends of a connection, from the accept to the closes.
ghost use Rattle.std.specs.Prelude.{◌≡◌, ◌≢◌, ◌≤◌, ◌<◌, ◌^◌, true, false};
ghost use Rattle.taps_chain.specs.Layers.{layers_of};
ghost use Rattle.taps_connection.specs.Conditions.{IsHeld};
ghost use Rattle.taps_socket.specs.Sides.{carries_stream, may_accept};
ghost use Rattle.taps_stack.specs.StackTable.{is_stream};
ghost use Rattle.taps_loop.specs.Looped.{HasLooped, deadline_by, ends_over};

use crate::both::exchange_both;
use crate::reporting::Reporting;
use std::alloc::Global;
use taps_base::NoMemory;
use taps_chain::Chain;
use taps_connection::{Listener, ListenerAnswer};
use taps_exchange::Exchanged;
use taps_framer::Framer;
use taps_message::Message;
use taps_property::ConnectionProps;
use taps_stack::Stack;

/// What came of both ends of a connection in one program.
#[derive(Debug, Drop)]
pub enum Looped {
    /// A connection was accepted, and both ends exchanged messages: the outcome, how many were sent by the end that
    /// initiated, and those that the accepted end heard.
    Exchanged(Exchanged),
    /// No connection came in time.
    Timed,
    /// The accept was faulted.
    Faulted,
}

/// Accepts one connection, whose stack carries a stream, and lets both ends exchange messages: the one over a
/// socket that was given to it, which sends all messages, and the accepted one, which hears them. The accept and the
/// exchange go on for so many milliseconds each, and over a stream so many bytes are asked for at once. The sockets of
/// both ends and the listener's are closed, each once, whatever came.
pub fn loop_over<N: Reporting>(
    alloc: Global,
    mut listener: Listener,
    socket: u32,
    stack: Stack,
    accepting: Stack,
    chain: Chain<'_>,
    props: ConnectionProps,
    piece: u64,
    messages: Vec<Message>,
    deadline_ms: u64,
    net: &mut N,
) -> Result<Looped, NoMemory>
    requires some { 1 ≤ piece }
    requires few { piece ≤ 65536 }
    requires stream { is_stream accepting ≡ true }
    requires fewer { listener.accepted < listener.limit }
    requires may { may_accept (N.net net.old).trace listener.socket ≡ true }
    requires carries { carries_stream (N.net net.old).trace listener.socket ≡ true }
    requires held { IsHeld (N.net net.old).trace socket (is_stream stack) false false }
    requires apart { socket ≢ listener.socket }
    requires spare { 8 ≤ (N.net net.old).spare }
    ensures { HasLooped N.Becomes (λ to at. ends_over socket stack to accepting
        (layers_of ⟦<dyn Framer as Framer>⟧ chain.entry) messages.items at piece deadline_ms)
        listener.socket socket (deadline_by (N.net net.old).told deadline_ms) net.old net.new
        (N.net net.old) (N.net net.new) result }
{
    let until = deadline(net.told(), deadline_ms);
    match listener.accept(net, until) {
        ListenerAnswer::Accepted { socket: to, at } => {
            let exchanged = exchange_both(
                alloc,
                socket,
                stack,
                to,
                accepting,
                chain,
                props,
                piece,
                messages,
                at,
                deadline(at, deadline_ms),
                net,
            );
            listener.stop(net);
            match exchanged {
                Ok(exchanged) => Ok(Looped::Exchanged(exchanged)),
                Err(none) => Err(none),
            }
        }
        ListenerAnswer::Timed(_) => {
            net.close(socket);
            listener.stop(net);
            Ok(Looped::Timed)
        }
        ListenerAnswer::Faulted => {
            net.close(socket);
            listener.stop(net);
            Ok(Looped::Faulted)
        }
        ListenerAnswer::LimitReached(_) => unreachable!(),
    }
}

// So many milliseconds behind a time, as far as times go.
fn deadline(at: u64, patience: u64) -> u64
    ensures by { result ≡ deadline_by at patience }
    ensures bounded { result < 2 ^ 63 }
{
    at.saturating_add(patience).min(i64::MAX as u64)
}
