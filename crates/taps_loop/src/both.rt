// The exchange of both ends, behind which both sockets are closed.
ghost use Rattle.std.specs.Prelude.{◌≡◌, ◌≢◌, ◌≤◌, ◌<◌, ◌^◌, ◌∷◌, ℕ, [], None, true, false, length};
ghost use Rattle.taps_chain.specs.ChainLaws.{AreFramers};
ghost use Rattle.taps_chain.specs.Layers.{layers_of};
ghost use Rattle.taps_connection.specs.Conditions.{IsHeld};
ghost use Rattle.taps_connection.specs.Histories.{Represents};
ghost use Rattle.taps_connection.specs.Inboxes.{IsSoundReceiver};
ghost use Rattle.taps_connection.specs.Senders.{IsNewSender, queued};
ghost use Rattle.taps_connection.specs.Sound.{IsSound};
ghost use Rattle.taps_connection.specs.Sources.{unread_of};
ghost use Rattle.taps_connection.specs.Unread.{first_unread};
ghost use Rattle.taps_socket.specs.Calls.{closes};
ghost use Rattle.taps_socket.specs.LiveSockets.{live_sockets};
ghost use Rattle.taps_socket.specs.RaceSockets.{has};
ghost use Rattle.taps_stack.specs.StackTable.{is_stream};
ghost use Rattle.taps_loop.specs.Connections.{MayTakeTurns, FromFirst};
ghost use Rattle.taps_loop.specs.Looped.{AreEndsOver, MayExchangeBoth, HasClosedBoth, HasClosedOver, ClosesTwo, ClosesBoth};
ghost use Rattle.taps_loop.specs.Loops.{Ends};

use crate::reporting::Reporting;
use crate::turns::take_turns;
use std::alloc::Global;
use taps_base::NoMemory;
use taps_chain::Chain;
use taps_connection::{Connection, Established};
use taps_exchange::{Exchanged, accept_all};
use taps_framer::Framer;
use taps_message::Message;
use taps_property::ConnectionProps;
use taps_socket::Sockets;
use taps_stack::Stack;

// Closes both sockets.
fn close_both<N: Sockets>(from: u32, to: u32, net: &mut N)
    requires first { has (live_sockets (N.net net.old).trace) from ≡ true }
    requires second { has (live_sockets (N.net net.old).trace) to ≡ true }
    requires apart { to ≢ from }
    requires spare { 2 ≤ (N.net net.old).spare }
    ensures becomes { N.Becomes net.old (closes to ∷ closes from ∷ []) net.new }
    ensures closes { ClosesTwo from to (N.net net.old) (N.net net.new) }
{
    net.close(from);
    net.close(to);
}

// Closes the sockets of two connections.
fn abort_both<N: Sockets>(
    from: Connection<'_, Established>,
    to: Connection<'_, Established>,
    net: &mut N,
)
    requires first { has (live_sockets (N.net net.old).trace) from.socket ≡ true }
    requires second { has (live_sockets (N.net net.old).trace) to.socket ≡ true }
    requires apart { to.socket ≢ from.socket }
    requires spare { 2 ≤ (N.net net.old).spare }
    ensures becomes { N.Becomes net.old (closes to.entry.socket ∷ closes from.entry.socket ∷ []) net.new }
    ensures closes { ClosesTwo from.entry.socket to.entry.socket (N.net net.old) (N.net net.new) }
{
    let _ = from.abort(net);
    let _ = to.abort(net);
}

// The exchange of two connections, of which the first one accepted its messages.
fn exchange_open<N: Reporting>(
    alloc: Global,
    mut from: Connection<'_, Established>,
    mut to: Connection<'_, Established>,
    deadline: u64,
    net: &mut N,
) -> Result<Exchanged, NoMemory>
    requires may { MayTakeTurns ⟦<dyn Framer as Framer>⟧ from to (N.net net.old) deadline }
    requires none { from.sender.begun ≡ None }
    requires spare { 6 ≤ (N.net net.old).spare }
    ensures closed { FromFirst ⟦<dyn Framer as Framer>⟧ from.entry to.entry deadline (N.net net.old).told []
        (λ x. x.from.messages ≡ queued from.entry.sender)
        (λ x. HasClosedBoth N.Becomes x from.entry.socket to.entry.socket net.old net.new result) }
    ensures closes { ClosesBoth from.entry.socket to.entry.socket (N.net net.old) (N.net net.new) }
{
    let mut heard = Vec::new(alloc);
    match take_turns(&mut from, &mut to, deadline, net, &mut heard) {
        Ok(outcome) => {
            let sent = from.sent();
            abort_both(from, to, net);
            Ok(Exchanged {
                outcome,
                sent,
                heard,
            })
        }
        Err(none) => {
            abort_both(from, to, net);
            Err(none)
        }
    }
}

// The exchange of two new connections, of which the first one accepts all messages at a time in milliseconds.
fn exchange_all<N: Reporting>(
    alloc: Global,
    mut from: Connection<'_, Established>,
    to: Connection<'_, Established>,
    messages: Vec<Message>,
    at: u64,
    deadline: u64,
    net: &mut N,
) -> Result<Exchanged, NoMemory>
    requires framers { AreFramers (layers_of ⟦<dyn Framer as Framer>⟧ from.chain) }
    requires same { layers_of ⟦<dyn Framer as Framer>⟧ to.chain ≡ layers_of ⟦<dyn Framer as Framer>⟧ from.chain }
    requires new { IsNewSender at from.sender }
    requires sends { IsSound (is_stream from.stack) (layers_of ⟦<dyn Framer as Framer>⟧ from.chain) from.sender }
    requires holds { IsHeld (N.net net.old).trace from.socket (is_stream from.stack) from.sender.shut
        from.receiver.ended }
    requires sound { IsSoundReceiver ⟦<dyn Framer as Framer>⟧ to.stack
        (layers_of ⟦<dyn Framer as Framer>⟧ to.chain) to.receiver }
    requires represents { Represents (layers_of ⟦<dyn Framer as Framer>⟧ to.chain) to.receiver.ended
        (unread_of to.receiver.source) [] [] }
    requires goes_on { to.receiver.ended ≡ false }
    requires held { IsHeld (N.net net.old).trace to.socket (is_stream to.stack) to.sender.shut to.receiver.ended }
    requires apart { to.socket ≢ from.socket }
    requires told { (N.net net.old).told ≡ at }
    requires spare { 6 ≤ (N.net net.old).spare }
    requires deadline { deadline < 2 ^ 63 }
    requires some { (N.net net.old).trace ≢ [] }
    ensures closed { (x : Ends) (piece : ℕ) →
        unread_of to.entry.receiver.source ≡ first_unread to.entry.stack piece
        (length (layers_of ⟦<dyn Framer as Framer>⟧ to.entry.chain)) →
        AreEndsOver x from.entry.socket from.entry.stack to.entry.socket to.entry.stack
        (layers_of ⟦<dyn Framer as Framer>⟧ from.entry.chain) messages.items at piece deadline →
        HasClosedBoth N.Becomes x from.entry.socket to.entry.socket net.old net.new result }
    ensures closes { ClosesBoth from.entry.socket to.entry.socket (N.net net.old) (N.net net.new) }
{
    match accept_all(&mut from, messages, at) {
        Ok(()) => exchange_open(alloc, from, to, deadline, net),
        Err(none) => {
            abort_both(from, to, net);
            Err(none)
        }
    }
}

// Closes the socket of a connection, and another.
fn abort_and_close<N: Sockets>(from: Connection<'_, Established>, to: u32, net: &mut N)
    requires first { has (live_sockets (N.net net.old).trace) from.socket ≡ true }
    requires second { has (live_sockets (N.net net.old).trace) to ≡ true }
    requires apart { to ≢ from.socket }
    requires spare { 2 ≤ (N.net net.old).spare }
    ensures becomes { N.Becomes net.old (closes to ∷ closes from.entry.socket ∷ []) net.new }
    ensures closes { ClosesTwo from.entry.socket to (N.net net.old) (N.net net.new) }
{
    let _ = from.abort(net);
    net.close(to);
}

// The exchange of a new connection with the accepted socket.
fn exchange_with<N: Reporting>(
    alloc: Global,
    from: Connection<'_, Established>,
    to: u32,
    accepting: Stack,
    chain: Chain<'_>,
    props: ConnectionProps,
    piece: u64,
    messages: Vec<Message>,
    at: u64,
    deadline: u64,
    net: &mut N,
) -> Result<Exchanged, NoMemory>
    requires ready { MayExchangeBoth from.socket from.stack to accepting at piece deadline (N.net net.old) }
    requires framers { AreFramers (layers_of ⟦<dyn Framer as Framer>⟧ from.chain) }
    requires same { layers_of ⟦<dyn Framer as Framer>⟧ chain ≡ layers_of ⟦<dyn Framer as Framer>⟧ from.chain }
    requires new { IsNewSender at from.sender }
    requires sends { IsSound (is_stream from.stack) (layers_of ⟦<dyn Framer as Framer>⟧ from.chain) from.sender }
    requires goes_on { from.receiver.ended ≡ false }
    ensures closed { HasClosedOver N.Becomes from.entry.socket from.entry.stack to accepting
        (layers_of ⟦<dyn Framer as Framer>⟧ from.entry.chain) messages.items at piece deadline net.old net.new result }
    ensures closes { ClosesBoth from.entry.socket to (N.net net.old) (N.net net.new) }
{
    match Connection::new(alloc, to, accepting, chain, props, piece, at) {
        Ok(to) => exchange_all(alloc, from, to, messages, at, deadline, net),
        Err(none) => {
            abort_and_close(from, to, net);
            Err(none)
        }
    }
}

// The exchange over both sockets, through a chain and a copy of it.
fn exchange_over<N: Reporting>(
    alloc: Global,
    from: u32,
    stack: Stack,
    to: u32,
    accepting: Stack,
    chain: Chain<'_>,
    copy: Chain<'_>,
    props: ConnectionProps,
    piece: u64,
    messages: Vec<Message>,
    at: u64,
    deadline: u64,
    net: &mut N,
) -> Result<Exchanged, NoMemory>
    requires ready { MayExchangeBoth from stack to accepting at piece deadline (N.net net.old) }
    requires framers { AreFramers (layers_of ⟦<dyn Framer as Framer>⟧ chain) }
    requires same { layers_of ⟦<dyn Framer as Framer>⟧ copy ≡ layers_of ⟦<dyn Framer as Framer>⟧ chain }
    ensures closed { HasClosedOver N.Becomes from stack to accepting
        (layers_of ⟦<dyn Framer as Framer>⟧ chain.entry) messages.items at piece deadline net.old net.new result }
    ensures closes { ClosesBoth from to (N.net net.old) (N.net net.new) }
{
    match Connection::new(alloc, from, stack, chain, props, piece, at) {
        Ok(connection) => exchange_with(
            alloc, connection, to, accepting, copy, props, piece, messages, at, deadline, net,
        ),
        Err(none) => {
            close_both(from, to, net);
            Err(none)
        }
    }
}

// The exchange over both sockets, from a time in milliseconds up to another.
pub fn exchange_both<N: Reporting>(
    alloc: Global,
    from: u32,
    stack: Stack,
    to: u32,
    accepting: Stack,
    chain: Chain<'_>,
    props: ConnectionProps,
    piece: u64,
    messages: Vec<Message>,
    at: u64,
    deadline: u64,
    net: &mut N,
) -> Result<Exchanged, NoMemory>
    requires ready { MayExchangeBoth from stack to accepting at piece deadline (N.net net.old) }
    ensures closed { HasClosedOver N.Becomes from stack to accepting
        (layers_of ⟦<dyn Framer as Framer>⟧ chain.entry) messages.items at piece deadline net.old net.new result }
    ensures closes { ClosesBoth from to (N.net net.old) (N.net net.new) }
{
    chain.vouch();
    match chain.copy() {
        Ok(copy) => exchange_over(
            alloc, from, stack, to, accepting, chain, copy, props, piece, messages, at, deadline,
            net,
        ),
        Err(none) => {
            close_both(from, to, net);
            Err(none)
        }
    }
}
