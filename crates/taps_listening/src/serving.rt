// A connection is accepted and served.
ghost use Rattle.std.specs.Prelude.{◌≡◌, ◌≢◌, ◌≤◌, ◌<◌, ◌^◌, ℕ, List, [], length, true, false, IfOk};
ghost use Rattle.taps_chain.specs.Layers.{layers_of};
ghost use Rattle.taps_chain.specs.ChainLaws.{AreFramers};
ghost use Rattle.taps_connection.specs.Conditions.{IsHeld};
ghost use Rattle.taps_connection.specs.Inboxes.{IsSoundReceiver};
ghost use Rattle.taps_connection.specs.Senders.{IsNewSender};
ghost use Rattle.taps_connection.specs.Sound.{IsSound};
ghost use Rattle.taps_connection.specs.Sources.{unread_of};
ghost use Rattle.taps_connection.specs.Unread.{first_unread};
ghost use Rattle.taps_stack.specs.StackTable.{is_stream};
ghost use Rattle.taps_listening.specs.Accepts.{HasServedOne, HasNext, IsListening, KeepsListening, PreservesNamed, phase_before};
ghost use Rattle.taps_listening.specs.ListenRules.{rules_of};
ghost use Rattle.taps_listening.specs.Listening.{Goes, course_at, accepting, serving};
ghost use Rattle.taps_listening.specs.Served.{KeepsServing};
ghost use Rattle.taps_listening.specs.Serving.{Served, first_served};

use crate::answering::{deadline, talk};
use crate::{ListenEnd, Service};
use std::alloc::Global;
use taps_base::NoMemory;
use taps_chain::Chain;
use taps_connection::{Connection, Established};
use taps_exchange::{Exchanged, Outcome};
use taps_framer::Framer;
use taps_message::Message;
use taps_socket::{AcceptAnswer, Sockets};

// What came of an accept: the exchange of a connection, which is closed, or the end of the session.
#[derive(Drop)]
pub enum Next {
    Served(Exchanged),
    Over(ListenEnd),
}

// Accepts the connection at a place, and serves it. The first accept is made at a time in milliseconds; before each other
// the time is asked.
pub fn serve_next<N: Sockets>(
    alloc: Global,
    service: &Service,
    chain: &Chain<'_>,
    messages: &[Message],
    listener: u32,
    first: u64,
    place: u32,
    net: &mut N,
) -> Result<Next, NoMemory>
    requires some { 1 ≤ service.now.piece }
    requires few { service.now.piece ≤ 65536 }
    requires more { place < service.now.connections }
    requires stream { is_stream service.now.target.stack ≡ true }
    requires listening { IsListening (N.net net.old).trace listener }
    requires spare { 7 ≤ (N.net net.old).spare }
    ensures next { (served : List Served) → length served ≡ place → HasNext N.Becomes
        (rules_of service.now (layers_of ⟦<dyn Framer as Framer>⟧ chain.now) messages.now)
        net.old net.new listener first served result }
    ensures keeps { KeepsListening listener 6 (N.net net.old) (N.net net.new) }
    ensures others { PreservesNamed (N.net net.old) (N.net net.new) }
{
    let at = time_before::<N>(service, chain, messages, listener, first, place, net);
    match net.accept(listener, deadline(service, at)) {
        AcceptAnswer::Accepted { socket, at } => {
            match serve(alloc, service, chain, messages, socket, at, place, net) {
                Ok(exchanged) => Ok(Next::Served(exchanged)),
                Err(none) => Err(none),
            }
        }
        AcceptAnswer::Timed { .. } => Ok(Next::Over(ListenEnd::Exchanged(Outcome::Timed))),
        AcceptAnswer::Faulted { .. } => Ok(Next::Over(ListenEnd::Faulted)),
    }
}

// The time from which an accept at a place counts.
fn time_before<N: Sockets>(
    service: &Service,
    chain: &Chain<'_>,
    messages: &[Message],
    listener: u32,
    first: u64,
    place: u32,
    net: &mut N,
) -> u64
    requires more { place < service.now.connections }
    requires spare { 1 ≤ (N.net net.old).spare }
    ensures goes { (served : List Served) → length served ≡ place → Goes N.Becomes
        (rules_of service.now (layers_of ⟦<dyn Framer as Framer>⟧ chain.now) messages.now) net.old net.new
        (course_at served (phase_before
        (rules_of service.now (layers_of ⟦<dyn Framer as Framer>⟧ chain.now) messages.now) listener first served))
        (course_at served (accepting listener result)) }
    ensures keeps { (socket : ℕ) → KeepsServing socket 1 (N.net net.old) (N.net net.new) }
{
    if place == 0 { first } else { net.now() }
}

// Serves the connection over a socket that was accepted at a time, and closes it.
fn serve<N: Sockets>(
    alloc: Global,
    service: &Service,
    chain: &Chain<'_>,
    messages: &[Message],
    socket: u32,
    since: u64,
    place: u32,
    net: &mut N,
) -> Result<Exchanged, NoMemory>
    requires some { 1 ≤ service.now.piece }
    requires few { service.now.piece ≤ 65536 }
    requires stream { is_stream service.now.target.stack ≡ true }
    requires held { IsHeld (N.net net.old).trace socket true false false }
    requires told { since ≤ (N.net net.old).told }
    requires spare { 4 ≤ (N.net net.old).spare }
    ensures served { (listener : ℕ) (served : List Served) → length served ≡ place → HasServedOne N.Becomes
        (rules_of service.now (layers_of ⟦<dyn Framer as Framer>⟧ chain.now) messages.now)
        net.old net.new listener (course_at served (serving listener (first_served socket since))) served result }
    ensures keeps { (listener : ℕ) → listener ≢ socket →
        KeepsListening listener 4 (N.net net.old) (N.net net.new) }
    ensures others { (s : ℕ) → s ≢ socket → (N.net net.new).traffic s ≡ (N.net net.old).traffic s }
{
    chain.vouch();
    match connect(alloc, service, chain, socket, since) {
        Ok(mut connection) => {
            let exchanged = talk(alloc, &mut connection, service, messages, place, since, net);
            let _ = connection.abort(net);
            exchanged
        }
        Err(none) => {
            net.close(socket);
            Err(none)
        }
    }
}

// A connection over a socket that was accepted at a time, through a copy of the chain.
fn connect<'a>(
    alloc: Global,
    service: &Service,
    chain: &Chain<'a>,
    socket: u32,
    since: u64,
) -> Result<Connection<'a, Established>, NoMemory>
    requires some { 1 ≤ service.now.piece }
    requires few { service.now.piece ≤ 65536 }
    ensures socket { IfOk result (λ c. (c.socket ≡ socket) × (c.stack ≡ service.now.target.stack)) }
    ensures layers { IfOk result (λ c. layers_of ⟦<dyn Framer as Framer>⟧ c.chain ≡
        layers_of ⟦<dyn Framer as Framer>⟧ chain.now) }
    ensures sender { IfOk result (λ c. IsNewSender since c.sender) }
    ensures sound { IfOk result (λ c. IsSound (is_stream service.now.target.stack)
        (layers_of ⟦<dyn Framer as Framer>⟧ c.chain) c.sender) }
    ensures receiver { IfOk result (λ c. IsSoundReceiver ⟦<dyn Framer as Framer>⟧ service.now.target.stack
        (layers_of ⟦<dyn Framer as Framer>⟧ c.chain) c.receiver) }
    ensures unread { IfOk result (λ c. unread_of c.receiver.source ≡ first_unread service.now.target.stack
        service.now.piece (length (layers_of ⟦<dyn Framer as Framer>⟧ c.chain))) }
    ensures goes_on { IfOk result (λ c. c.receiver.ended ≡ false) }
{
    let chain = chain.copy()?;
    Connection::new(
        alloc,
        socket,
        service.target.stack,
        chain,
        service.props,
        service.piece,
        since,
    )
}
