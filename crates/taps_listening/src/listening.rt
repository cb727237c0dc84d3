// The role of a session that listens.
ghost use Rattle.std.specs.Prelude.{◌≡◌, ◌≤◌, ◌+◌, ◌*◌, ◌∷◌, [], true};
ghost use Rattle.taps_chain.specs.Layers.{layers_of};
ghost use Rattle.taps_socket.specs.declared.item.Item.TheVariants.{Closed};
ghost use Rattle.taps_socket.specs.Calls.{closes};
ghost use Rattle.taps_socket.specs.LiveSockets.{live_sockets};
ghost use Rattle.taps_socket.specs.Net.{with_item};
ghost use Rattle.taps_socket.specs.RaceSockets.{has};
ghost use Rattle.taps_stack.specs.StackTable.{is_stream};
ghost use Rattle.taps_listening.specs.Accepts as accepts;
ghost use Rattle.taps_listening.specs.Accepts.{HasAcceptedAll, IsListening, KeepsListening, PreservesNamed};
ghost use Rattle.taps_listening.specs.Listened.{HasListened};
ghost use Rattle.taps_listening.specs.Listening as listening;
ghost use Rattle.taps_listening.specs.ListenRules.{rules_of};

use crate::serving::{Next, serve_next};
use crate::{Answered, ListenEnd, Listened, Service};
use std::alloc::Global;
use taps_base::NoMemory;
use taps_chain::Chain;
use taps_exchange::{Exchanged, Outcome};
use taps_framer::Framer;
use taps_message::Message;
use taps_socket::{ListenAnswer, Sockets};

/// Listens for connections, of which it accepts one after the other. Each hears as many messages as are expected, and then
/// accepts all of these and sends them, through a copy of the chain. Every socket is closed, once, whatever came.
///
/// For each connection six items are added at most, and three besides.
pub fn listen_over<N: Sockets>(
    alloc: Global,
    service: Service,
    chain: &Chain<'_>,
    messages: &[Message],
    net: &mut N,
) -> Result<Listened, NoMemory>
    requires some { 1 ≤ service.piece }
    requires few { service.piece ≤ 65536 }
    requires connections { 1 ≤ service.connections }
    requires stream { is_stream service.target.stack ≡ true }
    requires spare { 6 * service.connections + 3 ≤ (N.net net.old).spare }
    ensures { HasListened N.Becomes net.old net.new (N.net net.old) (N.net net.new)
        (rules_of service (layers_of ⟦<dyn Framer as Framer>⟧ chain.now) messages.now) result }
{
    net.now();
    match net.listen(service.target) {
        ListenAnswer::Listening { socket, at } => {
            let mut members = Vec::new(alloc);
            let ended = accept_each(
                alloc,
                &service,
                chain,
                messages,
                socket,
                at,
                net,
                &mut members,
            );
            stop(socket, net);
            match ended {
                Ok(end) => Ok(Listened { end, members }),
                Err(none) => Err(none),
            }
        }
        ListenAnswer::Refused { cause, at: _ } => Ok(Listened {
            end: ListenEnd::NotListening(cause),
            members: Vec::new(alloc),
        }),
    }
}

// Closes the listener.
fn stop<N: Sockets>(listener: u32, net: &mut N)
    requires room { 1 ≤ (N.net net.old).spare }
    requires live { has (live_sockets (N.net net.old).trace) listener ≡ true }
    ensures net { N.net net.new ≡ with_item (N.net net.old) (Closed listener) (N.net net.old).told }
    ensures becomes { N.Becomes net.old (closes listener ∷ []) net.new }
{
    net.close(listener);
}

// Accepts the connections and serves each, from a time in milliseconds on. It says how the session ends, and what each
// connection sent and heard.
fn accept_each<N: Sockets>(
    alloc: Global,
    service: &Service,
    chain: &Chain<'_>,
    messages: &[Message],
    listener: u32,
    first: u64,
    net: &mut N,
    members: &mut Vec<Answered>,
) -> Result<ListenEnd, NoMemory>
    requires some { 1 ≤ service.now.piece }
    requires few { service.now.piece ≤ 65536 }
    requires connections { 1 ≤ service.now.connections }
    requires stream { is_stream service.now.target.stack ≡ true }
    requires listening { IsListening (N.net net.old).trace listener }
    requires none { members.old.items ≡ [] }
    requires spare { 6 * service.now.connections + 1 ≤ (N.net net.old).spare }
    ensures accepted { HasAcceptedAll N.Becomes
        (rules_of service.now (layers_of ⟦<dyn Framer as Framer>⟧ chain.now) messages.now)
        net.old net.new listener first result members.new.items }
    ensures keeps { KeepsListening listener (6 * service.now.connections) (N.net net.old) (N.net net.new) }
    ensures others { PreservesNamed (N.net net.old) (N.net net.new) }
{
    let mut outcome = Outcome::Done;
    'accepting: for place in 0..service.connections {
        match serve_next(alloc, service, chain, messages, listener, first, place, net) {
            Ok(Next::Served(exchanged)) => {
                let Exchanged {
                    outcome: own,
                    sent,
                    heard,
                } = exchanged;
                match members.push(Answered { sent, heard }) {
                    Ok(()) => {}
                    Err(_) => return Err(NoMemory),
                }
                if !is_done(own) {
                    return Ok(ListenEnd::Exchanged(own));
                }
                outcome = or_later(outcome, own);
            }
            Ok(Next::Over(end)) => return Ok(end),
            Err(none) => return Err(none),
        }
    }
    Ok(ListenEnd::Exchanged(outcome))
}

// Behind a connection with this outcome the session goes on.
fn is_done(outcome: Outcome) -> bool
    ensures { result ≡ accepts.is_done outcome }
{
    matches!(outcome, Outcome::Done | Outcome::Expired { .. })
}

// The first of two outcomes that is not Done.
fn or_later(first: Outcome, later: Outcome) -> Outcome
    ensures { result ≡ listening.or_later first later }
{
    match first {
        Outcome::Done => later,
        _ => first,
    }
}
