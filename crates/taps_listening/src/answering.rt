// An accepted connection hears messages, and then sends its own.
ghost use Rattle.std.specs.Prelude.{◌≡◌, ◌≤◌, ◌<◌, ◌^◌, ◌-◌, ◌+◌, ℕ, min, [], None, Some, true, false, length, IfOk};
ghost use Rattle.taps_chain.specs.ChainLaws.{AreFramers};
ghost use Rattle.taps_chain.specs.Layers.{layers_of};
ghost use Rattle.taps_message.specs.Queues.{empty_queue};
ghost use Rattle.taps_connection.specs.Conditions.{IsHeld};
ghost use Rattle.taps_connection.specs.Inboxes.{IsSoundReceiver};
ghost use Rattle.taps_connection.specs.Senders.{IsNewSender};
ghost use Rattle.taps_connection.specs.Sound.{IsSound};
ghost use Rattle.taps_connection.specs.Sources.{unread_of};
ghost use Rattle.taps_connection.specs.Unread.{first_unread};
ghost use Rattle.taps_socket.specs.LiveSockets.{live_sockets};
ghost use Rattle.taps_socket.specs.RaceSockets.{has};
ghost use Rattle.taps_stack.specs.StackTable.{is_stream};
ghost use Rattle.taps_exchange.specs.Exchanged.{IsFresh};
ghost use Rattle.taps_exchange.specs.Exchanged as exchanged;
ghost use Rattle.taps_exchange.specs.Turns.{done_or};
ghost use Rattle.taps_exchange.specs.declared.outcome.Outcome.TheVariants as outcome;
ghost use Rattle.taps_listening.specs.ListenRules.{rules_of, deadline_from};
ghost use Rattle.taps_listening.specs.Serving.{Served, first_served};
ghost use Rattle.taps_listening.specs.Served.{HasServed, MayAnswer, KeepsServing, outcome_or};

use crate::Service;
use crate::accepting::accept_copies;
use std::alloc::Global;
use taps_base::{Body, NoMemory};
use taps_connection::{Connection, Established};
use taps_exchange::{Exchanged, Outcome, hear_until, send_all};
use taps_framer::Framer;
use taps_message::Message;
use taps_socket::Sockets;

// The last time of what begins at a time, in milliseconds.
pub fn deadline(service: &Service, at: u64) -> u64
    ensures is { result ≡ min (at + service.now.deadline_ms) (2 ^ 63 - 1) }
    ensures fits { result < 2 ^ 63 }
{
    at.saturating_add(service.deadline_ms).min(i64::MAX as u64)
}

// Carries out the exchange over a connection that was accepted at a time, at a place, and was not used yet: it hears as
// many messages as are expected, and then sends its own.
pub fn talk<N: Sockets>(
    alloc: Global,
    connection: &mut Connection<'_, Established>,
    service: &Service,
    messages: &[Message],
    place: u32,
    since: u64,
    net: &mut N,
) -> Result<Exchanged, NoMemory>
    requires stack { connection.old.stack ≡ service.now.target.stack }
    requires stream { is_stream service.now.target.stack ≡ true }
    requires framers { AreFramers (layers_of ⟦<dyn Framer as Framer>⟧ connection.old.chain) }
    requires new { IsNewSender since connection.old.sender }
    requires told { since ≤ (N.net net.old).told }
    requires sends { IsSound (is_stream connection.old.stack)
        (layers_of ⟦<dyn Framer as Framer>⟧ connection.old.chain) connection.old.sender }
    requires hears { IsSoundReceiver ⟦<dyn Framer as Framer>⟧ connection.old.stack
        (layers_of ⟦<dyn Framer as Framer>⟧ connection.old.chain) connection.old.receiver }
    requires unread { unread_of connection.old.receiver.source ≡ first_unread connection.old.stack service.now.piece
        (length (layers_of ⟦<dyn Framer as Framer>⟧ connection.old.chain)) }
    requires goes_on { connection.old.receiver.ended ≡ false }
    requires held { IsHeld (N.net net.old).trace connection.old.socket true false false }
    requires spare { 4 ≤ (N.net net.old).spare }
    ensures served { HasServed N.Becomes
        (rules_of service.now (layers_of ⟦<dyn Framer as Framer>⟧ connection.old.chain) messages.now) place
        net.old net.new (first_served connection.old.socket since) result }
    ensures keeps { KeepsServing connection.old.socket 3 (N.net net.old) (N.net net.new) }
    ensures socket { connection.new.socket ≡ connection.old.socket }
{
    let until = deadline(service, since);
    let mut heard = Vec::new(alloc);
    match hear_until(connection, service.expect, until, net, &mut heard) {
        Ok(None) => answer(
            alloc, connection, service, messages, place, until, heard, net,
        ),
        Ok(Some(outcome)) => Ok(Exchanged {
            outcome,
            sent: connection.sent(),
            heard,
        }),
        Err(none) => Err(none),
    }
}

// Asks the time, at which the connection accepts all messages, and sends them, where it heard these.
fn answer<N: Sockets>(
    alloc: Global,
    connection: &mut Connection<'_, Established>,
    service: &Service,
    messages: &[Message],
    place: u32,
    until: u64,
    heard: Vec<Body>,
    net: &mut N,
) -> Result<Exchanged, NoMemory>
    requires stack { connection.old.stack ≡ service.now.target.stack }
    requires stream { is_stream service.now.target.stack ≡ true }
    requires none { connection.old.sender.queue.queue ≡ empty_queue }
    requires fresh { IsFresh connection.old.sender }
    requires open { connection.old.sender.shut ≡ false }
    requires told { connection.old.sender.moment ≤ (N.net net.old).told }
    requires sends { IsSound (is_stream connection.old.stack)
        (layers_of ⟦<dyn Framer as Framer>⟧ connection.old.chain) connection.old.sender }
    requires held { IsHeld (N.net net.old).trace connection.old.socket true false connection.old.receiver.ended }
    requires spare { 3 ≤ (N.net net.old).spare }
    requires until { until < 2 ^ 63 }
    ensures answered { (c : Served) → MayAnswer
        (rules_of service.now (layers_of ⟦<dyn Framer as Framer>⟧ connection.old.chain) messages.now) place
        connection.old.socket until heard.items c →
        HasServed N.Becomes
        (rules_of service.now (layers_of ⟦<dyn Framer as Framer>⟧ connection.old.chain) messages.now) place
        net.old net.new c result }
    ensures keeps { KeepsServing connection.old.socket 2 (N.net net.old) (N.net net.new) }
    ensures socket { connection.new.socket ≡ connection.old.socket }
{
    let at = net.now();
    match accept_copies(alloc, connection, messages, at) {
        Ok(()) => {}
        Err(none) => return Err(none),
    }
    match send_all(connection, place, until, net) {
        Ok(stopped) => Ok(Exchanged {
            outcome: outcome_at(place, connection.first_expired(), stopped),
            sent: connection.sent(),
            heard,
        }),
        Err(none) => Err(none),
    }
}

// The outcome of the connection at a place, where all messages had their turn, or the sending ended so.
fn outcome_at(place: u32, expired: Option<u64>, stopped: Option<Outcome>) -> Outcome
    ensures { result ≡ outcome_or place expired stopped }
{
    match (stopped, expired) {
        (Some(outcome), _) => outcome,
        (None, None) => Outcome::Done,
        (None, Some(number)) => Outcome::Expired {
            member: place,
            number,
        },
    }
}
