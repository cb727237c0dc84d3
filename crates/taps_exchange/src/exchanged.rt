// The exchange of one member that initiated.
ghost use Rattle.std.specs.Prelude.{◌≡◌, ◌≤◌, ◌<◌, ◌^◌, ℕ, [], false, length};
ghost use Rattle.taps_chain.specs.ChainLaws.{AreFramers};
ghost use Rattle.taps_chain.specs.Layers.{layers_of};
ghost use Rattle.taps_connection.specs.Conditions.{IsHeld};
ghost use Rattle.taps_connection.specs.Inboxes.{IsSoundReceiver};
ghost use Rattle.taps_connection.specs.Senders.{IsNewSender, queued};
ghost use Rattle.taps_connection.specs.Sound.{IsSound};
ghost use Rattle.taps_connection.specs.Sources.{unread_of};
ghost use Rattle.taps_connection.specs.Unread.{first_unread, count_given};
ghost use Rattle.taps_stack.specs.StackTable.{is_stream};
ghost use Rattle.taps_exchange.specs.Accepting.{accepted_of};
ghost use Rattle.taps_exchange.specs.Changes.{Changes};
ghost use Rattle.taps_exchange.specs.Exchanged.{member_over, IsFresh, HasTalked, HasExchanged};
ghost use Rattle.taps_exchange.specs.Exchanged as exchanged;

use crate::Outcome;
use crate::accepted::accept_all;
use crate::heard::hear_until;
use crate::sent::send_all;
use std::alloc::Global;
use taps_base::{Body, NoMemory};
use taps_chain::Chain;
use taps_connection::{Connection, Established};
use taps_framer::Framer;
use taps_message::Message;
use taps_property::ConnectionProps;
use taps_socket::Sockets;
use taps_stack::Stack;

/// How an exchange of messages went: its outcome, how many messages were sent, and those that were
/// heard.
#[derive(Debug, Drop)]
pub struct Exchanged {
    pub outcome: Outcome,
    pub sent: u64,
    pub heard: Vec<Body>,
}

/// Carries out the exchange of one member over a socket that was given to it: a connection is made, which
/// is handed the messages at a time in milliseconds, and each that it accepts has its turn; then so many
/// messages are heard, all up to another time. Over a stream so many bytes are asked for at once. The
/// socket is closed, once, whatever came.
pub fn exchange_over<N: Sockets>(
    alloc: Global,
    socket: u32,
    stack: Stack,
    chain: Chain<'_>,
    props: ConnectionProps,
    piece: u64,
    messages: Vec<Message>,
    at: u64,
    needs: u64,
    until: u64,
    net: &mut N,
) -> Result<Exchanged, NoMemory>
    requires some { 1 ≤ piece }
    requires few { piece ≤ 65536 }
    requires held { IsHeld (N.net net.old).trace socket (is_stream stack) false false }
    requires spare { 3 ≤ (N.net net.old).spare }
    requires until { until < 2 ^ 63 }
    ensures { HasExchanged N.Becomes net.old net.new (N.net net.old) (N.net net.new)
        (member_over socket stack (layers_of ⟦<dyn Framer as Framer>⟧ chain.entry) (accepted_of at messages.items) at
        needs piece until) result }
{
    chain.vouch();
    match Connection::new(alloc, socket, stack, chain, props, piece, at) {
        Ok(connection) => exchange_messages(alloc, connection, messages, at, needs, until, net),
        Err(none) => {
            net.close(socket);
            Err(none)
        }
    }
}

// The exchange of a new connection, which accepts all messages first.
fn exchange_messages<N: Sockets>(
    alloc: Global,
    mut connection: Connection<'_, Established>,
    messages: Vec<Message>,
    at: u64,
    needs: u64,
    until: u64,
    net: &mut N,
) -> Result<Exchanged, NoMemory>
    requires framers { AreFramers (layers_of ⟦<dyn Framer as Framer>⟧ connection.chain) }
    requires new { IsNewSender at connection.sender }
    requires sends { IsSound (is_stream connection.stack) (layers_of ⟦<dyn Framer as Framer>⟧ connection.chain)
        connection.sender }
    requires hears { IsSoundReceiver ⟦<dyn Framer as Framer>⟧ connection.stack
        (layers_of ⟦<dyn Framer as Framer>⟧ connection.chain) connection.receiver }
    requires none_given { count_given (unread_of connection.receiver.source) ≡ 0 }
    requires goes_on { connection.receiver.ended ≡ false }
    requires held { IsHeld (N.net net.old).trace connection.socket (is_stream connection.stack) false false }
    requires spare { 3 ≤ (N.net net.old).spare }
    requires until { until < 2 ^ 63 }
    ensures { (piece : ℕ) → unread_of connection.entry.receiver.source ≡ first_unread connection.entry.stack piece
        (length (layers_of ⟦<dyn Framer as Framer>⟧ connection.entry.chain)) →
        HasExchanged N.Becomes net.old net.new (N.net net.old) (N.net net.new)
        (member_over connection.entry.socket connection.entry.stack
        (layers_of ⟦<dyn Framer as Framer>⟧ connection.entry.chain) (accepted_of at messages.items) at needs piece
        until) result }
{
    match accept_all(&mut connection, messages, at) {
        Ok(()) => exchange(alloc, connection, needs, until, net),
        Err(none) => {
            let _ = connection.abort(net);
            Err(none)
        }
    }
}

/// Lets all messages that a new connection accepted have their turn, then hears so many messages, both
/// up to a time in milliseconds, and closes the socket, whatever came.
pub fn exchange<N: Sockets>(
    alloc: Global,
    mut connection: Connection<'_, Established>,
    needs: u64,
    until: u64,
    net: &mut N,
) -> Result<Exchanged, NoMemory>
    requires framers { AreFramers (layers_of ⟦<dyn Framer as Framer>⟧ connection.chain) }
    requires fresh { IsFresh connection.sender }
    requires sends { IsSound (is_stream connection.stack) (layers_of ⟦<dyn Framer as Framer>⟧ connection.chain)
        connection.sender }
    requires hears { IsSoundReceiver ⟦<dyn Framer as Framer>⟧ connection.stack
        (layers_of ⟦<dyn Framer as Framer>⟧ connection.chain) connection.receiver }
    requires none_given { count_given (unread_of connection.receiver.source) ≡ 0 }
    requires goes_on { connection.receiver.ended ≡ false }
    requires held { IsHeld (N.net net.old).trace connection.socket (is_stream connection.stack)
        connection.sender.shut connection.receiver.ended }
    requires spare { 3 ≤ (N.net net.old).spare }
    requires until { until < 2 ^ 63 }
    ensures { (piece : ℕ) → unread_of connection.entry.receiver.source ≡ first_unread connection.entry.stack piece
        (length (layers_of ⟦<dyn Framer as Framer>⟧ connection.entry.chain)) →
        HasExchanged N.Becomes net.old net.new (N.net net.old) (N.net net.new)
        (member_over connection.entry.socket connection.entry.stack
        (layers_of ⟦<dyn Framer as Framer>⟧ connection.entry.chain) (queued connection.entry.sender)
        connection.entry.sender.moment needs piece until) result }
{
    match talk(alloc, &mut connection, needs, until, net) {
        Ok(exchanged) => {
            let _ = connection.abort(net);
            Ok(exchanged)
        }
        Err(none) => {
            let _ = connection.abort(net);
            Err(none)
        }
    }
}

// Sends, and then hears.
fn talk<N: Sockets>(
    alloc: Global,
    connection: &mut Connection<'_, Established>,
    needs: u64,
    until: u64,
    net: &mut N,
) -> Result<Exchanged, NoMemory>
    requires framers { AreFramers (layers_of ⟦<dyn Framer as Framer>⟧ connection.old.chain) }
    requires fresh { IsFresh connection.old.sender }
    requires sends { IsSound (is_stream connection.old.stack)
        (layers_of ⟦<dyn Framer as Framer>⟧ connection.old.chain) connection.old.sender }
    requires hears { IsSoundReceiver ⟦<dyn Framer as Framer>⟧ connection.old.stack
        (layers_of ⟦<dyn Framer as Framer>⟧ connection.old.chain) connection.old.receiver }
    requires none_given { count_given (unread_of connection.old.receiver.source) ≡ 0 }
    requires goes_on { connection.old.receiver.ended ≡ false }
    requires held { IsHeld (N.net net.old).trace connection.old.socket (is_stream connection.old.stack)
        connection.old.sender.shut connection.old.receiver.ended }
    requires spare { 2 ≤ (N.net net.old).spare }
    requires until { until < 2 ^ 63 }
    ensures talked { (piece : ℕ) → unread_of connection.old.receiver.source ≡ first_unread connection.old.stack piece
        (length (layers_of ⟦<dyn Framer as Framer>⟧ connection.old.chain)) →
        HasTalked N.Becomes net.old net.new (member_over connection.old.socket connection.old.stack
        (layers_of ⟦<dyn Framer as Framer>⟧ connection.old.chain) (queued connection.old.sender)
        connection.old.sender.moment needs piece until) result }
    ensures changes { Changes connection.old.socket 2 (N.net net.old) (N.net net.new) }
    ensures kept { connection.new ≡
        record connection.old { receiver = connection.new.receiver; sender = connection.new.sender } }
{
    match send_all(connection, 0, until, net) {
        Ok(None) => {}
        Ok(Some(outcome)) => {
            return Ok(Exchanged {
                outcome,
                sent: connection.sent(),
                heard: Vec::new(alloc),
            });
        }
        Err(none) => return Err(none),
    }
    let sent = connection.sent();
    let expired = connection.first_expired();
    let mut heard = Vec::new(alloc);
    match hear_until(connection, needs, until, net, &mut heard) {
        Ok(stopped) => Ok(Exchanged {
            outcome: outcome_or(expired, stopped),
            sent,
            heard,
        }),
        Err(none) => Err(none),
    }
}

// The outcome, where all messages had their turn and the hearing ended so.
fn outcome_or(expired: Option<u64>, stopped: Option<Outcome>) -> Outcome
    ensures { result ≡ exchanged.outcome_or expired stopped }
{
    match (stopped, expired) {
        (Some(outcome), _) => outcome,
        (None, None) => Outcome::Done,
        (None, Some(number)) => Outcome::Expired { member: 0, number },
    }
}
