// A connection hears messages.
ghost use Rattle.std.specs.Prelude.{◌≡◌, ◌≤◌, ◌<◌, ◌^◌, ◌-◌, ◌++◌, ◌+◌, ℕ, List, Bool, map, length};
ghost use Rattle.taps_framer.specs.Layers.{Layer};
ghost use Rattle.taps_chain.specs.ChainLaws.{AreFramers};
ghost use Rattle.taps_chain.specs.Layers.{layers_of};
ghost use Rattle.taps_connection.specs.Conditions.{IsHeld};
ghost use Rattle.taps_connection.specs.Histories.{Represents, message};
ghost use Rattle.taps_connection.specs.Inboxes.{IsSoundReceiver};
ghost use Rattle.taps_connection.specs.Sources.{unread_of};
ghost use Rattle.taps_connection.specs.Unread.{count_given, IsWanting};
ghost use Rattle.taps_stack.specs.StackTable.{is_stream};
ghost use Rattle.taps_exchange.specs.Changes.{Changes};
ghost use Rattle.taps_exchange.specs.Decodings.{Decoding, decoding_of};
ghost use Rattle.taps_exchange.specs.Hearings.{Fits, HasHeard, HasStepped, IsLacking, IfAllHeard, IfGoesOn, IsCloser, one_unless};

use crate::Outcome;
use crate::asking::ask_once;
use taps_base::{Body, NoMemory};
use taps_chain::Heard;
use taps_connection::{Connection, Open, Pulled};
use taps_framer::Framer;
use taps_socket::Sockets;

/// Hears messages on a connection, up to a time in milliseconds, until so many were heard on it in all.
/// It says how the exchange ends, if it does before.
pub fn hear_until<N: Sockets, S: Open>(
    connection: &mut Connection<'_, S>,
    needs: u64,
    until: u64,
    net: &mut N,
    heard: &mut Vec<Body>,
) -> Result<Option<Outcome>, NoMemory>
    requires framers { AreFramers (layers_of ⟦<dyn Framer as Framer>⟧ connection.old.chain) }
    requires sound { IsSoundReceiver ⟦<dyn Framer as Framer>⟧ connection.old.stack
        (layers_of ⟦<dyn Framer as Framer>⟧ connection.old.chain) connection.old.receiver }
    requires held { IsHeld (N.net net.old).trace connection.old.socket (is_stream connection.old.stack)
        connection.old.sender.shut connection.old.receiver.ended }
    requires few { count_given (unread_of connection.old.receiver.source) ≤ needs }
    requires spare { one_unless connection.old.receiver.ended ≤ (N.net net.old).spare }
    requires until { until < 2 ^ 63 }
    ensures heard { (piece : ℕ) (read before : List (List ℕ)) →
        Fits (is_stream connection.old.stack) (layers_of ⟦<dyn Framer as Framer>⟧ connection.old.chain) piece
        (unread_of connection.old.receiver.source) →
        Represents (layers_of ⟦<dyn Framer as Framer>⟧ connection.old.chain) connection.old.receiver.ended
        (unread_of connection.old.receiver.source) read (map message (before ++ heard.old.items)) →
        HasHeard N.Becomes
        (decoding_of (is_stream connection.old.stack) (layers_of ⟦<dyn Framer as Framer>⟧ connection.old.chain))
        net.old net.new connection.old.socket piece until needs read connection.old.receiver.ended result
        (before ++ heard.new.items) }
    ensures changes { Changes connection.old.socket 1 (N.net net.old) (N.net net.new) }
    ensures held { IfAllHeard result (IsHeld (N.net net.new).trace connection.old.socket
        (is_stream connection.old.stack) connection.old.sender.shut connection.new.receiver.ended) }
    ensures kept { connection.new ≡
        record connection.old { receiver = connection.new.receiver; sender = connection.new.sender } }
    ensures sender { connection.new.sender ≡
        record connection.old.sender { moment = connection.new.sender.moment } }
    ensures moment { connection.old.sender.moment ≤ (N.net net.old).told →
        connection.new.sender.moment ≤ (N.net net.new).told }
{
    'hearing: while connection.given() < needs {
        match hear_next(connection, until, net) {
            Ok(Step::Message(body)) => match heard.push(body) {
                Ok(()) => {}
                Err(_) => return Err(NoMemory),
            },
            Ok(Step::More) => {}
            Ok(Step::Over(outcome)) => return Ok(Some(outcome)),
            Err(none) => return Err(none),
        }
    }
    Ok(None)
}

// What comes of one step of hearing.
#[derive(Drop)]
pub enum Step {
    Message(Body),
    More,
    Over(Outcome),
}

// Gives out the next message, or asks the socket once for bytes.
fn hear_next<N: Sockets, S: Open>(
    connection: &mut Connection<'_, S>,
    until: u64,
    net: &mut N,
) -> Result<Step, NoMemory>
    requires framers { AreFramers (layers_of ⟦<dyn Framer as Framer>⟧ connection.old.chain) }
    requires sound { IsSoundReceiver ⟦<dyn Framer as Framer>⟧ connection.old.stack
        (layers_of ⟦<dyn Framer as Framer>⟧ connection.old.chain) connection.old.receiver }
    requires held { IsHeld (N.net net.old).trace connection.old.socket (is_stream connection.old.stack)
        connection.old.sender.shut connection.old.receiver.ended }
    requires given { count_given (unread_of connection.old.receiver.source) < 2 ^ 64 - 1 }
    requires spare { one_unless connection.old.receiver.ended ≤ (N.net net.old).spare }
    requires until { until < 2 ^ 63 }
    ensures stepped { (piece needs : ℕ) (read heard : List (List ℕ)) →
        Fits (is_stream connection.old.stack) (layers_of ⟦<dyn Framer as Framer>⟧ connection.old.chain) piece
        (unread_of connection.old.receiver.source) →
        length heard < needs →
        Represents (layers_of ⟦<dyn Framer as Framer>⟧ connection.old.chain) connection.old.receiver.ended
        (unread_of connection.old.receiver.source) read (map message heard) →
        HasStepped N.Becomes
        (decoding_of (is_stream connection.old.stack) (layers_of ⟦<dyn Framer as Framer>⟧ connection.old.chain))
        (layers_of ⟦<dyn Framer as Framer>⟧ connection.old.chain) net.old net.new connection.old.socket piece until
        needs read connection.old.receiver.ended connection.new.receiver.ended
        (unread_of connection.new.receiver.source) result heard }
    ensures fits { (piece : ℕ) →
        Fits (is_stream connection.old.stack) (layers_of ⟦<dyn Framer as Framer>⟧ connection.old.chain) piece
        (unread_of connection.old.receiver.source) →
        Fits (is_stream connection.old.stack) (layers_of ⟦<dyn Framer as Framer>⟧ connection.old.chain) piece
        (unread_of connection.new.receiver.source) }
    ensures closer { IsCloser connection.old.receiver.ended (unread_of connection.old.receiver.source) result
        connection.new.receiver.ended (unread_of connection.new.receiver.source) }
    ensures changes { Changes connection.old.socket (one_unless connection.old.receiver.ended)
        (N.net net.old) (N.net net.new) }
    ensures spare { IfGoesOn result ((N.net net.old).spare + one_unless connection.new.receiver.ended ≤
        (N.net net.new).spare + one_unless connection.old.receiver.ended) }
    ensures sound { IsSoundReceiver ⟦<dyn Framer as Framer>⟧ connection.old.stack
        (layers_of ⟦<dyn Framer as Framer>⟧ connection.old.chain) connection.new.receiver }
    ensures held { IfGoesOn result (IsHeld (N.net net.new).trace connection.old.socket
        (is_stream connection.old.stack) connection.old.sender.shut connection.new.receiver.ended) }
    ensures kept { connection.new ≡
        record connection.old { receiver = connection.new.receiver; sender = connection.new.sender } }
    ensures sender { connection.new.sender ≡
        record connection.old.sender { moment = connection.new.sender.moment } }
    ensures moment { connection.old.sender.moment ≤ (N.net net.old).told →
        connection.new.sender.moment ≤ (N.net net.new).told }
{
    match connection.receive() {
        Heard::Message(body) => Ok(Step::Message(body)),
        Heard::Bad(bad) => Ok(Step::Over(Outcome::BadFrame(bad))),
        Heard::NoMemory => Err(NoMemory),
        Heard::Need => ask_next(connection, until, net),
    }
}

// Asks the socket once for bytes, unless the other end ended its sending side.
fn ask_next<N: Sockets, S: Open>(
    connection: &mut Connection<'_, S>,
    until: u64,
    net: &mut N,
) -> Result<Step, NoMemory>
    requires wanting { IsWanting (unread_of connection.old.receiver.source) }
    requires sound { IsSoundReceiver ⟦<dyn Framer as Framer>⟧ connection.old.stack
        (layers_of ⟦<dyn Framer as Framer>⟧ connection.old.chain) connection.old.receiver }
    requires held { IsHeld (N.net net.old).trace connection.old.socket (is_stream connection.old.stack)
        connection.old.sender.shut connection.old.receiver.ended }
    requires spare { one_unless connection.old.receiver.ended ≤ (N.net net.old).spare }
    requires until { until < 2 ^ 63 }
    ensures stepped { (d : Decoding) (piece needs : ℕ) (read heard : List (List ℕ)) →
        IsLacking d piece needs read connection.old.receiver.ended (unread_of connection.old.receiver.source) heard →
        Represents (layers_of ⟦<dyn Framer as Framer>⟧ connection.old.chain) connection.old.receiver.ended
        (unread_of connection.old.receiver.source) read (map message heard) →
        HasStepped N.Becomes d
        (layers_of ⟦<dyn Framer as Framer>⟧ connection.old.chain) net.old net.new connection.old.socket piece until
        needs read connection.old.receiver.ended connection.new.receiver.ended
        (unread_of connection.new.receiver.source) result heard }
    ensures fits { (stream : Bool) (fs : List Layer) (piece : ℕ) →
        Fits stream fs piece (unread_of connection.old.receiver.source) →
        Fits stream fs piece (unread_of connection.new.receiver.source) }
    ensures closer { IsCloser connection.old.receiver.ended (unread_of connection.old.receiver.source) result
        connection.new.receiver.ended (unread_of connection.new.receiver.source) }
    ensures changes { Changes connection.old.socket (one_unless connection.old.receiver.ended)
        (N.net net.old) (N.net net.new) }
    ensures spare { IfGoesOn result ((N.net net.old).spare + one_unless connection.new.receiver.ended ≤
        (N.net net.new).spare + one_unless connection.old.receiver.ended) }
    ensures sound { IsSoundReceiver ⟦<dyn Framer as Framer>⟧ connection.old.stack
        (layers_of ⟦<dyn Framer as Framer>⟧ connection.old.chain) connection.new.receiver }
    ensures held { IfGoesOn result (IsHeld (N.net net.new).trace connection.old.socket
        (is_stream connection.old.stack) connection.old.sender.shut connection.new.receiver.ended) }
    ensures kept { connection.new ≡
        record connection.old { receiver = connection.new.receiver; sender = connection.new.sender } }
    ensures sender { connection.new.sender ≡
        record connection.old.sender { moment = connection.new.sender.moment } }
    ensures moment { connection.old.sender.moment ≤ (N.net net.old).told →
        connection.new.sender.moment ≤ (N.net net.new).told }
{
    if connection.has_ended() {
        return Ok(Step::Over(Outcome::PeerEnded));
    }
    match ask_once(connection, until, net) {
        Pulled::Got => Ok(Step::More),
        Pulled::Ended => Ok(Step::More),
        Pulled::Timed(_) => Ok(Step::Over(Outcome::Timed)),
        Pulled::Failed(cause) => Ok(Step::Over(Outcome::DataFailed(cause))),
        Pulled::NoMemory => Err(NoMemory),
    }
}
