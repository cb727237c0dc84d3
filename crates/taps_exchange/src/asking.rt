// A connection asks its socket for bytes.
ghost use Rattle.std.specs.Prelude.{◌≡◌, ◌≤◌, ◌<◌, ◌^◌, List, false};
ghost use Rattle.taps_chain.specs.Layers.{layers_of};
ghost use Rattle.taps_connection.specs.Adds.{Adds};
ghost use Rattle.taps_connection.specs.Conditions.{IsHeld};
ghost use Rattle.taps_connection.specs.Histories.{Given, RepresentsRead};
ghost use Rattle.taps_connection.specs.Inboxes.{inbox_of, IsSoundReceiver, IsPulled, UnlessFailed, pulled_items, pulled_call};
ghost use Rattle.taps_connection.specs.Rooms.{room_of, piece_of};
ghost use Rattle.taps_connection.specs.Sources.{unread_of};
ghost use Rattle.taps_connection.specs.Unread.{IsWanting};
ghost use Rattle.taps_stack.specs.StackTable.{is_stream};

use taps_connection::{Connection, Open, Pulled};
use taps_framer::Framer;
use taps_socket::Sockets;

/// Asks the socket once for bytes, up to a time in milliseconds, and takes in what comes. Room for as many as a receive
/// can bring is made before; where memory runs out then, the socket is not asked.
pub fn ask_once<N: Sockets, S: Open>(
    connection: &mut Connection<'_, S>,
    until: u64,
    net: &mut N,
) -> Pulled
    requires wanting { IsWanting (unread_of connection.old.receiver.source) }
    requires goes_on { connection.old.receiver.ended ≡ false }
    requires sound { IsSoundReceiver ⟦<dyn Framer as Framer>⟧ connection.old.stack
        (layers_of ⟦<dyn Framer as Framer>⟧ connection.old.chain) connection.old.receiver }
    requires held { IsHeld (N.net net.old).trace connection.old.socket (is_stream connection.old.stack)
        connection.old.sender.shut connection.old.receiver.ended }
    requires spare { 1 ≤ (N.net net.old).spare }
    requires until { until < 2 ^ 63 }
    ensures pulled { IsPulled N.Becomes net.old net.new (N.net net.old) (N.net net.new) connection.old.socket until
        (inbox_of connection.old.receiver connection.old.sender.moment) result
        (inbox_of connection.new.receiver connection.new.sender.moment) }
    ensures memory { result ≡ Pulled.NoMemory →
        room_of connection.old.receiver.source < piece_of (unread_of connection.old.receiver.source) }
    ensures sound { IsSoundReceiver ⟦<dyn Framer as Framer>⟧ connection.old.stack
        (layers_of ⟦<dyn Framer as Framer>⟧ connection.old.chain) connection.new.receiver }
    ensures held { UnlessFailed result (IsHeld (N.net net.new).trace connection.old.socket
        (is_stream connection.old.stack) connection.old.sender.shut connection.new.receiver.ended) }
    ensures adds { Adds connection.old.socket (pulled_items connection.old.socket result)
        (pulled_call connection.old.socket until result) (N.net net.old) (N.net net.new) }
    ensures traffic { (N.net net.new).traffic connection.old.socket ≡
        record ((N.net net.old).traffic connection.old.socket)
        { read = ((N.net net.new).traffic connection.old.socket).read } }
    ensures represents { (given : List Given) →
        RepresentsRead (layers_of ⟦<dyn Framer as Framer>⟧ connection.old.chain) connection.old.receiver.ended
        (unread_of connection.old.receiver.source) ((N.net net.old).traffic connection.old.socket).read given →
        RepresentsRead (layers_of ⟦<dyn Framer as Framer>⟧ connection.old.chain) connection.new.receiver.ended
        (unread_of connection.new.receiver.source) ((N.net net.new).traffic connection.old.socket).read given }
    ensures kept { connection.new ≡
        record connection.old { receiver = connection.new.receiver; sender = connection.new.sender } }
    ensures sender { connection.new.sender ≡
        record connection.old.sender { moment = connection.new.sender.moment } }
{
    let piece = connection.piece();
    match connection.make_room_in(piece) {
        Ok(()) => connection.drive_in(net, until),
        Err(_) => Pulled::NoMemory,
    }
}
