// The messages that a connection accepted have their turn.
ghost use Rattle.std.specs.Prelude.{◌≡◌, ◌≤◌, ◌<◌, ◌^◌};
ghost use Rattle.taps_chain.specs.Layers.{layers_of};
ghost use Rattle.taps_connection.specs.Conditions.{IsHeld};
ghost use Rattle.taps_connection.specs.Encodings.{encoding_of};
ghost use Rattle.taps_connection.specs.Senders.{rest_of};
ghost use Rattle.taps_connection.specs.Sound.{IsSound};
ghost use Rattle.taps_stack.specs.StackTable.{is_stream};
ghost use Rattle.taps_exchange.specs.Changes.{Changes};
ghost use Rattle.taps_exchange.specs.Sendings.{HasSent, IfAllSent};

use crate::Outcome;
use taps_base::NoMemory;
use taps_connection::{Connection, Open, Pushed};
use taps_framer::Framer;
use taps_socket::Sockets;

/// Lets all messages that a connection accepted have their turn, up to a time in milliseconds. It says
/// how the exchange ends, if it does: the connection is of the member at this place of its group.
pub fn send_all<N: Sockets, S: Open>(
    connection: &mut Connection<'_, S>,
    place: u32,
    until: u64,
    net: &mut N,
) -> Result<Option<Outcome>, NoMemory>
    requires sound { IsSound (is_stream connection.old.stack)
        (layers_of ⟦<dyn Framer as Framer>⟧ connection.old.chain) connection.old.sender }
    requires held { IsHeld (N.net net.old).trace connection.old.socket (is_stream connection.old.stack)
        connection.old.sender.shut connection.old.receiver.ended }
    requires room { rest_of connection.old.sender ≤ ((N.net net.old).traffic connection.old.socket).room }
    requires spare { 2 ≤ (N.net net.old).spare }
    requires until { until < 2 ^ 63 }
    ensures sent { HasSent N.Becomes
        (encoding_of (is_stream connection.old.stack) (layers_of ⟦<dyn Framer as Framer>⟧ connection.old.chain))
        net.old net.new connection.old.socket until place connection.old.sender result connection.new.sender }
    ensures changes { Changes connection.old.socket 1 (N.net net.old) (N.net net.new) }
    ensures sound { IsSound (is_stream connection.old.stack)
        (layers_of ⟦<dyn Framer as Framer>⟧ connection.old.chain) connection.new.sender }
    ensures held { IfAllSent result (IsHeld (N.net net.new).trace connection.old.socket
        (is_stream connection.old.stack) connection.new.sender.shut connection.old.receiver.ended) }
    ensures room { rest_of connection.new.sender ≤ ((N.net net.new).traffic connection.old.socket).room }
    ensures kept { connection.new ≡ record connection.old { sender = connection.new.sender } }
{
    'sending: loop {
        match connection.drive_out(net, until) {
            Pushed::Sent(_) => {}
            Pushed::Expired(_) => {}
            Pushed::Empty => return Ok(None),
            Pushed::Timed(_) => return Ok(Some(Outcome::Timed)),
            Pushed::Failed(cause) => return Ok(Some(Outcome::DataFailed(cause))),
            Pushed::NotSpeakable { number, layer } => {
                return Ok(Some(Outcome::NotSpeakable {
                    member: place,
                    number,
                    layer,
                }));
            }
            Pushed::NoMemory => return Err(NoMemory),
        }
    }
}
