// What one end of a stream in memory hears of what the other sent.
ghost use Rattle.std.specs.Prelude.{◌≡◌, ◌<◌, true, length};
ghost use Rattle.taps_chain.specs.Layers.{layers_of};
ghost use Rattle.taps_connection.specs.Inboxes.{IsSoundReceiver};
ghost use Rattle.taps_connection.specs.Sound.{HasLeft};
ghost use Rattle.taps_connection.specs.Sources.{unread_of};
ghost use Rattle.taps_memory.specs.Joined.{are_ends};
ghost use Rattle.taps_memory.specs.Memory.{net_of};
ghost use Rattle.taps_memory_rows.specs.Heard.{IsHeardOver};
ghost use Rattle.taps_stack.specs.StackTable.{is_stream};

use taps_connection::{Connection, State, heard_as_sent};
use taps_framer::Framer;
use taps_memory::MemoryNet;

/// Nothing: its clause says that what was heard at one end of a connection in memory is a prefix of what was
/// sent at the other, boundaries kept, and that no Bad is heard. No premise on the sockets is left.
pub fn heard_over_memory<S: State, T: State>(
    net: &MemoryNet,
    from: &Connection<'_, S>,
    to: &Connection<'_, T>,
)
    requires ends { are_ends net.now.trace from.now.socket to.now.socket ≡ true }
    requires some { 0 < length (layers_of ⟦<dyn Framer as Framer>⟧ from.now.chain) }
    requires same { layers_of ⟦<dyn Framer as Framer>⟧ to.now.chain ≡
        layers_of ⟦<dyn Framer as Framer>⟧ from.now.chain }
    requires stream { is_stream to.now.stack ≡ true }
    requires sound { IsSoundReceiver ⟦<dyn Framer as Framer>⟧ to.now.stack
        (layers_of ⟦<dyn Framer as Framer>⟧ to.now.chain) to.now.receiver }
    requires left { HasLeft from.now.sender.begun }
    ensures { IsHeardOver (net_of net.now) (layers_of ⟦<dyn Framer as Framer>⟧ from.now.chain) from.now.socket
        to.now.socket from.now.sender.sent from.now.sender.begun to.now.receiver.ended
        (unread_of to.now.receiver.source) }
{
    net.joined();
    heard_as_sent(from, to);
}
