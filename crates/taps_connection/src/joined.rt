// What one end of a stream hears of what the other sent.
ghost use Rattle.std.specs.Prelude.{◌≡◌, ◌<◌, true, length};
ghost use Rattle.taps_chain.specs.Layers.{layers_of};
ghost use Rattle.taps_connection.specs.Inboxes.{IsSoundReceiver};
ghost use Rattle.taps_connection.specs.Joined.{IsHeardAsSent};
ghost use Rattle.taps_connection.specs.Sound.{HasLeft};
ghost use Rattle.taps_connection.specs.Sources.{unread_of};
ghost use Rattle.taps_stack.specs.StackTable.{is_stream};

use crate::connection::Connection;
use crate::state::State;
use taps_framer::Framer;

/// Nothing: its clause says that where two ends of a stream are joined reliably, and have the same
/// chain, what one end hears is a prefix of what the other sent, boundaries kept, and no Bad is heard.
pub fn heard_as_sent<S: State, T: State>(from: &Connection<'_, S>, to: &Connection<'_, T>)
    requires some { 0 < length (layers_of ⟦<dyn Framer as Framer>⟧ from.now.chain) }
    requires same { layers_of ⟦<dyn Framer as Framer>⟧ to.now.chain ≡
        layers_of ⟦<dyn Framer as Framer>⟧ from.now.chain }
    requires stream { is_stream to.now.stack ≡ true }
    requires sound { IsSoundReceiver ⟦<dyn Framer as Framer>⟧ to.now.stack
        (layers_of ⟦<dyn Framer as Framer>⟧ to.now.chain) to.now.receiver }
    requires left { HasLeft from.now.sender.begun }
    ensures { IsHeardAsSent (layers_of ⟦<dyn Framer as Framer>⟧ from.now.chain) from.now.sender.sent
        from.now.sender.begun to.now.receiver.ended (unread_of to.now.receiver.source) }
{
    from.chain.vouch();
    let _sent = from.sent();
    let _given = to.given();
}
