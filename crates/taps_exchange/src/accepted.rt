// A new connection accepts messages.
ghost use Rattle.std.specs.Prelude.{◌≡◌, max, IfOk};
ghost use Rattle.taps_chain.specs.Layers.{layers_of};
ghost use Rattle.taps_message.specs.Queues.{push_refusal, with_message};
ghost use Rattle.taps_connection.specs.Senders.{IsNewSender, queued};
ghost use Rattle.taps_connection.specs.Sound.{IsSound};
ghost use Rattle.taps_stack.specs.StackTable.{is_stream};
ghost use Rattle.taps_exchange.specs.Accepting.{accepted_of, unless_refused};
ghost use Rattle.taps_exchange.specs.Exchanged.{IsFresh};

use taps_base::NoMemory;
use taps_connection::{Connection, Established};
use taps_framer::Framer;
use taps_message::{Message, PushError};

/// Hands a new connection messages at a time in milliseconds, in order. One that it refuses is passed
/// over.
pub fn accept_all(
    connection: &mut Connection<'_, Established>,
    messages: Vec<Message>,
    at: u64,
) -> Result<(), NoMemory>
    requires new { IsNewSender at connection.old.sender }
    requires sound { IsSound (is_stream connection.old.stack)
        (layers_of ⟦<dyn Framer as Framer>⟧ connection.old.chain) connection.old.sender }
    ensures accepted { IfOk result (λ done. queued connection.new.sender ≡ accepted_of at messages.items) }
    ensures fresh { IsFresh connection.new.sender }
    ensures moment { connection.new.sender.moment ≡ at }
    ensures still_open { connection.new.sender.shut ≡ connection.old.sender.shut }
    ensures sound { IsSound (is_stream connection.old.stack)
        (layers_of ⟦<dyn Framer as Framer>⟧ connection.old.chain) connection.new.sender }
    ensures kept { connection.new ≡ record connection.old { sender = connection.new.sender } }
{
    'accepting: for message in messages {
        match hand(connection, message, at) {
            Ok(()) => {}
            Err(none) => return Err(none),
        }
    }
    Ok(())
}

// Hands a connection a message.
fn hand(
    connection: &mut Connection<'_, Established>,
    message: Message,
    at: u64,
) -> Result<(), NoMemory>
    requires sound { IsSound (is_stream connection.old.stack)
        (layers_of ⟦<dyn Framer as Framer>⟧ connection.old.chain) connection.old.sender }
    ensures handed { IfOk result (λ done. connection.new.sender.queue.queue ≡ unless_refused
        (push_refusal connection.old.sender.queue.queue message) connection.old.sender.queue.queue
        (with_message message at connection.old.sender.queue.queue)) }
    ensures sender { connection.new.sender ≡ record connection.old.sender
        { queue = connection.new.sender.queue; moment = max connection.old.sender.moment at } }
    ensures sound { IsSound (is_stream connection.old.stack)
        (layers_of ⟦<dyn Framer as Framer>⟧ connection.old.chain) connection.new.sender }
    ensures kept { connection.new ≡ record connection.old { sender = connection.new.sender } }
{
    match connection.send(message, at) {
        Ok(()) => Ok(()),
        Err((PushError::NoMemory, _)) => Err(NoMemory),
        Err((PushError::AfterFinal, _)) => Ok(()),
        Err((PushError::TooMany(_), _)) => Ok(()),
        Err((PushError::TooMuch(_), _)) => Ok(()),
    }
}
