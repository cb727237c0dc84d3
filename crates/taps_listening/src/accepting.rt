// An accepted connection accepts all messages at one time.
ghost use Rattle.std.specs.Prelude.{◌≡◌, ◌≤◌, length, max, IfOk};
ghost use Rattle.taps_chain.specs.Layers.{layers_of};
ghost use Rattle.taps_message.specs.Queues.{empty_queue, push_refusal, with_message};
ghost use Rattle.taps_connection.specs.Senders.{queued};
ghost use Rattle.taps_connection.specs.Sound.{IsSound};
ghost use Rattle.taps_stack.specs.StackTable.{is_stream};
ghost use Rattle.taps_exchange.specs.Accepting.{accepted_of, unless_refused};
ghost use Rattle.taps_exchange.specs.Exchanged.{IsFresh};

use std::alloc::Global;
use taps_base::{Body, NoMemory};
use taps_connection::{Connection, Established};
use taps_framer::Framer;
use taps_message::{Message, PushError};

// Hands a connection, which accepted none before, copies of messages at a time in milliseconds, in order. One that it
// refuses is passed over.
pub fn accept_copies(
    alloc: Global,
    connection: &mut Connection<'_, Established>,
    messages: &[Message],
    at: u64,
) -> Result<(), NoMemory>
    requires none { connection.old.sender.queue.queue ≡ empty_queue }
    requires fresh { IsFresh connection.old.sender }
    requires earlier { connection.old.sender.moment ≤ at }
    requires sound { IsSound (is_stream connection.old.stack)
        (layers_of ⟦<dyn Framer as Framer>⟧ connection.old.chain) connection.old.sender }
    ensures accepted { IfOk result (λ done. queued connection.new.sender ≡ accepted_of at messages.now) }
    ensures moment { IfOk result (λ done. 1 ≤ length messages.now → connection.new.sender.moment ≡ at) }
    ensures fresh { IsFresh connection.new.sender }
    ensures still_open { connection.new.sender.shut ≡ connection.old.sender.shut }
    ensures sound { IsSound (is_stream connection.old.stack)
        (layers_of ⟦<dyn Framer as Framer>⟧ connection.old.chain) connection.new.sender }
    ensures kept { connection.new ≡ record connection.old { sender = connection.new.sender } }
{
    'accepting: for message in messages {
        match hand_copy(alloc, connection, message, at) {
            Ok(()) => {}
            Err(none) => return Err(none),
        }
    }
    Ok(())
}

// Hands a connection a copy of a message.
fn hand_copy(
    alloc: Global,
    connection: &mut Connection<'_, Established>,
    message: &Message,
    at: u64,
) -> Result<(), NoMemory>
    requires sound { IsSound (is_stream connection.old.stack)
        (layers_of ⟦<dyn Framer as Framer>⟧ connection.old.chain) connection.old.sender }
    ensures handed { IfOk result (λ done. connection.new.sender.queue.queue ≡ unless_refused
        (push_refusal connection.old.sender.queue.queue message.now) connection.old.sender.queue.queue
        (with_message message.now at connection.old.sender.queue.queue)) }
    ensures moment { IfOk result (λ done. connection.new.sender.moment ≡ max connection.old.sender.moment at) }
    ensures sender { connection.new.sender ≡ record connection.old.sender
        { queue = connection.new.sender.queue; moment = connection.new.sender.moment } }
    ensures sound { IsSound (is_stream connection.old.stack)
        (layers_of ⟦<dyn Framer as Framer>⟧ connection.old.chain) connection.new.sender }
    ensures kept { connection.new ≡ record connection.old { sender = connection.new.sender } }
{
    let message = copy(alloc, message)?;
    match connection.send(message, at) {
        Ok(()) => Ok(()),
        Err((PushError::NoMemory, _)) => Err(NoMemory),
        Err((PushError::AfterFinal, _)) => Ok(()),
        Err((PushError::TooMany(_), _)) => Ok(()),
        Err((PushError::TooMuch(_), _)) => Ok(()),
    }
}

// A copy of a message.
fn copy(alloc: Global, message: &Message) -> Result<Message, NoMemory>
    ensures { IfOk result (λ copied. copied ≡ message.now) }
{
    let body = Body::from_slice(alloc, message.body.bytes())?;
    Ok(Message {
        body,
        props: message.props,
    })
}
