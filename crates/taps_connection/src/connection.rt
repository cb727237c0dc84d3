ghost use Rattle.std.specs.Prelude.{◌≡◌, ◌≤◌, ◌<◌, ◌^◌, ◌∷◌, max, true, false, None, Some, [], length, IfOk};
ghost use Rattle.taps_chain.specs.Layers.{layers_of};
ghost use Rattle.taps_message.specs.Queues.{IsPushed};
ghost use Rattle.taps_stack.specs.StackTable.{is_stream};
ghost use Rattle.taps_socket.specs.RaceSockets.{has};
ghost use Rattle.taps_socket.specs.LiveSockets.{live_sockets};
ghost use Rattle.taps_socket.specs.Calls.{closes};
ghost use Rattle.taps_socket.specs.Net.{with_item};
ghost use Rattle.taps_socket.specs.declared.item.Item.TheVariants as item;
ghost use Rattle.taps_connection.specs.Adds.{Adds};
ghost use Rattle.taps_connection.specs.Conditions.{IsHeld};
ghost use Rattle.taps_connection.specs.Encodings.{encoding_of};
ghost use Rattle.taps_connection.specs.Histories.{Represents};
ghost use Rattle.taps_connection.specs.Inboxes.{IsSoundReceiver};
ghost use Rattle.taps_connection.specs.Senders.{IsDriven, IsNewSender, UnlessFailed, pushed_items, pushed_call, queued, rest_of, waiting_number};
ghost use Rattle.taps_connection.specs.Sound.{IsSound};
ghost use Rattle.taps_connection.specs.Sources.{unread_of};
ghost use Rattle.taps_connection.specs.Unread.{first_unread};
ghost use Rattle.taps_connection.specs.Written.{KeepsWritten};

use crate::receiver::Receiver;
use crate::sender::{Pushed, Sender};
use crate::state::{Closed, Closing, Established, Open, State};
use std::alloc::Global;
use taps_base::NoMemory;
use taps_chain::Chain;
use taps_framer::Framer;
use taps_message::{Message, PushError};
use taps_property::{ConnState, ConnectionProps};
use taps_socket::Sockets;
use taps_stack::{Stack, is_stream};

/// One end of a connection over a socket, which it has to close (RFC 9622 section 7).
///
/// Contracts see what it keeps: its socket and stack, its chain, the messages still to be sent and
/// what was read and not yet given out.
#[derive(Drop)]
pub struct Connection<'a, S> {
    pub(crate) socket: u32,
    pub(crate) stack: Stack,
    pub(crate) props: ConnectionProps,
    pub(crate) chain: Chain<'a>,
    pub(crate) sender: Sender,
    pub(crate) receiver: Receiver<'a>,
    pub(crate) state: S,
}

impl<'a> Connection<'a, Established> {
    /// A connection over a socket that was given at a time in milliseconds, which takes over the duty
    /// to close it. Over a stream it asks for so many bytes at once. Where memory runs out that duty
    /// stays with the caller.
    pub fn new(
        alloc: Global,
        socket: u32,
        stack: Stack,
        chain: Chain<'a>,
        props: ConnectionProps,
        piece: u64,
        at: u64,
    ) -> Result<Connection<'a, Established>, NoMemory>
        requires some { 1 ≤ piece }
        requires few { piece ≤ 65536 }
        ensures socket { IfOk result (λ c. (c.socket ≡ socket) × (c.stack ≡ stack) × (c.props ≡ props)) }
        ensures layers { IfOk result (λ c. layers_of ⟦<dyn Framer as Framer>⟧ c.chain ≡
            layers_of ⟦<dyn Framer as Framer>⟧ chain.entry) }
        ensures sender { IfOk result (λ c. IsNewSender at c.sender) }
        ensures sound { IfOk result (λ c. IsSound (is_stream stack)
            (layers_of ⟦<dyn Framer as Framer>⟧ c.chain) c.sender) }
        ensures receiver { IfOk result (λ c. IsSoundReceiver ⟦<dyn Framer as Framer>⟧ stack
            (layers_of ⟦<dyn Framer as Framer>⟧ c.chain) c.receiver) }
        ensures unread { IfOk result (λ c. unread_of c.receiver.source ≡
            first_unread stack piece (length (layers_of ⟦<dyn Framer as Framer>⟧ c.chain))) }
        ensures goes_on { IfOk result (λ c. c.receiver.ended ≡ false) }
        ensures represents { IfOk result (λ c. Represents (layers_of ⟦<dyn Framer as Framer>⟧ c.chain)
            c.receiver.ended (unread_of c.receiver.source) [] []) }
    {
        let receiver = Receiver::new(alloc, stack, &chain, piece as usize)?;
        Ok(Connection {
            socket,
            stack,
            props,
            chain,
            sender: Sender::new(alloc, at),
            receiver,
            state: Established {},
        })
    }

    /// Accepts a message at a time in milliseconds. One that is refused is handed back.
    pub fn send(&mut self, message: Message, at: u64) -> Result<(), (PushError, Message)>
        requires sound { IsSound (is_stream self.old.stack) (layers_of ⟦<dyn Framer as Framer>⟧ self.old.chain)
            self.old.sender }
        ensures pushed { IsPushed self.old.sender.queue message at result self.new.sender.queue }
        ensures sound { IsSound (is_stream self.old.stack) (layers_of ⟦<dyn Framer as Framer>⟧ self.old.chain)
            self.new.sender }
        ensures sender { self.new.sender ≡
            record self.old.sender { queue = self.new.sender.queue; moment = max self.old.sender.moment at } }
        ensures kept { self.new ≡ record self.old { sender = self.new.sender } }
    {
        self.sender.accept(message, at)
    }

    /// Accepts no more messages.
    pub fn close(self) -> Connection<'a, Closing>
        ensures socket { result.socket ≡ self.entry.socket }
        ensures stack { result.stack ≡ self.entry.stack }
        ensures props { result.props ≡ self.entry.props }
        ensures chain { result.chain ≡ self.entry.chain }
        ensures sender { result.sender ≡ self.entry.sender }
        ensures receiver { result.receiver ≡ self.entry.receiver }
    {
        let Connection {
            socket,
            stack,
            props,
            chain,
            sender,
            receiver,
            state: Established {},
        } = self;
        Connection {
            socket,
            stack,
            props,
            chain,
            sender,
            receiver,
            state: Closing {},
        }
    }
}

impl<'a> Connection<'a, Closing> {
    /// Closes the socket, where no message is begun or queued.
    pub fn finish<N: Sockets>(self, net: &mut N) -> Connection<'a, Closed>
        requires none_begun { self.sender.begun ≡ None }
        requires none_queued { queued self.sender ≡ [] }
        requires live { has (live_sockets (N.net net.old).trace) self.socket ≡ true }
        requires spare { 1 ≤ (N.net net.old).spare }
        ensures net { N.net net.new ≡ with_item (N.net net.old) (item.Closed self.entry.socket) (N.net net.old).told }
        ensures becomes { N.Becomes net.old (closes self.entry.socket ∷ []) net.new }
        ensures socket { (result.socket ≡ self.entry.socket) × (result.stack ≡ self.entry.stack) ×
            (result.props ≡ self.entry.props) }
        ensures chain { result.chain ≡ self.entry.chain }
        ensures sender { result.sender ≡ self.entry.sender }
        ensures receiver { result.receiver ≡ self.entry.receiver }
    {
        self.abort(net)
    }
}

impl<'a, S: Open> Connection<'a, S> {
    /// Brings the message that was begun, or the next of the queue, whole out, up to a time in
    /// milliseconds. What is left of it then goes out at a later call. Over a stream the sending side
    /// is ended in the call that sends a final message, or with the empty chain the one message.
    pub fn drive_out<N: Sockets>(&mut self, net: &mut N, until: u64) -> Pushed
        requires sound { IsSound (is_stream self.old.stack) (layers_of ⟦<dyn Framer as Framer>⟧ self.old.chain)
            self.old.sender }
        requires held { IsHeld (N.net net.old).trace self.old.socket (is_stream self.old.stack)
            self.old.sender.shut self.old.receiver.ended }
        requires room { rest_of self.old.sender ≤ ((N.net net.old).traffic self.old.socket).room }
        requires spare { 1 ≤ (N.net net.old).spare }
        requires until { until < 2 ^ 63 }
        ensures driven { IsDriven N.Becomes
            (encoding_of (is_stream self.old.stack) (layers_of ⟦<dyn Framer as Framer>⟧ self.old.chain))
            net.old net.new self.old.socket until self.old.sender result self.new.sender }
        ensures adds { Adds self.old.socket (pushed_items self.old.socket self.new.sender.shut result)
            (pushed_call self.old.socket until result) (N.net net.old) (N.net net.new) }
        ensures written { KeepsWritten
            (encoding_of (is_stream self.old.stack) (layers_of ⟦<dyn Framer as Framer>⟧ self.old.chain))
            (is_stream self.old.stack) ((N.net net.old).traffic self.old.socket).written
            ((N.net net.new).traffic self.old.socket).written self.old.sender result self.new.sender }
        ensures read { ((N.net net.new).traffic self.old.socket).read ≡ ((N.net net.old).traffic self.old.socket).read }
        ensures room { rest_of self.new.sender ≤ ((N.net net.new).traffic self.old.socket).room }
        ensures sound { IsSound (is_stream self.old.stack) (layers_of ⟦<dyn Framer as Framer>⟧ self.old.chain)
            self.new.sender }
        ensures held { UnlessFailed result (IsHeld (N.net net.new).trace self.old.socket (is_stream self.old.stack)
            self.new.sender.shut self.old.receiver.ended) }
        ensures kept { self.new ≡ record self.old { sender = self.new.sender } }
    {
        self.sender.drive_out(&self.chain, is_stream(self.stack), net, self.socket, until)
    }

    /// Closes the socket at once.
    pub fn abort<N: Sockets>(self, net: &mut N) -> Connection<'a, Closed>
        requires live { has (live_sockets (N.net net.old).trace) self.socket ≡ true }
        requires spare { 1 ≤ (N.net net.old).spare }
        ensures net { N.net net.new ≡ with_item (N.net net.old) (item.Closed self.entry.socket) (N.net net.old).told }
        ensures becomes { N.Becomes net.old (closes self.entry.socket ∷ []) net.new }
        ensures socket { (result.socket ≡ self.entry.socket) × (result.stack ≡ self.entry.stack) ×
            (result.props ≡ self.entry.props) }
        ensures chain { result.chain ≡ self.entry.chain }
        ensures sender { result.sender ≡ self.entry.sender }
        ensures receiver { result.receiver ≡ self.entry.receiver }
    {
        net.close(self.socket);
        let Connection {
            socket,
            stack,
            props,
            chain,
            sender,
            receiver,
            state,
        } = self;
        state.leave();
        Connection {
            socket,
            stack,
            props,
            chain,
            sender,
            receiver,
            state: Closed {},
        }
    }
}

impl<'a, S: State> Connection<'a, S> {
    /// How far it has come (RFC 9622 section 8.1.11).
    pub fn conn_state(&self) -> ConnState
        ensures { result ≡ S.word }
    {
        self.state.conn_state()
    }

    /// The number of messages that were sent whole.
    pub fn sent(&self) -> u64
        ensures { result ≡ self.now.sender.sent }
    {
        self.sender.sent
    }

    /// The number of the first message that expired, if one did.
    pub fn first_expired(&self) -> Option<u64>
        ensures { result ≡ self.now.sender.expired }
    {
        self.sender.expired
    }

    /// The number of the message that is begun, or else of the first queued one, if there is one.
    pub fn waiting(&self) -> Option<u64>
        ensures { result ≡ waiting_number self.now.sender }
    {
        self.sender.waiting()
    }

    /// The properties that were handed to `new`.
    pub fn props(&self) -> ConnectionProps
        ensures { result ≡ self.now.props }
    {
        self.props
    }

    /// The stack that was handed to `new`.
    pub fn stack(&self) -> Stack
        ensures { result ≡ self.now.stack }
    {
        self.stack
    }
}
