// What a connection keeps of its sending.
ghost use Rattle.std.specs.Prelude.{Bool, ◌≡◌, ◌≤◌, ◌<◌, ◌-◌, ◌+◌, ◌^◌, ◌||◌, max, length, option_map, true, false, ℕ, List, [], None, Some};
ghost use Rattle.taps_framer.specs.Layers.{Layer};
ghost use Rattle.taps_chain.specs.Layers.{layers_of};
ghost use Rattle.taps_socket.specs.RaceSockets.{has};
ghost use Rattle.taps_socket.specs.Sides.{carries_stream, is_connected, shut, may_send, may_shut};
ghost use Rattle.taps_connection.specs.Adds.{Adds, IsRoomier};
ghost use Rattle.taps_connection.specs.Encodings.{Encoding, encoding_of};
ghost use Rattle.taps_connection.specs.Outboxes.{or_else};
ghost use Rattle.taps_message.specs.Queues.{IsPushed};
ghost use Rattle.taps_connection.specs.Senders.{IsNewSender, waiting_number, shut_items, ends_by, rest_of, pushed_items, pushed_call, IsDriven, IsMoved, EndsStream, IsTaken, IsOpened};
ghost use Rattle.taps_connection.specs.Sound.{IsReady, IsReadyIf, IsSound};
ghost use Rattle.taps_connection.specs.Written.{Writes, KeepsWritten, sent_by};

use crate::encoding::{Encoded, encode, ends_of};
use crate::sending::{Pause, push_rest};
use std::alloc::Global;
use taps_base::Body;
use taps_chain::Chain;
use taps_framer::Framer;
use taps_message::{Message, PushError, Queued, SendQueue};
use taps_socket::{Cause, Sockets};

/// What became of the message whose turn it was.
#[derive(Clone, Copy, Debug, PartialEq, Eq)]
pub enum Pushed {
    /// The message of this number was sent whole.
    Sent(u64),
    /// No message is begun or queued.
    Empty,
    /// The lifetime of the message of this number had passed before its turn came.
    Expired(u64),
    /// The time came before all was taken, and was reported so, in milliseconds.
    Timed(u64),
    /// The socket cannot send any more.
    Failed(Cause),
    /// A layer, counted from 0, cannot encode the message of this number.
    NotSpeakable { number: u64, layer: u8 },
    /// Memory ran out before the message was begun.
    NoMemory,
}

// A message that was begun: its number, whether the sending side ends with it, its bytes on the
// socket, and how many of them were taken.
#[derive(Debug, Drop)]
pub struct Begun {
    pub number: u64,
    pub ends: bool,
    pub bytes: Body,
    pub taken: usize,
}

// The messages still to be sent; how many were sent; the first that expired; the greatest time so
// far, in milliseconds; and whether the sending side of the socket was ended.
#[derive(Drop)]
pub struct Sender {
    pub queue: SendQueue,
    pub begun: Option<Begun>,
    pub sent: u64,
    pub expired: Option<u64>,
    pub moment: u64,
    pub shut: bool,
}

impl Sender {
    // A sender that accepted nothing, at a time.
    #[tactic(auto, using(crate::proofs::Accepting::sound_new))]
    pub fn new(alloc: Global, at: u64) -> Sender
        ensures new { IsNewSender at result }
        ensures sound { (stream : Bool) (fs : List Layer) → IsSound stream fs result }
    {
        Sender {
            queue: SendQueue::new(alloc),
            begun: None,
            sent: 0,
            expired: None,
            moment: at,
            shut: false,
        }
    }

    // Accepts a message at a time.
    pub fn accept(&mut self, message: Message, at: u64) -> Result<(), (PushError, Message)>
        ensures pushed { IsPushed self.old.queue message at result self.new.queue }
        ensures sound { (stream : Bool) (fs : List Layer) → IsSound stream fs self.old → IsSound stream fs self.new }
        ensures kept { self.new ≡ record self.old { queue = self.new.queue; moment = max self.old.moment at } }
    {
        self.reach(at);
        self.queue.push(message, at)
    }

    // The number of the begun message, or else of the first queued one.
    pub fn waiting(&self) -> Option<u64>
        ensures { result ≡ waiting_number self.now }
    {
        match &self.begun {
            Some(begun) => Some(begun.number),
            None => self.queue.first(),
        }
    }

    // A time was reported.
    pub fn reach(&mut self, at: u64)
        ensures { self.new ≡ record self.old { moment = max self.old.moment at } }
    {
        self.moment = self.moment.max(at);
    }

    // A message was sent whole, and the sending side ends with it or not.
    fn end_message<N: Sockets>(&mut self, net: &mut N, socket: u32, ends: bool)
        requires few { self.old.sent < 2 ^ 64 - 1 }
        requires may { ends ≡ true → may_shut (N.net net.old).trace socket ≡ true }
        requires spare { 1 ≤ (N.net net.old).spare }
        ensures becomes { N.Becomes net.old (ends_by ends socket) net.new }
        ensures adds { Adds socket (shut_items ends socket) None (N.net net.old) (N.net net.new) }
        ensures traffic { (N.net net.new).traffic socket ≡ (N.net net.old).traffic socket }
        ensures sender { self.new ≡ record self.old { sent = self.old.sent + 1; shut = self.old.shut || ends } }
    {
        self.sent += 1;
        if ends {
            net.shut(socket);
            self.shut = true;
        }
    }

    // Begins a message that was taken out of the queue, or says why not.
    fn open<N: Sockets>(
        &mut self,
        chain: &Chain<'_>,
        stream: bool,
        net: &mut N,
        socket: u32,
        number: u64,
        message: Message,
    ) -> Option<Pushed>
        requires none { self.old.begun ≡ None }
        requires taken { option_map (λ taken. taken.number) self.old.queue.taken ≡ Some number }
        requires short { length message.body ≤ 4194304 }
        requires may { (encoding_of stream
            (layers_of ⟦<dyn Framer as Framer>⟧ chain.now)).refusal self.old.sent message.body ≡ None →
            may_send (N.net net.old).trace socket ≡ true }
        ensures opened { IsOpened (encoding_of stream (layers_of ⟦<dyn Framer as Framer>⟧ chain.now))
            self.old number message result self.new }
        ensures becomes { N.Becomes net.old [] net.new }
        ensures roomier { IsRoomier socket (N.net net.old) (N.net net.new) }
        ensures room { rest_of self.new ≤ ((N.net net.new).traffic socket).room }
        ensures ready { IsReadyIf stream self.new.begun }
    {
        let ends = ends_of(chain, stream, message.props.is_final);
        match encode(chain, stream, self.sent, net, socket, message) {
            Encoded::Bytes(bytes) => {
                self.begun = Some(Begun {
                    number,
                    ends,
                    bytes,
                    taken: 0,
                });
                None
            }
            Encoded::NotSpeakable(layer) => Some(Pushed::NotSpeakable { number, layer }),
            Encoded::NoMemory(message) => {
                self.queue.put_back(number, message);
                Some(Pushed::NoMemory)
            }
        }
    }

    // Takes up the next message, or says why none is begun.
    fn begin<N: Sockets>(
        &mut self,
        chain: &Chain<'_>,
        stream: bool,
        net: &mut N,
        socket: u32,
    ) -> Option<Pushed>
        requires none { self.old.begun ≡ None }
        requires sound { IsSound stream (layers_of ⟦<dyn Framer as Framer>⟧ chain.now) self.old }
        requires may { self.old.shut ≡ false → may_send (N.net net.old).trace socket ≡ true }
        ensures taken { (until : ℕ) →
            IsTaken (encoding_of stream
            (layers_of ⟦<dyn Framer as Framer>⟧ chain.now)) socket until self.old result self.new }
        ensures becomes { N.Becomes net.old [] net.new }
        ensures roomier { IsRoomier socket (N.net net.old) (N.net net.new) }
        ensures room { rest_of self.new ≤ ((N.net net.new).traffic socket).room }
        ensures sound { IsSound stream (layers_of ⟦<dyn Framer as Framer>⟧ chain.now) self.new }
    {
        match self.queue.next(self.moment) {
            Queued::Empty => Some(Pushed::Empty),
            Queued::Expired(number) => {
                self.expired = or_else(self.expired, number);
                Some(Pushed::Expired(number))
            }
            Queued::Message { number, message } => {
                self.open(chain, stream, net, socket, number, message)
            }
        }
    }

    // Sends what is left of the begun message.
    fn drive<N: Sockets>(&mut self, net: &mut N, socket: u32, until: u64) -> Pushed
        requires ready { IsReady (carries_stream (N.net net.old).trace socket) self.old.begun }
        requires few { self.old.sent < 2 ^ 64 - 1 }
        requires still_open { self.old.shut ≡ false }
        requires may { may_send (N.net net.old).trace socket ≡ true }
        requires ends { EndsStream self.old.begun (carries_stream (N.net net.old).trace socket) }
        requires room { rest_of self.old ≤ ((N.net net.old).traffic socket).room }
        requires spare { 1 ≤ (N.net net.old).spare }
        requires until { until < 2 ^ 63 }
        ensures driven { (e : Encoding) → IsDriven N.Becomes e net.old net.new socket until self.old result self.new }
        ensures moved { IsMoved result }
        ensures adds { Adds socket (pushed_items socket self.new.shut result) (pushed_call socket until result)
            (N.net net.old) (N.net net.new) }
        ensures written { (e : Encoding) (sent : List (List ℕ)) (front : List ℕ) →
            Writes e (carries_stream (N.net net.old).trace socket)
            ((N.net net.old).traffic socket).written sent front self.old.sent self.old.begun →
            Writes e (carries_stream (N.net net.old).trace socket)
            ((N.net net.new).traffic socket).written (sent_by result front sent) front self.new.sent self.new.begun }
        ensures read { ((N.net net.new).traffic socket).read ≡ ((N.net net.old).traffic socket).read }
        ensures room { rest_of self.new ≤ ((N.net net.new).traffic socket).room }
        ensures sound { (fs : List Layer) → IsSound (carries_stream (N.net net.old).trace socket) fs self.old →
            IsSound (carries_stream (N.net net.old).trace socket) fs self.new }
    {
        let Some(begun) = self.begun.take() else {
            unreachable!()
        };
        let progress = push_rest(
            net,
            socket,
            begun.bytes.bytes(),
            begun.taken,
            self.moment,
            until,
        );
        self.moment = progress.moment;
        match progress.pause {
            Pause::Whole => {
                self.end_message(net, socket, begun.ends);
                Pushed::Sent(begun.number)
            }
            Pause::Timed(at) => {
                self.begun = Some(at_place(begun, progress.taken));
                Pushed::Timed(at)
            }
            Pause::Failed(cause) => {
                self.begun = Some(at_place(begun, progress.taken));
                Pushed::Failed(cause)
            }
        }
    }
}

impl Sender {
    // Brings the begun message, or the next one, whole out.
    pub fn drive_out<N: Sockets>(
        &mut self,
        chain: &Chain<'_>,
        stream: bool,
        net: &mut N,
        socket: u32,
        until: u64,
    ) -> Pushed
        requires sound { IsSound stream (layers_of ⟦<dyn Framer as Framer>⟧ chain.now) self.old }
        requires connected { is_connected (N.net net.old).trace socket ≡ true }
        requires carries { carries_stream (N.net net.old).trace socket ≡ stream }
        requires shut_by { has (shut (N.net net.old).trace) socket ≡ self.old.shut }
        requires room { rest_of self.old ≤ ((N.net net.old).traffic socket).room }
        requires spare { 1 ≤ (N.net net.old).spare }
        requires until { until < 2 ^ 63 }
        ensures driven { IsDriven N.Becomes (encoding_of stream (layers_of ⟦<dyn Framer as Framer>⟧ chain.now))
            net.old net.new socket until self.old result self.new }
        ensures adds { Adds socket (pushed_items socket self.new.shut result) (pushed_call socket until result)
            (N.net net.old) (N.net net.new) }
        ensures written { KeepsWritten (encoding_of stream (layers_of ⟦<dyn Framer as Framer>⟧ chain.now)) stream
            ((N.net net.old).traffic socket).written ((N.net net.new).traffic socket).written self.old result self.new }
        ensures read { ((N.net net.new).traffic socket).read ≡ ((N.net net.old).traffic socket).read }
        ensures room { rest_of self.new ≤ ((N.net net.new).traffic socket).room }
        ensures sound { IsSound stream (layers_of ⟦<dyn Framer as Framer>⟧ chain.now) self.new }
    {
        if self.begun.is_some() {
            return self.drive(net, socket, until);
        }
        match self.begin(chain, stream, net, socket) {
            Some(answer) => answer,
            None => self.drive(net, socket, until),
        }
    }
}

// The first of the expired ones stays.
fn or_else(expired: Option<u64>, number: u64) -> Option<u64>
    ensures { result ≡ Some (or_else expired number) }
{
    match expired {
        Some(first) => Some(first),
        None => Some(number),
    }
}

// The same message, of which so many bytes were taken.
fn at_place(begun: Begun, taken: usize) -> Begun
    ensures { result ≡ record begun { taken = taken } }
{
    Begun { taken, ..begun }
}
