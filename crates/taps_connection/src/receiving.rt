// The receiving side of a connection.
ghost use Rattle.std.specs.Prelude.{◌≡◌, ◌≤◌, ◌<◌, ◌^◌, ◌-◌, ◌++◌, List, ℕ, Option, false};
ghost use Rattle.taps_chain.specs.Layers.{layers_of};
ghost use Rattle.taps_connection.specs.Adds.{Adds};
ghost use Rattle.taps_connection.specs.Conditions.{IsHeld};
ghost use Rattle.taps_connection.specs.Histories.{Given, Represents, RepresentsRead, Decodes, given_by};
ghost use Rattle.taps_connection.specs.Inboxes.{inbox_of, IsSoundReceiver, IsPulled, UnlessFailed, pulled_items, pulled_call};
ghost use Rattle.taps_connection.specs.Receives.{IsGivenOut};
ghost use Rattle.taps_connection.specs.Rooms.{room_of, LacksRoom, IsRoomAfter};
ghost use Rattle.taps_connection.specs.Sources.{unread_of};
ghost use Rattle.taps_connection.specs.Unread.{count_given, IsWanting};
ghost use Rattle.taps_stack.specs.StackTable.{is_stream};

use crate::connection::Connection;
use crate::pulled::Pulled;
use crate::state::{Open, State};
use taps_chain::Heard;
use taps_framer::Framer;
use taps_socket::{RecvAnswer, Sockets};

impl<'a, S: State> Connection<'a, S> {
    /// The number of messages and bad datagrams that were given out.
    pub fn given(&self) -> u64
        ensures { result ≡ count_given (unread_of self.now.receiver.source) }
    {
        self.receiver.source.given()
    }

    /// Whether the other end ended its sending side.
    pub fn has_ended(&self) -> bool
        ensures { result ≡ self.now.receiver.ended }
    {
        self.receiver.ended
    }
}

impl<'a, S: Open> Connection<'a, S> {
    /// Asks the socket once for bytes, up to a time in milliseconds, and takes in what comes. Memory is
    /// taken only where there is less room than the bytes asked for, and where it runs out the socket is
    /// not asked.
    pub fn drive_in<N: Sockets>(&mut self, net: &mut N, until: u64) -> Pulled
        requires wanting { IsWanting (unread_of self.old.receiver.source) }
        requires goes_on { self.old.receiver.ended ≡ false }
        requires sound { IsSoundReceiver ⟦<dyn Framer as Framer>⟧ self.old.stack
            (layers_of ⟦<dyn Framer as Framer>⟧ self.old.chain) self.old.receiver }
        requires held { IsHeld (N.net net.old).trace self.old.socket (is_stream self.old.stack)
            self.old.sender.shut self.old.receiver.ended }
        requires spare { 1 ≤ (N.net net.old).spare }
        requires until { until < 2 ^ 63 }
        ensures pulled { IsPulled N.Becomes net.old net.new (N.net net.old) (N.net net.new) self.old.socket until
            (inbox_of self.old.receiver self.old.sender.moment) result
            (inbox_of self.new.receiver self.new.sender.moment) }
        ensures memory { result ≡ Pulled.NoMemory →
            LacksRoom self.old.receiver.source × (N.net net.new ≡ N.net net.old) }
        ensures room { IsRoomAfter (unread_of self.old.receiver.source) (room_of self.old.receiver.source) result
            (unread_of self.new.receiver.source) (room_of self.new.receiver.source) }
        ensures sound { IsSoundReceiver ⟦<dyn Framer as Framer>⟧ self.old.stack
            (layers_of ⟦<dyn Framer as Framer>⟧ self.old.chain) self.new.receiver }
        ensures held { UnlessFailed result (IsHeld (N.net net.new).trace self.old.socket (is_stream self.old.stack)
            self.old.sender.shut self.new.receiver.ended) }
        ensures adds { Adds self.old.socket (pulled_items self.old.socket result)
            (pulled_call self.old.socket until result) (N.net net.old) (N.net net.new) }
        ensures traffic { (N.net net.new).traffic self.old.socket ≡ record ((N.net net.old).traffic self.old.socket)
            { read = ((N.net net.new).traffic self.old.socket).read } }
        ensures represents { (given : List Given) →
            RepresentsRead (layers_of ⟦<dyn Framer as Framer>⟧ self.old.chain) self.old.receiver.ended
            (unread_of self.old.receiver.source) ((N.net net.old).traffic self.old.socket).read given →
            RepresentsRead (layers_of ⟦<dyn Framer as Framer>⟧ self.old.chain) self.new.receiver.ended
            (unread_of self.new.receiver.source) ((N.net net.new).traffic self.old.socket).read given }
        ensures kept { self.new ≡ record self.old { receiver = self.new.receiver; sender = self.new.sender } }
        ensures sender { self.new.sender ≡ record self.old.sender { moment = self.new.sender.moment } }
    {
        self.pull(net, until)
    }

    /// What is given out next: a message, or where a datagram is bad, once each. It is Need where more
    /// has to come, and for good the same Bad where a stream is bad. It makes no socket call.
    pub fn receive(&mut self) -> Heard
        requires given { count_given (unread_of self.old.receiver.source) < 2 ^ 64 - 1 }
        requires sound { IsSoundReceiver ⟦<dyn Framer as Framer>⟧ self.old.stack
            (layers_of ⟦<dyn Framer as Framer>⟧ self.old.chain) self.old.receiver }
        ensures given_out { IsGivenOut (layers_of ⟦<dyn Framer as Framer>⟧ self.old.chain) self.old.receiver.ended
            (unread_of self.old.receiver.source) result (unread_of self.new.receiver.source) }
        ensures represents { (read : Option (List (List ℕ))) (given : List Given) →
            RepresentsRead (layers_of ⟦<dyn Framer as Framer>⟧ self.old.chain) self.old.receiver.ended
            (unread_of self.old.receiver.source) read given →
            RepresentsRead (layers_of ⟦<dyn Framer as Framer>⟧ self.old.chain) self.old.receiver.ended
            (unread_of self.new.receiver.source) read (given ++ given_by (unread_of self.old.receiver.source) result) }
        ensures decodes { (read : List (List ℕ)) (given : List Given) →
            Represents (layers_of ⟦<dyn Framer as Framer>⟧ self.old.chain) self.old.receiver.ended
            (unread_of self.old.receiver.source) read given →
            Decodes (layers_of ⟦<dyn Framer as Framer>⟧ self.old.chain) (unread_of self.new.receiver.source) read
            (given ++ given_by (unread_of self.old.receiver.source) result) result }
        ensures wanting { result ≡ Heard.Need → IsWanting (unread_of self.new.receiver.source) }
        ensures sound { IsSoundReceiver ⟦<dyn Framer as Framer>⟧ self.old.stack
            (layers_of ⟦<dyn Framer as Framer>⟧ self.old.chain) self.new.receiver }
        ensures ended { self.new.receiver.ended ≡ self.old.receiver.ended }
        ensures kept { self.new ≡ record self.old { receiver = self.new.receiver } }
    {
        let ended = self.receiver.ended;
        self.receiver.source.receive(&self.chain, ended)
    }

    // Asks the socket once for bytes, and takes in what comes.
    fn pull<N: Sockets>(&mut self, net: &mut N, until: u64) -> Pulled
        requires wanting { IsWanting (unread_of self.old.receiver.source) }
        requires goes_on { self.old.receiver.ended ≡ false }
        requires sound { IsSoundReceiver ⟦<dyn Framer as Framer>⟧ self.old.stack
            (layers_of ⟦<dyn Framer as Framer>⟧ self.old.chain) self.old.receiver }
        requires held { IsHeld (N.net net.old).trace self.old.socket (is_stream self.old.stack)
            self.old.sender.shut self.old.receiver.ended }
        requires spare { 1 ≤ (N.net net.old).spare }
        requires until { until < 2 ^ 63 }
        ensures pulled { IsPulled N.Becomes net.old net.new (N.net net.old) (N.net net.new) self.old.socket until
            (inbox_of self.old.receiver self.old.sender.moment) result
            (inbox_of self.new.receiver self.new.sender.moment) }
        ensures memory { result ≡ Pulled.NoMemory →
            LacksRoom self.old.receiver.source × (N.net net.new ≡ N.net net.old) }
        ensures room { IsRoomAfter (unread_of self.old.receiver.source) (room_of self.old.receiver.source) result
            (unread_of self.new.receiver.source) (room_of self.new.receiver.source) }
        ensures sound { IsSoundReceiver ⟦<dyn Framer as Framer>⟧ self.old.stack
            (layers_of ⟦<dyn Framer as Framer>⟧ self.old.chain) self.new.receiver }
        ensures held { UnlessFailed result (IsHeld (N.net net.new).trace self.old.socket (is_stream self.old.stack)
            self.old.sender.shut self.new.receiver.ended) }
        ensures kept { self.new ≡ record self.old { receiver = self.new.receiver; sender = self.new.sender } }
        ensures sender { self.new.sender ≡ record self.old.sender { moment = self.new.sender.moment } }
    {
        match self.receiver.source.ask(net, self.socket, until) {
            Err(_) => Pulled::NoMemory,
            Ok(RecvAnswer::Got { at, .. }) => {
                self.sender.reach(at);
                Pulled::Got
            }
            Ok(RecvAnswer::End) => {
                self.receiver.ended = true;
                Pulled::Ended
            }
            Ok(RecvAnswer::Timed { at }) => {
                self.sender.reach(at);
                Pulled::Timed(at)
            }
            Ok(RecvAnswer::Failed(cause)) => Pulled::Failed(cause),
        }
    }
}
