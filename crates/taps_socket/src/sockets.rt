ghost use Rattle.std.specs.Prelude.{◌≡◌, ◌≤◌, ◌<◌, ◌^◌, ◌++◌, ◌∷◌, [], List, length, true, false, OnOk, OnErr};
ghost use Rattle.std.proofs.Common.{refl, ◌∙◌};
ghost use Rattle.taps_stack.specs.StackTable.{is_stream};
ghost use Rattle.taps_socket.specs.declared.item.Item.TheVariants.{Began, Waited, Closed, Shut};
ghost use Rattle.taps_socket.specs.RaceSockets.{has};
ghost use Rattle.taps_socket.specs.LiveSockets.{live_sockets};
ghost use Rattle.taps_socket.specs.Sides.{carries_stream, may_accept, may_send, may_receive, may_shut};
ghost use Rattle.taps_socket.specs.Calls.{Call, begins, starts, waits, closes, listens, accepts, sends, shuts, receives, started_item, started_at, listened_item, listened_at, accepted_at, came_in};
ghost use Rattle.taps_socket.specs.Net.{Net, with_item, with_spare, with_faults, with_room, after_accept, after_send, after_receive, IsNextMoment, GivesNewSocket, GivesListener, MayEnd, IsAcceptAnswer, IsSendAnswer, IsReceiveAnswer};
ghost use Rattle.taps_socket.specs.Shows.{Shows};

use crate::{AcceptAnswer, ListenAnswer, RecvAnswer, SendAnswer, StartAnswer, Target, WaitAnswer};
use taps_base::NoMemory;

/// Sockets, and the clock by which they report times, in milliseconds.
///
/// Contracts see the record `net`: the items so far, the last reported time, how many items can be
/// added without memory, how often a call was faulted, the traffic of each socket, and the timed
/// calls. Each call says the whole record after it. Which sockets are live or pending, may send,
/// receive or listen, and where each leads, follows from the items.
///
/// Contracts see besides which calls led from one state to a later one, the newest first. An
/// implementation may say more of what these calls made of its sockets.
pub trait Sockets {
    ghost net: { Self → Net };

    // These calls, the newest first, led from the first to the second.
    ghost Becomes: { Self → List Call → Self → Type 0 };

    /// Makes room for items. No other call but `make_room` takes memory.
    fn reserve(&mut self, items: u64) -> Result<(), NoMemory>
        ensures net { net self.new ≡ with_spare (net self.old) (net self.new).spare }
        ensures room { OnOk result (items ≤ (net self.new).spare) }
        ensures kept { (net self.old).spare ≤ (net self.new).spare }
        ensures err { OnErr result (net self.new ≡ net self.old) }
        ensures becomes { Becomes self.old [] self.new };

    /// The time, at which something begins.
    fn now(&mut self) -> u64
        requires { 1 ≤ (net self.old).spare }
        ensures net { net self.new ≡ with_item (net self.old) (Began result) result }
        ensures moment { IsNextMoment (net self.old) result }
        ensures becomes { Becomes self.old (begins result ∷ []) self.new };

    /// Starts to connect to a target, under the number of a leaf.
    fn start(&mut self, leaf: u32, target: Target) -> StartAnswer
        requires { 1 ≤ (net self.old).spare }
        ensures net { net self.new ≡ with_item (net self.old) (started_item leaf target result) (started_at result) }
        ensures moment { IsNextMoment (net self.old) (started_at result) }
        ensures socket { GivesNewSocket result (net self.old) }
        ensures becomes { Becomes self.old (starts leaf target result ∷ []) self.new };

    /// Waits until a pending socket completes or breaks, or the time has come.
    fn wait(&mut self, until: u64) -> WaitAnswer
        requires { 1 ≤ (net self.old).spare }
        ensures net { net self.new ≡
            with_faults (with_item (net self.old) (Waited until result.at result.how) result.at) (net self.new).faults }
        ensures moment { IsNextMoment (net self.old) result.at }
        ensures how { MayEnd result.how until result.at (net self.old) (net self.new) }
        ensures faults { (net self.old).faults ≤ (net self.new).faults }
        ensures becomes { Becomes self.old (waits until result ∷ []) self.new };

    /// Closes a live socket.
    fn close(&mut self, socket: u32)
        requires room { 1 ≤ (net self.old).spare }
        requires live { has (live_sockets (net self.old).trace) socket ≡ true }
        ensures net { net self.new ≡ with_item (net self.old) (Closed socket) (net self.old).told }
        ensures becomes { Becomes self.old (closes socket ∷ []) self.new };

    /// Listens on a target, whose stack carries a stream.
    fn listen(&mut self, target: Target) -> ListenAnswer
        requires room { 1 ≤ (net self.old).spare }
        requires stream { is_stream target.stack ≡ true }
        ensures net { net self.new ≡ with_item (net self.old) (listened_item target result) (listened_at result) }
        ensures moment { IsNextMoment (net self.old) (listened_at result) }
        ensures socket { GivesListener result (net self.old) }
        ensures becomes { Becomes self.old (listens target result ∷ []) self.new };

    /// Accepts a connection to a listening socket, or waits for one until the time has come.
    fn accept(&mut self, listener: u32, until: u64) -> AcceptAnswer
        requires room { 1 ≤ (net self.old).spare }
        requires may { may_accept (net self.old).trace listener ≡ true }
        requires until { until < 2 ^ 63 }
        ensures net { net self.new ≡
            with_faults (after_accept listener until result (net self.old)) (net self.new).faults }
        ensures moment { IsNextMoment (net self.old) (accepted_at result) }
        ensures answer { IsAcceptAnswer result until (net self.old) (net self.new) }
        ensures faults { (net self.old).faults ≤ (net self.new).faults }
        ensures becomes { Becomes self.old (accepts listener until result ∷ []) self.new };

    /// Makes room for bytes to be sent on a socket.
    fn make_room(&mut self, socket: u32, bytes: usize) -> Result<(), NoMemory>
        requires may { may_send (net self.old).trace socket ≡ true }
        requires few { bytes ≤ 4194304 }
        ensures net { net self.new ≡ with_room (net self.old) socket ((net self.new).traffic socket).room }
        ensures room { OnOk result (bytes ≤ ((net self.new).traffic socket).room) }
        ensures kept { ((net self.old).traffic socket).room ≤ ((net self.new).traffic socket).room }
        ensures err { OnErr result (net self.new ≡ net self.old) }
        ensures becomes { Becomes self.old [] self.new };

    /// Sends the first of these bytes, for which there is room, or waits until the time has come.
    /// Over a datagram stack they are one datagram, which is sent whole.
    fn send(&mut self, socket: u32, bytes: &[u8], until: u64) -> SendAnswer
        requires spare { 1 ≤ (net self.old).spare }
        requires may { may_send (net self.old).trace socket ≡ true }
        requires some { 1 ≤ length bytes.now }
        requires room { length bytes.now ≤ ((net self.old).traffic socket).room }
        requires datagram { carries_stream (net self.old).trace socket ≡ false → length bytes.now ≤ 65507 }
        requires until { until < 2 ^ 63 }
        ensures net { net self.new ≡ after_send socket bytes.now until result (net self.old) }
        ensures answer { IsSendAnswer result (carries_stream (net self.old).trace socket)
            (length bytes.now) until (net self.old).told }
        ensures becomes { Becomes self.old (sends socket bytes.now until result ∷ []) self.new };

    /// Ends the sending side of a socket that carries a stream.
    fn shut(&mut self, socket: u32)
        requires room { 1 ≤ (net self.old).spare }
        requires may { may_shut (net self.old).trace socket ≡ true }
        ensures net { net self.new ≡ with_item (net self.old) (Shut socket) (net self.old).told }
        ensures becomes { Becomes self.old (shuts socket ∷ []) self.new };

    /// Receives bytes, or waits for some until the time has come. Over a datagram stack they are one
    /// datagram. An empty datagram is passed over.
    fn recv(&mut self, socket: u32, out: &mut [u8], until: u64) -> RecvAnswer
        requires spare { 1 ≤ (net self.old).spare }
        requires may { may_receive (net self.old).trace socket ≡ true }
        requires some { 1 ≤ length out.old }
        requires datagram { carries_stream (net self.old).trace socket ≡ false → 65535 ≤ length out.old }
        requires until { until < 2 ^ 63 }
        ensures length { length out.new ≡ length out.old }
        ensures net { net self.new ≡ after_receive socket until (came_in out.new result) result (net self.old) }
        ensures answer { IsReceiveAnswer result (carries_stream (net self.old).trace socket)
            (length out.old) until (net self.old).told }
        ensures becomes { Becomes self.old
            (receives socket (length out.old) until (came_in out.new result) result ∷ []) self.new };

    ghost becomes_itself: { (s : Self) → Becomes s [] s };

    ghost becomes_on: { (a b c : Self) (first then : List Call) →
        Becomes a first b → Becomes b then c → Becomes a (then ++ first) c };

    ghost shows: { (a b : Self) (calls : List Call) → Becomes a calls b → Shows (net a) calls (net b) };
}

impl<N: Sockets> Sockets for &mut N {
    ghost net = { λ s. N.net s.now };

    // The reference stays the same one.
    ghost Becomes = { λ a calls b. (b.ghost_name ≡ a.ghost_name) × N.Becomes a.now calls b.now };

    ghost becomes_itself = { λ s. (refl, N.becomes_itself s.now) };

    ghost becomes_on = { λ a b c g h first then.
        (then.0 ∙ first.0, N.becomes_on a.now b.now c.now g h first.1 then.1) };

    ghost shows = { λ a b calls h. N.shows a.now b.now calls h.1 };

    fn reserve(&mut self, items: u64) -> Result<(), NoMemory> {
        Sockets::reserve(&mut **self, items)
    }

    fn now(&mut self) -> u64 {
        Sockets::now(&mut **self)
    }

    fn start(&mut self, leaf: u32, target: Target) -> StartAnswer {
        Sockets::start(&mut **self, leaf, target)
    }

    fn wait(&mut self, until: u64) -> WaitAnswer {
        Sockets::wait(&mut **self, until)
    }

    fn close(&mut self, socket: u32) {
        Sockets::close(&mut **self, socket)
    }

    fn listen(&mut self, target: Target) -> ListenAnswer {
        Sockets::listen(&mut **self, target)
    }

    fn accept(&mut self, listener: u32, until: u64) -> AcceptAnswer {
        Sockets::accept(&mut **self, listener, until)
    }

    fn make_room(&mut self, socket: u32, bytes: usize) -> Result<(), NoMemory> {
        Sockets::make_room(&mut **self, socket, bytes)
    }

    fn send(&mut self, socket: u32, bytes: &[u8], until: u64) -> SendAnswer {
        Sockets::send(&mut **self, socket, bytes, until)
    }

    fn shut(&mut self, socket: u32) {
        Sockets::shut(&mut **self, socket)
    }

    fn recv(&mut self, socket: u32, out: &mut [u8], until: u64) -> RecvAnswer {
        Sockets::recv(&mut **self, socket, out, until)
    }
}
