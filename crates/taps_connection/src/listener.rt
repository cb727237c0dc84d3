ghost use Rattle.std.specs.Prelude.{◌≡◌, ◌≤◌, ◌<◌, ◌^◌, true};
ghost use Rattle.taps_connection.specs.Listeners.{HasListened, HasAccepted, HasStopped};
ghost use Rattle.taps_socket.specs.LiveSockets.{live_sockets};
ghost use Rattle.taps_socket.specs.RaceSockets.{has};
ghost use Rattle.taps_socket.specs.Sides.{may_accept};
ghost use Rattle.taps_stack.specs.StackTable.{is_stream};

use std::marker::Model;
use taps_socket::{AcceptAnswer, Cause, ListenAnswer, Sockets, Target};

/// A socket that listens, and takes so many connections at most (RFC 9622 section 7.2). It must be spent, by `stop`.
///
/// Contracts see its socket, the limit, and how many connections it took.
pub struct Listener {
    socket: u32,
    limit: u64,
    accepted: u64,
}

impl Model for Listener {
    ghost use Rattle.std.specs.Prelude.{◌≤◌};
    ghost use Rattle.taps_connection.specs.ListenerStates.{ListenerState};

    ghost Value = { ListenerState };

    ghost view = { λ l. record { socket = l.socket; limit = l.limit; accepted = l.accepted } };

    ghost invariant = { λ l. l.accepted ≤ l.limit };
}

/// What came of an accept. Times are in milliseconds.
#[derive(Clone, Copy, Debug, PartialEq, Eq)]
pub enum ListenerAnswer {
    /// This socket is connected, since this time (ConnectionReceived).
    Accepted { socket: u32, at: u64 },
    /// No connection came up to this time.
    Timed(u64),
    /// The sockets could not be waited on.
    Faulted,
    /// As many connections as the limit were taken, and the sockets were not asked.
    LimitReached(u64),
}

impl Listener {
    /// Listens on a target, whose stack carries a stream, for so many connections at most. The error
    /// is why the socket was refused. It takes no memory.
    pub fn listen<N: Sockets>(net: &mut N, target: Target, limit: u64) -> Result<Listener, Cause>
        requires room { 1 ≤ (N.net net.old).spare }
        requires stream { is_stream target.stack ≡ true }
        ensures { HasListened N.Becomes net.old net.new (N.net net.old) (N.net net.new) target limit result }
    {
        match net.listen(target) {
            ListenAnswer::Listening { socket, .. } => Ok(Listener {
                socket,
                limit,
                accepted: 0,
            }),
            ListenAnswer::Refused { cause, .. } => Err(cause),
        }
    }

    /// Takes a connection, or waits for one up to a time in milliseconds. It takes no memory.
    pub fn accept<N: Sockets>(&mut self, net: &mut N, until: u64) -> ListenerAnswer
        requires room { 1 ≤ (N.net net.old).spare }
        requires may { may_accept (N.net net.old).trace self.old.socket ≡ true }
        requires until { until < 2 ^ 63 }
        ensures { HasAccepted N.Becomes net.old net.new (N.net net.old) (N.net net.new) until self.old result self.new }
    {
        if self.accepted == self.limit {
            return ListenerAnswer::LimitReached(self.limit);
        }
        match net.accept(self.socket, until) {
            AcceptAnswer::Accepted { socket, at } => {
                self.accepted += 1;
                ListenerAnswer::Accepted { socket, at }
            }
            AcceptAnswer::Timed { at } => ListenerAnswer::Timed(at),
            AcceptAnswer::Faulted { .. } => ListenerAnswer::Faulted,
        }
    }

    /// Closes its socket. It takes no memory.
    pub fn stop<N: Sockets>(self, net: &mut N)
        requires room { 1 ≤ (N.net net.old).spare }
        requires live { has (live_sockets (N.net net.old).trace) self.socket ≡ true }
        ensures { HasStopped N.Becomes net.old net.new (N.net net.old) (N.net net.new) self.socket }
    {
        let Listener {
            socket,
            limit: _,
            accepted: _,
        } = self;
        net.close(socket);
    }

    /// Its socket.
    pub fn socket(&self) -> u32
        ensures { result ≡ self.now.socket }
    {
        self.socket
    }
}
