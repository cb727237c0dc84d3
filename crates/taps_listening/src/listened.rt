use std::marker::Model;
use taps_base::Body;
use taps_exchange::Outcome;
use taps_socket::Cause;

/// How a session that listens ends (local).
#[derive(Clone, Copy, Debug, PartialEq, Eq)]
pub enum ListenEnd {
    /// An accept was timed, or the exchange over a connection ended the session, or all connections were accepted and
    /// done.
    Exchanged(Outcome),
    /// The listen was refused.
    NotListening(Cause),
    /// An accept was faulted.
    Faulted,
}

/// How many messages an accepted connection sent, and those that it heard.
#[derive(Debug, Drop)]
pub struct Answered {
    pub sent: u64,
    pub heard: Vec<Body>,
}

impl Model for Answered {
    ghost use Rattle.taps_listening.specs.AnsweredStates.{AnsweredState};

    ghost Value = { AnsweredState };

    ghost view = { λ a. record { sent = a.sent; heard = a.heard.items } };
}

/// What came of listening: how the session ended, and what the accepted connections sent and heard, in the order in
/// which they were accepted.
#[derive(Debug, Drop)]
pub struct Listened {
    pub end: ListenEnd,
    pub members: Vec<Answered>,
}
