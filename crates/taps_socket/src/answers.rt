use crate::{Cause, How};

/// The answer to a start.
#[derive(Clone, Copy, Debug, PartialEq, Eq)]
pub enum StartAnswer {
    /// It has a socket, which is pending.
    Started { socket: u32, at: u64 },
    /// It failed at once.
    Refused { cause: Cause, at: u64 },
}

/// How a wait ended, and when.
#[derive(Clone, Copy, Debug, PartialEq, Eq)]
pub struct WaitAnswer {
    pub at: u64,
    pub how: How,
}

/// The answer to a listen.
#[derive(Clone, Copy, Debug, PartialEq, Eq)]
pub enum ListenAnswer {
    /// This socket listens.
    Listening { socket: u32, at: u64 },
    /// It failed.
    Refused { cause: Cause, at: u64 },
}

/// The answer to an accept.
#[derive(Clone, Copy, Debug, PartialEq, Eq)]
pub enum AcceptAnswer {
    /// This socket is connected.
    Accepted { socket: u32, at: u64 },
    /// No connection came in time.
    Timed { at: u64 },
    /// The sockets could not be waited on.
    Faulted { at: u64 },
}

/// The answer to a send.
#[derive(Clone, Copy, Debug, PartialEq, Eq)]
pub enum SendAnswer {
    /// So many bytes were taken, the first ones.
    Sent { count: usize, at: u64 },
    /// None were taken in time.
    Timed { at: u64 },
    /// The socket cannot send any more.
    Failed(Cause),
}

/// The answer to a receive.
#[derive(Clone, Copy, Debug, PartialEq, Eq)]
pub enum RecvAnswer {
    /// So many bytes came.
    Got { count: usize, at: u64 },
    /// The other end ended its sending side, and all its bytes came.
    End,
    /// None came in time.
    Timed { at: u64 },
    /// The socket cannot receive any more.
    Failed(Cause),
}
