use crate::{Cause, Target};

/// How a wait ended.
#[derive(Clone, Copy, Debug, PartialEq, Eq)]
pub enum How {
    /// Its moment came.
    Reached,
    /// This socket was established.
    Completed(u32),
    /// This socket failed.
    Broke(u32, Cause),
    /// The sockets could not be waited on.
    Faulted,
}

/// What sockets tell, in the order in which it came. Moments are in milliseconds.
#[derive(Clone, Copy, Debug, PartialEq, Eq)]
pub enum Item {
    /// A race, or a turn of a session, began.
    Began {
        at: u64,
    },
    /// A leaf's attempt has a socket.
    Started {
        leaf: u32,
        target: Target,
        socket: u32,
        at: u64,
    },
    /// A leaf's attempt failed at once.
    Refused {
        leaf: u32,
        target: Target,
        cause: Cause,
        at: u64,
    },
    /// A wait up to a moment ended.
    Waited {
        until: u64,
        at: u64,
        how: How,
    },
    /// A socket was closed.
    Closed {
        socket: u32,
    },
    /// A socket listens.
    Listening {
        target: Target,
        socket: u32,
        at: u64,
    },
    /// A socket could not listen.
    NotListening {
        target: Target,
        cause: Cause,
        at: u64,
    },
    /// A listening socket gave a connection.
    Accepted {
        listener: u32,
        socket: u32,
        at: u64,
    },
    /// An accept could not be waited on.
    Faulted {
        at: u64,
    },
    /// The sending side of a socket was ended.
    Shut {
        socket: u32,
    },
    /// The other end of a socket ended its sending side.
    Ended {
        socket: u32,
    },
    /// A send or a receive failed.
    DataFailed {
        socket: u32,
        sending: bool,
        cause: Cause,
    },
}
