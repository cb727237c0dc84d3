/// Why a socket or a start failed, as a log says it.
#[derive(Clone, Copy)]
pub enum Cause {
    Refused,
    Unreachable,
    Reset,
    Memory,
    Other,
}

/// How a wait ended.
#[derive(Clone, Copy)]
pub enum How {
    /// Nothing was told of a socket.
    Reached,
    /// This socket is established.
    Completed(u64),
    /// This socket failed.
    Broke(u64, Cause),
    /// The sockets could not be waited on.
    Faulted,
}

/// What became of a leaf's start.
#[derive(Clone, Copy)]
pub enum Start {
    /// It has this socket, which is pending.
    Socket(u64),
    /// It failed at once.
    Refused(Cause),
}

/// Why a race or a session ended without success, where the line is one word or two.
#[derive(Clone, Copy)]
pub enum Ending {
    NoCandidate,
    AllFailed,
    Timeout,
    Closed,
    SocketFault,
    Done,
    Timed,
    PeerEnded,
    CloneAllFailed,
    CloneTimeout,
}

/// What one line of a log says. Moments and gaps are in milliseconds; texts are as they stand.
#[derive(Clone, Copy)]
pub enum Line<'a> {
    /// The plan has so many leaves.
    Leaves(u64),
    /// A leaf of the plan: its path, its stack and its address as one text, and its gap, if it has one.
    Leaf {
        leaf: u64,
        place: &'a [u8],
        gap: Option<u64>,
    },
    Began(u64),
    Started {
        leaf: u64,
        start: Start,
        at: u64,
    },
    Waited {
        until: u64,
        how: How,
        at: u64,
    },
    Closed(u64),
    Listening {
        socket: u64,
        address: &'a [u8],
        at: u64,
    },
    NotListening {
        cause: Cause,
        at: u64,
    },
    Accepted {
        socket: u64,
        listener: u64,
        at: u64,
    },
    Faulted(u64),
    Shut(u64),
    Ended(u64),
    Failed {
        socket: u64,
        cause: Cause,
    },
    /// This leaf's socket won.
    Ready(u64),
    /// A member sent so many messages.
    Sent {
        member: u64,
        count: u64,
    },
    /// A message that a member heard, in hexadecimal digits.
    Received {
        member: u64,
        number: u64,
        hex: &'a [u8],
    },
    /// A part of such a message, but the last.
    Part {
        member: u64,
        number: u64,
        hex: &'a [u8],
    },
    DataFailed(Cause),
    BadFrame {
        message: u64,
        layer: u64,
        place: u64,
    },
    NotSpeakable {
        member: u64,
        number: u64,
        layer: u64,
    },
    Expired {
        member: u64,
        number: u64,
    },
    CloneLimit(u64),
    Ends(Ending),
}
