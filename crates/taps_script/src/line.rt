use taps_base::Body;
use taps_socket::Cause;

/// What a script says of a leaf's attempt. Delays are in milliseconds.
#[derive(Clone, Copy, Debug, PartialEq, Eq)]
pub enum Fate {
    /// Its start is refused.
    Refuses(Cause),
    /// It completes so long after its start.
    Completes(u32),
    /// It breaks so long after its start.
    Breaks(u32, Cause),
    /// It does neither.
    Silent,
}

/// What a script says of the other end of each socket. Delays are in milliseconds, and count from
/// the moment at which the socket completes.
#[derive(Debug, Drop)]
pub enum PeerLine {
    /// No send is taken before this delay.
    Holds(u32),
    /// What is sent becomes readable at once.
    Echo,
    /// These bytes become readable after this delay; over datagrams they are one.
    Sends { delay: u32, bytes: Body },
    /// The stream ends after this delay, behind all bytes before it.
    Ends(u32),
    /// From this delay on sends fail, and so do receives behind all bytes before it.
    Fails(u32, Cause),
}

/// A line of a script.
#[derive(Debug, Drop)]
pub enum Line {
    /// The first moment of the clock.
    Begin(u64),
    /// How much later each wait that is reached ends.
    Late(u32),
    /// The wait of this number, counted from 0, faults.
    Fault(u32),
    /// What becomes of the start under this number.
    Leaf { leaf: u32, fate: Fate },
    /// How many bytes a send over a stream takes at most.
    Take(u32),
    /// How many bytes a receive over a stream gives at most.
    Give(u32),
    /// What the other end of each socket does.
    Peer(PeerLine),
}
