/// What a race came to.
#[derive(Clone, Copy, Debug, PartialEq, Eq)]
pub enum RaceAnswer {
    /// This leaf, counted from 0 in its race, was the first to be established, on this socket, at this moment.
    Ready { leaf: u32, socket: u32, at: u64 },
    /// There was no leaf.
    NoCandidate,
    /// Each leaf was refused or broke.
    AllFailed,
    /// The time for the race had passed.
    Timeout,
    /// The application's moment to give up had passed.
    Closed,
    /// A wait was faulted.
    SocketFault,
}
