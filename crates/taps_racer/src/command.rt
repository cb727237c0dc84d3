use taps_socket::RaceAnswer;

/// What a race wants done next. Leaves are counted from 0 in their race.
#[derive(Clone, Copy, Debug, PartialEq, Eq)]
pub enum Command {
    /// Start this leaf.
    Start(u32),
    /// Wait until a pending socket tells of itself, or this moment has come.
    Wait(u64),
    /// Close this socket.
    Close(u32),
    /// End the race with this answer.
    Finish(RaceAnswer),
}
