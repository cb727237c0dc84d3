use taps_socket::{Cause, How};

/// What came of a command, as it is told to a racer.
#[derive(Clone, Copy, Debug, PartialEq, Eq)]
pub enum Told {
    /// A leaf has a socket.
    Started { leaf: u32, socket: u32, at: u64 },
    /// A leaf failed at once.
    Refused { leaf: u32, cause: Cause, at: u64 },
    /// A wait up to a moment ended.
    Waited { until: u64, at: u64, how: How },
    /// A socket was closed.
    Closed { socket: u32 },
}

/// What a racer did with an event.
#[derive(Clone, Copy, Debug, PartialEq, Eq)]
pub enum Taken {
    /// It answered the command, and counts.
    Used,
    /// It did not, and nothing changed.
    Ignored,
}
