use taps_socket::Cause;

/// What came of asking a socket once for bytes.
#[derive(Clone, Copy, Debug, PartialEq, Eq)]
pub enum Pulled {
    /// Bytes came.
    Got,
    /// The other end ended its sending side, and all its bytes came.
    Ended,
    /// None came in time: the time that was reported, in milliseconds.
    Timed(u64),
    /// The socket cannot receive any more.
    Failed(Cause),
    /// Memory ran out, and the socket was not asked.
    NoMemory,
}
