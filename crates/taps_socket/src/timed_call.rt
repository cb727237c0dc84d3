/// The kinds of calls that can reach their time with nothing to tell.
#[derive(Clone, Copy, Debug, PartialEq, Eq)]
pub enum TimedKind {
    Accept,
    Send,
    Recv,
}

/// A call that reached its time with nothing to tell: its socket, the time until which it was to
/// try, and the time reported, in milliseconds.
#[derive(Clone, Copy, Debug, PartialEq, Eq)]
pub struct TimedCall {
    pub kind: TimedKind,
    pub socket: u32,
    pub until: u64,
    pub at: u64,
}
