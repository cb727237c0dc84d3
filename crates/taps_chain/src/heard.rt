use taps_base::Body;

/// Where a stream is bad.
#[derive(Clone, Copy, Debug, PartialEq, Eq)]
pub struct BadAt {
    /// The index of the message that it is bad in.
    pub message: u64,
    /// The layer at fault, counted from 0.
    pub layer: u8,
    /// The place in that layer's bytes, counted from 0.
    pub place: u64,
}

/// What is heard next of a stream.
#[derive(Debug, Drop)]
pub enum Heard {
    /// A message.
    Message(Body),
    /// Nothing before more bytes come.
    Need,
    /// Nothing any more.
    Bad(BadAt),
    /// Memory ran out.
    NoMemory,
}

/// Why a piece is not fed.
#[derive(Clone, Copy, Debug, PartialEq, Eq)]
pub enum FeedError {
    /// The stream is bad.
    Bad(BadAt),
    /// Memory ran out.
    NoMemory,
}
