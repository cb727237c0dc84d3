use crate::Message;

/// Why a message is not accepted. The first cause in this order is told.
#[derive(Clone, Copy, Debug, PartialEq, Eq)]
pub enum PushError {
    /// A final message was accepted before.
    AfterFinal,
    /// So many messages were accepted before: 256, the most that may be.
    TooMany(u64),
    /// The accepted bodies with this one have so many bytes, more than 4,194,304.
    TooMuch(u64),
    /// Memory ran out.
    NoMemory,
}

/// What is next in a queue.
#[derive(Debug, Drop)]
pub enum Queued {
    /// A message, with its number.
    Message { number: u64, message: Message },
    /// The message of this number expired, and is taken out (RFC 9622 section 9.2.2.2).
    Expired(u64),
    /// Nothing is queued.
    Empty,
}
