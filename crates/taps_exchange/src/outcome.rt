use taps_chain::BadAt;
use taps_socket::Cause;

/// How an exchange of messages ends (local).
#[derive(Clone, Copy, Debug, PartialEq, Eq)]
pub enum Outcome {
    /// Every accepted message was sent, and every member heard as many as it needs.
    Done,
    /// So it is, but for messages that expired: this one of this member is the first.
    Expired { member: u32, number: u64 },
    /// A call was not answered by the deadline.
    Timed,
    /// A socket could not send or receive any more.
    DataFailed(Cause),
    /// The other end ended its sending side before a member heard as many messages as it needs.
    PeerEnded,
    /// The bytes that a member read are no messages.
    BadFrame(BadAt),
    /// A layer, counted from 0, cannot encode this message of this member.
    NotSpeakable { member: u32, number: u64, layer: u8 },
}
