use taps_property::ConnectionProps;
use taps_socket::Target;

/// What the clones of a group and its exchange go by (RFC 9622 section 7.4; the numbers are local).
#[derive(Clone, Copy, Debug)]
pub struct Terms {
    /// The target of all members.
    pub target: Target,
    /// The properties of the first member, which its clones share but for the priority.
    pub props: ConnectionProps,
    /// How many clones are made.
    pub clones: u64,
    /// The number of the first clone's leaf; that of each other clone is one greater.
    pub leaf: u32,
    /// How long the race of a clone may take, in milliseconds.
    pub timeout_ms: u64,
    /// How many messages each member hears.
    pub expect: u64,
    /// How many bytes are asked for at once over a stream.
    pub piece: u64,
    /// How long the exchange may take, in milliseconds.
    pub deadline_ms: u64,
}
