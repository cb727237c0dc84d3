use taps_property::ConnectionProps;
use taps_socket::Target;

/// What a session listens on, and what it does with each connection (RFC 9622 section 7.2; the numbers are local).
#[derive(Clone, Copy, Debug)]
pub struct Service {
    /// The target that is listened on, whose stack carries a stream.
    pub target: Target,
    /// How many connections are accepted, one after the other.
    pub connections: u32,
    /// The properties of each connection.
    pub props: ConnectionProps,
    /// How many messages a connection hears before it sends.
    pub expect: u64,
    /// How many bytes are asked for at once over a stream.
    pub piece: u64,
    /// How long an accept may take, and the exchange over a connection from its accept on, in milliseconds.
    pub deadline_ms: u64,
}
