/// How far a connection has come (RFC 9622 section 8.1.11).
#[derive(Clone, Copy, Debug, PartialEq, Eq)]
pub enum ConnState {
    Establishing,
    Established,
    Closing,
    Closed,
}
