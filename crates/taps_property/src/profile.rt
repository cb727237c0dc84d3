/// A set of selection properties under one name (after RFC 9622 appendix A).
#[derive(Clone, Copy, Debug, PartialEq, Eq)]
pub enum Profile {
    ReliableInorderStream,
    ReliableMessage,
    UnreliableDatagram,
}
