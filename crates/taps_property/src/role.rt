/// What a Preconnection is used for (RFC 9622 section 7).
#[derive(Clone, Copy, Debug, PartialEq, Eq)]
pub enum Role {
    Initiate,
    Listen,
    Rendezvous,
}
