use crate::Address;
use taps_base::Name;

/// Where the other end is.
#[derive(Debug, Drop)]
pub enum Remote {
    /// At this address.
    Literal(Address),
    /// At the addresses of a host, with this port.
    Host { name: Name, port: u16 },
}
