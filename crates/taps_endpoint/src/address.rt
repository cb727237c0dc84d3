ghost use Rattle.std.specs.Prelude.{◌≡◌};
ghost use Rattle.taps_endpoint.specs.Families.{family_of};

use crate::UnixPath;

/// The families of addresses.
#[derive(Clone, Copy, Debug, PartialEq, Eq, Hash)]
pub enum Family {
    /// IPv4.
    Inet4,
    /// IPv6.
    Inet6,
    /// Sockets that are files.
    Unix,
}

/// An address of a host, without a port.
#[derive(Clone, Copy, Debug, PartialEq, Eq, Hash)]
pub enum Ip {
    /// The four octets of an IPv4 address.
    V4([u8; 4]),
    /// The eight fields of an IPv6 address.
    V6([u16; 8]),
}

/// Where a socket is reached.
#[derive(Clone, Copy, Debug, PartialEq, Eq, Hash)]
pub enum Address {
    /// An IPv4 address and a port.
    V4 { octets: [u8; 4], port: u16 },
    /// An IPv6 address and a port.
    V6 { fields: [u16; 8], port: u16 },
    /// The path of a Unix socket.
    Unix(UnixPath),
}

impl Address {
    /// Its family.
    pub fn family(&self) -> Family
        ensures { result ≡ family_of self.now }
    {
        match self {
            Address::V4 { .. } => Family::Inet4,
            Address::V6 { .. } => Family::Inet6,
            Address::Unix(_) => Family::Unix,
        }
    }
}
