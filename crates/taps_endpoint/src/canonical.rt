ghost use Rattle.std.specs.Prelude.{◌≡◌, ◌≢◌, ◌+◌, ◌≤◌, length, Some, IfOk};
ghost use Rattle.taps_endpoint.specs.CanonicalTexts.{joined, longest, inet6_text, canonical_text, port_of};
ghost use Rattle.taps_endpoint.specs.AddressTexts.{IsAddressText};
ghost use Rattle.taps_endpoint.specs.Answers.{address_answer};

use crate::{Address, UnixPath};
use std::alloc::Global;
use std::fmt;
use taps_base::{Body, NoMemory};

/// The one text of the address. It can be read again unless the port is 0, which prints as `0`.
pub fn write_address(alloc: Global, address: &Address) -> Result<Body, NoMemory>
    ensures text { IfOk result (λ body. body ≡ canonical_text address.now) }
    ensures again { IfOk result (λ body. port_of address.now ≢ Some 0 → address_answer body ≡ Ok address.now) }
{
    match address {
        Address::V4 { octets, port } => write_inet4(alloc, *octets, *port),
        Address::V6 { fields, port } => write_inet6(alloc, *fields, *port),
        Address::Unix(path) => write_unix(alloc, path),
    }
}

fn write_inet4(alloc: Global, octets: [u8; 4], port: u16) -> Result<Body, NoMemory>
    ensures text { IfOk result (λ body. body ≡ canonical_text (Address.V4 octets port)) }
    ensures again { IfOk result (λ body. 1 ≤ port → IsAddressText (Address.V4 octets port) body) }
{
    printed(alloc, &Address::V4 { octets, port })
}

fn write_inet6(alloc: Global, fields: [u16; 8], port: u16) -> Result<Body, NoMemory>
    ensures text { IfOk result (λ body. body ≡ canonical_text (Address.V6 fields port)) }
    ensures again { IfOk result (λ body. 1 ≤ port → IsAddressText (Address.V6 fields port) body) }
{
    printed(alloc, &Address::V6 { fields, port })
}

fn write_unix(alloc: Global, path: &UnixPath) -> Result<Body, NoMemory>
    ensures text { IfOk result (λ body. body ≡ canonical_text (Address.Unix path.now)) }
    ensures again { IfOk result (λ body. IsAddressText (Address.Unix path.now) body) }
{
    // That they are a path is known from where they are read.
    let _bytes = path.bytes();
    printed(alloc, &Address::Unix(*path))
}

fn printed(alloc: Global, address: &Address) -> Result<Body, NoMemory>
    ensures { IfOk result (λ body. body ≡ canonical_text address.now) }
{
    Ok(Body::from_text(format!(in alloc; "{address}")?))
}

impl fmt::Display for Address {
    ghost output = { λ address. Some (canonical_text address) };

    fn fmt<W: fmt::Write>(&self, f: &mut fmt::Formatter<W>) -> fmt::Result {
        match self {
            Address::V4 { octets, port } => {
                let [a, b, c, d] = *octets;
                write!(f, "{a}.{b}.{c}.{d}:{port}")
            }
            Address::V6 { fields, port } => {
                let ip = Inet6Text { fields };
                write!(f, "[{ip}]:{port}")
            }
            Address::Unix(path) => {
                let path = path.as_str();
                write!(f, "unix:{path}")
            }
        }
    }
}

/// The fields of an IPv6 address, with `::` for the longest run of zeros (RFC 5952 section 4).
#[derive(Clone, Copy)]
struct Inet6Text<'a> {
    fields: &'a [u16],
}

impl fmt::Display for Inet6Text<'_> {
    ghost output = { λ text. Some (inet6_text text.fields.now) };

    #[tactic(auto, unfolding(crate::specs::CanonicalTexts::inet6_text))]
    fn fmt<W: fmt::Write>(&self, f: &mut fmt::Formatter<W>) -> fmt::Result {
        let fields = self.fields;
        let (before, count) = longest_zeros(fields);
        if count >= 2 {
            let front = Joined {
                fields: &fields[..before],
            };
            let back = Joined {
                fields: &fields[before + count..],
            };
            write!(f, "{front}::{back}")
        } else {
            let all = Joined { fields };
            write!(f, "{all}")
        }
    }
}

/// Fields with `:` between them.
#[derive(Clone, Copy)]
struct Joined<'a> {
    fields: &'a [u16],
}

impl fmt::Display for Joined<'_> {
    ghost output = { λ text. Some (joined text.fields.now) };

    fn fmt<W: fmt::Write>(&self, f: &mut fmt::Formatter<W>) -> fmt::Result {
        if let [first, rest @ ..] = self.fields {
            write!(f, "{first:x}")?;
            for field in rest {
                write!(f, ":{field:x}")?;
            }
        }
        Ok(())
    }
}

// Where the longest run of zeros begins, the first one of several, and how many are in it.
fn longest_zeros(fields: &[u16]) -> (usize, usize)
    ensures run { result ≡ longest fields.now }
    ensures within { result.0 + result.1 ≤ length fields.now }
{
    let mut start = fields.len();
    let mut most = 0;
    let mut zeros = 0;
    for index in (0..fields.len()).rev() {
        zeros = if fields[index] == 0 { zeros + 1 } else { 0 };
        if zeros >= most {
            start = index;
            most = zeros;
        }
    }
    (start, most)
}
