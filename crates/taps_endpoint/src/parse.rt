ghost use Rattle.std.specs.Prelude.{◌≡◌, IfOk, IfErr};
ghost use Rattle.taps_endpoint.specs.Places.{IsPlace};
ghost use Rattle.taps_endpoint.specs.AddressTexts.{IsIpText, IsAddressText};
ghost use Rattle.taps_endpoint.specs.Answers.{read_inet4_ip, read_inet6_ip, read_inet4, read_inet6, read_unix, ip_answer, address_answer};

use crate::bracketed::Bracketed;
use crate::inet4::Inet4State;
use crate::inet6::Inet6State;
use crate::machine::read;
use crate::unix::Unfinished;
use crate::with_port::WithPort;
use crate::{Address, AddressError, Ip};

/// The address and port that the text spells, or the place where no address text goes on.
pub fn parse_address(text: &[u8]) -> Result<Address, AddressError>
    ensures found { IfOk result (λ address. IsAddressText address text.now) }
    ensures only { (address : Address) → IsAddressText address text.now → result ≡ Ok address }
    ensures place { IfErr result (λ refused. IsPlace IsAddressText text.now refused.place) }
    ensures answer { result ≡ address_answer text.now }
{
    find_address(text)
}

/// The address of a host that the text spells, or the place where no such text goes on.
pub fn parse_ip(text: &[u8]) -> Result<Ip, AddressError>
    ensures found { IfOk result (λ ip. IsIpText ip text.now) }
    ensures only { (ip : Ip) → IsIpText ip text.now → result ≡ Ok ip }
    ensures place { IfErr result (λ refused. IsPlace IsIpText text.now refused.place) }
    ensures answer { result ≡ ip_answer text.now }
{
    find_ip(text)
}

#[tactic(auto, unfolding(crate::specs::Answers::address_answer))]
fn find_address(text: &[u8]) -> Result<Address, AddressError>
    ensures { result ≡ address_answer text.now }
{
    match find_inet4(text) {
        Ok(address) => Ok(address),
        Err(first) => match find_inet6(text) {
            Ok(address) => Ok(address),
            Err(second) => match find_unix(text) {
                Ok(address) => Ok(address),
                Err(third) => Err(AddressError {
                    place: first.max(second.max(third)),
                }),
            },
        },
    }
}

#[tactic(auto, unfolding(crate::specs::Answers::ip_answer))]
fn find_ip(text: &[u8]) -> Result<Ip, AddressError>
    ensures { result ≡ ip_answer text.now }
{
    match find_inet4_ip(text) {
        Ok(ip) => Ok(ip),
        Err(first) => match find_inet6_ip(text) {
            Ok(ip) => Ok(ip),
            Err(second) => Err(AddressError {
                place: first.max(second),
            }),
        },
    }
}

#[tactic(auto, unfolding(crate::specs::Answers::read_inet4))]
fn find_inet4(text: &[u8]) -> Result<Address, u64>
    ensures { result ≡ read_inet4 text.now }
{
    match read::<WithPort<Inet4State, [u8; 4]>>(text) {
        Ok(value) => {
            let (octets, port) = value;
            Ok(Address::V4 { octets, port })
        }
        Err(place) => Err(place),
    }
}

#[tactic(auto, unfolding(crate::specs::Answers::read_inet6))]
fn find_inet6(text: &[u8]) -> Result<Address, u64>
    ensures { result ≡ read_inet6 text.now }
{
    match read::<WithPort<Bracketed<Inet6State, [u16; 8]>, [u16; 8]>>(text) {
        Ok(value) => {
            let (fields, port) = value;
            Ok(Address::V6 { fields, port })
        }
        Err(place) => Err(place),
    }
}

#[tactic(auto, unfolding(crate::specs::Answers::read_unix))]
fn find_unix(text: &[u8]) -> Result<Address, u64>
    ensures { result ≡ read_unix text.now }
{
    match read::<Unfinished>(text) {
        Ok(path) => Ok(Address::Unix(path)),
        Err(place) => Err(place),
    }
}

#[tactic(auto, unfolding(crate::specs::Answers::read_inet4_ip))]
fn find_inet4_ip(text: &[u8]) -> Result<Ip, u64>
    ensures { result ≡ read_inet4_ip text.now }
{
    match read::<Inet4State>(text) {
        Ok(octets) => Ok(Ip::V4(octets)),
        Err(place) => Err(place),
    }
}

#[tactic(auto, unfolding(crate::specs::Answers::read_inet6_ip))]
fn find_inet6_ip(text: &[u8]) -> Result<Ip, u64>
    ensures { result ≡ read_inet6_ip text.now }
{
    match read::<Inet6State>(text) {
        Ok(fields) => Ok(Ip::V6(fields)),
        Err(place) => Err(place),
    }
}
