ghost use Rattle.std.specs.Prelude.{◌≡◌, List, ℕ};
ghost use Rattle.hex.specs.Hex.{decode_of};
ghost use Rattle.toml.specs.View.{view};
ghost use Rattle.taps_table.specs.Places.{place_text};
ghost use Rattle.taps_table.specs.Refusals.{Gives};
ghost use Rattle.taps_preconnection.specs.Texts.{address_of, ip_of, address_at, hex_of, hex_at};

use hex::FromHexError;
use std::alloc::Global;
use taps_base::Body;
use taps_endpoint::{Address, AddressError, Ip, parse_address, parse_ip};
use taps_table::{Kind, Place, PreError, wrong_kind};
use toml::Value;

fn bad_address<T>(alloc: Global, place: &Place<'_>, refused: AddressError) -> Result<T, PreError>
    ensures { Gives result (address_at (place_text place.now) (Err refused)) }
{
    match place.text(alloc) {
        Ok(key) => Err(PreError::BadAddress(Body::from_text(key), refused.place)),
        Err(_) => Err(PreError::NoMemory),
    }
}

/// An address text.
#[derive(Clone, Copy, Drop)]
pub struct AddressText;

impl Kind for AddressText {
    type Output = Address;

    ghost reads = { λ _. address_of };

    fn read(&self, alloc: Global, place: &Place<'_>, value: &Value) -> Result<Address, PreError> {
        match value.as_str() {
            None => wrong_kind(alloc, place),
            Some(text) => match parse_address(text.as_bytes()) {
                Ok(address) => Ok(address),
                Err(refused) => bad_address(alloc, place, refused),
            },
        }
    }
}

/// An IP text.
#[derive(Clone, Copy, Drop)]
pub struct IpText;

impl Kind for IpText {
    type Output = Ip;

    ghost reads = { λ _. ip_of };

    fn read(&self, alloc: Global, place: &Place<'_>, value: &Value) -> Result<Ip, PreError> {
        match value.as_str() {
            None => wrong_kind(alloc, place),
            Some(text) => match parse_ip(text.as_bytes()) {
                Ok(ip) => Ok(ip),
                Err(refused) => bad_address(alloc, place, refused),
            },
        }
    }
}

/// Bytes by their hexadecimal digits.
#[derive(Clone, Copy, Drop)]
pub struct HexText;

impl Kind for HexText {
    type Output = Body;

    ghost reads = { λ _. hex_of };

    fn read(&self, alloc: Global, place: &Place<'_>, value: &Value) -> Result<Body, PreError> {
        match value.as_str() {
            None => wrong_kind(alloc, place),
            Some(text) => read_hex(alloc, place, text),
        }
    }
}

fn read_hex(alloc: Global, place: &Place<'_>, text: &str) -> Result<Body, PreError>
    ensures { Gives result (hex_at (place_text place.now) (decode_of text.now)) }
{
    match hex::decode(alloc, text) {
        Ok(bytes) => Ok(Body::from_vec(bytes)),
        Err(FromHexError::OutOfMemory) => Err(PreError::NoMemory),
        Err(FromHexError::OddLength) => bad_hex(alloc, place),
        Err(FromHexError::InvalidStringLength) => bad_hex(alloc, place),
        Err(FromHexError::InvalidHexCharacter { .. }) => bad_hex(alloc, place),
    }
}

fn bad_hex(alloc: Global, place: &Place<'_>) -> Result<Body, PreError>
    ensures { Gives result (Err (PreError.BadHex (place_text place.now))) }
{
    Err(PreError::BadHex(Body::from_text(place.text(alloc)?)))
}
