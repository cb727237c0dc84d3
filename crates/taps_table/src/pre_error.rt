ghost use Rattle.std.specs.Prelude.{◌≡◌, Err};
ghost use Rattle.taps_table.specs.Places.{place_text};
ghost use Rattle.taps_table.specs.Refusals.{Gives};
ghost use Rattle.taps_table.specs.declared.pre_error.PreError.TheVariants.{NoMemory};

use crate::Place;
use std::alloc::{AllocError, AllocFailed, Global};
use taps_base::Body;

/// Why a file gives no Preconnection. Each key is the text of its place, as `remote[0].address`.
#[derive(Debug, Drop)]
pub enum PreError {
    /// The bytes are no TOML document.
    NotToml,
    /// The table has no such key.
    UnknownKey(Body),
    /// The key's value is of another kind.
    WrongKind(Body),
    /// The key's value is out of range, or the table breaks a rule of its own.
    OutOfRange(Body),
    /// The key's text is no address: how many of its first bytes begin one.
    BadAddress(Body, u64),
    /// The key's text is not of hexadecimal digits.
    BadHex(Body),
    /// The key's value has too many items: their number.
    TooMany(Body, u64),
    /// A remote is missing.
    NoRemote,
    /// Memory ran out.
    NoMemory,
}

impl From<AllocError> for PreError {
    ghost from_gives = { λ _ e. e ≡ NoMemory };

    fn from(_: AllocError) -> PreError {
        PreError::NoMemory
    }
}

impl<T: Drop> From<AllocFailed<T>> for PreError {
    ghost from_gives = { λ _ e. e ≡ NoMemory };

    fn from(_: AllocFailed<T>) -> PreError {
        PreError::NoMemory
    }
}

impl From<taps_base::NoMemory> for PreError {
    ghost from_gives = { λ _ e. e ≡ NoMemory };

    fn from(_: taps_base::NoMemory) -> PreError {
        PreError::NoMemory
    }
}

/// Refuses the value at this place for its kind.
pub fn wrong_kind<T>(alloc: Global, place: &Place<'_>) -> Result<T, PreError>
    ensures { Gives result (Err (PreError.WrongKind (place_text place.now))) }
{
    match place.text(alloc) {
        Ok(key) => Err(PreError::WrongKind(Body::from_text(key))),
        Err(_) => Err(PreError::NoMemory),
    }
}

/// Refuses the value at this place for its range.
pub fn out_of_range<T>(alloc: Global, place: &Place<'_>) -> Result<T, PreError>
    ensures { Gives result (Err (PreError.OutOfRange (place_text place.now))) }
{
    match place.text(alloc) {
        Ok(key) => Err(PreError::OutOfRange(Body::from_text(key))),
        Err(_) => Err(PreError::NoMemory),
    }
}

/// Refuses the value at this place, which has this many items.
pub fn too_many<T>(alloc: Global, place: &Place<'_>, count: u64) -> Result<T, PreError>
    ensures { Gives result (Err (PreError.TooMany (place_text place.now) count)) }
{
    match place.text(alloc) {
        Ok(key) => Err(PreError::TooMany(Body::from_text(key), count)),
        Err(_) => Err(PreError::NoMemory),
    }
}

/// Refuses the key at this place, which the table does not know.
pub(crate) fn unknown_key<T>(alloc: Global, place: &Place<'_>) -> Result<T, PreError>
    ensures { Gives result (Err (PreError.UnknownKey (place_text place.now))) }
{
    match place.text(alloc) {
        Ok(key) => Err(PreError::UnknownKey(Body::from_text(key))),
        Err(_) => Err(PreError::NoMemory),
    }
}
