ghost use Rattle.std.specs.Prelude.{◌≡◌, List, ℕ};
ghost use Rattle.toml.specs.View.{view};
ghost use Rattle.taps_table.specs.Places.{place_text};
ghost use Rattle.taps_table.specs.Refusals.{Gives};
ghost use Rattle.taps_table.specs.Values.{text_of, name_at, name_of};

use crate::kind::Kind;
use crate::pre_error::{out_of_range, wrong_kind};
use crate::{Place, PreError};
use std::alloc::Global;
use taps_base::{Body, Name, NameError};
use toml::Value;

/// A string.
#[derive(Clone, Copy, Drop)]
pub struct Text;

impl Kind for Text {
    type Output = Body;

    ghost reads = { λ _. text_of };

    fn read(&self, alloc: Global, place: &Place<'_>, value: &Value) -> Result<Body, PreError> {
        match value.as_str() {
            None => wrong_kind(alloc, place),
            Some(text) => Ok(Body::from_slice(alloc, text.as_bytes())?),
        }
    }
}

/// A name.
#[derive(Clone, Copy, Drop)]
pub struct NameText;

impl Kind for NameText {
    type Output = Name;

    ghost reads = { λ _. name_of };

    fn read(&self, alloc: Global, place: &Place<'_>, value: &Value) -> Result<Name, PreError> {
        match value.as_str() {
            None => wrong_kind(alloc, place),
            Some(text) => read_name(alloc, place, text),
        }
    }
}

/// The name that the text at this place is.
pub fn read_name(alloc: Global, place: &Place<'_>, text: &str) -> Result<Name, PreError>
    ensures { Gives result (name_at (place_text place.now) text.now) }
{
    match Name::read(alloc, text.as_bytes()) {
        Ok(name) => Ok(name),
        Err(NameError::NotName) => out_of_range(alloc, place),
        Err(NameError::NoMemory) => Err(PreError::NoMemory),
    }
}
