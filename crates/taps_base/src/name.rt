ghost use Rattle.std.specs.Prelude.{◌≡◌, ◌↔◌, ℕ, List, false, IfOk, string_bytes};
ghost use Rattle.std.specs.List.{list_all};
ghost use Rattle.taps_base.specs.Names.{is_name_byte, is_name};

use crate::NoMemory;
use std::alloc::Global;
use std::marker::Model;
use std::{fmt, str};

/// Why a text gave no name.
#[derive(Clone, Copy, Debug, PartialEq, Eq)]
pub enum NameError {
    /// The text is no name.
    NotName,
    /// Memory ran out.
    NoMemory,
}

/// A name of an interface, a provisioning domain, a host or a framer: 1 to 253 bytes, each an ASCII
/// letter, a digit, `-`, `_` or `.`.
#[derive(Debug, Drop)]
pub struct Name {
    text: String,
}

impl Model for Name {
    ghost use Rattle.std.specs.Prelude.{List, ℕ, string_bytes};

    ghost Value = { List ℕ };

    ghost view = { λ a. string_bytes a.text };
}

impl Name {
    /// The name that the text is.
    #[tactic(auto, using(crate::proofs::NameTexts::name_is_text))]
    pub fn read(alloc: Global, text: &[u8]) -> Result<Name, NameError>
        ensures same { IfOk result (λ name. name ≡ text.now) }
        ensures not_name { result ≡ Err NameError.NotName ↔ is_name text.now ≡ false }
    {
        if !is_a_name(text) {
            return Err(NameError::NotName);
        }
        match str::from_utf8(text) {
            Ok(text) => match String::from_str(alloc, text) {
                Ok(text) => Ok(Name { text }),
                Err(_) => Err(NameError::NoMemory),
            },
            Err(_) => Err(NameError::NotName),
        }
    }

    /// The same name once more.
    pub fn copy(&self) -> Result<Name, NoMemory>
        ensures { IfOk result (λ name. name ≡ self.now) }
    {
        Ok(Name {
            text: self.text.clone()?,
        })
    }

    /// Its bytes.
    pub fn bytes(&self) -> &[u8]
        ensures { result.now ≡ self.now }
    {
        self.text.as_bytes()
    }

    /// Its text.
    pub fn as_str(&self) -> &str
        ensures { result.now ≡ self.now }
    {
        self.text.as_str()
    }
}

impl fmt::Display for Name {
    ghost use Rattle.std.specs.Prelude.{Some};

    ghost output = { λ name. Some name };

    fn fmt<W: fmt::Write>(&self, f: &mut fmt::Formatter<W>) -> fmt::Result {
        let text = self.as_str();
        write!(f, "{text}")
    }
}

fn is_one_of_a_name(byte: u8) -> bool
    ensures { result ≡ is_name_byte byte }
{
    (b'a' <= byte && byte <= b'z')
        || (b'A' <= byte && byte <= b'Z')
        || (b'0' <= byte && byte <= b'9')
        || byte == b'-'
        || byte == b'_'
        || byte == b'.'
}

fn are_all_of_a_name(text: &[u8]) -> bool
    ensures { result ≡ list_all is_name_byte text.now }
{
    text.iter().all(|byte| is_one_of_a_name(*byte))
}

fn is_a_name(text: &[u8]) -> bool
    ensures { result ≡ is_name text.now }
{
    1 <= text.len() && text.len() <= 253 && are_all_of_a_name(text)
}
