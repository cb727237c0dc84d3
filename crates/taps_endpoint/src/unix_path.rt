ghost use Rattle.std.specs.Prelude.{◌≡◌, ◌≤◌, nat_eq, take};
ghost use Rattle.std.specs.Hash as fed;
ghost use Rattle.std.specs.Cmp.{partial_equiv_from_equiv};
ghost use Rattle.std.specs.Cmp.Lexicographic.{pointwise, nat_list_eq_equiv};
ghost use Rattle.std.specs.Cmp.Rules.{hashing};
ghost use Rattle.std.proofs.Common.{rules};
ghost use Rattle.taps_endpoint.specs.UnixPaths.{IsUnixPath, IsPaddedFront};

use std::hash::{Hash, Hasher};
use std::marker::Model;
use std::str;

/// The path of a Unix socket: 1 to 107 bytes, each from 33 to 126. Linux fits 108 bytes, with the
/// end byte.
//
// Where it is passed on or built into a value and used again, in a struct or an enum too, copy it
// first, `let again = address;`: the checker covers no other form.
#[derive(Clone, Copy, Debug)]
pub struct UnixPath {
    bytes: [u8; 107],
    count: usize,
}

impl Model for UnixPath {
    ghost use Rattle.std.specs.Prelude.{List, ℕ, take, length};

    ghost Value = { List ℕ };

    ghost use Rattle.taps_endpoint.specs.UnixPaths.{IsPadded, padded, padded_again, count_again};

    ghost view = { λ p. take p.count p.bytes };

    ghost invariant = { λ p. IsPadded p.bytes p.count };

    ghost inverse = { λ path. record { bytes = padded path; count = length path } };

    ghost inverse_ok = { λ p h i. record {
      bytes = padded_again p.bytes p.count h i;
      count = count_again p.bytes p.count h i;
    } };
}

impl UnixPath {
    /// The path in the first `count` of these bytes.
    #[tactic(auto, using(crate::proofs::PathBuffers::padded_path))]
    pub(crate) fn from_parts(bytes: [u8; 107], count: usize) -> UnixPath
        requires front { IsPaddedFront bytes count }
        requires some { 1 ≤ count }
        ensures { result ≡ take count bytes }
    {
        UnixPath { bytes, count }
    }

    /// Its bytes.
    pub fn bytes(&self) -> &[u8]
        ensures bytes { result.now ≡ self.now }
        ensures path { IsUnixPath self.now }
    {
        &self.bytes[..self.count]
    }

    /// Its text.
    #[tactic(auto, using(crate::proofs::PathTexts::path_is_text))]
    pub(crate) fn as_str(&self) -> &str
        ensures { result.now ≡ self.now }
    {
        match str::from_utf8(self.bytes()) {
            Ok(text) => text,
            Err(_) => unreachable!(),
        }
    }
}

impl PartialEq for UnixPath {
    ghost eq = { pointwise nat_eq };

    ghost laws = { partial_equiv_from_equiv nat_list_eq_equiv };

    fn eq(&self, other: &UnixPath) -> bool {
        self.bytes() == other.bytes()
    }
}

impl Eq for UnixPath {
    ghost laws = { nat_list_eq_equiv };
}

impl Hash for UnixPath {
    ghost hash_input = { fed.slice fed.u8 };

    ghost respects_eq = { Prim.search (hashing, rules) };

    fn hash<H: Hasher>(&self, state: &mut H) {
        self.bytes().hash(state);
    }
}
