ghost use Rattle.std.specs.Prelude.{◌≡◌, ◌<◌, ◌≤◌, [], ◌∷◌, ◌++◌, length, true};
ghost use Rattle.taps_endpoint.specs.UnixPaths.{is_path_byte};

use crate::UnixPath;
use std::marker::Model;

/// The bytes of a path that were read so far, at most 107.
#[derive(Drop)]
pub struct PathBytes {
    bytes: [u8; 107],
    count: usize,
}

impl Model for PathBytes {
    ghost use Rattle.std.specs.Prelude.{List, ℕ, take};

    ghost Value = { List ℕ };

    ghost use Rattle.taps_endpoint.specs.UnixPaths.{IsPaddedFront};

    ghost view = { λ p. take p.count p.bytes };

    ghost invariant = { λ p. IsPaddedFront p.bytes p.count };
}

impl PathBytes {
    /// None.
    pub fn new() -> PathBytes
        ensures { result ≡ [] }
    {
        PathBytes {
            bytes: [0; 107],
            count: 0,
        }
    }

    /// How many there are.
    pub fn count(&self) -> usize
        ensures { result ≡ length self.now }
    {
        self.count
    }

    /// Adds one.
    pub fn push(&mut self, byte: u8)
        requires room { length self.old < 107 }
        requires visible { is_path_byte byte ≡ true }
        ensures { self.new ≡ self.old ++ byte ∷ [] }
    {
        self.bytes[self.count] = byte;
        self.count += 1;
    }

    /// The path that they are.
    pub fn whole(&self) -> UnixPath
        requires { 1 ≤ length self.now }
        ensures { result ≡ self.now }
    {
        UnixPath::from_parts(self.bytes, self.count)
    }
}
