ghost use Rattle.std.specs.Prelude.{◌≡◌, ℕ, Option, IsTrue, is_some};
ghost use Rattle.taps_endpoint.specs.Machines.{Advances, answer_of};

/// A state of a machine that reads a value, byte by byte. It is changed in place.
pub trait Machine: Drop + Sized {
    type Value: Copy;

    ghost step: { Self → ℕ → Option Self };

    ghost at_end: { Self → Option Self.Value };

    ghost is_small: { Self → Type 0 };

    ghost start: { Self };

    /// Nothing was read.
    fn begin() -> Self
        ensures start { result ≡ start }
        ensures small { is_small result };

    /// Reads one more byte, or says that it may not follow.
    fn advance(&mut self, byte: u8) -> bool
        requires { is_small self.old }
        ensures steps { Advances (step self.old byte) result self.new }
        ensures small { IsTrue result → is_small self.new };

    /// The value, if the text may end here.
    fn finish(&self) -> Option<Self::Value>
        requires { is_small self.now }
        ensures { result ≡ at_end self.now };
}

/// A machine that tells whether a text may end here.
pub trait Whole: Machine {
    fn is_whole(&self) -> bool
        ensures { result ≡ is_some (Self.at_end self.now) };
}

/// The value that the machine reads in a text, or the place where it stops.
pub fn read<M: Machine>(text: &[u8]) -> Result<M::Value, u64>
    ensures { result ≡ answer_of M.step M.at_end M.start text.now }
{
    let mut state = M::begin();
    for (index, byte) in text.iter().enumerate() {
        if !state.advance(*byte) {
            return Err(index as u64);
        }
    }
    state.finish().ok_or(text.len() as u64)
}
