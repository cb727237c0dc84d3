ghost use Rattle.std.specs.Prelude.{◌≡◌, ◌+◌, ◌≤◌, ◌++◌, ◌∷◌, [], ℕ, List, true, length, vec_len, vec_capacity, IsOk, OnOk, OnErr};
ghost use Rattle.taps_framer.specs.Layers.{Layer, IsWholeFrame, IsFramer};
ghost use Rattle.taps_framer.specs.Sights.{IsSight};
ghost use Rattle.taps_framer.specs.Scans.{Represents, IsSeen, IsRun};
ghost use Rattle.taps_framer.specs.declared.scan.Scan.{Scan};

use crate::{Run, Scan, Seen, Sight};
use taps_base::NoMemory;

/// A framer, which turns messages into frames that tell where they end.
///
/// Contracts see its name, the bodies that it speaks, and the frame of each at each index of a
/// stream; and which bytes each of its scans represents. No answer depends on an earlier call.
///
/// For authors: `write` and `unwrap` must not fail where the buffer has room for the frame, or for
/// as many bytes as the frame has, above what it holds (the clauses `room`). So reserve no more than
/// that, at once, and answer `NoMemory` only when that fails.
pub trait Framer: Drop {
    ghost layer: { Self → Layer };

    ghost scans: { Self → ℕ → Scan → List ℕ → Type 0 };

    /// Its name.
    fn name(&self) -> &str
        ensures { result.now ≡ (layer self.now).name };

    /// Whether it has a frame for this body.
    fn speaks(&self, body: &[u8]) -> bool
        ensures { result ≡ (layer self.now).speaks body.now };

    /// Appends the frame of a body. It cannot fail where the buffer has room for the frame.
    fn write(&self, index: u64, body: &[u8], out: &mut Vec<u8>) -> Result<(), NoMemory>
        requires { (layer self.now).speaks body.now ≡ true }
        ensures written { OnOk result (out.new.items ≡ out.old.items ++ (layer self.now).frame index body.now) }
        ensures unchanged { OnErr result (out.new.items ≡ out.old.items) }
        ensures room { vec_len out.old + length ((layer self.now).frame index body.now) ≤ vec_capacity out.old
            → IsOk result };

    /// What stands at the start of a buffer.
    fn read(&self, index: u64, buffer: &[u8]) -> Sight
        ensures { IsSight (layer self.now) index buffer.now result };

    /// Appends the body of a frame. It cannot fail where the buffer has room for as many bytes as
    /// the frame has.
    fn unwrap(&self, index: u64, frame: &[u8], out: &mut Vec<u8>) -> Result<(), NoMemory>
        requires { IsWholeFrame (layer self.now) index frame.now }
        ensures given { OnOk result (out.new.items ≡ out.old.items ++ (layer self.now).front index frame.now) }
        ensures unchanged { OnErr result (out.new.items ≡ out.old.items) }
        ensures room { vec_len out.old + length frame.now ≤ vec_capacity out.old → IsOk result };

    /// The scan of no bytes.
    fn start(&self, index: u64) -> Scan
        ensures { Represents (layer self.now) (scans self.now) index result [] };

    /// Looks at the next byte of a frame: what the scanned bytes are with it.
    fn step(&self, index: u64, scan: Scan, byte: u8) -> Seen
        requires { (x : List ℕ) × Represents (layer self.now) (scans self.now) index scan x }
        ensures { (x : List ℕ) → Represents (layer self.now) (scans self.now) index scan x →
            IsSeen (layer self.now) (scans self.now) index (x ++ byte ∷ []) result };

    /// Looks at the next bytes of a frame, one after the other as `step` does, up to the one that
    /// settles it. A framer may answer the same in fewer instructions.
    fn advance(&self, index: u64, scan: Scan, bytes: &[u8]) -> Run
        requires { (x : List ℕ) × Represents (layer self.now) (scans self.now) index scan x }
        ensures { (x : List ℕ) → Represents (layer self.now) (scans self.now) index scan x →
            IsRun (layer self.now) (scans self.now) index x bytes.now result }
    {
        let mut reached = scan;
        for place in 0..bytes.len() {
            match self.step(index, reached, bytes[place]) {
                Seen::More(next) => reached = next,
                Seen::Whole => return Run::Whole { used: place + 1 },
                Seen::Bad => return Run::Bad { place },
            }
        }
        Run::More(reached)
    }

    /// Nothing. Who holds a boxed framer learns its laws by a call, at every index at once.
    fn vouch(&self, index: u64)
        ensures { IsFramer (layer self.now) };
}
