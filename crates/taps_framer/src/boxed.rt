// Each call of a boxed framer.
ghost use Rattle.std.specs.Prelude.{◌≡◌, ◌+◌, ◌≤◌, ◌++◌, ◌∷◌, [], ℕ, List, true, length, vec_len, vec_capacity, IsOk, OnOk, OnErr};
ghost use Rattle.taps_framer.specs.Layers.{IsWholeFrame, IsFramer};
ghost use Rattle.taps_framer.specs.Sights.{IsSight};
ghost use Rattle.taps_framer.specs.Scans.{Represents, IsSeen, IsRun};

use crate::{Framer, Run, Scan, Seen, Sight};
use taps_base::NoMemory;

/// The name of a boxed framer.
pub fn name_in(framer: &Box<dyn Framer>) -> &str
    ensures { result.now ≡ (layer framer.now).name }
{
    framer.name()
}

/// Whether a boxed framer has a frame for this body.
pub fn speaks_in(framer: &Box<dyn Framer>, body: &[u8]) -> bool
    ensures { result ≡ (layer framer.now).speaks body.now }
{
    framer.speaks(body)
}

/// Appends the frame of a body by a boxed framer.
pub fn write_in(
    framer: &Box<dyn Framer>,
    index: u64,
    body: &[u8],
    out: &mut Vec<u8>,
) -> Result<(), NoMemory>
    requires { (layer framer.now).speaks body.now ≡ true }
    ensures written { OnOk result (out.new.items ≡ out.old.items ++ (layer framer.now).frame index body.now) }
    ensures unchanged { OnErr result (out.new.items ≡ out.old.items) }
    ensures room { vec_len out.old + length ((layer framer.now).frame index body.now) ≤ vec_capacity out.old
        → IsOk result }
{
    framer.write(index, body, out)
}

/// What a boxed framer sees at the start of a buffer.
pub fn read_in(framer: &Box<dyn Framer>, index: u64, buffer: &[u8]) -> Sight
    ensures { IsSight (layer framer.now) index buffer.now result }
{
    framer.read(index, buffer)
}

/// Appends the body of a frame of a boxed framer.
pub fn unwrap_in(
    framer: &Box<dyn Framer>,
    index: u64,
    frame: &[u8],
    out: &mut Vec<u8>,
) -> Result<(), NoMemory>
    requires { IsWholeFrame (layer framer.now) index frame.now }
    ensures given { OnOk result (out.new.items ≡ out.old.items ++ (layer framer.now).front index frame.now) }
    ensures unchanged { OnErr result (out.new.items ≡ out.old.items) }
    ensures room { vec_len out.old + length frame.now ≤ vec_capacity out.old → IsOk result }
{
    framer.unwrap(index, frame, out)
}

/// A boxed framer's scan of no bytes.
pub fn start_in(framer: &Box<dyn Framer>, index: u64) -> Scan
    ensures { Represents (layer framer.now) (scans framer.now) index result [] }
{
    framer.start(index)
}

/// Looks at the next byte of a frame by a boxed framer.
pub fn step_in(framer: &Box<dyn Framer>, index: u64, scan: Scan, byte: u8) -> Seen
    requires { (x : List ℕ) × Represents (layer framer.now) (scans framer.now) index scan x }
    ensures { (x : List ℕ) → Represents (layer framer.now) (scans framer.now) index scan x →
        IsSeen (layer framer.now) (scans framer.now) index (x ++ byte ∷ []) result }
{
    framer.step(index, scan, byte)
}

/// Looks at the next bytes of a frame by a boxed framer.
pub fn advance_in(framer: &Box<dyn Framer>, index: u64, scan: Scan, bytes: &[u8]) -> Run
    requires { (x : List ℕ) × Represents (layer framer.now) (scans framer.now) index scan x }
    ensures { (x : List ℕ) → Represents (layer framer.now) (scans framer.now) index scan x →
        IsRun (layer framer.now) (scans framer.now) index x bytes.now result }
{
    framer.advance(index, scan, bytes)
}

/// Nothing: its clause has the laws of a boxed framer, at every index.
pub fn vouch_in(framer: &Box<dyn Framer>, index: u64)
    ensures { IsFramer (layer framer.now) }
{
    framer.vouch(index);
}
