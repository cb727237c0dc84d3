ghost use Rattle.std.specs.Prelude.{◌≡◌, ◌+◌, ◌<◌, ◌≤◌, ◌++◌, ◌∷◌, [], ℕ, List, length};
ghost use Rattle.taps_framer.specs.Scans.{Represents, IsSeen, IsRun, looked};

use crate::{Framer, Run, Scan, Seen};
use std::marker::Model;
use std::sync::ledger::{Blank, Book, Ledger, Share};

/// The number of bytes that framers looked at by `look` and `look_along`, which alone raise it.
///
/// It takes no memory and no time.
#[derive(Drop)]
pub struct Steps<L: Ledger> {
    book: Book<L>,
    share: Share<L>,
}

impl<L: Ledger> Model for Steps<L> {
    ghost use Rattle.std.specs.Prelude.{ℕ, ◌<◌};

    ghost Value = { ℕ };

    ghost view = { λ s. s.book.total };

    ghost invariant = { λ s. 0 < s.share.parts };
}

impl<L: Ledger> Steps<L> {
    /// No steps yet.
    pub fn none(blank: Blank) -> Steps<L>
        requires name { blank.name ≡ L.name }
        requires parts { blank.parts ≡ L.parts }
        requires some { 0 < blank.parts }
        ensures { result ≡ 0 }
    {
        let (book, share) = blank.open::<L>();
        Steps { book, share }
    }

    // So many steps more.
    fn add(&mut self, steps: u64)
        ensures { self.new ≡ self.old + steps }
    {
        self.book.add(&mut self.share, steps);
    }
}

/// Looks at the next byte of a frame, and counts it.
pub fn look<L: Ledger>(
    framer: &dyn Framer,
    index: u64,
    scan: Scan,
    byte: u8,
    steps: &mut Steps<L>,
) -> Seen
    requires { (x : List ℕ) × Represents (layer framer.now) (scans framer.now) index scan x }
    ensures seen { (x : List ℕ) → Represents (layer framer.now) (scans framer.now) index scan x →
        IsSeen (layer framer.now) (scans framer.now) index (x ++ byte ∷ []) result }
    ensures counted { steps.new ≡ steps.old + 1 }
{
    let seen = framer.step(index, scan, byte);
    steps.add(1);
    seen
}

/// Looks at the next bytes of a frame, up to the one that settles it, and counts them.
pub fn look_along<L: Ledger>(
    framer: &dyn Framer,
    index: u64,
    scan: Scan,
    bytes: &[u8],
    steps: &mut Steps<L>,
) -> Run
    requires { (x : List ℕ) × Represents (layer framer.now) (scans framer.now) index scan x }
    ensures run { (x : List ℕ) → Represents (layer framer.now) (scans framer.now) index scan x →
        IsRun (layer framer.now) (scans framer.now) index x bytes.now result }
    ensures counted { steps.new ≡ steps.old + looked result bytes.now }
{
    let run = framer.advance(index, scan, bytes);
    steps.add(looked_at(run, bytes));
    run
}

// How many of the bytes were looked at.
fn looked_at(run: Run, bytes: &[u8]) -> u64
    requires { looked run bytes.now ≤ length bytes.now }
    ensures { result ≡ looked run bytes.now }
{
    match run {
        Run::More(_) => bytes.len() as u64,
        Run::Whole { used } => used as u64,
        Run::Bad { place } => place as u64 + 1,
    }
}

/// Looks at the next bytes of a frame by a boxed framer, and counts them.
pub fn look_along_in<L: Ledger>(
    framer: &Box<dyn Framer>,
    index: u64,
    scan: Scan,
    bytes: &[u8],
    steps: &mut Steps<L>,
) -> Run
    requires { (x : List ℕ) × Represents (layer framer.now) (scans framer.now) index scan x }
    ensures run { (x : List ℕ) → Represents (layer framer.now) (scans framer.now) index scan x →
        IsRun (layer framer.now) (scans framer.now) index x bytes.now result }
    ensures counted { steps.new ≡ steps.old + looked result bytes.now }
{
    look_along(&**framer, index, scan, bytes, steps)
}
