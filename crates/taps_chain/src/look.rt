ghost use Rattle.std.specs.Prelude.{◌≡◌, ◌+◌, ◌<◌, ◌≤◌, ◌++◌, ℕ, List, true, false, length, take};
ghost use Rattle.taps_framer.specs.Scans.{Represents, IsRun, looked};
ghost use Rattle.taps_chain.specs.Looks.{IsSettled, HasLooked, LooksOn};

use std::sync::ledger::Ledger;
use taps_framer::{Framer, Run, Scan, Seen, Steps, advance_in, look_along_in, start_in};

/// How far layer 0 has looked at the bytes of its next frame, so that it looks at none twice.
#[derive(Clone, Copy)]
pub(crate) struct Look {
    /// The number of bytes that were scanned.
    pub scanned: usize,
    /// What is seen in them.
    pub seen: Seen,
}

impl Look {
    /// The look at no bytes.
    pub(crate) fn start(framer: &Box<dyn Framer>, index: u64) -> Look
        ensures none { result.scanned ≡ 0 }
        ensures looked { (unread : List ℕ) → HasLooked (layer framer.now) (scans framer.now) index unread result }
    {
        Look {
            scanned: 0,
            seen: Seen::More(start_in(framer, index)),
        }
    }

    /// Looks on at the unread bytes, up to the one that settles what they are, and counts them where
    /// the layer is watched.
    #[inline(always)]
    pub(crate) fn look_on<L: Ledger>(
        &mut self,
        framer: &Box<dyn Framer>,
        index: u64,
        unread: &[u8],
        watched: bool,
        steps: &mut Steps<L>,
    )
        requires { HasLooked (layer framer.now) (scans framer.now) index unread.now self.old }
        ensures looks { LooksOn (layer framer.now) (scans framer.now) index unread.now self.old self.new }
        ensures counted { watched ≡ true → steps.new + self.old.scanned ≡ steps.old + self.new.scanned }
        ensures uncounted { watched ≡ false → steps.new ≡ steps.old }
    {
        if let Seen::More(scan) = self.seen {
            let bytes = &unread[self.scanned..];
            match advance_watched(framer, index, scan, bytes, watched, steps) {
                Run::More(next) => {
                    self.seen = Seen::More(next);
                    self.scanned = unread.len();
                }
                Run::Whole { used } => {
                    self.seen = Seen::Whole;
                    self.scanned += used;
                }
                Run::Bad { place } => {
                    self.seen = Seen::Bad;
                    self.scanned += place + 1;
                }
            }
        }
    }
}

/// Looks at the next bytes of a frame, and counts them where the layer is watched.
#[inline(always)]
pub(crate) fn advance_watched<L: Ledger>(
    framer: &Box<dyn Framer>,
    index: u64,
    scan: Scan,
    bytes: &[u8],
    watched: bool,
    steps: &mut Steps<L>,
) -> Run
    requires { (x : List ℕ) × Represents (layer framer.now) (scans framer.now) index scan x }
    ensures run { (x : List ℕ) → Represents (layer framer.now) (scans framer.now) index scan x →
        IsRun (layer framer.now) (scans framer.now) index x bytes.now result }
    ensures counted { watched ≡ true → steps.new ≡ steps.old + looked result bytes.now }
    ensures uncounted { watched ≡ false → steps.new ≡ steps.old }
{
    if watched {
        look_along_in(framer, index, scan, bytes, steps)
    } else {
        advance_in(framer, index, scan, bytes)
    }
}

/// Looks at the next bytes of a frame one by one, up to the one that settles it, and at one at least.
fn step_along(framer: &dyn Framer, index: u64, scan: Scan, bytes: &[u8]) -> Look
    requires some { 0 < length bytes.now }
    requires scan { (x : List ℕ) × Represents (layer framer.now) (scans framer.now) index scan x }
    ensures some { 0 < result.scanned }
    ensures within { result.scanned ≤ length bytes.now }
    ensures settled { (x : List ℕ) → Represents (layer framer.now) (scans framer.now) index scan x →
        IsSettled (layer framer.now) (scans framer.now) index (x ++ take result.scanned bytes.now) result.seen }
{
    let mut reached = scan;
    let mut scanned = 0;
    'bytes: loop {
        let seen = framer.step(index, reached, bytes[scanned]);
        scanned += 1;
        let Seen::More(next) = seen else {
            return Look { scanned, seen };
        };
        if scanned == bytes.len() {
            return Look { scanned, seen };
        }
        reached = next;
    }
}

/// The same by a boxed framer.
pub(crate) fn step_along_in(framer: &Box<dyn Framer>, index: u64, scan: Scan, bytes: &[u8]) -> Look
    requires some { 0 < length bytes.now }
    requires scan { (x : List ℕ) × Represents (layer framer.now) (scans framer.now) index scan x }
    ensures some { 0 < result.scanned }
    ensures within { result.scanned ≤ length bytes.now }
    ensures settled { (x : List ℕ) → Represents (layer framer.now) (scans framer.now) index scan x →
        IsSettled (layer framer.now) (scans framer.now) index (x ++ take result.scanned bytes.now) result.seen }
{
    step_along(&**framer, index, scan, bytes)
}
