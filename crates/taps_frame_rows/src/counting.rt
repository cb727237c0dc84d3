use std::cell::Cell;
use std::rc::Rc;
use taps_base::NoMemory;
use taps_framer::{Framer, Scan, Seen, Sight};

/// A framer that counts the calls of its `step` and its `read`. It has no bulk call of its own, so
/// each byte that is looked at is a step.
#[derive(Drop)]
pub struct Counting<F: Framer> {
    inner: F,
    steps: Rc<Cell<u64>>,
    reads: Rc<Cell<u64>>,
}

impl<F: Framer> Counting<F> {
    /// The framer, counted in these cells.
    pub fn new(inner: F, steps: Rc<Cell<u64>>, reads: Rc<Cell<u64>>) -> Counting<F> {
        Counting {
            inner,
            steps,
            reads,
        }
    }
}

impl<F: Framer> Framer for Counting<F> {
    ghost layer = { λ s. F.layer s.inner };

    ghost scans = { λ s. F.scans s.inner };

    fn name(&self) -> &str {
        self.inner.name()
    }

    fn speaks(&self, body: &[u8]) -> bool {
        self.inner.speaks(body)
    }

    fn write(&self, index: u64, body: &[u8], out: &mut Vec<u8>) -> Result<(), NoMemory> {
        self.inner.write(index, body, out)
    }

    fn read(&self, index: u64, buffer: &[u8]) -> Sight {
        self.reads.set(self.reads.get().saturating_add(1));
        self.inner.read(index, buffer)
    }

    fn unwrap(&self, index: u64, frame: &[u8], out: &mut Vec<u8>) -> Result<(), NoMemory> {
        self.inner.unwrap(index, frame, out)
    }

    fn start(&self, index: u64) -> Scan {
        self.inner.start(index)
    }

    fn step(&self, index: u64, scan: Scan, byte: u8) -> Seen {
        self.steps.set(self.steps.get().saturating_add(1));
        self.inner.step(index, scan, byte)
    }

    fn vouch(&self, index: u64) {
        self.inner.vouch(index);
    }
}
