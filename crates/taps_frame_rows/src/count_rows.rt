// Framers with no bulk call, which count the calls of their `step` and `read`.
ghost use Rattle.std.specs.Prelude.{◌≡◌, ◌≤◌, length, IfOk};

use crate::Counting;
use std::alloc::{AllocError, Global};
use std::cell::Cell;
use std::process::Abort;
use std::rc::Rc;
use std::test::Fail;
use taps_base::List;
use taps_chain::{Chain, Heard, hear_bytes};
use taps_framer::Framer;
use taps_frames::{Len16, Netstring};

// One message and the beginning of another, through `len16` over `netstring`.
const BYTES: [u8; 11] = *b"\x00\x052:hi,\x00\x052:";

// Hears them in pieces of this size: layer 0 makes at most as many steps as there are bytes, and no
// layer is asked to read.
fn counts(rt: &impl Abort, alloc: Global, piece: usize) -> Result<(), Fail>
    requires { 1 ≤ piece }
{
    let steps = Rc::new(alloc, Cell::new(0))?;
    let reads = Rc::new(alloc, Cell::new(0))?;
    let above = Rc::new(alloc, Cell::new(0))?;
    let shelf = shelf_of(alloc, &steps, &reads, &above)?;
    let chain = Chain::new(alloc, &shelf, &[0, 1])?;
    let mut sink = List::new(alloc);
    let hearing = hear_bytes(chain, &BYTES, piece, &mut sink);
    assert!(rt; matches!(hearing.end, Heard::Need));
    assert_eq!(rt; hearing.rest, 4);
    assert_eq!(rt; sink.len(), 1);
    assert!(rt; steps.get() <= 11, "{} steps", steps.get());
    assert!(rt; above.get() <= 5, "{} steps above", above.get());
    assert_eq!(rt; reads.get(), 0);
    Ok(())
}

fn shelf_of(
    alloc: Global,
    steps: &Rc<Cell<u64>>,
    reads: &Rc<Cell<u64>>,
    above: &Rc<Cell<u64>>,
) -> Result<Vec<Box<dyn Framer>>, AllocError>
    ensures { IfOk result (λ shelf. length shelf.items ≡ 2) }
{
    let mut shelf: Vec<Box<dyn Framer>> = Vec::new(alloc);
    let first = Counting::new(Len16, Rc::clone(steps)?, Rc::clone(reads)?);
    shelf.push(Box::new(alloc, first)?)?;
    let second = Counting::new(Netstring, Rc::clone(above)?, Rc::clone(reads)?);
    shelf.push(Box::new(alloc, second)?)?;
    Ok(shelf)
}

#[test]
fn each_byte_is_one_step(rt: HostRuntime) -> Result<(), Fail> {
    let alloc = rt.alloc();
    counts(&rt, alloc, 1)?;
    counts(&rt, alloc, 2)?;
    counts(&rt, alloc, 3)?;
    counts(&rt, alloc, 11)?;
    Ok(())
}
