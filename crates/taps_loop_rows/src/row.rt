// A row of a session of both ends: the file, the sockets, and what is printed.
ghost use Rattle.std.specs.Prelude.{◌≡◌, ◌≤◌, length, IfOk};

use crate::running::run_in_memory;
use std::alloc::{AllocError, Global};
use std::process::Abort;
use std::test::Fail;
use taps_base::MemorySink;
use taps_framer::Framer;
use taps_frames::{Counted, Len16, Len32, Line, Netstring, Seq, Stuffed, Tag, Varint};
use taps_memory::MemoryNet;
use taps_socket::Item;

/// The sockets: how many connections there are, the bytes of their rings, and the waits and accepts that fault, counted
/// together from 0.
#[derive(Clone, Copy)]
pub struct Net<'a> {
    pub pairs: u32,
    pub ring: u32,
    pub faults: &'a [u64],
}

/// What is printed, and the status.
#[derive(Clone, Copy)]
pub struct Printed<'a> {
    pub out: &'a str,
    pub code: u8,
}

/// The shelf of the program.
pub fn nine(alloc: Global) -> Result<Vec<Box<dyn Framer>>, AllocError>
    ensures { IfOk result (λ shelf. length shelf.items ≡ 9) }
{
    let mut shelf: Vec<Box<dyn Framer>> = Vec::new(alloc);
    shelf.push(Box::new(alloc, Len16)?)?;
    shelf.push(Box::new(alloc, Len32)?)?;
    shelf.push(Box::new(alloc, Varint)?)?;
    shelf.push(Box::new(alloc, Netstring)?)?;
    shelf.push(Box::new(alloc, Counted)?)?;
    shelf.push(Box::new(alloc, Line)?)?;
    shelf.push(Box::new(alloc, Stuffed)?)?;
    shelf.push(Box::new(alloc, Tag { kind: 77 })?)?;
    shelf.push(Box::new(alloc, Seq)?)?;
    Ok(shelf)
}

/// Runs a file over new sockets in memory, and looks at what is printed, at the status, and that every socket is closed.
pub fn prints<R: Abort>(
    rt: &R,
    alloc: Global,
    shelf: &Vec<Box<dyn Framer>>,
    file: &[u8],
    sockets: Net<'_>,
    printed: Printed<'_>,
) -> Result<(), Fail>
    requires { length shelf.now.items ≤ 64 }
{
    assert!(rt; sockets.pairs <= 64 && sockets.ring >= 1 && sockets.ring <= 65536);
    let mut net = MemoryNet::new(alloc, sockets.pairs, sockets.ring, sockets.faults)?;
    let mut out = MemorySink::new(alloc, 4000, None)?;
    let mut err = MemorySink::new(alloc, 200, None)?;
    let status = run_in_memory(alloc, file, shelf, &mut net, &mut out, &mut err)?;
    assert_eq!(rt; str::from_utf8(out.bytes()), Ok(printed.out));
    assert_eq!(rt; status.code(), printed.code);
    assert!(rt; err.bytes().is_empty());
    assert_eq!(rt; count_opened(net.items()), count_closed(net.items()));
    Ok(())
}

fn count_opened(items: &[Item]) -> usize {
    items
        .iter()
        .filter(|item| {
            matches!(
                item,
                Item::Started { .. } | Item::Listening { .. } | Item::Accepted { .. }
            )
        })
        .count()
}

fn count_closed(items: &[Item]) -> usize {
    items
        .iter()
        .filter(|item| matches!(item, Item::Closed { .. }))
        .count()
}
