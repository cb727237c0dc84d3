// Messages over each chain of one and of two framers, and over rings of each size, are heard as they were sent.
ghost use Rattle.std.specs.Prelude.{◌≡◌, ◌≤◌, ◌<◌, [], All, length, IfOk};
ghost use Rattle.taps_memory_rows.specs.Ends.{IsUsable, AreUsable};

use crate::carry::carry;
use crate::ends::{let_both_go, meet};
use crate::made::count_closes;
use std::alloc::{AllocError, Global};
use std::process::Abort;
use std::test::Fail;
use taps_base::NoMemory;
use taps_connection::{Connection, Established};
use taps_framer::Framer;
use taps_frames::{Counted, Len16, Len32, Line, Netstring, Seq, Stuffed, Tag, Varint};
use taps_memory::MemoryNet;
use taps_socket::Sockets;

// The bytes of a ring.
static RINGS: [u32; 4] = [1, 7, 4096, 65536];

const WORD: [u8; 5] = *b"hello";

// Among these are both bytes that `stuffed` spells by two.
const BYTES: [u8; 20] = [
    200, 201, 202, 203, 204, 205, 206, 207, 208, 209, 210, 211, 219, 192, 219, 192, 192, 221, 220,
    0,
];

// The place of `line` on the shelf. The frame of one has a line's end, so none can be the layer below another. Each
// other chain carries these messages.
const LINE: usize = 5;

fn nine(alloc: Global) -> Result<Vec<Box<dyn Framer>>, AllocError>
    ensures { IfOk result (λ shelf. length shelf.items ≡ 9) }
{
    let mut shelf: Vec<Box<dyn Framer>> = Vec::new(alloc);
    shelf.push(Box::new(alloc, Len16)?)?;
    shelf.push(Box::new(alloc, Len32)?)?;
    shelf.push(Box::new(alloc, Varint)?)?;
    shelf.push(Box::new(alloc, Netstring)?)?;
    shelf.push(Box::new(alloc, Counted)?)?;
    shelf.push(Box::new(alloc, Line)?)?;
    shelf.push(Box::new(alloc, Stuffed)?)?;
    shelf.push(Box::new(alloc, Tag { kind: 77 })?)?;
    shelf.push(Box::new(alloc, Seq)?)?;
    Ok(shelf)
}

// Both messages go from one end to the other, or cannot be sent.
fn carry_both<N: Sockets, R: Abort>(
    rt: &R,
    alloc: Global,
    from: &mut Connection<'_, Established>,
    to: &mut Connection<'_, Established>,
    net: &mut N,
    speaks: bool,
)
    requires { AreUsable ⟦<dyn Framer as Framer>⟧ from.old to.old (N.net net.old) }
    ensures { AreUsable ⟦<dyn Framer as Framer>⟧ from.new to.new (N.net net.new) }
{
    assert_eq!(rt; carry(rt, alloc, from, to, net, &WORD), speaks);
    assert_eq!(rt; carry(rt, alloc, from, to, net, &BYTES), speaks);
}

fn converse<N: Sockets, R: Abort>(
    rt: &R,
    alloc: Global,
    starter: Connection<'_, Established>,
    acceptor: Connection<'_, Established>,
    net: &mut N,
    speaks: bool,
)
    requires { AreUsable ⟦<dyn Framer as Framer>⟧ starter acceptor (N.net net.old) }
{
    let mut starter = starter;
    let mut acceptor = acceptor;
    carry_both(rt, alloc, &mut starter, &mut acceptor, net, speaks);
    carry_both(rt, alloc, &mut acceptor, &mut starter, net, speaks);
    carry_both(rt, alloc, &mut starter, &mut acceptor, net, speaks);
    let_both_go(rt, starter, acceptor, net);
}

fn take_row(
    rt: &impl Abort,
    alloc: Global,
    shelf: &Vec<Box<dyn Framer>>,
    places: &[usize],
    ring: u32,
) -> Result<(), NoMemory>
    requires few { length places.now ≤ 8 }
    requires within { All (λ p. p < length shelf.now.items) places.now }
{
    assert!(rt; ring >= 1 && ring <= 65536);
    let mut net = MemoryNet::new(alloc, 1, ring, &[])?;
    let (starter, acceptor) = meet(rt, alloc, shelf, places, &mut net);
    let speaks = places != [LINE, LINE].as_slice();
    converse(rt, alloc, starter, acceptor, &mut net, speaks);
    assert_eq!(rt; count_closes(net.items()), 3);
    Ok(())
}

#[test]
fn messages_through_each_framer(rt: HostRuntime) -> Result<(), Fail> {
    let shelf = nine(rt.alloc())?;
    for ring in &RINGS {
        for place in 0..9 {
            take_row(&rt, rt.alloc(), &shelf, &[place], *ring)?;
        }
    }
    Ok(())
}

#[test]
fn messages_through_each_two_framers(rt: HostRuntime) -> Result<(), Fail> {
    let shelf = nine(rt.alloc())?;
    for ring in &RINGS {
        for below in 0..9 {
            for above in 0..9 {
                take_row(&rt, rt.alloc(), &shelf, &[below, above], *ring)?;
            }
        }
    }
    Ok(())
}
