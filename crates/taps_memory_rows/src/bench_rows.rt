// What `bench/memory` measures: messages of 4,000 bytes from one end of a connection to the other through `len16`.
ghost use Rattle.std.specs.Prelude.{◌≡◌, [], length};
ghost use Rattle.taps_memory_rows.specs.Ends.{AreUsable};

use crate::carry::carry;
use crate::ends::{let_both_go, meet};
use std::alloc::Global;
use std::process::Abort;
use std::test::Fail;
use taps_connection::{Connection, Established};
use taps_framer::Framer;
use taps_frames::Len16;
use taps_memory::MemoryNet;
use taps_socket::Sockets;

fn carry_times<N: Sockets, R: Abort>(
    rt: &R,
    alloc: Global,
    from: &mut Connection<'_, Established>,
    to: &mut Connection<'_, Established>,
    net: &mut N,
    body: &[u8],
    times: u64,
)
    requires { AreUsable ⟦<dyn Framer as Framer>⟧ from.old to.old (N.net net.old) }
    ensures { AreUsable ⟦<dyn Framer as Framer>⟧ from.new to.new (N.net net.new) }
{
    if times > 0 {
        assert!(rt; carry(rt, alloc, from, to, net, body));
        carry_times(rt, alloc, from, to, net, body, times - 1);
    }
}

fn carry_all<N: Sockets, R: Abort>(
    rt: &R,
    alloc: Global,
    shelf: &Vec<Box<dyn Framer>>,
    net: &mut N,
    body: &[u8],
    times: u64,
)
    requires shelf { length shelf.now.items ≡ 1 }
    requires new { (N.net net.old).trace ≡ [] }
{
    let (starter, acceptor) = meet(rt, alloc, shelf, &[0], net);
    let mut from = starter;
    let mut to = acceptor;
    carry_times(rt, alloc, &mut from, &mut to, net, body, times);
    let_both_go(rt, from, to, net);
}

fn measure(rt: &impl Abort, alloc: Global, ring: u32, times: u64) -> Result<(), Fail> {
    let mut shelf: Vec<Box<dyn Framer>> = Vec::new(alloc);
    shelf.push(Box::new(alloc, Len16)?)?;
    assert_eq!(rt; shelf.len(), 1);
    assert!(rt; ring >= 1 && ring <= 65536);
    let body = vec![in alloc; 7u8; 4000]?;
    let mut net = MemoryNet::new(alloc, 1, ring, &[])?;
    carry_all(rt, alloc, &shelf, &mut net, &body, times);
    Ok(())
}

#[test]
fn of_65536_0(rt: HostRuntime) -> Result<(), Fail> {
    measure(&rt, rt.alloc(), 65536, 0)
}

#[test]
fn of_65536_128(rt: HostRuntime) -> Result<(), Fail> {
    measure(&rt, rt.alloc(), 65536, 128)
}

#[test]
fn of_65536_256(rt: HostRuntime) -> Result<(), Fail> {
    measure(&rt, rt.alloc(), 65536, 256)
}

#[test]
fn of_1_0(rt: HostRuntime) -> Result<(), Fail> {
    measure(&rt, rt.alloc(), 1, 0)
}

#[test]
fn of_1_128(rt: HostRuntime) -> Result<(), Fail> {
    measure(&rt, rt.alloc(), 1, 128)
}

#[test]
fn of_1_256(rt: HostRuntime) -> Result<(), Fail> {
    measure(&rt, rt.alloc(), 1, 256)
}
