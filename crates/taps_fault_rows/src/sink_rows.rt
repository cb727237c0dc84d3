// The one write of a log into outputs of each capacity that is too small, and of the first one that is not.
ghost use Rattle.std.specs.Prelude.{◌≤◌, length};

use crate::row::{each_is_closed_once, framers, status_of};
use std::alloc::Global;
use std::process::Abort;
use std::test::Fail;
use taps_app::Status;
use taps_base::MemorySink;
use taps_framer::Framer;
use taps_script::ScriptSockets;

const FILE: &[u8] =
    b"[[remote]]\naddress = \"127.0.0.1:9000\"\n[[remote]]\naddress = \"127.0.0.2:9000\"\n";

const LOG: &[u8] =
    b"leaves 2\n0 any tcp 127.0.0.1:9000 +0\n1 any tcp 127.0.0.2:9000 +250\nbegin 0\nstart 0 socket 0 at 0\nwait 250 reached 250\nstart 1 socket 1 at 250\nwait 30000 completed 1 at 310\nclose 0\nready 1\nclose 1\nsent 0 0\ndone\n";

// Runs the session into an output of this capacity: what is on both outputs, and the status.
fn writes<R: Abort>(
    rt: &R,
    alloc: Global,
    shelf: &Vec<Box<dyn Framer>>,
    taken: &[u8],
    line: &[u8],
    code: u8,
) -> Result<(), Fail>
    requires { length shelf.now.items ≤ 64 }
{
    let capacity = taken.len() as u64;
    let mut out = MemorySink::new(alloc, capacity, None)?;
    let mut err = MemorySink::new(alloc, 200, None)?;
    let status = closes_all(rt, alloc, &mut out, &mut err, shelf)?;
    assert_eq!(rt; out.bytes(), taken, "at {capacity}");
    assert_eq!(rt; err.bytes(), line, "at {capacity}");
    assert_eq!(rt; status.code(), code, "at {capacity}");
    Ok(())
}

// The status, where each socket is closed.
fn closes_all<R: Abort>(
    rt: &R,
    alloc: Global,
    out: &mut MemorySink,
    err: &mut MemorySink,
    shelf: &Vec<Box<dyn Framer>>,
) -> Result<Status, Fail>
    requires { length shelf.now.items ≤ 64 }
{
    let mut net = ScriptSockets::read(alloc, b"leaf 1 completes 60\n")?;
    let status = status_of(alloc, FILE, out, err, &mut net, shelf)?;
    assert!(rt; each_is_closed_once(net.items()));
    Ok(status)
}

fn takes_what_fits<R: Abort>(
    rt: &R,
    alloc: Global,
    shelf: &Vec<Box<dyn Framer>>,
    log: &[u8],
) -> Result<(), Fail>
    requires { length shelf.now.items ≤ 64 }
{
    for capacity in 0..log.len() {
        writes(
            rt,
            alloc,
            shelf,
            &log[..capacity],
            b"taps: output fault\n",
            7,
        )?;
    }
    writes(rt, alloc, shelf, log, b"", 0)
}

#[test]
fn outputs_that_are_too_small(rt: HostRuntime) -> Result<(), Fail> {
    let shelf = framers(rt.alloc())?;
    takes_what_fits(&rt, rt.alloc(), &shelf, LOG)
}
