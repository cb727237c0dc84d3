// Each read of a command that reads two files fails in turn.
ghost use Rattle.std.specs.Prelude.{◌≡◌, ◌≤◌, [], length};

use crate::row::{framers, owned};
use std::alloc::Global;
use std::process::Abort;
use std::test::Fail;
use taps_app::{Status, run};
use taps_base::{MemoryFiles, MemorySink, NoMemory};
use taps_framer::Framer;
use taps_script::ScriptSockets;
use taps_socket::Sockets;

// The read that fails, what is printed on each output, and the status.
type Row = (u64, &'static str, &'static str, u8);

const FILE: &[u8] =
    b"framers = [\"len16\", \"netstring\"]\n[[remote]]\naddress = \"127.0.0.1:9000\"\n[exchange]\npiece = 1\n";

// A frame and the beginning of another.
const BYTES: &[u8] = b"\x00\x05\x32\x3a\x68\x69\x2c\x00\x05\x32\x3a";

// There is no third read.
static ROWS: [Row; 3] = [
    (0, "", "taps: file fault a.toml\n", 6),
    (1, "", "taps: file fault b.bin\n", 6),
    (2, "message 0 6869\nrest 4\n", "", 5),
];

fn is_told<R: Abort>(
    rt: &R,
    alloc: Global,
    shelf: &Vec<Box<dyn Framer>>,
    row: Row,
) -> Result<(), Fail>
    requires { length shelf.now.items ≤ 64 }
{
    let (fails, printed, line, code) = row;
    let mut out = MemorySink::new(alloc, 200, None)?;
    let mut err = MemorySink::new(alloc, 200, None)?;
    let status = without_a_call(rt, alloc, fails, &mut out, &mut err, shelf)?;
    assert_eq!(rt;
        str::from_utf8(out.bytes()),
        Ok(printed),
        "read {fails} fails"
    );
    assert_eq!(rt; str::from_utf8(err.bytes()), Ok(line), "read {fails} fails");
    assert_eq!(rt; status.code(), code, "read {fails} fails");
    Ok(())
}

// The status, where no call is made on the sockets.
fn without_a_call<R: Abort>(
    rt: &R,
    alloc: Global,
    fails: u64,
    out: &mut MemorySink,
    err: &mut MemorySink,
    shelf: &Vec<Box<dyn Framer>>,
) -> Result<Status, Fail>
    requires { length shelf.now.items ≤ 64 }
{
    let mut net = ScriptSockets::read(alloc, b"")?;
    let status = status_of(alloc, fails, out, err, &mut net, shelf)?;
    assert!(rt; net.items().is_empty());
    Ok(status)
}

// The status of `unframe` where one read fails.
fn status_of<N: Sockets>(
    alloc: Global,
    fails: u64,
    out: &mut MemorySink,
    err: &mut MemorySink,
    net: &mut N,
    shelf: &Vec<Box<dyn Framer>>,
) -> Result<Status, NoMemory>
    requires shelf { length shelf.now.items ≤ 64 }
    requires fresh { (N.net net.old).trace ≡ [] }
{
    let words = owned(alloc, &["unframe", "a.toml", "b.bin"])?;
    let mut files = files_of(alloc, fails)?;
    Ok(run(alloc, &words, &mut files, out, err, net, shelf))
}

fn files_of(alloc: Global, fails: u64) -> Result<MemoryFiles, NoMemory> {
    let mut files = MemoryFiles::new(alloc, &[fails])?;
    files.add("a.toml", FILE)?;
    files.add("b.bin", BYTES)?;
    Ok(files)
}

#[test]
fn reads_that_fail(rt: HostRuntime) -> Result<(), Fail> {
    let shelf = framers(rt.alloc())?;
    for row in &ROWS {
        is_told(&rt, rt.alloc(), &shelf, *row)?;
    }
    Ok(())
}
