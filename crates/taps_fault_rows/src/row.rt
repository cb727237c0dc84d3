// A session whose calls fail in turn, the first one first, up to a run in which none does.
ghost use Rattle.std.specs.Prelude.{◌≡◌, ◌≤◌, [], length, IfOk};

use std::alloc::{AllocError, Global};
use std::process::Abort;
use std::test::Fail;
use taps_app::{Status, run};
use taps_base::{MemoryFiles, MemorySink, NoMemory};
use taps_failing::Failing;
use taps_framer::Framer;
use taps_frames::{Len16, Netstring, Varint};
use taps_memory::MemoryNet;
use taps_script::ScriptSockets;
use taps_socket::{Cause, How, Item, Sockets};

/// How a session ends: what is printed behind the plan, and the status.
#[derive(Clone, Copy)]
pub struct Ending<'a> {
    pub log: &'a str,
    pub code: u8,
}

/// Sockets that answer by a script, or sockets in memory: so many connections over rings of so many bytes.
#[derive(Clone, Copy)]
pub enum Net<'a> {
    Script(&'a [u8]),
    Memory { pairs: u32, ring: u32 },
}

/// A file and its plan, and how its session over the sockets ends where the call of each place fails. Of the last place
/// there is no call, so that nothing fails.
#[derive(Clone, Copy)]
pub struct Row<'a> {
    pub file: &'a [u8],
    pub plan: &'a str,
    pub net: Net<'a>,
    pub endings: &'a [Ending<'a>],
}

/// The plan over one address.
pub const PLAN: &str = "leaves 1\n0 any tcp 127.0.0.1:9000 +0\n";

/// The framers of the files.
pub fn framers(alloc: Global) -> Result<Vec<Box<dyn Framer>>, AllocError>
    ensures { IfOk result (λ shelf. length shelf.items ≡ 3) }
{
    let mut shelf: Vec<Box<dyn Framer>> = Vec::new(alloc);
    shelf.push(Box::new(alloc, Len16)?)?;
    shelf.push(Box::new(alloc, Varint)?)?;
    shelf.push(Box::new(alloc, Netstring)?)?;
    Ok(shelf)
}

/// Runs a row as often as it has endings.
pub fn fails_in_turn<R: Abort>(rt: &R, alloc: Global, row: &Row<'_>) -> Result<(), Fail> {
    let shelf = framers(alloc)?;
    for place in 0..row.endings.len() {
        fails_at(rt, alloc, row, place, &shelf)?;
    }
    Ok(())
}

// Runs a row over new sockets of which the call of a place fails.
fn fails_at<R: Abort>(
    rt: &R,
    alloc: Global,
    row: &Row<'_>,
    place: usize,
    shelf: &Vec<Box<dyn Framer>>,
) -> Result<(), Fail>
    requires { length shelf.now.items ≤ 64 }
{
    match row.net {
        Net::Script(script) => {
            let net = ScriptSockets::read(alloc, script)?;
            ends_so(rt, alloc, row, place, shelf, net)
        }
        Net::Memory { pairs, ring } => {
            assert!(rt; pairs <= 64 && ring >= 1 && ring <= 65536);
            let net = MemoryNet::new(alloc, pairs, ring, &[])?;
            ends_so(rt, alloc, row, place, shelf, net)
        }
    }
}

// Runs a row over these sockets, of which the call of a place fails, and looks at what is printed, at the status, that
// every socket is closed, and that one failure was told, or none at the last place.
fn ends_so<R: Abort, N: Sockets + Drop>(
    rt: &R,
    alloc: Global,
    row: &Row<'_>,
    place: usize,
    shelf: &Vec<Box<dyn Framer>>,
    net: N,
) -> Result<(), Fail>
    requires shelf { length shelf.now.items ≤ 64 }
    requires fresh { (N.net net).trace ≡ [] }
    requires unreserved { (N.net net).spare ≡ 0 }
{
    assert!(rt; place < row.endings.len());
    let mut net = Failing::new(alloc, net, place as u64);
    prints(rt, alloc, row, place, shelf, &mut net)?;
    let failures = if place + 1 < row.endings.len() { 1 } else { 0 };
    assert!(rt; each_is_closed_once(net.items()), "call {place} fails");
    assert_eq!(rt; failures_in(net.items()), failures, "call {place} fails");
    Ok(())
}

// Runs a row over these sockets, and looks at what is printed and at the status.
fn prints<R: Abort, N: Sockets>(
    rt: &R,
    alloc: Global,
    row: &Row<'_>,
    place: usize,
    shelf: &Vec<Box<dyn Framer>>,
    net: &mut N,
) -> Result<(), Fail>
    requires shelf { length shelf.now.items ≤ 64 }
    requires fresh { (N.net net.old).trace ≡ [] }
{
    assert!(rt; place < row.endings.len());
    let mut out = MemorySink::new(alloc, 2000, None)?;
    let mut err = MemorySink::new(alloc, 200, None)?;
    let status = status_of(alloc, row.file, &mut out, &mut err, net, shelf)?;
    let text = str::from_utf8(out.bytes());
    assert_eq!(rt;
        status.code(),
        row.endings[place].code,
        "call {place} fails: {text:?}"
    );
    assert!(rt; err.bytes().is_empty());
    is_text(rt, alloc, out.bytes(), row.plan, row.endings[place].log)
}

// The bytes are the plan with the log behind it.
fn is_text<R: Abort>(
    rt: &R,
    alloc: Global,
    bytes: &[u8],
    plan: &str,
    log: &str,
) -> Result<(), Fail> {
    let text = format!(in alloc; "{plan}{log}")?;
    assert_eq!(rt; str::from_utf8(bytes), Ok(text.as_str()));
    Ok(())
}

/// The status of `run` with a file.
pub fn status_of<N: Sockets>(
    alloc: Global,
    file: &[u8],
    out: &mut MemorySink,
    err: &mut MemorySink,
    net: &mut N,
    shelf: &Vec<Box<dyn Framer>>,
) -> Result<Status, NoMemory>
    requires shelf { length shelf.now.items ≤ 64 }
    requires fresh { (N.net net.old).trace ≡ [] }
{
    let words = owned(alloc, &["run", "a.toml"])?;
    let mut files = files_with(alloc, file)?;
    Ok(run(alloc, &words, &mut files, out, err, net, shelf))
}

fn files_with(alloc: Global, file: &[u8]) -> Result<MemoryFiles, NoMemory> {
    let mut files = MemoryFiles::new(alloc, &[])?;
    files.add("a.toml", file)?;
    Ok(files)
}

/// The words as a command line has them.
pub fn owned(alloc: Global, words: &[&str]) -> Result<Vec<String>, AllocError> {
    let mut list = Vec::new(alloc);
    for word in words {
        list.push(String::from_str(alloc, word)?)?;
    }
    Ok(list)
}

/// Each socket that was started, listened on or accepted is closed exactly once, and no other is closed.
pub fn each_is_closed_once(items: &[Item]) -> bool {
    items.iter().all(|item| match item {
        Item::Started { socket, .. }
        | Item::Listening { socket, .. }
        | Item::Accepted { socket, .. }
        | Item::Closed { socket } => {
            openings_of(*socket, items) == 1 && closes_of(*socket, items) == 1
        }
        _ => true,
    })
}

fn openings_of(number: u32, items: &[Item]) -> usize {
    items
        .iter()
        .filter(|item| match item {
            Item::Started { socket, .. }
            | Item::Listening { socket, .. }
            | Item::Accepted { socket, .. } => *socket == number,
            _ => false,
        })
        .count()
}

fn closes_of(number: u32, items: &[Item]) -> usize {
    items
        .iter()
        .filter(|item| matches!(item, Item::Closed { socket } if *socket == number))
        .count()
}

// How many calls were refused, faulted or failed, as of an unnamed cause.
fn failures_in(items: &[Item]) -> usize {
    items
        .iter()
        .filter(|item| {
            matches!(
                item,
                Item::Refused {
                    cause: Cause::Other,
                    ..
                } | Item::NotListening {
                    cause: Cause::Other,
                    ..
                } | Item::DataFailed {
                    cause: Cause::Other,
                    ..
                } | Item::Waited {
                    how: How::Faulted,
                    ..
                } | Item::Faulted { .. }
            )
        })
        .count()
}
