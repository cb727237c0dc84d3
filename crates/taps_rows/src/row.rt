ghost use Rattle.std.specs.Prelude.{◌≡◌, ◌≤◌, [], length, IfOk};

use std::alloc::{AllocError, Global};
use std::process::Abort;
use std::test::Fail;
use taps_app::{Status, run};
use taps_base::{MemoryFiles, MemorySink, NoMemory};
use taps_framer::Framer;
use taps_frames::{Counted, Len16, Len32, Line, Netstring, Seq, Stuffed, Tag, Varint};
use taps_script::ScriptSockets;
use taps_socket::{Item, Sockets};

/// What a row changes of the plain call of `plan a.toml`, and what it is to give.
#[derive(Clone, Copy)]
pub struct Row<'a> {
    pub words: &'a [&'a str],
    pub held: &'a str,
    pub bytes: &'a [u8],
    pub script_held: &'a str,
    pub script: &'a [u8],
    /// The script by which the sockets answer that are handed in.
    pub net: &'a [u8],
    pub faults: &'a [u64],
    pub capacity: u64,
    pub err_fails: Option<u64>,
    pub out: &'a str,
    pub err: &'a str,
    pub code: u8,
}

/// The shelf of the program.
pub fn nine(alloc: Global) -> Result<Vec<Box<dyn Framer>>, AllocError>
    ensures { IfOk result (λ shelf. length shelf.items ≡ 9) }
{
    let mut shelf: Vec<Box<dyn Framer>> = Vec::new(alloc);
    shelf.push(Box::new(alloc, Len16)?)?;
    shelf.push(Box::new(alloc, Len32)?)?;
    shelf.push(Box::new(alloc, Varint)?)?;
    shelf.push(Box::new(alloc, Netstring)?)?;
    shelf.push(Box::new(alloc, Counted)?)?;
    shelf.push(Box::new(alloc, Line)?)?;
    shelf.push(Box::new(alloc, Stuffed)?)?;
    shelf.push(Box::new(alloc, Tag { kind: 77 })?)?;
    shelf.push(Box::new(alloc, Seq)?)?;
    Ok(shelf)
}

/// Runs a row with the shelf of the program.
pub fn holds<R: Abort>(rt: &R, alloc: Global, row: &Row<'_>) -> Result<(), Fail> {
    let shelf = nine(alloc)?;
    holds_on(rt, alloc, row, &shelf)
}

/// Runs a row and looks at its output, its error output, its status and the sockets.
pub fn holds_on<R: Abort>(
    rt: &R,
    alloc: Global,
    row: &Row<'_>,
    shelf: &Vec<Box<dyn Framer>>,
) -> Result<(), Fail>
    requires { length shelf.now.items ≤ 64 }
{
    let mut net = ScriptSockets::read(alloc, row.net)?;
    prints(rt, alloc, row, shelf, &mut net)?;
    assert_eq!(rt; net.items().is_empty(), !is_raced(row));
    assert!(rt; each_is_closed_once(net.items()));
    Ok(())
}

/// Runs a row over these sockets and looks at its output, its error output and its status.
pub fn prints<R: Abort, N: Sockets>(
    rt: &R,
    alloc: Global,
    row: &Row<'_>,
    shelf: &Vec<Box<dyn Framer>>,
    net: &mut N,
) -> Result<(), Fail>
    requires shelf { length shelf.now.items ≤ 64 }
    requires fresh { (N.net net.old).trace ≡ [] }
{
    let mut out = MemorySink::new(alloc, row.capacity, None)?;
    let mut err = MemorySink::new(alloc, 200, row.err_fails)?;
    let status = status_of(alloc, row, &mut out, &mut err, net, shelf)?;
    assert_eq!(rt; status.code(), row.code);
    let script = str::from_utf8(row.script);
    assert_eq!(rt; str::from_utf8(out.bytes()), Ok(row.out), "by {script:?}");
    assert_eq!(rt; str::from_utf8(err.bytes()), Ok(row.err), "by {script:?}");
    Ok(())
}

/// The status of a row's call with these outputs and sockets.
pub fn status_of<N: Sockets>(
    alloc: Global,
    row: &Row<'_>,
    out: &mut MemorySink,
    err: &mut MemorySink,
    net: &mut N,
    shelf: &Vec<Box<dyn Framer>>,
) -> Result<Status, NoMemory>
    requires shelf { length shelf.now.items ≤ 64 }
    requires fresh { (N.net net.old).trace ≡ [] }
{
    let words = owned(alloc, row.words)?;
    let mut files = files_of(alloc, row)?;
    Ok(run(alloc, &words, &mut files, out, err, net, shelf))
}

fn files_of(alloc: Global, row: &Row<'_>) -> Result<MemoryFiles, NoMemory> {
    let mut files = MemoryFiles::new(alloc, row.faults)?;
    files.add(row.held, row.bytes)?;
    files.add(row.script_held, row.script)?;
    Ok(files)
}

/// The words as a command line has them.
pub fn owned(alloc: Global, words: &[&str]) -> Result<Vec<String>, AllocError> {
    let mut list = Vec::new(alloc);
    for word in words {
        list.push(String::from_str(alloc, word)?)?;
    }
    Ok(list)
}

// Whether the row comes to a race on the sockets that are handed in.
fn is_raced(row: &Row<'_>) -> bool {
    match row.words {
        [command, _] => *command == "run" && row.code != 3 && row.code != 6,
        _ => false,
    }
}

/// Each socket that was started is closed exactly once, and no other is closed.
pub fn each_is_closed_once(items: &[Item]) -> bool {
    items.iter().all(|item| match item {
        Item::Started { socket, .. } | Item::Closed { socket } => {
            starts_of(*socket, items) == 1 && closes_of(*socket, items) == 1
        }
        _ => true,
    })
}

fn starts_of(number: u32, items: &[Item]) -> usize {
    items
        .iter()
        .filter(|item| matches!(item, Item::Started { socket, .. } if *socket == number))
        .count()
}

fn closes_of(number: u32, items: &[Item]) -> usize {
    items
        .iter()
        .filter(|item| matches!(item, Item::Closed { socket } if *socket == number))
        .count()
}
