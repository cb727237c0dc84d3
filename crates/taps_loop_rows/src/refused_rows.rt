// Sessions of both ends over sockets on which nothing listens.
use crate::row::nine;
use std::alloc::{AllocError, Global};
use std::process::Abort;
use std::test::Fail;
use taps_app::run;
use taps_base::{MemoryFiles, MemorySink};
use taps_script::ScriptSockets;
use taps_socket::Item;

const FILE: &[u8] =
    b"framers = [\"len16\"]\n[[local]]\naddress = \"127.0.0.1:9000\"\n[[remote]]\naddress = \"127.0.0.1:9000\"\n[[message]]\ntext = \"a\"\n[exchange]\nrole = \"loop\"\n";

// The listen is refused, and so it is told as a session of which every attempt failed. No race begins.
const OUT: &str =
    "leaves 1\n0 any tcp 127.0.0.1:9000 +0\nlisten refused other at 0\nestablishment-error all-failed\n";

// The words of `run`, and the file.
fn called(alloc: Global) -> Result<([String; 2], MemoryFiles), Fail> {
    let mut files = MemoryFiles::new(alloc, &[])?;
    files.add("loop.toml", FILE)?;
    let words = words_of(alloc)?;
    Ok((words, files))
}

fn words_of(alloc: Global) -> Result<[String; 2], AllocError> {
    let run = String::from_str(alloc, "run")?;
    let file = String::from_str(alloc, "loop.toml")?;
    Ok([run, file])
}

fn is_refused<R: Abort>(rt: &R, alloc: Global) -> Result<(), Fail> {
    let shelf = nine(alloc)?;
    let (words, mut files) = called(alloc)?;
    let mut out = MemorySink::new(alloc, 400, None)?;
    let mut err = MemorySink::new(alloc, 200, None)?;
    let mut net = ScriptSockets::read(alloc, b"")?;
    let status = run(
        alloc, &words, &mut files, &mut out, &mut err, &mut net, &shelf,
    );
    assert_eq!(rt; str::from_utf8(out.bytes()), Ok(OUT));
    assert_eq!(rt; status.code(), 4);
    assert!(rt; err.bytes().is_empty());
    assert!(rt; matches!(net.items(), [Item::NotListening { .. }]));
    Ok(())
}

#[test]
fn a_listen_that_is_refused(rt: HostRuntime) -> Result<(), Fail> {
    is_refused(&rt, rt.alloc())
}
