// Sessions whose peer sends what is no frame, claims bytes that never come, or breaks off, over scripted sockets.
use crate::frame_rows::file_with;
use crate::row::{Row, holds};
use crate::sim_rows::SIM;
use std::alloc::Global;
use std::process::Abort;
use std::test::Fail;

// The framers, the lines of the peer, and what is printed after `ready 0`.
type Hostile = (&'static str, &'static str, &'static str);

const HOSTILE: [Hostile; 12] = [
    // The length of a frame without its body, and then the end.
    (
        "\"len16\"",
        "peer sends 0 0005\npeer ends 0\n",
        "ended 0\nclose 0\nsent 0 0\npeer-ended\n",
    ),
    // A body inside a frame begins no frame, or has bytes left over, or is cut off.
    (
        "\"len16\", \"netstring\"",
        "peer sends 0 000530313a612c\n",
        "close 0\nsent 0 0\nbad-frame 0 1 1\n",
    ),
    (
        "\"len16\", \"netstring\"",
        "peer sends 0 0005313a612c78\n",
        "close 0\nsent 0 0\nbad-frame 0 1 4\n",
    ),
    (
        "\"len16\", \"netstring\"",
        "peer sends 0 0003323a61\n",
        "close 0\nsent 0 0\nbad-frame 0 1 3\n",
    ),
    (
        "",
        "peer fails 3 reset\n",
        "failed 0 reset\nclose 0\nsent 0 0\ndata-failed reset\n",
    ),
    // The greatest length that a framer reads, without its body.
    (
        "\"len32\"",
        "peer sends 0 00100000\npeer ends 0\n",
        "ended 0\nclose 0\nsent 0 0\npeer-ended\n",
    ),
    (
        "\"varint\"",
        "peer sends 0 80100000\npeer ends 0\n",
        "ended 0\nclose 0\nsent 0 0\npeer-ended\n",
    ),
    (
        "\"netstring\"",
        "peer sends 0 36353533353a61\npeer ends 0\n",
        "ended 0\nclose 0\nsent 0 0\npeer-ended\n",
    ),
    // One more.
    (
        "\"len32\"",
        "peer sends 0 00100001\n",
        "close 0\nsent 0 0\nbad-frame 0 0 3\n",
    ),
    (
        "\"varint\"",
        "peer sends 0 80100001\n",
        "close 0\nsent 0 0\nbad-frame 0 0 3\n",
    ),
    (
        "\"netstring\"",
        "peer sends 0 36353533363a61\n",
        "close 0\nsent 0 0\nbad-frame 0 0 4\n",
    ),
    // The peer breaks off in the middle of a frame.
    (
        "\"len16\"",
        "peer sends 0 000561\npeer fails 3 reset\n",
        "failed 0 reset\nclose 0\nsent 0 0\ndata-failed reset\n",
    ),
];

static PIECES: [u64; 2] = [1, 65536];

const READY: &str =
    "leaves 1\n0 any tcp 127.0.0.1:9000 +0\nbegin 0\nstart 0 socket 0 at 0\nwait 30000 completed 0 at 0\nready 0\n";

// The session by which one message is to be heard, so many bytes at once.
fn is_refused<R: Abort>(rt: &R, alloc: Global, row: &Hostile, piece: u64) -> Result<(), Fail> {
    let (framers, peer, end) = *row;
    let exchange = format!(in alloc; "[exchange]\nexpect = 1\npiece = {piece}\n")?;
    let file = file_with(alloc, framers, &exchange)?;
    runs(rt, alloc, &file, peer, end)
}

// The session of a file, by the lines of its peer, ends so.
fn runs<R: Abort>(rt: &R, alloc: Global, file: &str, peer: &str, end: &str) -> Result<(), Fail> {
    let script = format!(in alloc; "leaf 0 completes 0\n{peer}")?;
    let out = format!(in alloc; "{READY}{end}")?;
    holds(rt, alloc, &failing(file, &script, &out))
}

// The row of a session that is ready, and then fails.
fn failing<'a>(file: &'a str, script: &'a str, out: &'a str) -> Row<'a> {
    Row {
        bytes: file.as_bytes(),
        script: script.as_bytes(),
        out,
        code: 5,
        ..SIM
    }
}

#[test]
fn hostile_peers_are_refused(rt: HostRuntime) -> Result<(), Fail> {
    for row in &HOSTILE {
        for piece in &PIECES {
            is_refused(&rt, rt.alloc(), row, *piece)?;
        }
    }
    Ok(())
}
