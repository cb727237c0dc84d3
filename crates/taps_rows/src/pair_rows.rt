// Rows of a shelf with one framer more than the program has.
use crate::frame_rows::{FRAME, UNFRAME};
use crate::row::{Row, holds_on, nine};
use std::test::Fail;
use taps_frame_rows::Pair;

static FRAMED: [Row<'static>; 2] = [
    Row {
        bytes: b"framers = [\"len16\", \"pair\"]
[[remote]]
address = \"127.0.0.1:9000\"
[[message]]
hex = \"07\"
",
        out: "000207f8\n",
        ..FRAME
    },
    Row {
        bytes: b"framers = [\"len16\", \"pair\"]
[[remote]]
address = \"127.0.0.1:9000\"
[[message]]
text = \"hi\"
",
        out: "not-speakable 0 0 1\n",
        code: 5,
        ..FRAME
    },
];

// Files with each size of pieces.
static PIECES: [&[u8]; 4] = [
    b"framers = [\"len16\", \"pair\"]
[[remote]]
address = \"127.0.0.1:9000\"
[exchange]
piece = 1
",
    b"framers = [\"len16\", \"pair\"]
[[remote]]
address = \"127.0.0.1:9000\"
[exchange]
piece = 7
",
    b"framers = [\"len16\", \"pair\"]
[[remote]]
address = \"127.0.0.1:9000\"
[exchange]
piece = 4096
",
    b"framers = [\"len16\", \"pair\"]
[[remote]]
address = \"127.0.0.1:9000\"
[exchange]
piece = 65536
",
];

static HEARD: [Row<'static>; 2] = [
    Row {
        script: b"\0\x02\x07\x07",
        out: "bad-frame 0 1 1\n",
        code: 5,
        ..UNFRAME
    },
    Row {
        script: b"\0\x02\x07\xf8",
        out: "message 0 07\nrest 0\n",
        ..UNFRAME
    },
];

#[test]
fn a_pair_is_framed(rt: HostRuntime) -> Result<(), Fail> {
    let mut shelf = nine(rt.alloc())?;
    shelf.push(Box::new(rt.alloc(), Pair)?)?;
    for row in &FRAMED {
        holds_on(&rt, rt.alloc(), row, &shelf)?;
    }
    Ok(())
}

#[test]
fn a_pair_is_heard(rt: HostRuntime) -> Result<(), Fail> {
    let mut shelf = nine(rt.alloc())?;
    shelf.push(Box::new(rt.alloc(), Pair)?)?;
    for bytes in &PIECES {
        for row in &HEARD {
            holds_on(&rt, rt.alloc(), &Row { bytes, ..*row }, &shelf)?;
        }
    }
    Ok(())
}
