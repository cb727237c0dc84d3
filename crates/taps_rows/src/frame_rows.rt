// Rows of the forms that put messages through framers and take them out again.
use crate::plan_rows::PLAIN;
use crate::row::{Row, holds, holds_on};
use std::alloc::{AllocError, Global};
use std::process::Abort;
use std::test::Fail;
use taps_framer::Framer;
use taps_frames::Tag;

/// A row that frames messages.
pub const FRAME: Row<'static> = Row {
    words: &["frame", "a.toml"],
    ..PLAIN
};

/// A row that takes messages out of bytes.
pub const UNFRAME: Row<'static> = Row {
    words: &["unframe", "a.toml", "b.bin"],
    script_held: "b.bin",
    ..PLAIN
};

// Each size of pieces.
static EXCHANGES: [&str; 4] = [
    "[exchange]\npiece = 1\n",
    "[exchange]\npiece = 7\n",
    "[exchange]\npiece = 4096\n",
    "[exchange]\npiece = 65536\n",
];

/// The framers of a file, bytes, and what is heard in them.
#[derive(Clone, Copy)]
struct Heard {
    framers: &'static str,
    bytes: &'static [u8],
    out: &'static str,
    code: u8,
}

static HEARD: [Heard; 12] = [
    Heard {
        framers: "\"len16\", \"netstring\"",
        bytes: b"\x00\x052:hi,\x00\x052:",
        out: "message 0 6869\nrest 4\n",
        code: 5,
    },
    Heard {
        framers: "\"len16\", \"netstring\"",
        bytes: b"\x00\x052:hi,\x00\x030:,",
        out: "message 0 6869\nmessage 1 -\nrest 0\n",
        code: 0,
    },
    Heard {
        framers: "\"len16\", \"netstring\"",
        bytes: b"\x00\x052:hi,\x00\x042:h,",
        out: "message 0 6869\nbad-frame 1 1 4\n",
        code: 5,
    },
    Heard {
        framers: "\"varint\"",
        bytes: b"\x02hi",
        out: "message 0 6869\nrest 0\n",
        code: 0,
    },
    Heard {
        framers: "",
        bytes: b"hi",
        out: "message 0 6869\nrest 0\n",
        code: 0,
    },
    Heard {
        framers: "",
        bytes: b"",
        out: "message 0 -\nrest 0\n",
        code: 0,
    },
    Heard {
        framers: "\"len16\"",
        bytes: b"",
        out: "rest 0\n",
        code: 0,
    },
    Heard {
        framers: "\"stuffed\"",
        bytes: b"\xc0",
        out: "message 0 -\nrest 0\n",
        code: 0,
    },
    Heard {
        framers: "\"stuffed\"",
        bytes: b"\xdb\xdc\xdb\xddx\xc0x",
        out: "message 0 c0db78\nrest 1\n",
        code: 5,
    },
    Heard {
        framers: "\"counted\"",
        bytes: b"2 hi11 hello w",
        out: "message 0 6869\nrest 10\n",
        code: 5,
    },
    Heard {
        framers: "\"line\"",
        bytes: b"a\n\nb\nc",
        out: "message 0 61\nmessage 1 -\nmessage 2 62\nrest 1\n",
        code: 5,
    },
    Heard {
        framers: "\"seq\", \"tag\"",
        bytes: b"\0\0\0\0\0\0\0\0\0\0\0\x04M\0\x01a\0\0\0\0\0\0\0\x01\0\0\0\x03M\0\0",
        out: "message 0 61\nmessage 1 -\nrest 0\n",
        code: 0,
    },
];

static BAD: [Heard; 15] = [
    Heard {
        framers: "\"netstring\"",
        bytes: b"01:a,",
        out: "bad-frame 0 0 1\n",
        code: 5,
    },
    Heard {
        framers: "\"netstring\"",
        bytes: b"65536:",
        out: "bad-frame 0 0 4\n",
        code: 5,
    },
    Heard {
        framers: "\"stuffed\"",
        bytes: b"\xdb\x01",
        out: "bad-frame 0 0 1\n",
        code: 5,
    },
    Heard {
        framers: "\"varint\"",
        bytes: b"\x40\x3f",
        out: "bad-frame 0 0 1\n",
        code: 5,
    },
    Heard {
        framers: "\"varint\"",
        bytes: b"\x80\x00",
        out: "rest 2\n",
        code: 5,
    },
    Heard {
        framers: "\"varint\"",
        bytes: b"\x80\x00\x3f",
        out: "bad-frame 0 0 2\n",
        code: 5,
    },
    Heard {
        framers: "\"varint\"",
        bytes: b"\xc0",
        out: "bad-frame 0 0 0\n",
        code: 5,
    },
    Heard {
        framers: "\"len32\"",
        bytes: b"\x00\x10\x00\x01",
        out: "bad-frame 0 0 3\n",
        code: 5,
    },
    Heard {
        framers: "\"len32\"",
        bytes: b"\x00\x10\x00\x00",
        out: "rest 4\n",
        code: 5,
    },
    Heard {
        framers: "\"counted\"",
        bytes: b"0",
        out: "bad-frame 0 0 0\n",
        code: 5,
    },
    Heard {
        framers: "\"tag\"",
        bytes: b"\x4e",
        out: "bad-frame 0 0 0\n",
        code: 5,
    },
    Heard {
        framers: "\"seq\"",
        bytes: b"\0\0\0\0\0\0\0\0\0\0\0\0\0\0\0\0\0\0\0\0",
        out: "message 0 -\nbad-frame 1 0 7\n",
        code: 5,
    },
    Heard {
        framers: "\"len16\", \"varint\"",
        bytes: b"\0\x03\x02hi\0\x02\x40\x3f",
        out: "message 0 6869\nbad-frame 1 1 1\n",
        code: 5,
    },
    Heard {
        framers: "\"len16\", \"netstring\"",
        bytes: b"\x00\x062:hi,x",
        out: "bad-frame 0 1 5\n",
        code: 5,
    },
    Heard {
        framers: "\"tag\", \"len16\"",
        bytes: b"M\0\x02\0\0N",
        out: "message 0 -\nbad-frame 1 0 0\n",
        code: 5,
    },
];

/// The framers of a file, its messages as tables, and what is printed of them.
#[derive(Clone, Copy)]
struct Framed {
    framers: &'static str,
    messages: &'static str,
    out: &'static str,
    code: u8,
}

static FRAMED: [Framed; 14] = [
    Framed {
        framers: "\"len16\", \"netstring\"",
        messages: "[[message]]\ntext = \"hi\"\n",
        out: "0005323a68692c\n",
        code: 0,
    },
    Framed {
        framers: "\"len16\"",
        messages: "[[message]]\ntext = \"hi\"\n",
        out: "00026869\n",
        code: 0,
    },
    Framed {
        framers: "\"varint\"",
        messages: "[[message]]\ntext = \"aaaaaaaaaaaaaaaaaaaaaaaaaaaaaaaaaaaaaaaaaaaaaaaaaaaaaaaaaaaaaaaa\"\n",
        out: "404061616161616161616161616161616161616161616161616161616161616161616161616161616161616161616161616161616161616161616161616161616161\n",
        code: 0,
    },
    Framed {
        framers: "",
        messages: "",
        out: "",
        code: 0,
    },
    Framed {
        framers: "\"seq\", \"line\"",
        messages: "",
        out: "",
        code: 0,
    },
    Framed {
        framers: "",
        messages: "[[message]]\ntext = \"\"\n[[message]]\nhex = \"C0db\"\n",
        out: "-\nc0db\n",
        code: 0,
    },
    Framed {
        framers: "\"len32\"",
        messages: "[[message]]\ntext = \"\"\n",
        out: "00000000\n",
        code: 0,
    },
    Framed {
        framers: "\"stuffed\"",
        messages: "[[message]]\nhex = \"c0db01\"\n[[message]]\ntext = \"\"\n",
        out: "dbdcdbdd01c0\nc0\n",
        code: 0,
    },
    Framed {
        framers: "\"counted\"",
        messages: "[[message]]\ntext = \"hi\"\n",
        out: "32206869\n",
        code: 0,
    },
    Framed {
        framers: "\"seq\"",
        messages: "[[message]]\ntext = \"a\"\n[[message]]\ntext = \"\"\n",
        out: "00000000000000000000000161\n000000000000000100000000\n",
        code: 0,
    },
    Framed {
        framers: "\"tag\"",
        messages: "[[message]]\ntext = \"hi\"\n",
        out: "4d00026869\n",
        code: 0,
    },
    Framed {
        framers: "\"counted\"",
        messages: "[[message]]\ntext = \"\"\n",
        out: "not-speakable 0 0 0\n",
        code: 5,
    },
    Framed {
        framers: "\"len16\", \"line\"",
        messages: "[[message]]\ntext = \"hi\"\n[[message]]\nhex = \"0a\"\n[[message]]\ntext = \"b\"\n",
        out: "000368690a\nnot-speakable 0 1 1\n",
        code: 5,
    },
    Framed {
        framers: "\"line\", \"len16\"",
        messages: "[[message]]\ntext = \"123456789\"\n[[message]]\ntext = \"1234567890\"\n",
        out: "00093132333435363738390a\nnot-speakable 0 1 0\n",
        code: 5,
    },
];

// What is wrong with words, a file or bytes.
static REFUSED: [Row<'static>; 14] = [
    Row {
        words: &["frame"],
        err: "taps: usage\n",
        code: 2,
        ..FRAME
    },
    Row {
        words: &["frame", "a.toml", "b.bin"],
        err: "taps: usage\n",
        code: 2,
        ..FRAME
    },
    Row {
        words: &["unframe", "a.toml"],
        err: "taps: usage\n",
        code: 2,
        ..UNFRAME
    },
    Row {
        words: &["unframe", "a.toml", "b.bin", "c"],
        err: "taps: usage\n",
        code: 2,
        ..UNFRAME
    },
    Row {
        bytes: b"framers = [\"len16\", \"nope\"]\n[[remote]]\naddress = \"127.0.0.1:9000\"\n",
        err: "taps: refused a.toml: unknown framer framers[1]\n",
        code: 3,
        ..FRAME
    },
    Row {
        bytes: b"framers = [\"nope\", \"nap\"]\n[[remote]]\naddress = \"127.0.0.1:9000\"\n",
        faults: &[1],
        err: "taps: refused a.toml: unknown framer framers[0]\n",
        code: 3,
        ..UNFRAME
    },
    Row {
        bytes: b"framers = [\"len16\"]\n",
        err: "taps: refused a.toml: no remote\n",
        code: 3,
        ..FRAME
    },
    Row {
        words: &["frame", "c.toml"],
        err: "taps: file fault c.toml\n",
        code: 6,
        ..FRAME
    },
    Row {
        words: &["unframe", "c.toml", "b.bin"],
        err: "taps: file fault c.toml\n",
        code: 6,
        ..UNFRAME
    },
    Row {
        words: &["unframe", "a.toml", "c.bin"],
        err: "taps: file fault c.bin\n",
        code: 6,
        ..UNFRAME
    },
    Row {
        faults: &[1],
        err: "taps: file fault b.bin\n",
        code: 6,
        ..UNFRAME
    },
    Row {
        faults: &[1],
        ..FRAME
    },
    Row {
        script: b"hi",
        capacity: 5,
        out: "messa",
        err: "taps: output fault\n",
        code: 7,
        ..UNFRAME
    },
    Row {
        capacity: 0,
        ..FRAME
    },
];

/// The file with these framers, given with their quotes, and what else stands in it.
pub fn file_with(alloc: Global, framers: &str, rest: &str) -> Result<String, AllocError> {
    format!(in alloc; "framers = [{framers}]\n[[remote]]\naddress = \"127.0.0.1:9000\"\n{rest}")
}

/// A row by which the messages of a file are framed.
pub fn frame_row<'a>(file: &'a str, out: &'a str, code: u8) -> Row<'a> {
    Row {
        bytes: file.as_bytes(),
        out,
        code,
        ..FRAME
    }
}

/// A row by which bytes are heard.
pub fn unframe_row<'a>(file: &'a str, bytes: &'a [u8], out: &'a str, code: u8) -> Row<'a> {
    Row {
        bytes: file.as_bytes(),
        script: bytes,
        capacity: 1_000_000,
        out,
        code,
        ..UNFRAME
    }
}

// A row by which bytes are refused.
fn long_row(bytes: &[u8]) -> Row<'_> {
    Row {
        script: bytes,
        err: "taps: refused b.bin: too long\n",
        code: 3,
        ..UNFRAME
    }
}

// Hears the bytes in each cutting.
fn is_heard<R: Abort>(rt: &R, alloc: Global, heard: &Heard) -> Result<(), Fail> {
    for exchange in &EXCHANGES {
        let file = file_with(alloc, heard.framers, exchange)?;
        let row = unframe_row(&file, heard.bytes, heard.out, heard.code);
        holds(rt, alloc, &row)?;
    }
    Ok(())
}

#[test]
fn messages_are_heard(rt: HostRuntime) -> Result<(), Fail> {
    let alloc = rt.alloc();
    for heard in &HEARD {
        is_heard(&rt, alloc, heard)?;
    }
    Ok(())
}

#[test]
fn bad_frames_are_heard(rt: HostRuntime) -> Result<(), Fail> {
    let alloc = rt.alloc();
    for heard in &BAD {
        is_heard(&rt, alloc, heard)?;
    }
    Ok(())
}

fn is_framed<R: Abort>(rt: &R, alloc: Global, framed: &Framed) -> Result<(), Fail> {
    let file = file_with(alloc, framed.framers, framed.messages)?;
    holds(rt, alloc, &frame_row(&file, framed.out, framed.code))
}

#[test]
fn messages_are_framed(rt: HostRuntime) -> Result<(), Fail> {
    let alloc = rt.alloc();
    for framed in &FRAMED {
        is_framed(&rt, alloc, framed)?;
    }
    Ok(())
}

#[test]
fn calls_are_refused(rt: HostRuntime) -> Result<(), Fail> {
    let alloc = rt.alloc();
    for row in &REFUSED {
        holds(&rt, alloc, row)?;
    }
    Ok(())
}

// A line of 65,536 bytes and no end.
#[test]
fn long_lines_are_bad(rt: HostRuntime) -> Result<(), Fail> {
    let alloc = rt.alloc();
    let file = file_with(alloc, "\"line\"", "[exchange]\npiece = 4096\n")?;
    let line = vec![in alloc; b'x'; 65_536]?;
    let row = unframe_row(&file, &line, "bad-frame 0 0 65535\n", 5);
    holds(&rt, alloc, &row)
}

// The greatest number of bytes.
#[test]
fn the_most_bytes_are_heard(rt: HostRuntime) -> Result<(), Fail> {
    let alloc = rt.alloc();
    let file = file_with(alloc, "\"netstring\"", "")?;
    let most = vec![in alloc; b'0'; 4_194_304]?;
    let row = unframe_row(&file, &most, "bad-frame 0 0 1\n", 5);
    holds(&rt, alloc, &row)
}

// One more.
#[test]
fn too_many_bytes_are_refused(rt: HostRuntime) -> Result<(), Fail> {
    let more = vec![in rt.alloc(); b'0'; 4_194_305]?;
    holds(&rt, rt.alloc(), &long_row(&more))
}

// Rows of a shelf on which two framers have one name.
static FIRST_TAKEN: [Row<'static>; 2] = [
    Row {
        bytes: b"framers = [\"tag\", \"tag\"]
[[remote]]
address = \"127.0.0.1:9000\"
[[message]]
text = \"hi\"
",
        out: "0100050100026869\n",
        ..FRAME
    },
    Row {
        bytes: b"framers = [\"tag\", \"tag\"]
[[remote]]
address = \"127.0.0.1:9000\"
",
        script: b"\x01\0\x03\x01\0\0\x02",
        out: "message 0 -\nbad-frame 1 0 0\n",
        code: 5,
        ..UNFRAME
    },
];

#[test]
fn the_first_of_a_name_is_taken(rt: HostRuntime) -> Result<(), Fail> {
    let alloc = rt.alloc();
    let mut shelf: Vec<Box<dyn Framer>> = Vec::new(alloc);
    shelf.push(Box::new(alloc, Tag { kind: 1 })?)?;
    shelf.push(Box::new(alloc, Tag { kind: 2 })?)?;
    assert_eq!(rt; shelf.len(), 2);
    for row in &FIRST_TAKEN {
        holds_on(&rt, alloc, row, &shelf)?;
    }
    Ok(())
}

// Rows of a shelf on which nothing is.
static NO_SHELF: [Row<'static>; 2] = [
    Row {
        bytes: b"framers = [\"len16\"]\n[[remote]]\naddress = \"127.0.0.1:9000\"\n",
        err: "taps: refused a.toml: unknown framer framers[0]\n",
        code: 3,
        ..FRAME
    },
    Row {
        script: b"hi",
        out: "message 0 6869\nrest 0\n",
        ..UNFRAME
    },
];

#[test]
fn nothing_is_on_an_empty_shelf(rt: HostRuntime) -> Result<(), Fail> {
    let shelf: Vec<Box<dyn Framer>> = Vec::new(rt.alloc());
    for row in &NO_SHELF {
        holds_on(&rt, rt.alloc(), row, &shelf)?;
    }
    Ok(())
}
