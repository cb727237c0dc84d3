use crate::row::{Row, holds};
use crate::sim_rows::{SILENT, SIM};
use std::alloc::Global;
use std::process::Abort;
use std::test::Fail;

// What is not read, or not taken, of two files. The second is read where the first is in order.
static READS: [Row<'static>; 19] = [
    Row {
        words: &["sim", "a.toml", "b.txt"],
        err: "taps: file fault b.txt\n",
        code: 6,
        ..SIM
    },
    Row {
        words: &["sim", "a.toml", "s t\n"],
        err: "taps: file fault s?t?\n",
        code: 6,
        ..SIM
    },
    Row {
        faults: &[1],
        err: "taps: file fault s.txt\n",
        code: 6,
        ..SIM
    },
    Row {
        faults: &[1],
        err_fails: Some(0),
        code: 6,
        ..SIM
    },
    Row {
        faults: &[0, 1],
        err: "taps: file fault a.toml\n",
        code: 6,
        ..SIM
    },
    Row {
        words: &["sim", "b.toml", "b.txt"],
        err: "taps: file fault b.toml\n",
        code: 6,
        ..SIM
    },
    Row {
        words: &["run", "b.toml"],
        err: "taps: file fault b.toml\n",
        code: 6,
        ..SIM
    },
    Row {
        bytes: b"=",
        faults: &[1],
        err: "taps: refused a.toml: not toml\n",
        code: 3,
        ..SIM
    },
    Row {
        words: &["sim", "a.toml", "b.txt"],
        bytes: b"",
        err: "taps: refused a.toml: no remote\n",
        code: 3,
        ..SIM
    },
    Row {
        bytes: b"framers = [\"nope\"]\n[[remote]]\naddress = \"127.0.0.1:9000\"\n",
        faults: &[1],
        err: "taps: refused a.toml: unknown framer framers[0]\n",
        code: 3,
        ..SIM
    },
    Row {
        words: &["run", "a.toml"],
        bytes: b"framers = [\"nope\"]\n[[remote]]\naddress = \"127.0.0.1:9000\"\n",
        err: "taps: refused a.toml: unknown framer framers[0]\n",
        code: 3,
        ..SIM
    },
    Row {
        words: &["sim", "a.toml", "a.toml"],
        err: "taps: refused a.toml: script line 1\n",
        code: 3,
        ..SIM
    },
    Row {
        script: b"late\n",
        err_fails: Some(0),
        code: 3,
        ..SIM
    },
    Row {
        words: &["sim"],
        err: "taps: usage\n",
        code: 2,
        ..SIM
    },
    Row {
        words: &["sim", "a.toml"],
        err: "taps: usage\n",
        code: 2,
        ..SIM
    },
    Row {
        words: &["sim", "a.toml", "s.txt", "s.txt"],
        err: "taps: usage\n",
        code: 2,
        ..SIM
    },
    Row {
        words: &["Sim", "a.toml", "s.txt"],
        err: "taps: usage\n",
        code: 2,
        ..SIM
    },
    Row {
        words: &["run"],
        err: "taps: usage\n",
        code: 2,
        ..SIM
    },
    Row {
        words: &["run", "a.toml", "s.txt"],
        err: "taps: usage\n",
        code: 2,
        ..SIM
    },
];

// Scripts, and what is said of their first bad line.
static BAD: [(&[u8], &str); 44] = [
    (
        b"leaf 0 refuses refused\nleaf 1 refuses unreachable\nleaf 1 silent\n",
        "taps: refused s.txt: script line 3\n",
    ),
    (
        b"peer echo\npeer echo\n",
        "taps: refused s.txt: script line 2\n",
    ),
    (b"take 1\ntake 1\n", "taps: refused s.txt: script line 2\n"),
    (b"begin\n", "taps: refused s.txt: script line 1\n"),
    (b"begin 1 2\n", "taps: refused s.txt: script line 1\n"),
    (b"begin -1\n", "taps: refused s.txt: script line 1\n"),
    (b"late +1\n", "taps: refused s.txt: script line 1\n"),
    (b"late 1 \n", "taps: refused s.txt: script line 1\n"),
    (b"late  1\n", "taps: refused s.txt: script line 1\n"),
    (b" late 1\n", "taps: refused s.txt: script line 1\n"),
    (b"late\t1\n", "taps: refused s.txt: script line 1\n"),
    (b"late 1\r\n", "taps: refused s.txt: script line 1\n"),
    (b"Late 1\n", "taps: refused s.txt: script line 1\n"),
    (b"fault one\n", "taps: refused s.txt: script line 1\n"),
    (b"leaf 0\n", "taps: refused s.txt: script line 1\n"),
    (
        b"leaf 0 completes\n",
        "taps: refused s.txt: script line 1\n",
    ),
    (
        b"leaf 0 completes 1 2\n",
        "taps: refused s.txt: script line 1\n",
    ),
    (b"leaf 0 breaks 1\n", "taps: refused s.txt: script line 1\n"),
    (
        b"leaf 0 breaks 1 tired\n",
        "taps: refused s.txt: script line 1\n",
    ),
    (b"leaf 0 refuses\n", "taps: refused s.txt: script line 1\n"),
    (
        b"leaf 0 refuses tired\n",
        "taps: refused s.txt: script line 1\n",
    ),
    (b"leaf 0 silent 1\n", "taps: refused s.txt: script line 1\n"),
    (b"leaf 0 waits\n", "taps: refused s.txt: script line 1\n"),
    (b" # a race\n", "taps: refused s.txt: script line 1\n"),
    (b" \n", "taps: refused s.txt: script line 1\n"),
    (b"begin 00\n", "taps: refused s.txt: script line 1\n"),
    (b"late 01\n", "taps: refused s.txt: script line 1\n"),
    (b"fault 00\n", "taps: refused s.txt: script line 1\n"),
    (b"leaf 01 silent\n", "taps: refused s.txt: script line 1\n"),
    (
        b"leaf 0 completes 01\n",
        "taps: refused s.txt: script line 1\n",
    ),
    (
        b"leaf 0 breaks 01 reset\n",
        "taps: refused s.txt: script line 1\n",
    ),
    (
        b"begin 9223372036854775808\n",
        "taps: refused s.txt: script line 1\n",
    ),
    (
        b"begin 18446744073709551616\n",
        "taps: refused s.txt: script line 1\n",
    ),
    (b"late 4294967296\n", "taps: refused s.txt: script line 1\n"),
    (
        b"fault 4294967296\n",
        "taps: refused s.txt: script line 1\n",
    ),
    (
        b"leaf 4096 silent\n",
        "taps: refused s.txt: script line 1\n",
    ),
    (
        b"leaf 0 completes 4294967296\n",
        "taps: refused s.txt: script line 1\n",
    ),
    (
        b"leaf 0 breaks 4294967296 reset\n",
        "taps: refused s.txt: script line 1\n",
    ),
    (
        b"begin 0\nbegin 0\n",
        "taps: refused s.txt: script line 2\n",
    ),
    (
        b"late 0\n\nlate 0\n",
        "taps: refused s.txt: script line 3\n",
    ),
    (
        b"fault 0\nfault 1\nfault 0\n",
        "taps: refused s.txt: script line 3\n",
    ),
    (
        b"leaf 0 silent\nleaf 1 silent\n# again\nleaf 0 completes 1\n",
        "taps: refused s.txt: script line 4\n",
    ),
    (
        b"late 1\nlate\nlate 2\n",
        "taps: refused s.txt: script line 2\n",
    ),
    (b"late 1\nlate 2", "taps: refused s.txt: script line 2\n"),
];

// Scripts by which nothing answers.
static EMPTY: [&[u8]; 5] = [b"", b"\n", b"#", b"peer echo\n", b"take 1\n"];

#[test]
fn two_files_are_read(rt: HostRuntime) -> Result<(), Fail> {
    let alloc = rt.alloc();
    for row in &READS {
        holds(&rt, alloc, row)?;
    }
    Ok(())
}

// The row of a script that is refused.
fn refused<'a>(script: &'a [u8], err: &'a str) -> Row<'a> {
    Row {
        script,
        err,
        code: 3,
        ..SIM
    }
}

// The row of a script by which nothing answers.
fn silent(script: &[u8]) -> Row<'_> {
    Row {
        script,
        out: SILENT,
        code: 4,
        ..SIM
    }
}

#[test]
fn scripts_are_refused(rt: HostRuntime) -> Result<(), Fail> {
    let alloc = rt.alloc();
    for (script, err) in &BAD {
        holds(&rt, alloc, &refused(script, err))?;
    }
    for script in &EMPTY {
        holds(&rt, alloc, &silent(script))?;
    }
    Ok(())
}

// A byte, how many of them are a script, and why it is refused, if it is.
static LONG: [(u8, usize, Option<&str>); 4] = [
    (b'\n', 4096, None),
    (b'\n', 4097, Some("taps: refused s.txt: script line 4097\n")),
    (b'#', 1_048_576, None),
    (b'#', 1_048_577, Some("taps: refused s.txt: too long\n")),
];

// A script is refused so, or read.
fn is_answered<R: Abort>(
    rt: &R,
    alloc: Global,
    script: &[u8],
    err: Option<&str>,
) -> Result<(), Fail> {
    match err {
        Some(err) => holds(rt, alloc, &refused(script, err)),
        None => holds(rt, alloc, &silent(script)),
    }
}

#[test]
fn long_scripts_are_refused(rt: HostRuntime) -> Result<(), Fail> {
    for (byte, count, err) in &LONG {
        let script = vec![in rt.alloc(); *byte; *count]?;
        is_answered(&rt, rt.alloc(), &script, *err)?;
    }
    Ok(())
}
