use crate::row::{Row, holds};
use std::test::Fail;

const FILE: &[u8] = b"[[remote]]\naddress = \"127.0.0.1:9000\"\n";

const PLAN: &str = "leaves 1\n0 any tcp 127.0.0.1:9000 +0\n";

pub const PLAIN: Row<'static> = Row {
    words: &["plan", "a.toml"],
    held: "a.toml",
    bytes: FILE,
    script_held: "s.txt",
    script: b"",
    net: b"",
    faults: &[],
    capacity: 2000,
    err_fails: None,
    out: "",
    err: "",
    code: 0,
};

const USAGE: Row<'static> = Row {
    err: "taps: usage\n",
    code: 2,
    ..PLAIN
};

const REFUSED: Row<'static> = Row {
    err: "taps: refused a.toml: no remote\n",
    code: 3,
    ..PLAIN
};

const FAULT: Row<'static> = Row {
    err: "taps: file fault a.toml\n",
    code: 6,
    ..PLAIN
};

const OUTPUT_FAULT: Row<'static> = Row {
    capacity: 5,
    out: "leave",
    err: "taps: output fault\n",
    code: 7,
    ..PLAIN
};

static ROWS: [Row<'static>; 17] = [
    Row { out: PLAN, ..PLAIN },
    OUTPUT_FAULT,
    Row {
        err_fails: Some(0),
        err: "",
        ..OUTPUT_FAULT
    },
    Row {
        words: &[],
        ..USAGE
    },
    Row {
        words: &["plan"],
        ..USAGE
    },
    Row {
        words: &["plot", "a.toml"],
        ..USAGE
    },
    Row {
        words: &["plan", "a.toml", "b"],
        ..USAGE
    },
    Row {
        words: &[],
        err_fails: Some(0),
        err: "",
        ..USAGE
    },
    Row {
        bytes: b"=",
        err: "taps: refused a.toml: not toml\n",
        ..REFUSED
    },
    Row {
        bytes: b"\xff",
        err: "taps: refused a.toml: not toml\n",
        ..REFUSED
    },
    Row {
        bytes: b"",
        ..REFUSED
    },
    Row {
        bytes: b"",
        err_fails: Some(0),
        err: "",
        ..REFUSED
    },
    Row {
        words: &["plan", "b.toml"],
        err: "taps: file fault b.toml\n",
        ..FAULT
    },
    Row {
        words: &["plan", "a b\n"],
        err: "taps: file fault a?b?\n",
        ..FAULT
    },
    Row {
        words: &["plan", ""],
        err: "taps: file fault \n",
        ..FAULT
    },
    Row {
        faults: &[0],
        ..FAULT
    },
    Row {
        faults: &[0],
        err_fails: Some(0),
        err: "",
        ..FAULT
    },
];

#[test]
fn plan_rows_hold(rt: HostRuntime) -> Result<(), Fail> {
    let alloc = rt.alloc();
    for row in &ROWS {
        holds(&rt, alloc, row)?;
    }
    let long = vec![in alloc; b' '; 1_048_577]?;
    let too_long = Row {
        bytes: &long,
        err: "taps: refused a.toml: too long\n",
        ..REFUSED
    };
    holds(&rt, alloc, &too_long)
}
