// Every race of two leaves over a few fates, in each mode, against a race that is told from the
// rules alone.
use crate::plain_race::{Fate, Times, told};
use crate::row::{Row, holds};
use crate::sim_rows::SIM;
use std::alloc::{AllocError, Global};
use std::process::Abort;
use std::test::Fail;

static FATES: [Fate; 12] = [
    Fate::Silent,
    Fate::Refuses,
    Fate::Completes(0),
    Fate::Completes(40),
    Fate::Completes(250),
    Fate::Completes(251),
    Fate::Completes(290),
    Fate::Breaks(0),
    Fate::Breaks(40),
    Fate::Breaks(250),
    Fate::Breaks(251),
    Fate::Breaks(290),
];

static DELAYS: [u64; 2] = [0, 7];

/// A mode: the gap before the second leaf, the plan, and the file of a race without a moment at which
/// the application gives up, and with it.
struct Mode {
    gap: Option<u64>,
    plan: &'static str,
    file: &'static [u8],
    cancelled: &'static [u8],
}

static SIMULTANEOUS: Mode = Mode {
    gap: Some(0),
    plan: "leaves 2\n0 any tcp 127.0.0.1:9000 +0\n1 any tcp 127.0.0.2:9000 +0\n",
    file: b"[[remote]]
address = \"127.0.0.1:9000\"
[[remote]]
address = \"127.0.0.2:9000\"
[race]
mode = \"simultaneous\"
timeout_ms = 500
",
    cancelled: b"[[remote]]
address = \"127.0.0.1:9000\"
[[remote]]
address = \"127.0.0.2:9000\"
[race]
mode = \"simultaneous\"
timeout_ms = 500
cancel_ms = 250
",
};

static STAGGERED: Mode = Mode {
    gap: Some(250),
    plan: "leaves 2\n0 any tcp 127.0.0.1:9000 +0\n1 any tcp 127.0.0.2:9000 +250\n",
    file: b"[[remote]]
address = \"127.0.0.1:9000\"
[[remote]]
address = \"127.0.0.2:9000\"
[race]
mode = \"staggered\"
timeout_ms = 500
",
    cancelled: b"[[remote]]
address = \"127.0.0.1:9000\"
[[remote]]
address = \"127.0.0.2:9000\"
[race]
mode = \"staggered\"
timeout_ms = 500
cancel_ms = 250
",
};

static FAILOVER: Mode = Mode {
    gap: None,
    plan: "leaves 2\n0 any tcp 127.0.0.1:9000 +0\n1 any tcp 127.0.0.2:9000 +none\n",
    file: b"[[remote]]
address = \"127.0.0.1:9000\"
[[remote]]
address = \"127.0.0.2:9000\"
[race]
mode = \"failover\"
timeout_ms = 500
",
    cancelled: b"[[remote]]
address = \"127.0.0.1:9000\"
[[remote]]
address = \"127.0.0.2:9000\"
[race]
mode = \"failover\"
timeout_ms = 500
cancel_ms = 250
",
};

#[test]
fn simultaneous_races(rt: HostRuntime) -> Result<(), Fail> {
    sweep(&rt, rt.alloc(), &SIMULTANEOUS)
}

#[test]
fn staggered_races(rt: HostRuntime) -> Result<(), Fail> {
    sweep(&rt, rt.alloc(), &STAGGERED)
}

#[test]
fn failover_races(rt: HostRuntime) -> Result<(), Fail> {
    sweep(&rt, rt.alloc(), &FAILOVER)
}

// The mode at all moments.
fn sweep<R: Abort>(rt: &R, alloc: Global, mode: &Mode) -> Result<(), Fail> {
    for late in &DELAYS {
        sweep_fates(rt, alloc, mode, mode.file, times(mode, None, *late))?;
        sweep_fates(
            rt,
            alloc,
            mode,
            mode.cancelled,
            times(mode, Some(250), *late),
        )?;
    }
    Ok(())
}

fn times(mode: &Mode, cancel: Option<u64>, late: u64) -> Times {
    Times {
        gap: mode.gap,
        cancel,
        timeout: 500,
        late,
    }
}

// All fates of the two leaves.
fn sweep_fates<R: Abort>(
    rt: &R,
    alloc: Global,
    mode: &Mode,
    file: &[u8],
    times: Times,
) -> Result<(), Fail> {
    for first in &FATES {
        for second in &FATES {
            agrees(rt, alloc, mode.plan, file, times, [*first, *second])?;
        }
    }
    Ok(())
}

// One race, whose log is the one that the rules give.
fn agrees<R: Abort>(
    rt: &R,
    alloc: Global,
    plan: &str,
    file: &[u8],
    times: Times,
    fates: [Fate; 2],
) -> Result<(), Fail> {
    let script = script(alloc, times, fates)?;
    let (out, code) = told(alloc, plan, times, fates)?;
    holds(rt, alloc, &row_of(file, script.as_bytes(), &out, code))
}

fn row_of<'a>(bytes: &'a [u8], script: &'a [u8], out: &'a str, code: u8) -> Row<'a> {
    Row {
        bytes,
        script,
        out,
        code,
        ..SIM
    }
}

fn script(alloc: Global, times: Times, fates: [Fate; 2]) -> Result<String, AllocError> {
    let [first, second] = fates;
    let mut text = format!(in alloc; "late {}\n", times.late)?;
    put_fate(&mut text, 0, first)?;
    put_fate(&mut text, 1, second)?;
    Ok(text)
}

fn put_fate(text: &mut String, leaf: u8, fate: Fate) -> Result<(), AllocError> {
    match fate {
        Fate::Silent => Ok(()),
        Fate::Refuses => writeln!(text, "leaf {leaf} refuses refused"),
        Fate::Completes(delay) => writeln!(text, "leaf {leaf} completes {delay}"),
        Fate::Breaks(delay) => writeln!(text, "leaf {leaf} breaks {delay} reset"),
    }
}
