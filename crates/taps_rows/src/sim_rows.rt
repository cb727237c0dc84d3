use crate::plan_rows::PLAIN;
use crate::row::{Row, holds};
use std::test::Fail;

const ONE: &[u8] = b"[[remote]]\naddress = \"127.0.0.1:9000\"\n";

/// A file with two remotes.
pub const TWO: &[u8] =
    b"[[remote]]\naddress = \"127.0.0.1:9000\"\n[[remote]]\naddress = \"127.0.0.2:9000\"\n";

const THREE: &[u8] =
    b"[[remote]]\naddress = \"127.0.0.1:9000\"\n[[remote]]\naddress = \"127.0.0.2:9000\"\n[[remote]]\naddress = \"127.0.0.3:9000\"\n";

/// Its log where the second leaf completes 60 milliseconds after its start.
pub const LATE_WINNER: &str =
    "leaves 2\n0 any tcp 127.0.0.1:9000 +0\n1 any tcp 127.0.0.2:9000 +250\nbegin 0\nstart 0 socket 0 at 0\nwait 250 reached 250\nstart 1 socket 1 at 250\nwait 30000 completed 1 at 310\nclose 0\nready 1\nclose 1\nsent 0 0\ndone\n";

/// The log over one address where nothing answers.
pub const SILENT: &str =
    "leaves 1\n0 any tcp 127.0.0.1:9000 +0\nbegin 0\nstart 0 socket 0 at 0\nwait 30000 reached 30000\nclose 0\nestablishment-error timeout\n";

/// A race by a script over one address.
pub const SIM: Row<'static> = Row {
    words: &["sim", "a.toml", "s.txt"],
    bytes: ONE,
    ..PLAIN
};

const RUN: Row<'static> = Row {
    words: &["run", "a.toml"],
    bytes: ONE,
    ..PLAIN
};

// Races by a script, with the logs of their sessions.
static RACES: [Row<'static>; 23] = [
    Row {
        bytes: b"profile = \"reliable-message\"\n[[remote]]\naddress = \"127.0.0.1:9000\"\n",
        out: "leaves 0\nbegin 0\nestablishment-error no-candidate\n",
        code: 4,
        ..SIM
    },
    Row {
        bytes: TWO,
        script: b"leaf 1 completes 60\n",
        out: LATE_WINNER,
        ..SIM
    },
    Row {
        bytes: TWO,
        script: b"leaf 0 breaks 100 refused\nleaf 1 completes 0\n",
        out: "leaves 2\n0 any tcp 127.0.0.1:9000 +0\n1 any tcp 127.0.0.2:9000 +250\nbegin 0\nstart 0 socket 0 at 0\nwait 250 broke 0 refused at 100\nclose 0\nstart 1 socket 1 at 100\nwait 30000 completed 1 at 100\nready 1\nclose 1\nsent 0 0\ndone\n",
        ..SIM
    },
    Row {
        bytes: b"[[remote]]\naddress = \"127.0.0.1:9000\"\n[race]\ntimeout_ms = 250\n",
        script: b"leaf 0 completes 250\n",
        out: "leaves 1\n0 any tcp 127.0.0.1:9000 +0\nbegin 0\nstart 0 socket 0 at 0\nwait 250 completed 0 at 250\nready 0\nclose 0\nsent 0 0\ndone\n",
        ..SIM
    },
    Row {
        bytes: b"[[remote]]\naddress = \"127.0.0.1:9000\"\n[race]\ntimeout_ms = 100\ncancel_ms = 100\n",
        out: "leaves 1\n0 any tcp 127.0.0.1:9000 +0\nbegin 0\nstart 0 socket 0 at 0\nwait 100 reached 100\nclose 0\nclosed\n",
        code: 10,
        ..SIM
    },
    Row {
        bytes: b"[[remote]]\naddress = \"127.0.0.1:9000\"\n[race]\ntimeout_ms = 100\n",
        out: "leaves 1\n0 any tcp 127.0.0.1:9000 +0\nbegin 0\nstart 0 socket 0 at 0\nwait 100 reached 100\nclose 0\nestablishment-error timeout\n",
        code: 4,
        ..SIM
    },
    Row {
        bytes: b"[[remote]]\naddress = \"127.0.0.1:9000\"\n[[remote]]\naddress = \"127.0.0.2:9000\"\n[[remote]]\naddress = \"127.0.0.3:9000\"\n[race]\nmode = \"simultaneous\"\n",
        script: b"leaf 1 completes 40\nleaf 2 completes 40\n",
        out: "leaves 3\n0 any tcp 127.0.0.1:9000 +0\n1 any tcp 127.0.0.2:9000 +0\n2 any tcp 127.0.0.3:9000 +0\nbegin 0\nstart 0 socket 0 at 0\nstart 1 socket 1 at 0\nstart 2 socket 2 at 0\nwait 30000 completed 1 at 40\nclose 0\nclose 2\nready 1\nclose 1\nsent 0 0\ndone\n",
        ..SIM
    },
    Row {
        bytes: TWO,
        script: b"leaf 0 refuses refused\nleaf 1 refuses unreachable\n",
        out: "leaves 2\n0 any tcp 127.0.0.1:9000 +0\n1 any tcp 127.0.0.2:9000 +250\nbegin 0\nstart 0 refused refused at 0\nstart 1 refused unreachable at 0\nestablishment-error all-failed\n",
        code: 4,
        ..SIM
    },
    Row {
        bytes: b"[[remote]]\naddress = \"127.0.0.1:9000\"\n[[remote]]\naddress = \"127.0.0.2:9000\"\n[race]\nmode = \"simultaneous\"\n",
        script: b"fault 0\n",
        out: "leaves 2\n0 any tcp 127.0.0.1:9000 +0\n1 any tcp 127.0.0.2:9000 +0\nbegin 0\nstart 0 socket 0 at 0\nstart 1 socket 1 at 0\nwait 30000 faulted at 0\nclose 0\nclose 1\nsocket-fault\n",
        code: 8,
        ..SIM
    },
    Row {
        bytes: THREE,
        script: b"late 900\nleaf 2 completes 0\n",
        out: "leaves 3\n0 any tcp 127.0.0.1:9000 +0\n1 any tcp 127.0.0.2:9000 +250\n2 any tcp 127.0.0.3:9000 +250\nbegin 0\nstart 0 socket 0 at 0\nwait 250 reached 1150\nstart 1 socket 1 at 1150\nwait 1400 reached 2300\nstart 2 socket 2 at 2300\nwait 30000 completed 2 at 2300\nclose 0\nclose 1\nready 2\nclose 2\nsent 0 0\ndone\n",
        ..SIM
    },
    Row {
        script: b"begin 9223372036854775807\n",
        out: "leaves 1\n0 any tcp 127.0.0.1:9000 +0\nbegin 9223372036854775807\nstart 0 socket 0 at 9223372036854775807\nwait 9223372036854805807 faulted at 9223372036854775807\nclose 0\nsocket-fault\n",
        code: 8,
        ..SIM
    },
    Row {
        script: b"begin 9223372036854775807\nleaf 0 completes 0\n",
        out: "leaves 1\n0 any tcp 127.0.0.1:9000 +0\nbegin 9223372036854775807\nstart 0 socket 0 at 9223372036854775807\nwait 9223372036854805807 completed 0 at 9223372036854775807\nready 0\nclose 0\nsent 0 0\ndone\n",
        ..SIM
    },
    Row {
        bytes: TWO,
        script: b"# a race\n\nleaf 1 completes 60",
        out: LATE_WINNER,
        ..SIM
    },
    Row {
        bytes: TWO,
        script: b"leaf 4095 completes 0\nlate 0\nfault 2\nleaf 1 completes 60\nbegin 0\nleaf 0 silent\n",
        out: LATE_WINNER,
        ..SIM
    },
    Row {
        bytes: TWO,
        script: b"begin 1000\nleaf 1 completes 60\n",
        out: "leaves 2\n0 any tcp 127.0.0.1:9000 +0\n1 any tcp 127.0.0.2:9000 +250\nbegin 1000\nstart 0 socket 0 at 1000\nwait 1250 reached 1250\nstart 1 socket 1 at 1250\nwait 31000 completed 1 at 1310\nclose 0\nready 1\nclose 1\nsent 0 0\ndone\n",
        ..SIM
    },
    Row {
        bytes: TWO,
        script: b"fault 1\n",
        out: "leaves 2\n0 any tcp 127.0.0.1:9000 +0\n1 any tcp 127.0.0.2:9000 +250\nbegin 0\nstart 0 socket 0 at 0\nwait 250 reached 250\nstart 1 socket 1 at 250\nwait 30000 faulted at 250\nclose 0\nclose 1\nsocket-fault\n",
        code: 8,
        ..SIM
    },
    Row {
        bytes: b"[[remote]]\naddress = \"127.0.0.1:9000\"\n[[remote]]\naddress = \"127.0.0.2:9000\"\n[race]\nmode = \"failover\"\n",
        script: b"leaf 0 breaks 800 reset\nleaf 1 completes 100\n",
        out: "leaves 2\n0 any tcp 127.0.0.1:9000 +0\n1 any tcp 127.0.0.2:9000 +none\nbegin 0\nstart 0 socket 0 at 0\nwait 30000 broke 0 reset at 800\nclose 0\nstart 1 socket 1 at 800\nwait 30000 completed 1 at 900\nready 1\nclose 1\nsent 0 0\ndone\n",
        ..SIM
    },
    Row {
        bytes: b"[[remote]]\naddress = \"127.0.0.1:9000\"\n[[remote]]\naddress = \"127.0.0.2:9000\"\n[[remote]]\naddress = \"127.0.0.3:9000\"\n[race]\ntimeout_ms = 500\n",
        script: b"leaf 0 refuses memory\nleaf 1 breaks 10 other\n",
        out: "leaves 3\n0 any tcp 127.0.0.1:9000 +0\n1 any tcp 127.0.0.2:9000 +250\n2 any tcp 127.0.0.3:9000 +250\nbegin 0\nstart 0 refused memory at 0\nstart 1 socket 0 at 0\nwait 250 broke 0 other at 10\nclose 0\nstart 2 socket 1 at 10\nwait 500 reached 500\nclose 1\nestablishment-error timeout\n",
        code: 4,
        ..SIM
    },
    Row {
        bytes: b"[[remote]]\naddress = \"127.0.0.1:9000\"\n[race]\ntimeout_ms = 100\n",
        script: b"begin 9223372036854775000\nlate 4294967295\n",
        out: "leaves 1\n0 any tcp 127.0.0.1:9000 +0\nbegin 9223372036854775000\nstart 0 socket 0 at 9223372036854775000\nwait 9223372036854775100 reached 9223372036854775807\nclose 0\nestablishment-error timeout\n",
        code: 4,
        ..SIM
    },
    Row {
        bytes: b"[[remote]]\naddress = \"127.0.0.1:9000\"\n[race]\ntimeout_ms = 100\n",
        script: b"begin 9223372036854775707\nleaf 0 completes 100\n",
        out: "leaves 1\n0 any tcp 127.0.0.1:9000 +0\nbegin 9223372036854775707\nstart 0 socket 0 at 9223372036854775707\nwait 9223372036854775807 completed 0 at 9223372036854775807\nready 0\nclose 0\nsent 0 0\ndone\n",
        ..SIM
    },
    Row {
        bytes: b"[[remote]]\naddress = \"127.0.0.1:9000\"\n[race]\ntimeout_ms = 100\n",
        script: b"begin 9223372036854775707\nleaf 0 completes 101\n",
        out: "leaves 1\n0 any tcp 127.0.0.1:9000 +0\nbegin 9223372036854775707\nstart 0 socket 0 at 9223372036854775707\nwait 9223372036854775807 reached 9223372036854775807\nclose 0\nestablishment-error timeout\n",
        code: 4,
        ..SIM
    },
    Row {
        bytes: b"[[remote]]\naddress = \"127.0.0.1:9000\"\n[exchange]\nrole = \"loop\"\n",
        script: b"leaf 0 completes 0\n",
        out: "leaves 1\n0 any tcp 127.0.0.1:9000 +0\nbegin 0\nstart 0 socket 0 at 0\nwait 30000 completed 0 at 0\nready 0\nclose 0\nsent 0 0\ndone\n",
        ..SIM
    },
    Row {
        bytes: b"[exchange]\nrole = \"listen\"\n",
        out: "leaves 0\nbegin 0\nestablishment-error no-candidate\n",
        code: 4,
        ..SIM
    },
];

// Races on the sockets that are handed in. No script is read.
static RUNS: [Row<'static>; 7] = [
    Row {
        bytes: TWO,
        net: b"leaf 1 completes 60\n",
        out: LATE_WINNER,
        ..RUN
    },
    Row {
        bytes: TWO,
        net: b"leaf 1 completes 60\n",
        faults: &[1],
        out: LATE_WINNER,
        ..RUN
    },
    Row {
        out: SILENT,
        code: 4,
        ..RUN
    },
    Row {
        bytes: b"[[remote]]\naddress = \"127.0.0.1:9000\"\n[race]\ntimeout_ms = 100\ncancel_ms = 100\n",
        out: "leaves 1\n0 any tcp 127.0.0.1:9000 +0\nbegin 0\nstart 0 socket 0 at 0\nwait 100 reached 100\nclose 0\nclosed\n",
        code: 10,
        ..RUN
    },
    Row {
        bytes: TWO,
        net: b"leaf 0 refuses refused\nleaf 1 refuses unreachable\n",
        out: "leaves 2\n0 any tcp 127.0.0.1:9000 +0\n1 any tcp 127.0.0.2:9000 +250\nbegin 0\nstart 0 refused refused at 0\nstart 1 refused unreachable at 0\nestablishment-error all-failed\n",
        code: 4,
        ..RUN
    },
    Row {
        bytes: b"[[remote]]\naddress = \"127.0.0.1:9000\"\n[[remote]]\naddress = \"127.0.0.2:9000\"\n[race]\nmode = \"simultaneous\"\n",
        net: b"fault 0\n",
        out: "leaves 2\n0 any tcp 127.0.0.1:9000 +0\n1 any tcp 127.0.0.2:9000 +0\nbegin 0\nstart 0 socket 0 at 0\nstart 1 socket 1 at 0\nwait 30000 faulted at 0\nclose 0\nclose 1\nsocket-fault\n",
        code: 8,
        ..RUN
    },
    Row {
        bytes: b"profile = \"reliable-message\"\n[[remote]]\naddress = \"127.0.0.1:9000\"\n",
        out: "leaves 0\nbegin 0\nestablishment-error no-candidate\n",
        code: 4,
        ..RUN
    },
];

// Logs that the output does not take, whatever the status would have been.
static OUTPUTS: [Row<'static>; 6] = [
    Row {
        bytes: TWO,
        script: b"leaf 1 completes 60\n",
        capacity: 30,
        out: "leaves 2\n0 any tcp 127.0.0.1:9",
        err: "taps: output fault\n",
        code: 7,
        ..SIM
    },
    Row {
        bytes: TWO,
        script: b"leaf 1 completes 60\n",
        capacity: 209,
        out: "leaves 2\n0 any tcp 127.0.0.1:9000 +0\n1 any tcp 127.0.0.2:9000 +250\nbegin 0\nstart 0 socket 0 at 0\nwait 250 reached 250\nstart 1 socket 1 at 250\nwait 30000 completed 1 at 310\nclose 0\nready 1\nclose 1\nsent 0 0\ndone",
        err: "taps: output fault\n",
        code: 7,
        ..SIM
    },
    Row {
        bytes: TWO,
        script: b"leaf 1 completes 60\n",
        capacity: 210,
        out: LATE_WINNER,
        ..SIM
    },
    Row {
        bytes: TWO,
        script: b"leaf 1 completes 60\n",
        capacity: 30,
        err_fails: Some(0),
        out: "leaves 2\n0 any tcp 127.0.0.1:9",
        code: 7,
        ..SIM
    },
    Row {
        script: b"fault 0\n",
        capacity: 0,
        out: "",
        err: "taps: output fault\n",
        code: 7,
        ..SIM
    },
    Row {
        bytes: TWO,
        net: b"leaf 1 completes 60\n",
        capacity: 0,
        out: "",
        err: "taps: output fault\n",
        code: 7,
        ..RUN
    },
];

#[test]
fn races_are_logged(rt: HostRuntime) -> Result<(), Fail> {
    let alloc = rt.alloc();
    for row in &RACES {
        holds(&rt, alloc, row)?;
    }
    Ok(())
}

#[test]
fn races_are_run_on_the_sockets(rt: HostRuntime) -> Result<(), Fail> {
    let alloc = rt.alloc();
    for row in &RUNS {
        holds(&rt, alloc, row)?;
    }
    Ok(())
}

#[test]
fn logs_that_are_not_taken(rt: HostRuntime) -> Result<(), Fail> {
    let alloc = rt.alloc();
    for row in &OUTPUTS {
        holds(&rt, alloc, row)?;
    }
    Ok(())
}
