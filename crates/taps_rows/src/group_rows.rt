// Sessions of groups over scripted sockets: clones, priorities, and what ends them.
use crate::plan_rows::PLAIN;
use crate::row::{Row, holds};
use crate::sim_rows::SIM;
use std::test::Fail;

// A connection with one clone.
const CLONED: &[u8] = b"[[remote]]\naddress = \"127.0.0.1:9000\"\n[exchange]\nclones = 1\n";

// The same where the group may have one member.
const LIMITED: &[u8] =
    b"[[remote]]\naddress = \"127.0.0.1:9000\"\n[connection]\ngroupConnLimit = 1\n[exchange]\nclones = 1\n";

// Where both members send one message each, the last one each, of which that of the clone is accepted first.
const FINAL: &[u8] =
    b"framers = [\"len16\"]\n[[remote]]\naddress = \"127.0.0.1:9000\"\n[[message]]\ntext = \"b\"\nmember = 1\nfinal = true\n[[message]]\ntext = \"a\"\nfinal = true\n[exchange]\nclones = 1\n";

// The same where the first member goes before the clone.
const FIRST: &[u8] =
    b"framers = [\"len16\"]\n[[remote]]\naddress = \"127.0.0.1:9000\"\n[[message]]\ntext = \"b\"\nmember = 1\nfinal = true\n[[message]]\ntext = \"a\"\nfinal = true\n[exchange]\nclones = 1\npriorities = [99]\n";

// Both members hear what comes back.
const ECHOED: &[u8] =
    b"framers = [\"len16\"]\n[[remote]]\naddress = \"127.0.0.1:9000\"\n[[message]]\ntext = \"a\"\n[[message]]\ntext = \"b\"\nmember = 1\n[exchange]\nclones = 1\nexpect = 1\n";

// One member, to which a priority is given.
const ALONE: &[u8] =
    b"[[remote]]\naddress = \"127.0.0.1:9000\"\n[[message]]\ntext = \"a\"\n[exchange]\npriorities = [1]\n";

const BOTH: &[u8] = b"leaf 0 completes 0\nleaf 1 completes 5\n";

const GROUPS: [Row<'static>; 12] = [
    Row {
        bytes: CLONED,
        script: BOTH,
        out: "leaves 1\n0 any tcp 127.0.0.1:9000 +0\nbegin 0\nstart 0 socket 0 at 0\nwait 30000 completed 0 at 0\nready 0\nbegin 0\nstart 1 socket 1 at 0\nwait 30000 completed 1 at 5\nclose 0\nclose 1\nsent 0 0\nsent 1 0\ndone\n",
        ..SIM
    },
    Row {
        bytes: LIMITED,
        script: BOTH,
        out: "leaves 1\n0 any tcp 127.0.0.1:9000 +0\nbegin 0\nstart 0 socket 0 at 0\nwait 30000 completed 0 at 0\nready 0\nclose 0\nsent 0 0\nclone-error limit-reached 1\n",
        code: 5,
        ..SIM
    },
    Row {
        bytes: CLONED,
        script: b"leaf 0 completes 0\nleaf 1 refuses reset\n",
        out: "leaves 1\n0 any tcp 127.0.0.1:9000 +0\nbegin 0\nstart 0 socket 0 at 0\nwait 30000 completed 0 at 0\nready 0\nbegin 0\nstart 1 refused reset at 0\nclose 0\nsent 0 0\nclone-error all-failed\n",
        code: 5,
        ..SIM
    },
    Row {
        bytes: CLONED,
        script: b"leaf 0 completes 7\nleaf 1 silent\n",
        out: "leaves 1\n0 any tcp 127.0.0.1:9000 +0\nbegin 0\nstart 0 socket 0 at 0\nwait 30000 completed 0 at 7\nready 0\nbegin 7\nstart 1 socket 1 at 7\nwait 30007 reached 30007\nclose 1\nclose 0\nsent 0 0\nclone-error timeout\n",
        code: 5,
        ..SIM
    },
    Row {
        bytes: CLONED,
        script: b"leaf 0 completes 0\nleaf 1 completes 5\nfault 1\n",
        out: "leaves 1\n0 any tcp 127.0.0.1:9000 +0\nbegin 0\nstart 0 socket 0 at 0\nwait 30000 completed 0 at 0\nready 0\nbegin 0\nstart 1 socket 1 at 0\nwait 30000 faulted at 0\nclose 1\nclose 0\nsent 0 0\nsocket-fault\n",
        code: 8,
        ..SIM
    },
    Row {
        bytes: FINAL,
        script: BOTH,
        out: "leaves 1\n0 any tcp 127.0.0.1:9000 +0\nbegin 0\nstart 0 socket 0 at 0\nwait 30000 completed 0 at 0\nready 0\nbegin 0\nstart 1 socket 1 at 0\nwait 30000 completed 1 at 5\nshut 1\nshut 0\nclose 0\nclose 1\nsent 0 1\nsent 1 1\ndone\n",
        ..SIM
    },
    Row {
        bytes: FIRST,
        script: BOTH,
        out: "leaves 1\n0 any tcp 127.0.0.1:9000 +0\nbegin 0\nstart 0 socket 0 at 0\nwait 30000 completed 0 at 0\nready 0\nbegin 0\nstart 1 socket 1 at 0\nwait 30000 completed 1 at 5\nshut 0\nshut 1\nclose 0\nclose 1\nsent 0 1\nsent 1 1\ndone\n",
        ..SIM
    },
    Row {
        bytes: ECHOED,
        script: b"leaf 0 completes 0\nleaf 1 completes 5\npeer echo\n",
        out: "leaves 1\n0 any tcp 127.0.0.1:9000 +0\nbegin 0\nstart 0 socket 0 at 0\nwait 30000 completed 0 at 0\nready 0\nbegin 0\nstart 1 socket 1 at 0\nwait 30000 completed 1 at 5\nclose 0\nclose 1\nsent 0 1\nreceived 0 0 61\nsent 1 1\nreceived 1 0 62\ndone\n",
        ..SIM
    },
    Row {
        bytes: ALONE,
        script: BOTH,
        out: "leaves 1\n0 any tcp 127.0.0.1:9000 +0\nbegin 0\nstart 0 socket 0 at 0\nwait 30000 completed 0 at 0\nready 0\nshut 0\nclose 0\nsent 0 1\ndone\n",
        ..SIM
    },
    Row {
        words: &["run", "a.toml"],
        bytes: CLONED,
        net: BOTH,
        out: "leaves 1\n0 any tcp 127.0.0.1:9000 +0\nbegin 0\nstart 0 socket 0 at 0\nwait 30000 completed 0 at 0\nready 0\nbegin 0\nstart 1 socket 1 at 0\nwait 30000 completed 1 at 5\nclose 0\nclose 1\nsent 0 0\nsent 1 0\ndone\n",
        ..SIM
    },
    Row {
        bytes: b"framers = [\"nope\"]\n[[remote]]\naddress = \"127.0.0.1:9000\"\n[exchange]\nclones = 1\n",
        err: "taps: refused a.toml: unknown framer framers[0]\n",
        code: 3,
        ..SIM
    },
    Row {
        bytes: CLONED,
        out: "leaves 1\n0 any tcp 127.0.0.1:9000 +0\n",
        ..PLAIN
    },
];

#[test]
fn groups_are_held(rt: HostRuntime) -> Result<(), Fail> {
    let alloc = rt.alloc();
    for row in &GROUPS {
        holds(&rt, alloc, row)?;
    }
    Ok(())
}
