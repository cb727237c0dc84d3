// Sessions with messages over scripted sockets.
use crate::row::{Row, holds};
use crate::sim_rows::SIM;
use std::test::Fail;

// Five sessions, each as it is, and asking for one byte at once, and by sockets that take and give one
// byte at once: what is printed is the same.
static SESSIONS: [Row<'static>; 20] = [
    Row {
        bytes: b"framers = [\"varint\"]\n[[remote]]\naddress = \"127.0.0.1:9000\"\n[[message]]\ntext = \"hi\"\n[exchange]\nexpect = 1\n",
        script: b"leaf 0 completes 5\npeer echo\n",
        out: "leaves 1\n0 any tcp 127.0.0.1:9000 +0\nbegin 0\nstart 0 socket 0 at 0\nwait 30000 completed 0 at 5\nready 0\nclose 0\nsent 0 1\nreceived 0 0 6869\ndone\n",
        ..SIM
    },
    Row {
        bytes: b"framers = [\"varint\"]\n[[remote]]\naddress = \"127.0.0.1:9000\"\n[[message]]\ntext = \"hi\"\n[exchange]\nexpect = 1\npiece = 1\n",
        script: b"leaf 0 completes 5\npeer echo\n",
        out: "leaves 1\n0 any tcp 127.0.0.1:9000 +0\nbegin 0\nstart 0 socket 0 at 0\nwait 30000 completed 0 at 5\nready 0\nclose 0\nsent 0 1\nreceived 0 0 6869\ndone\n",
        ..SIM
    },
    Row {
        bytes: b"framers = [\"varint\"]\n[[remote]]\naddress = \"127.0.0.1:9000\"\n[[message]]\ntext = \"hi\"\n[exchange]\nexpect = 1\n",
        script: b"leaf 0 completes 5\npeer echo\ntake 1\n",
        out: "leaves 1\n0 any tcp 127.0.0.1:9000 +0\nbegin 0\nstart 0 socket 0 at 0\nwait 30000 completed 0 at 5\nready 0\nclose 0\nsent 0 1\nreceived 0 0 6869\ndone\n",
        ..SIM
    },
    Row {
        bytes: b"framers = [\"varint\"]\n[[remote]]\naddress = \"127.0.0.1:9000\"\n[[message]]\ntext = \"hi\"\n[exchange]\nexpect = 1\n",
        script: b"leaf 0 completes 5\npeer echo\ngive 1\n",
        out: "leaves 1\n0 any tcp 127.0.0.1:9000 +0\nbegin 0\nstart 0 socket 0 at 0\nwait 30000 completed 0 at 5\nready 0\nclose 0\nsent 0 1\nreceived 0 0 6869\ndone\n",
        ..SIM
    },
    Row {
        bytes: b"framers = [\"varint\"]\n[[remote]]\naddress = \"127.0.0.1:9000\"\n[exchange]\nexpect = 2\n",
        script: b"leaf 0 completes 5\npeer sends 10 026869\npeer ends 20\n",
        out: "leaves 1\n0 any tcp 127.0.0.1:9000 +0\nbegin 0\nstart 0 socket 0 at 0\nwait 30000 completed 0 at 5\nready 0\nended 0\nclose 0\nsent 0 0\nreceived 0 0 6869\npeer-ended\n",
        code: 5,
        ..SIM
    },
    Row {
        bytes: b"framers = [\"varint\"]\n[[remote]]\naddress = \"127.0.0.1:9000\"\n[exchange]\nexpect = 2\npiece = 1\n",
        script: b"leaf 0 completes 5\npeer sends 10 026869\npeer ends 20\n",
        out: "leaves 1\n0 any tcp 127.0.0.1:9000 +0\nbegin 0\nstart 0 socket 0 at 0\nwait 30000 completed 0 at 5\nready 0\nended 0\nclose 0\nsent 0 0\nreceived 0 0 6869\npeer-ended\n",
        code: 5,
        ..SIM
    },
    Row {
        bytes: b"framers = [\"varint\"]\n[[remote]]\naddress = \"127.0.0.1:9000\"\n[exchange]\nexpect = 2\n",
        script: b"leaf 0 completes 5\npeer sends 10 026869\npeer ends 20\ntake 1\n",
        out: "leaves 1\n0 any tcp 127.0.0.1:9000 +0\nbegin 0\nstart 0 socket 0 at 0\nwait 30000 completed 0 at 5\nready 0\nended 0\nclose 0\nsent 0 0\nreceived 0 0 6869\npeer-ended\n",
        code: 5,
        ..SIM
    },
    Row {
        bytes: b"framers = [\"varint\"]\n[[remote]]\naddress = \"127.0.0.1:9000\"\n[exchange]\nexpect = 2\n",
        script: b"leaf 0 completes 5\npeer sends 10 026869\npeer ends 20\ngive 1\n",
        out: "leaves 1\n0 any tcp 127.0.0.1:9000 +0\nbegin 0\nstart 0 socket 0 at 0\nwait 30000 completed 0 at 5\nready 0\nended 0\nclose 0\nsent 0 0\nreceived 0 0 6869\npeer-ended\n",
        code: 5,
        ..SIM
    },
    Row {
        bytes: b"framers = [\"len16\"]\n[[remote]]\naddress = \"127.0.0.1:9000\"\n[[message]]\ntext = \"a\"\n[[message]]\ntext = \"b\"\nmsgLifetime = 50\n",
        script: b"leaf 0 completes 0\npeer holds 60\n",
        out: "leaves 1\n0 any tcp 127.0.0.1:9000 +0\nbegin 0\nstart 0 socket 0 at 0\nwait 30000 completed 0 at 0\nready 0\nclose 0\nsent 0 1\nexpired 0 1\n",
        code: 5,
        ..SIM
    },
    Row {
        bytes: b"framers = [\"len16\"]\n[[remote]]\naddress = \"127.0.0.1:9000\"\n[[message]]\ntext = \"a\"\n[[message]]\ntext = \"b\"\nmsgLifetime = 50\n[exchange]\npiece = 1\n",
        script: b"leaf 0 completes 0\npeer holds 60\n",
        out: "leaves 1\n0 any tcp 127.0.0.1:9000 +0\nbegin 0\nstart 0 socket 0 at 0\nwait 30000 completed 0 at 0\nready 0\nclose 0\nsent 0 1\nexpired 0 1\n",
        code: 5,
        ..SIM
    },
    Row {
        bytes: b"framers = [\"len16\"]\n[[remote]]\naddress = \"127.0.0.1:9000\"\n[[message]]\ntext = \"a\"\n[[message]]\ntext = \"b\"\nmsgLifetime = 50\n",
        script: b"leaf 0 completes 0\npeer holds 60\ntake 1\n",
        out: "leaves 1\n0 any tcp 127.0.0.1:9000 +0\nbegin 0\nstart 0 socket 0 at 0\nwait 30000 completed 0 at 0\nready 0\nclose 0\nsent 0 1\nexpired 0 1\n",
        code: 5,
        ..SIM
    },
    Row {
        bytes: b"framers = [\"len16\"]\n[[remote]]\naddress = \"127.0.0.1:9000\"\n[[message]]\ntext = \"a\"\n[[message]]\ntext = \"b\"\nmsgLifetime = 50\n",
        script: b"leaf 0 completes 0\npeer holds 60\ngive 1\n",
        out: "leaves 1\n0 any tcp 127.0.0.1:9000 +0\nbegin 0\nstart 0 socket 0 at 0\nwait 30000 completed 0 at 0\nready 0\nclose 0\nsent 0 1\nexpired 0 1\n",
        code: 5,
        ..SIM
    },
    Row {
        bytes: b"framers = [\"len16\"]\n[[remote]]\naddress = \"127.0.0.1:9000\"\n[[message]]\ntext = \"a\"\n[exchange]\ndeadline_ms = 40\n",
        script: b"leaf 0 completes 0\npeer holds 60\n",
        out: "leaves 1\n0 any tcp 127.0.0.1:9000 +0\nbegin 0\nstart 0 socket 0 at 0\nwait 30000 completed 0 at 0\nready 0\nclose 0\nsent 0 0\ntimed\n",
        code: 5,
        ..SIM
    },
    Row {
        bytes: b"framers = [\"len16\"]\n[[remote]]\naddress = \"127.0.0.1:9000\"\n[[message]]\ntext = \"a\"\n[exchange]\ndeadline_ms = 40\npiece = 1\n",
        script: b"leaf 0 completes 0\npeer holds 60\n",
        out: "leaves 1\n0 any tcp 127.0.0.1:9000 +0\nbegin 0\nstart 0 socket 0 at 0\nwait 30000 completed 0 at 0\nready 0\nclose 0\nsent 0 0\ntimed\n",
        code: 5,
        ..SIM
    },
    Row {
        bytes: b"framers = [\"len16\"]\n[[remote]]\naddress = \"127.0.0.1:9000\"\n[[message]]\ntext = \"a\"\n[exchange]\ndeadline_ms = 40\n",
        script: b"leaf 0 completes 0\npeer holds 60\ntake 1\n",
        out: "leaves 1\n0 any tcp 127.0.0.1:9000 +0\nbegin 0\nstart 0 socket 0 at 0\nwait 30000 completed 0 at 0\nready 0\nclose 0\nsent 0 0\ntimed\n",
        code: 5,
        ..SIM
    },
    Row {
        bytes: b"framers = [\"len16\"]\n[[remote]]\naddress = \"127.0.0.1:9000\"\n[[message]]\ntext = \"a\"\n[exchange]\ndeadline_ms = 40\n",
        script: b"leaf 0 completes 0\npeer holds 60\ngive 1\n",
        out: "leaves 1\n0 any tcp 127.0.0.1:9000 +0\nbegin 0\nstart 0 socket 0 at 0\nwait 30000 completed 0 at 0\nready 0\nclose 0\nsent 0 0\ntimed\n",
        code: 5,
        ..SIM
    },
    Row {
        bytes: b"framers = [\"varint\"]\n[[remote]]\naddress = \"127.0.0.1:9000\"\n[exchange]\nexpect = 1\npart = 1\n",
        script: b"leaf 0 completes 0\npeer sends 0 026869\n",
        out: "leaves 1\n0 any tcp 127.0.0.1:9000 +0\nbegin 0\nstart 0 socket 0 at 0\nwait 30000 completed 0 at 0\nready 0\nclose 0\nsent 0 0\npart 0 0 68\nreceived 0 0 69\ndone\n",
        ..SIM
    },
    Row {
        bytes: b"framers = [\"varint\"]\n[[remote]]\naddress = \"127.0.0.1:9000\"\n[exchange]\nexpect = 1\npart = 1\npiece = 1\n",
        script: b"leaf 0 completes 0\npeer sends 0 026869\n",
        out: "leaves 1\n0 any tcp 127.0.0.1:9000 +0\nbegin 0\nstart 0 socket 0 at 0\nwait 30000 completed 0 at 0\nready 0\nclose 0\nsent 0 0\npart 0 0 68\nreceived 0 0 69\ndone\n",
        ..SIM
    },
    Row {
        bytes: b"framers = [\"varint\"]\n[[remote]]\naddress = \"127.0.0.1:9000\"\n[exchange]\nexpect = 1\npart = 1\n",
        script: b"leaf 0 completes 0\npeer sends 0 026869\ntake 1\n",
        out: "leaves 1\n0 any tcp 127.0.0.1:9000 +0\nbegin 0\nstart 0 socket 0 at 0\nwait 30000 completed 0 at 0\nready 0\nclose 0\nsent 0 0\npart 0 0 68\nreceived 0 0 69\ndone\n",
        ..SIM
    },
    Row {
        bytes: b"framers = [\"varint\"]\n[[remote]]\naddress = \"127.0.0.1:9000\"\n[exchange]\nexpect = 1\npart = 1\n",
        script: b"leaf 0 completes 0\npeer sends 0 026869\ngive 1\n",
        out: "leaves 1\n0 any tcp 127.0.0.1:9000 +0\nbegin 0\nstart 0 socket 0 at 0\nwait 30000 completed 0 at 0\nready 0\nclose 0\nsent 0 0\npart 0 0 68\nreceived 0 0 69\ndone\n",
        ..SIM
    },
];

// Datagrams, streams without framers, and ends of other kinds.
static OTHERS: [Row<'static>; 8] = [
    Row {
        bytes: b"profile = \"unreliable-datagram\"\n[[remote]]\naddress = \"127.0.0.1:9000\"\n[[message]]\ntext = \"ping\"\n[exchange]\nexpect = 1\n",
        script: b"leaf 0 completes 0\npeer echo\n",
        out: "leaves 1\n0 any udp 127.0.0.1:9000 +0\nbegin 0\nstart 0 socket 0 at 0\nwait 30000 completed 0 at 0\nready 0\nclose 0\nsent 0 1\nreceived 0 0 70696e67\ndone\n",
        ..SIM
    },
    Row {
        bytes: b"profile = \"unreliable-datagram\"\n[[remote]]\naddress = \"127.0.0.1:9000\"\n[[message]]\ntext = \"\"\n",
        script: b"leaf 0 completes 0\n",
        out: "leaves 1\n0 any udp 127.0.0.1:9000 +0\nbegin 0\nstart 0 socket 0 at 0\nwait 30000 completed 0 at 0\nready 0\nclose 0\nsent 0 0\nnot-speakable 0 0 0\n",
        code: 5,
        ..SIM
    },
    Row {
        bytes: b"[[remote]]\naddress = \"127.0.0.1:9000\"\n[[message]]\ntext = \"hi\"\n[exchange]\nexpect = 1\n",
        script: b"leaf 0 completes 0\npeer sends 3 6f6b\npeer ends 4\n",
        out: "leaves 1\n0 any tcp 127.0.0.1:9000 +0\nbegin 0\nstart 0 socket 0 at 0\nwait 30000 completed 0 at 0\nready 0\nshut 0\nended 0\nclose 0\nsent 0 1\nreceived 0 0 6f6b\ndone\n",
        ..SIM
    },
    Row {
        bytes: b"[[remote]]\naddress = \"127.0.0.1:9000\"\n[[message]]\ntext = \"hi\"\n[[message]]\ntext = \"ho\"\n",
        script: b"leaf 0 completes 0\n",
        out: "leaves 1\n0 any tcp 127.0.0.1:9000 +0\nbegin 0\nstart 0 socket 0 at 0\nwait 30000 completed 0 at 0\nready 0\nshut 0\nclose 0\nsent 0 1\nnot-speakable 0 1 0\n",
        code: 5,
        ..SIM
    },
    Row {
        bytes: b"framers = [\"len16\"]\n[[remote]]\naddress = \"127.0.0.1:9000\"\n[[message]]\ntext = \"hi\"\nfinal = true\n",
        script: b"leaf 0 completes 0\n",
        out: "leaves 1\n0 any tcp 127.0.0.1:9000 +0\nbegin 0\nstart 0 socket 0 at 0\nwait 30000 completed 0 at 0\nready 0\nshut 0\nclose 0\nsent 0 1\ndone\n",
        ..SIM
    },
    Row {
        bytes: b"framers = [\"len16\"]\n[[remote]]\naddress = \"127.0.0.1:9000\"\n[[message]]\ntext = \"hi\"\n",
        script: b"leaf 0 completes 0\npeer fails 0 reset\n",
        out: "leaves 1\n0 any tcp 127.0.0.1:9000 +0\nbegin 0\nstart 0 socket 0 at 0\nwait 30000 completed 0 at 0\nready 0\nfailed 0 reset\nclose 0\nsent 0 0\ndata-failed reset\n",
        code: 5,
        ..SIM
    },
    Row {
        bytes: b"framers = [\"netstring\"]\n[[remote]]\naddress = \"127.0.0.1:9000\"\n[exchange]\nexpect = 1\n",
        script: b"leaf 0 completes 0\npeer sends 1 30313a\n",
        out: "leaves 1\n0 any tcp 127.0.0.1:9000 +0\nbegin 0\nstart 0 socket 0 at 0\nwait 30000 completed 0 at 0\nready 0\nclose 0\nsent 0 0\nbad-frame 0 0 1\n",
        code: 5,
        ..SIM
    },
    Row {
        bytes: b"framers = [\"len16\"]\n[[remote]]\naddress = \"127.0.0.1:9000\"\n[[message]]\ntext = \"hi\"\n[exchange]\nexpect = 1\n",
        script: b"leaf 0 silent\n",
        out: "leaves 1\n0 any tcp 127.0.0.1:9000 +0\nbegin 0\nstart 0 socket 0 at 0\nwait 30000 reached 30000\nclose 0\nestablishment-error timeout\n",
        code: 4,
        ..SIM
    },
];

// The same session over sockets that are handed in.
static RUNS: [Row<'static>; 3] = [
    Row {
        words: &["run", "a.toml"],
        bytes: b"framers = [\"varint\"]\n[[remote]]\naddress = \"127.0.0.1:9000\"\n[[message]]\ntext = \"hi\"\n[exchange]\nexpect = 1\n",
        net: b"leaf 0 completes 5\npeer echo\n",
        out: "leaves 1\n0 any tcp 127.0.0.1:9000 +0\nbegin 0\nstart 0 socket 0 at 0\nwait 30000 completed 0 at 5\nready 0\nclose 0\nsent 0 1\nreceived 0 0 6869\ndone\n",
        ..SIM
    },
    Row {
        words: &["run", "a.toml"],
        bytes: b"framers = [\"varint\"]\n[[remote]]\naddress = \"127.0.0.1:9000\"\n[exchange]\nexpect = 2\n",
        net: b"leaf 0 completes 5\npeer sends 10 026869\npeer ends 20\n",
        out: "leaves 1\n0 any tcp 127.0.0.1:9000 +0\nbegin 0\nstart 0 socket 0 at 0\nwait 30000 completed 0 at 5\nready 0\nended 0\nclose 0\nsent 0 0\nreceived 0 0 6869\npeer-ended\n",
        code: 5,
        ..SIM
    },
    Row {
        words: &["run", "a.toml"],
        bytes: b"[[local]]\naddress = \"127.0.0.1:9000\"\n[exchange]\nrole = \"listen\"\n",
        net: b"begin 7\n",
        out: "leaves 1\n0 any tcp 127.0.0.1:9000 +0\nbegin 7\nlisten refused other at 7\nestablishment-error all-failed\n",
        code: 4,
        ..SIM
    },
];

#[test]
fn sessions_with_messages(rt: HostRuntime) -> Result<(), Fail> {
    for row in &SESSIONS {
        holds(&rt, rt.alloc(), row)?;
    }
    Ok(())
}

#[test]
fn other_carriers_and_ends(rt: HostRuntime) -> Result<(), Fail> {
    for row in &OTHERS {
        holds(&rt, rt.alloc(), row)?;
    }
    Ok(())
}

#[test]
fn sessions_on_the_sockets_that_are_handed_in(rt: HostRuntime) -> Result<(), Fail> {
    for row in &RUNS {
        holds(&rt, rt.alloc(), row)?;
    }
    Ok(())
}
