// Sessions with messages over scripted sockets, each of whose calls fails in turn.
use crate::row::{Ending, Net, PLAN, Row, fails_in_turn};
use std::test::Fail;

const ECHOED: &[u8] =
    b"framers = [\"varint\"]\n[[remote]]\naddress = \"127.0.0.1:9000\"\n[[message]]\ntext = \"hi\"\n[exchange]\nexpect = 1\n";

const NOT_STARTED: Ending<'static> = Ending {
    log: "begin 0\nstart 0 refused other at 0\nestablishment-error all-failed\n",
    code: 4,
};

const NOT_COMPLETED: Ending<'static> = Ending {
    log: "begin 0\nstart 0 socket 0 at 0\nwait 30000 faulted at 0\nclose 0\nsocket-fault\n",
    code: 8,
};

// Of a leaf that completes at once.
const NOT_SENT: Ending<'static> = Ending {
    log: "begin 0\nstart 0 socket 0 at 0\nwait 30000 completed 0 at 0\nready 0\nfailed 0 other\nclose 0\nsent 0 0\ndata-failed other\n",
    code: 5,
};

// And of one that completes later.
const NOT_SENT_LATER: Ending<'static> = Ending {
    log: "begin 0\nstart 0 socket 0 at 0\nwait 30000 completed 0 at 5\nready 0\nfailed 0 other\nclose 0\nsent 0 0\ndata-failed other\n",
    code: 5,
};

const NOT_HEARD_LATER: Ending<'static> = Ending {
    log: "begin 0\nstart 0 socket 0 at 0\nwait 30000 completed 0 at 5\nready 0\nfailed 0 other\nclose 0\nsent 0 1\ndata-failed other\n",
    code: 5,
};

const HEARD_LATER: Ending<'static> = Ending {
    log: "begin 0\nstart 0 socket 0 at 0\nwait 30000 completed 0 at 5\nready 0\nclose 0\nsent 0 1\nreceived 0 0 6869\ndone\n",
    code: 0,
};

static SESSIONS: [Row<'static>; 6] = [
    // A message that comes back: one send and one receive.
    Row {
        file: ECHOED,
        plan: PLAN,
        net: Net::Script(b"leaf 0 completes 5\npeer echo\n"),
        endings: &[
            NOT_STARTED,
            NOT_COMPLETED,
            NOT_SENT_LATER,
            NOT_HEARD_LATER,
            HEARD_LATER,
        ],
    },
    // The same by single bytes: three sends and three receives.
    Row {
        file: ECHOED,
        plan: PLAN,
        net: Net::Script(b"leaf 0 completes 5\npeer echo\ntake 1\ngive 1\n"),
        endings: &[
            NOT_STARTED,
            NOT_COMPLETED,
            NOT_SENT_LATER,
            NOT_SENT_LATER,
            NOT_SENT_LATER,
            NOT_HEARD_LATER,
            NOT_HEARD_LATER,
            NOT_HEARD_LATER,
            HEARD_LATER,
        ],
    },
    // What was heard before the failure is told.
    Row {
        file: b"framers = [\"varint\"]\n[[remote]]\naddress = \"127.0.0.1:9000\"\n[exchange]\nexpect = 2\n",
        plan: PLAN,
        net: Net::Script(b"leaf 0 completes 5\npeer sends 10 026869\npeer ends 20\n"),
        endings: &[
            NOT_STARTED,
            NOT_COMPLETED,
            NOT_SENT_LATER,
            Ending {
                log: "begin 0\nstart 0 socket 0 at 0\nwait 30000 completed 0 at 5\nready 0\nfailed 0 other\nclose 0\nsent 0 0\nreceived 0 0 6869\ndata-failed other\n",
                code: 5,
            },
            Ending {
                log: "begin 0\nstart 0 socket 0 at 0\nwait 30000 completed 0 at 5\nready 0\nended 0\nclose 0\nsent 0 0\nreceived 0 0 6869\npeer-ended\n",
                code: 5,
            },
        ],
    },
    // Without a framer the stream is one message, which is not whole before its end.
    Row {
        file: b"[[remote]]\naddress = \"127.0.0.1:9000\"\n[[message]]\ntext = \"hi\"\n[exchange]\nexpect = 1\n",
        plan: PLAN,
        net: Net::Script(b"leaf 0 completes 0\npeer sends 3 6f6b\npeer ends 4\n"),
        endings: &[
            NOT_STARTED,
            NOT_COMPLETED,
            NOT_SENT,
            Ending {
                log: "begin 0\nstart 0 socket 0 at 0\nwait 30000 completed 0 at 0\nready 0\nshut 0\nfailed 0 other\nclose 0\nsent 0 1\ndata-failed other\n",
                code: 5,
            },
            Ending {
                log: "begin 0\nstart 0 socket 0 at 0\nwait 30000 completed 0 at 0\nready 0\nshut 0\nfailed 0 other\nclose 0\nsent 0 1\ndata-failed other\n",
                code: 5,
            },
            Ending {
                log: "begin 0\nstart 0 socket 0 at 0\nwait 30000 completed 0 at 0\nready 0\nshut 0\nended 0\nclose 0\nsent 0 1\nreceived 0 0 6f6b\ndone\n",
                code: 0,
            },
        ],
    },
    Row {
        file: b"profile = \"unreliable-datagram\"\n[[remote]]\naddress = \"127.0.0.1:9000\"\n[[message]]\ntext = \"ping\"\n[exchange]\nexpect = 1\n",
        plan: "leaves 1\n0 any udp 127.0.0.1:9000 +0\n",
        net: Net::Script(b"leaf 0 completes 0\npeer echo\n"),
        endings: &[
            NOT_STARTED,
            NOT_COMPLETED,
            NOT_SENT,
            Ending {
                log: "begin 0\nstart 0 socket 0 at 0\nwait 30000 completed 0 at 0\nready 0\nfailed 0 other\nclose 0\nsent 0 1\ndata-failed other\n",
                code: 5,
            },
            Ending {
                log: "begin 0\nstart 0 socket 0 at 0\nwait 30000 completed 0 at 0\nready 0\nclose 0\nsent 0 1\nreceived 0 0 70696e67\ndone\n",
                code: 0,
            },
        ],
    },
    // Two members, the second by a race of its own.
    Row {
        file: b"framers = [\"len16\"]\n[[remote]]\naddress = \"127.0.0.1:9000\"\n[[message]]\ntext = \"a\"\n[[message]]\ntext = \"b\"\nmember = 1\n[exchange]\nclones = 1\nexpect = 1\n",
        plan: PLAN,
        net: Net::Script(b"leaf 0 completes 0\nleaf 1 completes 5\npeer echo\n"),
        endings: &[
            NOT_STARTED,
            NOT_COMPLETED,
            Ending {
                log: "begin 0\nstart 0 socket 0 at 0\nwait 30000 completed 0 at 0\nready 0\nbegin 0\nstart 1 refused other at 0\nclose 0\nsent 0 0\nclone-error all-failed\n",
                code: 5,
            },
            Ending {
                log: "begin 0\nstart 0 socket 0 at 0\nwait 30000 completed 0 at 0\nready 0\nbegin 0\nstart 1 socket 1 at 0\nwait 30000 faulted at 0\nclose 1\nclose 0\nsent 0 0\nsocket-fault\n",
                code: 8,
            },
            Ending {
                log: "begin 0\nstart 0 socket 0 at 0\nwait 30000 completed 0 at 0\nready 0\nbegin 0\nstart 1 socket 1 at 0\nwait 30000 completed 1 at 5\nfailed 0 other\nclose 0\nclose 1\nsent 0 0\nsent 1 0\ndata-failed other\n",
                code: 5,
            },
            Ending {
                log: "begin 0\nstart 0 socket 0 at 0\nwait 30000 completed 0 at 0\nready 0\nbegin 0\nstart 1 socket 1 at 0\nwait 30000 completed 1 at 5\nfailed 1 other\nclose 0\nclose 1\nsent 0 1\nsent 1 0\ndata-failed other\n",
                code: 5,
            },
            Ending {
                log: "begin 0\nstart 0 socket 0 at 0\nwait 30000 completed 0 at 0\nready 0\nbegin 0\nstart 1 socket 1 at 0\nwait 30000 completed 1 at 5\nfailed 0 other\nclose 0\nclose 1\nsent 0 1\nsent 1 1\ndata-failed other\n",
                code: 5,
            },
            Ending {
                log: "begin 0\nstart 0 socket 0 at 0\nwait 30000 completed 0 at 0\nready 0\nbegin 0\nstart 1 socket 1 at 0\nwait 30000 completed 1 at 5\nfailed 1 other\nclose 0\nclose 1\nsent 0 1\nreceived 0 0 61\nsent 1 1\ndata-failed other\n",
                code: 5,
            },
            Ending {
                log: "begin 0\nstart 0 socket 0 at 0\nwait 30000 completed 0 at 0\nready 0\nbegin 0\nstart 1 socket 1 at 0\nwait 30000 completed 1 at 5\nclose 0\nclose 1\nsent 0 1\nreceived 0 0 61\nsent 1 1\nreceived 1 0 62\ndone\n",
                code: 0,
            },
        ],
    },
];

#[test]
fn sessions_whose_calls_fail(rt: HostRuntime) -> Result<(), Fail> {
    for row in &SESSIONS {
        fails_in_turn(&rt, rt.alloc(), row)?;
    }
    Ok(())
}
