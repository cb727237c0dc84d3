// Sessions of both ends over sockets in memory, and of a listener to whom nobody comes, each of whose calls fails in turn.
use crate::row::{Ending, Net, PLAN, Row, fails_in_turn};
use std::test::Fail;

/// Two messages from the one end to the other.
pub const BOTH_ENDS: &[u8] =
    b"framers = [\"len16\"]\n[[local]]\naddress = \"127.0.0.1:9000\"\n[[remote]]\naddress = \"127.0.0.1:9000\"\n[[message]]\ntext = \"a\"\n[[message]]\ntext = \"b\"\n[exchange]\nrole = \"loop\"\n";

pub const NOT_LISTENING: Ending<'static> = Ending {
    log: "listen refused other at 0\nestablishment-error all-failed\n",
    code: 4,
};

pub const NOT_STARTED: Ending<'static> = Ending {
    log: "listen 0 127.0.0.1:9000 at 0\nbegin 0\nstart 0 refused other at 0\nclose 0\nestablishment-error all-failed\n",
    code: 4,
};

pub const NOT_COMPLETED: Ending<'static> = Ending {
    log: "listen 0 127.0.0.1:9000 at 0\nbegin 0\nstart 0 socket 1 at 0\nwait 30000 faulted at 0\nclose 1\nclose 0\nsocket-fault\n",
    code: 8,
};

pub const NOT_ACCEPTED: Ending<'static> = Ending {
    log: "listen 0 127.0.0.1:9000 at 0\nbegin 0\nstart 0 socket 1 at 0\nwait 30000 completed 1 at 0\nready 0\nfaulted at 0\nclose 1\nclose 0\nsent 0 0\nsocket-fault\n",
    code: 8,
};

/// A send or a receive before the first message is out, and the receive behind it.
pub const FIRST_NOT_SENT: Ending<'static> = Ending {
    log: "listen 0 127.0.0.1:9000 at 0\nbegin 0\nstart 0 socket 1 at 0\nwait 30000 completed 1 at 0\nready 0\naccept 2 from 0 at 0\nfailed 1 other\nclose 1\nclose 2\nclose 0\nsent 0 0\nsent 1 0\ndata-failed other\n",
    code: 5,
};

pub const FIRST_NOT_HEARD: Ending<'static> = Ending {
    log: "listen 0 127.0.0.1:9000 at 0\nbegin 0\nstart 0 socket 1 at 0\nwait 30000 completed 1 at 0\nready 0\naccept 2 from 0 at 0\nfailed 2 other\nclose 1\nclose 2\nclose 0\nsent 0 1\nsent 1 0\ndata-failed other\n",
    code: 5,
};

/// The same of the second message.
pub const SECOND_NOT_SENT: Ending<'static> = Ending {
    log: "listen 0 127.0.0.1:9000 at 0\nbegin 0\nstart 0 socket 1 at 0\nwait 30000 completed 1 at 0\nready 0\naccept 2 from 0 at 0\nfailed 1 other\nclose 1\nclose 2\nclose 0\nsent 0 1\nsent 1 0\nreceived 1 0 61\ndata-failed other\n",
    code: 5,
};

pub const SECOND_NOT_HEARD: Ending<'static> = Ending {
    log: "listen 0 127.0.0.1:9000 at 0\nbegin 0\nstart 0 socket 1 at 0\nwait 30000 completed 1 at 0\nready 0\naccept 2 from 0 at 0\nfailed 2 other\nclose 1\nclose 2\nclose 0\nsent 0 2\nsent 1 0\nreceived 1 0 61\ndata-failed other\n",
    code: 5,
};

pub const BOTH_HEARD: Ending<'static> = Ending {
    log: "listen 0 127.0.0.1:9000 at 0\nbegin 0\nstart 0 socket 1 at 0\nwait 30000 completed 1 at 0\nready 0\naccept 2 from 0 at 0\nclose 1\nclose 2\nclose 0\nsent 0 2\nsent 1 0\nreceived 1 0 61\nreceived 1 1 62\ndone\n",
    code: 0,
};

static LOOPS: [Row<'static>; 5] = [
    // Each message goes out in one send and comes in one receive.
    Row {
        file: BOTH_ENDS,
        plan: PLAN,
        net: Net::Memory { pairs: 1, ring: 4 },
        endings: &[
            NOT_LISTENING,
            NOT_STARTED,
            NOT_COMPLETED,
            NOT_ACCEPTED,
            FIRST_NOT_SENT,
            FIRST_NOT_HEARD,
            SECOND_NOT_SENT,
            SECOND_NOT_HEARD,
            BOTH_HEARD,
        ],
    },
    // The same where both messages fit into a ring.
    Row {
        file: BOTH_ENDS,
        plan: PLAN,
        net: Net::Memory {
            pairs: 1,
            ring: 65536,
        },
        endings: &[
            NOT_LISTENING,
            NOT_STARTED,
            NOT_COMPLETED,
            NOT_ACCEPTED,
            FIRST_NOT_SENT,
            FIRST_NOT_HEARD,
            SECOND_NOT_SENT,
            SECOND_NOT_HEARD,
            BOTH_HEARD,
        ],
    },
    // Without a framer the stream is one message, behind which its side is ended: it comes in two receives, of its byte and of
    // the end.
    Row {
        file: b"[[local]]\naddress = \"127.0.0.1:9000\"\n[[remote]]\naddress = \"127.0.0.1:9000\"\n[[message]]\ntext = \"a\"\n[exchange]\nrole = \"loop\"\n",
        plan: PLAN,
        net: Net::Memory { pairs: 1, ring: 4 },
        endings: &[
            NOT_LISTENING,
            NOT_STARTED,
            NOT_COMPLETED,
            NOT_ACCEPTED,
            FIRST_NOT_SENT,
            Ending {
                log: "listen 0 127.0.0.1:9000 at 0\nbegin 0\nstart 0 socket 1 at 0\nwait 30000 completed 1 at 0\nready 0\naccept 2 from 0 at 0\nshut 1\nfailed 2 other\nclose 1\nclose 2\nclose 0\nsent 0 1\nsent 1 0\ndata-failed other\n",
                code: 5,
            },
            Ending {
                log: "listen 0 127.0.0.1:9000 at 0\nbegin 0\nstart 0 socket 1 at 0\nwait 30000 completed 1 at 0\nready 0\naccept 2 from 0 at 0\nshut 1\nfailed 2 other\nclose 1\nclose 2\nclose 0\nsent 0 1\nsent 1 0\ndata-failed other\n",
                code: 5,
            },
            Ending {
                log: "listen 0 127.0.0.1:9000 at 0\nbegin 0\nstart 0 socket 1 at 0\nwait 30000 completed 1 at 0\nready 0\naccept 2 from 0 at 0\nshut 1\nended 2\nclose 1\nclose 2\nclose 0\nsent 0 1\nsent 1 0\nreceived 1 0 61\ndone\n",
                code: 0,
            },
        ],
    },
    // Two leaves at once. Where one is refused, the other one's connection is the one that is accepted.
    Row {
        file: b"framers = [\"len16\"]\n[race]\nmode = \"simultaneous\"\n[[path]]\ninterface = \"wlan0\"\n[[path]]\ninterface = \"eth0\"\n[[local]]\naddress = \"127.0.0.1:9000\"\n[[remote]]\naddress = \"127.0.0.1:9000\"\n[[message]]\ntext = \"a\"\n[exchange]\nrole = \"loop\"\n",
        plan: "leaves 2\n0 wlan0 tcp 127.0.0.1:9000 +0\n1 eth0 tcp 127.0.0.1:9000 +0\n",
        net: Net::Memory { pairs: 2, ring: 4 },
        endings: &[
            NOT_LISTENING,
            Ending {
                log: "listen 0 127.0.0.1:9000 at 0\nbegin 0\nstart 0 refused other at 0\nstart 1 socket 1 at 0\nwait 30000 completed 1 at 0\nready 1\naccept 2 from 0 at 0\nclose 1\nclose 2\nclose 0\nsent 0 1\nsent 1 0\nreceived 1 0 61\ndone\n",
                code: 0,
            },
            Ending {
                log: "listen 0 127.0.0.1:9000 at 0\nbegin 0\nstart 0 socket 1 at 0\nstart 1 refused other at 0\nwait 30000 completed 1 at 0\nready 0\naccept 2 from 0 at 0\nclose 1\nclose 2\nclose 0\nsent 0 1\nsent 1 0\nreceived 1 0 61\ndone\n",
                code: 0,
            },
            Ending {
                log: "listen 0 127.0.0.1:9000 at 0\nbegin 0\nstart 0 socket 1 at 0\nstart 1 socket 2 at 0\nwait 30000 faulted at 0\nclose 1\nclose 2\nclose 0\nsocket-fault\n",
                code: 8,
            },
            Ending {
                log: "listen 0 127.0.0.1:9000 at 0\nbegin 0\nstart 0 socket 1 at 0\nstart 1 socket 2 at 0\nwait 30000 completed 1 at 0\nclose 2\nready 0\nfaulted at 0\nclose 1\nclose 0\nsent 0 0\nsocket-fault\n",
                code: 8,
            },
            Ending {
                log: "listen 0 127.0.0.1:9000 at 0\nbegin 0\nstart 0 socket 1 at 0\nstart 1 socket 2 at 0\nwait 30000 completed 1 at 0\nclose 2\nready 0\naccept 3 from 0 at 0\nfailed 1 other\nclose 1\nclose 3\nclose 0\nsent 0 0\nsent 1 0\ndata-failed other\n",
                code: 5,
            },
            Ending {
                log: "listen 0 127.0.0.1:9000 at 0\nbegin 0\nstart 0 socket 1 at 0\nstart 1 socket 2 at 0\nwait 30000 completed 1 at 0\nclose 2\nready 0\naccept 3 from 0 at 0\nfailed 3 other\nclose 1\nclose 3\nclose 0\nsent 0 1\nsent 1 0\ndata-failed other\n",
                code: 5,
            },
            Ending {
                log: "listen 0 127.0.0.1:9000 at 0\nbegin 0\nstart 0 socket 1 at 0\nstart 1 socket 2 at 0\nwait 30000 completed 1 at 0\nclose 2\nready 0\naccept 3 from 0 at 0\nclose 1\nclose 3\nclose 0\nsent 0 1\nsent 1 0\nreceived 1 0 61\ndone\n",
                code: 0,
            },
        ],
    },
    // Nobody comes.
    Row {
        file: b"[[local]]\naddress = \"127.0.0.1:9000\"\n[exchange]\nrole = \"listen\"\n",
        plan: PLAN,
        net: Net::Memory { pairs: 1, ring: 4 },
        endings: &[
            Ending {
                log: "begin 0\nlisten refused other at 0\nestablishment-error all-failed\n",
                code: 4,
            },
            Ending {
                log: "begin 0\nlisten 0 127.0.0.1:9000 at 0\nfaulted at 0\nclose 0\nsocket-fault\n",
                code: 8,
            },
            Ending {
                log: "begin 0\nlisten 0 127.0.0.1:9000 at 0\nclose 0\ntimed\n",
                code: 5,
            },
        ],
    },
];

#[test]
fn both_ends_whose_calls_fail(rt: HostRuntime) -> Result<(), Fail> {
    for row in &LOOPS {
        fails_in_turn(&rt, rt.alloc(), row)?;
    }
    Ok(())
}
