// Sessions without messages over scripted sockets, each of whose calls fails in turn.
use crate::row::{Ending, Net, PLAN, Row, fails_in_turn};
use std::test::Fail;

const TWO: &[u8] =
    b"[[remote]]\naddress = \"127.0.0.1:9000\"\n[[remote]]\naddress = \"127.0.0.2:9000\"\n";

const TWO_PLAN: &str = "leaves 2\n0 any tcp 127.0.0.1:9000 +0\n1 any tcp 127.0.0.2:9000 +250\n";

static RACES: [Row<'static>; 5] = [
    // The second leaf wins.
    Row {
        file: TWO,
        plan: TWO_PLAN,
        net: Net::Script(b"leaf 1 completes 60\n"),
        endings: &[
            Ending {
                log: "begin 0\nstart 0 refused other at 0\nstart 1 socket 0 at 0\nwait 30000 completed 0 at 60\nready 1\nclose 0\nsent 0 0\ndone\n",
                code: 0,
            },
            Ending {
                log: "begin 0\nstart 0 socket 0 at 0\nwait 250 faulted at 0\nclose 0\nsocket-fault\n",
                code: 8,
            },
            Ending {
                log: "begin 0\nstart 0 socket 0 at 0\nwait 250 reached 250\nstart 1 refused other at 250\nwait 30000 reached 30000\nclose 0\nestablishment-error timeout\n",
                code: 4,
            },
            Ending {
                log: "begin 0\nstart 0 socket 0 at 0\nwait 250 reached 250\nstart 1 socket 1 at 250\nwait 30000 faulted at 250\nclose 0\nclose 1\nsocket-fault\n",
                code: 8,
            },
            Ending {
                log: "begin 0\nstart 0 socket 0 at 0\nwait 250 reached 250\nstart 1 socket 1 at 250\nwait 30000 completed 1 at 310\nclose 0\nready 1\nclose 1\nsent 0 0\ndone\n",
                code: 0,
            },
        ],
    },
    // The same on a clock that begins later: a failure is told at the last reported time.
    Row {
        file: TWO,
        plan: TWO_PLAN,
        net: Net::Script(b"begin 1000\nleaf 1 completes 60\n"),
        endings: &[
            Ending {
                log: "begin 1000\nstart 0 refused other at 1000\nstart 1 socket 0 at 1000\nwait 31000 completed 0 at 1060\nready 1\nclose 0\nsent 0 0\ndone\n",
                code: 0,
            },
            Ending {
                log: "begin 1000\nstart 0 socket 0 at 1000\nwait 1250 faulted at 1000\nclose 0\nsocket-fault\n",
                code: 8,
            },
            Ending {
                log: "begin 1000\nstart 0 socket 0 at 1000\nwait 1250 reached 1250\nstart 1 refused other at 1250\nwait 31000 reached 31000\nclose 0\nestablishment-error timeout\n",
                code: 4,
            },
            Ending {
                log: "begin 1000\nstart 0 socket 0 at 1000\nwait 1250 reached 1250\nstart 1 socket 1 at 1250\nwait 31000 faulted at 1250\nclose 0\nclose 1\nsocket-fault\n",
                code: 8,
            },
            Ending {
                log: "begin 1000\nstart 0 socket 0 at 1000\nwait 1250 reached 1250\nstart 1 socket 1 at 1250\nwait 31000 completed 1 at 1310\nclose 0\nready 1\nclose 1\nsent 0 0\ndone\n",
                code: 0,
            },
        ],
    },
    // The first leaf breaks, so that the second one starts.
    Row {
        file: TWO,
        plan: TWO_PLAN,
        net: Net::Script(b"leaf 0 breaks 100 refused\nleaf 1 completes 0\n"),
        endings: &[
            Ending {
                log: "begin 0\nstart 0 refused other at 0\nstart 1 socket 0 at 0\nwait 30000 completed 0 at 0\nready 1\nclose 0\nsent 0 0\ndone\n",
                code: 0,
            },
            Ending {
                log: "begin 0\nstart 0 socket 0 at 0\nwait 250 faulted at 0\nclose 0\nsocket-fault\n",
                code: 8,
            },
            Ending {
                log: "begin 0\nstart 0 socket 0 at 0\nwait 250 broke 0 refused at 100\nclose 0\nstart 1 refused other at 100\nestablishment-error all-failed\n",
                code: 4,
            },
            Ending {
                log: "begin 0\nstart 0 socket 0 at 0\nwait 250 broke 0 refused at 100\nclose 0\nstart 1 socket 1 at 100\nwait 30000 faulted at 100\nclose 1\nsocket-fault\n",
                code: 8,
            },
            Ending {
                log: "begin 0\nstart 0 socket 0 at 0\nwait 250 broke 0 refused at 100\nclose 0\nstart 1 socket 1 at 100\nwait 30000 completed 1 at 100\nready 1\nclose 1\nsent 0 0\ndone\n",
                code: 0,
            },
        ],
    },
    // Three leaves at once. Where one is refused, those behind it have smaller sockets.
    Row {
        file: b"[[remote]]\naddress = \"127.0.0.1:9000\"\n[[remote]]\naddress = \"127.0.0.2:9000\"\n[[remote]]\naddress = \"127.0.0.3:9000\"\n[race]\nmode = \"simultaneous\"\n",
        plan: "leaves 3\n0 any tcp 127.0.0.1:9000 +0\n1 any tcp 127.0.0.2:9000 +0\n2 any tcp 127.0.0.3:9000 +0\n",
        net: Net::Script(b"leaf 1 completes 40\nleaf 2 completes 40\n"),
        endings: &[
            Ending {
                log: "begin 0\nstart 0 refused other at 0\nstart 1 socket 0 at 0\nstart 2 socket 1 at 0\nwait 30000 completed 0 at 40\nclose 1\nready 1\nclose 0\nsent 0 0\ndone\n",
                code: 0,
            },
            Ending {
                log: "begin 0\nstart 0 socket 0 at 0\nstart 1 refused other at 0\nstart 2 socket 1 at 0\nwait 30000 completed 1 at 40\nclose 0\nready 2\nclose 1\nsent 0 0\ndone\n",
                code: 0,
            },
            Ending {
                log: "begin 0\nstart 0 socket 0 at 0\nstart 1 socket 1 at 0\nstart 2 refused other at 0\nwait 30000 completed 1 at 40\nclose 0\nready 1\nclose 1\nsent 0 0\ndone\n",
                code: 0,
            },
            Ending {
                log: "begin 0\nstart 0 socket 0 at 0\nstart 1 socket 1 at 0\nstart 2 socket 2 at 0\nwait 30000 faulted at 0\nclose 0\nclose 1\nclose 2\nsocket-fault\n",
                code: 8,
            },
            Ending {
                log: "begin 0\nstart 0 socket 0 at 0\nstart 1 socket 1 at 0\nstart 2 socket 2 at 0\nwait 30000 completed 1 at 40\nclose 0\nclose 2\nready 1\nclose 1\nsent 0 0\ndone\n",
                code: 0,
            },
        ],
    },
    // Nothing answers, and the application gives up.
    Row {
        file: b"[[remote]]\naddress = \"127.0.0.1:9000\"\n[race]\ntimeout_ms = 100\ncancel_ms = 100\n",
        plan: PLAN,
        net: Net::Script(b""),
        endings: &[
            Ending {
                log: "begin 0\nstart 0 refused other at 0\nestablishment-error all-failed\n",
                code: 4,
            },
            Ending {
                log: "begin 0\nstart 0 socket 0 at 0\nwait 100 faulted at 0\nclose 0\nsocket-fault\n",
                code: 8,
            },
            Ending {
                log: "begin 0\nstart 0 socket 0 at 0\nwait 100 reached 100\nclose 0\nclosed\n",
                code: 10,
            },
        ],
    },
];

#[test]
fn races_whose_calls_fail(rt: HostRuntime) -> Result<(), Fail> {
    for row in &RACES {
        fails_in_turn(&rt, rt.alloc(), row)?;
    }
    Ok(())
}
