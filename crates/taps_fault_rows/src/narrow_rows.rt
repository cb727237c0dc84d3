// Both ends over rings of one byte, each of whose calls fails in turn.
use crate::loop_rows::{
    BOTH_ENDS, BOTH_HEARD, FIRST_NOT_HEARD, FIRST_NOT_SENT, NOT_ACCEPTED, NOT_COMPLETED,
    NOT_LISTENING, NOT_STARTED, SECOND_NOT_HEARD, SECOND_NOT_SENT,
};
use crate::row::{Ending, Net, PLAN, Row, fails_in_turn};
use std::test::Fail;

// A receive before the first message is out.
const FIRST_NOT_READ: Ending<'static> = Ending {
    log: "listen 0 127.0.0.1:9000 at 0\nbegin 0\nstart 0 socket 1 at 0\nwait 30000 completed 1 at 0\nready 0\naccept 2 from 0 at 0\nfailed 2 other\nclose 1\nclose 2\nclose 0\nsent 0 0\nsent 1 0\ndata-failed other\n",
    code: 5,
};

// The same of the second one.
const SECOND_NOT_READ: Ending<'static> = Ending {
    log: "listen 0 127.0.0.1:9000 at 0\nbegin 0\nstart 0 socket 1 at 0\nwait 30000 completed 1 at 0\nready 0\naccept 2 from 0 at 0\nfailed 2 other\nclose 1\nclose 2\nclose 0\nsent 0 1\nsent 1 0\nreceived 1 0 61\ndata-failed other\n",
    code: 5,
};

// A message of three bytes goes out in three turns: a byte is sent, and a second one finds no room, but in the last turn. In
// between the other end receives one byte.
static NARROW: Row<'static> = Row {
    file: BOTH_ENDS,
    plan: PLAN,
    net: Net::Memory { pairs: 1, ring: 1 },
    endings: &[
        NOT_LISTENING,
        NOT_STARTED,
        NOT_COMPLETED,
        NOT_ACCEPTED,
        FIRST_NOT_SENT,
        FIRST_NOT_SENT,
        FIRST_NOT_READ,
        FIRST_NOT_SENT,
        FIRST_NOT_SENT,
        FIRST_NOT_READ,
        FIRST_NOT_SENT,
        FIRST_NOT_HEARD,
        SECOND_NOT_SENT,
        SECOND_NOT_SENT,
        SECOND_NOT_READ,
        SECOND_NOT_SENT,
        SECOND_NOT_SENT,
        SECOND_NOT_READ,
        SECOND_NOT_SENT,
        SECOND_NOT_HEARD,
        BOTH_HEARD,
    ],
};

#[test]
fn both_ends_by_single_bytes_whose_calls_fail(rt: HostRuntime) -> Result<(), Fail> {
    fails_in_turn(&rt, rt.alloc(), &NARROW)
}
