// Both ends over sockets that are given to them, so that what the accepted end hears is not what the other one sends.
use crate::direct::{Came, Peers, Row, Seen, take_row};
use std::test::Fail;
use taps_exchange::Outcome;
use taps_framer::Framer;
use taps_frames::Len16;
use taps_socket::Cause;

// The accept, and the closes behind the exchange.
const APART: [Seen; 4] = [
    Seen::Accepted(3),
    Seen::Closed(2),
    Seen::Closed(3),
    Seen::Closed(0),
];

// The same where the accepted end saw the end of its stream.
const ENDED: [Seen; 5] = [
    Seen::Accepted(3),
    Seen::Ended(3),
    Seen::Closed(2),
    Seen::Closed(3),
    Seen::Closed(0),
];

static ROWS: [Row; 15] = [
    // The deadline passes in turns of member 1, to whom nobody writes: three of them, of a millisecond each.
    Row {
        peers: Peers::Apart(b""),
        faults: &[],
        ring: 4,
        messages: &[b"a"],
        deadline_ms: 3,
        came: Came::Exchanged(Outcome::Timed, 1, &[]),
        seen: &APART,
        told: 8,
    },
    // The same behind a message that was heard.
    Row {
        peers: Peers::Apart(b"\x00\x01z"),
        faults: &[],
        ring: 7,
        messages: &[b"a", b"b"],
        deadline_ms: 3,
        came: Came::Exchanged(Outcome::Timed, 2, &[b"z"]),
        seen: &APART,
        told: 8,
    },
    // It passes in a turn of member 1, but ends the exchange in the next one of member 0, whose message is begun.
    Row {
        peers: Peers::Apart(b""),
        faults: &[],
        ring: 1,
        messages: &[b"a"],
        deadline_ms: 3,
        came: Came::Exchanged(Outcome::Timed, 0, &[]),
        seen: &APART,
        told: 8,
    },
    // The same behind a message that was sent.
    Row {
        peers: Peers::Apart(b""),
        faults: &[],
        ring: 4,
        messages: &[b"a", b"b"],
        deadline_ms: 3,
        came: Came::Exchanged(Outcome::Timed, 1, &[]),
        seen: &APART,
        told: 8,
    },
    // It passes in a turn of member 1 while a message waits, and member 0 has its turn still: the message is sent.
    Row {
        peers: Peers::Apart(b""),
        faults: &[],
        ring: 7,
        messages: &[b"a", b"b"],
        deadline_ms: 1,
        came: Came::Exchanged(Outcome::Timed, 2, &[]),
        seen: &APART,
        told: 6,
    },
    // It passes in turns of member 0, since member 1 needs no more.
    Row {
        peers: Peers::Apart(b"\x00\x01z"),
        faults: &[],
        ring: 4,
        messages: &[b"abc"],
        deadline_ms: 3,
        came: Came::Exchanged(Outcome::Timed, 0, &[b"z"]),
        seen: &APART,
        told: 8,
    },
    // Where it has passed at the beginning, each has one turn.
    Row {
        peers: Peers::Apart(b""),
        faults: &[],
        ring: 4,
        messages: &[b"a"],
        deadline_ms: 0,
        came: Came::Exchanged(Outcome::Timed, 1, &[]),
        seen: &APART,
        told: 5,
    },
    // What is heard is what came, and no time passes.
    Row {
        peers: Peers::Apart(b"\x00\x01z"),
        faults: &[],
        ring: 4,
        messages: &[b"a"],
        deadline_ms: u64::MAX,
        came: Came::Exchanged(Outcome::Done, 1, &[b"z"]),
        seen: &APART,
        told: 5,
    },
    // The other end of member 0's connection is closed.
    Row {
        peers: Peers::Gone,
        faults: &[],
        ring: 4,
        messages: &[b"a"],
        deadline_ms: 3,
        came: Came::Exchanged(Outcome::DataFailed(Cause::Reset), 0, &[]),
        seen: &[
            Seen::Accepted(4),
            Seen::Reset(1),
            Seen::Closed(1),
            Seen::Closed(4),
            Seen::Closed(0),
        ],
        told: 5,
    },
    // Without a message nothing is sent on it.
    Row {
        peers: Peers::Gone,
        faults: &[],
        ring: 4,
        messages: &[],
        deadline_ms: 3,
        came: Came::Exchanged(Outcome::Done, 0, &[]),
        seen: &[
            Seen::Accepted(4),
            Seen::Closed(1),
            Seen::Closed(4),
            Seen::Closed(0),
        ],
        told: 5,
    },
    // The other end of member 1's connection was closed: before it wrote, behind a message and the beginning of
    // another, and behind as many messages as are needed.
    Row {
        peers: Peers::ApartClosed(b""),
        faults: &[],
        ring: 4,
        messages: &[b"a"],
        deadline_ms: 3,
        came: Came::Exchanged(Outcome::PeerEnded, 1, &[]),
        seen: &ENDED,
        told: 5,
    },
    Row {
        peers: Peers::ApartClosed(b"\x00\x01z\x00"),
        faults: &[],
        ring: 7,
        messages: &[b"a", b"b"],
        deadline_ms: 3,
        came: Came::Exchanged(Outcome::PeerEnded, 2, &[b"z"]),
        seen: &ENDED,
        told: 5,
    },
    Row {
        peers: Peers::ApartClosed(b"\x00\x01z"),
        faults: &[],
        ring: 4,
        messages: &[b"a"],
        deadline_ms: 3,
        came: Came::Exchanged(Outcome::Done, 1, &[b"z"]),
        seen: &APART,
        told: 5,
    },
    // No connection comes before the deadline.
    Row {
        peers: Peers::Alone,
        faults: &[],
        ring: 4,
        messages: &[b"a"],
        deadline_ms: 3,
        came: Came::Timed,
        seen: &[Seen::Closed(1), Seen::Closed(0)],
        told: 8,
    },
    // The accept is faulted.
    Row {
        peers: Peers::Apart(b""),
        faults: &[3],
        ring: 4,
        messages: &[b"a"],
        deadline_ms: 3,
        came: Came::Faulted,
        seen: &[Seen::Faulted, Seen::Closed(2), Seen::Closed(0)],
        told: 5,
    },
];

#[test]
fn both_ends_over_sockets_that_are_given(rt: HostRuntime) -> Result<(), Fail> {
    let mut shelf: Vec<Box<dyn Framer>> = Vec::new(rt.alloc());
    shelf.push(Box::new(rt.alloc(), Len16)?)?;
    assert_eq!(rt; shelf.len(), 1);
    for row in &ROWS {
        take_row(&rt, rt.alloc(), &shelf, row)?;
    }
    Ok(())
}
