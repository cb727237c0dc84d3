use crate::{read_answer, read_item, read_outcome, read_part, read_received, read_sent};
use taps_endpoint::Address;
use taps_log::Line;
use taps_socket::{Cause, How, Item, RaceAnswer, Target};
use taps_stack::Stack;
use taps_text::Outcome;

const HERE: Target = Target {
    stack: Stack::Tcp,
    address: Address::V4 {
        octets: [127, 0, 0, 1],
        port: 80,
    },
};

// Items, and the line of each.
const ITEMS: [(Item, &[u8]); 4] = [
    (
        Item::Started {
            leaf: 1,
            target: HERE,
            socket: 0,
            at: 7,
        },
        b"start 1 socket 0 at 7\n",
    ),
    (
        Item::Waited {
            until: 250,
            at: 9,
            how: How::Broke(0, Cause::Reset),
        },
        b"wait 250 broke 0 reset at 9\n",
    ),
    (
        Item::Listening {
            target: HERE,
            socket: 3,
            at: 10,
        },
        b"listen 3 127.0.0.1:80 at 10\n",
    ),
    (
        Item::Accepted {
            listener: 3,
            socket: 4,
            at: 12,
        },
        b"accept 4 from 3 at 12\n",
    ),
];

fn is_read(text: &mut Vec<u8>, item: &Item, wanted: &[u8]) -> bool {
    match read_item(text, item) {
        Ok(Some(_)) => text.as_slice() == wanted,
        _ => false,
    }
}

#[test]
fn reads_items(rt: HostRuntime) {
    let mut text = Vec::new(rt.alloc());
    let items = ITEMS;
    for (item, wanted) in &items {
        assert!(rt; is_read(&mut text, item, wanted));
    }
}

fn says_the_rest(text: &mut Vec<u8>) -> bool {
    let ready = RaceAnswer::Ready {
        leaf: 2,
        socket: 0,
        at: 5,
    };
    matches!(read_answer(text, ready), Ok(Some(Line::Ready(2))))
        && matches!(
            read_outcome(text, Outcome::CloneLimit(4)),
            Ok(Some(Line::CloneLimit(4)))
        )
        && matches!(
            read_sent(text, 0, 3),
            Ok(Some(Line::Sent {
                member: 0,
                count: 3
            }))
        )
        && matches!(
            read_received(text, 0, 1, b""),
            Ok(Some(Line::Received { hex: b"-", .. }))
        )
        && matches!(
            read_part(text, 0, 1, b"ab"),
            Ok(Some(Line::Part { hex: b"6162", .. }))
        )
}

#[test]
fn reads_the_rest(rt: HostRuntime) {
    let mut text = Vec::new(rt.alloc());
    assert!(rt; says_the_rest(&mut text));
}
