use std::alloc::Global;
use std::test::Fail;
use taps_base::NoMemory;
use taps_endpoint::Address;
use taps_socket::{Cause, How, Item, RaceAnswer, Target};
use taps_stack::Stack;
use taps_text::{
    Outcome, put_answer, put_frame, put_item, put_message, put_outcome, put_part, put_received,
    put_rest, put_sent,
};

// The end that an item names.
#[derive(Clone, Copy)]
enum End {
    Four,
    Six,
}

// What an item tells, with the end that it names.
#[derive(Clone, Copy)]
enum Told {
    Began(u64),
    Started(u32, End, u32, u64),
    Refused(u32, End, Cause, u64),
    Waited(u64, u64, How),
    Closed(u32),
    Listening(End, u32, u64),
    NotListening(End, Cause, u64),
    Accepted(u32, u32, u64),
    Faulted(u64),
    Shut(u32),
    Ended(u32),
    DataFailed(u32, bool, Cause),
}

// What a line says.
#[derive(Clone, Copy)]
enum Said {
    Told(Told),
    Answer(RaceAnswer),
    Outcome(Outcome),
    Sent(u64, u64),
    Received(u64, u64, &'static [u8]),
    Part(u64, u64, &'static [u8]),
    Message(u64, &'static [u8]),
    Rest(u64),
    Frame(&'static [u8]),
}

const FOUR: Target = Target {
    stack: Stack::Tcp,
    address: Address::V4 {
        octets: [127, 0, 0, 1],
        port: 9000,
    },
};

const SIX: Target = Target {
    stack: Stack::Tcp,
    address: Address::V6 {
        fields: [0x2001, 0xdb8, 0, 0, 1, 0, 0, 1],
        port: 9,
    },
};

// What is said, each with its line.
static LINES: [(Said, &str); 49] = [
    (Said::Told(Told::Began(0)), "begin 0\n"),
    (
        Said::Told(Told::Began(9_223_372_036_854_775_807)),
        "begin 9223372036854775807\n",
    ),
    (
        Said::Told(Told::Started(1, End::Four, 2, 30)),
        "start 1 socket 2 at 30\n",
    ),
    (
        Said::Told(Told::Refused(511, End::Six, Cause::Unreachable, 250)),
        "start 511 refused unreachable at 250\n",
    ),
    (
        Said::Told(Told::Refused(0, End::Four, Cause::Refused, 0)),
        "start 0 refused refused at 0\n",
    ),
    (
        Said::Told(Told::Waited(250, 1150, How::Reached)),
        "wait 250 reached 1150\n",
    ),
    (
        Said::Told(Told::Waited(30_000, 310, How::Completed(1))),
        "wait 30000 completed 1 at 310\n",
    ),
    (
        Said::Told(Told::Waited(250, 100, How::Broke(4_294_967_295, Cause::Reset))),
        "wait 250 broke 4294967295 reset at 100\n",
    ),
    (
        Said::Told(Told::Waited(9_223_372_036_854_805_807, 7, How::Faulted)),
        "wait 9223372036854805807 faulted at 7\n",
    ),
    (Said::Told(Told::Closed(3)), "close 3\n"),
    (
        Said::Told(Told::Listening(End::Four, 0, 5)),
        "listen 0 127.0.0.1:9000 at 5\n",
    ),
    (
        Said::Told(Told::Listening(End::Six, 6, 0)),
        "listen 6 [2001:db8::1:0:0:1]:9 at 0\n",
    ),
    (
        Said::Told(Told::NotListening(End::Four, Cause::Memory, 8)),
        "listen refused memory at 8\n",
    ),
    (
        Said::Told(Told::Accepted(0, 2, 9)),
        "accept 2 from 0 at 9\n",
    ),
    (Said::Told(Told::Faulted(10)), "faulted at 10\n"),
    (Said::Told(Told::Shut(11)), "shut 11\n"),
    (Said::Told(Told::Ended(12)), "ended 12\n"),
    (
        Said::Told(Told::DataFailed(13, true, Cause::Other)),
        "failed 13 other\n",
    ),
    (
        Said::Told(Told::DataFailed(14, false, Cause::Reset)),
        "failed 14 reset\n",
    ),
    (
        Said::Answer(RaceAnswer::Ready {
            leaf: 1,
            socket: 2,
            at: 3,
        }),
        "ready 1\n",
    ),
    (
        Said::Answer(RaceAnswer::NoCandidate),
        "establishment-error no-candidate\n",
    ),
    (
        Said::Answer(RaceAnswer::AllFailed),
        "establishment-error all-failed\n",
    ),
    (
        Said::Answer(RaceAnswer::Timeout),
        "establishment-error timeout\n",
    ),
    (Said::Answer(RaceAnswer::Closed), "closed\n"),
    (Said::Answer(RaceAnswer::SocketFault), "socket-fault\n"),
    (Said::Outcome(Outcome::Done), "done\n"),
    (Said::Outcome(Outcome::Timed), "timed\n"),
    (
        Said::Outcome(Outcome::DataFailed(Cause::Refused)),
        "data-failed refused\n",
    ),
    (Said::Outcome(Outcome::PeerEnded), "peer-ended\n"),
    (
        Said::Outcome(Outcome::BadFrame {
            message: 2,
            layer: 1,
            place: 65_535,
        }),
        "bad-frame 2 1 65535\n",
    ),
    (
        Said::Outcome(Outcome::NotSpeakable {
            member: 0,
            number: 255,
            layer: 7,
        }),
        "not-speakable 0 255 7\n",
    ),
    (
        Said::Outcome(Outcome::Expired {
            member: 0,
            number: 1,
        }),
        "expired 0 1\n",
    ),
    (
        Said::Outcome(Outcome::CloneLimit(16)),
        "clone-error limit-reached 16\n",
    ),
    (
        Said::Outcome(Outcome::CloneAllFailed),
        "clone-error all-failed\n",
    ),
    (
        Said::Outcome(Outcome::CloneTimeout),
        "clone-error timeout\n",
    ),
    (Said::Outcome(Outcome::SocketFault), "socket-fault\n"),
    (Said::Sent(0, 2), "sent 0 2\n"),
    (Said::Sent(15, 0), "sent 15 0\n"),
    (Said::Received(1, 0, b"hi"), "received 1 0 6869\n"),
    (Said::Received(0, 3, b""), "received 0 3 -\n"),
    (Said::Part(0, 10, b"\0\x0f"), "part 0 10 000f\n"),
    (Said::Message(0, b"hi"), "message 0 6869\n"),
    (Said::Message(12, b""), "message 12 -\n"),
    (Said::Rest(0), "rest 0\n"),
    (Said::Rest(4_194_304), "rest 4194304\n"),
    (Said::Frame(b"\0\x05\x32:hi,"), "0005323a68692c\n"),
    (Said::Frame(b"\x9a\xbc\xde\xff\xa0\x19"), "9abcdeffa019\n"),
    (Said::Frame(b"-"), "2d\n"),
    (Said::Frame(b""), "-\n"),
];

fn target_of(end: End) -> Target {
    match end {
        End::Four => FOUR,
        End::Six => SIX,
    }
}

fn item_of(told: Told) -> Item {
    match told {
        Told::Began(at) => Item::Began { at },
        Told::Started(leaf, end, socket, at) => Item::Started {
            leaf,
            target: target_of(end),
            socket,
            at,
        },
        Told::Refused(leaf, end, cause, at) => Item::Refused {
            leaf,
            target: target_of(end),
            cause,
            at,
        },
        Told::Waited(until, at, how) => Item::Waited { until, at, how },
        Told::Closed(socket) => Item::Closed { socket },
        Told::Listening(end, socket, at) => Item::Listening {
            target: target_of(end),
            socket,
            at,
        },
        Told::NotListening(end, cause, at) => Item::NotListening {
            target: target_of(end),
            cause,
            at,
        },
        Told::Accepted(listener, socket, at) => Item::Accepted {
            listener,
            socket,
            at,
        },
        Told::Faulted(at) => Item::Faulted { at },
        Told::Shut(socket) => Item::Shut { socket },
        Told::Ended(socket) => Item::Ended { socket },
        Told::DataFailed(socket, sending, cause) => Item::DataFailed {
            socket,
            sending,
            cause,
        },
    }
}

fn put_said(text: &mut Vec<u8>, said: &Said) -> Result<(), NoMemory> {
    match said {
        Said::Told(told) => put_item(text, &item_of(*told)),
        Said::Answer(answer) => put_answer(text, *answer),
        Said::Outcome(outcome) => put_outcome(text, *outcome),
        Said::Sent(member, count) => put_sent(text, *member, *count),
        Said::Received(member, number, body) => put_received(text, *member, *number, body),
        Said::Part(member, number, body) => put_part(text, *member, *number, body),
        Said::Message(number, body) => put_message(text, *number, body),
        Said::Rest(count) => put_rest(text, *count),
        Said::Frame(bytes) => put_frame(text, bytes),
    }
}

// The text is `before`, and the line after it.
fn follows(text: &[u8], line: &str) -> bool {
    text.strip_prefix(b"before\n".as_slice()) == Some(line.as_bytes())
}

fn is_appended(alloc: Global, said: &Said, line: &str) -> Result<bool, Fail> {
    let mut text = Vec::from_slice(alloc, b"before\n")?;
    put_said(&mut text, said)?;
    Ok(follows(&text, line))
}

#[test]
fn lines_are_appended(rt: HostRuntime) -> Result<(), Fail> {
    for (said, line) in &LINES {
        assert!(rt; is_appended(rt.alloc(), said, line)?, "{line}");
    }
    Ok(())
}
