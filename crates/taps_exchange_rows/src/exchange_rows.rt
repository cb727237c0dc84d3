ghost use Rattle.std.specs.Prelude.{◌≡◌, [], length};
ghost use Rattle.taps_socket.specs.RaceSockets.{pending_sockets};

use std::alloc::Global;
use std::process::Abort;
use std::test::Fail;
use taps_base::{Body, NoMemory};
use taps_chain::{BadAt, Chain};
use taps_connection_rows::meet;
use taps_exchange::{Exchanged, Outcome, exchange_over};
use taps_framer::Framer;
use taps_frames::Len16;
use taps_message::Message;
use taps_property::{Capacity, ConnectionProps, MessageProps};
use taps_script::ScriptSockets;
use taps_socket::{Cause, Item, Sockets};
use taps_stack::Stack;

// A message of so many bytes 7, with a lifetime in milliseconds, and final or not.
type Sent = (usize, Option<u64>, bool);

// An exchange that begins at 0, and what comes of it: how many messages were sent whole, and the lengths of those that
// were heard.
#[derive(Clone, Copy)]
struct Row {
    script: &'static [u8],
    stack: Stack,
    layered: bool,
    messages: &'static [Sent],
    needs: u64,
    until: u64,
    outcome: Outcome,
    sent: u64,
    heard: &'static [usize],
}

static ROWS: [Row; 14] = [
    Row {
        script: b"leaf 0 completes 0\npeer echo",
        stack: Stack::Tcp,
        layered: true,
        messages: &[(3, None, false), (0, None, false), (300, None, false)],
        needs: 2,
        until: 50,
        outcome: Outcome::Done,
        sent: 3,
        heard: &[3, 0],
    },
    // Nothing is to be sent and nothing heard.
    Row {
        script: b"leaf 0 completes 0",
        stack: Stack::Tcp,
        layered: true,
        messages: &[],
        needs: 0,
        until: 50,
        outcome: Outcome::Done,
        sent: 0,
        heard: &[],
    },
    // A message behind a final one is not accepted.
    Row {
        script: b"leaf 0 completes 0\npeer sends 5 00010a0002\npeer sends 9 0b0c\npeer ends 10",
        stack: Stack::Tcp,
        layered: true,
        messages: &[(1, None, true), (1, None, false)],
        needs: 2,
        until: 50,
        outcome: Outcome::Done,
        sent: 1,
        heard: &[1, 2],
    },
    Row {
        script: b"leaf 0 completes 0\npeer echo",
        stack: Stack::Udp,
        layered: false,
        messages: &[(3, None, false), (1, None, true)],
        needs: 2,
        until: 50,
        outcome: Outcome::Done,
        sent: 2,
        heard: &[3, 1],
    },
    // The first that expired is told, and what comes is heard still.
    Row {
        script: b"leaf 0 completes 0\npeer holds 60\npeer sends 70 000107",
        stack: Stack::Tcp,
        layered: true,
        messages: &[
            (3, Some(50), false),
            (3, Some(60), false),
            (3, Some(61), false),
            (3, Some(10), false),
        ],
        needs: 1,
        until: 99,
        outcome: Outcome::Expired {
            member: 0,
            number: 1,
        },
        sent: 2,
        heard: &[1],
    },
    // The deadline passes while a message is sent, or before enough was heard.
    Row {
        script: b"leaf 0 completes 0\npeer holds 51\npeer sends 1 000107",
        stack: Stack::Tcp,
        layered: true,
        messages: &[(3, None, false)],
        needs: 1,
        until: 50,
        outcome: Outcome::Timed,
        sent: 0,
        heard: &[],
    },
    Row {
        script: b"leaf 0 completes 0\npeer sends 1 000107\npeer sends 51 000107",
        stack: Stack::Tcp,
        layered: true,
        messages: &[(3, None, false)],
        needs: 2,
        until: 50,
        outcome: Outcome::Timed,
        sent: 1,
        heard: &[1],
    },
    Row {
        script: b"leaf 0 completes 0\npeer fails 0 reset",
        stack: Stack::Tcp,
        layered: true,
        messages: &[(3, None, false)],
        needs: 1,
        until: 50,
        outcome: Outcome::DataFailed(Cause::Reset),
        sent: 0,
        heard: &[],
    },
    Row {
        script: b"leaf 0 completes 0\npeer sends 1 00010700\npeer fails 5 unreachable",
        stack: Stack::Tcp,
        layered: true,
        messages: &[(3, None, false)],
        needs: 2,
        until: 50,
        outcome: Outcome::DataFailed(Cause::Unreachable),
        sent: 1,
        heard: &[1],
    },
    Row {
        script: b"leaf 0 completes 0\npeer sends 1 000107000207\npeer ends 5",
        stack: Stack::Tcp,
        layered: true,
        messages: &[],
        needs: 2,
        until: 50,
        outcome: Outcome::PeerEnded,
        sent: 0,
        heard: &[1],
    },
    // With no layer the stream is one message, which is heard when it has ended.
    Row {
        script: b"leaf 0 completes 0\npeer sends 1 0707\npeer ends 5",
        stack: Stack::Tcp,
        layered: false,
        messages: &[(3, None, false)],
        needs: 1,
        until: 50,
        outcome: Outcome::Done,
        sent: 1,
        heard: &[2],
    },
    Row {
        script: b"leaf 0 completes 0\npeer sends 1 000107\npeer sends 2 0005",
        stack: Stack::Udp,
        layered: true,
        messages: &[],
        needs: 2,
        until: 50,
        outcome: Outcome::BadFrame(BadAt {
            message: 1,
            layer: 0,
            place: 2,
        }),
        sent: 0,
        heard: &[1],
    },
    // What cannot be encoded ends the exchange before anything is heard.
    Row {
        script: b"leaf 0 completes 0\npeer sends 1 07",
        stack: Stack::Udp,
        layered: false,
        messages: &[(1, None, false), (0, None, false), (1, None, false)],
        needs: 1,
        until: 50,
        outcome: Outcome::NotSpeakable {
            member: 0,
            number: 1,
            layer: 0,
        },
        sent: 1,
        heard: &[],
    },
    Row {
        script: b"leaf 0 completes 0\npeer sends 1 07",
        stack: Stack::Tcp,
        layered: false,
        messages: &[(1, None, false), (1, None, false)],
        needs: 0,
        until: 50,
        outcome: Outcome::NotSpeakable {
            member: 0,
            number: 1,
            layer: 0,
        },
        sent: 1,
        heard: &[],
    },
];

fn make_messages(alloc: Global, listed: &[Sent]) -> Result<Vec<Message>, NoMemory> {
    let mut messages = Vec::new(alloc);
    for (length, lifetime, is_final) in listed {
        let bytes = vec![in alloc; 7; *length]?;
        messages.push(Message {
            body: Body::from_vec(bytes),
            props: MessageProps {
                msg_lifetime: *lifetime,
                is_final: *is_final,
                ..MessageProps::defaults(true, true, Capacity::Default, false)
            },
        })?;
    }
    Ok(messages)
}

// The exchange of a row over sockets.
fn exchange<N: Sockets, R: Abort>(
    rt: &R,
    alloc: Global,
    shelf: &Vec<Box<dyn Framer>>,
    row: &Row,
    net: &mut N,
) -> Result<Exchanged, NoMemory>
    requires shelf { length shelf.now.items ≡ 1 }
    requires idle { pending_sockets (N.net net.old).trace ≡ [] }
{
    let until = row.until;
    assert!(rt; until < 9223372036854775808);
    let places: &[usize] = if row.layered { &[0] } else { &[] };
    let chain = Chain::new(alloc, shelf, places)?;
    let messages = make_messages(alloc, row.messages)?;
    let props = ConnectionProps::defaults();
    let Some(socket) = meet(alloc, row.stack, net)? else {
        assert!(rt; false);
        return Err(NoMemory);
    };
    net.reserve(3)?;
    exchange_over(
        alloc, socket, row.stack, chain, props, 4096, messages, 0, row.needs, until, net,
    )
}

fn is_as_long(body: &Body, length: usize) -> bool {
    body.bytes().len() == length
}

fn compare(rt: &impl Abort, exchanged: &Exchanged, row: &Row) {
    assert_eq!(rt; exchanged.outcome, row.outcome);
    assert_eq!(rt; exchanged.sent, row.sent);
    assert_eq!(rt; exchanged.heard.len(), row.heard.len());
    for (body, length) in exchanged.heard.iter().zip(row.heard) {
        assert!(rt; is_as_long(body, *length));
    }
}

fn count_closes(items: &[Item]) -> usize {
    items
        .iter()
        .filter(|item| matches!(item, Item::Closed { .. }))
        .count()
}

fn take_row(
    rt: &impl Abort,
    alloc: Global,
    shelf: &Vec<Box<dyn Framer>>,
    row: &Row,
) -> Result<(), NoMemory>
    requires { length shelf.now.items ≡ 1 }
{
    let Ok(mut net) = ScriptSockets::read(alloc, row.script) else {
        assert!(rt; false);
        return Ok(());
    };
    let exchanged = exchange(rt, alloc, shelf, row, &mut net)?;
    compare(rt, &exchanged, row);
    assert_eq!(rt; count_closes(net.items()), 1);
    Ok(())
}

#[test]
fn an_exchange_comes_to_each_outcome(rt: HostRuntime) -> Result<(), Fail> {
    let mut shelf: Vec<Box<dyn Framer>> = Vec::new(rt.alloc());
    shelf.push(Box::new(rt.alloc(), Len16)?)?;
    assert_eq!(rt; shelf.len(), 1);
    for row in &ROWS {
        take_row(&rt, rt.alloc(), &shelf, row)?;
    }
    Ok(())
}
