ghost use Rattle.std.specs.Prelude.{◌≡◌, ◌≤◌, ℕ, Some};

use std::alloc::Global;
use std::test::Fail;
use taps_base::Body;
use taps_endpoint::Address;
use taps_socket::{How, Item, RaceAnswer, Target};
use taps_stack::Stack;
use taps_text::{Log, MemberLog, Outcome, put_log};

const TARGET: Target = Target {
    stack: Stack::Tcp,
    address: Address::V4 {
        octets: [127, 0, 0, 1],
        port: 9000,
    },
};

// The race of two leaves of which the second is faster.
const RACE: [Item; 6] = [
    Item::Began { at: 0 },
    Item::Started {
        leaf: 0,
        target: TARGET,
        socket: 0,
        at: 0,
    },
    Item::Waited {
        until: 250,
        at: 250,
        how: How::Reached,
    },
    Item::Started {
        leaf: 1,
        target: TARGET,
        socket: 1,
        at: 250,
    },
    Item::Waited {
        until: 30_000,
        at: 310,
        how: How::Completed(1),
    },
    Item::Closed { socket: 0 },
];

const READY: RaceAnswer = RaceAnswer::Ready {
    leaf: 1,
    socket: 1,
    at: 310,
};

const READY_LOG: &str =
    "begin 0\nstart 0 socket 0 at 0\nwait 250 reached 250\nstart 1 socket 1 at 250\nwait 30000 completed 1 at 310\nclose 0\nready 1\nclose 1\nsent 0 0\ndone\n";

fn is_text(alloc: Global, log: &Log<'_>, wanted: &str) -> Result<bool, Fail>
    requires { (most : ℕ) → log.now.part ≡ Some most → 1 ≤ most }
{
    let mut text = Vec::new(alloc);
    put_log(&mut text, log)?;
    Ok(text.as_slice() == wanted.as_bytes())
}

// The log of a session of one member that ended so is this text.
fn is_logged(
    alloc: Global,
    before: &[Item],
    answer: RaceAnswer,
    outcome: Outcome,
    wanted: &str,
) -> Result<bool, Fail> {
    let after = [Item::Closed { socket: 1 }];
    let mut members = Vec::new(alloc);
    members.push(MemberLog {
        sent: 0,
        heard: Vec::new(alloc),
    })?;
    let log = Log {
        before,
        answer: Some(answer),
        after: &after,
        members: &members,
        part: None,
        outcome,
    };
    is_text(alloc, &log, wanted)
}

#[test]
fn a_ready_log_ends_with_its_outcome(rt: HostRuntime) -> Result<(), Fail> {
    let race = RACE;
    assert!(rt; is_logged(rt.alloc(), &race, READY, Outcome::Done, READY_LOG)?);
    Ok(())
}

#[test]
fn a_log_of_no_items(rt: HostRuntime) -> Result<(), Fail> {
    let wanted = "ready 1\nclose 1\nsent 0 0\ntimed\n";
    assert!(rt; is_logged(rt.alloc(), &[], READY, Outcome::Timed, wanted)?);
    Ok(())
}

#[test]
fn any_other_log_ends_with_its_answer(rt: HostRuntime) -> Result<(), Fail> {
    let race = [Item::Began { at: 0 }];
    let closed = RaceAnswer::Closed;
    assert!(rt;
        is_logged(
            rt.alloc(),
            &race,
            closed,
            Outcome::Done,
            "begin 0\nclosed\n"
        )?
    );
    Ok(())
}

// What two members sent and heard, in parts of two bytes, without a race.
const HEARD_LOG: &str =
    "close 1\nsent 0 2\npart 0 0 6162\nreceived 0 0 63\nreceived 0 1 -\nsent 1 0\nexpired 0 1\n";

fn heard(alloc: Global) -> Result<Vec<Body>, Fail> {
    let mut heard = Vec::new(alloc);
    heard.push(Body::from_slice(alloc, b"abc")?)?;
    heard.push(Body::from_slice(alloc, b"")?)?;
    Ok(heard)
}

#[test]
fn a_log_of_what_was_heard(rt: HostRuntime) -> Result<(), Fail> {
    let mut members = Vec::new(rt.alloc());
    members.push(MemberLog {
        sent: 2,
        heard: heard(rt.alloc())?,
    })?;
    members.push(MemberLog {
        sent: 0,
        heard: Vec::new(rt.alloc()),
    })?;
    let log = Log {
        before: &[],
        answer: None,
        after: &[Item::Closed { socket: 1 }],
        members: &members,
        part: Some(2),
        outcome: Outcome::Expired {
            member: 0,
            number: 1,
        },
    };
    assert!(rt; is_text(rt.alloc(), &log, HEARD_LOG)?);
    Ok(())
}
