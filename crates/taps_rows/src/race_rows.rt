ghost use Rattle.std.specs.Prelude.{◌≡◌, ◌<◌, length};

use crate::winner_of;
use std::alloc::Global;
use std::process::Abort;
use std::test::Fail;
use taps_base::Gap;
use taps_endpoint::Address;
use taps_racer::{RaceAnswer, Racer, Unstarted, establish};
use taps_script::ScriptSockets;
use taps_socket::{Cause, How, Item, Target};
use taps_stack::Stack;

const A: Target = Target {
    stack: Stack::Tcp,
    address: Address::V4 {
        octets: [127, 0, 0, 1],
        port: 9000,
    },
};

const B: Target = Target {
    stack: Stack::Tcp,
    address: Address::V4 {
        octets: [127, 0, 0, 2],
        port: 9000,
    },
};

const C: Target = Target {
    stack: Stack::Tcp,
    address: Address::V4 {
        octets: [127, 0, 0, 3],
        port: 9000,
    },
};

/// A race over a script: its text, what the race is to answer, and the items that are to come of it.
#[derive(Clone, Copy)]
struct Row<'a> {
    script: &'a [u8],
    targets: &'a [Target],
    answer: RaceAnswer,
    items: &'a [Item],
}

fn holds<R: Abort>(
    rt: &R,
    alloc: Global,
    racer: Racer<Unstarted>,
    row: &Row<'_>,
) -> Result<(), Fail>
    requires leaves { length racer.rules.gaps ≡ length row.now.targets.now }
    requires few { length row.now.targets.now < 4 }
{
    let mut net = ScriptSockets::read(alloc, row.script)?;
    match establish(racer, 0, row.targets, &mut net) {
        Ok(ended) => assert_eq!(rt; ended.answer(), row.answer),
        Err((none, _)) => return Err(none)?,
    }
    assert_eq!(rt; net.items(), row.items);
    Ok(())
}

fn began(at: u64) -> Item {
    Item::Began { at }
}

fn started(socket: u32, target: Target, at: u64) -> Item {
    Item::Started {
        leaf: socket,
        target,
        socket,
        at,
    }
}

fn refused(leaf: u32, target: Target, cause: Cause) -> Item {
    Item::Refused {
        leaf,
        target,
        cause,
        at: 0,
    }
}

fn waited(until: u64, at: u64, how: How) -> Item {
    Item::Waited { until, at, how }
}

fn closed(socket: u32) -> Item {
    Item::Closed { socket }
}

fn ready(leaf: u32, at: u64) -> RaceAnswer {
    RaceAnswer::Ready {
        leaf,
        socket: leaf,
        at,
    }
}

#[test]
fn no_leaf_is_raced(rt: HostRuntime) -> Result<(), Fail> {
    let alloc = rt.alloc();
    let no_leaf = Row {
        script: b"",
        targets: &[],
        answer: RaceAnswer::NoCandidate,
        items: &[began(0)],
    };
    let racer = Racer::new(alloc, &[], 30000, None)?;
    holds(&rt, alloc, racer, &no_leaf)?;
    Ok(())
}

#[test]
fn one_leaf_is_raced(rt: HostRuntime) -> Result<(), Fail> {
    let alloc = rt.alloc();
    let gaps = [Gap::After(0)];
    let completed_at_the_timeout = Row {
        script: b"leaf 0 completes 250\n",
        targets: &[A],
        answer: ready(0, 250),
        items: &[
            began(0),
            started(0, A, 0),
            waited(250, 250, How::Completed(0)),
        ],
    };
    let racer = Racer::new(alloc, &gaps, 250, None)?;
    holds(&rt, alloc, racer, &completed_at_the_timeout)?;
    let cancelled = Row {
        script: b"",
        targets: &[A],
        answer: RaceAnswer::Closed,
        items: &[
            began(0),
            started(0, A, 0),
            waited(100, 100, How::Reached),
            closed(0),
        ],
    };
    let racer = Racer::new(alloc, &gaps, 100, Some(100))?;
    holds(&rt, alloc, racer, &cancelled)?;
    let timed_out = Row {
        answer: RaceAnswer::Timeout,
        ..cancelled
    };
    let racer = Racer::new(alloc, &gaps, 100, None)?;
    holds(&rt, alloc, racer, &timed_out)?;
    Ok(())
}

#[test]
fn the_clock_stands_at_its_end(rt: HostRuntime) -> Result<(), Fail> {
    let alloc = rt.alloc();
    let gaps = [Gap::After(0)];
    let end = (1 << 63) - 1;
    let faulted = Row {
        script: b"begin 9223372036854775807\n",
        targets: &[A],
        answer: RaceAnswer::SocketFault,
        items: &[
            began(end),
            started(0, A, end),
            waited(end + 30000, end, How::Faulted),
            closed(0),
        ],
    };
    let racer = Racer::new(alloc, &gaps, 30000, None)?;
    holds(&rt, alloc, racer, &faulted)?;
    let completed = Row {
        script: b"begin 9223372036854775807\nleaf 0 completes 0\n",
        targets: &[A],
        answer: ready(0, end),
        items: &[
            began(end),
            started(0, A, end),
            waited(end + 30000, end, How::Completed(0)),
        ],
    };
    let racer = Racer::new(alloc, &gaps, 30000, None)?;
    holds(&rt, alloc, racer, &completed)?;
    Ok(())
}

#[test]
fn two_leaves_are_raced(rt: HostRuntime) -> Result<(), Fail> {
    let alloc = rt.alloc();
    let gaps = [Gap::After(0), Gap::After(250)];
    let late_winner = Row {
        script: b"leaf 1 completes 60\n",
        targets: &[A, B],
        answer: ready(1, 310),
        items: &[
            began(0),
            started(0, A, 0),
            waited(250, 250, How::Reached),
            started(1, B, 250),
            waited(30000, 310, How::Completed(1)),
            closed(0),
        ],
    };
    let racer = Racer::new(alloc, &gaps, 30000, None)?;
    holds(&rt, alloc, racer, &late_winner)?;
    let break_starts_the_next = Row {
        script: b"leaf 0 breaks 100 refused\nleaf 1 completes 0\n",
        targets: &[A, B],
        answer: ready(1, 100),
        items: &[
            began(0),
            started(0, A, 0),
            waited(250, 100, How::Broke(0, Cause::Refused)),
            closed(0),
            started(1, B, 100),
            waited(30000, 100, How::Completed(1)),
        ],
    };
    let racer = Racer::new(alloc, &gaps, 30000, None)?;
    holds(&rt, alloc, racer, &break_starts_the_next)?;
    let all_refused = Row {
        script: b"leaf 0 refuses refused\nleaf 1 refuses unreachable\n",
        targets: &[A, B],
        answer: RaceAnswer::AllFailed,
        items: &[
            began(0),
            refused(0, A, Cause::Refused),
            refused(1, B, Cause::Unreachable),
        ],
    };
    let racer = Racer::new(alloc, &gaps, 30000, None)?;
    holds(&rt, alloc, racer, &all_refused)?;
    Ok(())
}

#[test]
fn leaves_are_raced_at_once(rt: HostRuntime) -> Result<(), Fail> {
    let alloc = rt.alloc();
    let faulted = Row {
        script: b"fault 0\n",
        targets: &[A, B],
        answer: RaceAnswer::SocketFault,
        items: &[
            began(0),
            started(0, A, 0),
            started(1, B, 0),
            waited(30000, 0, How::Faulted),
            closed(0),
            closed(1),
        ],
    };
    let gaps = [Gap::After(0), Gap::After(0)];
    let racer = Racer::new(alloc, &gaps, 30000, None)?;
    holds(&rt, alloc, racer, &faulted)?;
    let tie = Row {
        script: b"leaf 1 completes 40\nleaf 2 completes 40\n",
        targets: &[A, B, C],
        answer: ready(1, 40),
        items: &[
            began(0),
            started(0, A, 0),
            started(1, B, 0),
            started(2, C, 0),
            waited(30000, 40, How::Completed(1)),
            closed(0),
            closed(2),
        ],
    };
    let gaps = [Gap::After(0), Gap::After(0), Gap::After(0)];
    let racer = Racer::new(alloc, &gaps, 30000, None)?;
    holds(&rt, alloc, racer, &tie)?;
    Ok(())
}

#[test]
fn waits_end_late(rt: HostRuntime) -> Result<(), Fail> {
    let alloc = rt.alloc();
    let late = Row {
        script: b"late 900\nleaf 2 completes 0\n",
        targets: &[A, B, C],
        answer: ready(2, 2300),
        items: &[
            began(0),
            started(0, A, 0),
            waited(250, 1150, How::Reached),
            started(1, B, 1150),
            waited(1400, 2300, How::Reached),
            started(2, C, 2300),
            waited(30000, 2300, How::Completed(2)),
            closed(0),
            closed(1),
        ],
    };
    let gaps = [Gap::After(0), Gap::After(250), Gap::After(250)];
    let racer = Racer::new(alloc, &gaps, 30000, None)?;
    holds(&rt, alloc, racer, &late)?;
    Ok(())
}

#[test]
fn any_sockets_give_a_winner(rt: HostRuntime) -> Result<(), Fail> {
    let alloc = rt.alloc();
    let mut net = ScriptSockets::read(alloc, b"leaf 1 completes 60\n")?;
    let racer = Racer::new(alloc, &[Gap::After(0), Gap::After(250)], 30000, None)?;
    assert_eq!(rt; winner_of(racer, &[A, B], &mut net)?, Some((B, 1)));
    Ok(())
}
