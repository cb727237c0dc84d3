use std::process::Abort;
use std::test::Fail;
use taps_base::{Gap, List};
use taps_racer::{Command, Racer, Racing, Taken, Told, tell_all};
use taps_socket::{Cause, How, RaceAnswer};

const STAGGERED: [Gap; 2] = [Gap::After(0), Gap::After(250)];

fn started(leaf: u32, socket: u32, at: u64) -> Told {
    Told::Started { leaf, socket, at }
}

fn refused(leaf: u32, cause: Cause, at: u64) -> Told {
    Told::Refused { leaf, cause, at }
}

fn waited(until: u64, at: u64, how: How) -> Told {
    Told::Waited { until, at, how }
}

fn closed(socket: u32) -> Told {
    Told::Closed { socket }
}

fn ready(leaf: u32, socket: u32, at: u64) -> RaceAnswer {
    RaceAnswer::Ready { leaf, socket, at }
}

/// Each command is the one that is listed, each event answers it, and the answer ends the race.
fn run(rt: &impl Abort, racer: Racer<Racing>, steps: &[(Command, Told)], answer: RaceAnswer) {
    let mut racer = racer;
    for (command, event) in steps {
        assert_eq!(rt; racer.next(), *command);
        assert_eq!(rt; racer.told(*event), Taken::Used);
    }
    assert_eq!(rt; racer.next(), Command::Finish(answer));
    if let Command::Finish(_) = racer.next() {
        assert_eq!(rt; racer.finish().answer(), answer);
    }
}

#[test]
fn the_second_leaf_wins(rt: HostRuntime) -> Result<(), Fail> {
    let late_winner = [
        (Command::Start(0), started(0, 0, 0)),
        (Command::Wait(250), waited(250, 250, How::Reached)),
        (Command::Start(1), started(1, 1, 250)),
        (Command::Wait(30000), waited(30000, 310, How::Completed(1))),
        (Command::Close(0), closed(0)),
    ];
    let racer = Racer::new(rt.alloc(), &STAGGERED, 30000, None)?.begin(0);
    run(&rt, racer, &late_winner, ready(1, 1, 310));
    let break_starts_the_next = [
        (Command::Start(0), started(0, 0, 0)),
        (
            Command::Wait(250),
            waited(250, 100, How::Broke(0, Cause::Refused)),
        ),
        (Command::Close(0), closed(0)),
        (Command::Start(1), started(1, 1, 100)),
        (Command::Wait(30000), waited(30000, 100, How::Completed(1))),
    ];
    let racer = Racer::new(rt.alloc(), &STAGGERED, 30000, None)?.begin(0);
    run(&rt, racer, &break_starts_the_next, ready(1, 1, 100));
    Ok(())
}

#[test]
fn a_broken_leaf_is_followed(rt: HostRuntime) -> Result<(), Fail> {
    let all_refused = [
        (Command::Start(0), refused(0, Cause::Refused, 0)),
        (Command::Start(1), refused(1, Cause::Unreachable, 0)),
    ];
    let racer = Racer::new(rt.alloc(), &STAGGERED, 30000, None)?.begin(0);
    run(&rt, racer, &all_refused, RaceAnswer::AllFailed);
    let failover = [
        (Command::Start(0), started(0, 0, 0)),
        (
            Command::Wait(30000),
            waited(30000, 800, How::Broke(0, Cause::Reset)),
        ),
        (Command::Close(0), closed(0)),
        (Command::Start(1), started(1, 1, 800)),
        (Command::Wait(30000), waited(30000, 900, How::Completed(1))),
    ];
    let gaps = [Gap::After(0), Gap::Never];
    let racer = Racer::new(rt.alloc(), &gaps, 30000, None)?.begin(0);
    run(&rt, racer, &failover, ready(1, 1, 900));
    Ok(())
}

#[test]
fn three_leaves_race(rt: HostRuntime) -> Result<(), Fail> {
    let tie = [
        (Command::Start(0), started(0, 0, 0)),
        (Command::Start(1), started(1, 1, 0)),
        (Command::Start(2), started(2, 2, 0)),
        (Command::Wait(30000), waited(30000, 40, How::Completed(1))),
        (Command::Close(0), closed(0)),
        (Command::Close(2), closed(2)),
    ];
    let gaps = [Gap::After(0), Gap::After(0), Gap::After(0)];
    let racer = Racer::new(rt.alloc(), &gaps, 30000, None)?.begin(0);
    run(&rt, racer, &tie, ready(1, 1, 40));
    let late_wakes = [
        (Command::Start(0), started(0, 0, 0)),
        (Command::Wait(250), waited(250, 1150, How::Reached)),
        (Command::Start(1), started(1, 1, 1150)),
        (Command::Wait(1400), waited(1400, 2300, How::Reached)),
        (Command::Start(2), started(2, 2, 2300)),
        (Command::Wait(30000), waited(30000, 2300, How::Completed(2))),
        (Command::Close(0), closed(0)),
        (Command::Close(1), closed(1)),
    ];
    let gaps = [Gap::After(0), Gap::After(250), Gap::After(250)];
    let racer = Racer::new(rt.alloc(), &gaps, 30000, None)?.begin(0);
    run(&rt, racer, &late_wakes, ready(2, 2, 2300));
    Ok(())
}

#[test]
fn a_fault_or_an_empty_plan_ends_it(rt: HostRuntime) -> Result<(), Fail> {
    let faulted = [
        (Command::Start(0), started(0, 0, 0)),
        (Command::Start(1), started(1, 1, 0)),
        (Command::Wait(30000), waited(30000, 0, How::Faulted)),
        (Command::Close(0), closed(0)),
        (Command::Close(1), closed(1)),
    ];
    let gaps = [Gap::After(0), Gap::After(0)];
    let racer = Racer::new(rt.alloc(), &gaps, 30000, None)?.begin(0);
    run(&rt, racer, &faulted, RaceAnswer::SocketFault);
    let racer = Racer::new(rt.alloc(), &[], 30000, None)?.begin(0);
    run(&rt, racer, &[], RaceAnswer::NoCandidate);
    Ok(())
}

#[test]
fn its_time_is_up(rt: HostRuntime) -> Result<(), Fail> {
    let gaps = [Gap::After(0)];
    let timed_out = [
        (Command::Start(0), started(0, 0, 0)),
        (Command::Wait(100), waited(100, 100, How::Reached)),
        (Command::Close(0), closed(0)),
    ];
    let racer = Racer::new(rt.alloc(), &gaps, 100, None)?.begin(0);
    run(&rt, racer, &timed_out, RaceAnswer::Timeout);
    let racer = Racer::new(rt.alloc(), &gaps, 100, Some(100))?.begin(0);
    run(&rt, racer, &timed_out, RaceAnswer::Closed);
    Ok(())
}

#[test]
fn it_completes_at_the_timeout(rt: HostRuntime) -> Result<(), Fail> {
    let gaps = [Gap::After(0)];
    let at_the_timeout = [
        (Command::Start(0), started(0, 0, 0)),
        (Command::Wait(250), waited(250, 250, How::Completed(0))),
    ];
    let racer = Racer::new(rt.alloc(), &gaps, 250, None)?.begin(0);
    run(&rt, racer, &at_the_timeout, ready(0, 0, 250));
    Ok(())
}

#[test]
fn it_races_at_the_end_of_time(rt: HostRuntime) -> Result<(), Fail> {
    let gaps = [Gap::After(0)];
    let last = 9_223_372_036_854_775_807;
    let end = last + 30000;
    let faulted = [
        (Command::Start(0), started(0, 0, last)),
        (Command::Wait(end), waited(end, last, How::Faulted)),
        (Command::Close(0), closed(0)),
    ];
    let racer = Racer::new(rt.alloc(), &gaps, 30000, None)?.begin(last);
    run(&rt, racer, &faulted, RaceAnswer::SocketFault);
    let completed = [
        (Command::Start(0), started(0, 0, last)),
        (Command::Wait(end), waited(end, last, How::Completed(0))),
    ];
    let racer = Racer::new(rt.alloc(), &gaps, 30000, None)?.begin(last);
    run(&rt, racer, &completed, ready(0, 0, last));
    Ok(())
}

#[test]
fn takes_what_answers(rt: HostRuntime) -> Result<(), Fail> {
    let table = [
        (started(0, 0, 0), Taken::Used),
        (started(0, 0, 0), Taken::Ignored),
        (started(1, 1, 100), Taken::Ignored),
        (waited(250, 100, How::Completed(7)), Taken::Ignored),
        (waited(250, 200, How::Reached), Taken::Ignored),
        (waited(250, 250, How::Reached), Taken::Used),
        (started(1, 0, 250), Taken::Ignored),
        (started(1, 1, 249), Taken::Ignored),
        (started(1, 1, 250), Taken::Used),
        (waited(30000, 310, How::Completed(1)), Taken::Used),
        (closed(1), Taken::Ignored),
        (closed(0), Taken::Used),
        (closed(0), Taken::Ignored),
    ];
    let mut racer = Racer::new(rt.alloc(), &STAGGERED, 30000, None)?.begin(0);
    for (event, taken) in &table {
        assert_eq!(rt; racer.told(*event), *taken);
    }
    assert_eq!(rt; racer.next(), Command::Finish(ready(1, 1, 310)));
    Ok(())
}

#[test]
fn tells_all(rt: HostRuntime) -> Result<(), Fail> {
    let events = [
        started(0, 0, 0),
        started(0, 0, 0),
        waited(250, 250, How::Reached),
        started(1, 0, 250),
        started(1, 1, 250),
        waited(30000, 310, How::Completed(1)),
        closed(1),
        closed(0),
        closed(0),
    ];
    let its = [
        started(0, 0, 0),
        waited(250, 250, How::Reached),
        started(1, 1, 250),
        waited(30000, 310, How::Completed(1)),
        closed(0),
    ];
    let mut racer = Racer::new(rt.alloc(), &STAGGERED, 30000, None)?.begin(0);
    let mut used = List::new(rt.alloc());
    tell_all(&mut racer, &events, &mut used)?;
    assert_eq!(rt; used.as_slice(), its.as_slice());
    assert_eq!(rt; racer.next(), Command::Finish(ready(1, 1, 310)));
    Ok(())
}
