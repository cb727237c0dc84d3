use crate::made::{make_message, make_props};
use std::alloc::{AllocError, Global};
use std::process::Abort;
use std::test::Fail;
use taps_message::{Message, PushError, Queued, SendQueue};

// How many messages of which length are pushed one after another, whether they are final, and how each is refused, if it is.
type Pushes = (u64, usize, bool, Option<PushError>);

// Each row begins with a new queue.
static PUSHED: [&[Pushes]; 9] = [
    // After a final message none is accepted, also no final one.
    &[
        (1, 1, false, None),
        (1, 0, true, None),
        (1, 1, false, Some(PushError::AfterFinal)),
        (1, 0, true, Some(PushError::AfterFinal)),
    ],
    // 256 messages are accepted, and no 257th.
    &[
        (256, 1, false, None),
        (1, 0, false, Some(PushError::TooMany(256))),
        (1, 0, true, Some(PushError::TooMany(256))),
    ],
    // Bodies of 4,194,304 bytes together are accepted, and not one byte more; an empty body is.
    &[
        (1, 4194304, false, None),
        (1, 1, false, Some(PushError::TooMuch(4194305))),
        (2, 0, false, None),
        (1, 4194304, false, Some(PushError::TooMuch(8388608))),
        (1, 0, true, None),
    ],
    &[(1, 4194305, false, Some(PushError::TooMuch(4194305)))],
    // One that is refused does not count.
    &[
        (1, 4194302, false, None),
        (1, 3, false, Some(PushError::TooMuch(4194305))),
        (1, 3, true, Some(PushError::TooMuch(4194305))),
        (1, 2, false, None),
        (1, 1, false, Some(PushError::TooMuch(4194305))),
    ],
    // The first cause is told: a final message came before ..
    &[
        (255, 1, false, None),
        (1, 1, true, None),
        (1, 1, false, Some(PushError::AfterFinal)),
    ],
    &[
        (1, 4194304, true, None),
        (1, 1, false, Some(PushError::AfterFinal)),
    ],
    // .. and then, that there are too many.
    &[
        (255, 1, false, None),
        (1, 4194049, false, None),
        (1, 1, false, Some(PushError::TooMany(256))),
    ],
    &[
        (256, 16384, false, None),
        (1, 16384, false, Some(PushError::TooMany(256))),
    ],
];

// The answer is as listed, and a message that is refused is handed back.
fn push_one(
    rt: &impl Abort,
    queue: &mut SendQueue,
    message: Message,
    length: usize,
    refusal: Option<PushError>,
) {
    match queue.push(message, 7) {
        Ok(()) => assert_eq!(rt; refusal, None),
        Err((told, back)) => {
            assert_eq!(rt; Some(told), refusal);
            assert_eq!(rt; back.body.bytes().len(), length);
        }
    }
}

fn push_each(
    rt: &impl Abort,
    alloc: Global,
    queue: &mut SendQueue,
    pushes: &Pushes,
) -> Result<(), AllocError> {
    let (count, length, is_final, refusal) = *pushes;
    for _ in 0..count {
        let message = make_message(alloc, length, make_props(None, is_final))?;
        push_one(rt, queue, message, length, refusal);
    }
    Ok(())
}

fn push_row(rt: &impl Abort, alloc: Global, row: &[Pushes]) -> Result<(), AllocError> {
    let mut queue = SendQueue::new(alloc);
    for pushes in row {
        push_each(rt, alloc, &mut queue, pushes)?;
    }
    Ok(())
}

#[test]
fn each_refusal_of_push(rt: HostRuntime) -> Result<(), Fail> {
    for row in &PUSHED {
        push_row(&rt, rt.alloc(), row)?;
    }
    Ok(())
}

// When a message was pushed, its lifetime, when the queue is asked, and whether it has expired then.
static EXPIRED: [(u64, Option<u64>, u64, bool); 11] = [
    (10, Some(50), 59, false),
    (10, Some(50), 60, true),
    (10, Some(50), 61, true),
    (10, Some(1), 10, false),
    (10, Some(1), 11, true),
    (10, Some(50), 0, false),
    (10, None, 18446744073709551615, false),
    (10, Some(18446744073709551615), 18446744073709551615, false),
    (0, Some(18446744073709551615), 18446744073709551615, true),
    (9223372036854775807, Some(1), 9223372036854775807, false),
    (9223372036854775807, Some(1), 9223372036854775808, true),
];

fn expire(
    rt: &impl Abort,
    alloc: Global,
    row: &(u64, Option<u64>, u64, bool),
) -> Result<(), AllocError> {
    let (pushed_at, lifetime, asked_at, expired) = *row;
    let mut queue = SendQueue::new(alloc);
    let message = make_message(alloc, 2, make_props(lifetime, false))?;
    assert!(rt; queue.push(message, pushed_at).is_ok());
    match queue.next(asked_at) {
        Queued::Message { number, message } => {
            assert_eq!(rt;
                (number, message.body.bytes().len(), expired),
                (0, 2, false)
            );
        }
        Queued::Expired(number) => assert_eq!(rt; (number, expired), (0, true)),
        Queued::Empty => assert!(rt; false),
    }
    assert_eq!(rt; queue.first(), None);
    Ok(())
}

#[test]
fn a_message_expires_on_its_millisecond(rt: HostRuntime) -> Result<(), Fail> {
    for row in &EXPIRED {
        expire(&rt, rt.alloc(), row)?;
    }
    Ok(())
}

// When a queue is asked, the number of its first message, if there is one, its length, if it has not expired, and whether it is
// then put back.
type Turn = (u64, Option<u64>, Option<usize>, bool);

// Each row begins with three messages of 1, 2 and 3 bytes, pushed at 100, 200 and 300 with a lifetime of 1,000.
static TURNS: [&[Turn]; 4] = [
    &[
        (300, Some(0), Some(1), false),
        (300, Some(1), Some(2), false),
        (300, Some(2), Some(3), false),
        (300, None, None, false),
        (9999, None, None, false),
    ],
    // One that is put back comes again, before those behind it.
    &[
        (300, Some(0), Some(1), true),
        (1099, Some(0), Some(1), true),
        (300, Some(0), Some(1), false),
        (300, Some(1), Some(2), true),
        (300, Some(1), Some(2), false),
        (1299, Some(2), Some(3), false),
        (1300, None, None, false),
    ],
    // It keeps the time at which it was pushed.
    &[
        (1099, Some(0), Some(1), true),
        (1100, Some(0), None, false),
        (1199, Some(1), Some(2), true),
        (1200, Some(1), None, false),
        (1299, Some(2), Some(3), true),
        (1300, Some(2), None, false),
        (1300, None, None, false),
    ],
    // An expired one is taken out alone.
    &[
        (1250, Some(0), None, false),
        (1250, Some(1), None, false),
        (1250, Some(2), Some(3), false),
        (1250, None, None, false),
    ],
];

fn three_messages(rt: &impl Abort, alloc: Global) -> Result<SendQueue, AllocError> {
    let mut queue = SendQueue::new(alloc);
    for (length, at) in [(1, 100), (2, 200), (3, 300)] {
        let message = make_message(alloc, length, make_props(Some(1000), false))?;
        assert!(rt; queue.push(message, at).is_ok());
    }
    Ok(queue)
}

fn take_turn(rt: &impl Abort, queue: &mut SendQueue, turn: &Turn) {
    let (at, first, length, is_put_back) = *turn;
    assert_eq!(rt; queue.first(), first);
    match queue.next(at) {
        Queued::Message { number, message } => {
            assert_eq!(rt;
                (Some(number), Some(message.body.bytes().len())),
                (first, length)
            );
            if is_put_back {
                queue.put_back(number, message);
                assert_eq!(rt; queue.first(), first);
            }
        }
        Queued::Expired(number) => assert_eq!(rt; (Some(number), None), (first, length)),
        Queued::Empty => assert_eq!(rt; (None, None), (first, length)),
    }
}

#[test]
fn messages_go_out_in_the_order_of_push(rt: HostRuntime) -> Result<(), Fail> {
    for row in &TURNS {
        let mut queue = three_messages(&rt, rt.alloc())?;
        for turn in *row {
            take_turn(&rt, &mut queue, turn);
        }
    }
    Ok(())
}
