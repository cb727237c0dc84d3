// What is to come of sockets by a script.
ghost use Rattle.std.specs.Prelude.{◌≡◌, ◌<◌, ◌≤◌, ◌+◌, ◌^◌, ◌++◌, not, filter, vec_len, vec_capacity};
ghost use Rattle.std.specs.Option.{option_to_list};
ghost use Rattle.taps_script.specs.ScriptAnswers as answers;
ghost use Rattle.taps_script.specs.ScriptNet.{without_told};

use crate::Fate;
use crate::room::add;
use taps_socket::{How, WaitAnswer};

fn in_time(at: u64, how: How) -> Option<WaitAnswer>
    ensures { result ≡ answers.in_time at how }
{
    if at < 1 << 63 {
        Some(WaitAnswer { at, how })
    } else {
        None
    }
}

/// What is to come of a socket that was started at a moment with such a fate.
pub(crate) fn to_come(fate: Fate, socket: u32, at: u64) -> Option<WaitAnswer>
    requires { at < 2 ^ 63 }
    ensures { result ≡ answers.to_come fate socket at }
{
    match fate {
        Fate::Completes(delay) => in_time(at + u64::from(delay), How::Completed(socket)),
        Fate::Breaks(delay, cause) => in_time(at + u64::from(delay), How::Broke(socket, cause)),
        Fate::Refuses(_) | Fate::Silent => None,
    }
}

fn is_of(event: &WaitAnswer, socket: u32) -> bool
    ensures { result ≡ answers.is_of socket event.now }
{
    match event.how {
        How::Completed(its) => its == socket,
        How::Broke(its, _) => its == socket,
        How::Reached | How::Faulted => false,
    }
}

/// Takes out what is to come of a socket.
pub(crate) fn forget(events: &mut Vec<WaitAnswer>, socket: u32)
    ensures events { events.new.items ≡ filter (λ e. not (answers.is_of socket e)) events.old.items }
    ensures fewer { vec_len events.new ≤ vec_len events.old }
    ensures room { vec_capacity events.new ≡ vec_capacity events.old }
{
    events.retain(move |e| !is_of(e, socket));
}

/// Takes out what is to come of the socket of which a wait told.
pub(crate) fn forget_told(events: &mut Vec<WaitAnswer>, how: How)
    ensures events { events.new.items ≡ without_told how events.old.items }
    ensures fewer { vec_len events.new ≤ vec_len events.old }
    ensures room { vec_capacity events.new ≡ vec_capacity events.old }
{
    match how {
        How::Completed(socket) => forget(events, socket),
        How::Broke(socket, _) => forget(events, socket),
        How::Reached | How::Faulted => {}
    }
}

/// Adds what is to come, if anything is, where there is room.
pub(crate) fn add_event(events: &mut Vec<WaitAnswer>, event: Option<WaitAnswer>)
    requires { vec_len events.old < vec_capacity events.old }
    ensures events { events.new.items ≡ events.old.items ++ option_to_list event }
    ensures len { vec_len events.new ≤ vec_len events.old + 1 }
    ensures room { vec_capacity events.old ≤ vec_capacity events.new }
{
    if let Some(event) = event {
        add(events, event);
    }
}

fn earlier(best: Option<WaitAnswer>, next: WaitAnswer) -> Option<WaitAnswer>
    ensures { result ≡ answers.earlier best next }
{
    match best {
        None => Some(next),
        Some(best) => {
            if next.at < best.at {
                Some(next)
            } else {
                Some(best)
            }
        }
    }
}

/// Of these events the one with the least moment, and on a tie that of the smallest socket.
pub(crate) fn first_event(events: &[WaitAnswer]) -> Option<WaitAnswer>
    ensures { result ≡ answers.first_event events.now }
{
    events.iter().fold(None, |best, next| earlier(best, *next))
}

// A wait in which nothing comes of a socket.
fn idle_answer(now: u64, late: u32, until: u64) -> WaitAnswer
    requires { now < 2 ^ 63 }
    ensures { result ≡ answers.idle_answer now late until }
{
    if until < 1 << 63 {
        let at = (now.max(until) + u64::from(late)).min((1 << 63) - 1);
        WaitAnswer {
            at,
            how: How::Reached,
        }
    } else {
        WaitAnswer {
            at: now,
            how: How::Faulted,
        }
    }
}

/// The answer to a wait that is not to fault, by the event that comes first.
pub(crate) fn answer_by(now: u64, late: u32, until: u64, first: Option<WaitAnswer>) -> WaitAnswer
    requires { now < 2 ^ 63 }
    ensures { result ≡ answers.answer_by now late until first }
{
    match first {
        Some(event) => {
            if event.at <= until {
                WaitAnswer {
                    at: now.max(event.at),
                    how: event.how,
                }
            } else {
                idle_answer(now, late, until)
            }
        }
        None => idle_answer(now, late, until),
    }
}
