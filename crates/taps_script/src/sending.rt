// What a send comes to.
ghost use Rattle.std.specs.Prelude.{◌≡◌, ◌<◌, ◌^◌};
ghost use Rattle.taps_script.specs.Channels.{link_of};
ghost use Rattle.taps_script.specs.DataAnswers as answers;

use crate::Line;
use crate::channel::Channel;
use crate::peer::{failure, hold, take_of};
use taps_socket::SendAnswer;

/// The clock after a send, and its answer.
#[derive(Clone, Copy, Debug, PartialEq, Eq)]
pub struct SendStep {
    pub clock: u64,
    pub answer: SendAnswer,
}

fn taken(lines: &[Line], stream: bool, count: usize) -> usize
    ensures { result ≡ answers.taken lines.now stream count }
{
    if stream { take_of(lines, count) } else { count }
}

// A send that is not held, at this time.
fn send_at(lines: &[Line], channel: &Channel, now: u64, count: usize) -> SendStep
    requires { channel.now.done < 2 ^ 63 }
    ensures { result ≡ answers.send_at lines.now (link_of lines.now channel.now) now count }
{
    match failure(lines, channel.done(), now) {
        Some(cause) => SendStep {
            clock: now,
            answer: SendAnswer::Failed(cause),
        },
        None => SendStep {
            clock: now,
            answer: SendAnswer::Sent {
                count: taken(lines, channel.is_stream(), count),
                at: now,
            },
        },
    }
}

// A send that is held up to a time, if that is past this one.
fn send_held(
    lines: &[Line],
    channel: &Channel,
    now: u64,
    count: usize,
    until: u64,
    hold: u64,
) -> SendStep
    requires { channel.now.done < 2 ^ 63 }
    ensures { result ≡ answers.send_held lines.now (link_of lines.now channel.now) now count until hold }
{
    if hold <= now {
        return send_at(lines, channel, now, count);
    }
    if hold <= until {
        return send_at(lines, channel, hold, count);
    }
    let at = now.max(until);
    SendStep {
        clock: at,
        answer: SendAnswer::Timed { at },
    }
}

/// A send of so many bytes up to a time, at this time of the clock.
pub(crate) fn send_step(
    lines: &[Line],
    channel: &Channel,
    now: u64,
    count: usize,
    until: u64,
) -> SendStep
    requires { channel.now.done < 2 ^ 63 }
    ensures { result ≡ answers.send_step lines.now (link_of lines.now channel.now) now count until }
{
    match hold(lines) {
        Some(delay) => {
            let hold = channel.done() + u64::from(delay);
            send_held(lines, channel, now, count, until, hold)
        }
        None => send_at(lines, channel, now, count),
    }
}
