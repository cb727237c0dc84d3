// What a receive comes to.
ghost use Rattle.std.specs.Prelude.{◌≡◌, ◌<◌, ◌≤◌, ◌^◌, length, false, option_map};
ghost use Rattle.std.specs.Option.{option_and_then};
ghost use Rattle.taps_script.specs.ScriptTexts.{LinesFit};
ghost use Rattle.taps_script.specs.Channels.{link_of, IsWithin};
ghost use Rattle.taps_script.specs.DataAnswers as answers;
ghost use Rattle.taps_script.specs.DataAnswers.{received};

use crate::Line;
use crate::channel::Channel;
use crate::incoming::find;
use crate::peer::{failure, has_ended, next_time};
use taps_socket::RecvAnswer;

// The end of a stream or a failure at a time.
fn closing(lines: &[Line], channel: &Channel, now: u64) -> Option<RecvAnswer>
    requires { channel.now.done < 2 ^ 63 }
    ensures { result ≡ answers.closing lines.now (link_of lines.now channel.now) now }
{
    if channel.is_stream() && has_ended(lines, channel.done(), now) {
        return Some(RecvAnswer::End);
    }
    match failure(lines, channel.done(), now) {
        Some(cause) => Some(RecvAnswer::Failed(cause)),
        None => None,
    }
}

// A receive that finds something at a time.
fn receive_at(lines: &[Line], channel: &Channel, now: u64, out: &mut [u8]) -> Option<RecvAnswer>
    requires done { channel.now.done < 2 ^ 63 }
    requires fit { LinesFit lines.now }
    requires within { IsWithin lines.now channel.now }
    requires room { channel.now.stream ≡ false → 65535 ≤ length out.old }
    ensures answer { option_map (received now out.new) result ≡
        answers.receive_at lines.now (link_of lines.now channel.now) (length out.old) now }
    ensures length { length out.new ≡ length out.old }
{
    let count = find(lines, channel, now, out);
    if count == 0 {
        closing(lines, channel, now)
    } else {
        Some(RecvAnswer::Got { count, at: now })
    }
}

fn time_within(until: u64, at: Option<u64>) -> Option<u64>
    ensures { result ≡ option_and_then (answers.up_to until) at }
{
    match at {
        Some(at) => { if at <= until { Some(at) } else { None } }
        None => None,
    }
}

// A receive that finds something at the next time of the other end, if that comes in time.
fn receive_next(
    lines: &[Line],
    channel: &Channel,
    now: u64,
    until: u64,
    out: &mut [u8],
) -> Option<(u64, RecvAnswer)>
    requires done { channel.now.done < 2 ^ 63 }
    requires fit { LinesFit lines.now }
    requires within { IsWithin lines.now channel.now }
    requires room { channel.now.stream ≡ false → 65535 ≤ length out.old }
    ensures answer { option_map (λ p. received p.0 out.new p.1) result ≡
        answers.receive_next lines.now (link_of lines.now channel.now) (length out.old) now until }
    ensures length { length out.new ≡ length out.old }
{
    let next = next_time(lines, channel.is_stream(), channel.done(), now);
    match time_within(until, next) {
        Some(at) => match receive_at(lines, channel, at, out) {
            Some(answer) => Some((at, answer)),
            None => None,
        },
        None => None,
    }
}

/// A receive up to a time, at this time of the clock: the clock after it, and its answer.
pub(crate) fn receive_step(
    lines: &[Line],
    channel: &Channel,
    now: u64,
    until: u64,
    out: &mut [u8],
) -> (u64, RecvAnswer)
    requires done { channel.now.done < 2 ^ 63 }
    requires fit { LinesFit lines.now }
    requires within { IsWithin lines.now channel.now }
    requires room { channel.now.stream ≡ false → 65535 ≤ length out.old }
    ensures answer { received result.0 out.new result.1 ≡
        answers.receive_step lines.now (link_of lines.now channel.now) now (length out.old) until }
    ensures length { length out.new ≡ length out.old }
{
    if let Some(answer) = receive_at(lines, channel, now, out) {
        return (now, answer);
    }
    match receive_next(lines, channel, now, until, out) {
        Some(step) => step,
        None => {
            let at = now.max(until);
            (at, RecvAnswer::Timed { at })
        }
    }
}
