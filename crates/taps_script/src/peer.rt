// What the other end of a socket has done at a time, by the lines of a script.
ghost use Rattle.std.specs.Prelude.{◌≡◌, ◌<◌, ◌+◌, ◌-◌, ◌^◌};
ghost use Rattle.taps_script.specs.ScriptLines.{take_in, give_in, hold_in, is_echoing};
ghost use Rattle.taps_script.specs.PeerTimes.{has_ended, failure, time_of, next_time};
ghost use Rattle.taps_script.specs.DataAnswers.{limited};

use crate::{Line, PeerLine};
use taps_socket::Cause;

fn take_limit(lines: &[Line]) -> Option<u32>
    ensures { result ≡ take_in lines.now }
{
    for line in lines {
        if let Line::Take(most) = line {
            return Some(*most);
        }
    }
    None
}

fn give_limit(lines: &[Line]) -> Option<u32>
    ensures { result ≡ give_in lines.now }
{
    for line in lines {
        if let Line::Give(most) = line {
            return Some(*most);
        }
    }
    None
}

fn limited(limit: Option<u32>, count: usize) -> usize
    ensures { result ≡ limited limit count }
{
    match limit {
        Some(most) => count.min(most as usize),
        None => count,
    }
}

/// How many of so many bytes a send over a stream takes.
pub(crate) fn take_of(lines: &[Line], count: usize) -> usize
    ensures { result ≡ limited (take_in lines.now) count }
{
    limited(take_limit(lines), count)
}

/// How many of so many bytes a receive over a stream may give.
pub(crate) fn give_of(lines: &[Line], count: usize) -> usize
    ensures { result ≡ limited (give_in lines.now) count }
{
    limited(give_limit(lines), count)
}

/// How long sends are held after a completion, if they are.
pub(crate) fn hold(lines: &[Line]) -> Option<u32>
    ensures { result ≡ hold_in lines.now }
{
    for line in lines {
        if let Line::Peer(PeerLine::Holds(delay)) = line {
            return Some(*delay);
        }
    }
    None
}

/// Whether what is sent comes back.
pub(crate) fn is_echoing(lines: &[Line]) -> bool
    ensures { result ≡ is_echoing lines.now }
{
    for line in lines {
        if let Line::Peer(PeerLine::Echo) = line {
            return true;
        }
    }
    false
}

/// Whether the stream of a socket that completed at `done` has ended.
pub(crate) fn has_ended(lines: &[Line], done: u64, now: u64) -> bool
    requires { done < 2 ^ 63 }
    ensures { result ≡ has_ended done now lines.now }
{
    for line in lines {
        if let Line::Peer(PeerLine::Ends(delay)) = line
            && done + u64::from(*delay) <= now
        {
            return true;
        }
    }
    false
}

/// With what cause the other end of a socket that completed at `done` has failed, if it has.
pub(crate) fn failure(lines: &[Line], done: u64, now: u64) -> Option<Cause>
    requires { done < 2 ^ 63 }
    ensures { result ≡ failure done now lines.now }
{
    for line in lines {
        if let Line::Peer(PeerLine::Fails(delay, cause)) = line
            && done + u64::from(*delay) <= now
        {
            return Some(*cause);
        }
    }
    None
}

// When the other end does what a line says, if it is something that a receive sees.
fn time_of(line: &Line, stream: bool, done: u64) -> Option<u64>
    requires { done < 2 ^ 63 }
    ensures { result ≡ time_of stream done line.now }
{
    match line {
        Line::Peer(PeerLine::Sends { delay, .. }) => Some(done + u64::from(*delay)),
        Line::Peer(PeerLine::Ends(delay)) => {
            if stream {
                Some(done + u64::from(*delay))
            } else {
                None
            }
        }
        Line::Peer(PeerLine::Fails(delay, _)) => Some(done + u64::from(*delay)),
        _ => None,
    }
}

/// The first time past this one at which the other end does something.
pub(crate) fn next_time(lines: &[Line], stream: bool, done: u64, now: u64) -> Option<u64>
    requires { done < 2 ^ 63 }
    ensures { result ≡ next_time stream done now lines.now }
{
    for line in lines {
        if let Some(at) = time_of(line, stream, done)
            && now < at
        {
            return Some(at);
        }
    }
    None
}
