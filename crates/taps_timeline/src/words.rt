// What is said of a leaf's end, in words.
use crate::race::{Bar, Mark, Race};
use taps_base::NoMemory;
use taps_log::{Cause, Ending};

/// Appends how a leaf's attempt ended.
pub fn put_end_of(text: &mut String, race: &Race, bar: &Bar) -> Result<(), NoMemory> {
    match race.due_of(bar) {
        Some(due) => put_due(text, due),
        None => put_words(text, words_of(race, bar.mark)),
    }
}

fn put_due(text: &mut String, due: u64) -> Result<(), NoMemory> {
    write!(text, "due at {due}, never started")?;
    Ok(())
}

fn put_words(text: &mut String, words: (&str, &str)) -> Result<(), NoMemory> {
    text.push_str(words.0)?;
    text.push_str(words.1)?;
    Ok(())
}

// How an attempt ended, and why.
fn words_of(race: &Race, mark: Mark) -> (&'static str, &'static str) {
    match mark {
        Mark::Unstarted => ("never started", ""),
        Mark::Running => ("open", ""),
        Mark::Refused(cause) => ("start failed: ", cause_of(cause)),
        Mark::Broke(cause) => ("failed: ", cause_of(cause)),
        Mark::Completed => ("established", ""),
        Mark::Ready => ("ready", ""),
        Mark::Closed => ("closed: ", why_closed(race)),
    }
}

/// How the race or the session ended.
pub fn whole_end(race: &Race) -> &'static str {
    match race.ending {
        Some(Ending::NoCandidate) => "no candidate",
        Some(Ending::AllFailed) => "each leaf failed",
        Some(Ending::Timeout) => "the time was over",
        Some(Ending::Closed) => "the application gave up",
        Some(Ending::SocketFault) => "the sockets could not be waited on",
        Some(Ending::Done) => "done",
        Some(Ending::Timed) => "the deadline passed",
        Some(Ending::PeerEnded) => "the other end ended early",
        Some(Ending::CloneAllFailed) => "no clone: each leaf failed",
        Some(Ending::CloneTimeout) => "no clone: the time was over",
        None => "the log says no end",
    }
}

fn why_closed(race: &Race) -> &'static str {
    if race.won {
        return "lost";
    }
    match race.ending {
        Some(Ending::Timeout) => "time over",
        Some(Ending::Closed) => "given up",
        Some(Ending::SocketFault) => "socket fault",
        _ => "race over",
    }
}

fn cause_of(cause: Cause) -> &'static str {
    match cause {
        Cause::Refused => "refused",
        Cause::Unreachable => "unreachable",
        Cause::Reset => "reset",
        Cause::Memory => "no memory",
        Cause::Other => "other",
    }
}
