// A race of two leaves by a script, told from the rules alone. It calls nothing of the racer or of
// the sockets by a script.
use std::alloc::{AllocError, Global};

/// What is to become of a leaf.
#[derive(Clone, Copy, PartialEq, Eq)]
pub enum Fate {
    Silent,
    Refuses,
    Completes(u64),
    Breaks(u64),
}

/// The moments of a race in milliseconds: the gap before the second leaf, when the application gives
/// up, when the race does, and by how much a wait that is reached is late.
#[derive(Clone, Copy)]
pub struct Times {
    pub gap: Option<u64>,
    pub cancel: Option<u64>,
    pub timeout: u64,
    pub late: u64,
}

#[derive(Clone, Copy, PartialEq, Eq)]
enum Stand {
    Unattempted,
    Pending,
    Completed,
    Broken,
    // Refused or closed.
    Gone,
}

#[derive(Clone, Copy)]
struct Leaf {
    number: u8,
    socket: u8,
    fate: Fate,
    stand: Stand,
    // When it was attempted.
    at: u64,
}

#[derive(Drop)]
struct Race {
    times: Times,
    first: Leaf,
    second: Leaf,
    clock: u64,
    log: String,
}

/// The plan and the log behind it, and the status. A race of two leaves takes at most seven steps.
pub fn told(
    alloc: Global,
    plan: &str,
    times: Times,
    fates: [Fate; 2],
) -> Result<(String, u8), AllocError> {
    let [first, second] = fates;
    let mut race = Race {
        times,
        first: unattempted(0, 0, first),
        second: unattempted(1, u8::from(first != Fate::Refuses), second),
        clock: 0,
        log: format!(in alloc; "{plan}begin 0\n")?,
    };
    for _ in 0..7 {
        if let Some(code) = race.step()? {
            return Ok((race.log, code));
        }
    }
    Ok((race.log, 1))
}

fn unattempted(number: u8, socket: u8, fate: Fate) -> Leaf {
    Leaf {
        number,
        socket,
        fate,
        stand: Stand::Unattempted,
        at: 0,
    }
}

impl Race {
    // One step, and the status where it is the last.
    fn step(&mut self) -> Result<Option<u8>, AllocError> {
        if let Some((line, code)) = self.answer() {
            self.end(line)?;
            return Ok(Some(code));
        }
        if self.first.stand == Stand::Broken {
            close(&mut self.first, &mut self.log)?;
        } else if self.second.stand == Stand::Broken {
            close(&mut self.second, &mut self.log)?;
        } else if self.first.stand == Stand::Unattempted {
            start(&mut self.first, self.clock, &mut self.log)?;
        } else if self.is_second_due() {
            start(&mut self.second, self.clock, &mut self.log)?;
        } else {
            self.wait()?;
        }
        Ok(None)
    }

    // The line of the answer and the status, once the race is over.
    fn answer(&self) -> Option<(&'static str, u8)> {
        if self.first.stand == Stand::Completed {
            Some(("ready 0", 0))
        } else if self.second.stand == Stand::Completed {
            Some(("ready 1", 0))
        } else if self.times.cancel.is_some_and(|at| self.clock >= at) {
            Some(("closed", 10))
        } else if self.clock >= self.times.timeout {
            Some(("establishment-error timeout", 4))
        } else if self.second.stand != Stand::Unattempted && self.is_idle() {
            Some(("establishment-error all-failed", 4))
        } else {
            None
        }
    }

    fn is_idle(&self) -> bool {
        self.first.stand != Stand::Pending && self.second.stand != Stand::Pending
    }

    fn is_second_due(&self) -> bool {
        let turn = self.turn();
        self.second.stand == Stand::Unattempted
            && (self.is_idle() || turn.is_some_and(|at| self.clock >= at))
    }

    // When the gap before the second leaf is over.
    fn turn(&self) -> Option<u64> {
        match self.times.gap {
            Some(gap) => Some(self.first.at.saturating_add(gap)),
            None => None,
        }
    }

    fn until(&self) -> u64 {
        let end = self
            .times
            .timeout
            .min(self.times.cancel.unwrap_or(u64::MAX));
        if self.second.stand == Stand::Unattempted {
            end.min(self.turn().unwrap_or(u64::MAX))
        } else {
            end
        }
    }

    fn wait(&mut self) -> Result<(), AllocError> {
        let until = self.until();
        match self.next_moment() {
            Some(at) if at <= until => {
                self.clock = self.clock.max(at);
                self.tell_next(until)
            }
            _ => {
                self.clock = self.clock.max(until).saturating_add(self.times.late);
                writeln!(self.log, "wait {until} reached {}", self.clock)
            }
        }
    }

    fn next_moment(&self) -> Option<u64> {
        if is_earlier(&self.first, &self.second) {
            moment(&self.first)
        } else {
            moment(&self.second)
        }
    }

    fn tell_next(&mut self, until: u64) -> Result<(), AllocError> {
        if is_earlier(&self.first, &self.second) {
            tell(&mut self.first, until, self.clock, &mut self.log)
        } else {
            tell(&mut self.second, until, self.clock, &mut self.log)
        }
    }

    // Closes what is open but the winner, answers, and closes the winner.
    fn end(&mut self, answer: &str) -> Result<(), AllocError> {
        close_loser(&mut self.first, &mut self.log)?;
        close_loser(&mut self.second, &mut self.log)?;
        writeln!(self.log, "{answer}")?;
        close_winner(&self.first, &mut self.log)?;
        close_winner(&self.second, &mut self.log)
    }
}

// When a pending leaf completes or breaks, if it does.
fn moment(leaf: &Leaf) -> Option<u64> {
    match (leaf.stand, leaf.fate) {
        (Stand::Pending, Fate::Completes(delay) | Fate::Breaks(delay)) => {
            Some(leaf.at.saturating_add(delay))
        }
        _ => None,
    }
}

// Whether the first leaf is told of before the second.
fn is_earlier(first: &Leaf, second: &Leaf) -> bool {
    match (moment(first), moment(second)) {
        (Some(one), Some(other)) => one <= other,
        (Some(_), None) => true,
        (None, _) => false,
    }
}

fn start(leaf: &mut Leaf, clock: u64, log: &mut String) -> Result<(), AllocError> {
    let number = leaf.number;
    let socket = leaf.socket;
    leaf.at = clock;
    if leaf.fate == Fate::Refuses {
        leaf.stand = Stand::Gone;
        writeln!(log, "start {number} refused refused at {clock}")
    } else {
        leaf.stand = Stand::Pending;
        writeln!(log, "start {number} socket {socket} at {clock}")
    }
}

fn tell(leaf: &mut Leaf, until: u64, clock: u64, log: &mut String) -> Result<(), AllocError> {
    let socket = leaf.socket;
    if matches!(leaf.fate, Fate::Completes(_)) {
        leaf.stand = Stand::Completed;
        writeln!(log, "wait {until} completed {socket} at {clock}")
    } else {
        leaf.stand = Stand::Broken;
        writeln!(log, "wait {until} broke {socket} reset at {clock}")
    }
}

fn close(leaf: &mut Leaf, log: &mut String) -> Result<(), AllocError> {
    let socket = leaf.socket;
    leaf.stand = Stand::Gone;
    writeln!(log, "close {socket}")
}

fn close_loser(leaf: &mut Leaf, log: &mut String) -> Result<(), AllocError> {
    if matches!(leaf.stand, Stand::Pending | Stand::Broken) {
        close(leaf, log)?;
    }
    Ok(())
}

fn close_winner(leaf: &Leaf, log: &mut String) -> Result<(), AllocError> {
    if leaf.stand == Stand::Completed {
        let socket = leaf.socket;
        writeln!(log, "close {socket}\nsent 0 0\ndone")?;
    }
    Ok(())
}
