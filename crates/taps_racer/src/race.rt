ghost use Rattle.std.specs.Prelude.{◌≡◌, ℕ, ◌++◌, ◌∷◌, map, ◌<◌, ◌≤◌, ◌^◌, [], length, IfOk, slice_get, Some, true, false};
ghost use Rattle.std.specs.List.{All};
ghost use Rattle.std.specs.Option.{option_or};
ghost use Rattle.taps_socket.specs.declared.race_answer.RaceAnswer.TheVariants.{Ready};
ghost use Rattle.taps_socket.specs.RaceSockets.{has};
ghost use Rattle.taps_socket.specs.Winner.{place_of};
ghost use Rattle.taps_socket.specs.Over as ends;
ghost use Rattle.taps_socket.specs.Turn as turn;
ghost use Rattle.taps_racer.specs.declared.command.Command.TheVariants.{Start};
ghost use Rattle.taps_racer.specs.declared.attempt.Attempt.TheVariants as attempt;
ghost use Rattle.taps_racer.specs.declared.attempt.State.TheVariants as states;
ghost use Rattle.taps_racer.specs.Attempts.{socket_of, marked};
ghost use Rattle.taps_racer.specs.Kept.{IsShort, standing_of, fresh};
ghost use Rattle.taps_racer.specs.Order as numbers;
ghost use Rattle.taps_racer.specs.Commands.{ending, going_on, command_of};
ghost use Rattle.taps_racer.specs.Events.{is_moment, is_end, MayEnd, answers};
ghost use Rattle.taps_racer.specs.Steps.{after_wait, is_used, heard};

use crate::attempts::{add, place_in};
use crate::order::{
    Numbered, first_loser, had_socket, insert, is_pending, least_loser, mark, place_for,
};
use crate::{Attempt, Command, State, Told};
use std::alloc::Global;
use std::marker::Model;
use taps_base::{Gap, NoMemory};
use taps_socket::{How, RaceAnswer};

/// What is kept of a race, in whatever phase it is.
#[derive(Drop)]
pub(crate) struct Race {
    gaps: Vec<Gap>,
    timeout: u64,
    cancel: Option<u64>,
    begun: u64,
    last: u64,
    last_attempt: u64,
    faulted: bool,
    ready: Option<RaceAnswer>,
    attempts: Vec<Attempt>,
    // The sockets by their numbers, of which the first ones are known to be no losers.
    order: Vec<Numbered>,
    passed: usize,
    // How many sockets are pending, and the socket that broke and is open.
    pending: usize,
    broken: Option<u32>,
}

impl Model for Race {
    ghost use Rattle.taps_racer.specs.Kept.{Kept};

    ghost Value = { Kept };

    ghost use Rattle.taps_racer.specs.Fields.{kept_of, IsKept};

    ghost view = { kept_of };

    ghost invariant = { IsKept };
}

impl Race {
    /// A race of leaves with these gaps, with all the memory that it needs.
    pub(crate) fn new(
        alloc: Global,
        gaps: &[Gap],
        timeout: u64,
        cancel: Option<u64>,
    ) -> Result<Race, NoMemory>
        requires few { length gaps.now ≤ 1024 }
        requires short { All IsShort gaps.now }
        requires timeout { timeout ≤ 3600000 }
        requires cancel { (c : ℕ) → cancel ≡ Some c → c ≤ 3600000 }
        ensures { IfOk result (λ race. race ≡ fresh (record { gaps = gaps.now; timeout = timeout; cancel = cancel })) }
    {
        let kept = gaps.to_vec(alloc)?;
        let attempts = Vec::with_capacity(alloc, gaps.len())?;
        let order = Vec::with_capacity(alloc, gaps.len())?;
        Ok(Race {
            gaps: kept,
            timeout,
            cancel,
            begun: 0,
            last: 0,
            last_attempt: 0,
            faulted: false,
            ready: None,
            attempts,
            order,
            passed: 0,
            pending: 0,
            broken: None,
        })
    }

    /// Begins it at a moment.
    pub(crate) fn begin(&mut self, at: u64)
        requires { at < 2 ^ 63 }
        ensures { self.new ≡ record self.old { begun = at; last = at } }
    {
        self.begun = at;
        self.last = at;
    }

    fn is_cancelled(&self) -> bool
        ensures { result ≡ ends.is_cancelled self.now.rules (standing_of self.now) }
    {
        match self.cancel {
            Some(cancel) => self.begun + cancel <= self.last,
            None => false,
        }
    }

    // Why the race failed, where no socket completed.
    fn failure(&self) -> Option<RaceAnswer>
        ensures { result ≡ ends.failure self.now.rules (standing_of self.now) }
    {
        if self.faulted {
            return Some(RaceAnswer::SocketFault);
        }
        if self.is_cancelled() {
            return Some(RaceAnswer::Closed);
        }
        if self.begun + self.timeout <= self.last {
            return Some(RaceAnswer::Timeout);
        }
        if self.gaps.len() == 0 {
            return Some(RaceAnswer::NoCandidate);
        }
        if self.attempts.len() == self.gaps.len() && self.pending == 0 {
            return Some(RaceAnswer::AllFailed);
        }
        None
    }

    /// The answer, if the race is over.
    pub(crate) fn over(&self) -> Option<RaceAnswer>
        ensures { result ≡ ends.over self.now.rules (standing_of self.now) }
    {
        match self.ready {
            Some(ready) => Some(ready),
            None => self.failure(),
        }
    }

    fn gap_end(&self) -> Option<u64>
        ensures { result ≡ turn.gap_end self.now.rules (standing_of self.now) }
    {
        gap_end_of(&self.gaps, self.attempts.len(), self.last_attempt)
    }

    fn is_due(&self) -> bool
        ensures { result ≡ turn.is_due self.now.rules (standing_of self.now) }
    {
        self.attempts.len() < self.gaps.len()
            && (self.attempts.len() == 0
                || self.pending == 0
                || match self.gap_end() {
                    Some(end) => end <= self.last,
                    None => false,
                })
    }

    fn cancel_end(&self) -> Option<u64>
        ensures { result ≡ turn.cancel_end self.now.rules (standing_of self.now) }
    {
        match self.cancel {
            Some(cancel) => Some(self.begun + cancel),
            None => None,
        }
    }

    fn wait_end(&self) -> u64
        ensures { result ≡ turn.wait_end self.now.rules (standing_of self.now) }
    {
        let end = sooner(self.begun + self.timeout, self.cancel_end());
        sooner(end, self.gap_end())
    }

    // What is to be done in a race that is over.
    fn ending(&self, answer: RaceAnswer) -> Command
        ensures { result ≡ ending (standing_of self.now) answer }
    {
        match least_loser(&self.attempts, self.ready, &self.order, self.passed) {
            Some(socket) => Command::Close(socket),
            None => Command::Finish(answer),
        }
    }

    // What is to be done in a race that goes on.
    fn going_on(&self) -> Command
        ensures command { result ≡ going_on self.now.rules (standing_of self.now) }
        ensures leaf { (n : ℕ) → result ≡ Start n → n < length self.now.rules.gaps }
    {
        if let Some(socket) = self.broken {
            return Command::Close(socket);
        }
        if self.is_due() {
            Command::Start(self.attempts.len() as u32)
        } else {
            Command::Wait(self.wait_end())
        }
    }

    /// The command that comes next.
    pub(crate) fn command(&self) -> Command
        ensures command { result ≡ command_of self.now }
        ensures leaf { (n : ℕ) → result ≡ Start n → n < length self.now.rules.gaps }
    {
        match self.over() {
            Some(answer) => self.ending(answer),
            None => self.going_on(),
        }
    }

    fn is_moment(&self, at: u64) -> bool
        ensures { result ≡ is_moment (standing_of self.now) at }
    {
        self.last <= at && at < 1 << 63
    }

    fn is_end(&self, until: u64, at: u64, how: How) -> bool
        ensures { result ≡ is_end (standing_of self.now) until at how }
    {
        match how {
            How::Reached => until <= at,
            How::Completed(socket) => is_pending(&self.attempts, &self.order, socket),
            How::Broke(socket, _) => is_pending(&self.attempts, &self.order, socket),
            How::Faulted => true,
        }
    }

    fn is_answer(&self, command: Command, event: Told) -> bool
        ensures { result ≡ answers (standing_of self.now) command event }
    {
        match (command, event) {
            (Command::Start(n), Told::Started { leaf, socket, at }) => {
                leaf == n && !had_socket(&self.attempts, &self.order, socket) && self.is_moment(at)
            }
            (Command::Start(n), Told::Refused { leaf, at, .. }) => leaf == n && self.is_moment(at),
            (Command::Wait(end), Told::Waited { until, at, how }) => {
                until == end && self.is_moment(at) && self.is_end(until, at, how)
            }
            (Command::Close(s), Told::Closed { socket }) => socket == s,
            _ => false,
        }
    }

    // Notes an attempt that has a socket.
    fn start(&mut self, socket: u32, at: u64)
        requires room { length self.old.attempts < length self.old.rules.gaps }
        requires new_socket { has (standing_of self.old).started socket ≡ false }
        requires moment { at < 2 ^ 63 }
        ensures { self.new ≡ record self.old {
          last = at;
          last_attempt = at;
          attempts = self.old.attempts ++ attempt.Started socket states.Pending ∷ [];
        } }
    {
        let number = Numbered {
            socket,
            place: self.attempts.len() as u32,
        };
        let place = place_for(&self.order, socket);
        insert(&mut self.order, place, number);
        self.passed = self.passed.min(place);
        let state = State::Pending;
        add(&mut self.attempts, Attempt::Started { socket, state });
        self.pending += 1;
        self.last = at;
        self.last_attempt = at;
    }

    // Notes an attempt that failed at once.
    fn refuse(&mut self, at: u64)
        requires room { length self.old.attempts < length self.old.rules.gaps }
        requires moment { at < 2 ^ 63 }
        ensures { self.new ≡ record self.old {
          last = at;
          last_attempt = at;
          attempts = self.old.attempts ++ attempt.Refused ∷ [];
        } }
    {
        add(&mut self.attempts, Attempt::Refused);
        self.last = at;
        self.last_attempt = at;
    }

    fn complete(&mut self, socket: u32)
        requires { has (standing_of self.old).pending socket ≡ true }
        ensures { self.new ≡ record self.old { attempts = map (marked socket states.Completed) self.old.attempts } }
    {
        mark(&mut self.attempts, &self.order, socket, State::Completed);
        self.pending -= 1;
    }

    fn break_off(&mut self, socket: u32)
        requires pending { has (standing_of self.old).pending socket ≡ true }
        requires first { (standing_of self.old).broken ≡ [] }
        ensures { self.new ≡ record self.old { attempts = map (marked socket states.Broken) self.old.attempts } }
    {
        mark(&mut self.attempts, &self.order, socket, State::Broken);
        self.pending -= 1;
        self.broken = Some(socket);
    }

    // Notes that a socket was closed, and passes over those that are no losers any more.
    fn close(&mut self, socket: u32)
        ensures { self.new ≡ record self.old { attempts = map (marked socket states.Closed) self.old.attempts } }
    {
        let pending = one_if(is_pending(&self.attempts, &self.order, socket));
        self.pending -= pending;
        mark(&mut self.attempts, &self.order, socket, State::Closed);
        self.broken = without(self.broken, socket);
        self.passed = first_loser(&self.attempts, self.ready, &self.order, self.passed);
    }

    fn pass(&mut self, at: u64)
        requires { at < 2 ^ 63 }
        ensures { self.new ≡ record self.old { last = at } }
    {
        self.last = at;
    }

    fn fail(&mut self)
        ensures { self.new ≡ record self.old { faulted = true } }
    {
        self.faulted = true;
    }

    fn win(&mut self, socket: u32, at: u64)
        ensures { self.new ≡ record self.old {
          ready = option_or self.old.ready
              (Some (Ready (place_of socket (map socket_of self.old.attempts)) socket at));
        } }
    {
        if self.ready.is_none() {
            let leaf = place_in(&self.attempts, socket) as u32;
            self.ready = Some(RaceAnswer::Ready { leaf, socket, at });
        }
    }

    fn wait_over(&mut self, at: u64, how: How)
        requires moment { at < 2 ^ 63 }
        requires ends { MayEnd (standing_of self.old) how }
        ensures { self.new ≡ after_wait self.old at how }
    {
        self.pass(at);
        match how {
            How::Reached => {}
            How::Completed(socket) => {
                self.win(socket, at);
                self.complete(socket);
            }
            How::Broke(socket, _) => self.break_off(socket),
            How::Faulted => self.fail(),
        }
    }

    /// Takes an event that answers the command, and says whether it does.
    pub(crate) fn tell(&mut self, event: Told) -> bool
        ensures used { result ≡ is_used self.old event }
        ensures kept { self.new ≡ heard self.old event }
    {
        if !self.is_answer(self.command(), event) {
            return false;
        }
        match event {
            Told::Started { socket, at, .. } => self.start(socket, at),
            Told::Refused { at, .. } => self.refuse(at),
            Told::Waited { at, how, .. } => self.wait_over(at, how),
            Told::Closed { socket } => self.close(socket),
        }
        true
    }
}

// When the gap of the leaf at a place ends, counted from a moment.
fn gap_end_of(gaps: &[Gap], place: usize, from: u64) -> Option<u64>
    requires short { All IsShort gaps.now }
    requires from { from < 2 ^ 63 }
    ensures { result ≡ turn.gap_after (slice_get gaps.now place) from }
{
    match gaps.get(place) {
        Some(Gap::After(gap)) => Some(from + *gap),
        _ => None,
    }
}

fn sooner(moment: u64, other: Option<u64>) -> u64
    ensures { result ≡ turn.sooner moment other }
{
    match other {
        Some(end) => moment.min(end),
        None => moment,
    }
}

fn one_if(holds: bool) -> usize
    ensures { result ≡ numbers.one_if holds }
{
    if holds { 1 } else { 0 }
}

// The socket that broke, unless it is this one.
fn without(broken: Option<u32>, socket: u32) -> Option<u32>
    ensures { result ≡ numbers.without broken socket }
{
    match broken {
        Some(other) => { if other == socket { None } else { Some(other) } }
        None => None,
    }
}
