ghost use Rattle.std.specs.Prelude.{◌≡◌, ◌≤◌, [], ◌∷◌, IfOk, Some, map, reverse, vec_len};
ghost use Rattle.taps_session.specs.GroupLogs as groups;
ghost use Rattle.taps_session.specs.GroupParts as parts;
ghost use Rattle.taps_session.specs.Loops as loops;
ghost use Rattle.taps_session.specs.Services as services;
ghost use Rattle.taps_session.specs.Session.{parted, members_by, outcome_by};
ghost use Rattle.taps_session.specs.SessionLogs as logs;

use crate::grouping::GroupEnded;
use crate::holding::Ended;
use crate::looping::LoopEnded;
use std::alloc::Global;
use std::marker::Model;
use taps_base::{Body, NoMemory};
use taps_cloning::HeldGroup;
use taps_exchange::Exchanged;
use taps_group_exchange::{GroupOutcome, Told};
use taps_listening::{Answered, ListenEnd, Listened};
use taps_loop::Looped;
use taps_socket::{Item, RaceAnswer};
use taps_text::{MemberLog, Outcome};

/// What a log tells of a session that ran: its items, of which so many stand before the answer, the
/// answer, if a line of one is told, what its members sent and heard, and how it ended.
#[derive(Drop)]
pub struct Session {
    items: Vec<Item>,
    before: usize,
    answer: Option<RaceAnswer>,
    members: Vec<MemberLog>,
    outcome: Outcome,
}

impl Model for Session {
    ghost use Rattle.std.specs.Prelude.{◌≤◌, vec_len};
    ghost use Rattle.taps_session.specs.Session.{parted};
    ghost use Rattle.taps_session.specs.SessionLogs.{Held};

    ghost Value = { Held };

    ghost view = { λ s. parted s.items.items s.before s.answer s.members.items s.outcome };

    ghost invariant = { λ s. s.before ≤ vec_len s.items };
}

impl Session {
    /// The session of these items, oldest first, that a race of Initiate began and that ended so.
    pub fn initiated(alloc: Global, items: Vec<Item>, ended: Ended) -> Result<Session, NoMemory>
        requires { ended.raced ≤ vec_len items }
        ensures { IfOk result (λ s. s ≡ parted items.items ended.raced (Some ended.answer)
            (members_by ended.exchanged) (logs.outcome_told (outcome_by ended.exchanged))) }
    {
        let Ended {
            raced,
            answer,
            exchanged,
        } = ended;
        let outcome = outcome_told(outcome(&exchanged));
        Ok(Session {
            items,
            before: raced,
            answer: Some(answer),
            members: members(alloc, exchanged)?,
            outcome,
        })
    }

    /// The session of a group, of these items, oldest first, that ended so.
    pub fn grouped(alloc: Global, items: Vec<Item>, ended: GroupEnded) -> Result<Session, NoMemory>
        requires { ended.raced ≤ vec_len items }
        ensures { IfOk result (λ s. s ≡ parted items.items ended.raced (Some ended.answer)
            (parts.logs_by ended.held) (parts.outcome_by ended.held)) }
    {
        let GroupEnded {
            raced,
            answer,
            held,
        } = ended;
        let outcome = outcome_grouped(&held);
        Ok(Session {
            items,
            before: raced,
            answer: Some(answer),
            members: group_logs(alloc, held)?,
            outcome,
        })
    }

    /// The session of these items, oldest first, that listened and ended so.
    pub fn served(alloc: Global, items: Vec<Item>, listened: Listened) -> Result<Session, NoMemory>
        ensures { IfOk result (λ s. s ≡ parted items.items (vec_len items) (services.answer_of listened.end)
            (map services.log_by listened.members.items) (services.outcome_by listened.end)) }
    {
        let Listened { end, members } = listened;
        let before = items.len();
        Ok(Session {
            items,
            before,
            answer: answer_of(end),
            members: logs(alloc, members)?,
            outcome: outcome_of(end),
        })
    }

    /// The session of both ends, of these items, oldest first, that ended so.
    pub fn looped(alloc: Global, items: Vec<Item>, ended: LoopEnded) -> Result<Session, NoMemory>
        requires { ended.before ≤ vec_len items }
        ensures { IfOk result (λ s. s ≡ parted items.items ended.before (Some ended.answer)
            (loops.members_by ended.looped) (loops.outcome_by ended.looped)) }
    {
        let LoopEnded {
            before,
            answer,
            looped,
        } = ended;
        let outcome = outcome_looped(&looped);
        Ok(Session {
            items,
            before,
            answer: Some(answer),
            members: ends(alloc, looped)?,
            outcome,
        })
    }

    /// The session of a plan without a leaf.
    pub fn without_leaf(alloc: Global) -> Session
        ensures { result ≡ services.no_leaf }
    {
        Session {
            items: Vec::new(alloc),
            before: 0,
            answer: Some(RaceAnswer::NoCandidate),
            members: Vec::new(alloc),
            outcome: Outcome::Done,
        }
    }

    /// The items up to the answer, oldest first.
    pub fn before(&self) -> &[Item]
        ensures { reverse result.now ≡ self.now.before }
    {
        &self.items[..self.before]
    }

    /// The items behind the answer, oldest first.
    pub fn after(&self) -> &[Item]
        ensures { reverse result.now ≡ self.now.after }
    {
        &self.items[self.before..]
    }

    /// The answer, if a line of one is told.
    pub fn answer(&self) -> Option<RaceAnswer>
        ensures { result ≡ self.now.answer }
    {
        self.answer
    }

    /// What the members sent and heard, by place.
    pub fn members(&self) -> &[MemberLog]
        ensures { result.now ≡ self.now.members }
    {
        self.members.as_slice()
    }

    /// How it ended.
    pub fn outcome(&self) -> Outcome
        ensures { result ≡ self.now.outcome }
    {
        self.outcome
    }
}

fn outcome(exchanged: &Option<Exchanged>) -> taps_exchange::Outcome
    ensures { result ≡ outcome_by exchanged.now }
{
    match exchanged {
        None => taps_exchange::Outcome::Done,
        Some(exchanged) => exchanged.outcome,
    }
}

// What the one member of an exchange sent and heard, if there was an exchange.
fn members(alloc: Global, exchanged: Option<Exchanged>) -> Result<Vec<MemberLog>, NoMemory>
    ensures { IfOk result (λ members. members.items ≡ members_by exchanged) }
{
    let mut members = Vec::new(alloc);
    match exchanged {
        None => Ok(members),
        Some(exchanged) => {
            let Exchanged {
                outcome: _,
                sent,
                heard,
            } = exchanged;
            match members.push(MemberLog { sent, heard }) {
                Ok(()) => Ok(members),
                Err(_) => Err(NoMemory),
            }
        }
    }
}

// What both ends sent and heard, if there were both, or the one that there was.
fn ends(alloc: Global, looped: Option<Looped>) -> Result<Vec<MemberLog>, NoMemory>
    ensures { IfOk result (λ members. members.items ≡ loops.members_by looped) }
{
    match looped {
        None => Ok(Vec::new(alloc)),
        Some(Looped::Exchanged(exchanged)) => {
            let Exchanged {
                outcome: _,
                sent,
                heard,
            } = exchanged;
            both(alloc, sent, heard)
        }
        Some(Looped::Timed) => first(alloc, 0),
        Some(Looped::Faulted) => first(alloc, 0),
    }
}

fn first(alloc: Global, sent: u64) -> Result<Vec<MemberLog>, NoMemory>
    ensures { IfOk result (λ members. members.items ≡ record { sent = sent; heard = [] } ∷ []) }
{
    let mut members = Vec::new(alloc);
    match members.push(MemberLog {
        sent,
        heard: Vec::new(alloc),
    }) {
        Ok(()) => Ok(members),
        Err(_) => Err(NoMemory),
    }
}

fn both(alloc: Global, sent: u64, heard: Vec<Body>) -> Result<Vec<MemberLog>, NoMemory>
    ensures { IfOk result (λ members. members.items ≡
        record { sent = sent; heard = [] } ∷ record { sent = 0; heard = heard.items } ∷ []) }
{
    let mut members = first(alloc, sent)?;
    match members.push(MemberLog { sent: 0, heard }) {
        Ok(()) => Ok(members),
        Err(_) => Err(NoMemory),
    }
}

fn outcome_looped(looped: &Option<Looped>) -> Outcome
    ensures { result ≡ loops.outcome_by looped.now }
{
    match looped {
        None => Outcome::Done,
        Some(Looped::Exchanged(exchanged)) => outcome_told(exchanged.outcome),
        Some(Looped::Timed) => Outcome::Timed,
        Some(Looped::Faulted) => Outcome::SocketFault,
    }
}

/// The outcome of an exchange as it is printed.
pub fn outcome_told(outcome: taps_exchange::Outcome) -> Outcome
    ensures { result ≡ logs.outcome_told outcome }
{
    match outcome {
        taps_exchange::Outcome::Done => Outcome::Done,
        taps_exchange::Outcome::Expired { member, number } => Outcome::Expired {
            member: member as u64,
            number,
        },
        taps_exchange::Outcome::Timed => Outcome::Timed,
        taps_exchange::Outcome::DataFailed(cause) => Outcome::DataFailed(cause),
        taps_exchange::Outcome::PeerEnded => Outcome::PeerEnded,
        taps_exchange::Outcome::BadFrame(bad) => Outcome::BadFrame {
            message: bad.message,
            layer: bad.layer,
            place: bad.place,
        },
        taps_exchange::Outcome::NotSpeakable {
            member,
            number,
            layer,
        } => Outcome::NotSpeakable {
            member: member as u64,
            number,
            layer,
        },
    }
}

// How the session of a group ended, if there was a group.
fn outcome_grouped(held: &Option<HeldGroup>) -> Outcome
    ensures { result ≡ parts.outcome_by held.now }
{
    match held {
        None => Outcome::Done,
        Some(held) => outcome_with(held.outcome),
    }
}

fn outcome_with(outcome: GroupOutcome) -> Outcome
    ensures { result ≡ groups.outcome_with outcome }
{
    match outcome {
        GroupOutcome::Exchanged(outcome) => outcome_told(outcome),
        GroupOutcome::CloneLimit(limit) => Outcome::CloneLimit(limit),
        GroupOutcome::CloneAllFailed => Outcome::CloneAllFailed,
        GroupOutcome::CloneTimeout => Outcome::CloneTimeout,
        GroupOutcome::SocketFault => Outcome::SocketFault,
    }
}

// What the members of a group sent and heard, if there was a group.
fn group_logs(alloc: Global, held: Option<HeldGroup>) -> Result<Vec<MemberLog>, NoMemory>
    ensures { IfOk result (λ logs. logs.items ≡ parts.logs_by held) }
{
    match held {
        None => Ok(Vec::new(alloc)),
        Some(held) => {
            let HeldGroup {
                outcome: _,
                members,
            } = held;
            Ok(members.into_iter().map(told_log).collect(alloc)?)
        }
    }
}

fn told_log(told: Told) -> MemberLog
    ensures { result ≡ parts.log_told told }
{
    let Told { sent, heard } = told;
    MemberLog { sent, heard }
}

// The answer that is told of a session that listened and ended so.
fn answer_of(end: ListenEnd) -> Option<RaceAnswer>
    ensures { result ≡ services.answer_of end }
{
    match end {
        ListenEnd::NotListening(_) => Some(RaceAnswer::AllFailed),
        ListenEnd::Exchanged(_) => None,
        ListenEnd::Faulted => None,
    }
}

// And its outcome.
fn outcome_of(end: ListenEnd) -> Outcome
    ensures { result ≡ services.outcome_by end }
{
    match end {
        ListenEnd::Exchanged(outcome) => outcome_told(outcome),
        ListenEnd::NotListening(_) => Outcome::Done,
        ListenEnd::Faulted => Outcome::SocketFault,
    }
}

// What the accepted connections sent and heard.
fn logs(alloc: Global, members: Vec<Answered>) -> Result<Vec<MemberLog>, NoMemory>
    ensures { IfOk result (λ logs. logs.items ≡ map services.log_by members.items) }
{
    Ok(members.into_iter().map(log_of).collect(alloc)?)
}

fn log_of(answered: Answered) -> MemberLog
    ensures { result ≡ services.log_by answered }
{
    let Answered { sent, heard } = answered;
    MemberLog { sent, heard }
}
