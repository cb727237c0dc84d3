// The ends take turns, until the exchange is over.
ghost use Rattle.std.specs.Prelude.{◌≡◌, ◌≤◌, ◌<◌, ◌+◌, ℕ, [], None};
ghost use Rattle.taps_chain.specs.ChainLaws.{AreFramers};
ghost use Rattle.taps_chain.specs.Layers.{layers_of};
ghost use Rattle.taps_connection.specs.Encodings.{encoding_of};
ghost use Rattle.taps_connection.specs.Inboxes.{IsSoundReceiver};
ghost use Rattle.taps_connection.specs.Senders.{queued, rest_of};
ghost use Rattle.taps_connection.specs.Sound.{IsSound};
ghost use Rattle.taps_connection.specs.Sources.{unread_of};
ghost use Rattle.taps_stack.specs.StackTable.{is_stream};
ghost use Rattle.taps_loop.specs.Connections.{MayTakeTurns, AreEndsOf, AreKeptOf, FromFirst};
ghost use Rattle.taps_loop.specs.Loops.{Ends};
ghost use Rattle.taps_loop.specs.Rounds.{Stands, IsRound, Lags, IfAgain, Moves, HasTaken, round_of};
ghost use Rattle.taps_loop.specs.Sends.{HasRest};

use crate::looked::{Look, look_for};
use crate::reporting::Reporting;
use crate::rounds::{Round, go_round, is_waiting, needed};
use taps_base::{Body, NoMemory};
use taps_connection::{Connection, Open};
use taps_exchange::Outcome;
use taps_framer::Framer;

// Before the first call what was read is looked at.
fn first_look<S: Open, T: Open>(
    from: &Connection<'_, S>,
    to: &mut Connection<'_, T>,
    heard: &mut Vec<Body>,
) -> Result<Round, NoMemory>
    requires framers { AreFramers (layers_of ⟦<dyn Framer as Framer>⟧ to.old.chain) }
    requires sends { IsSound (is_stream from.now.stack) (layers_of ⟦<dyn Framer as Framer>⟧ from.now.chain)
        from.now.sender }
    requires none { from.now.sender.begun ≡ None }
    requires sound { IsSoundReceiver ⟦<dyn Framer as Framer>⟧ to.old.stack
        (layers_of ⟦<dyn Framer as Framer>⟧ to.old.chain) to.old.receiver }
    ensures starts { (x : Ends) (piece deadline told : ℕ) →
        AreEndsOf ⟦<dyn Framer as Framer>⟧ x from.now to.old piece deadline →
        AreKeptOf ⟦<dyn Framer as Framer>⟧ x [] from.now to.old piece told heard.old.items →
        x.from.messages ≡ queued from.now.sender →
        IsRound x [] (encoding_of (is_stream from.now.stack) (layers_of ⟦<dyn Framer as Framer>⟧ from.now.chain))
        (is_stream to.old.stack) (layers_of ⟦<dyn Framer as Framer>⟧ to.old.chain) piece from.now.sender told
        to.new.receiver.ended (unread_of to.new.receiver.source) heard.new.items result }
    ensures lags { IfAgain result (λ enough. Lags enough from.now.sender (unread_of to.new.receiver.source)) }
    ensures sound { IsSoundReceiver ⟦<dyn Framer as Framer>⟧ to.old.stack
        (layers_of ⟦<dyn Framer as Framer>⟧ to.old.chain) to.new.receiver }
    ensures ended { to.new.receiver.ended ≡ to.old.receiver.ended }
    ensures kept { to.new ≡ record to.old { receiver = to.new.receiver } }
{
    let needs = needed(from.sent(), is_waiting(from));
    match look_for(to, needs, heard) {
        Ok(found) => Ok(round_from(found)),
        Err(none) => Err(none),
    }
}

// What a look makes of the beginning.
fn round_from(found: Look) -> Round
    ensures { result ≡ round_of found }
{
    match found {
        Look::Enough => Round::Again(true),
        Look::Lacks => Round::Again(false),
        Look::Over(outcome) => Round::Over(outcome),
    }
}

// The rounds from one on.
fn go_rounds<N: Reporting, S: Open, T: Open>(
    from: &mut Connection<'_, S>,
    to: &mut Connection<'_, T>,
    first: bool,
    deadline: u64,
    net: &mut N,
    heard: &mut Vec<Body>,
) -> Result<Outcome, NoMemory>
    requires may { MayTakeTurns ⟦<dyn Framer as Framer>⟧ from.old to.old (N.net net.old) deadline }
    requires room { rest_of from.old.sender ≤ ((N.net net.old).traffic from.old.socket).room }
    requires rest { HasRest from.old.sender.begun }
    requires lags { Lags first from.old.sender (unread_of to.old.receiver.source) }
    requires spare { 4 ≤ (N.net net.old).spare }
    ensures taken { FromFirst ⟦<dyn Framer as Framer>⟧ from.old to.old deadline (N.net net.old).told heard.old.items
        (λ x. Stands x [] from.old.sender heard.old.items first)
        (λ x. HasTaken N.Becomes x net.old net.new result from.new.sender.sent heard.new.items) }
    ensures moves { Moves from.old.socket to.old.socket (N.net net.old) (N.net net.new) }
    ensures spent { (N.net net.old).spare ≤ (N.net net.new).spare + 4 }
    ensures sender_kept { from.new ≡ record from.old { sender = from.new.sender } }
    ensures kept { to.new ≡ record to.old { receiver = to.new.receiver; sender = to.new.sender } }
{
    let mut enough = first;
    'turns: loop {
        match go_round(from, to, enough, deadline, net, heard) {
            Ok(Round::Again(again)) => enough = again,
            Ok(Round::Over(outcome)) => return Ok(outcome),
            Err(none) => return Err(none),
        }
    }
}

// The whole exchange of both ends, up to a time in milliseconds.
pub fn take_turns<N: Reporting, S: Open, T: Open>(
    from: &mut Connection<'_, S>,
    to: &mut Connection<'_, T>,
    deadline: u64,
    net: &mut N,
    heard: &mut Vec<Body>,
) -> Result<Outcome, NoMemory>
    requires may { MayTakeTurns ⟦<dyn Framer as Framer>⟧ from.old to.old (N.net net.old) deadline }
    requires none { from.old.sender.begun ≡ None }
    requires spare { 4 ≤ (N.net net.old).spare }
    ensures taken { FromFirst ⟦<dyn Framer as Framer>⟧ from.old to.old deadline (N.net net.old).told heard.old.items
        (λ x. x.from.messages ≡ queued from.old.sender)
        (λ x. HasTaken N.Becomes x net.old net.new result from.new.sender.sent heard.new.items) }
    ensures moves { Moves from.old.socket to.old.socket (N.net net.old) (N.net net.new) }
    ensures spent { (N.net net.old).spare ≤ (N.net net.new).spare + 4 }
    ensures sender_kept { from.new ≡ record from.old { sender = from.new.sender } }
    ensures kept { to.new ≡ record to.old { receiver = to.new.receiver; sender = to.new.sender } }
{
    match first_look(from, to, heard) {
        Ok(Round::Again(enough)) => go_rounds(from, to, enough, deadline, net, heard),
        Ok(Round::Over(outcome)) => Ok(outcome),
        Err(none) => Err(none),
    }
}
