// A round of the ends: the one sends, and then the other hears.
ghost use Rattle.std.specs.Prelude.{◌≡◌, ◌≤◌, ◌<◌, ◌^◌, ◌+◌, false};
ghost use Rattle.taps_chain.specs.ChainLaws.{AreFramers};
ghost use Rattle.taps_chain.specs.Layers.{layers_of};
ghost use Rattle.taps_connection.specs.Conditions.{IsHeld};
ghost use Rattle.taps_connection.specs.Inboxes.{IsSoundReceiver};
ghost use Rattle.taps_connection.specs.Senders.{rest_of};
ghost use Rattle.taps_connection.specs.Sound.{IsSound};
ghost use Rattle.taps_connection.specs.Sources.{unread_of};
ghost use Rattle.taps_connection.specs.Unread.{count_given};
ghost use Rattle.taps_exchange.specs.Hearings.{one_unless};
ghost use Rattle.taps_exchange.specs.Turns as exchange;
ghost use Rattle.taps_stack.specs.StackTable.{is_stream};
ghost use Rattle.taps_loop.specs.Connections.{MayTakeTurns, MayAsk, HasAskedOnce, GoesRound};
ghost use Rattle.taps_loop.specs.Hears.{one_true};
ghost use Rattle.taps_loop.specs.Rounds.{Stands, IsLast, rest_by, Lags, IfAgain, Moves, until_if};
ghost use Rattle.taps_loop.specs.Sends.{HasGone, HasRest, waits, count_left};

use crate::hearing::{In, hear_in_turn};
use crate::reporting::Reporting;
use crate::sending::{Out, send_in_turn};
use taps_base::{Body, NoMemory};
use taps_connection::{Connection, Open};
use taps_exchange::Outcome;
use taps_framer::Framer;

// The ends go round again, by whether as many messages were heard as are needed; or the exchange is over.
#[derive(Clone, Copy, Debug)]
pub enum Round {
    Again(bool),
    Over(Outcome),
}

// The accepted end hears behind a message that went out, or a call that was timed.
pub fn hear_behind<N: Reporting, S: Open, T: Open>(
    from: &Connection<'_, S>,
    to: &mut Connection<'_, T>,
    deadline: u64,
    net: &mut N,
    heard: &mut Vec<Body>,
) -> Result<Round, NoMemory>
    requires framers { AreFramers (layers_of ⟦<dyn Framer as Framer>⟧ to.old.chain) }
    requires sends { IsSound (is_stream from.now.stack) (layers_of ⟦<dyn Framer as Framer>⟧ from.now.chain)
        from.now.sender }
    requires asks { MayAsk ⟦<dyn Framer as Framer>⟧ to.old (N.net net.old) deadline }
    ensures rounded { GoesRound ⟦<dyn Framer as Framer>⟧ N.Becomes from.now to.old deadline net.old net.new
        (N.net net.old).told heard.old.items (λ x calls. HasGone x calls (waits from.now.sender)) result
        from.now.sender (N.net net.new).told to.new.receiver heard.new.items }
    ensures nearer { IfAgain result (λ enough.
        rest_by deadline (N.net net.new).told to.new.receiver.ended (unread_of to.new.receiver.source) ≤
        rest_by deadline (N.net net.old).told to.old.receiver.ended (unread_of to.old.receiver.source)) }
    ensures less { IfAgain result (λ enough. (N.net net.old).told < deadline →
        count_given (unread_of to.old.receiver.source) < from.now.sender.sent + waits from.now.sender →
        rest_by deadline (N.net net.new).told to.new.receiver.ended (unread_of to.new.receiver.source) <
        rest_by deadline (N.net net.old).told to.old.receiver.ended (unread_of to.old.receiver.source)) }
    ensures lags { IfAgain result (λ enough. enough ≡ false →
        count_given (unread_of to.new.receiver.source) < from.now.sender.sent + waits from.now.sender) }
    ensures once { HasAskedOnce ⟦<dyn Framer as Framer>⟧ to.old to.new (N.net net.old) (N.net net.new)
        (λ P. IfAgain result (λ enough. P)) }
{
    let waiting = is_waiting(from);
    let needs = needed(from.sent(), waiting);
    match hear_in_turn(to, needs, waiting, deadline, net, heard) {
        Ok(In::Enough) => Ok(Round::Again(true)),
        Ok(In::Asked(enough)) => Ok(Round::Again(enough)),
        Ok(In::Over(outcome)) => Ok(Round::Over(outcome)),
        Err(none) => Err(none),
    }
}

// How many messages are needed: as many as were sent, and one more while a message waits.
pub fn needed(sent: u64, waiting: bool) -> u64
    requires { sent ≤ 256 }
    ensures { result ≡ sent + one_true waiting }
{
    if waiting { sent + 1 } else { sent }
}

// Whether a message is begun or queued.
pub fn is_waiting<S: Open>(from: &Connection<'_, S>) -> bool
    ensures { one_true result ≡ waits from.now.sender }
{
    from.waiting().is_some()
}

// The accepted end hears where no message is left.
pub fn hear_last<N: Reporting, S: Open, T: Open>(
    from: &Connection<'_, S>,
    to: &mut Connection<'_, T>,
    enough: bool,
    deadline: u64,
    net: &mut N,
    heard: &mut Vec<Body>,
) -> Result<Round, NoMemory>
    requires framers { AreFramers (layers_of ⟦<dyn Framer as Framer>⟧ to.old.chain) }
    requires sends { IsSound (is_stream from.now.stack) (layers_of ⟦<dyn Framer as Framer>⟧ from.now.chain)
        from.now.sender }
    requires asks { MayAsk ⟦<dyn Framer as Framer>⟧ to.old (N.net net.old) deadline }
    ensures rounded { GoesRound ⟦<dyn Framer as Framer>⟧ N.Becomes from.now to.old deadline net.old net.new
        (N.net net.old).told heard.old.items (λ x calls. IsLast x calls from.now.sender heard.old.items enough) result
        from.now.sender (N.net net.new).told to.new.receiver heard.new.items }
    ensures less { IfAgain result (λ again.
        rest_by deadline (N.net net.new).told to.new.receiver.ended (unread_of to.new.receiver.source) <
        rest_by deadline (N.net net.old).told to.old.receiver.ended (unread_of to.old.receiver.source)) }
    ensures lags { IfAgain result (λ again. again ≡ false →
        count_given (unread_of to.new.receiver.source) < from.now.sender.sent) }
    ensures once { HasAskedOnce ⟦<dyn Framer as Framer>⟧ to.old to.new (N.net net.old) (N.net net.new)
        (λ P. IfAgain result (λ again. P)) }
{
    if enough {
        heard.truncate(from.sent() as usize);
        return Ok(Round::Over(done(from.first_expired())));
    }
    match hear_in_turn(to, from.sent(), false, deadline, net, heard) {
        Ok(In::Enough) => {
            heard.truncate(from.sent() as usize);
            Ok(Round::Over(done(from.first_expired())))
        }
        Ok(In::Asked(again)) => Ok(Round::Again(again)),
        Ok(In::Over(outcome)) => Ok(Round::Over(outcome)),
        Err(none) => Err(none),
    }
}

// The outcome where every message was sent or had expired, and enough were heard.
fn done(expired: Option<u64>) -> Outcome
    ensures { result ≡ exchange.done_or expired 0 Outcome.Done }
{
    match expired {
        None => Outcome::Done,
        Some(number) => Outcome::Expired { member: 0, number },
    }
}

// The time up to which the sending end sends: the last reported one, or a millisecond later where the accepted end
// needs no more.
fn until_of(enough: bool, told: u64, deadline: u64) -> u64
    requires { deadline < 2 ^ 63 }
    ensures until { result ≡ until_if enough told deadline }
    ensures bounded { result < 2 ^ 63 }
{
    if enough {
        if told < deadline { told + 1 } else { deadline }
    } else {
        told.min(deadline)
    }
}

// One round: the sending end has its turn, and then the accepted one.
pub fn go_round<N: Reporting, S: Open, T: Open>(
    from: &mut Connection<'_, S>,
    to: &mut Connection<'_, T>,
    enough: bool,
    deadline: u64,
    net: &mut N,
    heard: &mut Vec<Body>,
) -> Result<Round, NoMemory>
    requires may { MayTakeTurns ⟦<dyn Framer as Framer>⟧ from.old to.old (N.net net.old) deadline }
    requires room { rest_of from.old.sender ≤ ((N.net net.old).traffic from.old.socket).room }
    requires rest { HasRest from.old.sender.begun }
    requires lags { Lags enough from.old.sender (unread_of to.old.receiver.source) }
    requires spare { 2 ≤ (N.net net.old).spare }
    ensures rounded { GoesRound ⟦<dyn Framer as Framer>⟧ N.Becomes from.old to.old deadline net.old net.new
        (N.net net.old).told heard.old.items (λ x calls. Stands x calls from.old.sender heard.old.items enough) result
        from.new.sender (N.net net.new).told to.new.receiver heard.new.items }
    ensures nearer { IfAgain result (λ again. count_left from.new.sender +
        rest_by deadline (N.net net.new).told to.new.receiver.ended (unread_of to.new.receiver.source) <
        count_left from.old.sender +
        rest_by deadline (N.net net.old).told to.old.receiver.ended (unread_of to.old.receiver.source)) }
    ensures lags { IfAgain result (λ again. Lags again from.new.sender (unread_of to.new.receiver.source)) }
    ensures moves { Moves from.old.socket to.old.socket (N.net net.old) (N.net net.new) }
    ensures spare { IfAgain result (λ again.
        (N.net net.old).spare + (one_unless from.new.sender.shut + one_unless to.new.receiver.ended) ≤
        (N.net net.new).spare + (one_unless from.old.sender.shut + one_unless to.old.receiver.ended)) }
    ensures spent { (N.net net.old).spare ≤ (N.net net.new).spare + 2 }
    ensures sends { IsSound (is_stream from.old.stack) (layers_of ⟦<dyn Framer as Framer>⟧ from.old.chain)
        from.new.sender }
    ensures holds { IfAgain result (λ again. IsHeld (N.net net.new).trace from.old.socket
        (is_stream from.old.stack) from.new.sender.shut from.old.receiver.ended) }
    ensures room { IfAgain result (λ again.
        rest_of from.new.sender ≤ ((N.net net.new).traffic from.old.socket).room) }
    ensures rest { HasRest from.new.sender.begun }
    ensures sound { IsSoundReceiver ⟦<dyn Framer as Framer>⟧ to.old.stack
        (layers_of ⟦<dyn Framer as Framer>⟧ to.old.chain) to.new.receiver }
    ensures held { IfAgain result (λ again. IsHeld (N.net net.new).trace to.old.socket (is_stream to.old.stack)
        to.old.sender.shut to.new.receiver.ended) }
    ensures sender_kept { from.new ≡ record from.old { sender = from.new.sender } }
    ensures kept { to.new ≡ record to.old { receiver = to.new.receiver; sender = to.new.sender } }
    ensures moment { to.new.sender ≡ record to.old.sender { moment = to.new.sender.moment } }
{
    let until = until_of(enough, net.told(), deadline);
    match send_in_turn(from, until, deadline, net) {
        Ok(Out::Gone) => hear_behind(from, to, deadline, net, heard),
        Ok(Out::Nothing) => hear_last(from, to, enough, deadline, net, heard),
        Ok(Out::Passed) => Ok(Round::Again(enough)),
        Ok(Out::Over(outcome)) => {
            heard.truncate(from.sent() as usize + 1);
            Ok(Round::Over(outcome))
        }
        Err(none) => Err(none),
    }
}
