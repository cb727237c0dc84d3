// The turn of the end that hears.
ghost use Rattle.std.specs.Prelude.{◌≡◌, ◌≤◌, ◌<◌, ◌+◌, ℕ, List, false, length};
ghost use Rattle.taps_chain.specs.ChainLaws.{AreFramers};
ghost use Rattle.taps_chain.specs.Layers.{layers_of};
ghost use Rattle.taps_connection.specs.Sources.{unread_of};
ghost use Rattle.taps_connection.specs.Unread.{count_given, IsWanting};
ghost use Rattle.taps_exchange.specs.Decodings.{decoding_of};
ghost use Rattle.taps_exchange.specs.Hearings.{IsLacking};
ghost use Rattle.taps_exchange.specs.Members.{calls_on, pieces_read};
ghost use Rattle.taps_exchange.specs.Turns.{Turn};
ghost use Rattle.taps_socket.specs.Calls.{Call};
ghost use Rattle.taps_stack.specs.StackTable.{is_stream};
ghost use Rattle.taps_loop.specs.Connections.{MayAsk, HasAskedOnce, IsAcceptedEnd, IsKeptOf, HasHeardOnce};
ghost use Rattle.taps_loop.specs.Loops.{Ends};
ghost use Rattle.taps_loop.specs.Looks.{AreAll};
ghost use Rattle.taps_loop.specs.Hears.{IsToHear, HasAsked, IsReadIf, IsInSooner, IfInGoesOn, IsSooner, IfCame, asked_by, timed_by, in_found, soon_by, one_true};

use crate::looked::{Look, look_for};
use crate::reporting::Reporting;
use taps_base::{Body, NoMemory};
use taps_connection::{Connection, Open, Pulled};
use taps_exchange::{Outcome, ask_once};
use taps_framer::Framer;

// As many messages were heard as are needed, and nothing was asked for; or bytes were, and as many are heard now or
// not; or the exchange ends.
#[derive(Clone, Copy, Debug)]
pub enum In {
    Enough,
    Asked(bool),
    Over(Outcome),
}

// Bytes or the end of the stream came; or nothing did in time; or the exchange ends.
#[derive(Clone, Copy, Debug)]
pub enum Asked {
    Came,
    Nothing,
    Over(Outcome),
}

// Asks once for bytes, up to a millisecond behind the last reported time. A timed call ends the exchange only if the
// deadline has passed and no message waits.
pub fn ask_in_turn<N: Reporting, S: Open>(
    to: &mut Connection<'_, S>,
    waits: bool,
    deadline: u64,
    net: &mut N,
) -> Result<Asked, NoMemory>
    requires wanting { IsWanting (unread_of to.old.receiver.source) }
    requires goes_on { to.old.receiver.ended ≡ false }
    requires asks { MayAsk ⟦<dyn Framer as Framer>⟧ to.old (N.net net.old) deadline }
    ensures read { (x : Ends) (calls : List Call) (others : Turn) (piece more needs : ℕ) (ms : List (List ℕ)) →
        IsAcceptedEnd ⟦<dyn Framer as Framer>⟧ x to.old piece deadline →
        IsToHear x calls others more needs (N.net net.old).told →
        more ≡ one_true waits →
        IsKeptOf ⟦<dyn Framer as Framer>⟧ x calls to.old piece ms →
        IsLacking (decoding_of (is_stream to.old.stack) (layers_of ⟦<dyn Framer as Framer>⟧ to.old.chain)) piece needs
        (pieces_read (calls_on x.to.socket calls)) to.old.receiver.ended (unread_of to.old.receiver.source) ms →
        length ms < needs →
        AreAll (decoding_of (is_stream to.old.stack) (layers_of ⟦<dyn Framer as Framer>⟧ to.old.chain))
        (pieces_read (calls_on x.to.socket calls)) to.old.receiver.ended ms →
        HasAsked N.Becomes x calls net.old net.new (λ later.
        IsReadIf x calls later (is_stream to.old.stack) (layers_of ⟦<dyn Framer as Framer>⟧ to.old.chain) piece more
        needs result to.new.receiver.ended (unread_of to.new.receiver.source) ms) }
    ensures sooner { IfCame result (IsSooner waits deadline (N.net net.old).told (N.net net.new).told
        to.old.receiver.ended (unread_of to.old.receiver.source) to.new.receiver.ended
        (unread_of to.new.receiver.source)) }
    ensures still { result ≡ Ok Asked.Nothing →
        count_given (unread_of to.new.receiver.source) ≡ count_given (unread_of to.old.receiver.source) }
    ensures once { HasAskedOnce ⟦<dyn Framer as Framer>⟧ to.old to.new (N.net net.old) (N.net net.new)
        (IfCame result) }
{
    let until = soon(net.told(), deadline);
    let pulled = ask_once(to, until, net);
    turn_of(pulled, deadline, waits)
}

// A millisecond behind a time, up to the deadline.
fn soon(told: u64, deadline: u64) -> u64
    ensures { result ≡ soon_by told deadline }
{
    if told < deadline { told + 1 } else { deadline }
}

// What an answer makes of the turn.
fn turn_of(pulled: Pulled, deadline: u64, waits: bool) -> Result<Asked, NoMemory>
    ensures { result ≡ asked_by deadline waits pulled }
{
    match pulled {
        Pulled::Got => Ok(Asked::Came),
        Pulled::Ended => Ok(Asked::Came),
        Pulled::Timed(at) => Ok(timed(at, deadline, waits)),
        Pulled::Failed(cause) => Ok(Asked::Over(Outcome::DataFailed(cause))),
        Pulled::NoMemory => Err(NoMemory),
    }
}

fn timed(at: u64, deadline: u64, waits: bool) -> Asked
    ensures { result ≡ timed_by deadline waits at }
{
    if deadline <= at && !waits {
        Asked::Over(Outcome::Timed)
    } else {
        Asked::Nothing
    }
}

// Gives out what was read; where fewer messages were heard than are needed, it asks once for bytes and gives out what
// came.
pub fn hear_in_turn<N: Reporting, S: Open>(
    to: &mut Connection<'_, S>,
    needs: u64,
    waits: bool,
    deadline: u64,
    net: &mut N,
    heard: &mut Vec<Body>,
) -> Result<In, NoMemory>
    requires framers { AreFramers (layers_of ⟦<dyn Framer as Framer>⟧ to.old.chain) }
    requires asks { MayAsk ⟦<dyn Framer as Framer>⟧ to.old (N.net net.old) deadline }
    requires few { needs ≤ 256 }
    ensures heard { (x : Ends) (calls : List Call) (others : Turn) (piece more : ℕ) →
        IsAcceptedEnd ⟦<dyn Framer as Framer>⟧ x to.old piece deadline →
        IsToHear x calls others more needs (N.net net.old).told →
        more ≡ one_true waits →
        IsKeptOf ⟦<dyn Framer as Framer>⟧ x calls to.old piece heard.old.items →
        HasHeardOnce ⟦<dyn Framer as Framer>⟧ N.Becomes x calls to.old net.old net.new piece more needs result
        to.new.receiver heard.new.items }
    ensures sooner { IsInSooner needs waits deadline (N.net net.old).told (N.net net.new).told result
        to.old.receiver.ended (unread_of to.old.receiver.source) to.new.receiver.ended
        (unread_of to.new.receiver.source) }
    ensures once { HasAskedOnce ⟦<dyn Framer as Framer>⟧ to.old to.new (N.net net.old) (N.net net.new)
        (IfInGoesOn result) }
{
    match look_for(to, needs, heard) {
        Ok(Look::Enough) => Ok(In::Enough),
        Ok(Look::Lacks) => read_on(to, needs, waits, deadline, net, heard),
        Ok(Look::Over(outcome)) => Ok(In::Over(outcome)),
        Err(none) => Err(none),
    }
}

// Asks once for bytes, and gives out what came.
fn read_on<N: Reporting, S: Open>(
    to: &mut Connection<'_, S>,
    needs: u64,
    waits: bool,
    deadline: u64,
    net: &mut N,
    heard: &mut Vec<Body>,
) -> Result<In, NoMemory>
    requires framers { AreFramers (layers_of ⟦<dyn Framer as Framer>⟧ to.old.chain) }
    requires wanting { IsWanting (unread_of to.old.receiver.source) }
    requires goes_on { to.old.receiver.ended ≡ false }
    requires asks { MayAsk ⟦<dyn Framer as Framer>⟧ to.old (N.net net.old) deadline }
    requires few { needs ≤ 256 }
    requires less { count_given (unread_of to.old.receiver.source) < needs }
    ensures heard { (x : Ends) (calls : List Call) (others : Turn) (piece more : ℕ) →
        IsAcceptedEnd ⟦<dyn Framer as Framer>⟧ x to.old piece deadline →
        IsToHear x calls others more needs (N.net net.old).told →
        more ≡ one_true waits →
        IsKeptOf ⟦<dyn Framer as Framer>⟧ x calls to.old piece heard.old.items →
        IsLacking (decoding_of (is_stream to.old.stack) (layers_of ⟦<dyn Framer as Framer>⟧ to.old.chain)) piece needs
        (pieces_read (calls_on x.to.socket calls)) to.old.receiver.ended (unread_of to.old.receiver.source)
        heard.old.items →
        length heard.old.items < needs →
        AreAll (decoding_of (is_stream to.old.stack) (layers_of ⟦<dyn Framer as Framer>⟧ to.old.chain))
        (pieces_read (calls_on x.to.socket calls)) to.old.receiver.ended heard.old.items →
        HasHeardOnce ⟦<dyn Framer as Framer>⟧ N.Becomes x calls to.old net.old net.new piece more needs result
        to.new.receiver heard.new.items }
    ensures sooner { IsInSooner needs waits deadline (N.net net.old).told (N.net net.new).told result
        to.old.receiver.ended (unread_of to.old.receiver.source) to.new.receiver.ended
        (unread_of to.new.receiver.source) }
    ensures once { HasAskedOnce ⟦<dyn Framer as Framer>⟧ to.old to.new (N.net net.old) (N.net net.new)
        (IfInGoesOn result) }
{
    match ask_in_turn(to, waits, deadline, net) {
        Ok(Asked::Came) => match look_for(to, needs, heard) {
            Ok(found) => Ok(turn_found(found)),
            Err(none) => Err(none),
        },
        Ok(Asked::Nothing) => Ok(In::Asked(false)),
        Ok(Asked::Over(outcome)) => Ok(In::Over(outcome)),
        Err(none) => Err(none),
    }
}

// What a look makes of the turn.
fn turn_found(found: Look) -> In
    ensures { result ≡ in_found found }
{
    match found {
        Look::Enough => In::Asked(true),
        Look::Lacks => In::Asked(false),
        Look::Over(outcome) => In::Over(outcome),
    }
}
