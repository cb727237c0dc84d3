// The turn of the end that sends.
ghost use Rattle.std.specs.Prelude.{◌≡◌, ◌≤◌, ◌<◌, ◌^◌, ◌+◌, List};
ghost use Rattle.taps_chain.specs.ChainLaws.{AreFramers};
ghost use Rattle.taps_chain.specs.Layers.{layers_of};
ghost use Rattle.taps_connection.specs.Conditions.{IsHeld};
ghost use Rattle.taps_connection.specs.Encodings.{encoding_of};
ghost use Rattle.taps_connection.specs.Senders.{rest_of};
ghost use Rattle.taps_connection.specs.Sound.{IsSound};
ghost use Rattle.taps_exchange.specs.Changes.{Changes};
ghost use Rattle.taps_exchange.specs.Hearings.{one_unless};
ghost use Rattle.taps_socket.specs.Calls.{Call};
ghost use Rattle.taps_stack.specs.StackTable.{is_stream};
ghost use Rattle.taps_loop.specs.Loops.{Ends};
ghost use Rattle.taps_loop.specs.Sends.{HasRest, HasTurned, IsToSend, IsFurther, IfOutGoesOn, out_by, timed_out};

use taps_base::NoMemory;
use taps_connection::{Connection, Open, Pushed};
use taps_exchange::Outcome;
use taps_framer::Framer;
use taps_socket::Sockets;

// A message went out, or a call was timed; no message is left; the next one had expired; or the exchange ends.
#[derive(Clone, Copy, Debug)]
pub enum Out {
    Gone,
    Nothing,
    Passed,
    Over(Outcome),
}

// Lets a message go out up to a time in milliseconds. A timed call ends the exchange only if the deadline has passed.
pub fn send_in_turn<N: Sockets, S: Open>(
    from: &mut Connection<'_, S>,
    until: u64,
    deadline: u64,
    net: &mut N,
) -> Result<Out, NoMemory>
    requires framers { AreFramers (layers_of ⟦<dyn Framer as Framer>⟧ from.old.chain) }
    requires sound { IsSound (is_stream from.old.stack) (layers_of ⟦<dyn Framer as Framer>⟧ from.old.chain)
        from.old.sender }
    requires held { IsHeld (N.net net.old).trace from.old.socket (is_stream from.old.stack)
        from.old.sender.shut from.old.receiver.ended }
    requires room { rest_of from.old.sender ≤ ((N.net net.old).traffic from.old.socket).room }
    requires rest { HasRest from.old.sender.begun }
    requires spare { 1 ≤ (N.net net.old).spare }
    requires until { until < 2 ^ 63 }
    ensures turned { (x : Ends) (calls : List Call) →
        IsToSend x calls (encoding_of (is_stream from.old.stack) (layers_of ⟦<dyn Framer as Framer>⟧ from.old.chain))
        from.old.socket until deadline from.old.sender →
        HasTurned N.Becomes x calls
        (encoding_of (is_stream from.old.stack) (layers_of ⟦<dyn Framer as Framer>⟧ from.old.chain))
        net.old net.new result from.new.sender }
    ensures further { IsFurther until deadline (N.net net.new).told result from.old.sender from.new.sender }
    ensures rises { (N.net net.old).told ≤ (N.net net.new).told }
    ensures changes { Changes from.old.socket 1 (N.net net.old) (N.net net.new) }
    ensures spare { IfOutGoesOn result ((N.net net.old).spare + one_unless from.new.sender.shut ≤
        (N.net net.new).spare + one_unless from.old.sender.shut) }
    ensures sound { IsSound (is_stream from.old.stack) (layers_of ⟦<dyn Framer as Framer>⟧ from.old.chain)
        from.new.sender }
    ensures held { IfOutGoesOn result (IsHeld (N.net net.new).trace from.old.socket (is_stream from.old.stack)
        from.new.sender.shut from.old.receiver.ended) }
    ensures room { rest_of from.new.sender ≤ ((N.net net.new).traffic from.old.socket).room }
    ensures rest { HasRest from.new.sender.begun }
    ensures kept { from.new ≡ record from.old { sender = from.new.sender } }
{
    let pushed = from.drive_out(net, until);
    turn_of(pushed, deadline)
}

// What an answer makes of the turn.
fn turn_of(pushed: Pushed, deadline: u64) -> Result<Out, NoMemory>
    ensures { result ≡ out_by deadline pushed }
{
    match pushed {
        Pushed::Sent(_) => Ok(Out::Gone),
        Pushed::Empty => Ok(Out::Nothing),
        Pushed::Expired(_) => Ok(Out::Passed),
        Pushed::Timed(at) => Ok(timed(at, deadline)),
        Pushed::Failed(cause) => Ok(Out::Over(Outcome::DataFailed(cause))),
        Pushed::NotSpeakable { number, layer } => Ok(Out::Over(Outcome::NotSpeakable {
            member: 0,
            number,
            layer,
        })),
        Pushed::NoMemory => Err(NoMemory),
    }
}

fn timed(at: u64, deadline: u64) -> Out
    ensures { result ≡ timed_out deadline at }
{
    if deadline <= at {
        Out::Over(Outcome::Timed)
    } else {
        Out::Gone
    }
}
