ghost use Rattle.std.specs.Prelude.{◌≡◌, ◌<◌, ◌≤◌, ◌+◌, ◌*◌, ◌^◌, ℕ, List, [], length, slice_get, true, Some, IfOk, IfErr, OnErr};
ghost use Rattle.taps_stack.specs.declared.target.Target.{Target};
ghost use Rattle.taps_socket.specs.RaceSockets.{has, pending_sockets};
ghost use Rattle.taps_socket.specs.LiveSockets.{live_sockets};
ghost use Rattle.taps_socket.specs.Rules.{Rules};
ghost use Rattle.taps_socket.specs.Calls.{HasAdded};
ghost use Rattle.taps_socket.specs.Net.{Net};
ghost use Rattle.taps_racer.specs.declared.command.Command.TheVariants.{Start, Wait, Close};
ghost use Rattle.taps_racer.specs.Commands.{command_of};
ghost use Rattle.taps_racer.specs.CarriedOut.{HasCarriedOut};
ghost use Rattle.taps_racer.specs.UnderWay.{UnderWay, KeepsUnderWay, told_of};

use crate::{Command, Ended, Racer, Racing, Told, Unstarted};
use taps_base::NoMemory;
use taps_socket::{Sockets, StartAnswer, Target};

/// Carries a race out over sockets, from its first item to its answer.
///
/// Leaf k is started for the target at place k, under the number `first + k`. All the items of the
/// race are reserved before it begins, and no memory is taken after that.
pub fn establish<N: Sockets>(
    racer: Racer<Unstarted>,
    first: u32,
    targets: &[Target],
    net: &mut N,
) -> Result<Racer<Ended>, (NoMemory, Racer<Unstarted>)>
    requires leaves { length racer.rules.gaps ≡ length targets.now }
    requires numbers { first + length targets.now < 2 ^ 32 }
    requires idle { pending_sockets (N.net net.old).trace ≡ [] }
    ensures race { IfOk result (λ ended.
        HasCarriedOut racer.rules first targets.now (N.net net.old) (N.net net.new) ended) }
    ensures unchanged { OnErr result (N.net net.new ≡ N.net net.old) }
    ensures handed_back { IfErr result (λ e. e.1 ≡ racer) }
    ensures becomes { HasAdded N.Becomes net.old net.new (N.net net.old).trace (N.net net.new).trace }
{
    let items = 4 * targets.len() as u64 + 1;
    if let Err(none) = net.reserve(items) {
        return Err((none, racer));
    }
    Ok(carry_out(racer, first, targets, net))
}

// Carries out a race for whose items there is room.
fn carry_out<N: Sockets>(
    racer: Racer<Unstarted>,
    first: u32,
    targets: &[Target],
    net: &mut N,
) -> Racer<Ended>
    requires leaves { length racer.rules.gaps ≡ length targets.now }
    requires numbers { first + length targets.now < 2 ^ 32 }
    requires idle { pending_sockets (N.net net.old).trace ≡ [] }
    requires room { 4 * length targets.now + 1 ≤ (N.net net.old).spare }
    ensures race { HasCarriedOut racer.rules first targets.now (N.net net.old) (N.net net.new) result }
    ensures becomes { HasAdded N.Becomes net.old net.new (N.net net.old).trace (N.net net.new).trace }
{
    let at = net.now();
    let mut racing = racer.begin(at);
    'race: loop {
        match racing.next() {
            Command::Start(leaf) => {
                let target = target_of(targets, leaf);
                start(&mut racing, leaf, first + leaf, target, net);
            }
            Command::Wait(until) => wait(&mut racing, until, net),
            Command::Close(socket) => close(&mut racing, socket, net),
            Command::Finish(_) => return racing.finish(),
        }
    }
}

fn target_of(targets: &[Target], leaf: u32) -> Target
    requires { leaf < length targets.now }
    ensures { slice_get targets.now leaf ≡ Some result }
{
    targets[leaf as usize]
}

// Starts the leaf that is asked for.
fn start<N: Sockets>(racer: &mut Racer<Racing>, leaf: u32, number: u32, target: Target, net: &mut N)
    requires { 1 ≤ (N.net net.old).spare }
    ensures one { length (N.net net.new).trace ≡ length (N.net net.old).trace + 1 }
    ensures becomes { HasAdded N.Becomes net.old net.new (N.net net.old).trace (N.net net.new).trace }
    ensures goes_on { command_of racer.old ≡ Start leaf →
        (rules : Rules) (first : ℕ) (targets : List Target) (before : Net) →
        number ≡ first + leaf → slice_get targets leaf ≡ Some target →
        UnderWay racer.old rules first targets before (N.net net.old) →
        UnderWay racer.new rules first targets before (N.net net.new) }
{
    let answer = net.start(number, target);
    let _ = racer.tell(event_of(leaf, answer));
}

fn event_of(leaf: u32, answer: StartAnswer) -> Told
    ensures { result ≡ told_of leaf answer }
{
    match answer {
        StartAnswer::Started { socket, at } => Told::Started { leaf, socket, at },
        StartAnswer::Refused { cause, at } => Told::Refused { leaf, cause, at },
    }
}

// Waits as is asked for.
fn wait<N: Sockets>(racer: &mut Racer<Racing>, until: u64, net: &mut N)
    requires { 1 ≤ (N.net net.old).spare }
    ensures one { length (N.net net.new).trace ≡ length (N.net net.old).trace + 1 }
    ensures becomes { HasAdded N.Becomes net.old net.new (N.net net.old).trace (N.net net.new).trace }
    ensures goes_on { command_of racer.old ≡ Wait until →
        KeepsUnderWay racer.old racer.new (N.net net.old) (N.net net.new) }
{
    let answer = net.wait(until);
    let _ = racer.tell(Told::Waited {
        until,
        at: answer.at,
        how: answer.how,
    });
}

// Closes the socket that is to be closed.
fn close<N: Sockets>(racer: &mut Racer<Racing>, socket: u32, net: &mut N)
    requires room { 1 ≤ (N.net net.old).spare }
    requires live { has (live_sockets (N.net net.old).trace) socket ≡ true }
    ensures one { length (N.net net.new).trace ≡ length (N.net net.old).trace + 1 }
    ensures becomes { HasAdded N.Becomes net.old net.new (N.net net.old).trace (N.net net.new).trace }
    ensures goes_on { command_of racer.old ≡ Close socket →
        KeepsUnderWay racer.old racer.new (N.net net.old) (N.net net.new) }
{
    net.close(socket);
    let _ = racer.tell(Told::Closed { socket });
}
