// The race of a clone.
ghost use Rattle.std.specs.Prelude.{◌≡◌, ◌≤◌, ◌<◌, ◌+◌, ◌^◌, [], IfOk, OnErr};
ghost use Rattle.taps_socket.specs.Calls.{HasAdded};
ghost use Rattle.taps_socket.specs.RaceSockets.{pending_sockets};
ghost use Rattle.taps_group.specs.Clones.{HasRaced};
ghost use Rattle.taps_group.specs.Winning.{IsWon};

use std::alloc::Global;
use taps_base::{Gap, NoMemory};
use taps_racer::{RaceAnswer, Racer, establish};
use taps_socket::{Sockets, Target};

// Races one leaf, which leads to a target, under a number. Where memory runs out, nothing was begun.
pub(crate) fn race<N: Sockets>(
    alloc: Global,
    target: Target,
    leaf: u32,
    timeout: u64,
    net: &mut N,
) -> Result<RaceAnswer, NoMemory>
    requires number { leaf + 1 < 2 ^ 32 }
    requires timeout { timeout ≤ 3600000 }
    requires idle { pending_sockets (N.net net.old).trace ≡ [] }
    ensures raced { IfOk result (HasRaced target leaf timeout (N.net net.old) (N.net net.new)) }
    ensures unchanged { OnErr result (N.net net.new ≡ N.net net.old) }
    ensures becomes { HasAdded N.Becomes net.old net.new (N.net net.old).trace (N.net net.new).trace }
{
    let gaps = [Gap::After(0)];
    let targets = [target];
    let racer = Racer::new(alloc, &gaps, timeout, None)?;
    match establish(racer, leaf, &targets, net) {
        Ok(ended) => Ok(ended.answer()),
        Err((none, _)) => Err(none),
    }
}

// What came of a race: a socket, which was given at a time, or the answer that gave none.
#[derive(Drop)]
pub(crate) enum Won {
    Ready { socket: u32, at: u64 },
    Failed(RaceAnswer),
}

// The socket that an answer names.
pub(crate) fn result_of(answer: RaceAnswer) -> Won
    ensures { IsWon answer result }
{
    match answer {
        RaceAnswer::Ready {
            leaf: _,
            socket,
            at,
        } => Won::Ready { socket, at },
        RaceAnswer::NoCandidate => Won::Failed(answer),
        RaceAnswer::AllFailed => Won::Failed(answer),
        RaceAnswer::Timeout => Won::Failed(answer),
        RaceAnswer::Closed => Won::Failed(answer),
        RaceAnswer::SocketFault => Won::Failed(answer),
    }
}
