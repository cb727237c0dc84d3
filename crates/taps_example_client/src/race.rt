ghost use Rattle.std.specs.Prelude.{◌≡◌, [], map, IfOk, OnErr};
ghost use Rattle.taps_socket.specs.Calls.{HasAdded};
ghost use Rattle.taps_socket.specs.Net.{with_spare};
ghost use Rattle.taps_socket.specs.RaceSockets.{pending_sockets};
ghost use Rattle.taps_example_client.specs.PlanFacts.{IsPlanOf};
ghost use Rattle.taps_example_client.specs.Races.{HasRaced};

use crate::Planned;
use std::alloc::Global;
use taps_base::NoMemory;
use taps_candidate::Leaf;
use taps_racer::{RaceAnswer, Racer, establish};
use taps_socket::{Sockets, Target};

/// Races the leaves of a plan over any sockets of which none is pending, and leaves the winner's open.
/// The answer is the winner's leaf, socket and time in milliseconds, or why there is none.
pub fn race_over<N: Sockets>(
    alloc: Global,
    planned: &Planned,
    net: &mut N,
) -> Result<RaceAnswer, NoMemory>
    requires plan { IsPlanOf planned.now.pre planned.now.plan }
    requires idle { pending_sockets (N.net net.old).trace ≡ [] }
    ensures raced { IfOk result (HasRaced planned.now (N.net net.old) (N.net net.new)) }
    ensures nothing_begun { OnErr result (N.net net.new ≡ with_spare (N.net net.old) (N.net net.new).spare) }
    ensures becomes { HasAdded N.Becomes net.old net.new (N.net net.old).trace (N.net net.new).trace }
{
    let targets = targets(alloc, planned.plan.leaves.as_slice())?;
    let times = &planned.pre.race;
    let gaps = planned.plan.gaps.as_slice();
    let racer = Racer::new(alloc, gaps, times.timeout_ms, times.cancel_ms)?;
    // The items of the race, and three for what is done with its winner.
    net.reserve(4 * targets.len() as u64 + 4)?;
    match establish(racer, 0, &targets, net) {
        Ok(ended) => Ok(ended.answer()),
        Err((none, _)) => Err(none),
    }
}

fn targets(alloc: Global, leaves: &[Leaf]) -> Result<Vec<Target>, NoMemory>
    ensures { IfOk result (λ targets. targets.items ≡ map (λ leaf. leaf.target) leaves.now) }
{
    Ok(leaves.iter().map(target).collect(alloc)?)
}

fn target(leaf: &Leaf) -> Target
    ensures { result ≡ leaf.now.target }
{
    leaf.target
}
