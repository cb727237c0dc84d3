ghost use Rattle.std.specs.Prelude.{◌≡◌, ◌<◌, ◌^◌, [], length, slice_get, Some};
ghost use Rattle.std.specs.Option.{option_map};
ghost use Rattle.taps_chain.specs.Layers.{layers_of};
ghost use Rattle.taps_socket.specs.RaceSockets.{pending_sockets};
ghost use Rattle.taps_example_client.specs.PlanFacts.{IsPlanOf};
ghost use Rattle.taps_example_client.specs.Clients.{HasCalled, wants};

use crate::{Planned, race_over};
use std::alloc::Global;
use taps_base::NoMemory;
use taps_chain::Chain;
use taps_exchange::{Exchanged, exchange_over};
use taps_framer::Framer;
use taps_message::Message;
use taps_property::ConnectionProps;
use taps_racer::RaceAnswer;
use taps_socket::Sockets;
use taps_stack::Stack;

/// What comes of a call.
#[derive(Debug, Drop)]
pub enum Called {
    /// The race has this answer, and no winner.
    NoWinner(RaceAnswer),
    /// So messages were exchanged over the winner's socket.
    Exchanged(Exchanged),
}

/// Races the leaves of a plan, sends messages over the winner's socket and hears so many, both up to a
/// time in milliseconds, and closes the socket, whatever came. No other socket of the race stays open.
pub fn call_over<N: Sockets>(
    alloc: Global,
    planned: &Planned,
    chain: Chain<'_>,
    messages: Vec<Message>,
    needs: u64,
    until: u64,
    net: &mut N,
) -> Result<Called, NoMemory>
    requires plan { IsPlanOf planned.now.pre planned.now.plan }
    requires idle { pending_sockets (N.net net.old).trace ≡ [] }
    requires until { until < 2 ^ 63 }
    ensures { HasCalled N.net N.Becomes planned.now
        (wants (layers_of ⟦<dyn Framer as Framer>⟧ chain.entry) messages.items needs until) net.old net.new result }
{
    match race_over(alloc, planned, net)? {
        RaceAnswer::Ready { leaf, socket, at } => {
            let stack = stack_of(planned, leaf);
            let props = ConnectionProps::defaults();
            match exchange_over(
                alloc, socket, stack, chain, props, 4096, messages, at, needs, until, net,
            ) {
                Ok(exchanged) => Ok(Called::Exchanged(exchanged)),
                Err(none) => Err(none),
            }
        }
        answer => Ok(Called::NoWinner(answer)),
    }
}

fn stack_of(planned: &Planned, leaf: u32) -> Stack
    requires { leaf < length planned.now.plan.leaves.items }
    ensures { option_map (λ l. l.target.stack) (slice_get planned.now.plan.leaves.items leaf) ≡ Some result }
{
    planned.plan.leaves.as_slice()[leaf as usize].target.stack
}
