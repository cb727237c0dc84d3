// The session of the role Initiate, with one member or of a group.
ghost use Rattle.std.specs.Prelude.{◌≡◌, []};
ghost use Rattle.taps_command.specs.Nets.{HasRun};
ghost use Rattle.taps_command.specs.Places.{IsOnShelf};
ghost use Rattle.taps_command.specs.Shelves.{layers_on};
ghost use Rattle.taps_session.specs.FileGroups as groups;
ghost use Rattle.taps_session.specs.FileSessions.{initiated, IsPlanFor};
ghost use Rattle.taps_session.specs.Roles.{HoldsInitiatedBy};

use crate::grouping::hold_grouped;
use crate::holding::hold;
use crate::session::Session;
use std::alloc::Global;
use taps_base::NoMemory;
use taps_candidate::Plan;
use taps_command::{Layers, Ready, Shelf};
use taps_framer::Framer;
use taps_preconnection::Preconnection;
use taps_socket::Sockets;

/// Races the leaves of the plan, and with a winner sends and hears messages, with one member or with those of its group.
pub fn hold_initiated<L: Layers, N: Sockets>(
    alloc: Global,
    shelf: &Shelf<'_>,
    ready: &Ready,
    plan: &Plan,
    net: &mut N,
) -> Result<Session, NoMemory>
    requires shelf { layers_on ⟦<dyn Framer as Framer>⟧ shelf.now ≡ L.layers }
    requires on_shelf { IsOnShelf L.layers ready.now.places }
    requires plan { IsPlanFor ready.now (initiated ready.now) plan.now }
    requires fresh { (N.net net.old).trace ≡ [] }
    ensures ran { HasRun N.Becomes net.old net.new (N.net net.old) (N.net net.new)
        (HoldsInitiatedBy (groups.has_one_member ready.now.pre) L.layers ready.now result) }
{
    if has_one_member(&ready.pre) {
        hold::<L, N>(alloc, shelf, ready, plan, net)
    } else {
        hold_grouped::<L, N>(alloc, shelf, ready, plan, net)
    }
}

// Whether there is one member, to which no priority is given.
fn has_one_member(pre: &Preconnection) -> bool
    ensures { result ≡ groups.has_one_member pre.now }
{
    let exchange = &pre.exchange;
    exchange.clones == 0 && exchange.priorities.len() == 0
}
