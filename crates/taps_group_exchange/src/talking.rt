// The members of a group send, and then hear.
ghost use Rattle.std.specs.Prelude.{◌≡◌, ◌≤◌, ◌<◌, ◌^◌, ◌+◌, ◌*◌, List, [], length};
ghost use Rattle.taps_exchange.specs.Turns.{Place};
ghost use Rattle.taps_group.specs.Closes.{IsOpen, MayClose, sockets_of};
ghost use Rattle.taps_group.specs.Groups.{IsSoundGroup};
ghost use Rattle.taps_group_exchange.specs.GroupHearings.{AllNeed, HasHeardOut};
ghost use Rattle.taps_group_exchange.specs.Standing.{AllOf, AreStanding, MayTalk, count_shut};

use crate::hearing::{Progress, hear_all};
use crate::sending::send_all;
use std::alloc::Global;
use taps_base::NoMemory;
use taps_framer::Framer;
use taps_group::{Group, Member};
use taps_socket::Sockets;

// Lets the members of a group send by priority, and then hear by place, up to a time in milliseconds. It
// hands the members back, none of them closed.
pub(crate) fn talk_all<'a, N: Sockets>(
    alloc: Global,
    mut group: Group<'a>,
    needs: u64,
    until: u64,
    net: &mut N,
) -> (Vec<Member<'a>>, Result<Progress, NoMemory>)
    requires sound { IsSoundGroup ⟦<dyn Framer as Framer>⟧ group }
    requires opened { IsOpen (N.net net.old) group.members.items }
    requires talk { AllOf (MayTalk ⟦<dyn Framer as Framer>⟧ (N.net net.old)) group.members.items }
    requires none_shut { count_shut group.members.items ≡ 0 }
    requires spare { 2 * length group.members.items ≤ (N.net net.old).spare }
    requires until { until < 2 ^ 63 }
    ensures talked { (places : List Place) → AllNeed until needs places →
        AreStanding ⟦<dyn Framer as Framer>⟧ [] places group.entry.members.items →
        HasHeardOut ⟦<dyn Framer as Framer>⟧ N.Becomes net.old net.new (N.net net.old) (N.net net.new) places result.1
        result.0.items }
    ensures close { MayClose (N.net net.new).trace (sockets_of result.0.items) }
    ensures sockets { sockets_of result.0.items ≡ sockets_of group.entry.members.items }
    ensures spare { (N.net net.old).spare ≤ (N.net net.new).spare + 2 * length group.entry.members.items }
{
    match send_all(&mut group, until, net) {
        Ok(stopped) => {
            let mut members = group.into_members();
            let heard = hear_all(alloc, &mut members, stopped, needs, until, net);
            (members, heard)
        }
        Err(none) => {
            let members = group.into_members();
            (members, Err(none))
        }
    }
}
