// The end of a group.
ghost use Rattle.std.specs.Prelude.{◌≡◌, ◌≤◌, ◌∷◌, [], length, true};
ghost use Rattle.taps_socket.specs.Calls.{closes};
ghost use Rattle.taps_socket.specs.LiveSockets.{live_sockets};
ghost use Rattle.taps_socket.specs.Net.{with_item};
ghost use Rattle.taps_socket.specs.RaceSockets.{has};
ghost use Rattle.taps_socket.specs.declared.item.Item.TheVariants as item;
ghost use Rattle.taps_group.specs.Closes.{MayClose, close_calls, sockets_of, with_closes};

use crate::group::Group;
use crate::member::Member;
use taps_socket::Sockets;

impl<'a> Group<'a> {
    /// Closes every member at once, by place.
    pub fn finish_all<N: Sockets>(self, net: &mut N)
        requires may { MayClose (N.net net.old).trace (sockets_of self.members.items) }
        requires spare { length self.members.items ≤ (N.net net.old).spare }
        ensures net { N.net net.new ≡ with_closes (sockets_of self.entry.members.items) (N.net net.old) }
        ensures becomes { N.Becomes net.old (close_calls (sockets_of self.entry.members.items)) net.new }
    {
        close_all(self.into_members(), net);
    }
}

/// Closes members at once, by place.
pub fn close_all<N: Sockets>(members: Vec<Member<'_>>, net: &mut N)
    requires may { MayClose (N.net net.old).trace (sockets_of members.items) }
    requires spare { length members.items ≤ (N.net net.old).spare }
    ensures net { N.net net.new ≡ with_closes (sockets_of members.entry.items) (N.net net.old) }
    ensures becomes { N.Becomes net.old (close_calls (sockets_of members.entry.items)) net.new }
{
    let mut rest = members.into_iter();
    while let Some(member) = rest.next() {
        close(member, net);
    }
    rest.destroy_empty();
}

// Closes a member at once.
fn close<N: Sockets>(member: Member<'_>, net: &mut N)
    requires live { has (live_sockets (N.net net.old).trace) member.connection.socket ≡ true }
    requires spare { 1 ≤ (N.net net.old).spare }
    ensures net { N.net net.new ≡
        with_item (N.net net.old) (item.Closed member.entry.connection.socket) (N.net net.old).told }
    ensures becomes { N.Becomes net.old (closes member.entry.connection.socket ∷ []) net.new }
{
    let Member {
        connection,
        priority: _,
        orders: _,
    } = member;
    let _ = connection.abort(net);
}
