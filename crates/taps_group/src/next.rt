// Which member of a group sends next.
ghost use Rattle.std.specs.Prelude.{◌≡◌, ◌<◌, ℕ, List, length, slice_get, Some};
ghost use Rattle.taps_connection.specs.Senders.{waiting_number};
ghost use Rattle.taps_group.specs.Groups.{IsSoundGroup};
ghost use Rattle.taps_group.specs.Members.{standings, standing_of};
ghost use Rattle.taps_group.specs.Orders.{IsNextSender, is_before, waiting_in};
ghost use Rattle.taps_group.specs.Firsts.{IsNumbered, sooner};

use crate::group::Group;
use crate::member::{Member, Waiting};
use taps_framer::Framer;

impl<'a> Group<'a> {
    /// The member with something to send that has the least priority number, and on a tie the one whose
    /// first such message was accepted first, if there is one.
    pub fn next_sender(&self) -> Option<u32>
        requires sound { IsSoundGroup ⟦<dyn Framer as Framer>⟧ self.now }
        ensures { IsNextSender self.now.order.items (standings self.now.members.items) result }
    {
        let mut first = None;
        for place in 0..self.len() {
            first = sooner(first, waiting(&self.members[place as usize], place));
        }
        match first {
            Some(waiting) => Some(waiting.place),
            None => None,
        }
    }
}

// What a member at a place has to send.
fn waiting(member: &Member<'_>, place: u32) -> Option<Waiting>
    requires { IsNumbered member.now }
    ensures { result ≡ waiting_in member.now.orders.items place member.now.priority
        (waiting_number member.now.connection.sender) }
{
    match member.connection.waiting() {
        Some(number) => Some(Waiting {
            place,
            priority: member.priority,
            order: member.orders[number as usize],
        }),
        None => None,
    }
}

// The one that has its turn first.
fn sooner(first: Option<Waiting>, other: Option<Waiting>) -> Option<Waiting>
    ensures { result ≡ sooner first other }
{
    match (first, other) {
        (None, _) => other,
        (Some(_), None) => first,
        (Some(a), Some(b)) => { if is_before(b, a) { other } else { first } }
    }
}

// Whether the one has its turn before the other.
fn is_before(a: Waiting, b: Waiting) -> bool
    ensures { result ≡ is_before a b }
{
    a.priority < b.priority || (a.priority == b.priority && a.order < b.order)
}
