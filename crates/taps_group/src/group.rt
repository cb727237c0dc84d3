ghost use Rattle.std.specs.Prelude.{◌≡◌, ◌≤◌, ◌<◌, ◌^◌, ◌∷◌, [], length, slice_get, Some, IfOk, IfErr, MatchResult};
ghost use Rattle.taps_chain.specs.Layers.{layers_of};
ghost use Rattle.taps_connection.specs.Inboxes.{IsSoundReceiver};
ghost use Rattle.taps_connection.specs.Sound.{IsSound};
ghost use Rattle.taps_stack.specs.StackTable.{is_stream};
ghost use Rattle.taps_group.specs.Groups.{IsSoundGroup};
ghost use Rattle.taps_group.specs.Places.{IsAt};
ghost use Rattle.taps_group.specs.Begun.{Begins};

use crate::member::Member;
use std::alloc::Global;
use taps_base::NoMemory;
use taps_chain::Chain;
use taps_connection::{Connection, Established};
use taps_framer::Framer;
use taps_property::{ConnState, ConnectionProps};
use taps_socket::Target;

/// Connections to one target that share their properties but for the priority (RFC 9622 section 7.4).
///
/// A group must be spent. Contracts see its members by place, the properties that they share, its
/// target and chain, and for each message that was accepted, in this order, the place of its member.
pub struct Group<'a> {
    pub(crate) members: Vec<Member<'a>>,
    pub(crate) props: ConnectionProps,
    pub(crate) order: Vec<u32>,
    pub(crate) target: Target,
    pub(crate) chain: Chain<'a>,
    pub(crate) piece: u64,
}

impl<'a> Group<'a> {
    /// A group of one connection that accepted no message yet, with its properties. Clones lead to the
    /// target, through copies of the chain, and over a stream ask for so many bytes at once. Where
    /// memory runs out, the connection is handed back.
    pub fn new(
        alloc: Global,
        first: Connection<'a, Established>,
        target: Target,
        chain: Chain<'a>,
        piece: u64,
    ) -> Result<Group<'a>, (NoMemory, Connection<'a, Established>)>
        requires none_accepted { first.sender.queue.queue.accepted ≡ 0 }
        requires sending { IsSound (is_stream first.stack) (layers_of ⟦<dyn Framer as Framer>⟧ first.chain)
            first.sender }
        requires receiving { IsSoundReceiver ⟦<dyn Framer as Framer>⟧ first.stack
            (layers_of ⟦<dyn Framer as Framer>⟧ first.chain) first.receiver }
        requires some { 1 ≤ piece }
        requires few { piece ≤ 65536 }
        ensures begins { IfOk result (Begins ⟦<dyn Framer as Framer>⟧ first.entry target chain.entry piece) }
        ensures sound { IfOk result (IsSoundGroup ⟦<dyn Framer as Framer>⟧) }
        ensures handed_back { IfErr result (λ e. e.1 ≡ first.entry) }
    {
        let props = ConnectionProps {
            conn_state: ConnState::Established,
            ..first.props()
        };
        let member = Member {
            connection: first,
            priority: props.conn_priority,
            orders: Vec::new(alloc),
        };
        let mut members = Vec::new(alloc);
        match members.push(member) {
            Ok(()) => Ok(Group {
                members,
                props,
                order: Vec::new(alloc),
                target,
                chain,
                piece,
            }),
            Err(failed) => {
                members.destroy_empty();
                let Member {
                    connection,
                    priority: _,
                    orders: _,
                } = failed.value;
                Err((NoMemory, connection))
            }
        }
    }

    /// The number of members.
    pub fn len(&self) -> u32
        requires sound { IsSoundGroup ⟦<dyn Framer as Framer>⟧ self.now }
        ensures { result ≡ length self.now.members.items }
    {
        self.members.len() as u32
    }

    /// The member at a place, counted from 0.
    pub fn member(&self, place: u32) -> &Connection<'a, Established>
        requires { place < length self.now.members.items }
        ensures { IsAt self.now.members.items place (λ m. result.now ≡ m.connection) }
    {
        &self.members[place as usize].connection
    }

    /// The members, by place, each with the duty to close its connection.
    pub fn into_members(self) -> Vec<Member<'a>>
        ensures { result.items ≡ self.entry.members.items }
    {
        let Group {
            members,
            props: _,
            order: _,
            target: _,
            chain: _,
            piece: _,
        } = self;
        members
    }

    // The allocator that the group keeps.
    pub(crate) fn allocator(&self) -> Global {
        *self.members.allocator()
    }
}
