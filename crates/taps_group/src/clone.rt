// How a group grows.
ghost use Rattle.std.specs.Prelude.{◌≡◌, ◌≤◌, ◌<◌, ◌+◌, ◌-◌, ◌^◌, ◌++◌, ◌∷◌, [], true, length, vec_len, vec_capacity, IfOk, OnOk};
ghost use Rattle.taps_chain.specs.Layers.{layers_of};
ghost use Rattle.taps_socket.specs.declared.item.Item.TheVariants as item;
ghost use Rattle.taps_socket.specs.Calls.{HasAdded, closes};
ghost use Rattle.taps_socket.specs.LiveSockets.{live_sockets};
ghost use Rattle.taps_socket.specs.Net.{with_item};
ghost use Rattle.taps_socket.specs.RaceSockets.{has, pending_sockets};
ghost use Rattle.taps_group.specs.Closes.{IsOpen};
ghost use Rattle.taps_group.specs.Clones.{IsCloned, IsClone, IsGrown, IsJoined, HasNotRaced};
ghost use Rattle.taps_group.specs.Groups.{IsSoundGroup, IsSameGroup};

use crate::group::Group;
use crate::member::Member;
use crate::race::{Won, race, result_of};
use std::alloc::Global;
use taps_base::NoMemory;
use taps_chain::Chain;
use taps_connection::Connection;
use taps_framer::Framer;
use taps_property::ConnectionProps;
use taps_racer::RaceAnswer;
use taps_socket::Sockets;
use taps_stack::Stack;

// The priority of a new member.
const FIRST_PRIORITY: u64 = 100;

// The items of a race of one leaf, and one close.
const ITEMS: u64 = 6;

/// Why there is no clone (RFC 9622 section 7.4).
#[derive(Clone, Copy, Debug, PartialEq, Eq)]
pub enum CloneError {
    /// The group has as many members as it may have.
    LimitReached(u64),
    /// The race gave no socket.
    Failed(RaceAnswer),
    /// Memory ran out.
    NoMemory,
}

impl<'a> Group<'a> {
    /// A new member over a socket of its own, by a race of one leaf that leads to the group's target,
    /// under a number. The race fails so long after its beginning, in milliseconds. The answer is the
    /// member's place. After a refusal the group is as it was and no new socket is open.
    pub fn clone_connection<N: Sockets>(
        &mut self,
        net: &mut N,
        leaf: u32,
        timeout: u64,
    ) -> Result<u32, CloneError>
        requires sound { IsSoundGroup ⟦<dyn Framer as Framer>⟧ self.old }
        requires number { leaf < 2 ^ 32 - 1 }
        requires some { 1 ≤ timeout }
        requires few { timeout ≤ 3600000 }
        requires idle { pending_sockets (N.net net.old).trace ≡ [] }
        ensures cloned { IsCloned ⟦<dyn Framer as Framer>⟧ leaf timeout (N.net net.old) (N.net net.new)
            self.old result self.new }
        ensures becomes { HasAdded N.Becomes net.old net.new (N.net net.old).trace (N.net net.new).trace }
        ensures sound { IsSoundGroup ⟦<dyn Framer as Framer>⟧ self.new }
        ensures opened { IsOpen (N.net net.old) self.old.members.items →
            IsOpen (N.net net.new) self.new.members.items }
    {
        let limit = self.limit();
        if self.members.len() as u64 >= limit {
            return Err(CloneError::LimitReached(limit));
        }
        match self.reserve(net) {
            Ok(()) => self.grow(net, leaf, timeout),
            Err(_) => Err(CloneError::NoMemory),
        }
    }

    // Makes room for a member, for the items of its race and for one close.
    fn reserve<N: Sockets>(&mut self, net: &mut N) -> Result<(), NoMemory>
        ensures same { IsSameGroup self.old self.new }
        ensures member { OnOk result (vec_len self.new.members < vec_capacity self.new.members) }
        ensures not_raced { HasNotRaced (N.net net.old) (N.net net.new) }
        ensures items { OnOk result (6 ≤ (N.net net.new).spare) }
        ensures becomes { N.Becomes net.old [] net.new }
    {
        self.members.reserve(1)?;
        net.reserve(ITEMS)
    }

    // A new member, for which there is room, over the socket that its race gives.
    fn grow<N: Sockets>(&mut self, net: &mut N, leaf: u32, timeout: u64) -> Result<u32, CloneError>
        requires room { vec_len self.old.members < vec_capacity self.old.members }
        requires below { length self.old.members.items < 16 }
        requires piece_some { 1 ≤ self.old.piece }
        requires piece_few { self.old.piece ≤ 65536 }
        requires number { leaf < 2 ^ 32 - 1 }
        requires few { timeout ≤ 3600000 }
        requires idle { pending_sockets (N.net net.old).trace ≡ [] }
        requires items { 6 ≤ (N.net net.old).spare }
        ensures grown { IsGrown ⟦<dyn Framer as Framer>⟧ leaf timeout (N.net net.old) (N.net net.new)
            self.old result self.new }
        ensures becomes { HasAdded N.Becomes net.old net.new (N.net net.old).trace (N.net net.new).trace }
    {
        let alloc = self.allocator();
        match race(alloc, self.target, leaf, timeout, net) {
            Ok(answer) => match result_of(answer) {
                Won::Ready { socket, at } => self.join(net, socket, at),
                Won::Failed(failed) => Err(CloneError::Failed(failed)),
            },
            Err(_) => Err(CloneError::NoMemory),
        }
    }

    // A new member over a socket, which is closed again where memory runs out.
    fn join<N: Sockets>(&mut self, net: &mut N, socket: u32, at: u64) -> Result<u32, CloneError>
        requires room { vec_len self.old.members < vec_capacity self.old.members }
        requires below { length self.old.members.items < 16 }
        requires piece_some { 1 ≤ self.old.piece }
        requires piece_few { self.old.piece ≤ 65536 }
        requires live { has (live_sockets (N.net net.old).trace) socket ≡ true }
        requires spare { 1 ≤ (N.net net.old).spare }
        ensures joined { IsJoined ⟦<dyn Framer as Framer>⟧ socket at (N.net net.old) (N.net net.new)
            self.old result self.new }
        ensures becomes { HasAdded N.Becomes net.old net.new (N.net net.old).trace (N.net net.new).trace }
    {
        let alloc = self.allocator();
        match member_over(
            alloc,
            socket,
            self.target.stack,
            &self.chain,
            self.props,
            self.piece,
            at,
        ) {
            Ok(member) => {
                let place = self.members.len() as u32;
                self.add(member);
                Ok(place)
            }
            Err(_) => {
                close_again(net, socket);
                Err(CloneError::NoMemory)
            }
        }
    }

    // A member more, for which there is room.
    fn add(&mut self, member: Member<'a>)
        requires { vec_len self.old.members < vec_capacity self.old.members }
        ensures members { self.new.members.items ≡ self.old.members.items ++ member.entry ∷ [] }
        ensures rest { self.new ≡ record self.old { members = self.new.members } }
    {
        match self.members.push(member) {
            Ok(()) => {}
            Err(_) => unreachable!(),
        }
    }
}

// Closes a socket for whose member there is no memory.
fn close_again<N: Sockets>(net: &mut N, socket: u32)
    requires live { has (live_sockets (N.net net.old).trace) socket ≡ true }
    requires spare { 1 ≤ (N.net net.old).spare }
    ensures net { N.net net.new ≡ with_item (N.net net.old) (item.Closed socket) (N.net net.old).told }
    ensures becomes { N.Becomes net.old (closes socket ∷ []) net.new }
{
    net.close(socket);
}

// A member over a socket, with a copy of a chain.
fn member_over<'a>(
    alloc: Global,
    socket: u32,
    stack: Stack,
    chain: &Chain<'a>,
    props: ConnectionProps,
    piece: u64,
    at: u64,
) -> Result<Member<'a>, NoMemory>
    requires some { 1 ≤ piece }
    requires few { piece ≤ 65536 }
    ensures { IfOk result (IsClone ⟦<dyn Framer as Framer>⟧ socket at stack
        (layers_of ⟦<dyn Framer as Framer>⟧ chain.now) props piece) }
{
    let props = ConnectionProps {
        conn_priority: FIRST_PRIORITY,
        ..props
    };
    let chain = chain.copy()?;
    let connection = Connection::new(alloc, socket, stack, chain, props, piece, at)?;
    Ok(Member {
        connection,
        priority: FIRST_PRIORITY,
        orders: Vec::new(alloc),
    })
}
