// The session of a group behind its first race.
ghost use Rattle.std.specs.Prelude.{◌≡◌, ◌≤◌, ◌<◌, ◌^◌, ◌+◌, ◌-◌, ◌*◌, ℕ, List, [], false, length, min};
ghost use Rattle.std.specs.List.{All};
ghost use Rattle.taps_chain.specs.Layers.{layers_of};
ghost use Rattle.taps_connection.specs.Conditions.{IsHeld};
ghost use Rattle.taps_framer.specs.Layers.{Layer};
ghost use Rattle.taps_group.specs.Closes.{IsOpen, sockets_of};
ghost use Rattle.taps_group.specs.Groups.{IsSoundGroup};
ghost use Rattle.taps_group_exchange.specs.declared.addressed.Addressed.{Addressed};
ghost use Rattle.taps_group_exchange.specs.GroupExchanges.{HasExchangedAll};
ghost use Rattle.taps_group_exchange.specs.Members.{GroupTerms, places_at};
ghost use Rattle.taps_group_exchange.specs.Preparing.{IsGroupFor};
ghost use Rattle.taps_socket.specs.RaceSockets.{pending_sockets};
ghost use Rattle.taps_stack.specs.StackTable.{is_stream};
ghost use Rattle.taps_cloning.specs.GroupRules.{terms_of};
ghost use Rattle.taps_cloning.specs.Holding.{HasHeld};
ghost use Rattle.taps_cloning.specs.Opening.{HasOpenedGroup, IsOpenedGroup};

use crate::founding::found_group;
use crate::opening::open_group;
use crate::telling::{room_to_tell, tell_nothing};
use crate::{HeldGroup, Terms};
use std::alloc::Global;
use taps_base::NoMemory;
use taps_chain::Chain;
use taps_framer::Framer;
use taps_group::Group;
use taps_group_exchange::{Addressed, GroupExchanged, GroupOutcome, exchange_group, prepare_group};
use taps_socket::{Recorder, Sockets};

/// Holds the session of a group behind its first race, whose winner's socket is this: makes the clones,
/// lets the members exchange these messages with these priorities by place, and closes every member by
/// place, once, whatever came.
///
/// For each clone eight items are added at most, and three besides.
pub fn hold_group<N: Sockets>(
    alloc: Global,
    terms: Terms,
    socket: u32,
    chain: Chain<'_>,
    priorities: &[u64],
    messages: Vec<Addressed>,
    net: &mut Recorder<N>,
) -> Result<HeldGroup, NoMemory>
    requires some { 1 ≤ terms.piece }
    requires few { terms.piece ≤ 65536 }
    requires leaves { terms.leaf + terms.clones < 2 ^ 32 }
    requires lasts { 1 ≤ terms.timeout_ms }
    requires bounded { terms.timeout_ms ≤ 3600000 }
    requires few_priorities { length priorities.now ≤ terms.clones + 1 }
    requires bounded_priorities { All (λ p. p ≤ 4294967295) priorities.now }
    requires addressed { All (λ (a : Addressed). a.member < terms.clones + 1) messages.items }
    requires held { IsHeld (N.net net.old.net).trace socket (is_stream terms.target.stack) false false }
    requires idle { pending_sockets (N.net net.old.net).trace ≡ [] }
    requires spare { 8 * terms.clones + 3 ≤ net.old.spare }
    ensures { HasHeld N.Becomes net.old.net net.new.net (N.net net.old.net) (N.net net.new.net)
        (terms_of terms (layers_of ⟦<dyn Framer as Framer>⟧ chain.entry) priorities.now messages.items) socket result }
{
    let at = net.told();
    match found_group(alloc, &terms, socket, chain, at, net) {
        Ok(group) => hold_founded(alloc, group, &terms, priorities, messages, net),
        Err(none) => Err(none),
    }
}

// What follows once the group has its first member.
fn hold_founded<N: Sockets>(
    alloc: Global,
    mut group: Group<'_>,
    terms: &Terms,
    priorities: &[u64],
    messages: Vec<Addressed>,
    net: &mut Recorder<N>,
) -> Result<HeldGroup, NoMemory>
    requires sound { IsSoundGroup ⟦<dyn Framer as Framer>⟧ group }
    requires leaves { terms.now.leaf + terms.now.clones < 2 ^ 32 }
    requires lasts { 1 ≤ terms.now.timeout_ms }
    requires bounded { terms.now.timeout_ms ≤ 3600000 }
    requires few_priorities { length priorities.now ≤ terms.now.clones + 1 }
    requires bounded_priorities { All (λ p. p ≤ 4294967295) priorities.now }
    requires addressed { All (λ (a : Addressed). a.member < terms.now.clones + 1) messages.items }
    requires opened { IsOpen (N.net net.old.net) group.members.items }
    requires spare { 8 * terms.now.clones + 3 ≤ net.old.spare }
    requires founded { HasOpenedGroup ⟦<dyn Framer as Framer>⟧ terms.now priorities.now messages.items
        (N.net net.old.net) [] group }
    ensures { (fs : List Layer) (first : ℕ) → IsOpenedGroup ⟦<dyn Framer as Framer>⟧
        (terms_of terms.now fs priorities.now messages.items) first (N.net net.old.net) [] group.entry →
        HasHeld N.Becomes net.old.net net.new.net (N.net net.old.net) (N.net net.new.net)
        (terms_of terms.now fs priorities.now messages.items) first result }
{
    let told = match room_to_tell(alloc, terms.clones as usize + 1) {
        Ok(told) => told,
        Err(none) => {
            group.finish_all(net);
            return Err(none);
        }
    };
    match open_group(&mut group, terms, net) {
        Ok(None) => {
            let at = net.told();
            match exchange_from(alloc, group, terms, priorities, messages, at, net) {
                Ok(GroupExchanged { outcome, members }) => Ok(HeldGroup {
                    outcome: GroupOutcome::Exchanged(outcome),
                    members,
                }),
                Err(none) => Err(none),
            }
        }
        Ok(Some(outcome)) => {
            let members = tell_nothing(alloc, told, group.len());
            group.finish_all(net);
            Ok(HeldGroup { outcome, members })
        }
        Err(none) => {
            group.finish_all(net);
            Err(none)
        }
    }
}

// The exchange of an opened group, from a time in milliseconds on. Every member is closed.
fn exchange_from<N: Sockets>(
    alloc: Global,
    mut group: Group<'_>,
    terms: &Terms,
    priorities: &[u64],
    messages: Vec<Addressed>,
    at: u64,
    net: &mut N,
) -> Result<GroupExchanged, NoMemory>
    requires sound { IsSoundGroup ⟦<dyn Framer as Framer>⟧ group }
    requires few { length priorities.now ≤ length group.members.items }
    requires bounded { All (λ p. p ≤ 4294967295) priorities.now }
    requires addressed { All (λ (a : Addressed). a.member < length group.members.items) messages.items }
    requires opened { IsOpen (N.net net.old) group.members.items }
    requires spare { 3 * length group.members.items ≤ (N.net net.old).spare }
    requires new_group { (g : GroupTerms) × IsGroupFor ⟦<dyn Framer as Framer>⟧ g at (N.net net.old) priorities.now
        messages.items group }
    ensures { (fs : List Layer) → IsGroupFor ⟦<dyn Framer as Framer>⟧
        (terms_of terms.now fs priorities.now messages.items) at (N.net net.old) priorities.now messages.items
        group.entry → HasExchangedAll N.Becomes net.old net.new (N.net net.old) (N.net net.new)
        (places_at (terms_of terms.now fs priorities.now messages.items) at (sockets_of group.entry.members.items))
        result }
{
    match prepare_group(&mut group, priorities, messages, at) {
        Ok(()) => exchange_group(alloc, group, terms.expect, deadline(terms, at), net),
        Err(none) => {
            group.finish_all(net);
            Err(none)
        }
    }
}

// The last time of an exchange that begins at a time.
fn deadline(terms: &Terms, at: u64) -> u64
    ensures { result ≡ min (at + terms.now.deadline_ms) (2 ^ 63 - 1) }
{
    at.saturating_add(terms.deadline_ms).min(i64::MAX as u64)
}
