// The session of a group: with clones, or with priorities of its members.
ghost use Rattle.std.specs.Prelude.{◌≡◌, ◌≤◌, ◌+◌, ◌*◌, [], true, false, length};
ghost use Rattle.taps_chain.specs.Layers.{layers_of};
ghost use Rattle.taps_connection.specs.Conditions.{IsHeld};
ghost use Rattle.taps_socket.specs.RaceSockets.{has, pending_sockets};
ghost use Rattle.taps_socket.specs.LiveSockets.{live_sockets};
ghost use Rattle.taps_stack.specs.StackTable.{is_stream};
ghost use Rattle.taps_command.specs.Nets.{HasRun};
ghost use Rattle.taps_command.specs.Places.{chain_of, IsOnShelf};
ghost use Rattle.taps_command.specs.Shelves.{layers_on};
ghost use Rattle.taps_session.specs.FileSessions.{initiated, targets_of, IsPlanFor, IsPrepared};
ghost use Rattle.taps_session.specs.GroupLogs.{HoldsGrouped};
ghost use Rattle.taps_session.specs.GroupParts.{EndsGrouped, GroupGoesOn, HoldsGroup, terms_by};
ghost use Rattle.taps_session.specs.Raced.{HasWinner};

use crate::holding::race;
use crate::messages::all_messages;
use crate::preparing::{Prepared, prepare};
use crate::session::Session;
use std::alloc::Global;
use taps_base::NoMemory;
use taps_candidate::Plan;
use taps_chain::Chain;
use taps_cloning::{HeldGroup, Terms, hold_group};
use taps_command::{Layers, Ready, Shelf, vouch_untouched};
use taps_framer::Framer;
use taps_group_exchange::vouch_members;
use taps_racer::{RaceAnswer, Racer, Unstarted};
use taps_socket::{Recorder, Sockets, Target};

/// What came of a session of a group: how many items are its race's, the race's answer, and the group
/// that followed it, if one did.
#[derive(Drop)]
pub struct GroupEnded {
    pub raced: usize,
    pub answer: RaceAnswer,
    pub held: Option<HeldGroup>,
}

/// Races the leaves of the plan; with a winner makes its clones, sends and hears messages over the sockets of all
/// members, and closes them.
///
/// All the items are reserved before the first of them. Where memory runs out behind the race, the sockets that were
/// given are closed.
pub fn hold_grouped<L: Layers, N: Sockets>(
    alloc: Global,
    shelf: &Shelf<'_>,
    ready: &Ready,
    plan: &Plan,
    net: &mut N,
) -> Result<Session, NoMemory>
    requires shelf { layers_on ⟦<dyn Framer as Framer>⟧ shelf.now ≡ L.layers }
    requires on_shelf { IsOnShelf L.layers ready.now.places }
    requires plan { IsPlanFor ready.now (initiated ready.now) plan.now }
    requires fresh { (N.net net.old).trace ≡ [] }
    ensures ran { HasRun N.Becomes net.old net.new (N.net net.old) (N.net net.new)
        (HoldsGrouped L.layers ready.now result) }
{
    vouch_untouched::<N>(net);
    let Prepared {
        racer,
        targets,
        chain,
    } = prepare::<L>(alloc, shelf, ready, plan)?;
    record_grouped::<L, N>(alloc, ready, racer, &targets, chain, net)
}

// Keeps the items of the session as they come.
fn record_grouped<L: Layers, N: Sockets>(
    alloc: Global,
    ready: &Ready,
    racer: Racer<Unstarted>,
    targets: &[Target],
    chain: Chain<'_>,
    net: &mut N,
) -> Result<Session, NoMemory>
    requires prepared { IsPrepared L.layers ready.now
        (layers_of ⟦<dyn Framer as Framer>⟧ chain) racer.rules targets.now }
    requires fresh { (N.net net.old).trace ≡ [] }
    ensures ran { HasRun N.Becomes net.old net.new (N.net net.old) (N.net net.new)
        (HoldsGrouped L.layers ready.now result) }
{
    let mut recorder = Recorder::new(alloc, net);
    let ended = carry_grouped::<L, &mut N>(alloc, ready, racer, targets, chain, &mut recorder);
    // The reference is let go, so that what it leads to is the caller's again.
    let (net, items) = recorder.into_parts();
    let _ = net;
    match ended {
        Ok(ended) => match Session::grouped(alloc, items, ended) {
            Ok(session) => Ok(session),
            Err(none) => Err(none),
        },
        Err(none) => Err(none),
    }
}

// Reserves all the items, races, and goes on with the group of the winner.
fn carry_grouped<L: Layers, N: Sockets>(
    alloc: Global,
    ready: &Ready,
    racer: Racer<Unstarted>,
    targets: &[Target],
    chain: Chain<'_>,
    net: &mut Recorder<N>,
) -> Result<GroupEnded, NoMemory>
    requires prepared { IsPrepared L.layers ready.now
        (layers_of ⟦<dyn Framer as Framer>⟧ chain) racer.rules targets.now }
    requires fresh { (N.net net.old.net).trace ≡ [] }
    ensures ran { HasRun N.Becomes net.old.net net.new.net (N.net net.old.net) (N.net net.new.net)
        (EndsGrouped L.layers ready.now result) }
{
    vouch_members();
    net.reserve(4 * targets.len() as u64 + 8 * ready.pre.exchange.clones + 4)?;
    let answer = race(racer, targets, net)?;
    let raced = net.items().len();
    match go_on_grouped::<L, N>(alloc, ready, targets, chain, answer, net) {
        Ok(held) => Ok(GroupEnded {
            raced,
            answer,
            held,
        }),
        Err(none) => Err(none),
    }
}

// What follows the race: with a winner the session of its group.
fn go_on_grouped<L: Layers, N: Sockets>(
    alloc: Global,
    ready: &Ready,
    targets: &[Target],
    chain: Chain<'_>,
    answer: RaceAnswer,
    net: &mut Recorder<N>,
) -> Result<Option<HeldGroup>, NoMemory>
    requires layers { layers_of ⟦<dyn Framer as Framer>⟧ chain ≡ chain_of L.layers ready.now.places }
    requires targets { targets.now ≡ targets_of ready.now }
    requires few { length targets.now ≤ 1024 }
    requires winner { HasWinner targets.now (N.net net.old.net).trace answer }
    requires idle { pending_sockets (N.net net.old.net).trace ≡ [] }
    requires room { 8 * ready.now.pre.exchange.clones + 3 ≤ net.old.spare }
    ensures { GroupGoesOn N.Becomes net.old.net net.new.net (N.net net.old.net) (N.net net.new.net)
        L.layers ready.now targets.now answer result }
{
    match answer {
        RaceAnswer::Ready {
            leaf,
            socket,
            at: _,
        } => {
            let target = targets[leaf as usize];
            let first = targets.len() as u32;
            match talk_grouped::<L, N>(alloc, ready, target, first, socket, chain, net) {
                Ok(held) => Ok(Some(held)),
                Err(none) => Err(none),
            }
        }
        RaceAnswer::NoCandidate => Ok(None),
        RaceAnswer::AllFailed => Ok(None),
        RaceAnswer::Timeout => Ok(None),
        RaceAnswer::Closed => Ok(None),
        RaceAnswer::SocketFault => Ok(None),
    }
}

// The session of the group of a connected socket, whose clones' leaves have the numbers from the first one on.
fn talk_grouped<L: Layers, N: Sockets>(
    alloc: Global,
    ready: &Ready,
    target: Target,
    first: u32,
    socket: u32,
    chain: Chain<'_>,
    net: &mut Recorder<N>,
) -> Result<HeldGroup, NoMemory>
    requires layers { layers_of ⟦<dyn Framer as Framer>⟧ chain ≡ chain_of L.layers ready.now.places }
    requires first { first ≡ length (targets_of ready.now) }
    requires few { first ≤ 1024 }
    requires live { has (live_sockets (N.net net.old.net).trace) socket ≡ true }
    requires held { IsHeld (N.net net.old.net).trace socket (is_stream target.stack) false false }
    requires idle { pending_sockets (N.net net.old.net).trace ≡ [] }
    requires room { 8 * ready.now.pre.exchange.clones + 3 ≤ net.old.spare }
    ensures { HoldsGroup N.Becomes net.old.net net.new.net (N.net net.old.net) (N.net net.new.net)
        L.layers ready.now target socket result }
{
    match all_messages(alloc, &ready.pre, target.stack) {
        Ok(messages) => hold_group(
            alloc,
            terms(ready, target, first),
            socket,
            chain,
            ready.pre.exchange.priorities.as_slice(),
            messages,
            net,
        ),
        Err(none) => {
            net.close(socket);
            Err(none)
        }
    }
}

// What the group goes by, besides its priorities and messages.
fn terms(ready: &Ready, target: Target, first: u32) -> Terms
    ensures { result ≡ terms_by ready.now target first }
{
    let exchange = &ready.pre.exchange;
    Terms {
        target,
        props: ready.pre.connection,
        clones: exchange.clones,
        leaf: first,
        timeout_ms: ready.pre.race.timeout_ms,
        expect: exchange.expect,
        piece: exchange.piece,
        deadline_ms: exchange.deadline_ms,
    }
}
