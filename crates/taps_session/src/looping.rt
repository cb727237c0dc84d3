// The session of the role Loop.
ghost use Rattle.std.specs.Prelude.{◌≡◌, ◌≢◌, ◌≤◌, ◌<◌, ◌+◌, ◌*◌, [], Some, true, false, length, IfOk, OnErr};
ghost use Rattle.taps_chain.specs.Layers.{layers_of};
ghost use Rattle.taps_connection.specs.Conditions.{IsHeld};
ghost use Rattle.taps_socket.specs.Calls.{HasAdded};
ghost use Rattle.taps_socket.specs.RaceSockets.{pending_sockets, has};
ghost use Rattle.taps_socket.specs.LiveSockets.{live_sockets};
ghost use Rattle.taps_socket.specs.Sides.{carries_stream, may_accept, target_of};
ghost use Rattle.taps_stack.specs.StackTable.{is_stream};
ghost use Rattle.taps_command.specs.Nets.{HasRun};
ghost use Rattle.taps_command.specs.Places.{chain_of, IsOnShelf};
ghost use Rattle.taps_command.specs.Shelves.{layers_on};
ghost use Rattle.taps_session.specs.FileSessions.{initiated, listened, IsPlanFor, IsPrepared};
ghost use Rattle.taps_session.specs.Loops.{EndsBoth, HoldsBoth};
ghost use Rattle.taps_session.specs.LoopParts as parts;
ghost use Rattle.taps_session.specs.LoopParts.{GoBehind, GoWithout, LoopsWith};
ghost use Rattle.taps_session.specs.Raced.{HasWinner};
ghost use Rattle.taps_session.specs.RacedBehind.{HasRacedBehind, IsOther};
ghost use Rattle.taps_session.specs.Services.{first_target};

use crate::messages::messages;
use crate::plan::listen;
use crate::preparing::{Prepared, prepare};
use crate::session::Session;
use std::alloc::Global;
use taps_base::NoMemory;
use taps_candidate::Plan;
use taps_chain::Chain;
use taps_command::{Layers, Ready, Shelf, vouch_untouched};
use taps_connection::Listener;
use taps_framer::Framer;
use taps_loop::{Looped, Reporting, loop_over};
use taps_racer::{RaceAnswer, Racer, Unstarted, establish};
use taps_socket::{Recorder, Sockets, Target};
use taps_stack::Stack;

/// What came of a session of both ends: how many items stand before its answer, the answer, and the exchange of both
/// ends, if the race had a winner.
#[derive(Drop)]
pub struct LoopEnded {
    pub before: usize,
    pub answer: RaceAnswer,
    pub looped: Option<Looped>,
}

/// Listens on the target of the first leaf of the plan of Listen, races the leaves of a plan, and with a winner accepts
/// one connection and lets both ends exchange messages. Without a leaf to listen on no call is made.
///
/// All the items are reserved before the first of them.
pub fn hold_both<L: Layers, N: Sockets>(
    alloc: Global,
    shelf: &Shelf<'_>,
    ready: &Ready,
    plan: &Plan,
    net: &mut N,
) -> Result<Session, NoMemory>
    requires shelf { layers_on ⟦<dyn Framer as Framer>⟧ shelf.now ≡ L.layers }
    requires on_shelf { IsOnShelf L.layers ready.now.places }
    requires plan { IsPlanFor ready.now (initiated ready.now) plan.now }
    requires fresh { (N.net net.old).trace ≡ [] }
    ensures ran { HasRun N.Becomes net.old net.new (N.net net.old) (N.net net.new)
        (HoldsBoth L.layers ready.now result) }
{
    vouch_untouched::<N>(net);
    match listen(alloc, ready) {
        Ok(listened) => match listened.leaves.as_slice() {
            [leaf, ..] => hold_on::<L, N>(alloc, shelf, ready, plan, leaf.target, net),
            [] => Ok(Session::without_leaf(alloc)),
        },
        Err(none) => Err(none),
    }
}

// The same for the target.
fn hold_on<L: Layers, N: Sockets>(
    alloc: Global,
    shelf: &Shelf<'_>,
    ready: &Ready,
    plan: &Plan,
    target: Target,
    net: &mut N,
) -> Result<Session, NoMemory>
    requires shelf { layers_on ⟦<dyn Framer as Framer>⟧ shelf.now ≡ L.layers }
    requires on_shelf { IsOnShelf L.layers ready.now.places }
    requires plan { IsPlanFor ready.now (initiated ready.now) plan.now }
    requires first { first_target (listened ready.now) ≡ Some target }
    requires stream { is_stream target.stack ≡ true }
    requires fresh { (N.net net.old).trace ≡ [] }
    ensures ran { HasRun N.Becomes net.old net.new (N.net net.old) (N.net net.new)
        (HoldsBoth L.layers ready.now result) }
{
    vouch_untouched::<N>(net);
    let Prepared {
        racer,
        targets,
        chain,
    } = prepare::<L>(alloc, shelf, ready, plan)?;
    record_both::<L, N>(alloc, ready, target, racer, &targets, chain, net)
}

// Keeps the items of the session as they come.
fn record_both<L: Layers, N: Sockets>(
    alloc: Global,
    ready: &Ready,
    target: Target,
    racer: Racer<Unstarted>,
    targets: &[Target],
    chain: Chain<'_>,
    net: &mut N,
) -> Result<Session, NoMemory>
    requires prepared { IsPrepared L.layers ready.now
        (layers_of ⟦<dyn Framer as Framer>⟧ chain) racer.rules targets.now }
    requires first { first_target (listened ready.now) ≡ Some target }
    requires stream { is_stream target.stack ≡ true }
    requires fresh { (N.net net.old).trace ≡ [] }
    ensures ran { HasRun N.Becomes net.old net.new (N.net net.old) (N.net net.new)
        (HoldsBoth L.layers ready.now result) }
{
    let mut recorder = Recorder::new(alloc, net);
    let ended = carry_both::<L, &mut N>(alloc, ready, target, racer, targets, chain, &mut recorder);
    // The reference is let go, so that what it leads to is the caller's again.
    let (net, items) = recorder.into_parts();
    let _ = net;
    match ended {
        Ok(ended) => match Session::looped(alloc, items, ended) {
            Ok(session) => Ok(session),
            Err(none) => Err(none),
        },
        Err(none) => Err(none),
    }
}

// Reserves all the items, and listens.
fn carry_both<L: Layers, N: Sockets>(
    alloc: Global,
    ready: &Ready,
    target: Target,
    racer: Racer<Unstarted>,
    targets: &[Target],
    chain: Chain<'_>,
    net: &mut Recorder<N>,
) -> Result<LoopEnded, NoMemory>
    requires prepared { IsPrepared L.layers ready.now
        (layers_of ⟦<dyn Framer as Framer>⟧ chain) racer.rules targets.now }
    requires first { first_target (listened ready.now) ≡ Some target }
    requires stream { is_stream target.stack ≡ true }
    requires fresh { (N.net net.old.net).trace ≡ [] }
    ensures ran { HasRun N.Becomes net.old.net net.new.net (N.net net.old.net) (N.net net.new.net)
        (EndsBoth L.layers ready.now target result) }
{
    net.reserve(4 * targets.len() as u64 + 10)?;
    let listener = match Listener::listen(net, copy_of(&target), 1) {
        Ok(listener) => listener,
        Err(_) => {
            let first = net.items().len();
            return Ok(LoopEnded {
                before: first,
                answer: RaceAnswer::AllFailed,
                looped: None,
            });
        }
    };
    let answer = match race_behind(racer, targets, net) {
        Ok(answer) => answer,
        Err(none) => {
            listener.stop(net);
            return Err(none);
        }
    };
    let raced = net.items().len();
    let looped = go_behind::<L, Recorder<N>>(
        alloc, ready, target, listener, targets, chain, answer, net,
    )?;
    let all = net.items().len();
    Ok(ended_by(raced, all, answer, looped))
}

fn copy_of(target: &Target) -> Target
    ensures { result ≡ target.now }
{
    *target
}

// Where the race has no winner, all items stand before the answer.
fn ended_by(raced: usize, all: usize, answer: RaceAnswer, looped: Option<Looped>) -> LoopEnded
    ensures { result ≡ record { before = parts.count_before raced all looped; answer = answer; looped = looped } }
{
    match looped {
        Some(looped) => LoopEnded {
            before: raced,
            answer,
            looped: Some(looped),
        },
        None => LoopEnded {
            before: all,
            answer,
            looped: None,
        },
    }
}

// What follows the race: with a winner the accept and the exchange of both ends.
fn go_behind<L: Layers, N: Reporting>(
    alloc: Global,
    ready: &Ready,
    target: Target,
    listener: Listener,
    targets: &[Target],
    chain: Chain<'_>,
    answer: RaceAnswer,
    net: &mut N,
) -> Result<Option<Looped>, NoMemory>
    requires layers { layers_of ⟦<dyn Framer as Framer>⟧ chain ≡ chain_of L.layers ready.now.places }
    requires stream { is_stream target.stack ≡ true }
    requires fewer { listener.accepted < listener.limit }
    requires winner { HasWinner targets.now (N.net net.old).trace answer }
    requires other { IsOther listener.socket answer }
    requires accepts { may_accept (N.net net.old).trace listener.socket ≡ true }
    requires leads { target_of (N.net net.old).trace listener.socket ≡ Some target }
    requires room { 8 ≤ (N.net net.old).spare }
    ensures { GoBehind N.Becomes net.old net.new (N.net net.old) (N.net net.new)
        L.layers ready.now target targets.now listener.socket answer result }
{
    match answer {
        RaceAnswer::Ready {
            leaf,
            socket,
            at: _,
        } => {
            let stack = targets[leaf as usize].stack;
            match loop_with::<L, N>(alloc, ready, target, listener, stack, socket, chain, net) {
                Ok(looped) => Ok(Some(looped)),
                Err(none) => Err(none),
            }
        }
        RaceAnswer::NoCandidate => stop_without(listener, net),
        RaceAnswer::AllFailed => stop_without(listener, net),
        RaceAnswer::Timeout => stop_without(listener, net),
        RaceAnswer::Closed => stop_without(listener, net),
        RaceAnswer::SocketFault => stop_without(listener, net),
    }
}

// Without a winner the listener is closed.
fn stop_without<N: Sockets>(listener: Listener, net: &mut N) -> Result<Option<Looped>, NoMemory>
    requires live { has (live_sockets (N.net net.old).trace) listener.socket ≡ true }
    requires room { 8 ≤ (N.net net.old).spare }
    ensures { GoWithout N.Becomes net.old net.new (N.net net.old) (N.net net.new) listener.socket result }
{
    listener.stop(net);
    Ok(None)
}

// The accept and the exchange of both ends over a connected socket of a stack. All sockets are then closed.
fn loop_with<L: Layers, N: Reporting>(
    alloc: Global,
    ready: &Ready,
    target: Target,
    listener: Listener,
    stack: Stack,
    socket: u32,
    chain: Chain<'_>,
    net: &mut N,
) -> Result<Looped, NoMemory>
    requires layers { layers_of ⟦<dyn Framer as Framer>⟧ chain ≡ chain_of L.layers ready.now.places }
    requires stream { is_stream target.stack ≡ true }
    requires fewer { listener.accepted < listener.limit }
    requires live { has (live_sockets (N.net net.old).trace) socket ≡ true }
    requires held { IsHeld (N.net net.old).trace socket (is_stream stack) false false }
    requires apart { socket ≢ listener.socket }
    requires accepts { may_accept (N.net net.old).trace listener.socket ≡ true }
    requires carries { carries_stream (N.net net.old).trace listener.socket ≡ true }
    requires room { 8 ≤ (N.net net.old).spare }
    ensures { LoopsWith N.Becomes net.old net.new (N.net net.old) (N.net net.new)
        L.layers ready.now target listener.socket stack socket result }
{
    let exchange = &ready.pre.exchange;
    match messages(alloc, &ready.pre, stack, 0) {
        Ok(messages) => loop_over(
            alloc,
            listener,
            socket,
            stack,
            target.stack,
            chain,
            ready.pre.connection,
            exchange.piece,
            messages,
            exchange.deadline_ms,
            net,
        ),
        Err(none) => {
            net.close(socket);
            listener.stop(net);
            Err(none)
        }
    }
}

// Races the leaves behind a listener, for whose items and eight more there is room.
pub fn race_behind<N: Sockets>(
    racer: Racer<Unstarted>,
    targets: &[Target],
    net: &mut N,
) -> Result<RaceAnswer, NoMemory>
    requires leaves { length racer.rules.gaps ≡ length targets.now }
    requires few { length targets.now ≤ 1024 }
    requires idle { pending_sockets (N.net net.old).trace ≡ [] }
    requires room { 4 * length targets.now + 9 ≤ (N.net net.old).spare }
    ensures raced { IfOk result (HasRacedBehind racer.rules targets.now (N.net net.old) (N.net net.new)) }
    ensures unchanged { OnErr result (N.net net.new ≡ N.net net.old) }
    ensures becomes { HasAdded N.Becomes net.old net.new (N.net net.old).trace (N.net net.new).trace }
{
    match establish(racer, 0, targets, net) {
        Ok(ended) => Ok(ended.answer()),
        Err((none, _)) => Err(none),
    }
}
