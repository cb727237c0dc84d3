ghost use Rattle.std.specs.Prelude.{◌≡◌, ◌≤◌, ◌<◌, ◌+◌, ◌*◌, [], false, true, length, IfOk, OnErr};
ghost use Rattle.taps_chain.specs.Layers.{layers_of};
ghost use Rattle.taps_connection.specs.Conditions.{IsHeld};
ghost use Rattle.taps_exchange.specs.Exchanged.{HasExchanged};
ghost use Rattle.taps_socket.specs.Calls.{HasAdded};
ghost use Rattle.taps_socket.specs.LiveSockets.{live_sockets};
ghost use Rattle.taps_socket.specs.RaceSockets.{has};
ghost use Rattle.taps_stack.specs.StackTable.{is_stream};
ghost use Rattle.taps_command.specs.Nets.{HasRun};
ghost use Rattle.taps_command.specs.Places.{chain_of, IsOnShelf};
ghost use Rattle.taps_command.specs.Shelves.{layers_on};
ghost use Rattle.taps_session.specs.FileSessions.{initiated, IsPlanFor, IsPrepared};
ghost use Rattle.taps_session.specs.Raced.{EndsSession, GoesOn, HasWinner, IsRaced};
ghost use Rattle.taps_session.specs.SessionLogs.{HoldsSession};
ghost use Rattle.taps_session.specs.Sessions.{deadline_of, member_at};

use crate::messages::messages;
use crate::preparing::{Prepared, prepare};
use crate::session::Session;
use std::alloc::Global;
use taps_base::NoMemory;
use taps_candidate::Plan;
use taps_chain::Chain;
use taps_command::{Layers, Ready, Shelf, vouch_untouched};
use taps_exchange::{Exchanged, exchange_over};
use taps_framer::Framer;
use taps_racer::{RaceAnswer, Racer, Unstarted, establish};
use taps_socket::{Recorder, Sockets, Target};
use taps_stack::Stack;

/// What came of a session: how many items are its race's, the race's answer, and the exchange that
/// followed it, if one did.
#[derive(Drop)]
pub struct Ended {
    pub raced: usize,
    pub answer: RaceAnswer,
    pub exchanged: Option<Exchanged>,
}

/// Races the leaves of the plan; with a winner sends and hears messages over its socket, and closes it.
///
/// All the items are reserved before the first of them. Where memory runs out behind the race, the
/// winner's socket is closed.
pub fn hold<L: Layers, N: Sockets>(
    alloc: Global,
    shelf: &Shelf<'_>,
    ready: &Ready,
    plan: &Plan,
    net: &mut N,
) -> Result<Session, NoMemory>
    requires shelf { layers_on ⟦<dyn Framer as Framer>⟧ shelf.now ≡ L.layers }
    requires on_shelf { IsOnShelf L.layers ready.now.places }
    requires plan { IsPlanFor ready.now (initiated ready.now) plan.now }
    requires fresh { (N.net net.old).trace ≡ [] }
    ensures ran { HasRun N.Becomes net.old net.new (N.net net.old) (N.net net.new)
        (HoldsSession L.layers ready.now result) }
{
    vouch_untouched::<N>(net);
    let Prepared {
        racer,
        targets,
        chain,
    } = prepare::<L>(alloc, shelf, ready, plan)?;
    record_session::<L, N>(alloc, ready, racer, &targets, chain, net)
}

// Keeps the items of the session as they come.
fn record_session<L: Layers, N: Sockets>(
    alloc: Global,
    ready: &Ready,
    racer: Racer<Unstarted>,
    targets: &[Target],
    chain: Chain<'_>,
    net: &mut N,
) -> Result<Session, NoMemory>
    requires prepared { IsPrepared L.layers ready.now
        (layers_of ⟦<dyn Framer as Framer>⟧ chain) racer.rules targets.now }
    requires fresh { (N.net net.old).trace ≡ [] }
    ensures ran { HasRun N.Becomes net.old net.new (N.net net.old) (N.net net.new)
        (HoldsSession L.layers ready.now result) }
{
    let mut recorder = Recorder::new(alloc, net);
    let ended = carry_out::<L, &mut N>(alloc, ready, racer, targets, chain, &mut recorder);
    // The reference is let go, so that what it leads to is the caller's again.
    let (net, items) = recorder.into_parts();
    let _ = net;
    match ended {
        Ok(ended) => match Session::initiated(alloc, items, ended) {
            Ok(session) => Ok(session),
            Err(none) => Err(none),
        },
        Err(none) => Err(none),
    }
}

// Reserves all the items, races, and goes on with the winner.
fn carry_out<L: Layers, N: Sockets>(
    alloc: Global,
    ready: &Ready,
    racer: Racer<Unstarted>,
    targets: &[Target],
    chain: Chain<'_>,
    net: &mut Recorder<N>,
) -> Result<Ended, NoMemory>
    requires prepared { IsPrepared L.layers ready.now
        (layers_of ⟦<dyn Framer as Framer>⟧ chain) racer.rules targets.now }
    requires fresh { (N.net net.old.net).trace ≡ [] }
    ensures ran { HasRun N.Becomes net.old.net net.new.net (N.net net.old.net) (N.net net.new.net)
        (EndsSession L.layers ready.now result) }
{
    net.reserve(4 * targets.len() as u64 + 4)?;
    let answer = race(racer, targets, net)?;
    let raced = net.items().len();
    let at = net.told();
    match go_on::<L, Recorder<N>>(alloc, ready, targets, chain, answer, at, net) {
        Ok(exchanged) => Ok(Ended {
            raced,
            answer,
            exchanged,
        }),
        Err(none) => Err(none),
    }
}

// Races the leaves, for whose items and three more there is room.
pub(crate) fn race<N: Sockets>(
    racer: Racer<Unstarted>,
    targets: &[Target],
    net: &mut N,
) -> Result<RaceAnswer, NoMemory>
    requires leaves { length racer.rules.gaps ≡ length targets.now }
    requires few { length targets.now ≤ 1024 }
    requires fresh { (N.net net.old).trace ≡ [] }
    requires room { 4 * length targets.now + 4 ≤ (N.net net.old).spare }
    ensures raced { IfOk result (λ answer. IsRaced racer.rules targets.now (N.net net.old) (N.net net.new) answer) }
    ensures unchanged { OnErr result (N.net net.new ≡ N.net net.old) }
    ensures becomes { HasAdded N.Becomes net.old net.new (N.net net.old).trace (N.net net.new).trace }
{
    match establish(racer, 0, targets, net) {
        Ok(ended) => Ok(ended.answer()),
        Err((none, _)) => Err(none),
    }
}

// What follows the race: with a winner the exchange over its socket, from a time in milliseconds on.
fn go_on<L: Layers, N: Sockets>(
    alloc: Global,
    ready: &Ready,
    targets: &[Target],
    chain: Chain<'_>,
    answer: RaceAnswer,
    at: u64,
    net: &mut N,
) -> Result<Option<Exchanged>, NoMemory>
    requires layers { layers_of ⟦<dyn Framer as Framer>⟧ chain ≡ chain_of L.layers ready.now.places }
    requires winner { HasWinner targets.now (N.net net.old).trace answer }
    requires room { 3 ≤ (N.net net.old).spare }
    ensures { GoesOn N.Becomes net.old net.new (N.net net.old) (N.net net.new)
        L.layers ready.now targets.now at answer result }
{
    match answer {
        RaceAnswer::Ready {
            leaf,
            socket,
            at: _,
        } => {
            let stack = targets[leaf as usize].stack;
            match talk::<L, N>(alloc, ready, stack, socket, chain, at, net) {
                Ok(exchanged) => Ok(Some(exchanged)),
                Err(none) => Err(none),
            }
        }
        RaceAnswer::NoCandidate => Ok(None),
        RaceAnswer::AllFailed => Ok(None),
        RaceAnswer::Timeout => Ok(None),
        RaceAnswer::Closed => Ok(None),
        RaceAnswer::SocketFault => Ok(None),
    }
}

// The exchange over a connected socket, which is then closed.
fn talk<L: Layers, N: Sockets>(
    alloc: Global,
    ready: &Ready,
    stack: Stack,
    socket: u32,
    chain: Chain<'_>,
    at: u64,
    net: &mut N,
) -> Result<Exchanged, NoMemory>
    requires layers { layers_of ⟦<dyn Framer as Framer>⟧ chain ≡ chain_of L.layers ready.now.places }
    requires live { has (live_sockets (N.net net.old).trace) socket ≡ true }
    requires held { IsHeld (N.net net.old).trace socket (is_stream stack) false false }
    requires room { 3 ≤ (N.net net.old).spare }
    ensures { HasExchanged N.Becomes net.old net.new (N.net net.old) (N.net net.new)
        (member_at L.layers ready.now 0 stack socket at) result }
{
    let exchange = &ready.pre.exchange;
    match messages(alloc, &ready.pre, stack, 0) {
        Ok(messages) => exchange_over(
            alloc,
            socket,
            stack,
            chain,
            ready.pre.connection,
            exchange.piece,
            messages,
            at,
            exchange.expect,
            deadline(ready, at),
            net,
        ),
        Err(none) => {
            net.close(socket);
            Err(none)
        }
    }
}

// The last time of an exchange that begins at a time.
fn deadline(ready: &Ready, at: u64) -> u64
    ensures { result ≡ deadline_of ready.now at }
{
    at.saturating_add(ready.pre.exchange.deadline_ms)
        .min(i64::MAX as u64)
}
