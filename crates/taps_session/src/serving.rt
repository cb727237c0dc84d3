// The session of the role Listen.
ghost use Rattle.std.specs.Prelude.{◌≡◌, ◌≤◌, [], Some, true};
ghost use Rattle.taps_chain.specs.Layers.{layers_of};
ghost use Rattle.taps_stack.specs.StackTable.{is_stream};
ghost use Rattle.taps_command.specs.Nets.{HasRun};
ghost use Rattle.taps_command.specs.Places.{chain_of, IsOnShelf};
ghost use Rattle.taps_command.specs.Shelves.{layers_on};
ghost use Rattle.taps_session.specs.FileMessages.{messages_on};
ghost use Rattle.taps_session.specs.FileSessions.{listened, IsPlanFor};
ghost use Rattle.taps_session.specs.Services as services;
ghost use Rattle.taps_session.specs.Services.{first_target, EndsService, HoldsService};

use crate::messages::messages;
use crate::session::Session;
use std::alloc::Global;
use taps_base::NoMemory;
use taps_candidate::Plan;
use taps_chain::Chain;
use taps_command::{Layers, Ready, Shelf, chain, vouch_untouched};
use taps_framer::Framer;
use taps_listening::{Listened, Service, listen_over};
use taps_message::Message;
use taps_socket::{Recorder, Sockets, Target};

/// Listens on the target of the plan's first leaf, and serves the connections that it accepts. Without a leaf no call
/// is made.
///
/// All the items are reserved before the first of them.
pub fn serve<L: Layers, N: Sockets>(
    alloc: Global,
    shelf: &Shelf<'_>,
    ready: &Ready,
    plan: &Plan,
    net: &mut N,
) -> Result<Session, NoMemory>
    requires shelf { layers_on ⟦<dyn Framer as Framer>⟧ shelf.now ≡ L.layers }
    requires on_shelf { IsOnShelf L.layers ready.now.places }
    requires plan { IsPlanFor ready.now (listened ready.now) plan.now }
    requires fresh { (N.net net.old).trace ≡ [] }
    ensures ran { HasRun N.Becomes net.old net.new (N.net net.old) (N.net net.new)
        (HoldsService L.layers ready.now result) }
{
    vouch_untouched::<N>(net);
    match plan.leaves.as_slice() {
        [leaf, ..] => serve_on::<L, N>(alloc, shelf, ready, leaf.target, net),
        [] => Ok(Session::without_leaf(alloc)),
    }
}

// The same for the target.
fn serve_on<L: Layers, N: Sockets>(
    alloc: Global,
    shelf: &Shelf<'_>,
    ready: &Ready,
    target: Target,
    net: &mut N,
) -> Result<Session, NoMemory>
    requires shelf { layers_on ⟦<dyn Framer as Framer>⟧ shelf.now ≡ L.layers }
    requires on_shelf { IsOnShelf L.layers ready.now.places }
    requires first { first_target (listened ready.now) ≡ Some target }
    requires stream { is_stream target.stack ≡ true }
    requires fresh { (N.net net.old).trace ≡ [] }
    ensures ran { HasRun N.Becomes net.old net.new (N.net net.old) (N.net net.new)
        (HoldsService L.layers ready.now result) }
{
    vouch_untouched::<N>(net);
    let chain = chain::<L>(alloc, shelf, &ready.places)?;
    let messages = messages(alloc, &ready.pre, target.stack, 0)?;
    record_service::<L, N>(alloc, ready, target, &chain, messages.as_slice(), net)
}

// Keeps the items of the session as they come.
fn record_service<L: Layers, N: Sockets>(
    alloc: Global,
    ready: &Ready,
    target: Target,
    chain: &Chain<'_>,
    messages: &[Message],
    net: &mut N,
) -> Result<Session, NoMemory>
    requires layers { layers_of ⟦<dyn Framer as Framer>⟧ chain.now ≡ chain_of L.layers ready.now.places }
    requires messages { messages.now ≡ messages_on ready.now.pre target.stack 0 }
    requires first { first_target (listened ready.now) ≡ Some target }
    requires stream { is_stream target.stack ≡ true }
    requires fresh { (N.net net.old).trace ≡ [] }
    ensures ran { HasRun N.Becomes net.old net.new (N.net net.old) (N.net net.new)
        (HoldsService L.layers ready.now result) }
{
    let mut recorder = Recorder::new(alloc, net);
    let listened = carry_service::<L, &mut N>(alloc, ready, target, chain, messages, &mut recorder);
    // The reference is let go, so that what it leads to is the caller's again.
    let (net, items) = recorder.into_parts();
    let _ = net;
    match listened {
        Ok(listened) => match Session::served(alloc, items, listened) {
            Ok(session) => Ok(session),
            Err(none) => Err(none),
        },
        Err(none) => Err(none),
    }
}

// Reserves all the items, and listens.
fn carry_service<L: Layers, N: Sockets>(
    alloc: Global,
    ready: &Ready,
    target: Target,
    chain: &Chain<'_>,
    messages: &[Message],
    net: &mut Recorder<N>,
) -> Result<Listened, NoMemory>
    requires layers { layers_of ⟦<dyn Framer as Framer>⟧ chain.now ≡ chain_of L.layers ready.now.places }
    requires messages { messages.now ≡ messages_on ready.now.pre target.stack 0 }
    requires first { first_target (listened ready.now) ≡ Some target }
    requires stream { is_stream target.stack ≡ true }
    requires fresh { (N.net net.old.net).trace ≡ [] }
    ensures ran { HasRun N.Becomes net.old.net net.new.net (N.net net.old.net) (N.net net.new.net)
        (EndsService L.layers ready.now target result) }
{
    let service = service(ready, target);
    net.reserve(6 * service.connections as u64 + 3)?;
    match listen_over(alloc, service, chain, messages, net) {
        Ok(listened) => Ok(listened),
        Err(none) => Err(none),
    }
}

// What the file listens for.
fn service(ready: &Ready, target: Target) -> Service
    ensures is { result ≡ services.service_of ready.now target }
    ensures connections { 1 ≤ result.connections }
    ensures piece { (1 ≤ result.piece) × (result.piece ≤ 65536) }
{
    let exchange = &ready.pre.exchange;
    Service {
        target,
        connections: exchange.connections as u32,
        props: ready.pre.connection,
        expect: exchange.expect,
        piece: exchange.piece,
        deadline_ms: exchange.deadline_ms,
    }
}
