// A group begins with the connection over one socket.
ghost use Rattle.std.specs.Prelude.{◌≡◌, ◌≤◌, ℕ, List, [], false};
ghost use Rattle.taps_chain.specs.Layers.{layers_of};
ghost use Rattle.taps_connection.specs.Conditions.{IsHeld};
ghost use Rattle.taps_socket.specs.RaceSockets.{pending_sockets};
ghost use Rattle.taps_stack.specs.StackTable.{is_stream};
ghost use Rattle.taps_group_exchange.specs.declared.addressed.Addressed.{Addressed};
ghost use Rattle.taps_cloning.specs.Founding.{HasFounded};
ghost use Rattle.taps_cloning.specs.GroupRules.{terms_of};

use crate::Terms;
use std::alloc::Global;
use taps_base::NoMemory;
use taps_chain::Chain;
use taps_connection::Connection;
use taps_framer::Framer;
use taps_group::Group;
use taps_socket::Sockets;

// A group of one new connection over a socket, from a time in milliseconds on. Where memory runs out, the
// socket is closed.
pub(crate) fn found_group<'a, N: Sockets>(
    alloc: Global,
    terms: &Terms,
    socket: u32,
    chain: Chain<'a>,
    at: u64,
    net: &mut N,
) -> Result<Group<'a>, NoMemory>
    requires some { 1 ≤ terms.now.piece }
    requires few { terms.now.piece ≤ 65536 }
    requires held { IsHeld (N.net net.old).trace socket (is_stream terms.now.target.stack) false false }
    requires idle { pending_sockets (N.net net.old).trace ≡ [] }
    requires told { at ≡ (N.net net.old).told }
    requires spare { 1 ≤ (N.net net.old).spare }
    ensures { (priorities : List ℕ) (messages : List Addressed) →
        HasFounded ⟦<dyn Framer as Framer>⟧ N.Becomes net.old net.new (N.net net.old) (N.net net.new)
        (terms_of terms.now (layers_of ⟦<dyn Framer as Framer>⟧ chain.entry) priorities messages) socket result }
{
    chain.vouch();
    let Ok(own) = chain.copy() else {
        net.close(socket);
        return Err(NoMemory);
    };
    match Connection::new(
        alloc,
        socket,
        terms.target.stack,
        own,
        terms.props,
        terms.piece,
        at,
    ) {
        Ok(connection) => match Group::new(alloc, connection, terms.target, chain, terms.piece) {
            Ok(group) => Ok(group),
            Err((none, connection)) => {
                let _ = connection.abort(net);
                Err(none)
            }
        },
        Err(none) => {
            net.close(socket);
            Err(none)
        }
    }
}
