use std::alloc::Global;
use taps_base::{List, NoMemory};
use taps_command::{FileRules, Layers, OneFile, Printed, Ready, Shelf, Unready, derive};
use taps_endpoint::Address;
use taps_preconnection::{Preconnection, RunRole};
use taps_session::session_text;
use taps_socket::Sockets;

/// `run FILE` runs the file's session on the sockets, and writes its log.
pub struct Run;

impl FileRules for Run {
    ghost use Rattle.taps_app.specs.Run.{run_rules};

    ghost rules = { run_rules };

    fn addresses(alloc: Global, pre: &Preconnection) -> Result<List<Address>, Unready> {
        match pre.exchange.role {
            RunRole::Listen => Ok(List::new(alloc)),
            RunRole::Initiate => derive(alloc, pre),
            RunRole::Loop => derive(alloc, pre),
        }
    }
}

impl<L: Layers> OneFile<L> for Run {
    ghost use Rattle.taps_session.specs.Roles.{IsRunOn, LeavesRun};

    ghost Prints = { IsRunOn L.layers };

    ghost MayLeave = { LeavesRun L.layers };

    fn print<N: Sockets>(
        alloc: Global,
        shelf: &Shelf<'_>,
        ready: &Ready,
        net: &mut N,
    ) -> Result<Printed, NoMemory> {
        session_text::<L, N>(alloc, shelf, ready, ready.pre.exchange.role, net)
    }
}
