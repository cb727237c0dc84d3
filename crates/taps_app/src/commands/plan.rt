use crate::plan::print_plan;
use std::alloc::Global;
use taps_base::{List, NoMemory};
use taps_command::{
    FileRules, Layers, OneFile, Printed, Ready, Shelf, Unready, derive, vouch_untouched,
};
use taps_endpoint::Address;
use taps_preconnection::Preconnection;
use taps_socket::Sockets;

/// `plan FILE` writes the plan of the file.
pub struct Plan;

impl FileRules for Plan {
    ghost use Rattle.taps_app.specs.Plan.{plan_rules};

    ghost rules = { plan_rules };

    fn addresses(alloc: Global, pre: &Preconnection) -> Result<List<Address>, Unready> {
        derive(alloc, pre)
    }
}

impl<L: Layers> OneFile<L> for Plan {
    ghost use Rattle.taps_command.specs.OneFile.{LeavesAlone};
    ghost use Rattle.taps_app.specs.Plan.{PrintsPlan};

    ghost Prints = { λ ready old new text s. PrintsPlan ready text s };

    ghost MayLeave = { LeavesAlone };

    fn print<N: Sockets>(
        alloc: Global,
        _shelf: &Shelf<'_>,
        ready: &Ready,
        net: &mut N,
    ) -> Result<Printed, NoMemory> {
        vouch_untouched::<N>(net);
        print_plan(alloc, ready)
    }
}
