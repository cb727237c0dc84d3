// What a session that races goes by.
ghost use Rattle.std.specs.Prelude.{◌≡◌, IfOk};
ghost use Rattle.taps_chain.specs.Layers.{layers_of};
ghost use Rattle.taps_command.specs.Places.{IsOnShelf};
ghost use Rattle.taps_command.specs.Shelves.{layers_on};
ghost use Rattle.taps_session.specs.FileSessions.{initiated, IsPlanFor, IsPrepared};

use crate::plan::targets;
use std::alloc::Global;
use taps_base::NoMemory;
use taps_candidate::Plan;
use taps_chain::Chain;
use taps_command::{Layers, Ready, Shelf, chain};
use taps_framer::Framer;
use taps_racer::{Racer, Unstarted};
use taps_socket::Target;

/// The racer of a plan, what its leaves try, and the framers of the file.
#[derive(Drop)]
pub struct Prepared<'a> {
    pub racer: Racer<Unstarted>,
    pub targets: Vec<Target>,
    pub chain: Chain<'a>,
}

/// Takes what the race of a plan and the exchange that follows it go by.
pub fn prepare<'a, L: Layers>(
    alloc: Global,
    shelf: &Shelf<'a>,
    ready: &Ready,
    plan: &Plan,
) -> Result<Prepared<'a>, NoMemory>
    requires shelf { layers_on ⟦<dyn Framer as Framer>⟧ shelf.now ≡ L.layers }
    requires on_shelf { IsOnShelf L.layers ready.now.places }
    requires plan { IsPlanFor ready.now (initiated ready.now) plan.now }
    ensures { IfOk result (λ prepared. IsPrepared L.layers ready.now
        (layers_of ⟦<dyn Framer as Framer>⟧ prepared.chain) prepared.racer.rules prepared.targets.items) }
{
    let targets = targets(alloc, plan.leaves.as_slice())?;
    let chain = chain::<L>(alloc, shelf, &ready.places)?;
    let race = &ready.pre.race;
    let gaps = plan.gaps.as_slice();
    let racer = Racer::new(alloc, gaps, race.timeout_ms, race.cancel_ms)?;
    Ok(Prepared {
        racer,
        targets,
        chain,
    })
}
