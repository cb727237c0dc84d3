ghost use Rattle.std.specs.Prelude.{◌≡◌, IfOk};
ghost use Rattle.taps_command.specs.Meanings.{HasText};
ghost use Rattle.taps_app.specs.Plan.{PrintsPlan};

use std::alloc::Global;
use taps_base::NoMemory;
use taps_command::{Printed, Ready, Status};
use taps_session::{initiate, text};

/// The text of the plan of Initiate, with its status.
#[tactic(auto, using(taps_session::proofs::Plans::as_listed))]
pub fn print_plan(alloc: Global, ready: &Ready) -> Result<Printed, NoMemory>
    ensures prints { IfOk result (λ printed. PrintsPlan ready.now printed.text.items printed.status) }
    ensures has_text { IfOk result (λ printed. HasText printed.status) }
{
    let plan = initiate(alloc, ready)?;
    Ok(Printed {
        text: text(alloc, ready, &plan)?,
        status: Status::Done,
    })
}
