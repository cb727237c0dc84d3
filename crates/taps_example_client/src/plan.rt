ghost use Rattle.std.specs.Prelude.{◌≡◌, IfOk};
ghost use Rattle.taps_preconnection.specs.Limits.{IsWithin};
ghost use Rattle.taps_candidate.specs.PlanText.{interface_of, plan_text};
ghost use Rattle.taps_example_client.specs.PlanFacts.{IsPlanOf};
ghost use Rattle.taps_example_client.specs.Plans.{Plans, PlansFor};

use std::alloc::Global;
use taps_base::{Body, NoMemory};
use taps_candidate::{Plan, build_plan, plan_text};
use taps_endpoint::{DeriveError, derive_addresses};
use taps_preconnection::{PreError, Preconnection, read_preconnection};
use taps_property::Role;

/// What an application says, and the plan of its race.
#[derive(Drop)]
pub struct Planned {
    pub pre: Preconnection,
    pub plan: Plan,
}

/// Why there is no plan.
#[derive(Debug, Drop)]
pub enum PlanError {
    /// The file is refused.
    File(PreError),
    /// The remotes have so many addresses, more than 32.
    TooMany(u64),
    /// Memory ran out.
    NoMemory,
}

/// The plan for what a file says.
#[tactic(auto, using(crate::proofs::Planning::plans_on))]
pub fn plan_of_file(alloc: Global, file: &[u8]) -> Result<Planned, PlanError>
    ensures { Plans file.now result }
{
    match read_preconnection(alloc, file) {
        Ok(pre) => plan_for(alloc, pre),
        Err(PreError::NoMemory) => Err(PlanError::NoMemory),
        Err(refused) => Err(PlanError::File(refused)),
    }
}

// The plan for a Preconnection that keeps the limits of a file.
#[tactic(auto, using(crate::proofs::Planning::short_gaps))]
fn plan_for(alloc: Global, pre: Preconnection) -> Result<Planned, PlanError>
    requires { IsWithin pre }
    ensures { PlansFor pre result }
{
    let addresses = match derive_addresses(alloc, &pre.remotes, &pre.hosts) {
        Ok(addresses) => addresses,
        Err(DeriveError::TooMany(count)) => return Err(PlanError::TooMany(count)),
        Err(DeriveError::NoMemory) => return Err(PlanError::NoMemory),
    };
    match build_plan(alloc, &pre, Role::Initiate, &addresses) {
        Ok(plan) => Ok(Planned { pre, plan }),
        Err(NoMemory) => Err(PlanError::NoMemory),
    }
}

/// The plan as the program prints it.
pub fn text(alloc: Global, planned: &Planned) -> Result<Body, NoMemory>
    requires { IsPlanOf planned.now.pre planned.now.plan }
    ensures { IfOk result (λ text. text ≡
        plan_text (interface_of planned.now.pre) planned.now.plan.leaves.items planned.now.plan.gaps.items) }
{
    plan_text(alloc, &planned.pre, &planned.plan)
}
