ghost use Rattle.std.specs.Prelude.{◌≡◌, ◌<◌, ◌≤◌, ◌*◌, IfOk, All, length};
ghost use Rattle.taps_candidate.specs.Gathering.{gathering_of};
ghost use Rattle.taps_candidate.specs.Plan.{gap_of, gaps_of, leaves_of, plan_of, listed};

use crate::leaves::Leaves;
use std::alloc::Global;
use taps_base::{Gap, List, NoMemory};
use taps_endpoint::Address;
use taps_preconnection::{Mode, Preconnection};
use taps_property::Role;
use taps_stack::Target;

/// What one attempt of a race tries: a path, by its place, and a target.
#[derive(Clone, Copy, Debug, PartialEq, Eq)]
pub struct Leaf {
    pub path: u32,
    pub target: Target,
}

/// The leaves of a race in the order in which they are tried, and the gap before each.
#[derive(Drop)]
pub struct Plan {
    pub leaves: List<Leaf>,
    pub gaps: List<Gap>,
}

/// The plan of a race over these addresses, each of which is listed once.
#[tactic(auto, using(crate::proofs::FewLeaves::few_leaves, crate::proofs::Placed::leaves_placed))]
pub fn build_plan(
    alloc: Global,
    pre: &Preconnection,
    role: Role,
    addresses: &List<Address>,
) -> Result<Plan, NoMemory>
    requires { length pre.now.paths.items ≤ 8 }
    ensures ranked { IfOk result (λ plan.
        listed plan ≡ plan_of (gathering_of pre.now role addresses.now.items) pre.now.race.mode pre.now.race.delay_ms) }
    ensures even { IfOk result (λ plan. length plan.leaves.items ≡ length plan.gaps.items) }
    ensures few { IfOk result (λ plan. length plan.leaves.items ≤ 24 * length addresses.now.items) }
    ensures placed { IfOk result (λ plan. All (λ leaf. leaf.path < length pre.now.paths.items) plan.leaves.items) }
{
    let leaves = collect_leaves(alloc, pre, role, addresses)?;
    let gaps = gaps(alloc, pre.race.mode, pre.race.delay_ms, leaves.len())?;
    Ok(Plan {
        leaves: List::from_vec(leaves),
        gaps: List::from_vec(gaps),
    })
}

fn collect_leaves(
    alloc: Global,
    pre: &Preconnection,
    role: Role,
    addresses: &List<Address>,
) -> Result<Vec<Leaf>, NoMemory>
    requires { length pre.now.paths.items ≤ 8 }
    ensures { IfOk result (λ v. v.items ≡ leaves_of (gathering_of pre.now role addresses.now.items)) }
{
    let mut leaves = Leaves::new(alloc, pre, role, addresses)?;
    let mut collected = Vec::new(alloc);
    while let Some(Leaf { path, target }) = leaves.next() {
        collected.push(Leaf { path, target })?;
    }
    Ok(collected)
}

// The first leaf is tried at once.
fn gaps(alloc: Global, mode: Mode, delay: u64, count: usize) -> Result<Vec<Gap>, NoMemory>
    ensures { IfOk result (λ v. v.items ≡ gaps_of mode delay count) }
{
    let mut gaps = Vec::with_capacity(alloc, count)?;
    if count > 0 {
        gaps.push(Gap::After(0))?;
        gaps.resize(count, gap(mode, delay))?;
    }
    Ok(gaps)
}

fn gap(mode: Mode, delay: u64) -> Gap
    ensures { result ≡ gap_of mode delay }
{
    match mode {
        Mode::Simultaneous => Gap::After(0),
        Mode::Staggered => Gap::After(delay),
        Mode::Failover => Gap::Never,
    }
}
