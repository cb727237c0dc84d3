ghost use Rattle.std.specs.Prelude.{◌≡◌, ◌≤◌, ◌++◌, [], length, map, IfOk, OnOk};
ghost use Rattle.std.specs.List.{cons_option, flat_map};
ghost use Rattle.taps_endpoint.specs.declared.remote.Remote.TheVariants.{Literal};
ghost use Rattle.taps_candidate.specs.Plan.{listed};
ghost use Rattle.taps_session.specs.FileSessions.{initiated, listened, text_of, IsPlanFor};
ghost use Rattle.taps_session.specs.FileSessions as sessions;

use std::alloc::Global;
use taps_base::{List, NoMemory};
use taps_candidate::{Leaf, Plan, build_plan, plan_string};
use taps_command::Ready;
use taps_endpoint::{Address, DeriveError, Remote, derive_addresses};
use taps_preconnection::{Preconnection, RunRole};
use taps_property::Role;
use taps_socket::Target;

/// The plan of Initiate.
#[tactic(auto, using(crate::proofs::Plans::short_gaps))]
pub fn initiate(alloc: Global, ready: &Ready) -> Result<Plan, NoMemory>
    ensures { IfOk result (λ plan. IsPlanFor ready.now (initiated ready.now) plan) }
{
    build_plan(alloc, &ready.pre, Role::Initiate, &ready.addresses)
}

/// The plan of Listen, over the addresses of the locals.
#[tactic(auto, using(crate::proofs::Plans::short_gaps))]
pub fn listen(alloc: Global, ready: &Ready) -> Result<Plan, NoMemory>
    ensures { IfOk result (λ plan. IsPlanFor ready.now (listened ready.now) plan) }
{
    let addresses = local_addresses(alloc, &ready.pre)?;
    build_plan(alloc, &ready.pre, Role::Listen, &addresses)
}

/// The plan over which a session of a role goes first.
pub fn plan_for(alloc: Global, ready: &Ready, role: RunRole) -> Result<Plan, NoMemory>
    ensures { IfOk result (λ plan.
        IsPlanFor ready.now (sessions.plan_for role ready.now.pre ready.now.addresses) plan) }
{
    match role {
        RunRole::Initiate => initiate(alloc, ready),
        RunRole::Listen => listen(alloc, ready),
        RunRole::Loop => initiate(alloc, ready),
    }
}

// The addresses of the locals, each once.
fn local_addresses(alloc: Global, pre: &Preconnection) -> Result<List<Address>, NoMemory>
    requires { length pre.now.locals.items ≤ 8 }
    ensures are { IfOk result (λ list. list.items ≡ sessions.local_addresses pre.now) }
    ensures few { IfOk result (λ list. length list.items ≤ 8) }
{
    let literals = literals(alloc, pre)?;
    match derive_addresses(alloc, &literals, &pre.hosts) {
        Ok(addresses) => Ok(addresses),
        Err(DeriveError::TooMany(_)) => unreachable!(),
        Err(DeriveError::NoMemory) => Err(NoMemory),
    }
}

// They stand among remotes as literals.
fn literals(alloc: Global, pre: &Preconnection) -> Result<List<Remote>, NoMemory>
    ensures { IfOk result (λ list. list.items ≡ map Literal (flat_map sessions.address_of pre.now.locals.items)) }
{
    let mut literals = Vec::new(alloc);
    for local in pre.locals.as_slice() {
        put_literal(&mut literals, local.address)?;
    }
    Ok(List::from_vec(literals))
}

fn put_literal(literals: &mut Vec<Remote>, address: Option<Address>) -> Result<(), NoMemory>
    ensures { OnOk result (literals.new.items ≡ literals.old.items ++ map Literal (cons_option address [])) }
{
    match address {
        Some(address) => Ok(literals.push(Remote::Literal(address))?),
        None => Ok(()),
    }
}

/// The text of a plan.
#[tactic(auto, unfolding(crate::specs::FileSessions::text_of))]
pub fn text(alloc: Global, ready: &Ready, plan: &Plan) -> Result<Vec<u8>, NoMemory>
    requires plan { IsPlanFor ready.now (listed plan.now) plan.now }
    ensures { IfOk result (λ text. text.items ≡ text_of ready.now.pre (listed plan.now)) }
{
    let text = plan_string(alloc, &ready.pre, plan)?;
    Ok(text.into_bytes())
}

/// What its leaves try.
pub fn targets(alloc: Global, leaves: &[Leaf]) -> Result<Vec<Target>, NoMemory>
    ensures { IfOk result (λ targets. targets.items ≡ map (λ leaf. leaf.target) leaves.now) }
{
    Ok(leaves.iter().map(target).collect(alloc)?)
}

fn target(leaf: &Leaf) -> Target
    ensures { result ≡ leaf.now.target }
{
    leaf.target
}
