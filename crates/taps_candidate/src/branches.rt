ghost use Rattle.std.specs.Prelude.{◌≡◌, [], ◌+◌, ◌++◌, ◌<◌, ◌≤◌, false, IfOk, OnOk, length, slice_index_or, vec_capacity, if◌then◌else◌};
ghost use Rattle.taps_candidate.specs.Branches as tree;
ghost use Rattle.taps_candidate.specs.Candidates.{level_of};
ghost use Rattle.taps_candidate.specs.Gathering.{gathering_of};
ghost use Rattle.taps_preconnection.specs.PathOffers.{path_of};
ghost use Rattle.taps_rank.specs.Order.{comes_before};

use crate::candidate::{Candidate, Level, expand, stack_place};
use std::alloc::Global;
use taps_base::NoMemory;
use taps_endpoint::Address;
use taps_preconnection::Preconnection;
use taps_property::Role;
use taps_prune::{path_survives, stack_survives};
use taps_rank::{path_key, stack_key};
use taps_stack::Stack;

/// The branches of the tree: the paths that survive, each with every stack that survives.
pub fn gather_branches(
    alloc: Global,
    pre: &Preconnection,
    role: Role,
) -> Result<Vec<Level>, NoMemory>
    requires { length pre.now.paths.items ≤ 8 }
    ensures { IfOk result (λ v. v.items ≡ tree.branches_for pre.now role) }
{
    let mut branches = Vec::new(alloc);
    for path in 0..pre.paths.len() {
        add_path(&mut branches, pre, role, path)?;
    }
    Ok(branches)
}

// Adds those of a path, if it survives.
fn add_path(
    branches: &mut Vec<Level>,
    pre: &Preconnection,
    role: Role,
    path: usize,
) -> Result<(), NoMemory>
    requires few { length pre.now.paths.items ≤ 8 }
    requires placed { path < length pre.now.paths.items }
    ensures { OnOk result (branches.new.items ≡ branches.old.items
        ++ tree.of_path (gathering_of pre.now role []) (path, path_of pre.now path)) }
{
    if path_survives(pre, role, path) {
        add_stacks(branches, pre, role, path)
    } else {
        Ok(())
    }
}

fn add_stacks(
    branches: &mut Vec<Level>,
    pre: &Preconnection,
    role: Role,
    path: usize,
) -> Result<(), NoMemory>
    requires few { length pre.now.paths.items ≤ 8 }
    requires placed { path < length pre.now.paths.items }
    ensures { OnOk result (branches.new.items ≡ branches.old.items
        ++ tree.of_stacks (gathering_of pre.now role []) (path, path_of pre.now path)) }
{
    for stack in [Stack::Tcp, Stack::Unix, Stack::Udp] {
        add_stack(branches, pre, role, path, stack)?;
    }
    Ok(())
}

// Adds that of a stack, if it survives.
fn add_stack(
    branches: &mut Vec<Level>,
    pre: &Preconnection,
    role: Role,
    path: usize,
    stack: Stack,
) -> Result<(), NoMemory>
    requires few { length pre.now.paths.items ≤ 8 }
    requires placed { path < length pre.now.paths.items }
    ensures { OnOk result (branches.new.items ≡ branches.old.items
        ++ tree.of_stack (gathering_of pre.now role []) (path, path_of pre.now path) stack) }
{
    if stack_survives(pre, role, stack) {
        branches.push(make_level(pre, role, path, stack))?;
    }
    Ok(())
}

fn make_level(pre: &Preconnection, role: Role, path: usize, stack: Stack) -> Level
    requires few { length pre.now.paths.items ≤ 8 }
    requires placed { path < length pre.now.paths.items }
    ensures { result ≡ level_of (gathering_of pre.now role []) (path, path_of pre.now path) stack }
{
    Level {
        path_key: path_key(pre, role, path),
        path: path as u32,
        stack_key: stack_key(pre, role, stack),
        stack,
    }
}

/// Expands branches until one has candidates, or none is left.
pub fn refill(
    branches: &mut Vec<Level>,
    expanded: &mut Vec<Candidate>,
    pre: &Preconnection,
    addresses: &[Address],
)
    requires branches { tree.AreBranches pre.now.paths.items branches.old.items }
    requires room { length addresses.now ≤ vec_capacity expanded.old }
    ensures refills { tree.Refills pre.now.paths.items addresses.now
        branches.old.items branches.new.items expanded.new.items }
    ensures room { length addresses.now ≤ vec_capacity expanded.new }
{
    expanded.clear();
    while expanded.is_empty() && !branches.is_empty() {
        expand_first(branches, expanded, pre, addresses);
    }
}

// Expands the branch that comes first.
fn expand_first(
    branches: &mut Vec<Level>,
    expanded: &mut Vec<Candidate>,
    pre: &Preconnection,
    addresses: &[Address],
)
    requires empty { expanded.old.items ≡ [] }
    requires some { 0 < length branches.old.items }
    requires branches { tree.AreBranches pre.now.paths.items branches.old.items }
    requires room { length addresses.now ≤ vec_capacity expanded.old }
    ensures expands { tree.Expands pre.now.paths.items addresses.now
        branches.old.items branches.new.items expanded.new.items }
    ensures fewer { length branches.new.items + 1 ≡ length branches.old.items }
    ensures room { length addresses.now ≤ vec_capacity expanded.new }
{
    let place = first_branch(branches);
    let level = branches.remove(place);
    expand(expanded, level, pre.path(level.path as usize), addresses);
}

// The place of the branch that comes first.
fn first_branch(branches: &[Level]) -> usize
    requires { 0 < length branches.now }
    ensures within { result < length branches.now }
    ensures first { (k : _) (d : _) → k < length branches.now → comes_before
        (tree.branch_key (slice_index_or branches.now k d))
        (tree.branch_key (slice_index_or branches.now result d)) ≡ false }
{
    let mut first = 0;
    for place in 0..branches.len() {
        first = earlier(branches, first, place);
    }
    first
}

// Which of two branches comes first, by their places.
fn earlier(branches: &[Level], first: usize, place: usize) -> usize
    requires first { first < length branches.now }
    requires place { place < length branches.now }
    ensures { (d : _) → result ≡ (if comes_before (tree.branch_key (slice_index_or branches.now place d))
        (tree.branch_key (slice_index_or branches.now first d)) then place else first) }
{
    if is_before(&branches[place], &branches[first]) {
        place
    } else {
        first
    }
}

// Whether a branch comes before another.
fn is_before(branch: &Level, other: &Level) -> bool
    ensures { result ≡ comes_before (tree.branch_key branch.now) (tree.branch_key other.now) }
{
    branch_key(branch) < branch_key(other)
}

fn branch_key(branch: &Level) -> [u64; 4]
    ensures { result ≡ tree.branch_key branch.now }
{
    [
        branch.path_key,
        branch.path as u64,
        branch.stack_key,
        stack_place(branch.stack),
    ]
}
