ghost use Rattle.std.specs.Prelude.{◌≡◌, ◌≤◌, [], IfOk, length};
ghost use Rattle.taps_candidate.specs.Candidates.{leaf};
ghost use Rattle.taps_candidate.specs.Gathering.{gathering_of};

use crate::branches::{gather_branches, refill};
use crate::candidate::{Candidate, Level};
use crate::plan::Leaf;
use std::alloc::Global;
use std::marker::Model;
use taps_base::{List, NoMemory};
use taps_endpoint::Address;
use taps_preconnection::Preconnection;
use taps_property::Role;
use taps_stack::Target;

/// The leaves of a plan, one after another, from a tree that is expanded branch by branch: by path,
/// then by stack, then the families of the addresses in turns (RFC 9623 section 4.1).
///
/// All its memory is taken at first. Of the leaves to come at most one branch waits expanded.
#[derive(Drop)]
pub struct Leaves<'a> {
    pre: &'a Preconnection,
    role: Role,
    addresses: &'a [Address],
    // The branches that are not expanded yet.
    branches: Vec<Level>,
    // The candidates of the branch that was expanded last, and how many of them were given.
    expanded: Vec<Candidate>,
    taken: usize,
}

impl<'a> Model for Leaves<'a> {
    ghost use Rattle.taps_candidate.specs.Progress.{Progress};

    ghost Value = { Progress };

    ghost use Rattle.taps_candidate.specs.Expanding.{progress_of, IsExpanding};

    ghost view = { progress_of };

    ghost invariant = { IsExpanding };
}

impl<'a> Leaves<'a> {
    ghost use Rattle.taps_candidate.specs.Progress.{IsStart, IsWaiting, GivesNext};

    /// The leaves of the plan of a race over these addresses, each of which is listed once.
    pub fn new(
        alloc: Global,
        pre: &'a Preconnection,
        role: Role,
        addresses: &'a List<Address>,
    ) -> Result<Leaves<'a>, NoMemory>
        requires { length pre.now.paths.items ≤ 8 }
        ensures start { IfOk result (λ leaves. IsStart (gathering_of pre.now role addresses.now.items) leaves) }
        ensures waiting { IfOk result IsWaiting }
    {
        let branches = gather_branches(alloc, pre, role)?;
        let expanded = Vec::with_capacity(alloc, addresses.len())?;
        Ok(Leaves {
            pre,
            role,
            addresses: addresses.as_slice(),
            branches,
            expanded,
            taken: 0,
        })
    }

    /// The next leaf, or none where all were given.
    pub fn next(&mut self) -> Option<Leaf>
        ensures next { GivesNext self.old self.new result }
        ensures waiting { IsWaiting self.new }
    {
        self.expand_more();
        self.take()
    }

    // Where no leaf waits, expands branches until one does or none is left.
    fn expand_more(&mut self)
        ensures given { self.new.given ≡ self.old.given }
        ensures to_come { self.new.to_come ≡ self.old.to_come }
        ensures same_addresses { self.new.addresses ≡ self.old.addresses }
        ensures ended { self.new.waiting ≡ [] → self.new.to_come ≡ [] }
    {
        if self.taken < self.expanded.len() {
            return;
        }
        refill(
            &mut self.branches,
            &mut self.expanded,
            self.pre,
            self.addresses,
        );
        self.taken = 0;
    }

    // Gives the first leaf that waits.
    fn take(&mut self) -> Option<Leaf>
        requires { self.old.waiting ≡ [] → self.old.to_come ≡ [] }
        ensures next { GivesNext self.old self.new result }
        ensures waiting { IsWaiting self.new }
    {
        if self.taken >= self.expanded.len() {
            return None;
        }
        let given = make_leaf(&self.expanded[self.taken]);
        self.taken += 1;
        Some(given)
    }
}

fn make_leaf(candidate: &Candidate) -> Leaf
    ensures { result ≡ leaf candidate.now }
{
    Leaf {
        path: candidate.path,
        target: Target {
            stack: candidate.stack,
            address: candidate.address,
        },
    }
}
