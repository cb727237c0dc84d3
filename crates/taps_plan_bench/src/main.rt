//! Measures the leaves of a plan: `taps_plan_bench [COUNT]` reads a file of 512 leaves, and takes COUNT of
//! them from their tree, which is not begun where COUNT is 0; without COUNT it builds the plan. It prints
//! how many leaves came.
#![tactic(auto)]

ghost use Rattle.std.specs.Prelude.{◌≤◌, length};

use std::alloc::Global;
use std::env;
use taps_base::{List, NoMemory};
use taps_candidate::{Leaves, build_plan};
use taps_endpoint::{Address, derive_addresses};
use taps_preconnection::{Preconnection, read_preconnection};
use taps_property::Role;
use taps_text::put_generated_file;

fn main(rt: HostRuntime) -> anyhow::Result<()> {
    let mut words = env::args(&rt)?.skip(1);
    let count = match words.next() {
        Some(word) => Some(word.parse::<u32>().unwrap_or(0)),
        None => None,
    };
    let came = match file(rt.alloc()) {
        Ok(file) => take(rt.alloc(), &file, count),
        Err(_) => 0,
    };
    println!(rt; "leaves {came}")?;
    Ok(())
}

fn file(alloc: Global) -> Result<Vec<u8>, NoMemory> {
    let mut text = Vec::new(alloc);
    put_generated_file(&mut text, 7)?;
    Ok(text)
}

// How many leaves of the file's plan come, of so many or of all.
fn take(alloc: Global, file: &[u8], count: Option<u32>) -> u64 {
    match read_preconnection(alloc, file) {
        Ok(pre) => match derive_addresses(alloc, &pre.remotes, &pre.hosts) {
            Ok(addresses) => match count {
                Some(0) => 0,
                Some(count) => take_leaves(alloc, &pre, &addresses, count),
                None => take_plan(alloc, &pre, &addresses),
            },
            Err(_) => 0,
        },
        Err(_) => 0,
    }
}

fn take_leaves(alloc: Global, pre: &Preconnection, addresses: &List<Address>, count: u32) -> u64
    requires { length pre.now.paths.items ≤ 8 }
{
    let mut came: u64 = 0;
    if let Ok(mut leaves) = Leaves::new(alloc, pre, Role::Initiate, addresses) {
        for _ in 0..count {
            if let Some(_) = leaves.next() {
                came = came.saturating_add(1);
            }
        }
    }
    came
}

fn take_plan(alloc: Global, pre: &Preconnection, addresses: &List<Address>) -> u64
    requires { length pre.now.paths.items ≤ 8 }
{
    match build_plan(alloc, pre, Role::Initiate, addresses) {
        Ok(plan) => plan.leaves.len() as u64,
        Err(_) => 0,
    }
}
