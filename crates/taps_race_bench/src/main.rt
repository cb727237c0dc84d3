//! Measures a race in simultaneous mode, with no sockets below: `taps_race_bench LEAVES`. Half of its sockets
//! break one after another, then the last one completes, and the others are closed. It prints counts alone.
#![tactic(auto)]

ghost use Rattle.std.specs.Prelude.{◌≡◌, ◌≤◌, IfOk, length, replicate};
ghost use Rattle.taps_base.specs.declared.gap.Gap.TheVariants.{After};

use std::alloc::{AllocError, Global};
use std::env;
use taps_base::Gap;
use taps_racer::{Command, Racer, Racing, Told};
use taps_socket::{Cause, How};

/// What was done.
#[derive(Clone, Copy)]
struct Counts {
    started: u64,
    broke: u64,
    closed: u64,
}

fn main(rt: HostRuntime) -> anyhow::Result<()> {
    let mut words = env::args(&rt)?.skip(1);
    let leaves = match words.next() {
        Some(word) => word.parse::<u32>().unwrap_or(0),
        None => 0,
    };
    let counts = race(rt.alloc(), leaves.min(1024));
    println!(rt;
        "started {} broke {} closed {}",
        counts.started, counts.broke, counts.closed
    )?;
    Ok(())
}

fn race(alloc: Global, leaves: u32) -> Counts
    requires { leaves ≤ 1024 }
{
    let none = Counts {
        started: 0,
        broke: 0,
        closed: 0,
    };
    match gaps(alloc, leaves as usize) {
        Ok(gaps) => race_with(alloc, &gaps, leaves, none),
        Err(_) => none,
    }
}

fn gaps(alloc: Global, leaves: usize) -> Result<Vec<Gap>, AllocError>
    ensures { IfOk result (λ v. v.items ≡ replicate leaves (After 0)) }
{
    let mut gaps = Vec::with_capacity(alloc, leaves)?;
    gaps.resize(leaves, Gap::After(0))?;
    Ok(gaps)
}

fn race_with(alloc: Global, gaps: &Vec<Gap>, leaves: u32, none: Counts) -> Counts
    requires gaps { gaps.now.items ≡ replicate leaves (After 0) }
    requires few { leaves ≤ 1024 }
{
    match Racer::new(alloc, gaps, 30000, None) {
        Ok(racer) => {
            let mut racing = racer.begin(0);
            let mut counts = none;
            for _ in 0..4 * leaves {
                counts = next(&mut racing, leaves, counts);
            }
            counts
        }
        Err(_) => none,
    }
}

// Does what comes next.
fn next(racing: &mut Racer<Racing>, leaves: u32, mut counts: Counts) -> Counts {
    match racing.next() {
        Command::Start(leaf) => {
            counts.started = counts.started.saturating_add(1);
            let _ = racing.told(Told::Started {
                leaf,
                socket: leaf,
                at: 0,
            });
        }
        Command::Wait(until) => {
            let how = end(leaves, counts.broke);
            counts.broke = counts.broke.saturating_add(1);
            let _ = racing.told(Told::Waited { until, at: 0, how });
        }
        Command::Close(socket) => {
            counts.closed = counts.closed.saturating_add(1);
            let _ = racing.told(Told::Closed { socket });
        }
        Command::Finish(_) => {}
    }
    counts
}

// How a wait ends, when so many sockets broke.
fn end(leaves: u32, broke: u64) -> How {
    if broke < leaves as u64 / 2 {
        How::Broke(broke as u32, Cause::Reset)
    } else {
        How::Completed(leaves.saturating_sub(1))
    }
}
