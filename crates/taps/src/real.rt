ghost use Rattle.std.specs.Prelude.{◌≤◌, length, map};
ghost use Rattle.taps.specs.SystemRuns.{IsSystemRun};
ghost use Rattle.taps.specs.Written.{IsWritten};
ghost use Rattle.taps_app.specs.Arguments.{asked_of};

use std::alloc::Global;
use std::rt;
use taps_app::{Status, run};
use taps_base::{RealFiles, Sink};
use taps_framer::Framer;
use taps_real::RealSockets;

/// Does what the arguments ask for, as `run` of `taps_app` does, over the files and the sockets of
/// the system. They are made here and end with the call.
///
/// Where memory for one of the two cannot be found, nothing is written and the answer is NoMemory.
pub fn run_real<R: rt::Files + rt::Net + rt::Clock + Copy + Drop, O: Sink, E: Sink>(
    alloc: Global,
    system: R,
    words: &[String],
    out: &mut O,
    err: &mut E,
    shelf: &Vec<Box<dyn Framer>>,
) -> Status
    requires shelf { length shelf.now.items ≤ 64 }
    ensures system { IsSystemRun (map (λ b. layer b) shelf.now.items) words.now
        (O.state out.old) (O.state out.new) (E.state err.old) (E.state err.new) result }
    ensures written { IsWritten (asked_of (map (λ b. layer b) shelf.now.items) words.now)
        (O.state out.old) (O.state out.new) (E.state err.old) (E.state err.new) result }
{
    let Ok(mut files) = RealFiles::new(alloc, system) else {
        return Status::NoMemory;
    };
    let Ok(mut net) = RealSockets::new(alloc, system) else {
        return Status::NoMemory;
    };
    run(alloc, words, &mut files, out, err, &mut net, shelf)
}
