// A session of both ends over sockets in memory.
ghost use Rattle.std.specs.Prelude.{◌≡◌, ◌≤◌, length, map, IfOk};
ghost use Rattle.taps_chain.specs.ChainLaws.{AreFramers};
ghost use Rattle.taps_memory.specs.Memory.{at_first};
ghost use Rattle.taps_loop_rows.specs.Heard.{HearsWhatWasSent};

use std::alloc::Global;
use taps_app::run;
use taps_base::{MemoryFiles, NoMemory, Sink};
use taps_command::Status;
use taps_framer::{Framer, vouch_in};
use taps_loop::vouch_loops;
use taps_memory::MemoryNet;

/// Runs a file over sockets in memory on which no call was made yet: `run FILE`, with a file system in memory that
/// holds the file alone. Its clause says that where the file is a session of both ends through framers, the messages
/// that member 1 heard are the first ones of those that member 0 sent, in order and whole, and the other way round;
/// and that no frame is told as bad. Of any other file it says nothing.
pub fn run_in_memory<O: Sink, E: Sink>(
    alloc: Global,
    file: &[u8],
    shelf: &Vec<Box<dyn Framer>>,
    net: &mut MemoryNet,
    out: &mut O,
    err: &mut E,
) -> Result<Status, NoMemory>
    requires few { length shelf.now.items ≤ 64 }
    requires fresh { net.old ≡ at_first net.old.setting }
    ensures heard { IfOk result (λ s. HearsWhatWasSent (map (λ b. layer b) shelf.now.items) file.now
        (O.state out.old) (O.state out.new) s) }
{
    let mut files = MemoryFiles::new(alloc, &[])?;
    files.add("loop.toml", file)?;
    let words = [
        String::from_str(alloc, "run")?,
        String::from_str(alloc, "loop.toml")?,
    ];
    vouch_shelf(shelf);
    let status = run(alloc, &words, &mut files, out, err, net, shelf);
    net.joins_winner();
    vouch_loops();
    Ok(status)
}

// Nothing: its clause has the laws of each framer on a shelf.
fn vouch_shelf(shelf: &Vec<Box<dyn Framer>>)
    requires few { length shelf.now.items ≤ 64 }
    ensures { AreFramers (map (λ b. layer b) shelf.now.items) }
{
    for place in 0..shelf.len() {
        vouch_in(&shelf[place], 0);
    }
}
