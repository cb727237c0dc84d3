ghost use Rattle.std.specs.Prelude.{◌≡◌, []};
ghost use Rattle.taps_text.specs.ErrorLines.{usage_line};
ghost use Rattle.taps_command.specs.Asked.{asked, HasBeenRun};
ghost use Rattle.taps_command.specs.Nets.{HasRun};
ghost use Rattle.taps_command.specs.Runs.{names_of, status_of, Says};
ghost use Rattle.taps_command.specs.Shelves.{layers_on};
ghost use Rattle.taps_command.specs.Telling.{Tells};

use crate::carry::carry_out;
use crate::command::Command;
use crate::error_line::{say, tell_usage};
use crate::layers::Layers;
use crate::nets::vouch_untouched;
use crate::shelf::Shelf;
use crate::status::Status;
use crate::stop::Stop;
use std::alloc::Global;
use taps_base::{Files, Sink};
use taps_framer::Framer;
use taps_socket::Sockets;

/// One command, where there are as many names as it reads files.
#[tactic(auto, using(crate::proofs::Running::run_none, crate::proofs::Running::run_ended))]
pub fn run_command<C: Command<L>, L: Layers, F: Files, O: Sink, E: Sink, N: Sockets>(
    alloc: Global,
    names: &[String],
    files: &mut F,
    out: &mut O,
    err: &mut E,
    net: &mut N,
    shelf: &Shelf<'_>,
) -> Status
    requires shelf { layers_on ⟦<dyn Framer as Framer>⟧ shelf.now ≡ L.layers }
    requires fresh { (N.net net.old).trace ≡ [] }
    ensures ran { HasRun N.Becomes net.old net.new (N.net net.old) (N.net net.new)
        (HasBeenRun (asked C.meaning (names_of names.now)) (F.state files.old) (F.state files.new)
        (O.state out.old) (O.state out.new) (E.state err.old) (E.state err.new) result) }
{
    vouch_untouched::<N>(net);
    if names.len() != C::count() {
        return usage(err);
    }
    let ended = carry_out::<C, L, F, O, N>(alloc, shelf, names, files, out, net);
    settle(alloc, err, names, ended)
}

/// Says that there is no such command.
pub fn usage<E: Sink>(err: &mut E) -> Status
    ensures tells { Tells (E.state err.old) (E.state err.new) usage_line }
    ensures status { result ≡ Status.Usage }
{
    tell_usage(err);
    Status::Usage
}

// Says how the command ended, and gives its status.
fn settle<E: Sink>(
    alloc: Global,
    err: &mut E,
    names: &[String],
    ended: Result<Status, Stop>,
) -> Status
    ensures says { Says (names_of names.now) (E.state err.old) (E.state err.new) ended }
    ensures status { result ≡ status_of ended }
{
    say(alloc, err, names, &ended);
    status_after(&ended)
}

/// The status of a way to end.
pub fn status_after(ended: &Result<Status, Stop>) -> Status
    ensures { result ≡ status_of ended.now }
{
    match ended {
        Ok(status) => *status,
        Err(Stop::Refused(_, _)) => Status::Refused,
        Err(Stop::FileFault(_)) => Status::FileFault,
        Err(Stop::SinkFault) => Status::SinkFault,
        Err(Stop::NoMemory) => Status::NoMemory,
    }
}
