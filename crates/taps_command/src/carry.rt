ghost use Rattle.std.specs.Prelude.{◌≡◌, [], length};
ghost use Rattle.taps_command.specs.Nets.{HasRun};
ghost use Rattle.taps_command.specs.Runs.{HasEnded, Takes, names_of};
ghost use Rattle.taps_command.specs.Shelves.{layers_on};

use crate::command::Command;
use crate::gather::gather;
use crate::layers::Layers;
use crate::nets::vouch_untouched;
use crate::shelf::Shelf;
use crate::status::Status;
use crate::stop::Stop;
use std::alloc::Global;
use taps_base::{Files, NoMemory, Sink, SinkAnswer};
use taps_framer::Framer;
use taps_socket::Sockets;

/// Carries out a command on the files of these names: reads them all, and writes its text by one
/// write, after the last call on the sockets.
pub fn carry_out<C: Command<L>, L: Layers, F: Files, O: Sink, N: Sockets>(
    alloc: Global,
    shelf: &Shelf<'_>,
    names: &[String],
    files: &mut F,
    out: &mut O,
    net: &mut N,
) -> Result<Status, Stop>
    requires shelf { layers_on ⟦<dyn Framer as Framer>⟧ shelf.now ≡ L.layers }
    requires fits { length names.now ≡ length C.meaning.readings }
    requires fresh { (N.net net.old).trace ≡ [] }
    ensures ran { HasRun N.Becomes net.old net.new (N.net net.old) (N.net net.new)
        (HasEnded C.meaning (names_of names.now) (F.state files.old) (F.state files.new)
        (O.state out.old) (O.state out.new) result) }
{
    vouch_untouched::<N>(net);
    match gather::<C, L, F>(alloc, shelf, names, files) {
        Ok(value) => match C::print(alloc, shelf, value, net) {
            Ok(printed) => match write(out, &printed.text) {
                SinkAnswer::Taken => Ok(printed.status),
                SinkAnswer::Failed => Err(Stop::SinkFault),
            },
            Err(NoMemory) => Err(Stop::NoMemory),
        },
        Err(Stop::Refused(at, why)) => Err(Stop::Refused(at, why)),
        Err(Stop::FileFault(at)) => Err(Stop::FileFault(at)),
        Err(Stop::SinkFault) => unreachable!(),
        Err(Stop::NoMemory) => Err(Stop::NoMemory),
    }
}

/// Writes a text by one write, and nothing where it is empty.
pub fn write<O: Sink>(out: &mut O, text: &[u8]) -> SinkAnswer
    ensures { Takes result (O.state out.old) (O.state out.new) text.now }
{
    match text {
        [] => SinkAnswer::Taken,
        [_, ..] => out.write(text),
    }
}
