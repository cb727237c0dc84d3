ghost use Rattle.std.specs.Prelude.{◌≡◌};
ghost use Rattle.taps_command.specs.Makings.{Gives, IsMade, Making, MakingEnds, SaysUnder};
ghost use Rattle.taps_command.specs.Shelves.{layers_on};

use crate::carry::write;
use crate::ending::status_after;
use crate::error_line::say_under;
use crate::layers::Layers;
use crate::printed::Printed;
use crate::shelf::Shelf;
use crate::status::Status;
use crate::stop::{Stop, Unready};
use std::alloc::Global;
use taps_base::{Sink, SinkAnswer};
use taps_framer::Framer;

/// A command that reads no file: what it makes of its arguments, with the framers of a shelf.
pub trait Maker<L: Layers> {
    ghost making: { Self → Making };

    /// The name under which it is refused.
    fn name(&self) -> &'static str
        ensures { result.now ≡ (making self.now).name };

    /// The text and the status.
    fn make(&self, alloc: Global, shelf: &Shelf<'_>) -> Result<Printed, Unready>
        requires { layers_on ⟦<dyn Framer as Framer>⟧ shelf.now ≡ L.layers }
        ensures { Gives (making self.now) result };
}

/// One command that reads no file: writes its text by one write, or says why there is none.
pub fn run_maker<M: Maker<L>, L: Layers, O: Sink, E: Sink>(
    alloc: Global,
    maker: &M,
    shelf: &Shelf<'_>,
    out: &mut O,
    err: &mut E,
) -> Status
    requires { layers_on ⟦<dyn Framer as Framer>⟧ shelf.now ≡ L.layers }
    ensures { IsMade (M.making maker.now) (O.state out.old) (O.state out.new)
        (E.state err.old) (E.state err.new) result }
{
    let ended = write_made::<M, L, O>(alloc, maker, shelf, out);
    say_under(alloc, err, maker.name(), &ended);
    status_after(&ended)
}

fn write_made<M: Maker<L>, L: Layers, O: Sink>(
    alloc: Global,
    maker: &M,
    shelf: &Shelf<'_>,
    out: &mut O,
) -> Result<Status, Stop>
    requires { layers_on ⟦<dyn Framer as Framer>⟧ shelf.now ≡ L.layers }
    ensures { MakingEnds (M.making maker.now) (O.state out.old) (O.state out.new) result }
{
    match maker.make(alloc, shelf) {
        Ok(printed) => match write(out, &printed.text) {
            SinkAnswer::Taken => Ok(printed.status),
            SinkAnswer::Failed => Err(Stop::SinkFault),
        },
        Err(Unready::Refused(why)) => Err(Stop::Refused(0, why)),
        Err(Unready::NoMemory) => Err(Stop::NoMemory),
    }
}
