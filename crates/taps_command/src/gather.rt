ghost use Rattle.std.specs.Prelude.{◌≡◌, ◌+◌, ◌<◌, length, IfOk};
ghost use Rattle.taps_command.specs.Runs.{Gathers, Steps, names_of};
ghost use Rattle.taps_command.specs.Shelves.{layers_on};

use crate::command::Command;
use crate::layers::Layers;
use crate::shelf::Shelf;
use crate::stop::{Stop, Unready};
use std::alloc::Global;
use taps_base::{FileAnswer, Files};
use taps_framer::Framer;
use taps_text::Refusal;

/// What the files of these names give, each read once and in order.
#[tactic(auto, using(crate::proofs::Gathering::goes_on, crate::proofs::Gathering::stops_at))]
pub fn gather<C: Command<L>, L: Layers, F: Files>(
    alloc: Global,
    shelf: &Shelf<'_>,
    names: &[String],
    files: &mut F,
) -> Result<C::Value, Stop>
    requires shelf { layers_on ⟦<dyn Framer as Framer>⟧ shelf.now ≡ L.layers }
    requires fits { length names.now ≡ length C.meaning.readings }
    ensures gathers { Gathers C.meaning C.seen (names_of names.now) (F.state files.old) (F.state files.new) result }
    ensures kept { IfOk result (λ value. C.keeps (length C.meaning.readings) value) }
{
    let mut value = C::start(alloc);
    for (at, name) in names.iter().enumerate() {
        match read_next::<C, L, F>(alloc, shelf, files, name.as_str(), at, value) {
            Ok(next) => value = next,
            Err(stop) => return Err(stop),
        }
    }
    Ok(value)
}

// What they give with one more.
#[tactic(auto, using(crate::proofs::Judging::judged_of, crate::proofs::Judging::judged_long))]
fn read_next<C: Command<L>, L: Layers, F: Files>(
    alloc: Global,
    shelf: &Shelf<'_>,
    files: &mut F,
    name: &str,
    at: usize,
    value: C::Value,
) -> Result<C::Value, Stop>
    requires shelf { layers_on ⟦<dyn Framer as Framer>⟧ shelf.now ≡ L.layers }
    requires before { C.keeps at value }
    requires place { at < length C.meaning.readings }
    ensures steps { Steps C.meaning C.seen name.now at (C.seen value) (F.state files.old) (F.state files.new) result }
    ensures kept { IfOk result (λ value. C.keeps (at + 1) value) }
{
    match files.read(name, C::limit(at)) {
        FileAnswer::TooLong => Err(Stop::Refused(at, Refusal::TooLong)),
        FileAnswer::Failed => Err(Stop::FileFault(at)),
        FileAnswer::NoMemory => Err(Stop::NoMemory),
        FileAnswer::Bytes(body) => match C::check(alloc, shelf, at, value, body.bytes()) {
            Ok(value) => Ok(value),
            Err(Unready::Refused(why)) => Err(Stop::Refused(at, why)),
            Err(Unready::NoMemory) => Err(Stop::NoMemory),
        },
    }
}
