ghost use Rattle.std.specs.Prelude.{◌≡◌, ◌≤◌, [], length, map};
ghost use Rattle.taps_command.specs.Asked.{HasBeenRun};
ghost use Rattle.taps_command.specs.Nets.{HasRun};
ghost use Rattle.taps_command.specs.Runs.{names_of};
ghost use Rattle.taps_command.specs.Shelves.{layers_on};
ghost use Rattle.taps_app.specs.Arguments.{asked_of, RunsKind};
ghost use Rattle.taps_app.specs.Promises.{KeepsPromises};

use crate::commands::frame::Frame;
use crate::commands::generate::{Gen, gen_of};
use crate::commands::plan::Plan;
use crate::commands::run::Run;
use crate::commands::sim::Sim;
use crate::commands::unframe::Unframe;
use crate::kind::{Kind, kind_of};
use std::alloc::Global;
use std::marker::Brand;
use taps_base::{Files, Sink};
use taps_command::{Layers, Only, Shelf, Status, run_command, run_maker, usage, vouch_untouched};
use taps_framer::Framer;
use taps_socket::Sockets;

/// Does what the arguments ask for: `plan FILE` writes the plan of the file, `sim FILE SCRIPT` the
/// log of its session on scripted sockets, `run FILE` that of its session on `net`, `frame FILE` the
/// frames of its messages through its framers, which are taken from the shelf by name, `unframe FILE
/// BYTES` the messages that the bytes decode to, and `gen NUMBER` the summary of a session that the
/// number generates.
///
/// `out` receives the whole text by one write, and nothing where there is none. `err` receives one
/// line where there is no such command, a file is refused or not read, the output fails or memory
/// runs out, as far as memory is found for the line; its faults change no status.
pub fn run<F: Files, O: Sink, E: Sink, N: Sockets>(
    alloc: Global,
    words: &[String],
    files: &mut F,
    out: &mut O,
    err: &mut E,
    net: &mut N,
    shelf: &Vec<Box<dyn Framer>>,
) -> Status
    requires shelf { length shelf.now.items ≤ 64 }
    requires fresh { (N.net net.old).trace ≡ [] }
    ensures promises { HasRun N.Becomes net.old net.new (N.net net.old) (N.net net.new)
        (KeepsPromises (map (λ b. layer b) shelf.now.items) words.now (F.state files.old) (F.state files.new)
        (O.state out.old) (O.state out.new) (E.state err.old) (E.state err.new) result) }
{
    let shelf = Shelf { framers: shelf };
    run_words::<Brand, F, O, E, N>(alloc, words, files, out, err, net, &shelf)
}

// The same where contracts have one name for what the framers mean.
#[tactic(auto, using(crate::proofs::Promised::promised))]
fn run_words<L: Layers, F: Files, O: Sink, E: Sink, N: Sockets>(
    alloc: Global,
    words: &[String],
    files: &mut F,
    out: &mut O,
    err: &mut E,
    net: &mut N,
    shelf: &Shelf<'_>,
) -> Status
    requires shelf { layers_on ⟦<dyn Framer as Framer>⟧ shelf.now ≡ L.layers }
    requires fresh { (N.net net.old).trace ≡ [] }
    ensures promises { HasRun N.Becomes net.old net.new (N.net net.old) (N.net net.new)
        (KeepsPromises L.layers words.now (F.state files.old) (F.state files.new)
        (O.state out.old) (O.state out.new) (E.state err.old) (E.state err.new) result) }
{
    run_asked::<L, F, O, E, N>(alloc, words, files, out, err, net, shelf)
}

// What the arguments ask for.
#[tactic(auto, using(crate::proofs::Table::of_words, crate::proofs::Table::of_no_word, crate::proofs::Table::of_gen, crate::proofs::Table::of_other_word))]
fn run_asked<L: Layers, F: Files, O: Sink, E: Sink, N: Sockets>(
    alloc: Global,
    words: &[String],
    files: &mut F,
    out: &mut O,
    err: &mut E,
    net: &mut N,
    shelf: &Shelf<'_>,
) -> Status
    requires shelf { layers_on ⟦<dyn Framer as Framer>⟧ shelf.now ≡ L.layers }
    requires fresh { (N.net net.old).trace ≡ [] }
    ensures ran { HasRun N.Becomes net.old net.new (N.net net.old) (N.net net.new)
        (HasBeenRun (asked_of L.layers words.now) (F.state files.old) (F.state files.new)
        (O.state out.old) (O.state out.new) (E.state err.old) (E.state err.new) result) }
{
    vouch_untouched::<N>(net);
    match words {
        [word, names @ ..] => match kind_of(word.as_str()) {
            Some(kind) => {
                run_kind::<L, F, O, E, N>(alloc, kind, names, files, out, err, net, shelf)
            }
            None => match gen_of(word.as_str(), names) {
                Some(made) => run_maker::<Gen, L, O, E>(alloc, &made, shelf, out, err),
                None => usage(err),
            },
        },
        [] => usage(err),
    }
}

// The table of commands.
fn run_kind<L: Layers, F: Files, O: Sink, E: Sink, N: Sockets>(
    alloc: Global,
    kind: Kind,
    names: &[String],
    files: &mut F,
    out: &mut O,
    err: &mut E,
    net: &mut N,
    shelf: &Shelf<'_>,
) -> Status
    requires shelf { layers_on ⟦<dyn Framer as Framer>⟧ shelf.now ≡ L.layers }
    requires fresh { (N.net net.old).trace ≡ [] }
    ensures ran { HasRun N.Becomes net.old net.new (N.net net.old) (N.net net.new)
        (RunsKind L.layers kind (names_of names.now) (F.state files.old) (F.state files.new)
        (O.state out.old) (O.state out.new) (E.state err.old) (E.state err.new) result) }
{
    match kind {
        Kind::Plan => run_command::<Only<Plan>, L, F, O, E, N>(
            alloc, names, files, out, err, net, shelf,
        ),
        Kind::Sim => run_command::<Sim, L, F, O, E, N>(alloc, names, files, out, err, net, shelf),
        Kind::Run => run_command::<Only<Run>, L, F, O, E, N>(
            alloc, names, files, out, err, net, shelf,
        ),
        Kind::Frame => run_command::<Only<Frame>, L, F, O, E, N>(
            alloc, names, files, out, err, net, shelf,
        ),
        Kind::Unframe => {
            run_command::<Unframe, L, F, O, E, N>(alloc, names, files, out, err, net, shelf)
        }
    }
}
