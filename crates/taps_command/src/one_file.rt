ghost use Rattle.std.specs.Prelude.{◌≡◌, [], ℕ, List, IfOk};
ghost use Rattle.taps_command.specs.Meanings.{HasText, IsPrinted};
ghost use Rattle.taps_command.specs.Nets.{HasRun, SocketsState};
ghost use Rattle.taps_command.specs.Places.{IsOnShelf};
ghost use Rattle.taps_command.specs.Ready as readies;
ghost use Rattle.taps_command.specs.Shelves.{layers_on};
ghost use Rattle.taps_command.specs.declared.status.Status as statuses;

use crate::checks::{FileRules, MOST_BYTES, check_only};
use crate::command::Command;
use crate::layers::Layers;
use crate::printed::Printed;
use crate::ready::Ready;
use crate::shelf::Shelf;
use crate::stop::Unready;
use std::alloc::Global;
use std::marker::PhantomData;
use taps_base::NoMemory;
use taps_framer::Framer;
use taps_socket::Sockets;

/// What a command that reads FILE alone does once FILE has passed its checks.
pub trait OneFile<L: Layers>: FileRules {
    // What it writes.
    ghost Prints: { readies.Ready → SocketsState → SocketsState → List ℕ → statuses.Status → Type 0 };

    // What the sockets may be after.
    ghost MayLeave: { readies.Ready → SocketsState → SocketsState → Type 0 };

    /// The text and the status.
    fn print<N: Sockets>(
        alloc: Global,
        shelf: &Shelf<'_>,
        ready: &Ready,
        net: &mut N,
    ) -> Result<Printed, NoMemory>
        requires shelf { layers_on ⟦<dyn Framer as Framer>⟧ shelf.now ≡ L.layers }
        requires on_shelf { IsOnShelf L.layers ready.now.places }
        requires fresh { (N.net net.old).trace ≡ [] }
        ensures ran { HasRun N.Becomes net.old net.new (N.net net.old) (N.net net.new)
            (IsPrinted (Prints ready.now) (MayLeave ready.now) result) }
        ensures has_text { IfOk result (λ printed. HasText printed.status) };
}

/// The command that reads FILE alone and does this.
pub struct Only<C> {
    of: PhantomData<C>,
}

impl<C: OneFile<L>, L: Layers> Command<L> for Only<C> {
    ghost use Rattle.taps_command.specs.Checks.{HasOnly};
    ghost use Rattle.taps_command.specs.OneFile.{one_file};

    type Value = Option<Ready>;

    ghost meaning = { one_file C.rules C.Prints C.MayLeave L.layers };

    ghost seen = { λ value. value };

    ghost keeps = { HasOnly L.layers };

    fn start(_alloc: Global) -> Option<Ready> {
        None
    }

    fn count() -> usize {
        1
    }

    fn limit(_at: usize) -> u64 {
        MOST_BYTES
    }

    fn check(
        alloc: Global,
        shelf: &Shelf<'_>,
        _at: usize,
        _value: Option<Ready>,
        bytes: &[u8],
    ) -> Result<Option<Ready>, Unready> {
        check_only::<C, L>(alloc, shelf, bytes)
    }

    fn print<N: Sockets>(
        alloc: Global,
        shelf: &Shelf<'_>,
        value: Option<Ready>,
        net: &mut N,
    ) -> Result<Printed, NoMemory> {
        match value {
            Some(ready) => C::print(alloc, shelf, &ready, net),
            None => unreachable!(),
        }
    }
}
