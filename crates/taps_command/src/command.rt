ghost use Rattle.std.specs.Prelude.{◌≡◌, ◌+◌, ◌<◌, ◌≤◌, [], ℕ, length, slice_get, option_map, Some, IfOk};
ghost use Rattle.taps_command.specs.Nets.{HasRun};
ghost use Rattle.taps_command.specs.Meanings.{IsPrinted, Meaning, Reading, Returns, HasText};
ghost use Rattle.taps_command.specs.Shelves.{layers_on};

use crate::layers::Layers;
use crate::printed::Printed;
use crate::shelf::Shelf;
use crate::stop::Unready;
use std::alloc::Global;
use taps_base::NoMemory;
use taps_framer::Framer;
use taps_socket::Sockets;

/// A command: what it reads, and what it writes, with the framers of a shelf.
pub trait Command<L: Layers> {
    /// What its files give.
    type Value: Drop;

    ghost meaning: { Meaning };

    // A value as contracts see it.
    ghost seen: { Self.Value → meaning.Value };

    // What holds of a value once so many files have been read.
    ghost keeps: { ℕ → Self.Value → Type 0 };

    /// What there is before the first file.
    fn start(alloc: Global) -> Self::Value
        ensures kept { keeps 0 result }
        ensures start { seen result ≡ meaning.start };

    /// How many files it reads.
    fn count() -> usize
        ensures { result ≡ length meaning.readings };

    /// How many bytes the file at a place may have.
    fn limit(at: usize) -> u64
        requires { at < length meaning.readings }
        ensures { option_map (λ reading. reading.limit) (slice_get meaning.readings at) ≡ Some result };

    /// What the bytes of the file at a place make of the value that the files before it gave.
    fn check(
        alloc: Global,
        shelf: &Shelf<'_>,
        at: usize,
        value: Self::Value,
        bytes: &[u8],
    ) -> Result<Self::Value, Unready>
        requires shelf { layers_on ⟦<dyn Framer as Framer>⟧ shelf.now ≡ L.layers }
        requires place { at < length meaning.readings }
        requires short { (reading : Reading meaning.Value) → slice_get meaning.readings at ≡ Some reading
            → length bytes.now ≤ reading.limit }
        requires before { keeps at value }
        ensures returns { (reading : Reading meaning.Value) → slice_get meaning.readings at ≡ Some reading
            → Returns seen (reading.check (seen value) bytes.now) result }
        ensures kept { IfOk result (λ value. keeps (at + 1) value) };

    /// The text and the status, once all files have been read.
    fn print<N: Sockets>(
        alloc: Global,
        shelf: &Shelf<'_>,
        value: Self::Value,
        net: &mut N,
    ) -> Result<Printed, NoMemory>
        requires shelf { layers_on ⟦<dyn Framer as Framer>⟧ shelf.now ≡ L.layers }
        requires read { keeps (length meaning.readings) value }
        requires fresh { (N.net net.old).trace ≡ [] }
        ensures ran { HasRun N.Becomes net.old net.new (N.net net.old) (N.net net.new)
            (IsPrinted (meaning.Prints (seen value)) (meaning.MayLeave (seen value)) result) }
        ensures has_text { IfOk result (λ printed. HasText printed.status) };
}
