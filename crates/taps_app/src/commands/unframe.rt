ghost use Rattle.std.specs.Prelude.{◌≤◌, length, Ok, IfOk};
ghost use Rattle.taps_command.specs.Checks.{second_value, most_framed, HasFirst, HasSecond};
ghost use Rattle.taps_command.specs.Meanings.{Returns};
ghost use Rattle.taps_app.specs.Unframe.{any_bytes, AreFew};

use crate::commands::frame::Frame;
use crate::framing::print_messages;
use std::alloc::Global;
use taps_base::{Body, NoMemory};
use taps_command::{
    Command, Layers, MOST_BYTES, MOST_FRAMED, Printed, Shelf, TwoFiles, Unready, check_first,
    vouch_untouched,
};
use taps_socket::Sockets;

/// `unframe FILE BYTES` writes the messages that the bytes decode to, by the framers of the file.
pub struct Unframe;

impl<L: Layers> Command<L> for Unframe {
    ghost use Rattle.taps_command.specs.Checks.{HasBoth};
    ghost use Rattle.taps_app.specs.Unframe.{unframe, AreFew};

    type Value = TwoFiles<Body>;

    ghost meaning = { unframe L.layers };

    ghost seen = { λ value. value };

    ghost keeps = { HasBoth L.layers AreFew };

    fn start(_alloc: Global) -> TwoFiles<Body> {
        TwoFiles::Nothing
    }

    fn count() -> usize {
        2
    }

    fn limit(at: usize) -> u64 {
        match at {
            0 => MOST_BYTES,
            _ => MOST_FRAMED,
        }
    }

    fn check(
        alloc: Global,
        shelf: &Shelf<'_>,
        at: usize,
        value: TwoFiles<Body>,
        bytes: &[u8],
    ) -> Result<TwoFiles<Body>, Unready> {
        match at {
            0 => check_first::<Frame, L, Body>(alloc, shelf, bytes),
            _ => check_bytes::<L>(alloc, value, bytes),
        }
    }

    fn print<N: Sockets>(
        alloc: Global,
        shelf: &Shelf<'_>,
        value: TwoFiles<Body>,
        net: &mut N,
    ) -> Result<Printed, NoMemory> {
        vouch_untouched::<N>(net);
        match value {
            TwoFiles::Both(ready, bytes) => {
                print_messages::<L>(alloc, shelf, &ready, bytes.bytes())
            }
            TwoFiles::Nothing | TwoFiles::File(_) => unreachable!(),
        }
    }
}

// BYTES, after FILE.
fn check_bytes<L: Layers>(
    alloc: Global,
    value: TwoFiles<Body>,
    bytes: &[u8],
) -> Result<TwoFiles<Body>, Unready>
    requires first { HasFirst L.layers value }
    requires few { length bytes.now ≤ most_framed }
    ensures returns { Returns (λ both. both) (second_value value (any_bytes bytes.now)) result }
    ensures kept { IfOk result (λ both. HasSecond L.layers AreFew both) }
{
    match value {
        TwoFiles::File(ready) => match Body::from_slice(alloc, bytes) {
            Ok(body) => Ok(TwoFiles::Both(ready, body)),
            Err(NoMemory) => Err(Unready::NoMemory),
        },
        TwoFiles::Nothing | TwoFiles::Both(_, _) => unreachable!(),
    }
}
