use crate::framing::print_frames;
use std::alloc::Global;
use taps_base::{List, NoMemory};
use taps_command::{FileRules, Layers, OneFile, Printed, Ready, Shelf, Unready, vouch_untouched};
use taps_endpoint::Address;
use taps_preconnection::Preconnection;
use taps_socket::Sockets;

/// `frame FILE` writes the frames of the file's messages.
pub struct Frame;

impl FileRules for Frame {
    ghost use Rattle.taps_app.specs.Frame.{frame_rules};

    ghost rules = { frame_rules };

    fn addresses(alloc: Global, _pre: &Preconnection) -> Result<List<Address>, Unready> {
        Ok(List::new(alloc))
    }
}

impl<L: Layers> OneFile<L> for Frame {
    ghost use Rattle.taps_app.specs.Frame.{IsFramed};
    ghost use Rattle.taps_command.specs.OneFile.{LeavesAlone};

    ghost Prints = { λ ready old new text s. IsFramed L.layers ready text s };

    ghost MayLeave = { LeavesAlone };

    fn print<N: Sockets>(
        alloc: Global,
        shelf: &Shelf<'_>,
        ready: &Ready,
        net: &mut N,
    ) -> Result<Printed, NoMemory> {
        vouch_untouched::<N>(net);
        print_frames::<L>(alloc, shelf, ready)
    }
}
