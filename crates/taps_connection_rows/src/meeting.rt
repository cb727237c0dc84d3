ghost use Rattle.std.specs.Prelude.{◌≡◌, [], IfOk, IfSome};
ghost use Rattle.taps_stack.specs.StackTable.{is_stream};
ghost use Rattle.taps_socket.specs.RaceSockets.{pending_sockets};
ghost use Rattle.taps_connection_rows.specs.Meetings.{IsMet};

use std::alloc::Global;
use taps_base::{Gap, NoMemory};
use taps_endpoint::Address;
use taps_racer::{RaceAnswer, Racer, establish};
use taps_socket::{Sockets, Target};
use taps_stack::Stack;

const ADDRESS: Address = Address::V4 {
    octets: [127, 0, 0, 1],
    port: 7,
};

/// The socket that won the race of one leaf, over which a connection may be made, if it won.
pub fn meet<N: Sockets>(alloc: Global, stack: Stack, net: &mut N) -> Result<Option<u32>, NoMemory>
    requires { pending_sockets (N.net net.old).trace ≡ [] }
    ensures { IfOk result (λ won. IfSome won (IsMet (is_stream stack) (N.net net.new))) }
{
    let address = ADDRESS;
    let racer = Racer::new(alloc, &[Gap::After(0)], 30000, None)?;
    net.reserve(6)?;
    let ended = match establish(racer, 0, &[Target { stack, address }], net) {
        Ok(ended) => ended,
        Err((none, _)) => return Err(none),
    };
    match ended.answer() {
        RaceAnswer::Ready { socket, .. } => Ok(Some(socket)),
        _ => Ok(None),
    }
}
