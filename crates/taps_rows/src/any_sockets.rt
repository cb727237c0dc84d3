// A caller that knows no more of its sockets than the trait.
ghost use Rattle.std.specs.Prelude.{◌≡◌, ◌<◌, ◌^◌, [], List, length, Ok, None, IfOk, IfSome};
ghost use Rattle.taps_socket.specs.declared.item.Item.{Item};
ghost use Rattle.taps_socket.specs.RaceSockets.{pending_sockets};
ghost use Rattle.taps_rows.specs.RaceResults.{HasWon, LeavesNone};

use taps_base::NoMemory;
use taps_racer::{RaceAnswer, Racer, Unstarted, establish};
use taps_socket::{Sockets, Target};

/// The target that won the race and its socket, if one did.
pub fn winner_of<N: Sockets>(
    racer: Racer<Unstarted>,
    targets: &[Target],
    net: &mut N,
) -> Result<Option<(Target, u32)>, NoMemory>
    requires leaves { length racer.rules.gaps ≡ length targets.now }
    requires numbers { length targets.now < 2 ^ 32 }
    requires idle { pending_sockets (N.net net.old).trace ≡ [] }
    ensures won { IfOk result (λ winner.
        IfSome winner (λ w. HasWon targets.now (N.net net.old) (N.net net.new) w.0 w.1)) }
    ensures none { result ≡ Ok None → (items : List Item) × LeavesNone (N.net net.old) (N.net net.new) items }
{
    let ended = match establish(racer, 0, targets, net) {
        Ok(ended) => ended,
        Err((none, _)) => return Err(none),
    };
    match ended.answer() {
        RaceAnswer::Ready { leaf, socket, .. } => Ok(Some((targets[leaf as usize], socket))),
        _ => Ok(None),
    }
}
