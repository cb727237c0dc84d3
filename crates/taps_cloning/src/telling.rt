// What is told of members that exchanged nothing.
ghost use Rattle.std.specs.Prelude.{◌≡◌, ◌≤◌, [], length, IfOk};
ghost use Rattle.taps_cloning.specs.Telling.{TellNothing};

use std::alloc::Global;
use taps_base::{List, NoMemory};
use taps_group_exchange::Told;

// Room to tell of so many members.
pub(crate) fn room_to_tell(alloc: Global, members: usize) -> Result<List<Told>, NoMemory>
    ensures none { IfOk result (λ told. told.items ≡ []) }
    ensures room { IfOk result (λ told. members ≤ told.spare) }
{
    let mut told = List::new(alloc);
    match told.reserve(members) {
        Ok(()) => Ok(told),
        Err(none) => Err(none),
    }
}

// Tells of so many members, for which there is room, that they sent and heard nothing.
pub(crate) fn tell_nothing(alloc: Global, mut told: List<Told>, members: u32) -> Vec<Told>
    requires none { told.items ≡ [] }
    requires room { members ≤ told.spare }
    ensures count { length result.items ≡ members }
    ensures nothing { TellNothing result.items }
{
    let mut place = 0;
    'telling: while place < members {
        told.add(Told {
            sent: 0,
            heard: Vec::new(alloc),
        });
        place += 1;
    }
    told.into_vec()
}
