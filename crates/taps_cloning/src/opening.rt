// The clones of a group are made.
ghost use Rattle.std.specs.Prelude.{◌≡◌, ◌≤◌, ◌<◌, ◌^◌, ◌+◌, ℕ, List, []};
ghost use Rattle.taps_framer.specs.Layers.{Layer};
ghost use Rattle.taps_group.specs.Clones.{IsFailure};
ghost use Rattle.taps_group.specs.Closes.{IsOpen};
ghost use Rattle.taps_group.specs.Groups.{IsSoundGroup};
ghost use Rattle.taps_group_exchange.specs.Cloning.{Failed};
ghost use Rattle.taps_group_exchange.specs.declared.addressed.Addressed.{Addressed};
ghost use Rattle.taps_cloning.specs.GroupRules.{terms_of};
ghost use Rattle.taps_cloning.specs.Opening.{HasOpened, IsOpenedGroup};

use crate::Terms;
use taps_base::NoMemory;
use taps_framer::Framer;
use taps_group::{CloneError, Group};
use taps_group_exchange::GroupOutcome;
use taps_racer::RaceAnswer;
use taps_socket::Sockets;

/// Makes the clones of a group of one new member, one after the other, each by a race of one leaf. The
/// first clone that cannot be made ends the session, and the outcome tells why. Where memory runs out,
/// the group keeps the clones that were made.
pub fn open_group<N: Sockets>(
    group: &mut Group<'_>,
    terms: &Terms,
    net: &mut N,
) -> Result<Option<GroupOutcome>, NoMemory>
    requires sound { IsSoundGroup ⟦<dyn Framer as Framer>⟧ group.old }
    requires leaves { terms.now.leaf + terms.now.clones < 2 ^ 32 }
    requires some { 1 ≤ terms.now.timeout_ms }
    requires few { terms.now.timeout_ms ≤ 3600000 }
    requires opened { IsOpen (N.net net.old) group.old.members.items }
    ensures cloned { (fs : List Layer) (priorities : List ℕ) (messages : List Addressed) (first : ℕ) →
        IsOpenedGroup ⟦<dyn Framer as Framer>⟧ (terms_of terms.now fs priorities messages) first (N.net net.old) []
        group.old → HasOpened ⟦<dyn Framer as Framer>⟧ N.Becomes net.old net.new (N.net net.old) (N.net net.new)
        (terms_of terms.now fs priorities messages) first result group.new }
    ensures sound { IsSoundGroup ⟦<dyn Framer as Framer>⟧ group.new }
    ensures opened { IsOpen (N.net net.new) group.new.members.items }
{
    let end = terms.leaf + terms.clones as u32;
    'cloning: for leaf in terms.leaf..end {
        match group.clone_connection(net, leaf, terms.timeout_ms) {
            Ok(_) => {}
            Err(CloneError::LimitReached(limit)) => {
                return Ok(Some(GroupOutcome::CloneLimit(limit)));
            }
            Err(CloneError::Failed(answer)) => return Ok(Some(outcome_of(answer))),
            Err(CloneError::NoMemory) => return Err(NoMemory),
        }
    }
    Ok(None)
}

// The outcome of a session that the race of a clone ended with this answer.
fn outcome_of(answer: RaceAnswer) -> GroupOutcome
    requires { IsFailure answer }
    ensures { Failed answer result }
{
    match answer {
        RaceAnswer::AllFailed => GroupOutcome::CloneAllFailed,
        RaceAnswer::Timeout => GroupOutcome::CloneTimeout,
        RaceAnswer::SocketFault => GroupOutcome::SocketFault,
        RaceAnswer::Ready { .. } => unreachable!(),
        RaceAnswer::NoCandidate => unreachable!(),
        RaceAnswer::Closed => unreachable!(),
    }
}
