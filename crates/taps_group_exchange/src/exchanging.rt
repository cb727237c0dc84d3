// The exchange of a group, at the end of which every member is closed.
ghost use Rattle.std.specs.Prelude.{◌≡◌, ◌≤◌, ◌<◌, ◌^◌, ◌+◌, ◌*◌, List, [], length};
ghost use Rattle.taps_exchange.specs.Turns.{Place};
ghost use Rattle.taps_group.specs.Closes.{IsOpen};
ghost use Rattle.taps_group.specs.Groups.{IsSoundGroup};
ghost use Rattle.taps_group_exchange.specs.GroupExchanges.{HasExchangedAll};
ghost use Rattle.taps_group_exchange.specs.GroupEnds as ends;
ghost use Rattle.taps_group_exchange.specs.GroupHearings.{AllNeed};
ghost use Rattle.taps_group_exchange.specs.Standing.{AllOf, AreStanding, MayTalk, count_shut};

use crate::talking::talk_all;
use crate::told::Told;
use std::alloc::Global;
use taps_base::NoMemory;
use taps_exchange::Outcome;
use taps_framer::Framer;
use taps_group::{Group, Member, close_all};
use taps_socket::Sockets;

/// How the exchange of a group went: its outcome, and what each member sent and heard, by place.
#[derive(Debug, Drop)]
pub struct GroupExchanged {
    pub outcome: Outcome,
    pub members: Vec<Told>,
}

/// Carries out the exchange of a group whose members accepted all their messages: they send, the next
/// sender first, and then each hears so many messages, by place, both up to a time in milliseconds.
/// Every member's socket is closed, once, by place, whatever came.
pub fn exchange_group<N: Sockets>(
    alloc: Global,
    group: Group<'_>,
    needs: u64,
    until: u64,
    net: &mut N,
) -> Result<GroupExchanged, NoMemory>
    requires sound { IsSoundGroup ⟦<dyn Framer as Framer>⟧ group }
    requires opened { IsOpen (N.net net.old) group.members.items }
    requires talk { AllOf (MayTalk ⟦<dyn Framer as Framer>⟧ (N.net net.old)) group.members.items }
    requires none_shut { count_shut group.members.items ≡ 0 }
    requires spare { 3 * length group.members.items ≤ (N.net net.old).spare }
    requires until { until < 2 ^ 63 }
    ensures exchanged { (places : List Place) → AllNeed until needs places →
        AreStanding ⟦<dyn Framer as Framer>⟧ [] places group.entry.members.items →
        HasExchangedAll N.Becomes net.old net.new (N.net net.old) (N.net net.new) places result }
    ensures spare { (N.net net.old).spare ≤ (N.net net.new).spare + 3 * length group.entry.members.items }
{
    let (members, heard) = talk_all(alloc, group, needs, until, net);
    let done = outcome_at_end(&members);
    close_all(members, net);
    match heard {
        Ok(progress) => Ok(GroupExchanged {
            outcome: outcome_or(progress.stopped, done),
            members: progress.told,
        }),
        Err(none) => Err(none),
    }
}

// The outcome of an exchange that nothing ended before.
fn outcome_at_end(members: &Vec<Member<'_>>) -> Outcome
    requires few { length members.now.items ≤ 16 }
    ensures { result ≡ ends.outcome_at_end 0 members.now.items }
{
    let mut place = 0;
    'looking: while place < members.len() {
        match members[place].connection.first_expired() {
            Some(number) => {
                return Outcome::Expired {
                    member: place as u32,
                    number,
                };
            }
            None => place += 1,
        }
    }
    Outcome::Done
}

// The outcome that ended an exchange, or else this one.
fn outcome_or(stopped: Option<Outcome>, done: Outcome) -> Outcome
    ensures { result ≡ ends.outcome_or stopped done }
{
    match stopped {
        Some(outcome) => outcome,
        None => done,
    }
}
