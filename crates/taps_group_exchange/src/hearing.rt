// The members of a group hear, by place.
ghost use Rattle.std.specs.Prelude.{◌≡◌, ◌≤◌, ◌<◌, ◌^◌, ◌+◌, ℕ, List, [], length, None, Ok};
ghost use Rattle.taps_socket.specs.Net.{Net};
ghost use Rattle.taps_exchange.specs.Turns.{Place};
ghost use Rattle.taps_group.specs.Closes.{MayClose, sockets_of};
ghost use Rattle.taps_group.specs.Places.{IsAt, Changes};
ghost use Rattle.taps_group_exchange.specs.GroupHearings.{AllFrom, AllNeed, HearsAs, HearsOrOver, HasStepped, HasHeardOut, KeepsHearing};
ghost use Rattle.taps_group_exchange.specs.Standing.{AllOf, MayTalk};
ghost use Rattle.taps_group_exchange.specs.declared.told.Told.{Told};

use crate::told::Told;
use std::alloc::Global;
use taps_base::{Body, NoMemory};
use taps_exchange::{Outcome, hear_until};
use taps_framer::Framer;
use taps_group::Member;
use taps_socket::Sockets;

// How the exchange ended, if it did, and what each member sent and heard, by place.
#[derive(Drop)]
pub struct Progress {
    pub stopped: Option<Outcome>,
    pub told: Vec<Told>,
}

// Lets each member hear as many messages as it needs, by place, up to a time in milliseconds, unless
// the exchange ended before.
pub(crate) fn hear_all<N: Sockets>(
    alloc: Global,
    members: &mut Vec<Member<'_>>,
    stopped: Option<Outcome>,
    needs: u64,
    until: u64,
    net: &mut N,
) -> Result<Progress, NoMemory>
    requires talk { stopped ≡ None → AllOf (MayTalk ⟦<dyn Framer as Framer>⟧ (N.net net.old)) members.old.items }
    requires close { MayClose (N.net net.old).trace (sockets_of members.old.items) }
    requires spare { length members.old.items ≤ (N.net net.old).spare }
    requires until { until < 2 ^ 63 }
    ensures heard { (first : N) (net_first : Net) (places : List Place) → AllNeed until needs places →
        HearsOrOver ⟦<dyn Framer as Framer>⟧ N.Becomes first net.old net_first (N.net net.old) places stopped []
        members.old.items →
        HasHeardOut ⟦<dyn Framer as Framer>⟧ N.Becomes first net.new net_first (N.net net.new) places result
        members.new.items }
    ensures close { MayClose (N.net net.new).trace (sockets_of members.new.items) }
    ensures sockets { sockets_of members.new.items ≡ sockets_of members.old.items }
    ensures spare { (N.net net.old).spare ≤ (N.net net.new).spare + length members.old.items }
{
    let mut progress = Progress {
        stopped,
        told: Vec::new(alloc),
    };
    let mut place = 0;
    'hearing: while place < members.len() {
        match hear_next(alloc, members, place, progress.stopped, needs, until, net) {
            Ok((stopped, told)) => match progress.told.push(told) {
                Ok(()) => {
                    progress.stopped = stopped;
                    place += 1;
                }
                Err(_) => return Err(NoMemory),
            },
            Err(none) => return Err(none),
        }
    }
    Ok(progress)
}

// What is told of the member at a place, which hears, unless the exchange ended before.
fn hear_next<N: Sockets>(
    alloc: Global,
    members: &mut Vec<Member<'_>>,
    place: usize,
    stopped: Option<Outcome>,
    needs: u64,
    until: u64,
    net: &mut N,
) -> Result<(Option<Outcome>, Told), NoMemory>
    requires member { place < length members.old.items }
    requires talk { stopped ≡ None →
        AllFrom (MayTalk ⟦<dyn Framer as Framer>⟧ (N.net net.old)) place members.old.items }
    requires close { MayClose (N.net net.old).trace (sockets_of members.old.items) }
    requires spare { 1 ≤ (N.net net.old).spare }
    requires until { until < 2 ^ 63 }
    ensures stepped { (first : N) (net_first : Net) (places : List Place) (told : List Told) →
        AllNeed until needs places → length told ≡ place →
        HearsOrOver ⟦<dyn Framer as Framer>⟧ N.Becomes first net.old net_first (N.net net.old) places stopped told
        members.old.items →
        HasStepped ⟦<dyn Framer as Framer>⟧ N.Becomes first net.new net_first (N.net net.new) places told result
        members.new.items }
    ensures talk { (told : Told) → result ≡ Ok (None, told) →
        AllFrom (MayTalk ⟦<dyn Framer as Framer>⟧ (N.net net.new)) (place + 1) members.new.items }
    ensures close { MayClose (N.net net.new).trace (sockets_of members.new.items) }
    ensures sockets { sockets_of members.new.items ≡ sockets_of members.old.items }
    ensures spare { (N.net net.old).spare ≤ (N.net net.new).spare + 1 }
{
    let sent = members[place].connection.sent();
    let mut heard = Vec::new(alloc);
    match stopped {
        Some(_) => Ok((stopped, Told { sent, heard })),
        None => match hear_at(members, place, needs, until, net, &mut heard) {
            Ok(stopped) => Ok((stopped, Told { sent, heard })),
            Err(none) => Err(none),
        },
    }
}

// Lets the member at a place hear.
fn hear_at<N: Sockets>(
    members: &mut Vec<Member<'_>>,
    place: usize,
    needs: u64,
    until: u64,
    net: &mut N,
    heard: &mut Vec<Body>,
) -> Result<Option<Outcome>, NoMemory>
    requires member { place < length members.old.items }
    requires talk { IsAt members.old.items place (MayTalk ⟦<dyn Framer as Framer>⟧ (N.net net.old)) }
    requires spare { 1 ≤ (N.net net.old).spare }
    requires until { until < 2 ^ 63 }
    requires none_heard { heard.old.items ≡ [] }
    ensures changed { Changes (KeepsHearing (N.net net.old) (N.net net.new)) place members.old.items
        members.new.items }
    ensures heard { IsAt members.old.items place (HearsAs ⟦<dyn Framer as Framer>⟧ N.Becomes net.old net.new until
        needs result heard.new.items) }
{
    hear_until(&mut members[place].connection, needs, until, net, heard)
}
