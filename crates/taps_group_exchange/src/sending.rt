// The members of a group send.
ghost use Rattle.std.specs.Prelude.{◌≡◌, ◌≤◌, ◌<◌, ◌^◌, ◌+◌, ◌*◌, List, [], length, Option, Some, None, Ok};
ghost use Rattle.taps_connection.specs.declared.sender.Pushed.{Pushed};
ghost use Rattle.taps_connection.specs.Senders.{waiting_number};
ghost use Rattle.taps_exchange.specs.Turns.{Place};
ghost use Rattle.taps_group.specs.Closes.{IsOpen, sockets_of};
ghost use Rattle.taps_group.specs.Groups.{IsSoundGroup};
ghost use Rattle.taps_group.specs.Places.{IsAt, Changes};
ghost use Rattle.taps_group.specs.Sending.{MayDriveOut, DrivesOut};
ghost use Rattle.taps_group_exchange.specs.GroupSendings.{AllUntil, HasSentOut, IsToldBy};
ghost use Rattle.taps_group_exchange.specs.Standing.{AllOf, AreStanding, MayTalk, count_shut};

use taps_base::NoMemory;
use taps_connection::Pushed;
use taps_exchange::Outcome;
use taps_framer::Framer;
use taps_group::Group;
use taps_socket::Sockets;

// What comes of one member's turn: others have theirs, or the exchange is over.
#[derive(Drop)]
pub enum Sending {
    Goes,
    Over(Outcome),
}

// Lets the members send, the next sender first, up to a time in milliseconds. It says how the exchange
// ends, if it does.
pub(crate) fn send_all<N: Sockets>(
    group: &mut Group<'_>,
    until: u64,
    net: &mut N,
) -> Result<Option<Outcome>, NoMemory>
    requires sound { IsSoundGroup ⟦<dyn Framer as Framer>⟧ group.old }
    requires opened { IsOpen (N.net net.old) group.old.members.items }
    requires talk { AllOf (MayTalk ⟦<dyn Framer as Framer>⟧ (N.net net.old)) group.old.members.items }
    requires none_shut { count_shut group.old.members.items ≡ 0 }
    requires spare { 2 * length group.old.members.items ≤ (N.net net.old).spare }
    requires until { until < 2 ^ 63 }
    ensures sent { (places : List Place) → AllUntil until places →
        AreStanding ⟦<dyn Framer as Framer>⟧ [] places group.old.members.items →
        HasSentOut ⟦<dyn Framer as Framer>⟧ N.Becomes net.old net.new (N.net net.old) (N.net net.new) places result
        group.new.members.items }
    ensures sound { IsSoundGroup ⟦<dyn Framer as Framer>⟧ group.new }
    ensures opened { IsOpen (N.net net.new) group.new.members.items }
    ensures sockets { sockets_of group.new.members.items ≡ sockets_of group.old.members.items }
    ensures talk { result ≡ Ok None → AllOf (MayTalk ⟦<dyn Framer as Framer>⟧ (N.net net.new)) group.new.members.items }
    ensures spare { (N.net net.old).spare ≤ (N.net net.new).spare + length group.old.members.items }
{
    'sending: loop {
        let place = match group.next_sender() {
            Some(place) => place,
            None => return Ok(None),
        };
        match send_next(group, place, until, net) {
            Ok(Sending::Goes) => {}
            Ok(Sending::Over(outcome)) => return Ok(Some(outcome)),
            Err(none) => return Err(none),
        }
    }
}

// A member that has a message has its turn.
fn send_next<N: Sockets>(
    group: &mut Group<'_>,
    place: u32,
    until: u64,
    net: &mut N,
) -> Result<Sending, NoMemory>
    requires member { place < length group.old.members.items }
    requires sound { IsSoundGroup ⟦<dyn Framer as Framer>⟧ group.old }
    requires may { IsAt group.old.members.items place (MayDriveOut (N.net net.old) until) }
    requires waits { IsAt group.old.members.items place (λ m. waiting_number m.connection.sender ≡ None → ⊥) }
    ensures driven { (answer : Pushed) × (IsToldBy place answer result ×
        Changes (DrivesOut ⟦<dyn Framer as Framer>⟧ N.Becomes net.old net.new (N.net net.old) (N.net net.new) until
        answer) place group.old.members.items group.new.members.items) }
    ensures kept { group.new ≡ record group.old { members = group.new.members } }
    ensures sound { IsSoundGroup ⟦<dyn Framer as Framer>⟧ group.new }
    ensures opened { IsOpen (N.net net.old) group.old.members.items →
        IsOpen (N.net net.new) group.new.members.items }
{
    match group.drive_out(place, net, until) {
        Pushed::Sent(_) => Ok(Sending::Goes),
        Pushed::Expired(_) => Ok(Sending::Goes),
        Pushed::Empty => unreachable!(),
        Pushed::Timed(_) => Ok(Sending::Over(Outcome::Timed)),
        Pushed::Failed(cause) => Ok(Sending::Over(Outcome::DataFailed(cause))),
        Pushed::NotSpeakable { number, layer } => Ok(Sending::Over(Outcome::NotSpeakable {
            member: place,
            number,
            layer,
        })),
        Pushed::NoMemory => Err(NoMemory),
    }
}
