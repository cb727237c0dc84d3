// A new group is made ready for its exchange.
ghost use Rattle.std.specs.Prelude.{◌≡◌, ◌≤◌, ◌<◌, [], length, IfOk};
ghost use Rattle.std.specs.List.{All};
ghost use Rattle.taps_socket.specs.Net.{Net};
ghost use Rattle.taps_group.specs.Closes.{sockets_of};
ghost use Rattle.taps_group.specs.Groups.{IsSoundGroup};
ghost use Rattle.taps_group.specs.Places.{Changes};
ghost use Rattle.taps_group_exchange.specs.declared.addressed.Addressed.{Addressed};
ghost use Rattle.taps_group_exchange.specs.Members.{GroupTerms};
ghost use Rattle.taps_group_exchange.specs.Preparing.{AreHanded, HandsOn, IsGroupFor, IsPrioritized, IsReady, IsUnused};
ghost use Rattle.taps_group_exchange.specs.Standing.{AllOf};

use crate::addressed::Addressed;
use taps_base::NoMemory;
use taps_framer::Framer;
use taps_group::Group;
use taps_message::PushError;
use taps_property::PropValue;

/// Makes a new group ready for its exchange: the first members get these priorities, by place, and each
/// member is handed its messages at a time in milliseconds, in order. A message that it refuses is
/// passed over.
pub fn prepare_group(
    group: &mut Group<'_>,
    priorities: &[u64],
    messages: Vec<Addressed>,
    at: u64,
) -> Result<(), NoMemory>
    requires sound { IsSoundGroup ⟦<dyn Framer as Framer>⟧ group.old }
    requires few { length priorities.now ≤ length group.old.members.items }
    requires bounded { All (λ p. p ≤ 4294967295) priorities.now }
    requires addressed { All (λ (a : Addressed). a.member < length group.old.members.items) messages.items }
    ensures ready { IfOk result (λ done. (g : GroupTerms) (net : Net) →
        IsGroupFor ⟦<dyn Framer as Framer>⟧ g at net priorities.now messages.items group.old →
        IsReady ⟦<dyn Framer as Framer>⟧ g at net group.new) }
    ensures sound { IsSoundGroup ⟦<dyn Framer as Framer>⟧ group.new }
    ensures sockets { sockets_of group.new.members.items ≡ sockets_of group.old.members.items }
{
    set_priorities(group, priorities);
    match hand_all(group, messages, at) {
        Ok(()) => Ok(()),
        Err(none) => Err(none),
    }
}

// Sets the priorities of the first members, by place.
fn set_priorities(group: &mut Group<'_>, priorities: &[u64])
    requires sound { IsSoundGroup ⟦<dyn Framer as Framer>⟧ group.old }
    requires few { length priorities.now ≤ length group.old.members.items }
    requires bounded { All (λ p. p ≤ 4294967295) priorities.now }
    ensures set { IsPrioritized priorities.now group.old group.new }
    ensures sound { IsSoundGroup ⟦<dyn Framer as Framer>⟧ group.new }
{
    let mut place = 0;
    'setting: while place < priorities.len() {
        set_priority(group, place as u32, priorities[place]);
        place += 1;
    }
}

// Sets the priority of the member at a place.
fn set_priority(group: &mut Group<'_>, place: u32, priority: u64)
    requires sound { IsSoundGroup ⟦<dyn Framer as Framer>⟧ group.old }
    requires member { place < length group.old.members.items }
    requires bounded { priority ≤ 4294967295 }
    ensures set { Changes (λ m n. n ≡ record m { priority = priority }) place group.old.members.items
        group.new.members.items }
    ensures rest { group.new ≡ record group.old { members = group.new.members; props = group.new.props } }
    ensures sound { IsSoundGroup ⟦<dyn Framer as Framer>⟧ group.new }
{
    match group.set(place, "connPriority", PropValue::Number(priority)) {
        Ok(()) => {}
        Err(_) => unreachable!(),
    }
}

// Hands the members of a group messages at a time, in order.
fn hand_all(group: &mut Group<'_>, messages: Vec<Addressed>, at: u64) -> Result<(), NoMemory>
    requires sound { IsSoundGroup ⟦<dyn Framer as Framer>⟧ group.old }
    requires addressed { All (λ (a : Addressed). a.member < length group.old.members.items) messages.items }
    ensures handed { IfOk result (λ done. AllOf (IsUnused at) group.old.members.items → group.old.order.items ≡ [] →
        AreHanded at messages.items group.old group.new) }
    ensures sound { IsSoundGroup ⟦<dyn Framer as Framer>⟧ group.new }
    ensures sockets { sockets_of group.new.members.items ≡ sockets_of group.old.members.items }
{
    'handing: for addressed in messages {
        match hand(group, addressed, at) {
            Ok(()) => {}
            Err(none) => return Err(none),
        }
    }
    Ok(())
}

// Hands a member of a group a message at a time.
fn hand(group: &mut Group<'_>, addressed: Addressed, at: u64) -> Result<(), NoMemory>
    requires sound { IsSoundGroup ⟦<dyn Framer as Framer>⟧ group.old }
    requires member { addressed.member < length group.old.members.items }
    ensures handed { IfOk result (λ done. HandsOn addressed at group.old group.new) }
    ensures sound { IsSoundGroup ⟦<dyn Framer as Framer>⟧ group.new }
    ensures sockets { sockets_of group.new.members.items ≡ sockets_of group.old.members.items }
{
    match group.send(addressed.member, addressed.message, at) {
        Ok(()) => Ok(()),
        Err((PushError::NoMemory, _)) => Err(NoMemory),
        Err((PushError::AfterFinal, _)) => Ok(()),
        Err((PushError::TooMany(_), _)) => Ok(()),
        Err((PushError::TooMuch(_), _)) => Ok(()),
    }
}
