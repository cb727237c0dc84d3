// The receiving side of a group.
ghost use Rattle.std.specs.Prelude.{◌≡◌, ◌<◌, ◌≤◌, length};
ghost use Rattle.taps_group.specs.Closes.{IsOpen};
ghost use Rattle.taps_group.specs.Groups.{IsSoundGroup};
ghost use Rattle.taps_group.specs.Places.{IsAt, Changes};
ghost use Rattle.taps_group.specs.Receiving.{MakesRoom, MayDriveIn, DrivesIn, MayReceive, GivesOut};

use crate::group::Group;
use taps_base::NoMemory;
use taps_chain::Heard;
use taps_connection::Pulled;
use taps_framer::Framer;
use taps_socket::Sockets;

impl<'a> Group<'a> {
    /// The member's own `make_room_in`: makes room for bytes that it is to take in, and changes nothing else.
    pub fn make_room_in(&mut self, member: u32, bytes: u64) -> Result<(), NoMemory>
        requires member { member < length self.old.members.items }
        requires sound { IsSoundGroup ⟦<dyn Framer as Framer>⟧ self.old }
        requires few { bytes ≤ 65536 }
        ensures room { Changes (MakesRoom bytes result) member self.old.members.items self.new.members.items }
        ensures kept { self.new ≡ record self.old { members = self.new.members } }
        ensures sound { IsSoundGroup ⟦<dyn Framer as Framer>⟧ self.new }
    {
        self.members[member as usize].connection.make_room_in(bytes)
    }

    /// The member's own `drive_in`: asks its socket once for bytes, up to a time in milliseconds.
    pub fn drive_in<N: Sockets>(&mut self, member: u32, net: &mut N, until: u64) -> Pulled
        requires member { member < length self.old.members.items }
        requires sound { IsSoundGroup ⟦<dyn Framer as Framer>⟧ self.old }
        requires may { IsAt self.old.members.items member (MayDriveIn (N.net net.old) until) }
        ensures driven { Changes (DrivesIn ⟦<dyn Framer as Framer>⟧ N.Becomes net.old net.new (N.net net.old)
            (N.net net.new) until result) member self.old.members.items self.new.members.items }
        ensures kept { self.new ≡ record self.old { members = self.new.members } }
        ensures sound { IsSoundGroup ⟦<dyn Framer as Framer>⟧ self.new }
        ensures opened { IsOpen (N.net net.old) self.old.members.items →
            IsOpen (N.net net.new) self.new.members.items }
    {
        let place = member as usize;
        self.members[place].connection.drive_in(net, until)
    }

    /// The member's own `receive`: gives out what it read, with no call on its socket.
    pub fn receive(&mut self, member: u32) -> Heard
        requires member { member < length self.old.members.items }
        requires sound { IsSoundGroup ⟦<dyn Framer as Framer>⟧ self.old }
        requires may { IsAt self.old.members.items member MayReceive }
        ensures received { Changes (GivesOut ⟦<dyn Framer as Framer>⟧ result) member self.old.members.items
            self.new.members.items }
        ensures kept { self.new ≡ record self.old { members = self.new.members } }
        ensures sound { IsSoundGroup ⟦<dyn Framer as Framer>⟧ self.new }
    {
        self.members[member as usize].connection.receive()
    }
}
