// The sending side of a group.
ghost use Rattle.std.specs.Prelude.{◌≡◌, ◌<◌, length};
ghost use Rattle.taps_group.specs.Closes.{IsOpen};
ghost use Rattle.taps_group.specs.Groups.{IsSoundGroup};
ghost use Rattle.taps_group.specs.Places.{IsAt, Changes};
ghost use Rattle.taps_group.specs.Accepting.{IsSent};
ghost use Rattle.taps_group.specs.Sending.{MayDriveOut, DrivesOut};

use crate::group::Group;
use crate::member::add;
use taps_connection::Pushed;
use taps_framer::Framer;
use taps_message::{Message, PushError};
use taps_socket::Sockets;

impl<'a> Group<'a> {
    /// A member accepts a message at a time in milliseconds. One that is refused is handed back.
    pub fn send(
        &mut self,
        member: u32,
        message: Message,
        at: u64,
    ) -> Result<(), (PushError, Message)>
        requires member { member < length self.old.members.items }
        requires sound { IsSoundGroup ⟦<dyn Framer as Framer>⟧ self.old }
        ensures sent { IsSent member message at self.old result self.new }
        ensures sound { IsSoundGroup ⟦<dyn Framer as Framer>⟧ self.new }
    {
        if self.order.reserve(1).is_err() {
            return Err((PushError::NoMemory, message));
        }
        let order = self.order.len();
        match self.members[member as usize].accept(order, message, at) {
            Ok(()) => {
                add(&mut self.order, member);
                Ok(())
            }
            Err(refused) => Err(refused),
        }
    }

    /// The member's own `drive_out`: brings its begun message, or the next of its queue, whole out, up
    /// to a time in milliseconds.
    pub fn drive_out<N: Sockets>(&mut self, member: u32, net: &mut N, until: u64) -> Pushed
        requires member { member < length self.old.members.items }
        requires sound { IsSoundGroup ⟦<dyn Framer as Framer>⟧ self.old }
        requires may { IsAt self.old.members.items member (MayDriveOut (N.net net.old) until) }
        ensures driven { Changes (DrivesOut ⟦<dyn Framer as Framer>⟧ N.Becomes net.old net.new (N.net net.old)
            (N.net net.new) until result) member self.old.members.items self.new.members.items }
        ensures kept { self.new ≡ record self.old { members = self.new.members } }
        ensures sound { IsSoundGroup ⟦<dyn Framer as Framer>⟧ self.new }
        ensures opened { IsOpen (N.net net.old) self.old.members.items →
            IsOpen (N.net net.new) self.new.members.items }
    {
        let place = member as usize;
        self.members[place].connection.drive_out(net, until)
    }
}
