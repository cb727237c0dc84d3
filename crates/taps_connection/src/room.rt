// The memory that a connection has for bytes that are still to come.
ghost use Rattle.std.specs.Prelude.{◌≡◌, ◌≤◌, OnOk, OnErr, IsOk};
ghost use Rattle.taps_chain.specs.Layers.{layers_of};
ghost use Rattle.taps_connection.specs.Inboxes.{IsSoundReceiver};
ghost use Rattle.taps_connection.specs.Rooms.{room_of, piece_of};
ghost use Rattle.taps_connection.specs.Sources.{unread_of};
ghost use Rattle.taps_connection.specs.Unread.{most_of};

use crate::connection::Connection;
use crate::state::{Open, State};
use taps_base::NoMemory;
use taps_framer::Framer;

impl<'a, S: State> Connection<'a, S> {
    /// The greatest number of bytes for which a `drive_in` asks: a piece of a stream, or the 65,535 of a
    /// datagram. The next one asks for no more.
    pub fn piece(&self) -> u64
        ensures piece { result ≡ piece_of (unread_of self.now.receiver.source) }
        ensures few { result ≤ 65536 }
        ensures enough { most_of (unread_of self.now.receiver.source) ≤ result }
    {
        self.receiver.source.piece() as u64
    }
}

impl<'a, S: Open> Connection<'a, S> {
    /// Makes room for bytes that are to be taken in: a `drive_in` that asks for no more than these does
    /// not run out of memory. Where there is room for them it succeeds, and nothing but the room changes.
    pub fn make_room_in(&mut self, bytes: u64) -> Result<(), NoMemory>
        requires few { bytes ≤ 65536 }
        ensures ok { OnOk result (bytes ≤ room_of self.new.receiver.source) }
        ensures grows { room_of self.old.receiver.source ≤ room_of self.new.receiver.source }
        ensures had { bytes ≤ room_of self.old.receiver.source → IsOk result }
        ensures err { OnErr result (room_of self.new.receiver.source ≡ room_of self.old.receiver.source) }
        ensures unread { unread_of self.new.receiver.source ≡ unread_of self.old.receiver.source }
        ensures ended { self.new.receiver.ended ≡ self.old.receiver.ended }
        ensures sound { IsSoundReceiver ⟦<dyn Framer as Framer>⟧ self.old.stack
            (layers_of ⟦<dyn Framer as Framer>⟧ self.old.chain) self.old.receiver →
            IsSoundReceiver ⟦<dyn Framer as Framer>⟧ self.old.stack
            (layers_of ⟦<dyn Framer as Framer>⟧ self.old.chain) self.new.receiver }
        ensures kept { self.new ≡ record self.old { receiver = self.new.receiver } }
    {
        self.receiver.source.make_room(bytes as usize)
    }
}
