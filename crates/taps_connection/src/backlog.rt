// The bytes of a stream that is one message, until they are given out.
ghost use Rattle.std.specs.Prelude.{◌≡◌, ◌-◌, ◌≤◌, ◌++◌, [], length, OnOk, OnErr, IsOk};

use std::alloc::Global;
use std::marker::Model;
use std::mem;
use taps_base::NoMemory;

// The bytes that came, and the room for more.
#[derive(Drop)]
pub struct Backlog {
    bytes: Vec<u8>,
    room: usize,
}

impl Model for Backlog {
    ghost use Rattle.std.specs.Prelude.{◌+◌, ◌≤◌, vec_len, vec_capacity};
    ghost use Rattle.taps_connection.specs.Backlogs.{BacklogState};

    ghost Value = { BacklogState };

    ghost view = { λ b. record { unread = b.bytes.items; room = b.room } };

    ghost invariant = { λ b. vec_len b.bytes + b.room ≤ vec_capacity b.bytes };
}

impl Backlog {
    // Of which nothing came, with no room yet.
    pub(crate) fn new(alloc: Global) -> Backlog
        ensures { result ≡ record { unread = []; room = 0 } }
    {
        Backlog {
            bytes: Vec::new(alloc),
            room: 0,
        }
    }

    // The number of bytes that came.
    pub(crate) fn len(&self) -> usize
        ensures { result ≡ length self.now.unread }
    {
        self.bytes.len()
    }

    // Makes room for bytes.
    pub(crate) fn make_room(&mut self, bytes: usize) -> Result<(), NoMemory>
        ensures ok { OnOk result (bytes ≤ self.new.room) }
        ensures kept { self.old.room ≤ self.new.room }
        ensures had { bytes ≤ self.old.room → IsOk result }
        ensures others { self.new ≡ record self.old { room = self.new.room } }
        ensures err { OnErr result (self.new ≡ self.old) }
    {
        if self.room < bytes {
            self.bytes.reserve(bytes)?;
            self.room = bytes;
        }
        Ok(())
    }

    // Appends bytes for which there is room.
    pub(crate) fn append(&mut self, piece: &[u8])
        requires { length piece.now ≤ self.old.room }
        ensures { self.new ≡ record self.old {
          unread = self.old.unread ++ piece.now;
          room = self.old.room - length piece.now;
        } }
    {
        match self.bytes.extend_from_slice(piece) {
            Ok(()) => {}
            Err(_) => unreachable!(),
        }
        self.room -= piece.len();
    }

    // All the bytes, of which none stay.
    pub(crate) fn take_all(&mut self) -> Vec<u8>
        ensures taken { result.items ≡ self.old.unread }
        ensures none { self.new.unread ≡ [] }
    {
        let alloc = *self.bytes.allocator();
        self.room = 0;
        mem::replace(&mut self.bytes, Vec::new(alloc))
    }
}
