ghost use Rattle.std.specs.Prelude.{◌≡◌, ◌≤◌, ◌+◌, ◌++◌, length, take, drop, min, IfOk, OnOk, OnErr, None, vec_len, vec_capacity};
ghost use Rattle.taps_memory.specs.Pairs.{is_at, has_no_socket, under_way, free_at, given_end, shut_end, closed_end, taken_end};
ghost use Rattle.taps_memory.specs.Sides.{new_side, with_end, roomy_side, sent_side};

use circular_buffer::HeapCircularBuffer;
use std::alloc::Global;
use std::marker::Model;
use taps_base::NoMemory;

/// One end of a connection in memory, and the ring of bytes that are under way from it.
///
/// Contracts see all bytes that were written there, and how many of them were read at the other end.
/// They are kept in the room that was made for them.
#[derive(Drop)]
pub(crate) struct Side {
    socket: Option<u32>,
    shut: bool,
    closed: bool,
    written: Vec<u8>,
    taken: usize,
    ring: HeapCircularBuffer<u8>,
    room: usize,
    last_sent: Option<u64>,
}

impl Model for Side {
    ghost use Rattle.std.specs.Prelude.{vec_len, vec_capacity};
    ghost use Rattle.taps_memory.specs.Sides as sides;
    ghost use Rattle.taps_memory.specs.Sides.{IsHeld};

    ghost Value = { sides.Side };

    ghost view = { λ s. record {
      end = record {
        socket = s.socket;
        shut = s.shut;
        closed = s.closed;
        capacity = s.ring.capacity;
        written = s.written.items;
        taken = s.taken;
      };
      room = s.room;
      last_sent = s.last_sent;
    } };

    ghost invariant = { λ s.
        IsHeld s.written.items s.ring.items s.taken s.room (vec_len s.written) (vec_capacity s.written) };
}

impl Side {
    /// An end with no socket yet. Its ring is made here.
    pub(crate) fn new(alloc: Global, capacity: usize) -> Result<Side, NoMemory>
        ensures { IfOk result (λ s. s ≡ new_side capacity None) }
    {
        let ring = HeapCircularBuffer::with_capacity(alloc, capacity)?;
        Ok(Side {
            socket: None,
            shut: false,
            closed: false,
            written: Vec::new(alloc),
            taken: 0,
            ring,
            room: 0,
            last_sent: None,
        })
    }

    /// Whether the socket is that of this end.
    pub(crate) fn is_at(&self, socket: u32) -> bool
        ensures { result ≡ is_at self.now.end socket }
    {
        match self.socket {
            Some(own) => own == socket,
            None => false,
        }
    }

    /// Whether no socket was given for it yet.
    pub(crate) fn has_no_socket(&self) -> bool
        ensures { result ≡ has_no_socket self.now.end }
    {
        match self.socket {
            Some(_) => false,
            None => true,
        }
    }

    /// Whether its sending side was ended.
    pub(crate) fn is_shut(&self) -> bool
        ensures { result ≡ self.now.end.shut }
    {
        self.shut
    }

    /// Whether it was closed.
    pub(crate) fn is_closed(&self) -> bool
        ensures { result ≡ self.now.end.closed }
    {
        self.closed
    }

    /// How many bytes are under way from it.
    pub(crate) fn held(&self) -> usize
        ensures { result ≡ length (under_way self.now.end) }
    {
        self.ring.len()
    }

    /// How many more bytes may be under way from it.
    pub(crate) fn free(&self) -> usize
        ensures { result ≡ free_at self.now.end }
    {
        self.ring.capacity() - self.ring.len()
    }

    /// Its socket is given.
    pub(crate) fn give(&mut self, socket: u32)
        ensures { self.new ≡ with_end (given_end socket) self.old }
    {
        self.socket = Some(socket);
    }

    /// Its sending side is ended.
    pub(crate) fn shut(&mut self)
        ensures { self.new ≡ with_end shut_end self.old }
    {
        self.shut = true;
    }

    /// It is closed.
    pub(crate) fn close(&mut self)
        ensures { self.new ≡ with_end closed_end self.old }
    {
        self.closed = true;
    }

    /// Makes room for bytes to be sent. Without memory nothing is changed.
    pub(crate) fn make_room(&mut self, bytes: usize) -> Result<(), NoMemory>
        ensures ok { OnOk result (self.new ≡ roomy_side bytes self.old) }
        ensures err { OnErr result (self.new ≡ self.old) }
    {
        let room = self.room.max(bytes);
        self.written.reserve(room)?;
        self.room = room;
        Ok(())
    }

    /// Takes bytes at a time.
    pub(crate) fn write(&mut self, bytes: &[u8], at: u64)
        requires room { length bytes.now ≤ self.old.room }
        requires free { length bytes.now ≤ free_at self.old.end }
        ensures { self.new ≡ sent_side bytes.now at self.old }
    {
        append(&mut self.written, bytes);
        self.ring.fill_from_slice(bytes);
        self.room -= bytes.len();
        self.last_sent = Some(at);
    }

    /// Hands out the oldest bytes that are under way, so many as there are and fit.
    pub(crate) fn read_into(&mut self, out: &mut [u8]) -> usize
        ensures count { result ≡ min (length out.old) (length (under_way self.old.end)) }
        ensures out { out.new ≡ take result (under_way self.old.end) ++ drop result out.old }
        ensures side { self.new ≡ with_end (taken_end result) self.old }
    {
        let count = self.ring.read_into(out);
        self.taken += count;
        count
    }
}

fn append(values: &mut Vec<u8>, more: &[u8])
    requires { vec_len values.old + length more.now ≤ vec_capacity values.old }
    ensures items { values.new.items ≡ values.old.items ++ more.now }
    ensures len { vec_len values.new ≡ vec_len values.old + length more.now }
    ensures room { vec_capacity values.old ≤ vec_capacity values.new }
{
    match values.extend_from_slice(more) {
        Ok(()) => {}
        Err(_) => unreachable!(),
    }
}
