ghost use Rattle.std.specs.Prelude.{◌≡◌, ◌≤◌, ◌++◌, ◌||◌, length, take, drop, min, IfOk, OnOk, OnErr};
ghost use Rattle.taps_memory.specs.Pairs.{under_way, free_at, own_end, other_end, given_end};
ghost use Rattle.taps_memory.specs.Sides.{with_end};
ghost use Rattle.taps_memory.specs.Links.{pair_of, link_has, link_waits, unused_link, own_side, accepted_link, closed_link, shut_link, roomy_link, sent_link, read_link};

use crate::side::Side;
use std::alloc::Global;
use taps_base::NoMemory;

/// A connection in memory: the socket that listened for it, the end that was started, and the end that
/// is accepted.
#[derive(Drop)]
pub(crate) struct Link {
    pub listener: u32,
    pub starter: Side,
    pub acceptor: Side,
}

impl Link {
    /// One that was not started. Its rings are made here.
    pub(crate) fn new(alloc: Global, capacity: usize) -> Result<Link, NoMemory>
        ensures { IfOk result (λ l. l ≡ unused_link capacity) }
    {
        let starter = Side::new(alloc, capacity)?;
        let acceptor = Side::new(alloc, capacity)?;
        Ok(Link {
            listener: 0,
            starter,
            acceptor,
        })
    }

    /// Whether the socket is that of one of its ends.
    pub(crate) fn has_end(&self, socket: u32) -> bool
        ensures { result ≡ link_has socket self.now }
    {
        self.starter.is_at(socket) || self.acceptor.is_at(socket)
    }

    /// Whether it waits to be accepted from a listening socket.
    pub(crate) fn waits_for(&self, listener: u32) -> bool
        ensures { result ≡ link_waits listener self.now }
    {
        if self.listener == listener {
            self.acceptor.has_no_socket()
        } else {
            false
        }
    }

    /// How many more bytes may be under way from the end of a socket.
    pub(crate) fn free(&self, socket: u32) -> usize
        ensures { result ≡ free_at (own_end (pair_of self.now) socket) }
    {
        if self.starter.is_at(socket) {
            self.starter.free()
        } else {
            self.acceptor.free()
        }
    }

    /// How many bytes are under way to the end of a socket.
    pub(crate) fn held(&self, socket: u32) -> usize
        ensures { result ≡ length (under_way (other_end (pair_of self.now) socket)) }
    {
        if self.starter.is_at(socket) {
            self.acceptor.held()
        } else {
            self.starter.held()
        }
    }

    /// Whether the end that faces a socket was closed.
    pub(crate) fn is_other_closed(&self, socket: u32) -> bool
        ensures { result ≡ (other_end (pair_of self.now) socket).closed }
    {
        if self.starter.is_at(socket) {
            self.acceptor.is_closed()
        } else {
            self.starter.is_closed()
        }
    }

    /// Whether the sending side of the end that faces a socket was ended.
    pub(crate) fn is_other_shut(&self, socket: u32) -> bool
        ensures { result ≡ (other_end (pair_of self.now) socket).shut }
    {
        if self.starter.is_at(socket) {
            self.acceptor.is_shut()
        } else {
            self.starter.is_shut()
        }
    }

    /// Starts it.
    pub(crate) fn start(&mut self, listener: u32, socket: u32)
        ensures { self.new ≡ record {
          listener = listener;
          starter = with_end (given_end socket) self.old.starter;
          acceptor = self.old.acceptor;
        } }
    {
        self.listener = listener;
        self.starter.give(socket);
    }

    /// It is accepted under this socket.
    pub(crate) fn accept(&mut self, socket: u32)
        ensures { self.new ≡ accepted_link socket self.old }
    {
        self.acceptor.give(socket);
    }

    /// The end of a socket is closed.
    pub(crate) fn close(&mut self, socket: u32)
        ensures { self.new ≡ closed_link socket self.old }
    {
        if self.starter.is_at(socket) {
            self.starter.close();
        } else {
            self.acceptor.close();
        }
    }

    /// The sending side of a socket is ended.
    pub(crate) fn shut(&mut self, socket: u32)
        ensures { self.new ≡ shut_link socket self.old }
    {
        if self.starter.is_at(socket) {
            self.starter.shut();
        } else {
            self.acceptor.shut();
        }
    }

    /// Makes room for bytes to be sent on a socket. Without memory nothing is changed.
    pub(crate) fn make_room(&mut self, socket: u32, bytes: usize) -> Result<(), NoMemory>
        ensures ok { OnOk result (self.new ≡ roomy_link socket bytes self.old) }
        ensures err { OnErr result (self.new ≡ self.old) }
    {
        if self.starter.is_at(socket) {
            self.starter.make_room(bytes)
        } else {
            self.acceptor.make_room(bytes)
        }
    }

    /// Takes bytes that are sent on a socket at a time.
    pub(crate) fn write(&mut self, socket: u32, bytes: &[u8], at: u64)
        requires room { length bytes.now ≤ (own_side self.old socket).room }
        requires free { length bytes.now ≤ free_at (own_end (pair_of self.old) socket) }
        ensures { self.new ≡ sent_link socket bytes.now at self.old }
    {
        if self.starter.is_at(socket) {
            self.starter.write(bytes, at);
        } else {
            self.acceptor.write(bytes, at);
        }
    }

    /// Hands out the oldest bytes that are under way to a socket, so many as there are and fit.
    pub(crate) fn read_into(&mut self, socket: u32, out: &mut [u8]) -> usize
        ensures count { result ≡ min (length out.old) (length (under_way (other_end (pair_of self.old) socket))) }
        ensures out { out.new ≡ take result (under_way (other_end (pair_of self.old) socket)) ++ drop result out.old }
        ensures link { self.new ≡ read_link socket result self.old }
    {
        if self.starter.is_at(socket) {
            self.acceptor.read_into(out)
        } else {
            self.starter.read_into(out)
        }
    }
}
