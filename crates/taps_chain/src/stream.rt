ghost use Rattle.std.specs.Prelude.{◌≡◌, ◌+◌, ◌-◌, ◌≤◌, ◌<◌, ◌^◌, ◌++◌, [], length, drop, None, Some, OnOk, OnErr, IsOk};
ghost use Rattle.taps_chain.specs.Nexts.{IsFed};

use crate::{BadAt, FeedError};
use std::alloc::Global;
use std::marker::Model;
use taps_base::NoMemory;

/// What is kept of a stream: the bytes from `from` on are unread, and so many of them are scanned.
#[derive(Drop)]
pub(crate) struct Stream {
    bytes: Vec<u8>,
    from: usize,
    scanned: usize,
    room: usize,
    index: u64,
    bad: Option<BadAt>,
}

impl Model for Stream {
    ghost use Rattle.std.specs.Prelude.{◌+◌, ◌≤◌, drop, vec_len, vec_capacity};
    ghost use Rattle.taps_chain.specs.Streams.{StreamState};

    ghost Value = { StreamState };

    ghost view = { λ s. record {
      unread = drop s.from s.bytes.items;
      index = s.index;
      bad = s.bad;
      room = s.room;
      scanned = s.scanned;
    } };

    ghost invariant = { λ s. (s.from + s.scanned ≤ vec_len s.bytes)
        × (vec_len s.bytes + s.room ≤ vec_capacity s.bytes) };
}

impl Stream {
    /// A stream of which nothing came, which takes no memory.
    pub(crate) fn new(alloc: Global) -> Stream
        ensures { result ≡ record { unread = []; index = 0; bad = None; room = 0; scanned = 0 } }
    {
        Stream {
            bytes: Vec::new(alloc),
            from: 0,
            scanned: 0,
            room: 0,
            index: 0,
            bad: None,
        }
    }

    /// The unread bytes.
    pub(crate) fn unread(&self) -> &[u8]
        ensures { result.now ≡ self.now.unread }
    {
        &self.bytes[self.from..]
    }

    /// The number of unread bytes.
    pub(crate) fn held(&self) -> usize
        ensures { result ≡ length self.now.unread }
    {
        self.bytes.len() - self.from
    }

    /// The number of unread bytes that are scanned.
    pub(crate) fn scanned(&self) -> usize
        ensures { result ≡ self.now.scanned }
    {
        self.scanned
    }

    /// The index of the next message.
    pub(crate) fn index(&self) -> u64
        ensures { result ≡ self.now.index }
    {
        self.index
    }

    /// The Bad that was answered.
    pub(crate) fn bad(&self) -> Option<BadAt>
        ensures { result ≡ self.now.bad }
    {
        self.bad
    }

    /// Makes room for bytes.
    pub(crate) fn make_room(&mut self, bytes: usize) -> Result<(), NoMemory>
        ensures ok { OnOk result (bytes ≤ self.new.room) }
        ensures kept { self.old.room ≤ self.new.room }
        ensures had { bytes ≤ self.old.room → IsOk result }
        ensures others { self.new ≡ record self.old { room = self.new.room } }
        ensures err { OnErr result (self.new ≡ self.old) }
    {
        if self.room < bytes {
            self.compact();
            self.bytes.reserve(bytes)?;
            self.room = bytes;
        }
        Ok(())
    }

    /// Appends a piece, while the stream is not bad.
    pub(crate) fn feed(&mut self, piece: &[u8]) -> Result<(), FeedError>
        ensures { IsFed self.old piece.now result self.new }
    {
        if let Some(bad) = self.bad {
            return Err(FeedError::Bad(bad));
        }
        match self.append(piece) {
            Ok(()) => Ok(()),
            Err(_) => Err(FeedError::NoMemory),
        }
    }

    fn append(&mut self, piece: &[u8]) -> Result<(), NoMemory>
        ensures ok { OnOk result (self.new ≡
            record self.old { unread = self.old.unread ++ piece.now; room = self.old.room - length piece.now }) }
        ensures err { OnErr result (self.new ≡ self.old) }
        ensures room { length piece.now ≤ self.old.room → IsOk result }
    {
        self.compact();
        self.bytes.extend_from_slice(piece)?;
        self.room = self.room.saturating_sub(piece.len());
        Ok(())
    }

    /// So many of the unread bytes are scanned.
    pub(crate) fn scan_to(&mut self, scanned: usize)
        requires { scanned ≤ length self.old.unread }
        ensures { self.new ≡ record self.old { scanned = scanned } }
    {
        self.scanned = scanned;
    }

    /// Takes the scanned bytes out, which are the next message's.
    pub(crate) fn take_out(&mut self)
        requires { self.old.index < 2 ^ 64 - 1 }
        ensures { self.new ≡
            record self.old {
              unread = drop self.old.scanned self.old.unread;
              index = self.old.index + 1;
              scanned = 0;
            } }
    {
        self.from += self.scanned;
        self.scanned = 0;
        self.index += 1;
    }

    /// The stream is bad from now on.
    pub(crate) fn fail(&mut self, bad: BadAt)
        ensures { self.new ≡ record self.old { bad = Some bad } }
    {
        self.bad = Some(bad);
    }

    // Moves the unread bytes to the front, where those before them are at least as many.
    fn compact(&mut self)
        ensures { self.new ≡ self.old }
    {
        let left = self.bytes.len() - self.from;
        if left <= self.from {
            self.bytes.copy_within(self.from.., 0);
            self.bytes.truncate(left);
            self.from = 0;
        }
    }
}
