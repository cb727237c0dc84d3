ghost use Rattle.std.specs.Prelude.{◌≡◌, ◌+◌, ◌-◌, ◌<◌, ◌≤◌, ◌^◌, ℕ, List, length};
ghost use Rattle.taps_chain.specs.Hearings.{unread_of};
ghost use Rattle.taps_chain.specs.Looks.{HasLooked, HasScanned};

use crate::look::{Look, step_along_in};
use taps_framer::{Framer, Seen};

/// How far bytes are heard that come in pieces.
#[derive(Clone, Copy)]
pub(crate) struct Progress {
    /// The number of bytes that came.
    pub fed: usize,
    /// The number of bytes that the messages had.
    pub taken: usize,
    /// The index of the next message.
    pub index: u64,
    /// How far layer 0 has looked at the bytes between.
    pub look: Look,
}

impl Progress {
    /// No byte came.
    pub(crate) fn start(first: &Box<dyn Framer>) -> Progress
        ensures none { (result.fed ≡ 0) × (result.taken ≡ 0) × (result.index ≡ 0) }
        ensures looked { (unread : List ℕ) → HasLooked (layer first.now) (scans first.now) 0 unread result.look }
    {
        Progress {
            fed: 0,
            taken: 0,
            index: 0,
            look: Look::start(first, 0),
        }
    }

    /// One byte more came, and others one by one while none settles what the unread bytes are, at each
    /// of which layer 0 looked.
    fn step_on(&self, first: &Box<dyn Framer>, bytes: &[u8]) -> Progress
        requires taken { self.now.taken ≤ self.now.fed }
        requires more { self.now.fed < length bytes.now }
        requires looked { HasLooked (layer first.now) (scans first.now)
            self.now.index (unread_of self.now bytes.now) self.now.look }
        requires all { HasScanned (unread_of self.now bytes.now) self.now.look.scanned self.now.look.seen }
        ensures came { (self.now.fed < result.fed) × (result.fed ≤ length bytes.now) }
        ensures others { (result.taken ≡ self.now.taken) × (result.index ≡ self.now.index) }
        ensures looked { HasLooked (layer first.now) (scans first.now)
            result.index (unread_of result bytes.now) result.look }
    {
        let Seen::More(scan) = self.look.seen else {
            return Progress {
                fed: self.fed + 1,
                ..*self
            };
        };
        let on = step_along_in(first, self.index, scan, &bytes[self.fed..]);
        Progress {
            fed: self.fed + on.scanned,
            look: Look {
                scanned: self.look.scanned + on.scanned,
                seen: on.seen,
            },
            ..*self
        }
    }

    /// The next piece came, of so many bytes, or the last, which may be shorter. Of pieces of one byte
    /// others may have come too, as long as none settles what the unread bytes are.
    pub(crate) fn take_piece(&mut self, first: &Box<dyn Framer>, bytes: &[u8], piece: usize)
        requires piece { 1 ≤ piece }
        requires taken { self.old.taken ≤ self.old.fed }
        requires more { self.old.fed < length bytes.now }
        requires looked { HasLooked (layer first.now) (scans first.now)
            self.old.index (unread_of self.old bytes.now) self.old.look }
        requires all { HasScanned (unread_of self.old bytes.now) self.old.look.scanned self.old.look.seen }
        ensures came { (self.old.fed < self.new.fed) × (self.new.fed ≤ length bytes.now) }
        ensures others { (self.new.taken ≡ self.old.taken) × (self.new.index ≡ self.old.index) }
        ensures looked { HasLooked (layer first.now) (scans first.now)
            self.new.index (unread_of self.new bytes.now) self.new.look }
    {
        if piece == 1 {
            *self = self.step_on(first, bytes);
        } else {
            self.fed += piece.min(bytes.len() - self.fed);
        }
    }

    /// The scanned bytes were a message.
    pub(crate) fn take_out(&mut self, first: &Box<dyn Framer>)
        requires index { self.old.index < 2 ^ 64 - 1 }
        requires taken { self.old.taken + self.old.look.scanned < 2 ^ 64 }
        ensures taken { self.new.taken ≡ self.old.taken + self.old.look.scanned }
        ensures next { (self.new.index ≡ self.old.index + 1) × (self.new.fed ≡ self.old.fed) }
        ensures looked { (unread : List ℕ) →
            HasLooked (layer first.now) (scans first.now) self.new.index unread self.new.look }
    {
        self.taken += self.look.scanned;
        self.index += 1;
        self.look = Look::start(first, self.index);
    }
}
