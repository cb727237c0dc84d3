ghost use Rattle.std.specs.Prelude.{◌≡◌, ℕ, ◌<◌};
ghost use Rattle.std.specs.Int.{w32, from_be_bytes};
ghost use Rattle.taps_frames.specs.Heads.{IsBadHead};
ghost use Rattle.taps_frames.specs.Scans.{headed_scan, number_behind};
ghost use Rattle.taps_frames.specs.Len32.{len32, len32_format};

use crate::head::{Grown, Head, grown_by, number_in};
use crate::headed::{self, Headed};
use crate::room::{first_of, is_of_size, write_parts};
use taps_base::NoMemory;
use taps_framer::{Framer, Run, Scan, Seen, Sight};

/// A body has at most so many bytes.
pub(crate) const MOST: usize = 1_048_576;

/// Four bytes of length in network order, and the body (this project's own).
#[derive(Clone, Copy, Debug)]
pub struct Len32;

/// The place of the byte with which the number passes the limit.
fn bad_place(_buffer: &[u8], number: usize) -> usize
    requires told { number ≡ from_be_bytes w32 _buffer.now }
    requires large { MOST < number }
    ensures { (i : ℕ) → IsBadHead len32_format i _buffer.now result }
{
    if number >= 16_777_216 {
        return 0;
    }
    if number >= 17 * 65_536 {
        return 1;
    }
    if number >= 4_097 * 256 {
        return 2;
    }
    3
}

impl Headed for Len32 {
    ghost format = { λ _. len32_format };

    ghost number = { λ _. number_behind 0 };

    fn head_in(&self, _index: u64, buffer: &[u8]) -> Head {
        let size = number_in(buffer) as usize;
        if size > MOST {
            return Head::Bad {
                place: bad_place(buffer, size),
            };
        }
        if buffer.len() < 4 {
            Head::Need
        } else {
            Head::Whole { width: 4, size }
        }
    }

    fn head_with(&self, index: u64, count: u64, value: u64, byte: u8) -> Grown {
        let mut bytes = (value as u32).to_be_bytes();
        bytes[count as usize] = byte;
        let seen = first_of(&bytes, count as usize + 1);
        grown_by(self.head_in(index, seen), seen)
    }

    fn tail(&self) -> Option<u8> {
        None
    }

    fn vouch_for_heads(&self) {}
}

impl Framer for Len32 {
    ghost layer = { λ _. len32 };

    ghost scans = { λ _. headed_scan len32_format (number_behind 0) };

    fn name(&self) -> &str {
        "len32"
    }

    fn speaks(&self, body: &[u8]) -> bool {
        is_of_size(body, 0, MOST)
    }

    fn write(&self, _index: u64, body: &[u8], out: &mut Vec<u8>) -> Result<(), NoMemory> {
        write_parts(&(body.len() as u32).to_be_bytes(), body, &[], out)
    }

    fn start(&self, index: u64) -> Scan {
        headed::start(self, index)
    }

    fn step(&self, index: u64, scan: Scan, byte: u8) -> Seen {
        headed::step(self, index, scan, byte)
    }

    fn advance(&self, index: u64, scan: Scan, bytes: &[u8]) -> Run {
        headed::advance(self, index, scan, bytes)
    }

    fn read(&self, index: u64, buffer: &[u8]) -> Sight {
        headed::read(self, index, buffer)
    }

    fn unwrap(&self, index: u64, frame: &[u8], out: &mut Vec<u8>) -> Result<(), NoMemory> {
        headed::unwrap(self, index, frame, out)
    }

    fn vouch(&self, _index: u64) {
        headed::vouch(self);
    }
}
