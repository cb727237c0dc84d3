ghost use Rattle.std.specs.Prelude.{◌≡◌, ℕ, ◌+◌, ◌<◌, ◌≤◌, length, slice_index};
ghost use Rattle.std.specs.Int.{w32, from_be_bytes};
ghost use Rattle.taps_frames.specs.Heads.{IsHead, IsBadHead};
ghost use Rattle.taps_frames.specs.Scans.{headed_scan, number_behind};
ghost use Rattle.taps_frames.specs.Varint.{varint, varint_format};

use crate::head::{Grown, Head, grown_by, number_in};
use crate::headed::{self, Headed};
use crate::len32::MOST;
use crate::room::{first_of, is_of_size, write_parts};
use taps_base::NoMemory;
use taps_framer::{Framer, Run, Scan, Seen, Sight};

/// What stands above the number in a form of two bytes.
const TWO: usize = 0x4000;
/// What stands above the number in a form of four bytes, whose first is then the least one.
const FOUR: usize = 0x8000_0000;
/// The least number that takes four bytes.
const LEAST_OF_FOUR: usize = 16_384;

/// The length as an integer of one, two or four bytes, the shortest that hold it, and the body
/// (RFC 9000 section 16).
#[derive(Clone, Copy, Debug)]
pub struct Varint;

/// The place of the byte with which a number of four bytes passes the limit.
fn bad_place(_buffer: &[u8], size: usize) -> usize
    requires some { 1 ≤ length _buffer.now }
    requires told { FOUR + size ≡ from_be_bytes w32 _buffer.now }
    requires large { MOST < size }
    requires first { size < 16777216 }
    ensures { (i : ℕ) → IsBadHead varint_format i _buffer.now result }
{
    if size >= 17 * 65_536 {
        return 1;
    }
    if size >= 4_097 * 256 {
        return 2;
    }
    3
}

/// A form of four bytes.
fn head_of_four(buffer: &[u8]) -> Head
    requires some { 1 ≤ length buffer.now }
    requires first { 128 ≤ slice_index buffer.now 0 }
    ensures { (i : ℕ) → IsHead varint_format i buffer.now result }
{
    let number = number_in(buffer) as usize;
    if number >= FOUR + 16_777_216 {
        return Head::Bad { place: 0 };
    }
    let size = number - FOUR;
    if size > MOST {
        return Head::Bad {
            place: bad_place(buffer, size),
        };
    }
    if buffer.len() < 3 {
        return Head::Need;
    }
    if size < LEAST_OF_FOUR {
        return Head::Bad { place: 2 };
    }
    if buffer.len() < 4 {
        return Head::Need;
    }
    Head::Whole { width: 4, size }
}

impl Headed for Varint {
    ghost format = { λ _. varint_format };

    ghost number = { λ _. number_behind 0 };

    fn head_in(&self, _index: u64, buffer: &[u8]) -> Head {
        match buffer {
            [] => Head::Need,
            [first, ..] if *first < 64 => Head::Whole {
                width: 1,
                size: *first as usize,
            },
            [first] if *first < 128 => Head::Need,
            [first, second, ..] if *first < 128 => {
                let size = u16::from_be_bytes([*first, *second]) as usize - TWO;
                if size < 64 {
                    Head::Bad { place: 1 }
                } else {
                    Head::Whole { width: 2, size }
                }
            }
            _ => head_of_four(buffer),
        }
    }

    fn head_with(&self, index: u64, count: u64, value: u64, byte: u8) -> Grown {
        let mut bytes = (value as u32).to_be_bytes();
        bytes[count as usize] = byte;
        let seen = first_of(&bytes, count as usize + 1);
        grown_by(self.head_in(index, seen), seen)
    }

    fn tail(&self) -> Option<u8> {
        None
    }

    fn vouch_for_heads(&self) {}
}

impl Framer for Varint {
    ghost layer = { λ _. varint };

    ghost scans = { λ _. headed_scan varint_format (number_behind 0) };

    fn name(&self) -> &str {
        "varint"
    }

    fn speaks(&self, body: &[u8]) -> bool {
        is_of_size(body, 0, MOST)
    }

    #[tactic(auto, unfolding(crate::specs::Varint::shortest))]
    fn write(&self, _index: u64, body: &[u8], out: &mut Vec<u8>) -> Result<(), NoMemory> {
        let size = body.len();
        if size < 64 {
            return write_parts(&[size as u8], body, &[], out);
        }
        if size < LEAST_OF_FOUR {
            return write_parts(&((TWO + size) as u16).to_be_bytes(), body, &[], out);
        }
        write_parts(&((FOUR + size) as u32).to_be_bytes(), body, &[], out)
    }

    fn start(&self, index: u64) -> Scan {
        headed::start(self, index)
    }

    fn step(&self, index: u64, scan: Scan, byte: u8) -> Seen {
        headed::step(self, index, scan, byte)
    }

    fn advance(&self, index: u64, scan: Scan, bytes: &[u8]) -> Run {
        headed::advance(self, index, scan, bytes)
    }

    fn read(&self, index: u64, buffer: &[u8]) -> Sight {
        headed::read(self, index, buffer)
    }

    fn unwrap(&self, index: u64, frame: &[u8], out: &mut Vec<u8>) -> Result<(), NoMemory> {
        headed::unwrap(self, index, frame, out)
    }

    fn vouch(&self, _index: u64) {
        headed::vouch(self);
    }
}
