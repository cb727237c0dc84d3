ghost use Rattle.taps_frames.specs.Scans.{headed_scan, number_behind};
ghost use Rattle.taps_frames.specs.Len16.{len16, len16_format};

use crate::head::{Grown, Head, grown_by};
use crate::headed::{self, Headed};
use crate::room::{first_of, is_of_size, write_parts};
use taps_base::NoMemory;
use taps_framer::{Framer, Run, Scan, Seen, Sight};

/// Two bytes of length in network order, and the body (RFC 4571 section 2).
#[derive(Clone, Copy, Debug)]
pub struct Len16;

impl Headed for Len16 {
    ghost format = { λ _. len16_format };

    ghost number = { λ _. number_behind 0 };

    fn head_in(&self, _index: u64, buffer: &[u8]) -> Head {
        match buffer {
            [high, low, ..] => Head::Whole {
                width: 2,
                size: u16::from_be_bytes([*high, *low]) as usize,
            },
            _ => Head::Need,
        }
    }

    fn head_with(&self, index: u64, count: u64, value: u64, byte: u8) -> Grown {
        let mut bytes = (value as u32).to_be_bytes();
        bytes[count as usize] = byte;
        let seen = first_of(&bytes, count as usize + 1);
        grown_by(self.head_in(index, seen), seen)
    }

    fn tail(&self) -> Option<u8> {
        None
    }

    fn vouch_for_heads(&self) {}
}

impl Framer for Len16 {
    ghost layer = { λ _. len16 };

    ghost scans = { λ _. headed_scan len16_format (number_behind 0) };

    fn name(&self) -> &str {
        "len16"
    }

    fn speaks(&self, body: &[u8]) -> bool {
        is_of_size(body, 0, 65_535)
    }

    fn write(&self, _index: u64, body: &[u8], out: &mut Vec<u8>) -> Result<(), NoMemory> {
        write_parts(&(body.len() as u16).to_be_bytes(), body, &[], out)
    }

    fn start(&self, index: u64) -> Scan {
        headed::start(self, index)
    }

    fn step(&self, index: u64, scan: Scan, byte: u8) -> Seen {
        headed::step(self, index, scan, byte)
    }

    fn advance(&self, index: u64, scan: Scan, bytes: &[u8]) -> Run {
        headed::advance(self, index, scan, bytes)
    }

    fn read(&self, index: u64, buffer: &[u8]) -> Sight {
        headed::read(self, index, buffer)
    }

    fn unwrap(&self, index: u64, frame: &[u8], out: &mut Vec<u8>) -> Result<(), NoMemory> {
        headed::unwrap(self, index, frame, out)
    }

    fn vouch(&self, _index: u64) {
        headed::vouch(self);
    }
}
