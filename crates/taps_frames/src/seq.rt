ghost use Rattle.taps_frames.specs.Scans.{headed_scan, number_behind};
ghost use Rattle.taps_frames.specs.Seq.{seq, seq_format};

use crate::head::{Grown, Head, grown_by};
use crate::headed::{self, Headed};
use crate::len32::{self, Len32};
use crate::prefix::{behind, moved, strip};
use crate::room::{first_of, is_of_size, write_parts};
use taps_base::NoMemory;
use taps_framer::{Framer, Run, Scan, Seen, Sight};

/// Eight bytes of the index, four bytes of length, both in network order, and the body (this
/// project's own).
#[derive(Clone, Copy, Debug)]
pub struct Seq;

impl Headed for Seq {
    ghost format = { λ _. seq_format };

    ghost number = { λ _. number_behind 8 };

    fn head_in(&self, index: u64, buffer: &[u8]) -> Head {
        match strip(&index.to_be_bytes(), buffer) {
            Ok(rest) => moved(8, Len32.head_in(index, rest)),
            Err(head) => head,
        }
    }

    fn head_with(&self, index: u64, count: u64, value: u64, byte: u8) -> Grown {
        let [a, b, c, d, e, f, g, h] = index.to_be_bytes();
        let [p, q, r, s] = (value as u32).to_be_bytes();
        let mut bytes = [a, b, c, d, e, f, g, h, p, q, r, s];
        bytes[count as usize] = byte;
        let seen = first_of(&bytes, count as usize + 1);
        grown_by(self.head_in(index, seen), behind(seen, 8))
    }

    fn tail(&self) -> Option<u8> {
        None
    }

    fn vouch_for_heads(&self) {}
}

impl Framer for Seq {
    ghost layer = { λ _. seq };

    ghost scans = { λ _. headed_scan seq_format (number_behind 8) };

    fn name(&self) -> &str {
        "seq"
    }

    fn speaks(&self, body: &[u8]) -> bool {
        is_of_size(body, 0, len32::MOST)
    }

    fn write(&self, index: u64, body: &[u8], out: &mut Vec<u8>) -> Result<(), NoMemory> {
        let [a, b, c, d, e, f, g, h] = index.to_be_bytes();
        let [p, q, r, s] = (body.len() as u32).to_be_bytes();
        write_parts(&[a, b, c, d, e, f, g, h, p, q, r, s], body, &[], out)
    }

    fn start(&self, index: u64) -> Scan {
        headed::start(self, index)
    }

    fn step(&self, index: u64, scan: Scan, byte: u8) -> Seen {
        headed::step(self, index, scan, byte)
    }

    fn advance(&self, index: u64, scan: Scan, bytes: &[u8]) -> Run {
        headed::advance(self, index, scan, bytes)
    }

    fn read(&self, index: u64, buffer: &[u8]) -> Sight {
        headed::read(self, index, buffer)
    }

    fn unwrap(&self, index: u64, frame: &[u8], out: &mut Vec<u8>) -> Result<(), NoMemory> {
        headed::unwrap(self, index, frame, out)
    }

    fn vouch(&self, _index: u64) {
        headed::vouch(self);
    }
}
