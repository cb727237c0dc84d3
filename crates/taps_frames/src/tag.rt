ghost use Rattle.taps_frames.specs.Scans.{headed_scan, number_behind};
ghost use Rattle.taps_frames.specs.Tag.{tag, tag_format};

use crate::head::{Grown, Head, grown_by};
use crate::headed::{self, Headed};
use crate::len16::Len16;
use crate::prefix::{behind, moved, strip};
use crate::room::{first_of, is_of_size, write_parts};
use taps_base::NoMemory;
use taps_framer::{Framer, Run, Scan, Seen, Sight};

/// Its kind byte, two bytes of length in network order, and the body (this project's own).
#[derive(Clone, Copy, Debug)]
pub struct Tag {
    /// The first byte of each frame.
    pub kind: u8,
}

impl Headed for Tag {
    ghost format = { λ t. tag_format t.kind };

    ghost number = { λ _. number_behind 1 };

    fn head_in(&self, index: u64, buffer: &[u8]) -> Head {
        match strip(&[self.kind], buffer) {
            Ok(rest) => moved(1, Len16.head_in(index, rest)),
            Err(head) => head,
        }
    }

    fn head_with(&self, index: u64, count: u64, value: u64, byte: u8) -> Grown {
        let [a, b, c, d] = (value as u32).to_be_bytes();
        let mut bytes = [self.kind, a, b, c, d];
        bytes[count as usize] = byte;
        let seen = first_of(&bytes, count as usize + 1);
        grown_by(self.head_in(index, seen), behind(seen, 1))
    }

    fn tail(&self) -> Option<u8> {
        None
    }

    fn vouch_for_heads(&self) {}
}

impl Framer for Tag {
    ghost layer = { λ t. tag t.kind };

    ghost scans = { λ t. headed_scan (tag_format t.kind) (number_behind 1) };

    fn name(&self) -> &str {
        "tag"
    }

    fn speaks(&self, body: &[u8]) -> bool {
        is_of_size(body, 0, 65_535)
    }

    fn write(&self, _index: u64, body: &[u8], out: &mut Vec<u8>) -> Result<(), NoMemory> {
        let [high, low] = (body.len() as u16).to_be_bytes();
        write_parts(&[self.kind, high, low], body, &[], out)
    }

    fn start(&self, index: u64) -> Scan {
        headed::start(self, index)
    }

    fn step(&self, index: u64, scan: Scan, byte: u8) -> Seen {
        headed::step(self, index, scan, byte)
    }

    fn advance(&self, index: u64, scan: Scan, bytes: &[u8]) -> Run {
        headed::advance(self, index, scan, bytes)
    }

    fn read(&self, index: u64, buffer: &[u8]) -> Sight {
        headed::read(self, index, buffer)
    }

    fn unwrap(&self, index: u64, frame: &[u8], out: &mut Vec<u8>) -> Result<(), NoMemory> {
        headed::unwrap(self, index, frame, out)
    }

    fn vouch(&self, _index: u64) {
        headed::vouch(self);
    }
}
