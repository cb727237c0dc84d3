ghost use Rattle.taps_frames.specs.Decimals.{written_number};
ghost use Rattle.taps_frames.specs.Netstring.{netstring, netstring_format};
ghost use Rattle.taps_frames.specs.Scans.{headed_scan};

use crate::decimal::{self, MOST, digit_step, write_counted};
use crate::head::{Grown, Head};
use crate::headed::{self, Headed};
use crate::room::is_of_size;
use taps_base::NoMemory;
use taps_framer::{Framer, Run, Scan, Seen, Sight};

/// The length in decimal, a colon, the body and a comma (the netstring form).
#[derive(Clone, Copy, Debug)]
pub struct Netstring;

impl Headed for Netstring {
    ghost format = { λ _. netstring_format };

    ghost number = { λ _. written_number };

    fn head_in(&self, _index: u64, buffer: &[u8]) -> Head {
        decimal::head_in(buffer, 0, b':')
    }

    fn head_with(&self, _index: u64, count: u64, value: u64, byte: u8) -> Grown {
        digit_step(0, b':', count, value, byte)
    }

    fn tail(&self) -> Option<u8> {
        Some(b',')
    }

    fn vouch_for_heads(&self) {}
}

impl Framer for Netstring {
    ghost layer = { λ _. netstring };

    ghost scans = { λ _. headed_scan netstring_format written_number };

    fn name(&self) -> &str {
        "netstring"
    }

    fn speaks(&self, body: &[u8]) -> bool {
        is_of_size(body, 0, MOST)
    }

    fn write(&self, _index: u64, body: &[u8], out: &mut Vec<u8>) -> Result<(), NoMemory> {
        write_counted(b':', body, b",", out)
    }

    fn start(&self, index: u64) -> Scan {
        headed::start(self, index)
    }

    fn step(&self, index: u64, scan: Scan, byte: u8) -> Seen {
        headed::step(self, index, scan, byte)
    }

    fn advance(&self, index: u64, scan: Scan, bytes: &[u8]) -> Run {
        headed::advance(self, index, scan, bytes)
    }

    fn read(&self, index: u64, buffer: &[u8]) -> Sight {
        headed::read(self, index, buffer)
    }

    fn unwrap(&self, index: u64, frame: &[u8], out: &mut Vec<u8>) -> Result<(), NoMemory> {
        headed::unwrap(self, index, frame, out)
    }

    fn vouch(&self, _index: u64) {
        headed::vouch(self);
    }
}
