ghost use Rattle.taps_frame_rows.specs.TestFramers.{pair, pair_scans};

use taps_base::NoMemory;
use taps_framer::{Framer, Scan, Seen, Sight};

/// One byte, and what it lacks of 255.
#[derive(Drop)]
pub struct Pair;

impl Framer for Pair {
    ghost layer = { λ _. pair };

    ghost scans = { λ _. pair_scans };

    fn name(&self) -> &str {
        "pair"
    }

    fn speaks(&self, body: &[u8]) -> bool {
        matches!(body, [_])
    }

    fn write(&self, _: u64, body: &[u8], out: &mut Vec<u8>) -> Result<(), NoMemory> {
        out.extend_from_slice(&[body[0], 255 - body[0]])?;
        Ok(())
    }

    fn read(&self, _: u64, buffer: &[u8]) -> Sight {
        if buffer.len() < 2 {
            return Sight::Need;
        }
        if buffer[1] == 255 - buffer[0] {
            Sight::Whole { used: 2 }
        } else {
            Sight::Bad { place: 1 }
        }
    }

    fn unwrap(&self, _: u64, frame: &[u8], out: &mut Vec<u8>) -> Result<(), NoMemory> {
        out.extend_from_slice(&frame[..1])?;
        Ok(())
    }

    fn start(&self, _: u64) -> Scan {
        Scan {
            phase: 0,
            length: 0,
            rest: 0,
        }
    }

    fn step(&self, _: u64, scan: Scan, byte: u8) -> Seen {
        if scan.phase == 0 {
            return Seen::More(Scan {
                phase: 1,
                length: byte as u64,
                rest: 0,
            });
        }
        if byte as u64 == 255u64.saturating_sub(scan.length) {
            Seen::Whole
        } else {
            Seen::Bad
        }
    }

    #[tactic(auto, using(crate::proofs::ShortPairs::pair_is_framer))]
    fn vouch(&self, _: u64) {}
}
