ghost use Rattle.taps_frame_rows.specs.TestFramers.{short, short_scans};

use taps_base::NoMemory;
use taps_framer::{Framer, Scan, Seen, Sight};

/// A length byte, and so many bytes.
#[derive(Drop)]
pub struct Short;

impl Framer for Short {
    ghost layer = { λ _. short };

    ghost scans = { λ _. short_scans };

    fn name(&self) -> &str {
        "short"
    }

    fn speaks(&self, body: &[u8]) -> bool {
        body.len() < 256
    }

    fn write(&self, _: u64, body: &[u8], out: &mut Vec<u8>) -> Result<(), NoMemory> {
        out.reserve(1 + body.len())?;
        out.push(body.len() as u8)?;
        out.extend_from_slice(body)?;
        Ok(())
    }

    fn read(&self, _: u64, buffer: &[u8]) -> Sight {
        if buffer.len() < 1 {
            return Sight::Need;
        }
        let length = buffer[0] as usize;
        if length < buffer.len() {
            Sight::Whole { used: 1 + length }
        } else {
            Sight::Need
        }
    }

    fn unwrap(&self, _: u64, frame: &[u8], out: &mut Vec<u8>) -> Result<(), NoMemory> {
        out.extend_from_slice(&frame[1..])?;
        Ok(())
    }

    fn start(&self, _: u64) -> Scan {
        Scan {
            phase: 0,
            length: 0,
            rest: 0,
        }
    }

    fn step(&self, _: u64, scan: Scan, byte: u8) -> Seen {
        if scan.phase == 0 {
            if byte == 0 {
                return Seen::Whole;
            }
            return Seen::More(Scan {
                phase: 1,
                length: 0,
                rest: byte as u64,
            });
        }
        if scan.rest <= 1 {
            return Seen::Whole;
        }
        Seen::More(Scan {
            phase: 1,
            length: 0,
            rest: scan.rest - 1,
        })
    }

    #[tactic(auto, using(crate::proofs::ShortPairs::short_is_framer))]
    fn vouch(&self, _: u64) {}
}
