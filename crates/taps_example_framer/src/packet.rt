ghost use Rattle.std.specs.Prelude.{◌≡◌};
ghost use Rattle.taps_example_framer.specs.Packets.{packet, packet_scans};

use taps_base::NoMemory;
use taps_framer::{Framer, Scan, Seen, Sight};

/// The mark byte 0x47, and a body of 187 bytes (ISO/IEC 13818-1 section 2.4.3).
#[derive(Clone, Copy, Debug)]
pub struct Packet;

// The scan of so many bytes of a packet.
fn part(length: u64) -> Scan
    ensures { result ≡ record { phase = 0; length = length; rest = 0 } }
{
    Scan {
        phase: 0,
        length,
        rest: 0,
    }
}

impl Framer for Packet {
    ghost layer = { λ _. packet };

    ghost scans = { λ _. packet_scans };

    fn name(&self) -> &str {
        "packet"
    }

    fn speaks(&self, body: &[u8]) -> bool {
        body.len() == 187
    }

    fn write(&self, _index: u64, body: &[u8], out: &mut Vec<u8>) -> Result<(), NoMemory> {
        out.reserve(188)?;
        out.push(0x47)?;
        out.extend_from_slice(body)?;
        Ok(())
    }

    fn read(&self, _index: u64, buffer: &[u8]) -> Sight {
        if buffer.len() == 0 {
            return Sight::Need;
        }
        if buffer[0] != 0x47 {
            return Sight::Bad { place: 0 };
        }
        if buffer.len() < 188 {
            return Sight::Need;
        }
        Sight::Whole { used: 188 }
    }

    fn unwrap(&self, _index: u64, frame: &[u8], out: &mut Vec<u8>) -> Result<(), NoMemory> {
        out.extend_from_slice(&frame[1..])?;
        Ok(())
    }

    fn start(&self, _index: u64) -> Scan {
        part(0)
    }

    fn step(&self, _index: u64, scan: Scan, byte: u8) -> Seen {
        if scan.length == 0 {
            if byte != 0x47 {
                return Seen::Bad;
            }
            return Seen::More(part(1));
        }
        if scan.length == 187 {
            return Seen::Whole;
        }
        Seen::More(part(scan.length + 1))
    }

    #[tactic(auto, using(crate::proofs::PacketLaws::packet_is_framer))]
    fn vouch(&self, _index: u64) {}
}
