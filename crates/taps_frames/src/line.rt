ghost use Rattle.std.specs.Prelude.{◌≡◌, ◌-◌, ◌<◌, ◌≤◌, ◌++◌, ◌∷◌, [], ℕ, List, true, length, take, slice_index};
ghost use Rattle.taps_framer.specs.Scans.{Represents, IsSeen, IsRun};
ghost use Rattle.taps_frames.specs.Line.{line, line_scan, is_one_line};

use crate::room::{first_of, is_of_size, write_parts};
use crate::runs::sight_of;
use memchr::memchr;
use taps_base::NoMemory;
use taps_framer::{Framer, Run, Scan, Seen, Sight};

/// A body has at most so many bytes.
const MOST: usize = 65_535;

/// A body without a line's end, and the end (this project's own).
#[derive(Clone, Copy, Debug)]
pub struct Line;

/// The number of bytes before the first line's end.
fn line_len(bytes: &[u8]) -> usize
    ensures within { result ≤ length bytes.now }
    ensures one { is_one_line (take result bytes.now) ≡ true }
    ensures ends { result < length bytes.now → slice_index bytes.now result ≡ 10 }
{
    match memchr(b'\n', bytes) {
        Some(place) => place,
        None => bytes.len(),
    }
}

/// Looks at the next byte of a line.
fn step(_index: u64, scan: Scan, byte: u8) -> Seen
    requires { (x : List ℕ) × Represents line line_scan _index scan x }
    ensures { (x : List ℕ) → Represents line line_scan _index scan x →
        IsSeen line line_scan _index (x ++ byte ∷ []) result }
{
    if byte == b'\n' {
        return Seen::Whole;
    }
    if scan.length == MOST as u64 {
        return Seen::Bad;
    }
    Seen::More(Scan {
        phase: 0,
        length: scan.length + 1,
        rest: 0,
    })
}

/// Looks at the next bytes of a line, at no more than a frame has.
fn advance(_index: u64, scan: Scan, bytes: &[u8]) -> Run
    requires { (x : List ℕ) × Represents line line_scan _index scan x }
    ensures { (x : List ℕ) → Represents line line_scan _index scan x → IsRun line line_scan _index x bytes.now result }
{
    let room = MOST - scan.length as usize;
    let place = line_len(first_of(bytes, room + 1));
    if place > room {
        return Run::Bad { place: room };
    }
    if place == bytes.len() {
        return Run::More(Scan {
            phase: 0,
            length: scan.length + place as u64,
            rest: 0,
        });
    }
    Run::Whole { used: place + 1 }
}

/// The bytes but for the last.
fn but_last(frame: &[u8]) -> &[u8]
    requires { 1 ≤ length frame.now }
    ensures { result.now ≡ take (length frame.now - 1) frame.now }
{
    &frame[..frame.len() - 1]
}

impl Framer for Line {
    ghost layer = { λ _. line };

    ghost scans = { λ _. line_scan };

    fn name(&self) -> &str {
        "line"
    }

    fn speaks(&self, body: &[u8]) -> bool {
        is_of_size(body, 0, MOST) && line_len(body) == body.len()
    }

    fn write(&self, _index: u64, body: &[u8], out: &mut Vec<u8>) -> Result<(), NoMemory> {
        write_parts(&[], body, b"\n", out)
    }

    fn start(&self, _index: u64) -> Scan {
        Scan {
            phase: 0,
            length: 0,
            rest: 0,
        }
    }

    fn step(&self, index: u64, scan: Scan, byte: u8) -> Seen {
        step(index, scan, byte)
    }

    fn advance(&self, index: u64, scan: Scan, bytes: &[u8]) -> Run {
        advance(index, scan, bytes)
    }

    fn read(&self, index: u64, buffer: &[u8]) -> Sight {
        sight_of(advance(index, self.start(index), buffer))
    }

    fn unwrap(&self, _index: u64, frame: &[u8], out: &mut Vec<u8>) -> Result<(), NoMemory> {
        out.extend_from_slice(but_last(frame))?;
        Ok(())
    }

    fn vouch(&self, _index: u64) {}
}
