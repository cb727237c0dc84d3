// Frames of a head, a body of the length that the head tells, and a tail.
ghost use Rattle.std.specs.Prelude.{◌≡◌, ◌+◌, ◌<◌, ◌≤◌, ◌++◌, ◌∷◌, [], ℕ, List, length, take, vec_len, vec_capacity, IsOk, OnOk, OnErr};
ghost use Rattle.taps_framer.specs.declared.scan.Scan.{Scan};
ghost use Rattle.taps_framer.specs.Layers.{IsWholeFrame, IsFramer};
ghost use Rattle.taps_framer.specs.Sights.{IsSight};
ghost use Rattle.taps_framer.specs.Scans.{Represents, IsSeen, IsRun};
ghost use Rattle.taps_frames.specs.Formats.{Format, headed};
ghost use Rattle.taps_frames.specs.Heads.{IsHead, IsGrown};
ghost use Rattle.taps_frames.specs.Scans.{IsHeadPart, IsBodyPart, headed_scan, IsLawfulFormat, tail_of};

use crate::head::{Grown, Head, body_of};
use crate::runs::{seen_of, sight_of};
use taps_base::NoMemory;
use taps_framer::{Run, Scan, Seen, Sight};

/// The phase of a scan in a head: `length` of its bytes came, and make the number `rest`.
const HEAD: u64 = 0;

/// The phase of a scan behind a head that tells a body of `length` bytes: `rest` bytes of the frame
/// are missing.
const BODY: u64 = 1;

/// A framer whose frames are a head, a body and a tail of at most one byte.
pub(crate) trait Headed {
    ghost format: { Self → Format };

    ghost number: { Self → ℕ → List ℕ → ℕ };

    /// The head at the start of a buffer.
    fn head_in(&self, index: u64, buffer: &[u8]) -> Head
        ensures { IsHead (format self.now) index buffer.now result };

    /// What `count` bytes of a head, which make this number, are with one byte more.
    fn head_with(&self, index: u64, count: u64, value: u64, byte: u8) -> Grown
        requires { (x : List ℕ) × IsHeadPart (format self.now) (number self.now) index count value x }
        ensures { (x : List ℕ) → IsHeadPart (format self.now) (number self.now) index count value x →
            IsGrown (format self.now) (number self.now) index (x ++ byte ∷ []) result };

    /// The byte that follows a body.
    fn tail(&self) -> Option<u8>
        ensures { tail_of result ≡ (format self.now).tail };

    /// Nothing. Generic code learns the laws of the heads by a call.
    fn vouch_for_heads(&self)
        ensures { IsLawfulFormat (format self.now) (number self.now) };
}

/// The scan of no bytes.
pub(crate) fn start<H: Headed>(framer: &H, _index: u64) -> Scan
    ensures { Represents (headed (H.format framer.now))
        (headed_scan (H.format framer.now) (H.number framer.now)) _index result [] }
{
    framer.vouch_for_heads();
    Scan {
        phase: HEAD,
        length: 0,
        rest: 0,
    }
}

/// How many bytes follow a body.
fn tail_len(tail: Option<u8>) -> u64
    ensures { result ≡ length (tail_of tail) }
{
    match tail {
        None => 0,
        Some(_) => 1,
    }
}

/// Looks at the next byte of a head.
fn step_head<H: Headed>(framer: &H, index: u64, scan: Scan, byte: u8) -> Seen
    requires { (x : List ℕ) × IsHeadPart (H.format framer.now) (H.number framer.now) index scan.length scan.rest x }
    ensures { (x : List ℕ) → IsHeadPart (H.format framer.now) (H.number framer.now) index scan.length scan.rest x →
        IsSeen (headed (H.format framer.now))
        (headed_scan (H.format framer.now) (H.number framer.now)) index (x ++ byte ∷ []) result }
{
    framer.vouch_for_heads();
    match framer.head_with(index, scan.length, scan.rest, byte) {
        Grown::Need { value } => Seen::More(Scan {
            phase: HEAD,
            length: scan.length + 1,
            rest: value,
        }),
        Grown::Bad => Seen::Bad,
        Grown::Whole { size } => {
            let rest = size as u64 + tail_len(framer.tail());
            if rest == 0 {
                Seen::Whole
            } else {
                Seen::More(Scan {
                    phase: BODY,
                    length: size as u64,
                    rest,
                })
            }
        }
    }
}

/// Looks at bytes of a body and of the tail, from a place on.
fn advance_body<H: Headed>(framer: &H, _index: u64, scan: Scan, bytes: &[u8], place: usize) -> Run
    requires inside { place ≤ length bytes.now }
    requires some { 0 < scan.rest }
    ensures { (x : List ℕ) → IsBodyPart (H.format framer.now) _index scan.length scan.rest (x ++ take place bytes.now) →
        IsRun (headed (H.format framer.now))
        (headed_scan (H.format framer.now) (H.number framer.now)) _index x bytes.now result }
{
    framer.vouch_for_heads();
    let left = (bytes.len() - place) as u64;
    if left < scan.rest {
        return Run::More(Scan {
            phase: BODY,
            length: scan.length,
            rest: scan.rest - left,
        });
    }
    let last = place + (scan.rest - 1) as usize;
    match framer.tail() {
        None => Run::Whole { used: last + 1 },
        Some(tail) => {
            if bytes[last] == tail {
                Run::Whole { used: last + 1 }
            } else {
                Run::Bad { place: last }
            }
        }
    }
}

/// Looks at the next bytes of a frame: at each of the head, and at no more than the last of the rest.
pub(crate) fn advance<H: Headed>(framer: &H, index: u64, scan: Scan, bytes: &[u8]) -> Run
    requires { (x : List ℕ) × Represents (headed (H.format framer.now))
        (headed_scan (H.format framer.now) (H.number framer.now)) index scan x }
    ensures { (x : List ℕ) → Represents (headed (H.format framer.now))
        (headed_scan (H.format framer.now) (H.number framer.now)) index scan x →
        IsRun (headed (H.format framer.now))
        (headed_scan (H.format framer.now) (H.number framer.now)) index x bytes.now result }
{
    let mut reached = scan;
    for place in 0..bytes.len() {
        if reached.phase == BODY {
            return advance_body(framer, index, reached, bytes, place);
        }
        match step_head(framer, index, reached, bytes[place]) {
            Seen::More(next) => reached = next,
            Seen::Whole => return Run::Whole { used: place + 1 },
            Seen::Bad => return Run::Bad { place },
        }
    }
    Run::More(reached)
}

/// Looks at the next byte of a frame.
pub(crate) fn step<H: Headed>(framer: &H, index: u64, scan: Scan, byte: u8) -> Seen
    requires { (x : List ℕ) × Represents (headed (H.format framer.now))
        (headed_scan (H.format framer.now) (H.number framer.now)) index scan x }
    ensures { (x : List ℕ) → Represents (headed (H.format framer.now))
        (headed_scan (H.format framer.now) (H.number framer.now)) index scan x →
        IsSeen (headed (H.format framer.now))
        (headed_scan (H.format framer.now) (H.number framer.now)) index (x ++ byte ∷ []) result }
{
    if scan.phase == BODY {
        seen_of(advance_body(framer, index, scan, &[byte], 0))
    } else {
        step_head(framer, index, scan, byte)
    }
}

/// What stands at the start of a buffer.
pub(crate) fn read<H: Headed>(framer: &H, index: u64, buffer: &[u8]) -> Sight
    ensures { IsSight (headed (H.format framer.now)) index buffer.now result }
{
    framer.vouch_for_heads();
    sight_of(advance(framer, index, start(framer, index), buffer))
}

/// Appends the body of a frame.
pub(crate) fn unwrap<H: Headed>(
    framer: &H,
    index: u64,
    frame: &[u8],
    out: &mut Vec<u8>,
) -> Result<(), NoMemory>
    requires { IsWholeFrame (headed (H.format framer.now)) index frame.now }
    ensures given { OnOk result
        (out.new.items ≡ out.old.items ++ (headed (H.format framer.now)).front index frame.now) }
    ensures unchanged { OnErr result (out.new.items ≡ out.old.items) }
    ensures room { vec_len out.old + length frame.now ≤ vec_capacity out.old → IsOk result }
{
    framer.vouch_for_heads();
    out.extend_from_slice(body_of(framer.head_in(index, frame), frame))?;
    Ok(())
}

/// Nothing: its clause has the laws of the frames at every index.
pub(crate) fn vouch<H: Headed>(framer: &H)
    ensures { IsFramer (headed (H.format framer.now)) }
{
    framer.vouch_for_heads();
}
