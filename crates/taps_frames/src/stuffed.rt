ghost use Rattle.std.specs.Prelude.{◌≡◌, ◌+◌, ◌<◌, ◌≤◌, ◌++◌, ◌∷◌, [], ℕ, List, ◌==◌, true, cond, length, take, drop, slice_index, count_by, vec_len, vec_capacity};
ghost use Rattle.taps_framer.specs.Scans.{Represents, IsSeen, IsRun};
ghost use Rattle.taps_frames.specs.Stuffed.{stuffed, stuffed_scan, IsPart, IsPlainRun, spelled, stuff, plain, is_special, are_plain};

use crate::room::{first_of, is_of_size, put};
use crate::runs::sight_of;
use memchr::{memchr2, memchr2_iter};
use taps_base::NoMemory;
use taps_framer::{Framer, Run, Scan, Seen, Sight};

/// The byte that ends a frame.
const END: u8 = 192;
/// The byte that begins the spelling of a byte by two.
const ESCAPE: u8 = 219;
/// What stands behind the escape byte for the end byte.
const ESCAPED_END: u8 = 220;
/// What stands behind the escape byte for the escape byte.
const ESCAPED_ESCAPE: u8 = 221;
/// Fewer bytes than this are looked at one by one: a search costs more to begin.
const WORTH_A_SEARCH: usize = 4;
/// A body has at most so many bytes.
const MOST: usize = 65_535;

/// The phase of a scan after a byte of the body: `length` of them came.
const SPELLED: u64 = 0;
/// The phase of a scan after an escape byte, which begins the last of `length` bytes of the body.
const ESCAPED: u64 = 1;

/// The body with two of the bytes spelled by two each, and an end byte (the byte values of RFC 1055).
#[derive(Clone, Copy, Debug)]
pub struct Stuffed;

/// The number of bytes before the first that is spelled by two.
fn plain_run(bytes: &[u8]) -> usize
    ensures within { result ≤ length bytes.now }
    ensures plain { are_plain (take result bytes.now) ≡ true }
    ensures stops { result < length bytes.now → is_special (slice_index bytes.now result) ≡ true }
{
    match memchr2(END, ESCAPE, bytes) {
        Some(place) => place,
        None => bytes.len(),
    }
}

/// How many of the bytes from a place on are found at once that are spelled by themselves and fit
/// into the body, where the byte before them is no escape byte.
fn run_from(scan: Scan, bytes: &[u8], at: usize) -> usize
    requires inside { at < length bytes.now }
    requires small { scan.length ≤ 65535 }
    ensures { IsPlainRun scan (drop at bytes.now) result }
{
    if scan.phase == ESCAPED || bytes[at] == END || bytes[at] == ESCAPE {
        return 0;
    }
    if bytes.len() - at < WORTH_A_SEARCH {
        return 0;
    }
    plain_run(first_of(&bytes[at..], MOST - scan.length as usize))
}

/// Looks at the next byte of a frame.
fn step(_index: u64, scan: Scan, byte: u8) -> Seen
    requires { (x : List ℕ) × Represents stuffed stuffed_scan _index scan x }
    ensures { (x : List ℕ) → Represents stuffed stuffed_scan _index scan x →
        IsSeen stuffed stuffed_scan _index (x ++ byte ∷ []) result }
{
    if scan.phase == ESCAPED {
        return step_escaped(_index, scan.length, byte);
    }
    if byte == END {
        return Seen::Whole;
    }
    if scan.length == MOST as u64 {
        return Seen::Bad;
    }
    if byte == ESCAPE {
        return Seen::More(Scan {
            phase: ESCAPED,
            length: scan.length + 1,
            rest: 0,
        });
    }
    Seen::More(Scan {
        phase: SPELLED,
        length: scan.length + 1,
        rest: 0,
    })
}

/// Looks at the byte that follows an escape byte.
fn step_escaped(_index: u64, length: u64, byte: u8) -> Seen
    ensures { (x : List ℕ) → IsPart x true length → length ≤ 65535 →
        IsSeen stuffed stuffed_scan _index (x ++ byte ∷ []) result }
{
    if byte == ESCAPED_END || byte == ESCAPED_ESCAPE {
        Seen::More(Scan {
            phase: SPELLED,
            length,
            rest: 0,
        })
    } else {
        Seen::Bad
    }
}

/// Looks at the next bytes of a frame, by runs of bytes that are spelled by themselves.
fn advance(_index: u64, scan: Scan, bytes: &[u8]) -> Run
    requires { (x : List ℕ) × Represents stuffed stuffed_scan _index scan x }
    ensures { (x : List ℕ) → Represents stuffed stuffed_scan _index scan x
        → IsRun stuffed stuffed_scan _index x bytes.now result }
{
    let mut reached = scan;
    let mut at = 0;
    while at < bytes.len() {
        let run = run_from(reached, bytes, at);
        at += run;
        let behind = Scan {
            phase: reached.phase,
            length: reached.length + run as u64,
            rest: 0,
        };
        if at == bytes.len() {
            return Run::More(behind);
        }
        match step(_index, behind, bytes[at]) {
            Seen::More(next) => reached = next,
            Seen::Whole => return Run::Whole { used: at + 1 },
            Seen::Bad => return Run::Bad { place: at },
        }
        at += 1;
    }
    Run::More(reached)
}

/// The number of bytes that are spelled by two.
fn special_count(body: &[u8]) -> usize
    ensures { result ≡ count_by is_special body.now }
{
    let mut places = memchr2_iter(END, ESCAPE, body);
    let mut count = 0;
    'places: while let Some(_) = places.next() {
        count += 1;
    }
    count
}

/// How a byte that is spelled by two is spelled.
fn spelling(byte: u8) -> [u8; 2]
    requires { is_special byte ≡ true }
    ensures { result ≡ spelled byte }
{
    if byte == END {
        [ESCAPE, ESCAPED_END]
    } else {
        [ESCAPE, ESCAPED_ESCAPE]
    }
}

/// The byte that an escape byte and this one spell.
fn escaped(byte: u8) -> u8
    ensures { result ≡ cond (byte == 221) 219 192 }
{
    if byte == ESCAPED_ESCAPE { ESCAPE } else { END }
}

/// Spells the bytes up to and with the first that is spelled by two, and gives their number.
fn write_run(rest: &[u8], out: &mut Vec<u8>) -> usize
    requires some { 0 < length rest.now }
    requires room { vec_len out.old + length (stuff rest.now) ≤ vec_capacity out.old }
    ensures some { 0 < result }
    ensures within { result ≤ length rest.now }
    ensures items { out.new.items ++ stuff (drop result rest.now) ≡ out.old.items ++ stuff rest.now }
    ensures len { vec_len out.new + length (stuff (drop result rest.now)) ≡ vec_len out.old + length (stuff rest.now) }
    ensures capacity { vec_capacity out.old ≤ vec_capacity out.new }
{
    let run = plain_run(rest);
    put(&rest[..run], out);
    if run == rest.len() {
        return run;
    }
    put(&spelling(rest[run]), out);
    run + 1
}

/// Spells a body.
fn write_all(body: &[u8], out: &mut Vec<u8>)
    requires room { vec_len out.old + length (stuff body.now) ≤ vec_capacity out.old }
    ensures items { out.new.items ≡ out.old.items ++ stuff body.now }
    ensures len { vec_len out.new ≡ vec_len out.old + length (stuff body.now) }
    ensures capacity { vec_capacity out.old ≤ vec_capacity out.new }
{
    let mut at = 0;
    while at < body.len() {
        at += write_run(&body[at..], out);
    }
}

/// Reads the spelling up to and with the first byte that is spelled by two, and gives the number of
/// bytes read.
fn read_run(rest: &[u8], out: &mut Vec<u8>) -> usize
    requires some { 0 < length rest.now }
    requires room { vec_len out.old + length rest.now ≤ vec_capacity out.old }
    ensures some { 0 < result }
    ensures within { result ≤ length rest.now }
    ensures items { out.new.items ++ plain (drop result rest.now) ≡ out.old.items ++ plain rest.now }
    ensures len { vec_len out.new ≤ vec_len out.old + result }
    ensures capacity { vec_capacity out.old ≤ vec_capacity out.new }
{
    let run = plain_run(rest);
    put(&rest[..run], out);
    if run == rest.len() || rest[run] == END {
        return rest.len();
    }
    if run + 1 == rest.len() {
        put(&[END], out);
        return rest.len();
    }
    put(&[escaped(rest[run + 1])], out);
    run + 2
}

/// Reads the spelling of a body.
fn read_all(frame: &[u8], out: &mut Vec<u8>)
    requires room { vec_len out.old + length frame.now ≤ vec_capacity out.old }
    ensures { out.new.items ≡ out.old.items ++ plain frame.now }
{
    let mut at = 0;
    while at < frame.len() {
        at += read_run(&frame[at..], out);
    }
}

/// Whether a frame begins with an end byte, so that its body is empty.
fn ends_at_once(frame: &[u8]) -> bool
    ensures { result ≡ true → plain frame.now ≡ [] }
{
    if frame.len() == 0 {
        return false;
    }
    frame[0] == END
}

impl Framer for Stuffed {
    ghost layer = { λ _. stuffed };

    ghost scans = { λ _. stuffed_scan };

    fn name(&self) -> &str {
        "stuffed"
    }

    fn speaks(&self, body: &[u8]) -> bool {
        is_of_size(body, 0, MOST)
    }

    fn write(&self, _index: u64, body: &[u8], out: &mut Vec<u8>) -> Result<(), NoMemory> {
        out.reserve(body.len() + special_count(body) + 1)?;
        write_all(body, out);
        put(&[END], out);
        Ok(())
    }

    fn start(&self, _index: u64) -> Scan {
        Scan {
            phase: SPELLED,
            length: 0,
            rest: 0,
        }
    }

    fn step(&self, index: u64, scan: Scan, byte: u8) -> Seen {
        step(index, scan, byte)
    }

    fn advance(&self, index: u64, scan: Scan, bytes: &[u8]) -> Run {
        advance(index, scan, bytes)
    }

    fn read(&self, index: u64, buffer: &[u8]) -> Sight {
        sight_of(advance(index, self.start(index), buffer))
    }

    fn unwrap(&self, _index: u64, frame: &[u8], out: &mut Vec<u8>) -> Result<(), NoMemory> {
        if ends_at_once(frame) {
            return Ok(());
        }
        out.reserve(frame.len())?;
        read_all(frame, out);
        Ok(())
    }

    fn vouch(&self, _index: u64) {}
}
