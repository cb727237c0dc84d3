ghost use Rattle.std.specs.Prelude.{◌≡◌, ◌≤◌, true, length};

use std::alloc::{AllocError, Global};
use std::process::Abort;
use std::test::Fail;
use taps_base::NoMemory;
use taps_framer::{
    Framer, Run, Seen, Sight, advance_in, name_in, read_in, speaks_in, start_in, step_in,
    unwrap_in, vouch_in, write_in,
};
use taps_frames::{Counted, Len16, Len32, Line, Netstring, Seq, Stuffed, Tag, Varint};

// The places of the framers on a shelf.
const LEN16: usize = 0;

const LEN32: usize = 1;

const VARINT: usize = 2;

const NETSTRING: usize = 3;

const COUNTED: usize = 4;

const LINE: usize = 5;

const STUFFED: usize = 6;

const TAG: usize = 7;

const SEQ: usize = 8;

fn fill(alloc: Global, shelf: &mut Vec<Box<dyn Framer>>) -> Result<(), Fail> {
    shelf.push(Box::new(alloc, Len16)?)?;
    shelf.push(Box::new(alloc, Len32)?)?;
    shelf.push(Box::new(alloc, Varint)?)?;
    shelf.push(Box::new(alloc, Netstring)?)?;
    shelf.push(Box::new(alloc, Counted)?)?;
    shelf.push(Box::new(alloc, Line)?)?;
    shelf.push(Box::new(alloc, Stuffed)?)?;
    shelf.push(Box::new(alloc, Tag { kind: 77 })?)?;
    shelf.push(Box::new(alloc, Seq)?)?;
    Ok(())
}

// The frame of a body, and the body of that frame.
fn there_and_back(
    alloc: Global,
    framer: &Box<dyn Framer>,
    index: u64,
    body: &[u8],
) -> Result<(Vec<u8>, Vec<u8>), NoMemory>
    requires { (layer framer.now).speaks body.now ≡ true }
{
    let mut frame = Vec::new(alloc);
    write_in(framer, index, body, &mut frame)?;
    vouch_in(framer, index);
    let mut again = Vec::new(alloc);
    unwrap_in(framer, index, &frame, &mut again)?;
    Ok((frame, again))
}

// Whether a frame without its last bytes, however many, is waited for.
fn waits_at_each_cut(framer: &Box<dyn Framer>, index: u64, frame: &[u8]) -> bool {
    for cut in 0..frame.len() {
        if read_in(framer, index, &frame[..cut]) != Sight::Need {
            return false;
        }
    }
    true
}

// What is seen of a buffer byte by byte.
fn by_steps(framer: &Box<dyn Framer>, index: u64, buffer: &[u8]) -> Sight {
    let mut scan = start_in(framer, index);
    for place in 0..buffer.len() {
        match step_in(framer, index, scan, buffer[place]) {
            Seen::More(next) => scan = next,
            Seen::Whole => return Sight::Whole { used: place + 1 },
            Seen::Bad => return Sight::Bad { place },
        }
    }
    Sight::Need
}

// What a run sees that follows `before` bytes.
fn sight_behind(before: usize, run: Run) -> Sight {
    match run {
        Run::More(_) => Sight::Need,
        Run::Whole { used } => Sight::Whole {
            used: before.saturating_add(used),
        },
        Run::Bad { place } => Sight::Bad {
            place: before.saturating_add(place),
        },
    }
}

// What is seen of a buffer that comes in two slices.
fn in_two(framer: &Box<dyn Framer>, index: u64, buffer: &[u8], cut: usize) -> Sight
    requires { cut ≤ length buffer.now }
{
    let front = &buffer[..cut];
    match advance_in(framer, index, start_in(framer, index), front) {
        Run::More(scan) => sight_behind(cut, advance_in(framer, index, scan, &buffer[cut..])),
        run => sight_behind(0, run),
    }
}

// Whether a buffer is seen the same at once, byte by byte, and cut into two slices at each place.
fn is_seen_alike(framer: &Box<dyn Framer>, index: u64, buffer: &[u8]) -> bool {
    let sight = read_in(framer, index, buffer);
    if by_steps(framer, index, buffer) != sight {
        return false;
    }
    for cut in 0..buffer.len() {
        if in_two(framer, index, buffer, cut) != sight {
            return false;
        }
    }
    true
}

// The place of a framer, an index, some bytes, and what it sees at their front.
static SEEN: [(usize, u64, &[u8], Sight); 23] = [
    (LEN16, 0, b"\0", Sight::Need),
    (LEN32, 0, b"\0\x10\0\x01", Sight::Bad { place: 3 }),
    (LEN32, 0, b"\0\x10\x01", Sight::Bad { place: 2 }),
    (LEN32, 0, b"\0\x11", Sight::Bad { place: 1 }),
    (LEN32, 0, b"\x01\x11", Sight::Bad { place: 0 }),
    (VARINT, 0, b"\x40\x40", Sight::Need),
    (VARINT, 0, b"\x40\x3f", Sight::Bad { place: 1 }),
    (VARINT, 0, b"\x80\0", Sight::Need),
    (VARINT, 0, b"\x80\0\x3f", Sight::Bad { place: 2 }),
    (VARINT, 0, b"\x80\0\x40", Sight::Need),
    (VARINT, 0, b"\x80\x10\0\x01", Sight::Bad { place: 3 }),
    (VARINT, 0, b"\xc0", Sight::Bad { place: 0 }),
    (NETSTRING, 0, b"01:a,", Sight::Bad { place: 1 }),
    (NETSTRING, 0, b"65536:", Sight::Bad { place: 4 }),
    (NETSTRING, 0, b"1:ab", Sight::Bad { place: 3 }),
    (NETSTRING, 0, b":", Sight::Bad { place: 0 }),
    (COUNTED, 0, b"0", Sight::Bad { place: 0 }),
    (COUNTED, 0, b"65536 ", Sight::Bad { place: 4 }),
    (COUNTED, 0, b"1:", Sight::Bad { place: 1 }),
    (STUFFED, 0, b"\xc0", Sight::Whole { used: 1 }),
    (STUFFED, 0, b"\xdb\x01", Sight::Bad { place: 1 }),
    (TAG, 0, b"\x4e", Sight::Bad { place: 0 }),
    (SEQ, 1, b"\0\0\0\0\0\0\0\0", Sight::Bad { place: 7 }),
];

fn sees(
    rt: &impl Abort,
    framer: &Box<dyn Framer>,
    (place, index, bytes, sight): &(usize, u64, &[u8], Sight),
) {
    assert_eq!(rt;
        read_in(framer, *index, bytes),
        *sight,
        "{place} at {bytes:?}"
    );
    assert!(rt; is_seen_alike(framer, *index, bytes), "{place}");
}

#[test]
fn sees_what_stands_there(rt: HostRuntime) -> Result<(), Fail> {
    let mut shelf = Vec::new(rt.alloc());
    fill(rt.alloc(), &mut shelf)?;
    for row in &SEEN {
        sees(&rt, shelf.get(row.0).ok_or("a framer")?, row);
    }
    Ok(())
}

// The place of a framer, its name, an index, a body, and its frame.
static FRAMED: [(usize, &str, u64, &[u8], &[u8]); 11] = [
    (LEN16, "len16", 0, b"hi", b"\0\x02hi"),
    (LEN32, "len32", 0, b"hi", b"\0\0\0\x02hi"),
    (VARINT, "varint", 0, b"hi", b"\x02hi"),
    (NETSTRING, "netstring", 0, b"hi", b"2:hi,"),
    (NETSTRING, "netstring", 0, b"", b"0:,"),
    (COUNTED, "counted", 0, b"hi", b"2 hi"),
    (LINE, "line", 0, b"hi", b"hi\n"),
    (LINE, "line", 0, b"", b"\n"),
    (
        STUFFED,
        "stuffed",
        0,
        b"\xdbh\xc0",
        b"\xdb\xddh\xdb\xdc\xc0",
    ),
    (TAG, "tag", 0, b"hi", b"\x4d\0\x02hi"),
    (SEQ, "seq", 258, b"hi", b"\0\0\0\0\0\0\x01\x02\0\0\0\x02hi"),
];

// The body is framed so, and comes back.
fn frames(
    rt: &impl Abort,
    alloc: Global,
    framer: &Box<dyn Framer>,
    (_, name, index, body, wanted): &(usize, &str, u64, &[u8], &[u8]),
) -> Result<(), NoMemory> {
    assert_eq!(rt; name_in(framer), *name);
    assert!(rt; speaks_in(framer, body), "{name}");
    let (frame, again) = there_and_back(alloc, framer, *index, body)?;
    assert_eq!(rt; frame.as_slice(), *wanted, "{name}");
    assert_eq!(rt; again.as_slice(), *body, "{name}");
    Ok(())
}

// The frame is seen whole, with a byte behind it and without, and each shorter one is waited for.
fn is_whole(
    rt: &impl Abort,
    alloc: Global,
    framer: &Box<dyn Framer>,
    (_, name, index, _, frame): &(usize, &str, u64, &[u8], &[u8]),
) -> Result<(), AllocError> {
    let used = frame.len();
    let mut longer = Vec::from_slice(alloc, frame)?;
    longer.push(255)?;
    assert!(rt; waits_at_each_cut(framer, *index, frame), "{name}");
    assert_eq!(rt;
        read_in(framer, *index, &longer),
        Sight::Whole { used },
        "{name}"
    );
    assert!(rt; is_seen_alike(framer, *index, frame), "{name}");
    assert!(rt; is_seen_alike(framer, *index, &longer), "{name}");
    Ok(())
}

#[test]
fn frames_and_opens(rt: HostRuntime) -> Result<(), Fail> {
    let mut shelf = Vec::new(rt.alloc());
    fill(rt.alloc(), &mut shelf)?;
    for row in &FRAMED {
        let framer = shelf.get(row.0).ok_or("a framer")?;
        frames(&rt, rt.alloc(), framer, row)?;
        is_whole(&rt, rt.alloc(), framer, row)?;
    }
    Ok(())
}

// The place of a framer, whether it speaks no bytes, the most that it speaks, and the length of their frame.
static LIMITS: [(usize, bool, usize, usize); 9] = [
    (LEN16, true, 65_535, 65_537),
    (LEN32, true, 1_048_576, 1_048_580),
    (VARINT, true, 1_048_576, 1_048_580),
    (NETSTRING, true, 65_535, 65_542),
    (COUNTED, false, 65_535, 65_541),
    (LINE, true, 65_535, 65_536),
    (STUFFED, true, 65_535, 65_536),
    (TAG, true, 65_535, 65_538),
    (SEQ, true, 1_048_576, 1_048_588),
];

fn keeps(
    rt: &impl Abort,
    alloc: Global,
    framer: &Box<dyn Framer>,
    (place, speaks_nothing, most, length): &(usize, bool, usize, usize),
) -> Result<(), Fail> {
    assert_eq!(rt; speaks_in(framer, b""), *speaks_nothing, "{place}");
    let mut body = vec![in alloc; b'a'; *most]?;
    speaks_at_length(rt, alloc, framer, &body, *length)?;
    body.push(b'a')?;
    assert!(rt; !speaks_in(framer, &body), "{place}");
    Ok(())
}

// The body is spoken, in a frame of this length.
fn speaks_at_length(
    rt: &impl Abort,
    alloc: Global,
    framer: &Box<dyn Framer>,
    body: &[u8],
    length: usize,
) -> Result<(), NoMemory> {
    assert!(rt; speaks_in(framer, body), "{length}");
    let (frame, again) = there_and_back(alloc, framer, 7, body)?;
    assert_eq!(rt;
        read_in(framer, 7, &frame),
        Sight::Whole { used: length },
        "{length}"
    );
    assert!(rt; again.as_slice() == body, "{length}");
    Ok(())
}

#[test]
fn keeps_its_limits(rt: HostRuntime) -> Result<(), Fail> {
    let mut shelf = Vec::new(rt.alloc());
    fill(rt.alloc(), &mut shelf)?;
    for row in &LIMITS {
        let framer = shelf.get(row.0).ok_or("a framer")?;
        keeps(&rt, rt.alloc(), framer, row)?;
    }
    Ok(())
}

// The place of a framer, how many bytes it looks at, which of them are no `a`, and what it sees.
static LONG: [(usize, usize, &[(usize, u8)], Sight); 8] = [
    (LINE, 65_535, &[], Sight::Need),
    (STUFFED, 65_535, &[], Sight::Need),
    (LINE, 65_536, &[(65_535, 219)], Sight::Bad { place: 65_535 }),
    (
        STUFFED,
        65_536,
        &[(65_535, 219)],
        Sight::Bad { place: 65_535 },
    ),
    (
        STUFFED,
        65_536,
        &[(0, 219), (1, 221), (65_535, 219)],
        Sight::Need,
    ),
    (
        STUFFED,
        65_537,
        &[(0, 219), (1, 221), (65_535, 219), (65_536, 219)],
        Sight::Bad { place: 65_536 },
    ),
    (
        STUFFED,
        65_538,
        &[(0, 219), (1, 221), (65_535, 219), (65_536, 220)],
        Sight::Bad { place: 65_537 },
    ),
    (
        STUFFED,
        65_538,
        &[
            (0, 219),
            (1, 221),
            (65_535, 219),
            (65_536, 220),
            (65_537, 192),
        ],
        Sight::Whole { used: 65_538 },
    ),
];

#[test]
fn sees_where_a_long_body_goes_wrong(rt: HostRuntime) -> Result<(), Fail> {
    let mut shelf = Vec::new(rt.alloc());
    fill(rt.alloc(), &mut shelf)?;
    for (place, length, others, sight) in &LONG {
        let framer = shelf.get(*place).ok_or("a framer")?;
        assert!(rt; !speaks_in(framer, b"a\nb") || *place != LINE);
        looks_at(&rt, rt.alloc(), framer, *length, others, *sight)?;
    }
    Ok(())
}

fn looks_at(
    rt: &impl Abort,
    alloc: Global,
    framer: &Box<dyn Framer>,
    length: usize,
    others: &[(usize, u8)],
    sight: Sight,
) -> Result<(), AllocError> {
    let mut bytes = vec![in alloc; b'a'; length]?;
    for (place, other) in others {
        if let Some(byte) = bytes.get_mut(*place) {
            *byte = *other;
        }
    }
    assert_eq!(rt; read_in(framer, 0, &bytes), sight, "{length}");
    Ok(())
}
