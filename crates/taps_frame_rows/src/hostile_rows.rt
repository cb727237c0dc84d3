ghost use Rattle.std.specs.Prelude.{◌≡◌, ◌<◌, length, IfOk};

use std::alloc::Global;
use std::process::Abort;
use std::test::Fail;
use taps_base::NoMemory;
use taps_chain::{BadAt, Chain, Ears, Heard};
use taps_framer::Framer;
use taps_frames::{Counted, Len16, Len32, Line, Netstring, Seq, Stuffed, Tag, Varint};

// The places of the framers on a shelf.
const LEN16: usize = 0;

const LEN32: usize = 1;

const VARINT: usize = 2;

const NETSTRING: usize = 3;

const COUNTED: usize = 4;

const LINE: usize = 5;

const STUFFED: usize = 6;

const TAG: usize = 7;

const SEQ: usize = 8;

fn nine(alloc: Global) -> Result<Vec<Box<dyn Framer>>, NoMemory>
    ensures { IfOk result (λ shelf. length shelf.items ≡ 9) }
{
    let mut shelf: Vec<Box<dyn Framer>> = Vec::new(alloc);
    shelf.push(Box::new(alloc, Len16)?)?;
    shelf.push(Box::new(alloc, Len32)?)?;
    shelf.push(Box::new(alloc, Varint)?)?;
    shelf.push(Box::new(alloc, Netstring)?)?;
    shelf.push(Box::new(alloc, Counted)?)?;
    shelf.push(Box::new(alloc, Line)?)?;
    shelf.push(Box::new(alloc, Stuffed)?)?;
    shelf.push(Box::new(alloc, Tag { kind: 77 })?)?;
    shelf.push(Box::new(alloc, Seq)?)?;
    Ok(shelf)
}

// A framer, and a frame of it at index 0.
const FRAMES: [(usize, &[u8]); 14] = [
    (LEN16, b"\0\x02hi"),
    (LEN16, b"\0\0"),
    (LEN32, b"\0\0\0\x02hi"),
    (VARINT, b"\x02hi"),
    (
        VARINT,
        b"\x40\x40aaaaaaaaaaaaaaaaaaaaaaaaaaaaaaaaaaaaaaaaaaaaaaaaaaaaaaaaaaaaaaaa",
    ),
    (NETSTRING, b"2:hi,"),
    (NETSTRING, b"12:hello world!,"),
    (COUNTED, b"2 hi"),
    (COUNTED, b"12 hello world!"),
    (LINE, b"hi\n"),
    (STUFFED, b"\xdb\xddh\xdb\xdc\xc0"),
    (TAG, b"\x4d\0\x02hi"),
    (SEQ, b"\0\0\0\0\0\0\0\0\0\0\0\x02hi"),
    (SEQ, b"\0\0\0\0\0\0\0\0\0\0\0\0"),
];

// A framer, and the beginning of a frame of the greatest length that it reads, of which nearly all is missing.
const CLAIMS: [(usize, &[u8]); 9] = [
    (LEN16, b"\xff\xffa"),
    (LEN32, b"\0\x10\0\0a"),
    (VARINT, b"\x80\x10\0\0a"),
    (NETSTRING, b"65535:a"),
    (COUNTED, b"65535 a"),
    (LINE, b"a"),
    (STUFFED, b"a\xdb"),
    (TAG, b"\x4d\xff\xffa"),
    (SEQ, b"\0\0\0\0\0\0\0\0\0\x10\0\0a"),
];

// A framer, what begins no frame of it, and the first place at which that is settled.
const FAULTS: [(usize, &[u8], u64); 18] = [
    (LEN32, b"\0\x10\0\x01a", 3),
    (LEN32, b"\x01", 0),
    (LEN32, b"\xff\xff\xff\xff", 0),
    (VARINT, b"\x80\x10\0\x01a", 3),
    (VARINT, b"\x40\x3f", 1),
    (VARINT, b"\xc0", 0),
    (NETSTRING, b"65536:", 4),
    (NETSTRING, b"655350", 5),
    (NETSTRING, b"01:", 1),
    (NETSTRING, b"2:hi;", 4),
    (COUNTED, b"65536 ", 4),
    (COUNTED, b"0", 0),
    (COUNTED, b" ", 0),
    (STUFFED, b"a\xdba", 2),
    (TAG, b"\x4c", 0),
    (SEQ, b"\0\0\0\0\0\0\0\x01", 7),
    (SEQ, b"\0\0\0\0\0\0\0\0\0\x10\0\x01a", 11),
    (SEQ, b"\0\0\0\0\0\0\0\0\xff", 8),
];

// What is heard of bytes through one framer of the shelf.
fn hears(
    alloc: Global,
    shelf: &Vec<Box<dyn Framer>>,
    framer: usize,
    bytes: &[u8],
) -> Result<Heard, NoMemory>
    requires shelf { length shelf.now.items ≡ 9 }
{
    if framer >= 9 || bytes.len() > 100 {
        return Err(NoMemory);
    }
    let chain = Chain::new(alloc, shelf, &[framer])?;
    let mut ears = Ears::new(alloc, chain)?;
    match ears.feed(bytes) {
        Ok(()) => Ok(ears.next_message()),
        Err(_) => Err(NoMemory),
    }
}

// More has to come of each beginning of a frame, and the frame is a message.
fn waits_for_the_rest<R: Abort>(
    rt: &R,
    alloc: Global,
    shelf: &Vec<Box<dyn Framer>>,
    framer: usize,
    frame: &[u8],
) -> Result<(), Fail>
    requires shelf { length shelf.now.items ≡ 9 }
{
    for cut in 0..frame.len() {
        let heard = hears(alloc, shelf, framer, &frame[..cut]);
        assert!(rt; matches!(heard, Ok(Heard::Need)), "{framer} cut at {cut}");
    }
    let heard = hears(alloc, shelf, framer, frame);
    assert!(rt; matches!(heard, Ok(Heard::Message(_))), "{framer}");
    Ok(())
}

#[test]
fn frames_cut_at_each_place_need_more(rt: HostRuntime) -> Result<(), Fail> {
    let Ok(shelf) = nine(rt.alloc()) else {
        return Err("memory".into());
    };
    for (framer, frame) in FRAMES {
        waits_for_the_rest(&rt, rt.alloc(), &shelf, framer, frame)?;
    }
    Ok(())
}

#[test]
fn lengths_that_never_come_need_more(rt: HostRuntime) -> Result<(), Fail> {
    let Ok(shelf) = nine(rt.alloc()) else {
        return Err("memory".into());
    };
    for (framer, claim) in CLAIMS {
        let heard = hears(rt.alloc(), &shelf, framer, claim);
        assert!(rt; matches!(heard, Ok(Heard::Need)), "{framer}");
    }
    Ok(())
}

#[test]
fn limits_are_passed_at_their_place(rt: HostRuntime) -> Result<(), Fail> {
    let Ok(shelf) = nine(rt.alloc()) else {
        return Err("memory".into());
    };
    for (framer, bytes, place) in FAULTS {
        let bad = BadAt {
            message: 0,
            layer: 0,
            place,
        };
        match hears(rt.alloc(), &shelf, framer, bytes) {
            Ok(Heard::Bad(at)) => assert_eq!(rt; at, bad, "{framer}"),
            _ => assert!(rt; false, "{framer} at {place}"),
        }
    }
    Ok(())
}
