//! Measures the framers. `taps_frames_bench BYTES FRAMER WORK` writes so many bytes of bodies as one
//! stream of frames, and reads it back. FRAMER is a framer's name or `all`, and WORK is `write`,
//! `read` or `open`, each with those before it. `taps_frames_bench FILE CHAIN hear PIECE` hears the
//! messages of a file's bytes in pieces of so many, through `line`, `stuffed` or `len16` over
//! `netstring`. It prints counts alone.
#![tactic(auto)]

ghost use Rattle.std.specs.Prelude.{◌<◌, ◌≤◌, length, IfOk, All};

use std::alloc::{AllocError, Global};
use std::{env, fs};
use taps_base::{Body, List, NoMemory};
use taps_chain::{Chain, hear_bytes};
use taps_framer::{Framer, Sight, name_in, read_in, speaks_in, unwrap_in, vouch_in, write_in};
use taps_frames::{Counted, Len16, Len32, Line, Netstring, Seq, Stuffed, Tag, Varint};

/// The length of each body.
const LENGTH: u64 = 1_024;

/// How much is done.
#[derive(Clone, Copy, PartialEq, Eq)]
enum Work {
    Write,
    Read,
    Open,
}

/// What is asked for.
#[derive(Drop)]
struct Task {
    bytes: u64,
    chosen: Option<String>,
    work: Work,
}

/// What was done.
#[derive(Clone, Copy)]
struct Counts {
    framed: u64,
    frames: u64,
    opened: u64,
}

fn main(rt: HostRuntime) -> anyhow::Result<()> {
    let alloc = rt.alloc();
    let mut shelf: Vec<Box<dyn Framer>> = Vec::new(alloc);
    shelf.push(Box::new(alloc, Len16)?)?;
    shelf.push(Box::new(alloc, Len32)?)?;
    shelf.push(Box::new(alloc, Varint)?)?;
    shelf.push(Box::new(alloc, Netstring)?)?;
    shelf.push(Box::new(alloc, Counted)?)?;
    shelf.push(Box::new(alloc, Line)?)?;
    shelf.push(Box::new(alloc, Stuffed)?)?;
    shelf.push(Box::new(alloc, Tag { kind: 77 })?)?;
    shelf.push(Box::new(alloc, Seq)?)?;
    if let Some(words) = hear_words(&rt)? {
        return hear(&rt, &shelf, &words);
    }
    let task = read_task(&rt)?;
    let body = make_body(alloc)?;
    for framer in &shelf {
        let name = name_in(framer);
        if is_chosen(&task.chosen, name) {
            let counts = measure(alloc, framer, task.bytes, &body, task.work)
                .ok()
                .ok_or(AllocError)?;
            println!(rt;
                "{name} framed {} frames {} opened {}",
                counts.framed, counts.frames, counts.opened
            )?;
        }
    }
    Ok(())
}

// A file whose messages are to be heard.
#[derive(Drop)]
struct HearWords {
    file: String,
    chain: String,
    piece: usize,
}

// The words `FILE CHAIN hear PIECE`, if they stand on the command line.
fn hear_words(rt: &HostRuntime) -> anyhow::Result<Option<HearWords>> {
    let mut words = env::args(rt)?.skip(1);
    let (file, chain, work) = match (words.next(), words.next(), words.next()) {
        (Some(file), Some(chain), Some(work)) => (file, chain, work),
        _ => return Ok(None),
    };
    if work.as_str() != "hear" {
        return Ok(None);
    }
    let piece = match words.next() {
        Some(word) => word.parse::<usize>().unwrap_or(1),
        None => 1,
    };
    Ok(Some(HearWords { file, chain, piece }))
}

// Hears the messages of a file's bytes, and prints how many there are.
fn hear(rt: &HostRuntime, shelf: &Vec<Box<dyn Framer>>, words: &HearWords) -> anyhow::Result<()> {
    let bytes = fs::read(rt, words.file.as_str())?;
    if shelf.len() < 9 {
        return Ok(());
    }
    let count = match words.chain.as_str() {
        "line" => count_heard(rt.alloc(), shelf, &[5], &bytes, words.piece),
        "stuffed" => count_heard(rt.alloc(), shelf, &[6], &bytes, words.piece),
        _ => count_heard(rt.alloc(), shelf, &[0, 3], &bytes, words.piece),
    };
    let count = count.ok().ok_or(AllocError)?;
    println!(rt; "{} messages {count}", words.chain.as_str())?;
    Ok(())
}

fn count_heard(
    alloc: Global,
    shelf: &Vec<Box<dyn Framer>>,
    places: &[usize],
    bytes: &[u8],
    piece: usize,
) -> Result<usize, NoMemory>
    requires some { 0 < length places.now }
    requires few { length places.now ≤ 8 }
    requires within { All (λ p. p < length shelf.now.items) places.now }
{
    let chain = Chain::new(alloc, shelf, places)?;
    let mut sink = List::new(alloc);
    if piece > 0 && bytes.len() <= 4_194_304 {
        let _ = hear_bytes(chain, bytes, piece, &mut sink);
    }
    Ok(sink.len())
}

// What the words on the command line ask for.
fn read_task(rt: &HostRuntime) -> anyhow::Result<Task> {
    let mut words = env::args(rt)?.skip(1);
    let bytes = match words.next() {
        Some(word) => word.parse::<u64>().unwrap_or(0),
        None => 0,
    };
    let chosen = words.next();
    let work = match words.next() {
        Some(word) => work_of(word.as_str()),
        None => Work::Open,
    };
    Ok(Task {
        bytes,
        chosen,
        work,
    })
}

fn work_of(word: &str) -> Work {
    match word {
        "write" => Work::Write,
        "read" => Work::Read,
        _ => Work::Open,
    }
}

fn is_chosen(chosen: &Option<String>, name: &str) -> bool {
    match chosen {
        Some(word) => word.as_str() == name || word.as_str() == "all",
        None => true,
    }
}

// Bytes in no order, of which none ends a line.
fn make_body(alloc: Global) -> Result<Vec<u8>, AllocError> {
    let mut body = Vec::new(alloc);
    let mut state: u32 = 1;
    for _ in 0..LENGTH {
        state = state.wrapping_mul(1_103_515_245).wrapping_add(12_345);
        let byte = (state / 65_536 % 256) as u8;
        body.push(if byte == b'\n' { b'-' } else { byte })?;
    }
    Ok(body)
}

fn measure(
    alloc: Global,
    framer: &Box<dyn Framer>,
    bytes: u64,
    body: &[u8],
    work: Work,
) -> Result<Counts, NoMemory> {
    let mut stream = Vec::new(alloc);
    if speaks_in(framer, body) {
        for index in 0..bytes / LENGTH {
            write_in(framer, index, body, &mut stream)?;
        }
    }
    let mut counts = Counts {
        framed: stream.len() as u64,
        frames: 0,
        opened: 0,
    };
    if work != Work::Write {
        read_back(alloc, framer, &stream, work, &mut counts)?;
    }
    Ok(counts)
}

fn read_back(
    alloc: Global,
    framer: &Box<dyn Framer>,
    stream: &[u8],
    work: Work,
    counts: &mut Counts,
) -> Result<(), NoMemory> {
    let mut back = Vec::new(alloc);
    let mut rest = stream;
    while !rest.is_empty() {
        let used = take_frame(framer, counts.frames, rest, work, &mut back)?;
        if used == 0 {
            break;
        }
        rest = &rest[used..];
        counts.frames = counts.frames.saturating_add(1);
        counts.opened = counts.opened.saturating_add(back.len() as u64);
        back.clear();
    }
    Ok(())
}

// The number of bytes of the frame that the bytes begin with, whose body is put behind the others.
fn take_frame(
    framer: &Box<dyn Framer>,
    index: u64,
    bytes: &[u8],
    work: Work,
    back: &mut Vec<u8>,
) -> Result<usize, NoMemory>
    ensures { IfOk result (λ used. used ≤ length bytes.now) }
{
    let used = match read_in(framer, index, bytes) {
        Sight::Whole { used } => used,
        _ => return Ok(0),
    };
    vouch_in(framer, index);
    let frame = &bytes[..used];
    if work == Work::Open {
        unwrap_in(framer, index, frame, back)?;
    }
    Ok(used)
}
