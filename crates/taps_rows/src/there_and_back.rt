// What is framed is heard again, through chains of framers.
use crate::frame_rows::{file_with, frame_row, unframe_row};
use crate::row::{holds, nine, status_of};
use std::alloc::{AllocError, Global};
use std::process::Abort;
use std::test::Fail;
use taps_app::Status;
use taps_base::{MemorySink, NoMemory};
use taps_memory::MemoryNet;

const SHORT: &[usize] = &[0, 1, 255, 256];

const SOME: &[usize] = &[1, 255, 256];

const LONG: &[usize] = &[0, 1, 255, 256, 65_535];

const LONGEST: &[usize] = &[0, 1, 255, 256, 65_535, 65_536];

// Each framer, with those of the six lengths that it speaks.
static SINGLE: [(&str, &[usize]); 9] = [
    ("\"len16\"", LONG),
    ("\"len32\"", LONGEST),
    ("\"varint\"", LONGEST),
    ("\"netstring\"", LONG),
    ("\"counted\"", &[1, 255, 256, 65_535]),
    ("\"line\"", LONG),
    ("\"stuffed\"", LONG),
    ("\"tag\"", LONG),
    ("\"seq\"", LONGEST),
];

// Chains in which a frame of the longer ones is too long for the layer around it.
static SHORT_CHAINS: [(&str, &[usize]); 10] = [
    ("\"len16\", \"netstring\"", SHORT),
    ("\"netstring\", \"len16\"", SHORT),
    ("\"stuffed\", \"varint\"", SHORT),
    ("\"tag\", \"seq\"", SHORT),
    ("\"line\", \"counted\"", SOME),
    ("\"tag\", \"tag\"", SHORT),
    ("\"seq\", \"tag\", \"line\"", SHORT),
    ("\"counted\", \"stuffed\", \"len32\"", SHORT),
    ("\"netstring\", \"netstring\", \"counted\"", SOME),
    ("\"stuffed\", \"stuffed\", \"netstring\"", SHORT),
];

// Chains that speak the longer ones too.
static LONG_CHAINS: [(&str, &[usize]); 10] = [
    ("\"len32\", \"line\"", LONG),
    ("\"varint\", \"stuffed\"", LONG),
    ("\"seq\", \"netstring\"", LONG),
    ("\"len32\", \"counted\"", &[1, 255, 256, 65_535]),
    ("\"varint\", \"tag\"", LONG),
    ("\"seq\", \"len16\"", LONG),
    ("\"len32\", \"seq\"", LONGEST),
    ("\"varint\", \"varint\", \"varint\"", LONGEST),
    ("\"seq\", \"seq\", \"len32\"", LONGEST),
    (
        "\"len32\", \"varint\", \"seq\", \"len32\", \"varint\", \"seq\", \"len32\", \"varint\"",
        LONGEST,
    ),
];

// Messages of these lengths, as tables.
fn messages(alloc: Global, lengths: &[usize]) -> Result<String, AllocError> {
    let mut text = String::new(alloc);
    for length in lengths {
        let body = vec![in alloc; b'x'; *length]?;
        let body = str::from_utf8(&body).unwrap_or("");
        writeln!(text, "[[message]]\ntext = \"{body}\"")?;
    }
    Ok(text)
}

// The digits of so many bytes.
fn digits(alloc: Global, length: usize) -> Result<String, AllocError> {
    let mut text = String::new(alloc);
    if length == 0 {
        text.push_str("-")?;
    }
    for _ in 0..length {
        text.push_str("78")?;
    }
    Ok(text)
}

// What is heard of messages of these lengths.
fn heard(alloc: Global, lengths: &[usize]) -> Result<String, AllocError> {
    let mut text = String::new(alloc);
    for (number, length) in lengths.iter().enumerate() {
        let digits = digits(alloc, *length)?;
        writeln!(text, "message {number} {digits}")?;
    }
    text.push_str("rest 0\n")?;
    Ok(text)
}

// What a file's messages are framed as.
fn framed<R: Abort>(rt: &R, alloc: Global, file: &str) -> Result<Vec<u8>, NoMemory> {
    let mut out = MemorySink::new(alloc, 1_000_000, None)?;
    let mut err = MemorySink::new(alloc, 200, None)?;
    assert_eq!(rt; frame(alloc, file, &mut out, &mut err)?, Status::Done);
    Ok(bytes_of(alloc, out.bytes())?)
}

// Frames the messages of a file.
fn frame(
    alloc: Global,
    file: &str,
    out: &mut MemorySink,
    err: &mut MemorySink,
) -> Result<Status, NoMemory> {
    let mut net = MemoryNet::new(alloc, 1, 1, &[])?;
    let shelf = nine(alloc)?;
    status_of(alloc, &frame_row(file, "", 0), out, err, &mut net, &shelf)
}

// The bytes that lines of digits stand for.
fn bytes_of(alloc: Global, lines: &[u8]) -> Result<Vec<u8>, AllocError> {
    let mut bytes = Vec::new(alloc);
    let mut first = None;
    for digit in lines.iter().copied().filter(|byte| *byte != b'\n') {
        first = match first {
            None => Some(value(digit)),
            Some(high) => {
                bytes.push(high << 4 | value(digit))?;
                None
            }
        };
    }
    Ok(bytes)
}

fn value(digit: u8) -> u8 {
    match digit {
        b'0'..=b'9' => digit - b'0',
        b'a'..=b'f' => digit - b'a' + 10,
        _ => 0,
    }
}

// Frames messages of these lengths, and hears them.
fn comes_back<R: Abort>(
    rt: &R,
    alloc: Global,
    framers: &str,
    lengths: &[usize],
) -> Result<(), Fail> {
    let messages = messages(alloc, lengths)?;
    let file = file_with(alloc, framers, &messages)?;
    is_heard(rt, alloc, &file, lengths)
}

// What the messages of the file are framed as is heard as messages of these lengths.
fn is_heard<R: Abort>(rt: &R, alloc: Global, file: &str, lengths: &[usize]) -> Result<(), Fail> {
    let bytes = framed(rt, alloc, file)?;
    let out = heard(alloc, lengths)?;
    holds(rt, alloc, &unframe_row(file, &bytes, &out, 0))
}

#[test]
fn through_one_framer(rt: HostRuntime) -> Result<(), Fail> {
    let alloc = rt.alloc();
    for (framers, lengths) in &SINGLE {
        comes_back(&rt, alloc, framers, lengths)?;
    }
    Ok(())
}

#[test]
fn through_chains(rt: HostRuntime) -> Result<(), Fail> {
    let alloc = rt.alloc();
    for (framers, lengths) in &SHORT_CHAINS {
        comes_back(&rt, alloc, framers, lengths)?;
    }
    Ok(())
}

#[test]
fn through_chains_of_long_frames(rt: HostRuntime) -> Result<(), Fail> {
    let alloc = rt.alloc();
    for (framers, lengths) in &LONG_CHAINS {
        comes_back(&rt, alloc, framers, lengths)?;
    }
    Ok(())
}
