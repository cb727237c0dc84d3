//! Draws what a log of `taps sim` or `taps run` tells as a timeline: `taps_timeline [--text] [LOG]`.
//! Without LOG it reads its input. The picture is an SVG; with `--text` it is drawn in characters.
#![tactic(auto)]

mod race;
mod scale;
mod svg;
mod text;
mod words;

use race::Race;
use std::alloc::Global;
use std::env;
use std::io::Read;
use std::process::ExitCode;
use svg::draw_svg;
use taps_base::{Body, FileAnswer, Files, NoMemory, RealFiles};
use taps_log::read_line;
use text::draw_text;

/// How many bytes a log may have.
const MOST_BYTES: u64 = 64 << 20;

// How the program ended.
#[derive(Clone, Copy)]
enum Status {
    Done,
    Usage,
    // This line, counted from 1, is no line of a log.
    BadLine(u64),
    FileFault,
    OutputFault,
    NoMemory,
}

impl Status {
    fn code(&self) -> u8 {
        match self {
            Status::Done => 0,
            Status::Usage => 2,
            Status::BadLine(_) => 3,
            Status::FileFault => 6,
            Status::OutputFault => 7,
            Status::NoMemory => 9,
        }
    }
}

// What the words ask for.
#[derive(Drop)]
struct Request {
    in_characters: bool,
    log: Option<String>,
}

impl Request {
    // Whether a word may follow those before it.
    fn takes(&mut self, word: String) -> bool {
        if self.log.is_some() {
            return false;
        }
        if word.as_str() == "--text" && !self.in_characters {
            self.in_characters = true;
        } else {
            self.log = Some(word);
        }
        true
    }
}

fn main(rt: HostRuntime) -> ExitCode {
    let status = match drawn(&rt) {
        Ok(status) => status,
        Err(NoMemory) => Status::NoMemory,
    };
    tell(&rt, &status);
    ExitCode::from(status.code())
}

fn tell(rt: &HostRuntime, status: &Status) {
    let said = match status {
        Status::Done => Ok(()),
        Status::Usage => eprintln!(rt; "usage: taps_timeline [--text] [LOG]"),
        Status::BadLine(number) => {
            eprintln!(rt; "taps_timeline: line {number} is no line of a log")
        }
        Status::FileFault => eprintln!(rt; "taps_timeline: the log cannot be read"),
        Status::OutputFault => eprintln!(rt; "taps_timeline: output fault"),
        Status::NoMemory => eprintln!(rt; "taps_timeline: no memory"),
    };
    // A fault of the error output changes no status.
    let _ = said;
}

fn drawn(rt: &HostRuntime) -> Result<Status, NoMemory> {
    match asked(rt) {
        Some(request) => drawn_as(rt, &request),
        None => Ok(Status::Usage),
    }
}

fn drawn_as(rt: &HostRuntime, request: &Request) -> Result<Status, NoMemory> {
    match log_of(rt, request)? {
        Some(log) => drawn_from(rt, request.in_characters, log.bytes()),
        None => Ok(Status::FileFault),
    }
}

fn drawn_from(rt: &HostRuntime, in_characters: bool, log: &[u8]) -> Result<Status, NoMemory> {
    let mut race = Race::new(rt.alloc());
    match take_lines(&mut race, log)? {
        Some(number) => Ok(Status::BadLine(number)),
        None => shown(rt, in_characters, &race),
    }
}

fn shown(rt: &HostRuntime, in_characters: bool, race: &Race) -> Result<Status, NoMemory> {
    let picture = if in_characters {
        draw_text(rt.alloc(), race)?
    } else {
        draw_svg(rt.alloc(), race)?
    };
    match print!(rt; "{picture}") {
        Ok(()) => Ok(Status::Done),
        Err(_) => Ok(Status::OutputFault),
    }
}

// Takes each line of a log. The number of the first that is none is the answer; a line with no end is none.
fn take_lines(race: &mut Race, log: &[u8]) -> Result<Option<u64>, NoMemory> {
    let mut number = 0u64;
    for piece in log.split_inclusive(|b| *b == b'\n') {
        number = number.saturating_add(1);
        if !take_line(race, piece)? {
            return Ok(Some(number));
        }
    }
    Ok(None)
}

// Whether it is a line of a log, with its end.
fn take_line(race: &mut Race, piece: &[u8]) -> Result<bool, NoMemory> {
    let [text @ .., b'\n'] = piece else {
        return Ok(false);
    };
    match read_line(text) {
        Some(line) => {
            race.take(&line, text)?;
            Ok(true)
        }
        None => Ok(false),
    }
}

fn asked(rt: &HostRuntime) -> Option<Request> {
    let mut request = Request {
        in_characters: false,
        log: None,
    };
    for word in env::args(rt).ok()?.skip(1) {
        if !request.takes(word) {
            return None;
        }
    }
    Some(request)
}

// The bytes of the log, unless it cannot be read.
fn log_of(rt: &HostRuntime, request: &Request) -> Result<Option<Body>, NoMemory> {
    match &request.log {
        Some(name) => file_bytes(rt, name.as_str()),
        None => input_bytes(rt),
    }
}

fn file_bytes(rt: &HostRuntime, name: &str) -> Result<Option<Body>, NoMemory> {
    let mut files = RealFiles::new(rt.alloc(), *rt)?;
    match files.read(name, MOST_BYTES) {
        FileAnswer::Bytes(body) => Ok(Some(body)),
        FileAnswer::TooLong | FileAnswer::Failed => Ok(None),
        FileAnswer::NoMemory => Err(NoMemory),
    }
}

fn input_bytes(rt: &HostRuntime) -> Result<Option<Body>, NoMemory> {
    let mut bytes = Vec::new(rt.alloc());
    match rt.stdin().take(MOST_BYTES).read_to_end(&mut bytes) {
        Ok(_) => Ok(Some(Body::from_vec(bytes))),
        Err(_) => Ok(None),
    }
}
