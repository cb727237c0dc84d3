ghost use Rattle.std.specs.Prelude.{◌≡◌, ◌<◌, ◌≤◌, ◌+◌, List, ℕ, length, take, IfSome, Option, None, vec_len, IfOk};
ghost use Rattle.std.specs.Io.KnownBytes.{Consumes, IsAtEnd};

use crate::{Body, FileAnswer, Files, NoMemory};
use std::alloc::Global;
use std::io::{ErrorKind, Read};
use std::{fs, rt};

/// How often an interrupted call is made before it counts as a fault.
pub(crate) const MOST_TRIES: u32 = 1_000_000;

/// How many bytes are read at once.
const PIECE: usize = 65_536;

/// The files of the system, whose contents no contract sees.
#[derive(Drop)]
pub struct RealFiles<R> {
    alloc: Global,
    system: R,
    buffer: Vec<u8>,
    last_failed: Option<String>,
    faults: u64,
    reads: u64,
    ghost some: { 0 < vec_len buffer },
}

impl<R: rt::Files + Drop> RealFiles<R> {
    ghost use Rattle.taps_base.specs.RealFiles.{real_files_state};

    /// The files that this runtime reaches, of which none was read.
    pub fn new(alloc: Global, system: R) -> Result<RealFiles<R>, NoMemory>
        ensures { IfOk result (λ files.
            real_files_state files ≡ record { contents = None; faults = 0; last_failed = None; reads = 0 }) }
    {
        let buffer = vec![in alloc; 0; PIECE]?;
        Ok(RealFiles {
            alloc,
            system,
            buffer,
            last_failed: None,
            faults: 0,
            reads: 0,
        })
    }
}

impl<R: rt::Files> Files for RealFiles<R> {
    ghost use Rattle.taps_base.specs.RealFiles.{real_files_state};

    ghost state = { λ files. real_files_state files };

    fn read(&mut self, name: &str, max: u64) -> FileAnswer {
        self.reads = self.reads.saturating_add(1);
        let failed = match String::from_str(self.alloc, name) {
            Ok(failed) => failed,
            Err(_) => return FileAnswer::NoMemory,
        };
        let answer = open_and_take(&self.system, self.alloc, name, &mut self.buffer, max);
        if let FileAnswer::Failed = answer {
            self.faults = self.faults.saturating_add(1);
            self.last_failed = Some(failed);
        }
        answer
    }
}

fn open_and_take<R: rt::Files>(
    system: &R,
    alloc: Global,
    name: &str,
    buffer: &mut [u8],
    max: u64,
) -> FileAnswer
    requires { 0 < length buffer.old }
    ensures { (body : List ℕ) → result ≡ FileAnswer.Bytes body → length body ≤ max }
{
    match fs::open(system, name) {
        Ok(mut file) => take_all(alloc, &mut file, buffer, max),
        Err(_) => FileAnswer::Failed,
    }
}

// All that a reader has left, by reads that may be short. At most `max` and one bytes are held.
#[tactic(auto, using(crate::proofs::Known::given_past, crate::proofs::Known::given_all))]
pub(crate) fn take_all<F: Read>(
    alloc: Global,
    file: &mut F,
    buffer: &mut [u8],
    max: u64,
) -> FileAnswer
    requires { 0 < length buffer.old }
    ensures short { (body : List ℕ) → result ≡ FileAnswer.Bytes body → length body ≤ max }
    ensures whole { (body : List ℕ) → result ≡ FileAnswer.Bytes body
        → IfSome (F.remaining file.old) (λ all. body ≡ all) }
    ensures long { result ≡ FileAnswer.TooLong → IfSome (F.remaining file.old) (λ all. max < length all) }
{
    let mut bytes = Vec::new(alloc);
    loop {
        let room = max - bytes.len() as u64;
        let most = most_at_once(room, buffer.len());
        match take_piece(file, &mut buffer[..most], &mut bytes) {
            Piece::End => return FileAnswer::Bytes(Body::from_vec(bytes)),
            Piece::Got => {
                if bytes.len() as u64 > max {
                    return FileAnswer::TooLong;
                }
            }
            Piece::Failed => return FileAnswer::Failed,
            Piece::NoMemory => return FileAnswer::NoMemory,
        }
    }
}

// One byte more than there is room for, as far as the buffer goes.
fn most_at_once(room: u64, buffer: usize) -> usize
    requires { 0 < buffer }
    ensures some { 0 < result }
    ensures within { result ≤ buffer }
    ensures one_more { result ≤ room + 1 }
{
    if room < buffer as u64 {
        room as usize + 1
    } else {
        buffer
    }
}

enum Piece {
    Got,
    End,
    Failed,
    NoMemory,
}

// Reads one piece and appends it to the bytes.
fn take_piece<F: Read>(file: &mut F, piece: &mut [u8], bytes: &mut Vec<u8>) -> Piece
    requires { 0 < length piece.old }
    ensures got { result ≡ Piece.Got
        → (vec_len bytes.old < vec_len bytes.new) × (vec_len bytes.new ≤ vec_len bytes.old + length piece.old) }
    ensures end { result ≡ Piece.End → (bytes.new.items ≡ bytes.old.items) × IsAtEnd (F.remaining file.new) }
    ensures given { (all : Option (List ℕ)) → Consumes all (F.remaining file.old) bytes.old.items
        → result ≡ Piece.Got → Consumes all (F.remaining file.new) bytes.new.items }
    ensures kept { (all : Option (List ℕ)) → Consumes all (F.remaining file.old) bytes.old.items
        → result ≡ Piece.End → Consumes all (F.remaining file.new) bytes.new.items }
{
    match read_again(file, piece) {
        Some(0) => Piece::End,
        Some(count) => match bytes.extend_from_slice(&piece[..count]) {
            Ok(()) => Piece::Got,
            Err(_) => Piece::NoMemory,
        },
        None => Piece::Failed,
    }
}

// One read. One that was interrupted is tried again; none is a fault.
#[tactic(auto, using(crate::proofs::Known::kept_then_kept, crate::proofs::Known::kept_then_given))]
fn read_again<F: Read>(file: &mut F, buffer: &mut [u8]) -> Option<usize>
    ensures bound { IfSome result (λ n. n ≤ length buffer.old) }
    ensures given { IfSome result (λ n. Consumes (F.remaining file.old) (F.remaining file.new) (take n buffer.new)) }
    ensures end { IfSome result (λ n. n ≡ 0 → 0 < length buffer.old → IsAtEnd (F.remaining file.new)) }
{
    for _ in 0..MOST_TRIES {
        match file.read(buffer) {
            Ok(count) => return Some(count),
            Err(e) if e.kind() == ErrorKind::Interrupted => {}
            Err(_) => return None,
        }
    }
    None
}
