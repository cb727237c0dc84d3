//! The program: real files, sockets and sinks, and the exit code.
#![tactic(auto)]

ghost use Rattle.std.specs.Prelude.{◌≡◌, [], ◌∷◌, ◌++◌, map, IfOk, OnOk};
ghost use Rattle.taps.specs.Nine.{nine};

mod real;
#[cfg(test)]
mod tests;

pub use real::run_real;
use std::alloc::Global;
use std::io::ErrorKind;
use std::process::ExitCode;
use std::{env, rt};
use taps_app::Status;
use taps_base::{NoMemory, Sink, StdSink};
use taps_framer::Framer;
use taps_frames::{Counted, Len16, Len32, Line, Netstring, Seq, Stuffed, Tag, Varint};

fn main(rt: HostRuntime) -> ExitCode {
    let status = match started(rt) {
        Ok(status) => status,
        Err(NoMemory) => Status::NoMemory,
    };
    ExitCode::from(status.code())
}

// Makes sinks, words and the shelf of the nine framers, and runs the command. The gate refuses a
// function that makes a box of a framer and hands it out, so the shelf is filled here.
fn started(rt: HostRuntime) -> Result<Status, NoMemory> {
    let alloc = rt.alloc();
    let mut out = StdSink::output(rt.stdout())?;
    let mut err = StdSink::error(rt.stderr())?;
    let words = match words(alloc, &rt)? {
        Some(words) => words,
        None => {
            err.write(b"taps: usage\n");
            return Ok(Status::Usage);
        }
    };
    let mut shelf: Vec<Box<dyn Framer>> = Vec::new(alloc);
    put(&mut shelf, "len16", Box::new(alloc, Len16)?)?;
    put(&mut shelf, "len32", Box::new(alloc, Len32)?)?;
    put(&mut shelf, "varint", Box::new(alloc, Varint)?)?;
    put(&mut shelf, "netstring", Box::new(alloc, Netstring)?)?;
    put(&mut shelf, "counted", Box::new(alloc, Counted)?)?;
    put(&mut shelf, "line", Box::new(alloc, Line)?)?;
    put(&mut shelf, "stuffed", Box::new(alloc, Stuffed)?)?;
    put(&mut shelf, "tag", Box::new(alloc, Tag { kind: 77 })?)?;
    put(&mut shelf, "seq", Box::new(alloc, Seq)?)?;
    Ok(run_nine(alloc, rt, &words, &mut out, &mut err, &shelf))
}

// Puts a framer of this name behind those on the shelf.
fn put(
    shelf: &mut Vec<Box<dyn Framer>>,
    name: &str,
    framer: Box<dyn Framer>,
) -> Result<(), NoMemory>
    requires { (layer framer).name ≡ name.now }
    ensures { OnOk result (map (λ b. (layer b).name) shelf.new.items
        ≡ map (λ b. (layer b).name) shelf.old.items ++ name.now ∷ []) }
{
    Ok(shelf.push(framer)?)
}

// Runs the command on the shelf of the nine.
fn run_nine<R: rt::Files + rt::Net + rt::Clock + Copy + Drop, O: Sink, E: Sink>(
    alloc: Global,
    system: R,
    words: &[String],
    out: &mut O,
    err: &mut E,
    shelf: &Vec<Box<dyn Framer>>,
) -> Status
    requires nine { map (λ b. (layer b).name) shelf.now.items ≡ nine }
{
    run_real(alloc, system, words, out, err, shelf)
}

// The words behind the program's name, where they are text.
fn words(alloc: Global, rt: &HostRuntime) -> Result<Option<Vec<String>>, NoMemory> {
    let mut words = Vec::new(alloc);
    match env::args(rt) {
        Ok(args) => {
            for word in args.skip(1) {
                words.push(word)?;
            }
            Ok(Some(words))
        }
        Err(e) => {
            if e.kind() == ErrorKind::OutOfMemory {
                Err(NoMemory)
            } else {
                Ok(None)
            }
        }
    }
}
