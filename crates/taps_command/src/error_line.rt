ghost use Rattle.std.specs.Prelude.{◌<◌, length};
ghost use Rattle.taps_text.specs.ErrorLines as lines;
ghost use Rattle.taps_command.specs.Makings.{SaysUnder};
ghost use Rattle.taps_command.specs.Runs.{Says, names_of};
ghost use Rattle.taps_command.specs.Telling.{Tells, MayTell};

use crate::status::Status;
use crate::stop::Stop;
use std::alloc::Global;
use taps_base::Sink;
use taps_text::{Refusal, fault_line, no_memory_line, output_fault_line, refused_line, usage_line};

/// One write of a line. A fault of the error output changes nothing else.
fn tell<E: Sink>(err: &mut E, line: &[u8])
    requires { 0 < length line.now }
    ensures { Tells (E.state err.old) (E.state err.new) line.now }
{
    err.write(line);
}

/// Says that there is no such command.
pub fn tell_usage<E: Sink>(err: &mut E)
    ensures { Tells (E.state err.old) (E.state err.new) lines.usage_line }
{
    tell(err, usage_line());
}

/// Says how the command ended, as far as memory is found for the line.
#[tactic(auto, using(crate::proofs::Saying::refusal_of, crate::proofs::Saying::fault_of, crate::proofs::Saying::no_refusal, crate::proofs::Saying::no_fault_line))]
pub fn say<E: Sink>(alloc: Global, err: &mut E, names: &[String], ended: &Result<Status, Stop>)
    ensures { Says (names_of names.now) (E.state err.old) (E.state err.new) ended.now }
{
    match ended {
        Ok(_) => {}
        Err(Stop::Refused(at, why)) => {
            if let Some(name) = names.get(*at) {
                tell_refusal(alloc, err, name.as_str(), why);
            }
        }
        Err(Stop::FileFault(at)) => {
            if let Some(name) = names.get(*at) {
                tell_fault(alloc, err, name.as_str());
            }
        }
        Err(Stop::SinkFault) => tell(err, output_fault_line()),
        Err(Stop::NoMemory) => tell(err, no_memory_line()),
    }
}

/// Says the same of a command that reads no file, under its name.
pub fn say_under<E: Sink>(alloc: Global, err: &mut E, name: &str, ended: &Result<Status, Stop>)
    ensures { SaysUnder name.now (E.state err.old) (E.state err.new) ended.now }
{
    match ended {
        Ok(_) => {}
        Err(Stop::Refused(_, why)) => tell_refusal(alloc, err, name, why),
        Err(Stop::FileFault(_)) => tell_fault(alloc, err, name),
        Err(Stop::SinkFault) => tell(err, output_fault_line()),
        Err(Stop::NoMemory) => tell(err, no_memory_line()),
    }
}

fn tell_refusal<E: Sink>(alloc: Global, err: &mut E, name: &str, why: &Refusal)
    ensures { MayTell (E.state err.old) (E.state err.new) (lines.refused_line name.now why.now) }
{
    if let Ok(line) = refused_line(alloc, name.as_bytes(), why) {
        tell(err, &line);
    }
}

fn tell_fault<E: Sink>(alloc: Global, err: &mut E, name: &str)
    ensures { MayTell (E.state err.old) (E.state err.new) (lines.fault_line name.now) }
{
    if let Ok(line) = fault_line(alloc, name.as_bytes()) {
        tell(err, &line);
    }
}
