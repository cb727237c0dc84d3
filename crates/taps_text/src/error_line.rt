ghost use Rattle.std.specs.Prelude.{◌≡◌, ◌<◌, length, IfOk};
ghost use Rattle.taps_text.specs.ErrorLines as lines;

use crate::part::Part::{Shown, Words};
use crate::part::{append, append_parts};
use crate::refusal::{Refusal, append_refusal};
use std::alloc::Global;
use taps_base::NoMemory;

/// The line for arguments that are no command.
pub fn usage_line() -> &'static [u8]
    ensures { result.now ≡ lines.usage_line }
{
    b"taps: usage\n"
}

/// The line where the file of this name fails a check.
#[tactic(auto, unfolding(crate::specs::ErrorLines::refused_line))]
pub fn refused_line(alloc: Global, name: &[u8], why: &Refusal) -> Result<Vec<u8>, NoMemory>
    ensures text { IfOk result (λ line. line.items ≡ lines.refused_line name.now why.now) }
    ensures some { IfOk result (λ line. 0 < length line.items) }
{
    let mut line = Vec::new(alloc);
    append_parts(
        &mut line,
        &[Words(b"taps: refused "), Shown(name), Words(b": ")],
    )?;
    append_refusal(&mut line, why)?;
    append(&mut line, b"\n")?;
    Ok(line)
}

/// The line where the file of this name could not be read.
#[tactic(auto, unfolding(crate::specs::ErrorLines::fault_line))]
pub fn fault_line(alloc: Global, name: &[u8]) -> Result<Vec<u8>, NoMemory>
    ensures text { IfOk result (λ line. line.items ≡ lines.fault_line name.now) }
    ensures some { IfOk result (λ line. 0 < length line.items) }
{
    let mut line = Vec::new(alloc);
    append_parts(
        &mut line,
        &[Words(b"taps: file fault "), Shown(name), Words(b"\n")],
    )?;
    Ok(line)
}

/// The line where the output did not take the text.
pub fn output_fault_line() -> &'static [u8]
    ensures { result.now ≡ lines.output_fault_line }
{
    b"taps: output fault\n"
}

/// The line where memory ran out.
pub fn no_memory_line() -> &'static [u8]
    ensures { result.now ≡ lines.no_memory_line }
{
    b"taps: no memory\n"
}
