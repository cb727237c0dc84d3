ghost use Rattle.std.specs.Prelude.{◌≡◌, ◌<◌, ◌≤◌, length, take, IfSome, IfNone, IfOk};
ghost use Rattle.std.specs.Io.KnownBytes.{Appends, Keeps};
ghost use Rattle.taps_base.specs.Sinks.{Writes};

use crate::real_files::MOST_TRIES;
use crate::{NoMemory, Sink, SinkAnswer};
use std::io::{ErrorKind, Stderr, Stdout, Write};

/// A sink over a writer of std, whose bytes are observable where the writer's are: those of standard
/// output and standard error are not.
#[derive(Drop)]
pub struct StdSink<W: Write> {
    writer: W,
    writes: u64,
    faults: u64,
}

impl StdSink<Stdout> {
    /// Standard output.
    pub fn output(stdout: Stdout) -> Result<StdSink<Stdout>, NoMemory>
        ensures { IfOk result (λ sink. (sink.writes ≡ 0) × (sink.faults ≡ 0)) }
    {
        Ok(StdSink::new(stdout))
    }
}

impl StdSink<Stderr> {
    /// Standard error.
    pub fn error(stderr: Stderr) -> Result<StdSink<Stderr>, NoMemory>
        ensures { IfOk result (λ sink. (sink.writes ≡ 0) × (sink.faults ≡ 0)) }
    {
        Ok(StdSink::new(stderr))
    }
}

impl<W: Write> StdSink<W> {
    pub(crate) fn new(writer: W) -> StdSink<W>
        ensures { (result.writes ≡ 0) × (result.faults ≡ 0) }
    {
        StdSink {
            writer,
            writes: 0,
            faults: 0,
        }
    }
}

impl<W: Write> Sink for StdSink<W> {
    ghost state = { λ s. record { taken = W.contents s.writer; faults = s.faults; writes = s.writes } };

    fn write(&mut self, bytes: &[u8]) -> SinkAnswer {
        self.writes = self.writes.saturating_add(1);
        let answer = hand_over(&mut self.writer, bytes);
        if let SinkAnswer::Failed = answer {
            self.faults = self.faults.saturating_add(1);
        }
        answer
    }
}

// All the bytes, by writes that may be short, and then a flush.
#[tactic(auto, using(crate::proofs::Known::taken_then_kept, crate::proofs::Known::taken_more))]
pub(crate) fn hand_over<W: Write>(writer: &mut W, bytes: &[u8]) -> SinkAnswer
    ensures { Writes result (W.contents writer.old) (W.contents writer.new) bytes.now }
{
    let mut sent = 0;
    while sent < bytes.len() {
        match write_again(writer, &bytes[sent..]) {
            Some(0) => return SinkAnswer::Failed,
            Some(count) => sent += count,
            None => return SinkAnswer::Failed,
        }
    }
    flush_again(writer)
}

// One write. One that was interrupted is tried again; none is a fault.
#[tactic(auto, using(crate::proofs::Known::kept_then_kept, crate::proofs::Known::kept_then_taken))]
fn write_again<W: Write>(writer: &mut W, bytes: &[u8]) -> Option<usize>
    ensures bound { IfSome result (λ n. n ≤ length bytes.now) }
    ensures taken { IfSome result (λ n. Appends (W.contents writer.old) (W.contents writer.new) (take n bytes.now)) }
    ensures fault { IfNone result (Keeps (W.contents writer.old) (W.contents writer.new)) }
{
    for _ in 0..MOST_TRIES {
        match writer.write(bytes) {
            Ok(count) => return Some(count),
            Err(e) if e.kind() == ErrorKind::Interrupted => {}
            Err(_) => return None,
        }
    }
    None
}

#[tactic(auto, using(crate::proofs::Known::kept_then_kept))]
fn flush_again<W: Write>(writer: &mut W) -> SinkAnswer
    ensures { Keeps (W.contents writer.old) (W.contents writer.new) }
{
    for _ in 0..MOST_TRIES {
        match writer.flush() {
            Ok(()) => return SinkAnswer::Taken,
            Err(e) if e.kind() == ErrorKind::Interrupted => {}
            Err(_) => return SinkAnswer::Failed,
        }
    }
    SinkAnswer::Failed
}
