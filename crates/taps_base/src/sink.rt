ghost use Rattle.std.specs.Prelude.{◌<◌, length};
ghost use Rattle.taps_base.specs.Sinks.{SinkState, Receives};

/// What a sink answers to a write.
#[derive(Clone, Copy, Debug, PartialEq, Eq)]
pub enum SinkAnswer {
    /// All bytes were taken.
    Taken,
    /// A prefix of the bytes was taken, and the count of faults rose.
    Failed,
}

/// Something that takes bytes.
///
/// Contracts see the bytes that were taken, where observable, how often a write failed, and how many
/// writes were made.
pub trait Sink {
    ghost state: { Self → SinkState };

    /// Writes these bytes, of which there is at least one.
    fn write(&mut self, bytes: &[u8]) -> SinkAnswer
        requires { 0 < length bytes.now }
        ensures { Receives result (state self.old) (state self.new) bytes.now };
}
