ghost use Rattle.taps_base.specs.Files.{FilesState, Answers};

use crate::Body;

/// What files answer to a read.
#[derive(Debug, Drop)]
pub enum FileAnswer {
    /// The whole content.
    Bytes(Body),
    /// The content is longer than was asked for.
    TooLong,
    /// The read failed, and the count of faults rose.
    Failed,
    /// Memory ran out.
    NoMemory,
}

/// Files by name.
///
/// Contracts see the contents where observable, how often a read failed, the name of the last that
/// did, and how many reads were made.
pub trait Files {
    ghost state: { Self → FilesState };

    /// The content of a name, if it has at most `max` bytes.
    fn read(&mut self, name: &str, max: u64) -> FileAnswer
        ensures { Answers result (state self.old) (state self.new) name.now max };
}
