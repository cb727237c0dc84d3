use taps_text::Refusal;

/// Why a command wrote no text, or not all of it. A file is told by its place among the names.
#[derive(Debug, Drop)]
pub enum Stop {
    /// A file fails a check.
    Refused(usize, Refusal),
    /// A file could not be read.
    FileFault(usize),
    /// The output did not take the text.
    SinkFault,
    /// Memory ran out.
    NoMemory,
}

/// Why the bytes of a file give no value.
#[derive(Debug, Drop)]
pub enum Unready {
    /// They fail this check.
    Refused(Refusal),
    /// Memory ran out.
    NoMemory,
}
