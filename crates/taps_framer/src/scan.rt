/// How far a framer has looked into the frame that bytes begin, in numbers that mean what the framer
/// says.
#[derive(Clone, Copy, Debug, PartialEq, Eq)]
pub struct Scan {
    pub phase: u64,
    pub length: u64,
    pub rest: u64,
}

/// What a framer sees in the bytes that it has looked at, with one byte more.
#[derive(Clone, Copy, Debug, PartialEq, Eq)]
pub enum Seen {
    /// The beginning of a frame, and no whole one.
    More(Scan),
    /// One whole frame.
    Whole,
    /// No frame: none can come any more.
    Bad,
}

/// What a framer sees in the bytes that it has looked at, with further bytes up to the one that
/// settles it.
#[derive(Clone, Copy, Debug, PartialEq, Eq)]
pub enum Run {
    /// The beginning of a frame, and no whole one, with all of the further bytes.
    More(Scan),
    /// One whole frame, with so many of the further bytes.
    Whole { used: usize },
    /// No frame: with the byte at this place of the further bytes, counted from 0, none can come any
    /// more.
    Bad { place: usize },
}
