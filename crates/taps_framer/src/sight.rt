/// What a framer sees at the start of a buffer.
#[derive(Clone, Copy, Debug, PartialEq, Eq)]
pub enum Sight {
    /// The beginning of a frame, and no whole one.
    Need,
    /// A whole frame, of so many bytes.
    Whole { used: usize },
    /// No frame: with the byte at this place, counted from 0, none can come any more.
    Bad { place: usize },
}
