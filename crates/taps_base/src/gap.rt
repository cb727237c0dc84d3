/// How long a race waits between two attempts (RFC 8305 section 5).
#[derive(Clone, Copy, Debug, PartialEq, Eq)]
pub enum Gap {
    /// At least so many milliseconds.
    After(u64),
    /// Until the attempts before have failed.
    Never,
}
