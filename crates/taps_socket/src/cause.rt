/// Why a socket could not be opened, or broke.
#[derive(Clone, Copy, Debug, PartialEq, Eq)]
pub enum Cause {
    /// Nobody listens there.
    Refused,
    /// There is no way there.
    Unreachable,
    /// The other end gave it up.
    Reset,
    /// Memory ran out below.
    Memory,
    /// Any other.
    Other,
}
