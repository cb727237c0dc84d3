ghost use Rattle.std.specs.Prelude.{◌≡◌};

use taps_exchange::Outcome;

/// How a session's part behind its race ends (local).
#[derive(Clone, Copy, Debug, PartialEq, Eq)]
pub enum GroupOutcome {
    /// The members exchanged their messages, and this came of it.
    Exchanged(Outcome),
    /// No clone was made, since the group has so many members.
    CloneLimit(u64),
    /// The one attempt of a clone was refused, or its socket broke.
    CloneAllFailed,
    /// The time for a clone had passed.
    CloneTimeout,
    /// A wait of a clone was faulted.
    SocketFault,
}
