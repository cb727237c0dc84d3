// What is proved of every session that listens.
ghost use Rattle.taps_listening.specs.Ends.{JudgesSessions};
ghost use Rattle.taps_listening.specs.Listened.{ClosesAllSockets};

/// A session that listens closes every socket that it was given, with every end; and so it does where only its first calls
/// were made, and then the closes of what was open.
#[tactic(auto, using(crate::proofs::Closed::closes_all_sockets))]
pub fn vouch_closed()
    ensures { ClosesAllSockets }
{}

/// What the end of a session says in other words: its cause; and of each connection that it heard enough before it accepted
/// messages, and what it wrote.
pub fn vouch_ends()
    ensures { JudgesSessions }
{}
