// What is proved of every exchange of both ends.
ghost use Rattle.taps_loop.specs.Judged.{JudgesLoops, LoopsHearAsSent, PlainLoopsHearAsSent};

/// What an exchange of both ends says in other words: what was written, that the bytes go one way, and the cause of its
/// outcome. Where the accepted end's bytes come as the other end wrote them, the messages that it heard through framers
/// are the first of those that were sent, in order and whole, and no frame is bad; without a framer its bytes are the
/// first of theirs.
pub fn vouch_loops()
    ensures judged { JudgesLoops }
    ensures heard { LoopsHearAsSent }
    ensures plain { PlainLoopsHearAsSent }
{}
