// What is proved of every session of a group.
ghost use Rattle.taps_cloning.specs.OwnSockets.{HaveOwnSockets};

/// The members of a session of a group have sockets of their own, each of which is live until it is
/// closed; and so it is where memory cut the session short.
#[tactic(auto, using(crate::proofs::Apart::own_sockets))]
pub fn vouch_unique_groups()
    ensures { HaveOwnSockets }
{}
