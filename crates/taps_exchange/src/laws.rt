// What is proved of every exchange.
ghost use Rattle.std.specs.Prelude.{List};
ghost use Rattle.taps_socket.specs.Calls.{Call, Request};
ghost use Rattle.taps_exchange.specs.Accepting.{AcceptsAll};
ghost use Rattle.taps_exchange.specs.Alone.{OneIsAlone};
ghost use Rattle.taps_exchange.specs.Firsts.{DatagramsAreHeard, StreamsAreHeard};
ghost use Rattle.taps_exchange.specs.Outcomes.{JudgesExchanges};
ghost use Rattle.taps_exchange.specs.Scripts.{ExchangeIsUnique};
ghost use Rattle.taps_exchange.specs.Turns.{Turn};

/// A script determines an exchange and its outcome, whatever the role is.
pub fn vouch_unique()
    ensures unique { (script : List Call → Request → Call) (turn : List Call → Turn) → ExchangeIsUnique script turn }
{}

/// What an exchange of one member says in other words: the bytes written, the cause of its outcome, its timed calls and
/// its items.
pub fn vouch_outcomes()
    ensures judged { JudgesExchanges }
{}

/// An exchange of a group of one member is that of the member alone.
pub fn vouch_alone()
    ensures alone { OneIsAlone }
{}

/// What is heard of a stream and of datagrams is what their bytes decode to through the chain.
pub fn vouch_hearing()
    ensures streams { StreamsAreHeard }
    ensures datagrams { DatagramsAreHeard }
{}

/// Messages that are few and short enough, of which a final one is the last, are all accepted.
#[tactic(auto, using(crate::proofs::Accepting::accepts_all))]
pub fn vouch_accepting()
    ensures { AcceptsAll }
{}
