// The numbers that are written are of 64 bits, since those of the code are.
ghost use Rattle.taps_log.specs.Entries.{IsHow, IsWritten};
ghost use Rattle.taps_log_laws.specs.EntriesOf.{entry_of_answer, entry_of_item, entry_of_outcome, how_of};

use taps_socket::{How, Item, RaceAnswer};
use taps_text::Outcome;

/// The numbers of an item.
pub(crate) fn bound_item(item: &Item)
    ensures { IsWritten (entry_of_item item.now) }
{
    match item {
        Item::Began { at } => {
            let _at = *at;
        }
        Item::Started {
            leaf,
            target: _,
            socket,
            at,
        } => {
            let _numbers = (*leaf, *socket, *at);
        }
        Item::Refused {
            leaf,
            target: _,
            cause: _,
            at,
        } => {
            let _numbers = (*leaf, *at);
        }
        Item::Waited { until, at, how } => {
            bound_how(*how);
            let _numbers = (*until, *at);
        }
        Item::Closed { socket } => {
            let _socket = *socket;
        }
        Item::Listening {
            target: _,
            socket,
            at,
        } => {
            let _numbers = (*socket, *at);
        }
        Item::NotListening {
            target: _,
            cause: _,
            at,
        } => {
            let _at = *at;
        }
        Item::Accepted {
            listener,
            socket,
            at,
        } => {
            let _numbers = (*listener, *socket, *at);
        }
        Item::Faulted { at } => {
            let _at = *at;
        }
        Item::Shut { socket } => {
            let _socket = *socket;
        }
        Item::Ended { socket } => {
            let _socket = *socket;
        }
        Item::DataFailed {
            socket,
            sending: _,
            cause: _,
        } => {
            let _socket = *socket;
        }
    }
}

// The numbers of how a wait ended.
fn bound_how(how: How)
    ensures { IsHow (how_of how) }
{
    match how {
        How::Reached => {}
        How::Completed(_) => {}
        How::Broke(_, _) => {}
        How::Faulted => {}
    }
}

/// The numbers of an answer.
pub(crate) fn bound_answer(answer: RaceAnswer)
    ensures { IsWritten (entry_of_answer answer) }
{
    match answer {
        RaceAnswer::Ready { .. } => {}
        RaceAnswer::NoCandidate => {}
        RaceAnswer::AllFailed => {}
        RaceAnswer::Timeout => {}
        RaceAnswer::Closed => {}
        RaceAnswer::SocketFault => {}
    }
}

/// The numbers of an outcome.
pub(crate) fn bound_outcome(outcome: Outcome)
    ensures { IsWritten (entry_of_outcome outcome) }
{
    match outcome {
        Outcome::Done => {}
        Outcome::Timed => {}
        Outcome::DataFailed(_) => {}
        Outcome::PeerEnded => {}
        Outcome::BadFrame { .. } => {}
        Outcome::NotSpeakable { .. } => {}
        Outcome::Expired { .. } => {}
        Outcome::CloneLimit(_) => {}
        Outcome::CloneAllFailed => {}
        Outcome::CloneTimeout => {}
        Outcome::SocketFault => {}
    }
}
