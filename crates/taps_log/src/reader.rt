// Reads the lines of a log.
ghost use Rattle.std.specs.Prelude.{◌≡◌, ◌++◌, Some, codes, option_map, IfSome};
ghost use Rattle.taps_log.specs.Entries.{Entry, IsWritten, entry_of};
ghost use Rattle.taps_log.specs.LogLines.{ending_line, entry_text, line_text};
ghost use Rattle.taps_log.specs.LogLines.{gap_text, how_text, moment_text, start_text};
ghost use Rattle.taps_log.specs.Reading as reading;

use crate::line::{Cause, Ending, How, Line, Start};
use crate::parts::{
    after, before, begins_with_digit, cause_after, cause_then, is, last_cause, last_number, moment,
    number, number_after, number_then, three_numbers_after, two_numbers_after, up_to_last_space,
    up_to_space,
};

/// What a line of a log says, without the end of the line, if it is the line of anything: each line
/// whose numbers are of 64 bits is read as what it says, and no other text is read.
pub fn read_line(text: &[u8]) -> Option<Line<'_>>
    ensures found { IfSome result (λ line. line_text line ≡ text.now) }
    ensures back { (entry : Entry) → IsWritten entry → entry_text entry ≡ text.now
        → option_map entry_of result ≡ Some entry }
{
    entry_in(text)
}

#[tactic(auto, unfolding(crate::specs::Reading::entry_in))]
fn entry_in(text: &[u8]) -> Option<Line<'_>>
    ensures found { IfSome result (λ line. line_text line ≡ text.now) }
    ensures reads { option_map entry_of result ≡ reading.entry_in text.now }
{
    if begins_with_digit(text) {
        leaf_line(text)
    } else {
        worded_line(text)
    }
}

#[tactic(auto, unfolding(crate::specs::Reading::worded_line))]
fn worded_line(text: &[u8]) -> Option<Line<'_>>
    ensures found { IfSome result (λ line. line_text line ≡ text.now) }
    ensures reads { option_map entry_of result ≡ reading.worded_line text.now }
{
    if let Some(rest) = after(b"start ", text) {
        return started(rest);
    }
    if let Some(rest) = after(b"wait ", text) {
        return waited(rest);
    }
    race_line(text)
}

// The other lines of a race, or of what follows it.
#[tactic(auto, unfolding(crate::specs::Reading::race_line))]
fn race_line(text: &[u8]) -> Option<Line<'_>>
    ensures found { IfSome result (λ line. line_text line ≡ text.now) }
    ensures reads { option_map entry_of result ≡ reading.race_line text.now }
{
    if let Some(at) = number_after(b"begin ", text) {
        return Some(Line::Began(at));
    }
    if let Some(socket) = number_after(b"close ", text) {
        return Some(Line::Closed(socket));
    }
    if let Some(leaf) = number_after(b"ready ", text) {
        return Some(Line::Ready(leaf));
    }
    socket_line(text)
}

#[tactic(auto, unfolding(crate::specs::Reading::started))]
fn started(text: &[u8]) -> Option<Line<'_>>
    ensures found { IfSome result (λ line. line_text line ≡ codes "start " ++ text.now) }
    ensures reads { option_map entry_of result ≡ reading.started text.now }
{
    let (leaf, rest) = number(text)?;
    let (start, rest) = start(rest)?;
    let at = moment(rest)?;
    Some(Line::Started { leaf, start, at })
}

#[tactic(auto, unfolding(crate::specs::Reading::start))]
fn start(text: &[u8]) -> Option<(Start, &[u8])>
    ensures found { IfSome result (λ p. start_text p.0 p.1.now ≡ text.now) }
    ensures reads { option_map (λ p. (p.0, p.1.now)) result ≡ reading.start text.now }
{
    if let Some(rest) = after(b" socket ", text) {
        return start_socket(rest);
    }
    start_refused(after(b" refused ", text)?)
}

#[tactic(auto, unfolding(crate::specs::Reading::start_refused))]
fn start_refused(text: &[u8]) -> Option<(Start, &[u8])>
    ensures found { IfSome result (λ p. start_text p.0 p.1.now ≡ codes " refused " ++ text.now) }
    ensures reads { option_map (λ p. (p.0, p.1.now)) result ≡ reading.start_refused text.now }
{
    let (cause, rest) = up_to_space(text)?;
    Some((Start::Refused(last_cause(cause)?), rest))
}

#[tactic(auto, unfolding(crate::specs::Reading::start_socket))]
fn start_socket(text: &[u8]) -> Option<(Start, &[u8])>
    ensures found { IfSome result (λ p. start_text p.0 p.1.now ≡ codes " socket " ++ text.now) }
    ensures reads { option_map (λ p. (p.0, p.1.now)) result ≡ reading.start_socket text.now }
{
    let (socket, rest) = number(text)?;
    Some((Start::Socket(socket), rest))
}

#[tactic(auto, unfolding(crate::specs::Reading::waited))]
fn waited(text: &[u8]) -> Option<Line<'_>>
    ensures found { IfSome result (λ line. line_text line ≡ codes "wait " ++ text.now) }
    ensures reads { option_map entry_of result ≡ reading.waited text.now }
{
    let (until, rest) = number(text)?;
    let (how, rest) = how(rest)?;
    let at = last_number(rest)?;
    Some(Line::Waited { until, how, at })
}

#[tactic(auto, unfolding(crate::specs::Reading::how))]
fn how(text: &[u8]) -> Option<(How, &[u8])>
    ensures found { IfSome result (λ p. how_text p.0 p.1.now ≡ text.now) }
    ensures reads { option_map (λ p. (p.0, p.1.now)) result ≡ reading.how text.now }
{
    if let Some(rest) = after(b" reached ", text) {
        return Some((How::Reached, rest));
    }
    if let Some(rest) = after(b" faulted at ", text) {
        return Some((How::Faulted, rest));
    }
    told(text)
}

// What was told of a socket.
#[tactic(auto, unfolding(crate::specs::Reading::told))]
fn told(text: &[u8]) -> Option<(How, &[u8])>
    ensures found { IfSome result (λ p. how_text p.0 p.1.now ≡ text.now) }
    ensures reads { option_map (λ p. (p.0, p.1.now)) result ≡ reading.told text.now }
{
    if let Some(rest) = after(b" completed ", text) {
        return completed(rest);
    }
    broke(after(b" broke ", text)?)
}

#[tactic(auto, unfolding(crate::specs::Reading::completed))]
fn completed(text: &[u8]) -> Option<(How, &[u8])>
    ensures found { IfSome result (λ p. how_text p.0 p.1.now ≡ codes " completed " ++ text.now) }
    ensures reads { option_map (λ p. (p.0, p.1.now)) result ≡ reading.completed text.now }
{
    let (socket, rest) = number_then(text, b" at ")?;
    Some((How::Completed(socket), rest))
}

#[tactic(auto, unfolding(crate::specs::Reading::broke))]
fn broke(text: &[u8]) -> Option<(How, &[u8])>
    ensures found { IfSome result (λ p. how_text p.0 p.1.now ≡ codes " broke " ++ text.now) }
    ensures reads { option_map (λ p. (p.0, p.1.now)) result ≡ reading.broke text.now }
{
    let (socket, rest) = number_then(text, b" ")?;
    let (cause, rest) = cause_then(rest, b" at ")?;
    Some((How::Broke(socket, cause), rest))
}

// What came of sockets outside a race.
#[tactic(auto, unfolding(crate::specs::Reading::socket_line))]
fn socket_line(text: &[u8]) -> Option<Line<'_>>
    ensures found { IfSome result (λ line. line_text line ≡ text.now) }
    ensures reads { option_map entry_of result ≡ reading.socket_line text.now }
{
    if let Some(rest) = after(b"listen refused ", text) {
        return not_listening(rest);
    }
    if let Some(rest) = after(b"listen ", text) {
        return listening(rest);
    }
    if let Some(rest) = after(b"accept ", text) {
        return accepted(rest);
    }
    socket_end_line(text)
}

#[tactic(auto, unfolding(crate::specs::Reading::socket_end_line))]
fn socket_end_line(text: &[u8]) -> Option<Line<'_>>
    ensures found { IfSome result (λ line. line_text line ≡ text.now) }
    ensures reads { option_map entry_of result ≡ reading.socket_end_line text.now }
{
    if let Some(at) = number_after(b"faulted at ", text) {
        return Some(Line::Faulted(at));
    }
    if let Some(socket) = number_after(b"shut ", text) {
        return Some(Line::Shut(socket));
    }
    if let Some(socket) = number_after(b"ended ", text) {
        return Some(Line::Ended(socket));
    }
    if let Some(rest) = after(b"failed ", text) {
        return failed(rest);
    }
    exchange_line(text)
}

#[tactic(auto, unfolding(crate::specs::Reading::failed))]
fn failed(text: &[u8]) -> Option<Line<'_>>
    ensures found { IfSome result (λ line. line_text line ≡ codes "failed " ++ text.now) }
    ensures reads { option_map entry_of result ≡ reading.failed text.now }
{
    let (socket, rest) = number_then(text, b" ")?;
    let cause = last_cause(rest)?;
    Some(Line::Failed { socket, cause })
}

#[tactic(auto, unfolding(crate::specs::Reading::not_listening))]
fn not_listening(text: &[u8]) -> Option<Line<'_>>
    ensures found { IfSome result (λ line. line_text line ≡ codes "listen refused " ++ text.now) }
    ensures reads { option_map entry_of result ≡ reading.not_listening text.now }
{
    let (cause, rest) = cause_then(text, b" at ")?;
    let at = last_number(rest)?;
    Some(Line::NotListening { cause, at })
}

#[tactic(auto, unfolding(crate::specs::Reading::listening))]
fn listening(text: &[u8]) -> Option<Line<'_>>
    ensures found { IfSome result (λ line. line_text line ≡ codes "listen " ++ text.now) }
    ensures reads { option_map entry_of result ≡ reading.listening text.now }
{
    let (socket, rest) = number_then(text, b" ")?;
    let (address, at) = address_at(rest)?;
    Some(Line::Listening {
        socket,
        address,
        at,
    })
}

// An address, in which anything may stand, and the time behind it.
#[tactic(auto, unfolding(crate::specs::Reading::address_at))]
fn address_at(text: &[u8]) -> Option<(&[u8], u64)>
    ensures found { IfSome result (λ p. p.0.now ++ moment_text p.1 ≡ text.now) }
    ensures reads { option_map (λ p. (p.0.now, p.1)) result ≡ reading.address_at text.now }
{
    let (front, rest) = up_to_last_space(text)?;
    let address = before(b" at", front)?;
    let at = number_after(b" ", rest)?;
    Some((address, at))
}

#[tactic(auto, unfolding(crate::specs::Reading::accepted))]
fn accepted(text: &[u8]) -> Option<Line<'_>>
    ensures found { IfSome result (λ line. line_text line ≡ codes "accept " ++ text.now) }
    ensures reads { option_map entry_of result ≡ reading.accepted text.now }
{
    let (socket, rest) = number_then(text, b" from ")?;
    let (listener, rest) = number_then(rest, b" at ")?;
    let at = last_number(rest)?;
    Some(Line::Accepted {
        socket,
        listener,
        at,
    })
}

// What members sent and heard.
#[tactic(auto, unfolding(crate::specs::Reading::exchange_line))]
fn exchange_line(text: &[u8]) -> Option<Line<'_>>
    ensures found { IfSome result (λ line. line_text line ≡ text.now) }
    ensures reads { option_map entry_of result ≡ reading.exchange_line text.now }
{
    if let Some((member, count)) = two_numbers_after(b"sent ", text) {
        return Some(Line::Sent { member, count });
    }
    if let Some(rest) = after(b"received ", text) {
        return received(rest);
    }
    if let Some(rest) = after(b"part ", text) {
        return part(rest);
    }
    outcome_line(text)
}

#[tactic(auto, unfolding(crate::specs::Reading::received))]
fn received(text: &[u8]) -> Option<Line<'_>>
    ensures found { IfSome result (λ line. line_text line ≡ codes "received " ++ text.now) }
    ensures reads { option_map entry_of result ≡ reading.received text.now }
{
    let (member, rest) = number_then(text, b" ")?;
    let (number, hex) = number_then(rest, b" ")?;
    Some(Line::Received {
        member,
        number,
        hex,
    })
}

#[tactic(auto, unfolding(crate::specs::Reading::part))]
fn part(text: &[u8]) -> Option<Line<'_>>
    ensures found { IfSome result (λ line. line_text line ≡ codes "part " ++ text.now) }
    ensures reads { option_map entry_of result ≡ reading.part text.now }
{
    let (member, rest) = number_then(text, b" ")?;
    let (number, hex) = number_then(rest, b" ")?;
    Some(Line::Part {
        member,
        number,
        hex,
    })
}

// How a race or a session ended.
#[tactic(auto, unfolding(crate::specs::Reading::outcome_line))]
fn outcome_line(text: &[u8]) -> Option<Line<'_>>
    ensures found { IfSome result (λ line. line_text line ≡ text.now) }
    ensures reads { option_map entry_of result ≡ reading.outcome_line text.now }
{
    if let Some(cause) = cause_after(b"data-failed ", text) {
        return Some(Line::DataFailed(cause));
    }
    if let Some(limit) = number_after(b"clone-error limit-reached ", text) {
        return Some(Line::CloneLimit(limit));
    }
    if let Some((member, number)) = two_numbers_after(b"expired ", text) {
        return Some(Line::Expired { member, number });
    }
    frame_line(text)
}

#[tactic(auto, unfolding(crate::specs::Reading::frame_line))]
fn frame_line(text: &[u8]) -> Option<Line<'_>>
    ensures found { IfSome result (λ line. line_text line ≡ text.now) }
    ensures reads { option_map entry_of result ≡ reading.frame_line text.now }
{
    if let Some((message, layer, place)) = three_numbers_after(b"bad-frame ", text) {
        return Some(Line::BadFrame {
            message,
            layer,
            place,
        });
    }
    if let Some((member, number, layer)) = three_numbers_after(b"not-speakable ", text) {
        return Some(Line::NotSpeakable {
            member,
            number,
            layer,
        });
    }
    ending_line(text)
}

#[tactic(auto, unfolding(crate::specs::Reading::ending_line))]
fn ending_line(text: &[u8]) -> Option<Line<'_>>
    ensures found { IfSome result (λ line. line_text line ≡ text.now) }
    ensures reads { option_map entry_of result ≡ reading.ending_line text.now }
{
    match race_ending(text) {
        Some(ending) => Some(Line::Ends(ending)),
        None => plan_line(text),
    }
}

#[tactic(auto, unfolding(crate::specs::Reading::race_ending))]
fn race_ending(text: &[u8]) -> Option<Ending>
    ensures found { IfSome result (λ ending. ending_line ending ≡ text.now) }
    ensures reads { result ≡ reading.race_ending text.now }
{
    if is(text, b"establishment-error no-candidate") {
        Some(Ending::NoCandidate)
    } else if is(text, b"establishment-error all-failed") {
        Some(Ending::AllFailed)
    } else if is(text, b"establishment-error timeout") {
        Some(Ending::Timeout)
    } else if is(text, b"closed") {
        Some(Ending::Closed)
    } else if is(text, b"socket-fault") {
        Some(Ending::SocketFault)
    } else {
        session_ending(text)
    }
}

#[tactic(auto, unfolding(crate::specs::Reading::session_ending))]
fn session_ending(text: &[u8]) -> Option<Ending>
    ensures found { IfSome result (λ ending. ending_line ending ≡ text.now) }
    ensures reads { result ≡ reading.session_ending text.now }
{
    if is(text, b"done") {
        Some(Ending::Done)
    } else if is(text, b"timed") {
        Some(Ending::Timed)
    } else if is(text, b"peer-ended") {
        Some(Ending::PeerEnded)
    } else if is(text, b"clone-error all-failed") {
        Some(Ending::CloneAllFailed)
    } else if is(text, b"clone-error timeout") {
        Some(Ending::CloneTimeout)
    } else {
        None
    }
}

// How many leaves a plan has.
#[tactic(auto, unfolding(crate::specs::Reading::plan_line))]
fn plan_line(text: &[u8]) -> Option<Line<'_>>
    ensures found { IfSome result (λ line. line_text line ≡ text.now) }
    ensures reads { option_map entry_of result ≡ reading.plan_line text.now }
{
    Some(Line::Leaves(number_after(b"leaves ", text)?))
}

// A leaf of a plan.
#[tactic(auto, unfolding(crate::specs::Reading::leaf_line))]
fn leaf_line(text: &[u8]) -> Option<Line<'_>>
    ensures found { IfSome result (λ line. line_text line ≡ text.now) }
    ensures reads { option_map entry_of result ≡ reading.leaf_line text.now }
{
    let (leaf, rest) = number_then(text, b" ")?;
    let (place, rest) = up_to_last_space(rest)?;
    let gap = gap(rest)?;
    Some(Line::Leaf { leaf, place, gap })
}

#[tactic(auto, unfolding(crate::specs::Reading::gap))]
fn gap(text: &[u8]) -> Option<Option<u64>>
    ensures found { IfSome result (λ gap. gap_text gap ≡ text.now) }
    ensures reads { result ≡ reading.gap text.now }
{
    if is(text, b" +none") {
        return Some(None);
    }
    Some(Some(number_after(b" +", text)?))
}
