ghost use Rattle.std.specs.Prelude.{◌≡◌, ◌≤◌, ℕ, Some};
ghost use Rattle.taps_text.specs.Appends.{Appends};
ghost use Rattle.taps_text.specs.Log.{answer_lines, after_lines, end_lines, log_lines};

use crate::answer::put_answer;
use crate::item::put_items;
use crate::member::{MemberLog, put_members};
use crate::outcome::{Outcome, put_outcome};
use taps_base::NoMemory;
use taps_socket::{Item, RaceAnswer};

/// What the log of a session tells after its plan text. The items stand oldest first.
#[derive(Clone, Copy)]
pub struct Log<'a> {
    /// The items up to the answer.
    pub before: &'a [Item],
    /// The answer, where a session has a line of one.
    pub answer: Option<RaceAnswer>,
    /// The items after it.
    pub after: &'a [Item],
    /// What the members sent and heard, by place.
    pub members: &'a [MemberLog],
    /// The most bytes of a printed part, if messages are printed in parts.
    pub part: Option<u64>,
    pub outcome: Outcome,
}

/// Appends the log of a session to its plan text. Any answer but a ready one ends the log.
#[tactic(auto, unfolding(crate::specs::Log::log_lines))]
pub fn put_log(text: &mut Vec<u8>, log: &Log<'_>) -> Result<(), NoMemory>
    requires part { (most : ℕ) → log.now.part ≡ Some most → 1 ≤ most }
    ensures { Appends result text.old.items text.new.items
        (log_lines log.now.before.now log.now.answer log.now.after.now log.now.part
        log.now.members.now log.now.outcome) }
{
    put_items(text, log.before)?;
    put_answer_if(text, log.answer)?;
    put_end(text, log)
}

/// Appends the line of the answer, if there is one.
pub fn put_answer_if(text: &mut Vec<u8>, answer: Option<RaceAnswer>) -> Result<(), NoMemory>
    ensures { Appends result text.old.items text.new.items (answer_lines answer) }
{
    match answer {
        Some(answer) => put_answer(text, answer),
        None => Ok(()),
    }
}

// What follows the answer.
fn put_end(text: &mut Vec<u8>, log: &Log<'_>) -> Result<(), NoMemory>
    requires part { (most : ℕ) → log.now.part ≡ Some most → 1 ≤ most }
    ensures { Appends result text.old.items text.new.items
        (end_lines log.now.answer (after_lines log.now.after.now log.now.part log.now.members.now log.now.outcome)) }
{
    match log.answer {
        None => put_after(text, log),
        Some(
            RaceAnswer::Ready {
                leaf: _,
                socket: _,
                at: _,
            },
        ) => put_after(text, log),
        Some(RaceAnswer::NoCandidate) => Ok(()),
        Some(RaceAnswer::AllFailed) => Ok(()),
        Some(RaceAnswer::Timeout) => Ok(()),
        Some(RaceAnswer::Closed) => Ok(()),
        Some(RaceAnswer::SocketFault) => Ok(()),
    }
}

// The items after the answer, the members and the outcome.
fn put_after(text: &mut Vec<u8>, log: &Log<'_>) -> Result<(), NoMemory>
    requires part { (most : ℕ) → log.now.part ≡ Some most → 1 ≤ most }
    ensures { Appends result text.old.items text.new.items
        (after_lines log.now.after.now log.now.part log.now.members.now log.now.outcome) }
{
    put_items(text, log.after)?;
    put_members(text, log.part, log.members)?;
    put_outcome(text, log.outcome)
}
