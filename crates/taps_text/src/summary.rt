// What is told of a session over a generated file and script.
ghost use Rattle.std.specs.Prelude.{◌≡◌, count_by};
ghost use Rattle.taps_text.specs.Appends.{Appends};
ghost use Rattle.taps_text.specs.Log.{end_lines};
ghost use Rattle.taps_text.specs.OutcomeLines.{outcome_line};
ghost use Rattle.taps_text.specs.Summary as summaries;
ghost use Rattle.taps_text.specs.Summary.{count_lines, summary_lines};

use crate::log::put_answer_if;
use crate::outcome::{Outcome, put_outcome};
use crate::part::Part::{Number, Words};
use crate::part::append_parts;
use taps_base::NoMemory;
use taps_socket::{How, Item, RaceAnswer};

/// What the summary of a session tells.
#[derive(Clone, Copy)]
pub struct Summary<'a> {
    /// The number that generated its file and script.
    pub number: u32,
    /// How many leaves its plan has.
    pub leaves: u64,
    /// The items of its race.
    pub race: &'a [Item],
    /// The answer of its race, where a session has a line of one.
    pub answer: Option<RaceAnswer>,
    /// How many messages its first member heard.
    pub received: u64,
    pub outcome: Outcome,
}

/// Appends the summary to the text. Any answer but a ready one has no outcome.
#[tactic(auto, unfolding(crate::specs::Summary::summary_lines))]
pub fn put_summary(text: &mut Vec<u8>, summary: &Summary<'_>) -> Result<(), NoMemory>
    ensures { Appends result text.old.items text.new.items
        (summary_lines summary.now.number summary.now.leaves summary.now.race.now summary.now.answer
        summary.now.received summary.now.outcome) }
{
    append_parts(
        text,
        &[
            Number(b"gen ", summary.number as u64),
            Number(b"\nleaves ", summary.leaves),
            Words(b"\n"),
        ],
    )?;
    put_counts(text, summary.race)?;
    put_answer_if(text, summary.answer)?;
    append_parts(
        text,
        &[Number(b"received ", summary.received), Words(b"\n")],
    )?;
    put_end(text, summary.answer, summary.outcome)
}

#[tactic(auto, unfolding(crate::specs::Summary::count_lines))]
fn put_counts(text: &mut Vec<u8>, items: &[Item]) -> Result<(), NoMemory>
    ensures { Appends result text.old.items text.new.items (count_lines items.now) }
{
    append_parts(
        text,
        &[
            Number(b"attempts ", attempts(items)),
            Number(b"\nrefused ", refusals(items)),
            Number(b"\nbroke ", breaks(items)),
            Number(b"\nwaits ", waits(items)),
            Words(b"\n"),
        ],
    )
}

fn attempts(items: &[Item]) -> u64
    ensures { result ≡ count_by summaries.is_attempt items.now }
{
    items.iter().filter(|item| is_attempt(item)).count() as u64
}

fn refusals(items: &[Item]) -> u64
    ensures { result ≡ count_by summaries.is_refusal items.now }
{
    items.iter().filter(|item| is_refusal(item)).count() as u64
}

fn breaks(items: &[Item]) -> u64
    ensures { result ≡ count_by summaries.is_break items.now }
{
    items.iter().filter(|item| is_break(item)).count() as u64
}

fn waits(items: &[Item]) -> u64
    ensures { result ≡ count_by summaries.is_wait items.now }
{
    items.iter().filter(|item| is_wait(item)).count() as u64
}

fn put_end(text: &mut Vec<u8>, answer: Option<RaceAnswer>, outcome: Outcome) -> Result<(), NoMemory>
    ensures { Appends result text.old.items text.new.items (end_lines answer (outcome_line outcome)) }
{
    match answer {
        None | Some(RaceAnswer::Ready { .. }) => put_outcome(text, outcome),
        Some(
            RaceAnswer::NoCandidate
            | RaceAnswer::AllFailed
            | RaceAnswer::Timeout
            | RaceAnswer::Closed
            | RaceAnswer::SocketFault,
        ) => Ok(()),
    }
}

fn is_attempt(item: &Item) -> bool
    ensures { result ≡ summaries.is_attempt item.now }
{
    matches!(item, Item::Started { .. } | Item::Refused { .. })
}

fn is_refusal(item: &Item) -> bool
    ensures { result ≡ summaries.is_refusal item.now }
{
    matches!(item, Item::Refused { .. })
}

fn is_break(item: &Item) -> bool
    ensures { result ≡ summaries.is_break item.now }
{
    matches!(
        item,
        Item::Waited {
            how: How::Broke(_, _),
            ..
        }
    )
}

fn is_wait(item: &Item) -> bool
    ensures { result ≡ summaries.is_wait item.now }
{
    matches!(item, Item::Waited { .. })
}
