// A line is written by the call that writes it into a log, and read again.
ghost use Rattle.std.specs.Prelude.{◌≡◌, Some, IfOk, option_map};
ghost use Rattle.taps_log.specs.Entries.{Entry, IsWritten, entry_of, say_part, say_received, say_sent};
ghost use Rattle.taps_text.specs.BodyLines.{hex_text};
ghost use Rattle.taps_log_laws.specs.EntriesOf.{entry_of_answer, entry_of_item, entry_of_outcome};
ghost use Rattle.taps_log_laws.specs.Laws.{entry_line};

use crate::bounds::{bound_answer, bound_item, bound_outcome};
use taps_base::NoMemory;
use taps_log::{Line, read_line};
use taps_socket::{Item, RaceAnswer};
use taps_text::{Outcome, put_answer, put_item, put_outcome, put_part, put_received, put_sent};

/// Writes the line of an item into the text, in the place of what it held, and reads it: it says the item's entry.
pub fn read_item<'a>(text: &'a mut Vec<u8>, item: &Item) -> Result<Option<Line<'a>>, NoMemory>
    ensures { IfOk result (λ line. option_map entry_of line ≡ Some (entry_of_item item.now)) }
{
    bound_item(item);
    text.clear();
    put_item(text, item)?;
    Ok(read_whole(text))
}

/// The same of the line of an answer.
pub fn read_answer<'a>(
    text: &'a mut Vec<u8>,
    answer: RaceAnswer,
) -> Result<Option<Line<'a>>, NoMemory>
    ensures { IfOk result (λ line. option_map entry_of line ≡ Some (entry_of_answer answer)) }
{
    bound_answer(answer);
    text.clear();
    put_answer(text, answer)?;
    Ok(read_whole(text))
}

/// The same of the line of an outcome.
pub fn read_outcome<'a>(
    text: &'a mut Vec<u8>,
    outcome: Outcome,
) -> Result<Option<Line<'a>>, NoMemory>
    ensures { IfOk result (λ line. option_map entry_of line ≡ Some (entry_of_outcome outcome)) }
{
    bound_outcome(outcome);
    text.clear();
    put_outcome(text, outcome)?;
    Ok(read_whole(text))
}

/// The same of the line of how many messages a member sent.
pub fn read_sent<'a>(
    text: &'a mut Vec<u8>,
    member: u64,
    count: u64,
) -> Result<Option<Line<'a>>, NoMemory>
    ensures { IfOk result (λ line. option_map entry_of line ≡ Some (say_sent member count)) }
{
    text.clear();
    put_sent(text, member, count)?;
    Ok(read_whole(text))
}

/// The same of the line of a message that a member heard, or of its last part.
pub fn read_received<'a>(
    text: &'a mut Vec<u8>,
    member: u64,
    number: u64,
    body: &[u8],
) -> Result<Option<Line<'a>>, NoMemory>
    ensures { IfOk result (λ line.
        option_map entry_of line ≡ Some (say_received member number (hex_text body.now))) }
{
    text.clear();
    put_received(text, member, number, body)?;
    Ok(read_whole(text))
}

/// The same of the line of another part of it.
pub fn read_part<'a>(
    text: &'a mut Vec<u8>,
    member: u64,
    number: u64,
    body: &[u8],
) -> Result<Option<Line<'a>>, NoMemory>
    ensures { IfOk result (λ line. option_map entry_of line ≡ Some (say_part member number (hex_text body.now))) }
{
    text.clear();
    put_part(text, member, number, body)?;
    Ok(read_whole(text))
}

// What a line says that has its end, and nothing behind it.
fn read_whole(text: &[u8]) -> Option<Line<'_>>
    ensures { (entry : Entry) → IsWritten entry → text.now ≡ entry_line entry
        → option_map entry_of result ≡ Some entry }
{
    read_line(text.strip_suffix(b"\n")?)
}
