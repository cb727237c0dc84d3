ghost use Rattle.taps_text.specs.AnswerLines.{answer_line};
ghost use Rattle.taps_text.specs.Appends.{Appends};

use crate::part::Part::{Number, Words};
use crate::part::{append, append_parts};
use taps_base::NoMemory;
use taps_socket::RaceAnswer;

/// Appends the line of a race's answer to the text.
#[tactic(auto, unfolding(crate::specs::AnswerLines::answer_line))]
pub fn put_answer(text: &mut Vec<u8>, answer: RaceAnswer) -> Result<(), NoMemory>
    ensures { Appends result text.old.items text.new.items (answer_line answer) }
{
    match answer {
        RaceAnswer::Ready {
            leaf,
            socket: _,
            at: _,
        } => append_parts(text, &[Number(b"ready ", leaf as u64), Words(b"\n")]),
        RaceAnswer::NoCandidate => append(text, b"establishment-error no-candidate\n"),
        RaceAnswer::AllFailed => append(text, b"establishment-error all-failed\n"),
        RaceAnswer::Timeout => append(text, b"establishment-error timeout\n"),
        RaceAnswer::Closed => append(text, b"closed\n"),
        RaceAnswer::SocketFault => append(text, b"socket-fault\n"),
    }
}
