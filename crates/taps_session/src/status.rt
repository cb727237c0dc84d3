ghost use Rattle.std.specs.Prelude.{◌≡◌, Some};
ghost use Rattle.taps_command.specs.Meanings.{HasText};
ghost use Rattle.taps_session.specs.SessionLogs as logs;

use taps_command::Status;
use taps_socket::RaceAnswer;
use taps_text::Outcome;

/// The status with which a session ends that has this answer, if one is told, and this outcome.
pub fn status_after(answer: Option<RaceAnswer>, outcome: Outcome) -> Status
    ensures status { result ≡ logs.status_after answer outcome }
    ensures has_text { HasText result }
{
    match answer {
        None => status_of_outcome(outcome),
        Some(answer) => status_by_answer(answer, outcome),
    }
}

fn status_by_answer(answer: RaceAnswer, outcome: Outcome) -> Status
    ensures status { result ≡ logs.status_after (Some answer) outcome }
    ensures has_text { HasText result }
{
    match answer {
        RaceAnswer::Ready { .. } => status_of_outcome(outcome),
        RaceAnswer::NoCandidate | RaceAnswer::AllFailed | RaceAnswer::Timeout => {
            Status::Establishment
        }
        RaceAnswer::Closed => Status::Closed,
        RaceAnswer::SocketFault => Status::SocketFault,
    }
}

fn status_of_outcome(outcome: Outcome) -> Status
    ensures status { result ≡ logs.status_of_outcome outcome }
    ensures has_text { HasText result }
{
    match outcome {
        Outcome::Done => Status::Done,
        Outcome::SocketFault => Status::SocketFault,
        Outcome::Expired { .. }
        | Outcome::Timed
        | Outcome::DataFailed(_)
        | Outcome::PeerEnded
        | Outcome::BadFrame { .. }
        | Outcome::NotSpeakable { .. }
        | Outcome::CloneLimit(_)
        | Outcome::CloneAllFailed
        | Outcome::CloneTimeout => Status::Exchange,
    }
}
