ghost use Rattle.taps_text.specs.Appends.{Appends};
ghost use Rattle.taps_text.specs.OutcomeLines.{outcome_line};

use crate::cause::word_of;
use crate::part::Part::{Number, Words};
use crate::part::{append, append_parts};
use taps_base::NoMemory;
use taps_socket::Cause;

/// How a session ended. Members, messages and layers are counted from 0.
#[derive(Clone, Copy, Debug, PartialEq, Eq)]
pub enum Outcome {
    /// All was sent and heard.
    Done,
    /// The deadline passed before that.
    Timed,
    /// A send or a receive failed.
    DataFailed(Cause),
    /// The other end sends no more, and not all was heard.
    PeerEnded,
    /// The bytes after so many messages start no frame, from this place of this layer on.
    BadFrame { message: u64, layer: u8, place: u64 },
    /// This layer cannot encode a member's message.
    NotSpeakable { member: u64, number: u64, layer: u8 },
    /// A member's message was not sent in its time.
    Expired { member: u64, number: u64 },
    /// No clone was made, since the group has so many members.
    CloneLimit(u64),
    /// Each leaf of a clone was refused or broke.
    CloneAllFailed,
    /// The time for a clone had passed.
    CloneTimeout,
    /// The sockets could not be waited on.
    SocketFault,
}

/// Appends the line of an outcome to the text.
#[tactic(auto, unfolding(crate::specs::OutcomeLines::outcome_line))]
pub fn put_outcome(text: &mut Vec<u8>, outcome: Outcome) -> Result<(), NoMemory>
    ensures { Appends result text.old.items text.new.items (outcome_line outcome) }
{
    match outcome {
        Outcome::Done => append(text, b"done\n"),
        Outcome::Timed => append(text, b"timed\n"),
        Outcome::DataFailed(cause) => append_parts(
            text,
            &[Words(b"data-failed "), Words(word_of(cause)), Words(b"\n")],
        ),
        Outcome::PeerEnded => append(text, b"peer-ended\n"),
        Outcome::BadFrame {
            message,
            layer,
            place,
        } => append_parts(
            text,
            &[
                Number(b"bad-frame ", message),
                Number(b" ", layer as u64),
                Number(b" ", place),
                Words(b"\n"),
            ],
        ),
        Outcome::NotSpeakable {
            member,
            number,
            layer,
        } => append_parts(
            text,
            &[
                Number(b"not-speakable ", member),
                Number(b" ", number),
                Number(b" ", layer as u64),
                Words(b"\n"),
            ],
        ),
        Outcome::Expired { member, number } => append_parts(
            text,
            &[
                Number(b"expired ", member),
                Number(b" ", number),
                Words(b"\n"),
            ],
        ),
        Outcome::CloneLimit(limit) => append_parts(
            text,
            &[Number(b"clone-error limit-reached ", limit), Words(b"\n")],
        ),
        Outcome::CloneAllFailed => append(text, b"clone-error all-failed\n"),
        Outcome::CloneTimeout => append(text, b"clone-error timeout\n"),
        Outcome::SocketFault => append(text, b"socket-fault\n"),
    }
}
