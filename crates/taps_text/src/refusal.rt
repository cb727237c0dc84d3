ghost use Rattle.taps_text.specs.Appends.{Appends};
ghost use Rattle.taps_text.specs.Refusals.{file_text, refusal_text};

use crate::part::Part::{Number, Shown, Words};
use crate::part::{append, append_parts};
use taps_base::NoMemory;
use taps_preconnection::PreError;

/// The first check that a file fails.
#[derive(Debug, Drop)]
pub enum Refusal {
    /// It has more bytes than are read.
    TooLong,
    /// It gives no Preconnection, for a reason other than out of memory.
    File(PreError),
    /// The framer at this place of its list is not there.
    UnknownFramer(u64),
    /// So many addresses are derived, more than 32.
    TooManyRemotes(u64),
    /// This line of the script is bad, counted from 1.
    Script(u64),
}

/// Appends the words of a refusal to the line.
#[tactic(auto, unfolding(crate::specs::Refusals::refusal_text))]
pub(crate) fn append_refusal(line: &mut Vec<u8>, why: &Refusal) -> Result<(), NoMemory>
    ensures { Appends result line.old.items line.new.items (refusal_text why.now) }
{
    match why {
        Refusal::TooLong => append(line, b"too long"),
        Refusal::File(refused) => append_file(line, refused),
        Refusal::UnknownFramer(place) => append_parts(
            line,
            &[Number(b"unknown framer framers[", *place), Words(b"]")],
        ),
        Refusal::TooManyRemotes(count) => {
            append_parts(line, &[Number(b"too many remote ", *count)])
        }
        Refusal::Script(number) => append_parts(line, &[Number(b"script line ", *number)]),
    }
}

#[tactic(auto, unfolding(crate::specs::Refusals::file_text))]
fn append_file(line: &mut Vec<u8>, refused: &PreError) -> Result<(), NoMemory>
    ensures { Appends result line.old.items line.new.items (file_text refused.now) }
{
    match refused {
        PreError::NotToml => append(line, b"not toml"),
        PreError::UnknownKey(key) => {
            append_parts(line, &[Words(b"unknown key "), Shown(key.bytes())])
        }
        PreError::WrongKind(key) => {
            append_parts(line, &[Words(b"wrong kind "), Shown(key.bytes())])
        }
        PreError::OutOfRange(key) => {
            append_parts(line, &[Words(b"out of range "), Shown(key.bytes())])
        }
        PreError::BadAddress(key, place) => append_parts(
            line,
            &[
                Words(b"bad address "),
                Shown(key.bytes()),
                Number(b" ", *place),
            ],
        ),
        PreError::BadHex(key) => append_parts(line, &[Words(b"bad hex "), Shown(key.bytes())]),
        PreError::TooMany(key, count) => append_parts(
            line,
            &[
                Words(b"too many "),
                Shown(key.bytes()),
                Number(b" ", *count),
            ],
        ),
        PreError::NoRemote => append(line, b"no remote"),
        PreError::NoMemory => Ok(()),
    }
}
