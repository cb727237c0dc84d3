// The lines of messages and frames.
ghost use Rattle.taps_text.specs.Appends.{Appends};
ghost use Rattle.taps_text.specs.BodyLines.{sent_line, received_line, part_line, message_line, rest_line, frame_line};

use crate::part::Part::{Hex, Number, Words};
use crate::part::append_parts;
use taps_base::NoMemory;

/// Appends to the text how many messages a member sent.
#[tactic(auto, unfolding(crate::specs::BodyLines::sent_line))]
pub fn put_sent(text: &mut Vec<u8>, member: u64, count: u64) -> Result<(), NoMemory>
    ensures { Appends result text.old.items text.new.items (sent_line member count) }
{
    append_parts(
        text,
        &[Number(b"sent ", member), Number(b" ", count), Words(b"\n")],
    )
}

/// Appends to the text a message that a member heard, or its last part.
#[tactic(auto, unfolding(crate::specs::BodyLines::received_line))]
pub fn put_received(
    text: &mut Vec<u8>,
    member: u64,
    number: u64,
    body: &[u8],
) -> Result<(), NoMemory>
    ensures { Appends result text.old.items text.new.items (received_line member number body.now) }
{
    append_parts(
        text,
        &[
            Number(b"received ", member),
            Number(b" ", number),
            Words(b" "),
            Hex(body),
            Words(b"\n"),
        ],
    )
}

/// Appends to the text a part, but the last, of a message that a member heard.
#[tactic(auto, unfolding(crate::specs::BodyLines::part_line))]
pub fn put_part(text: &mut Vec<u8>, member: u64, number: u64, body: &[u8]) -> Result<(), NoMemory>
    ensures { Appends result text.old.items text.new.items (part_line member number body.now) }
{
    append_parts(
        text,
        &[
            Number(b"part ", member),
            Number(b" ", number),
            Words(b" "),
            Hex(body),
            Words(b"\n"),
        ],
    )
}

/// Appends to the text a message that was found in a file's bytes.
#[tactic(auto, unfolding(crate::specs::BodyLines::message_line))]
pub fn put_message(text: &mut Vec<u8>, number: u64, body: &[u8]) -> Result<(), NoMemory>
    ensures { Appends result text.old.items text.new.items (message_line number body.now) }
{
    append_parts(
        text,
        &[
            Number(b"message ", number),
            Words(b" "),
            Hex(body),
            Words(b"\n"),
        ],
    )
}

/// Appends to the text how many bytes follow the messages.
#[tactic(auto, unfolding(crate::specs::BodyLines::rest_line))]
pub fn put_rest(text: &mut Vec<u8>, count: u64) -> Result<(), NoMemory>
    ensures { Appends result text.old.items text.new.items (rest_line count) }
{
    append_parts(text, &[Number(b"rest ", count), Words(b"\n")])
}

/// Appends to the text the bytes of a message in its frames.
#[tactic(auto, unfolding(crate::specs::BodyLines::frame_line))]
pub fn put_frame(text: &mut Vec<u8>, bytes: &[u8]) -> Result<(), NoMemory>
    ensures { Appends result text.old.items text.new.items (frame_line bytes.now) }
{
    append_parts(text, &[Hex(bytes), Words(b"\n")])
}
