// What the members of a session sent and heard.
ghost use Rattle.std.specs.Prelude.{◌≡◌, ◌≤◌, ◌++◌, ℕ, Some};
ghost use Rattle.taps_message.specs.Parts.{parts_of};
ghost use Rattle.taps_text.specs.Appends.{Appends};
ghost use Rattle.taps_text.specs.MemberLines.{line_of_part, part_lines, message_lines, messages_lines, member_lines, members_lines};

use crate::body::{put_part, put_received, put_sent};
use std::marker::Model;
use taps_base::{Body, NoMemory};
use taps_message::{Part, parts};

/// How many messages a member sent, and the messages that it heard, by number.
#[derive(Drop)]
pub struct MemberLog {
    pub sent: u64,
    pub heard: Vec<Body>,
}

impl Model for MemberLog {
    ghost use Rattle.taps_text.specs.MemberLines as specs;

    ghost Value = { specs.MemberLog };

    ghost view = { λ m. record { sent = m.sent; heard = m.heard.items } };
}

/// Appends the lines of the members to the text, by place.
#[tactic(auto, using(crate::proofs::Appended::continues_far))]
pub(crate) fn put_members(
    text: &mut Vec<u8>,
    part: Option<u64>,
    members: &[MemberLog],
) -> Result<(), NoMemory>
    requires { (most : ℕ) → part ≡ Some most → 1 ≤ most }
    ensures { Appends result text.old.items text.new.items (members_lines part 0 members.now) }
{
    for (place, member) in members.iter().enumerate() {
        put_member(text, part, place as u64, member)?;
    }
    Ok(())
}

// How many messages it sent, and those that it heard.
fn put_member(
    text: &mut Vec<u8>,
    part: Option<u64>,
    place: u64,
    member: &MemberLog,
) -> Result<(), NoMemory>
    requires { (most : ℕ) → part ≡ Some most → 1 ≤ most }
    ensures { Appends result text.old.items text.new.items (member_lines part place member.now) }
{
    put_sent(text, place, member.sent)?;
    put_messages(text, part, place, member.heard.as_slice())
}

// The messages that a member heard.
#[tactic(auto, using(crate::proofs::Appended::continues_far))]
fn put_messages(
    text: &mut Vec<u8>,
    part: Option<u64>,
    member: u64,
    bodies: &[Body],
) -> Result<(), NoMemory>
    requires { (most : ℕ) → part ≡ Some most → 1 ≤ most }
    ensures { Appends result text.old.items text.new.items (messages_lines part member 0 bodies.now) }
{
    for (number, body) in bodies.iter().enumerate() {
        put_heard(text, part, member, number as u64, body)?;
    }
    Ok(())
}

// A message that a member heard, whole or in parts.
fn put_heard(
    text: &mut Vec<u8>,
    part: Option<u64>,
    member: u64,
    number: u64,
    body: &Body,
) -> Result<(), NoMemory>
    requires { (most : ℕ) → part ≡ Some most → 1 ≤ most }
    ensures { Appends result text.old.items text.new.items (message_lines part member number body.now) }
{
    match part {
        None => put_received(text, member, number, body.bytes()),
        Some(most) => put_parts(text, most, member, number, body),
    }
}

// A message that a member heard, in parts of at most so many bytes.
fn put_parts(
    text: &mut Vec<u8>,
    most: u64,
    member: u64,
    number: u64,
    body: &Body,
) -> Result<(), NoMemory>
    requires { 1 ≤ most }
    ensures { Appends result text.old.items text.new.items (part_lines member number (parts_of most body.now)) }
{
    for part in parts(body, most) {
        put_one_part(text, member, number, part)?;
    }
    Ok(())
}

fn put_one_part(
    text: &mut Vec<u8>,
    member: u64,
    number: u64,
    part: Part<'_>,
) -> Result<(), NoMemory>
    ensures { Appends result text.old.items text.new.items
        (line_of_part member number part.entry.last part.entry.bytes.now) }
{
    if part.last {
        put_received(text, member, number, part.bytes)
    } else {
        put_part(text, member, number, part.bytes)
    }
}
