ghost use Rattle.std.specs.Prelude.{◌≡◌, ◌<◌, ◌≤◌, ◌^◌, ◌==◌, true, position, option_map, bytes_eq, Some, IfSome, IfOk};
ghost use Rattle.std.specs.List.{list_all};
ghost use Rattle.std.specs.Char.{is_ascii_digit};
ghost use Rattle.taps_script.specs.declared.line.Line.{Line};
ghost use Rattle.taps_script.specs.declared.line.Line.TheVariants.{Peer};
ghost use Rattle.taps_script.specs.declared.line.PeerLine.TheVariants.{Sends};
ghost use Rattle.taps_script.specs.ScriptTexts.{IsLineText};
ghost use Rattle.taps_script.specs.ScriptReading as reading;

use crate::{Fate, Line, PeerLine};
use hex::FromHexError;
use std::alloc::Global;
use taps_base::{Body, NoMemory};
use taps_socket::Cause;

const GREATEST_MOMENT: u64 = (1 << 63) - 1;

const GREATEST_LEAF: u64 = 4095;

const GREATEST_LIMIT: u64 = 65536;

const MOST_DIGITS: usize = 131014;

fn place_of(mark: u8, text: &[u8]) -> Option<usize>
    ensures { result ≡ position (λ b. b == mark) text.now }
{
    text.iter().position(|b| *b == mark)
}

#[tactic(auto, using(crate::proofs::SplitTexts::split_by_position, std::proofs::lemmas::List::take_rest))]
/// What stands before the first such byte, and what behind it.
pub(crate) fn split_at_byte(mark: u8, text: &[u8]) -> Option<(&[u8], &[u8])>
    ensures { option_map (λ p. (p.0.now, p.1.now)) result ≡ reading.split_at_byte mark text.now }
{
    match place_of(mark, text) {
        Some(end) => Some((&text[..end], &text[end + 1..])),
        None => None,
    }
}

#[tactic(auto, unfolding(crate::specs::ScriptReading::split_word))]
fn split_word(text: &[u8]) -> Option<(&[u8], &[u8])>
    ensures { option_map (λ p. (p.0.now, p.1.now)) result ≡ reading.split_word text.now }
{
    split_at_byte(b' ', text)
}

fn has_leading_zero(text: &[u8]) -> bool
    ensures { result ≡ reading.has_leading_zero text.now }
{
    match text {
        [] => false,
        [first, rest @ ..] => *first == b'0' && !rest.is_empty(),
    }
}

fn all_digits(text: &[u8]) -> bool
    ensures { result ≡ list_all is_ascii_digit text.now }
{
    text.iter().all(|b| b.is_ascii_digit())
}

fn is_decimal(text: &[u8]) -> bool
    ensures { result ≡ reading.is_decimal text.now }
{
    !text.is_empty() && !has_leading_zero(text) && all_digits(text)
}

// The value of digits, if it is not above the greatest.
fn value_up_to(most: u64, digits: &[u8]) -> Option<u64>
    requires high { most < 2 ^ 63 }
    requires low { 9 ≤ most }
    requires digits { list_all is_ascii_digit digits.now ≡ true }
    ensures value { result ≡ reading.up_to most (reading.value_behind 0 digits.now) }
    ensures fits { IfSome result (λ n. n ≤ most) }
{
    let mut value = 0;
    for byte in digits {
        let digit = u64::from(*byte - b'0');
        if value > (most - digit) / 10 {
            return None;
        }
        value = 10 * value + digit;
    }
    Some(value)
}

#[tactic(auto, unfolding(crate::specs::ScriptReading::number_up_to))]
fn number_up_to(most: u64, text: &[u8]) -> Option<u64>
    requires high { most < 2 ^ 63 }
    requires low { 9 ≤ most }
    ensures value { result ≡ reading.number_up_to most text.now }
    ensures fits { IfSome result (λ n. n ≤ most) }
{
    if is_decimal(text) {
        value_up_to(most, text)
    } else {
        None
    }
}

/// The number of a text in decimal without leading zeros, if it is one of 32 bits.
#[tactic(auto, unfolding(crate::specs::ScriptReading::number_of))]
pub fn number(text: &[u8]) -> Option<u32>
    ensures { result ≡ reading.number_of text.now }
{
    match number_up_to(u64::from(u32::MAX), text) {
        Some(number) => Some(number as u32),
        None => None,
    }
}

#[tactic(auto, unfolding(crate::specs::ScriptReading::leaf_number))]
fn leaf_number(text: &[u8]) -> Option<u32>
    ensures { result ≡ reading.leaf_number text.now }
{
    match number_up_to(GREATEST_LEAF, text) {
        Some(number) => Some(number as u32),
        None => None,
    }
}

fn is_word(word: &[u8], name: &str) -> bool
    ensures { result ≡ bytes_eq word.now name.now }
{
    word == name.as_bytes()
}

#[tactic(auto, unfolding(crate::specs::ScriptReading::cause_of))]
fn cause(word: &[u8]) -> Option<Cause>
    ensures { result ≡ reading.cause_of word.now }
{
    if is_word(word, "refused") {
        Some(Cause::Refused)
    } else if is_word(word, "unreachable") {
        Some(Cause::Unreachable)
    } else if is_word(word, "reset") {
        Some(Cause::Reset)
    } else if is_word(word, "memory") {
        Some(Cause::Memory)
    } else if is_word(word, "other") {
        Some(Cause::Other)
    } else {
        None
    }
}

// What a break reads behind its word: a delay, and behind a space a cause.
#[tactic(auto, unfolding(crate::specs::ScriptReading::break_of))]
fn break_in(text: &[u8]) -> Option<Fate>
    ensures { result ≡ reading.break_of text.now }
{
    let (delay, word) = split_word(text)?;
    let delay = number(delay)?;
    let cause = cause(word)?;
    Some(Fate::Breaks(delay, cause))
}

#[tactic(auto, unfolding(crate::specs::ScriptReading::fate_by))]
fn fate_by(word: &[u8], rest: &[u8]) -> Option<Fate>
    ensures { result ≡ reading.fate_by word.now rest.now }
{
    if is_word(word, "refuses") {
        Some(Fate::Refuses(cause(rest)?))
    } else if is_word(word, "completes") {
        Some(Fate::Completes(number(rest)?))
    } else if is_word(word, "breaks") {
        break_in(rest)
    } else {
        None
    }
}

#[tactic(auto, unfolding(crate::specs::ScriptReading::fate_of))]
fn fate(text: &[u8]) -> Option<Fate>
    ensures { result ≡ reading.fate_of text.now }
{
    if is_word(text, "silent") {
        return Some(Fate::Silent);
    }
    let (word, rest) = split_word(text)?;
    fate_by(word, rest)
}

// What a leaf's line reads behind its word: a leaf, and behind a space its fate.
#[tactic(auto, unfolding(crate::specs::ScriptReading::leaf_of))]
fn leaf_in(text: &[u8]) -> Option<Line>
    ensures { result ≡ reading.leaf_of text.now }
{
    let (leaf, rest) = split_word(text)?;
    let leaf = leaf_number(leaf)?;
    let fate = fate(rest)?;
    Some(Line::Leaf { leaf, fate })
}

// How many bytes are taken or given at most.
#[tactic(auto, unfolding(crate::specs::ScriptReading::limit_of))]
fn limit(text: &[u8]) -> Option<u32>
    ensures { result ≡ reading.limit_of text.now }
{
    let most = number_up_to(GREATEST_LIMIT, text)?;
    if most == 0 { None } else { Some(most as u32) }
}

// Bytes, each as two hexadecimal digits.
#[tactic(auto, unfolding(crate::specs::ScriptReading::bytes_of))]
fn bytes_in(alloc: Global, text: &[u8]) -> Result<Option<Body>, NoMemory>
    ensures { IfOk result (λ bytes. bytes ≡ reading.bytes_of text.now) }
{
    if text.is_empty() || text.len() > MOST_DIGITS {
        return Ok(None);
    }
    match hex::decode(alloc, text) {
        Ok(bytes) => Ok(Some(Body::from_vec(bytes))),
        Err(FromHexError::OutOfMemory) => Err(NoMemory),
        Err(FromHexError::OddLength) => Ok(None),
        Err(FromHexError::InvalidStringLength) => Ok(None),
        Err(FromHexError::InvalidHexCharacter { .. }) => Ok(None),
    }
}

// Bytes that the other end sends, if there are any.
fn sends_with(delay: u32, bytes: Option<Body>) -> Option<PeerLine>
    ensures { result ≡ option_map (λ bytes. Sends delay bytes) bytes }
{
    match bytes {
        Some(bytes) => Some(PeerLine::Sends { delay, bytes }),
        None => None,
    }
}

// A delay, and behind a space bytes.
#[tactic(auto, unfolding(crate::specs::ScriptReading::sends_of))]
fn sends_in(alloc: Global, text: &[u8]) -> Result<Option<PeerLine>, NoMemory>
    ensures { IfOk result (λ line. line ≡ reading.sends_of text.now) }
{
    let Some((delay, digits)) = split_word(text) else {
        return Ok(None);
    };
    match number(delay) {
        Some(delay) => {
            let bytes = bytes_in(alloc, digits)?;
            Ok(sends_with(delay, bytes))
        }
        None => Ok(None),
    }
}

// A delay, and behind a space a cause.
#[tactic(auto, unfolding(crate::specs::ScriptReading::fails_of))]
fn fails_in(text: &[u8]) -> Option<PeerLine>
    ensures { result ≡ reading.fails_of text.now }
{
    let (delay, word) = split_word(text)?;
    let delay = number(delay)?;
    let cause = cause(word)?;
    Some(PeerLine::Fails(delay, cause))
}

#[tactic(auto, unfolding(crate::specs::ScriptReading::turn_by))]
fn turn_by(word: &[u8], rest: &[u8]) -> Option<PeerLine>
    ensures { result ≡ reading.turn_by word.now rest.now }
{
    if is_word(word, "holds") {
        Some(PeerLine::Holds(number(rest)?))
    } else if is_word(word, "ends") {
        Some(PeerLine::Ends(number(rest)?))
    } else if is_word(word, "fails") {
        fails_in(rest)
    } else {
        None
    }
}

#[tactic(auto, unfolding(crate::specs::ScriptReading::peer_by))]
fn peer_by(alloc: Global, word: &[u8], rest: &[u8]) -> Result<Option<PeerLine>, NoMemory>
    ensures { IfOk result (λ line. line ≡ reading.peer_by word.now rest.now) }
{
    if is_word(word, "sends") {
        sends_in(alloc, rest)
    } else {
        Ok(turn_by(word, rest))
    }
}

// What follows the word `peer`.
#[tactic(auto, unfolding(crate::specs::ScriptReading::peer_of))]
fn peer_in(alloc: Global, text: &[u8]) -> Result<Option<PeerLine>, NoMemory>
    ensures { IfOk result (λ line. line ≡ reading.peer_of text.now) }
{
    if is_word(text, "echo") {
        return Ok(Some(PeerLine::Echo));
    }
    match split_word(text) {
        Some((word, rest)) => peer_by(alloc, word, rest),
        None => Ok(None),
    }
}

// The lines but those of the other end.
#[tactic(auto, unfolding(crate::specs::ScriptReading::own_line_by))]
fn own_line_by(word: &[u8], rest: &[u8]) -> Option<Line>
    ensures { result ≡ reading.own_line_by word.now rest.now }
{
    if is_word(word, "begin") {
        Some(Line::Begin(number_up_to(GREATEST_MOMENT, rest)?))
    } else if is_word(word, "late") {
        Some(Line::Late(number(rest)?))
    } else if is_word(word, "fault") {
        Some(Line::Fault(number(rest)?))
    } else if is_word(word, "leaf") {
        leaf_in(rest)
    } else if is_word(word, "take") {
        Some(Line::Take(limit(rest)?))
    } else if is_word(word, "give") {
        Some(Line::Give(limit(rest)?))
    } else {
        None
    }
}

fn peer_line(line: Option<PeerLine>) -> Option<Line>
    ensures { result ≡ option_map Peer line }
{
    match line {
        Some(line) => Some(Line::Peer(line)),
        None => None,
    }
}

#[tactic(auto, unfolding(crate::specs::ScriptReading::line_by))]
fn line_by(alloc: Global, word: &[u8], rest: &[u8]) -> Result<Option<Line>, NoMemory>
    ensures { IfOk result (λ line. line ≡ reading.line_by word.now rest.now) }
{
    if is_word(word, "peer") {
        let line = peer_in(alloc, rest)?;
        Ok(peer_line(line))
    } else {
        Ok(own_line_by(word, rest))
    }
}

/// The line of a text, if it is that of one.
pub(crate) fn read_line(alloc: Global, text: &[u8]) -> Result<Option<Line>, NoMemory>
    ensures value { IfOk result (λ line. line ≡ reading.line_of text.now) }
    ensures found { IfOk result (λ line. IfSome line (λ line. IsLineText line text.now)) }
    ensures only { IfOk result (λ answer. (line : Line) → IsLineText line text.now → answer ≡ Some line) }
{
    line_in(alloc, text)
}

#[tactic(auto, unfolding(crate::specs::ScriptReading::line_of))]
fn line_in(alloc: Global, text: &[u8]) -> Result<Option<Line>, NoMemory>
    ensures { IfOk result (λ line. line ≡ reading.line_of text.now) }
{
    match split_word(text) {
        Some((word, rest)) => line_by(alloc, word, rest),
        None => Ok(None),
    }
}
