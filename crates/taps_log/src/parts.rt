// Reads the parts of a line: words, numbers and causes.
ghost use Rattle.std.specs.Prelude.{◌≡◌, ◌≤◌, ◌++◌, true, length, bytes_eq, codes, IfSome, option_map};
ghost use Rattle.std.specs.List.{list_all};
ghost use Rattle.std.specs.Char.{is_ascii_digit};
ghost use Rattle.std.specs.Fmt.{decimal};
ghost use Rattle.memchr.specs.Find.{is_byte, places, first_of, last_of};
ghost use Rattle.taps_log.specs.LogLines.{cause_word, moment_text};
ghost use Rattle.taps_log.specs.Reading as reading;

use crate::line::Cause;
use memchr::{memchr, memrchr};

/// The number behind these words, with which the line ends.
#[tactic(auto, unfolding(crate::specs::Reading::number_after))]
pub fn number_after(words: &[u8], text: &[u8]) -> Option<u64>
    ensures found { IfSome result (λ n. text.now ≡ words.now ++ decimal n) }
    ensures reads { result ≡ reading.number_after words.now text.now }
{
    last_number(after(words, text)?)
}

/// The two numbers behind these words, with a space between them.
#[tactic(auto, unfolding(crate::specs::Reading::two_numbers_after))]
pub fn two_numbers_after(words: &[u8], text: &[u8]) -> Option<(u64, u64)>
    ensures found { IfSome result (λ p. text.now ≡ words.now ++ (decimal p.0 ++ (codes " " ++ decimal p.1))) }
    ensures reads { option_map (λ p. (p.0, p.1)) result ≡ reading.two_numbers_after words.now text.now }
{
    two_numbers(after(words, text)?)
}

/// The three numbers behind these words.
#[tactic(auto, unfolding(crate::specs::Reading::three_numbers_after))]
pub fn three_numbers_after(words: &[u8], text: &[u8]) -> Option<(u64, u64, u64)>
    ensures found { IfSome result (λ p. text.now ≡
        words.now ++ (decimal p.0 ++ (codes " " ++ (decimal p.1 ++ (codes " " ++ decimal p.2))))) }
    ensures reads { option_map (λ p. (p.0, p.1, p.2)) result ≡ reading.three_numbers_after words.now text.now }
{
    three_numbers(after(words, text)?)
}

#[tactic(auto, unfolding(crate::specs::Reading::three_numbers))]
fn three_numbers(text: &[u8]) -> Option<(u64, u64, u64)>
    ensures found { IfSome result (λ p. text.now ≡
        decimal p.0 ++ (codes " " ++ (decimal p.1 ++ (codes " " ++ decimal p.2)))) }
    ensures reads { option_map (λ p. (p.0, p.1, p.2)) result ≡ reading.three_numbers text.now }
{
    let (first, rest) = number_then(text, b" ")?;
    let (second, third) = two_numbers(rest)?;
    Some((first, second, third))
}

#[tactic(auto, unfolding(crate::specs::Reading::two_numbers))]
fn two_numbers(text: &[u8]) -> Option<(u64, u64)>
    ensures found { IfSome result (λ p. text.now ≡ decimal p.0 ++ (codes " " ++ decimal p.1)) }
    ensures reads { option_map (λ p. (p.0, p.1)) result ≡ reading.two_numbers text.now }
{
    let (first, rest) = number_then(text, b" ")?;
    Some((first, last_number(rest)?))
}

/// The moment with which the line ends.
#[tactic(auto, unfolding(crate::specs::Reading::moment))]
pub fn moment(text: &[u8]) -> Option<u64>
    ensures found { IfSome result (λ at. text.now ≡ moment_text at) }
    ensures reads { result ≡ reading.moment text.now }
{
    number_after(b" at ", text)
}

/// The cause behind these words, with which the line ends.
#[tactic(auto, unfolding(crate::specs::Reading::cause_after))]
pub fn cause_after(words: &[u8], text: &[u8]) -> Option<Cause>
    ensures found { IfSome result (λ cause. text.now ≡ words.now ++ cause_word cause) }
    ensures reads { result ≡ reading.cause_after words.now text.now }
{
    last_cause(after(words, text)?)
}

/// The cause that is the whole text.
#[tactic(auto, unfolding(crate::specs::Reading::last_cause))]
pub fn last_cause(text: &[u8]) -> Option<Cause>
    ensures found { IfSome result (λ cause. text.now ≡ cause_word cause) }
    ensures reads { result ≡ reading.last_cause text.now }
{
    if is(text, b"refused") {
        Some(Cause::Refused)
    } else if is(text, b"unreachable") {
        Some(Cause::Unreachable)
    } else if is(text, b"reset") {
        Some(Cause::Reset)
    } else if is(text, b"memory") {
        Some(Cause::Memory)
    } else if is(text, b"other") {
        Some(Cause::Other)
    } else {
        None
    }
}

/// A cause before these words, and what stands behind them.
#[tactic(auto, unfolding(crate::specs::Reading::cause_then))]
pub fn cause_then<'a>(text: &'a [u8], words: &[u8]) -> Option<(Cause, &'a [u8])>
    ensures found { IfSome result (λ p. text.now ≡ cause_word p.0 ++ (words.now ++ p.1.now)) }
    ensures reads { option_map (λ p. (p.0, p.1.now)) result ≡ reading.cause_then text.now words.now }
{
    let (word, rest) = up_to_space(text)?;
    let rest = after(words, rest)?;
    Some((last_cause(word)?, rest))
}

fn first_space(text: &[u8]) -> Option<usize>
    ensures value { result ≡ first_of (places (is_byte 32) text.now) }
    ensures within { IfSome result (λ i. i ≤ length text.now) }
{
    memchr(b' ', text)
}

fn last_space(text: &[u8]) -> Option<usize>
    ensures value { result ≡ last_of (places (is_byte 32) text.now) }
    ensures within { IfSome result (λ i. i ≤ length text.now) }
{
    memrchr(b' ', text)
}

/// What stands before the first space, and the rest with the space.
#[tactic(auto, unfolding(crate::specs::Reading::up_to_space))]
pub fn up_to_space(text: &[u8]) -> Option<(&[u8], &[u8])>
    ensures found { IfSome result (λ p. text.now ≡ p.0.now ++ p.1.now) }
    ensures reads { option_map (λ p. (p.0.now, p.1.now)) result ≡ reading.up_to_space text.now }
{
    let end = first_space(text)?;
    Some((&text[..end], &text[end..]))
}

/// What stands before the last space, and the rest with the space.
#[tactic(auto, unfolding(crate::specs::Reading::up_to_last_space))]
pub fn up_to_last_space(text: &[u8]) -> Option<(&[u8], &[u8])>
    ensures found { IfSome result (λ p. text.now ≡ p.0.now ++ p.1.now) }
    ensures reads { option_map (λ p. (p.0.now, p.1.now)) result ≡ reading.up_to_last_space text.now }
{
    let end = last_space(text)?;
    Some((&text[..end], &text[end..]))
}

/// What stands behind these words, with which the text begins.
pub fn after<'a>(words: &[u8], text: &'a [u8]) -> Option<&'a [u8]>
    ensures found { IfSome result (λ rest. text.now ≡ words.now ++ rest.now) }
    ensures reads { option_map (λ rest. rest.now) result ≡ reading.after words.now text.now }
{
    text.strip_prefix(words)
}

/// What stands before these words, with which the text ends.
pub fn before<'a>(words: &[u8], text: &'a [u8]) -> Option<&'a [u8]>
    ensures found { IfSome result (λ front. text.now ≡ front.now ++ words.now) }
    ensures reads { option_map (λ front. front.now) result ≡ reading.before words.now text.now }
{
    text.strip_suffix(words)
}

fn has_leading_zero(text: &[u8]) -> bool
    ensures { result ≡ reading.has_leading_zero text.now }
{
    match text {
        [] => false,
        [first, rest @ ..] => *first == b'0' && !rest.is_empty(),
    }
}

fn all_digits(text: &[u8]) -> bool
    ensures { result ≡ list_all is_ascii_digit text.now }
{
    text.iter().all(|b| b.is_ascii_digit())
}

fn is_decimal(text: &[u8]) -> bool
    ensures { result ≡ reading.is_decimal text.now }
{
    !text.is_empty() && !has_leading_zero(text) && all_digits(text)
}

// The value of digits, if it is of 64 bits.
fn value_of(digits: &[u8]) -> Option<u64>
    requires { list_all is_ascii_digit digits.now ≡ true }
    ensures { result ≡ reading.up_to_greatest (reading.value_behind 0 digits.now) }
{
    let mut value = 0;
    for byte in digits {
        let digit = u64::from(*byte - b'0');
        if value > (u64::MAX - digit) / 10 {
            return None;
        }
        value = 10 * value + digit;
    }
    Some(value)
}

#[tactic(auto, unfolding(crate::specs::Reading::last_number))]
fn whole_number(text: &[u8]) -> Option<u64>
    ensures { result ≡ reading.last_number text.now }
{
    if is_decimal(text) {
        value_of(text)
    } else {
        None
    }
}

/// A number to the end of the line.
pub fn last_number(text: &[u8]) -> Option<u64>
    ensures found { IfSome result (λ n. text.now ≡ decimal n) }
    ensures reads { result ≡ reading.last_number text.now }
{
    whole_number(text)
}

/// A number up to the first space, and the rest from there.
#[tactic(auto, unfolding(crate::specs::Reading::number))]
pub fn number(text: &[u8]) -> Option<(u64, &[u8])>
    ensures found { IfSome result (λ p. text.now ≡ decimal p.0 ++ p.1.now) }
    ensures reads { option_map (λ p. (p.0, p.1.now)) result ≡ reading.number text.now }
{
    let (digits, rest) = up_to_space(text)?;
    Some((last_number(digits)?, rest))
}

/// A number before these words, and what stands behind them.
#[tactic(auto, unfolding(crate::specs::Reading::number_then))]
pub fn number_then<'a>(text: &'a [u8], words: &[u8]) -> Option<(u64, &'a [u8])>
    ensures found { IfSome result (λ p. text.now ≡ decimal p.0 ++ (words.now ++ p.1.now)) }
    ensures reads { option_map (λ p. (p.0, p.1.now)) result ≡ reading.number_then text.now words.now }
{
    let (number, rest) = number(text)?;
    Some((number, after(words, rest)?))
}

/// The text is these words.
pub fn is(text: &[u8], words: &[u8]) -> bool
    ensures { result ≡ bytes_eq text.now words.now }
{
    text == words
}

/// The text begins with a digit.
pub fn begins_with_digit(text: &[u8]) -> bool
    ensures { result ≡ reading.begins_with_digit text.now }
{
    match text {
        [] => false,
        [first, ..] => first.is_ascii_digit(),
    }
}
