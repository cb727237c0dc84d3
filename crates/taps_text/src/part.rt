// Lines as the parts that they are appended in.
ghost use Rattle.std.specs.Prelude.{◌≡◌, ◌++◌, map};
ghost use Rattle.std.specs.Fmt.{decimal};
ghost use Rattle.taps_endpoint.specs.CanonicalTexts.{canonical_text};
ghost use Rattle.taps_text.specs.Appends.{Appends};
ghost use Rattle.taps_text.specs.Parts.{part_text, parts_text};
ghost use Rattle.taps_text.specs.Printed.{printed};

use crate::hex::append_hex;
use itoa::Buffer;
use taps_base::NoMemory;
use taps_endpoint::{Address, write_address};

/// A part of a line.
#[derive(Clone, Copy)]
pub(crate) enum Part<'a> {
    /// Bytes as they are.
    Words(&'a [u8]),
    /// Bytes as they are, and a number in decimal.
    Number(&'a [u8], u64),
    /// Bytes as two hexadecimal digits each, and no bytes as `-`.
    Hex(&'a [u8]),
    /// Bytes of a name or a key: a visible character as it is, any other byte as `?`.
    Shown(&'a [u8]),
    /// The canonical text of an address.
    Place(&'a Address),
}

/// Appends the parts to the text, in their order.
pub(crate) fn append_parts(text: &mut Vec<u8>, parts: &[Part<'_>]) -> Result<(), NoMemory>
    ensures { Appends result text.old.items text.new.items (parts_text parts.now) }
{
    for part in parts {
        append_part(text, part)?;
    }
    Ok(())
}

fn append_part(text: &mut Vec<u8>, part: &Part<'_>) -> Result<(), NoMemory>
    ensures { Appends result text.old.items text.new.items (part_text part.now) }
{
    match part {
        Part::Words(words) => append(text, words),
        Part::Number(words, number) => append_number(text, words, *number),
        Part::Hex(bytes) => append_hex(text, bytes),
        Part::Shown(bytes) => append_shown(text, bytes),
        Part::Place(address) => append_address(text, address),
    }
}

/// Appends the bytes to the text.
pub(crate) fn append(text: &mut Vec<u8>, bytes: &[u8]) -> Result<(), NoMemory>
    ensures { Appends result text.old.items text.new.items bytes.now }
{
    match bytes {
        [byte] => Ok(text.push(*byte)?),
        _ => Ok(text.extend_from_slice(bytes)?),
    }
}

fn append_number(text: &mut Vec<u8>, words: &[u8], number: u64) -> Result<(), NoMemory>
    ensures { Appends result text.old.items text.new.items (words.now ++ decimal number) }
{
    append(text, words)?;
    let mut buffer = Buffer::new();
    append(text, buffer.format(number).as_bytes())
}

fn append_shown(text: &mut Vec<u8>, bytes: &[u8]) -> Result<(), NoMemory>
    ensures { Appends result text.old.items text.new.items (map printed bytes.now) }
{
    for byte in bytes {
        text.push(printed_byte(*byte))?;
    }
    Ok(())
}

fn printed_byte(byte: u8) -> u8
    ensures { result ≡ printed byte }
{
    if 33 <= byte && byte <= 126 {
        byte
    } else {
        b'?'
    }
}

fn append_address(text: &mut Vec<u8>, address: &Address) -> Result<(), NoMemory>
    ensures { Appends result text.old.items text.new.items (canonical_text address.now) }
{
    let alloc = *text.allocator();
    let body = write_address(alloc, address)?;
    append(text, body.bytes())
}
