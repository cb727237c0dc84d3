// Bytes in hexadecimal.
ghost use Rattle.std.specs.Prelude.{◌≡◌, ◌+◌, ◌*◌, ◌/◌, ◌%◌, ◌<◌, length};
ghost use Rattle.std.specs.List.{flat_map};
ghost use Rattle.taps_text.specs.Appends.{Appends};
ghost use Rattle.taps_text.specs.BodyLines.{hex_digit, letters, byte_digits, hex_text};

use crate::part::append;
use taps_base::NoMemory;

/// Appends bytes as two digits each, and no bytes as `-`.
pub(crate) fn append_hex(text: &mut Vec<u8>, bytes: &[u8]) -> Result<(), NoMemory>
    ensures { Appends result text.old.items text.new.items (hex_text bytes.now) }
{
    if bytes.is_empty() {
        append(text, b"-")
    } else {
        append_digits(text, bytes)
    }
}

// The room is made at once, and then written.
fn append_digits(text: &mut Vec<u8>, bytes: &[u8]) -> Result<(), NoMemory>
    ensures { Appends result text.old.items text.new.items (flat_map byte_digits bytes.now) }
{
    let size = 2 * bytes.len();
    text.reserve(size)?;
    let start = text.len();
    text.resize(start + size, 0)?;
    write_digits(bytes, &mut text[start..]);
    Ok(())
}

// The two digits of a byte are found as one number, so that the processor finds those of eight bytes
// at once.
fn write_digits(bytes: &[u8], place: &mut [u8])
    requires { length place.old ≡ 2 * length bytes.now }
    ensures { place.new ≡ flat_map byte_digits bytes.now }
{
    for i in 0..bytes.len() {
        let digits = digits_of(bytes[i]);
        place[2 * i] = (digits % 256) as u8;
        place[2 * i + 1] = (digits / 256) as u8;
    }
}

// The digits of a byte, of which the second counts 256 times.
fn digits_of(byte: u8) -> u16
    ensures { result ≡ hex_digit (byte / 16) + 256 * hex_digit (byte % 16) }
{
    let halves = halves_of(byte);
    halves + 0x3030 + 39 * letters_in(halves)
}

// The halves of a byte, of which the second counts 256 times.
fn halves_of(byte: u8) -> u16
    ensures { result ≡ byte / 16 + 256 * (byte % 16) }
{
    u16::from(byte).wrapping_mul(0x1001) / 16
}

// How many of the halves are letters as digits, of which the second counts 256 times.
fn letters_in(halves: u16) -> u16
    requires { (halves % 256 < 16) × (halves / 256 < 16) }
    ensures { result ≡ letters (halves % 256) + 256 * letters (halves / 256) }
{
    let sixteens = (halves + 0x0606) / 16;
    sixteens % 2 + sixteens / 256 * 256
}
