// Heads of a length in decimal and one byte.
ghost use Rattle.std.specs.Prelude.{◌≡◌, ℕ, ◌+◌, ◌≤◌, ◌++◌, ◌∷◌, [], List, false, length, decimal, vec_len, vec_capacity, IsOk, OnOk, OnErr};
ghost use Rattle.std.specs.Char.{is_ascii_digit};
ghost use Rattle.taps_frames.specs.Heads.{IsHead, IsGrown};
ghost use Rattle.taps_frames.specs.Scans.{IsHeadPart};
ghost use Rattle.taps_frames.specs.Decimals.{decimal_format, written_number};

use crate::head::{Grown, Head};
use crate::room::put;
use itoa::Buffer;
use taps_base::NoMemory;

/// A body has at most so many bytes.
pub(crate) const MOST: usize = 65_535;

/// What `count` digits of a length from `least` on, which write this number, are with one byte more.
pub(crate) fn digit_step(least: u64, separator: u8, count: u64, value: u64, byte: u8) -> Grown
    requires least { least ≤ 1 }
    requires separator { is_ascii_digit separator ≡ false }
    requires value { value ≤ 65535 }
    ensures { (name tail x : List ℕ) (i : ℕ)
        → IsHeadPart (decimal_format name least separator tail) written_number i count value x →
        IsGrown (decimal_format name least separator tail) written_number i (x ++ byte ∷ []) result }
{
    if byte == separator && count > 0 {
        return Grown::Whole {
            size: value as usize,
        };
    }
    if !byte.is_ascii_digit() {
        return Grown::Bad;
    }
    if value == 0 && count > 0 {
        return Grown::Bad;
    }
    let next = value * 10 + (byte - b'0') as u64;
    if next < least || next > MOST as u64 {
        return Grown::Bad;
    }
    Grown::Need { value: next }
}

/// The digits of a length from `least` on, and the byte behind them.
pub(crate) fn head_in(buffer: &[u8], least: u64, separator: u8) -> Head
    requires least { least ≤ 1 }
    requires separator { is_ascii_digit separator ≡ false }
    ensures { (name tail : List ℕ) (i : ℕ) → IsHead (decimal_format name least separator tail) i buffer.now result }
{
    let mut value = 0;
    for place in 0..buffer.len() {
        match digit_step(least, separator, place as u64, value, buffer[place]) {
            Grown::Need { value: next } => value = next,
            Grown::Bad => return Head::Bad { place },
            Grown::Whole { size } => {
                return Head::Whole {
                    width: place + 1,
                    size,
                };
            }
        }
    }
    Head::Need
}

/// Appends the digits of a body's length, a byte, the body and a tail.
pub(crate) fn write_counted(
    separator: u8,
    body: &[u8],
    tail: &[u8],
    out: &mut Vec<u8>,
) -> Result<(), NoMemory>
    requires { length body.now + length tail.now ≤ 4194304 }
    ensures written { OnOk result
        (out.new.items ≡ out.old.items ++ ((decimal (length body.now) ++ separator ∷ []) ++ (body.now ++ tail.now))) }
    ensures unchanged { OnErr result (out.new.items ≡ out.old.items) }
    ensures room { vec_len out.old + (length (decimal (length body.now)) + 1 + length body.now + length tail.now)
        ≤ vec_capacity out.old → IsOk result }
{
    let mut buffer = Buffer::new();
    let digits = buffer.format(body.len()).as_bytes();
    out.reserve(digits.len() + 1 + body.len() + tail.len())?;
    put(digits, out);
    put(&[separator], out);
    put(body, out);
    put(tail, out);
    Ok(())
}
