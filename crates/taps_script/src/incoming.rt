// The bytes that a receive finds, and their way to where it wants them.
ghost use Rattle.std.specs.Prelude.{◌≡◌, ◌<◌, ◌≤◌, ◌+◌, ◌-◌, ◌^◌, ◌++◌, length, take, drop, true, false, option_map};
ghost use Rattle.std.specs.List.{concat};
ghost use Rattle.taps_script.specs.ScriptTexts.{LinesFit};
ghost use Rattle.taps_script.specs.PeerTimes.{sent_by, arrived};
ghost use Rattle.taps_script.specs.DataAnswers.{first_piece, incoming, found};
ghost use Rattle.taps_script.specs.Channels.{link_of, IsWithin};

use crate::channel::Channel;
use crate::peer::{give_of, is_echoing};
use crate::{Line, PeerLine};

// Copies bytes to a place.
fn copy_all(out: &mut [u8], at: usize, bytes: &[u8])
    requires { at + length bytes.now ≤ length out.old }
    ensures { out.new ≡ take at out.old ++ (bytes.now ++ drop (at + length bytes.now) out.old) }
{
    out[at..at + bytes.len()].copy_from_slice(bytes);
}

fn first_of(bytes: &[u8], most: usize) -> &[u8]
    ensures { result.now ≡ take most bytes.now }
{
    &bytes[..most.min(bytes.len())]
}

fn rest_of(bytes: &[u8], skip: usize) -> &[u8]
    ensures { result.now ≡ drop skip bytes.now }
{
    &bytes[skip.min(bytes.len())..]
}

// Copies the first bytes of some, at most so many.
fn copy_first(out: &mut [u8], bytes: &[u8], most: usize) -> usize
    requires { most ≤ length out.old }
    ensures bytes { take result out.new ≡ take most bytes.now }
    ensures count { result ≡ length (take most bytes.now) }
    ensures length { length out.new ≡ length out.old }
{
    let piece = first_of(bytes, most);
    copy_all(out, 0, piece);
    piece.len()
}

// Copies what a line sends but for the bytes that are to be skipped, behind those that were copied.
// Gives how many are to be skipped then, and how many were copied.
fn copy_more(
    out: &mut [u8],
    skip: usize,
    filled: usize,
    most: usize,
    bytes: &[u8],
) -> (usize, usize)
    requires fits { most ≤ length out.old }
    requires within { filled ≤ most }
    ensures skip { result.0 ≡ skip - length bytes.now }
    ensures filled { result.1 ≡ filled + length (take (most - filled) (drop skip bytes.now)) }
    ensures bytes { take result.1 out.new ≡ take filled out.old ++ take (most - filled) (drop skip bytes.now) }
    ensures length { length out.new ≡ length out.old }
{
    let piece = first_of(rest_of(bytes, skip), most - filled);
    copy_all(out, filled, piece);
    (skip.saturating_sub(bytes.len()), filled + piece.len())
}

// What the other end sends by a line, and how long after the completion.
fn sent(line: &Line) -> Option<(u32, &[u8])>
    ensures { option_map (λ p. (p.0, p.1.now)) result ≡ sent_by line.now }
{
    match line {
        Line::Peer(PeerLine::Sends { delay, bytes }) => Some((*delay, bytes.bytes())),
        _ => None,
    }
}

// Copies bytes of the stream of a socket that completed at `done`, as far as it came by now, but
// for the first ones, and at most so many.
fn copy_arrived(
    lines: &[Line],
    done: u64,
    now: u64,
    skip: usize,
    most: usize,
    out: &mut [u8],
) -> usize
    requires done { done < 2 ^ 63 }
    requires fits { most ≤ length out.old }
    ensures bytes { take result out.new ≡ take most (drop skip (concat (arrived done now lines.now))) }
    ensures count { result ≡ length (take most (drop skip (concat (arrived done now lines.now)))) }
    ensures length { length out.new ≡ length out.old }
{
    let mut filled = 0;
    let mut left = skip;
    for line in lines {
        let Some((delay, bytes)) = sent(line) else {
            continue;
        };
        if done + u64::from(delay) > now {
            return filled;
        }
        (left, filled) = copy_more(out, left, filled, most, bytes);
    }
    filled
}

// The datagram at a place of those that the other end of a socket that completed at `done` has
// sent by now, or no bytes.
fn datagram_at(lines: &[Line], done: u64, now: u64, place: usize) -> &[u8]
    requires done { done < 2 ^ 63 }
    requires fit { LinesFit lines.now }
    ensures bytes { result.now ≡ first_piece (drop place (arrived done now lines.now)) }
    ensures few { length result.now ≤ 65535 }
{
    let mut left = place;
    for line in lines {
        let Some((delay, bytes)) = sent(line) else {
            continue;
        };
        if done + u64::from(delay) > now {
            return &[];
        }
        if left == 0 {
            return bytes;
        }
        left -= 1;
    }
    &[]
}

// What a receive over a stream finds.
fn find_bytes(lines: &[Line], channel: &Channel, now: u64, out: &mut [u8]) -> usize
    requires done { channel.now.done < 2 ^ 63 }
    requires stream { channel.now.stream ≡ true }
    requires within { IsWithin lines.now channel.now }
    ensures bytes { take result out.new ≡ found lines.now (link_of lines.now channel.now) now (length out.old) }
    ensures count { result ≡ length (found lines.now (link_of lines.now channel.now) now (length out.old)) }
    ensures length { length out.new ≡ length out.old }
{
    let most = give_of(lines, out.len());
    if is_echoing(lines) {
        copy_first(out, rest_of(channel.stream_bytes(), channel.read()), most)
    } else {
        copy_arrived(lines, channel.done(), now, channel.read(), most, out)
    }
}

// The datagram that a receive finds, or no bytes.
fn next_datagram<'a>(lines: &'a [Line], channel: &'a Channel, now: u64) -> &'a [u8]
    requires done { channel.now.done < 2 ^ 63 }
    requires stream { channel.now.stream ≡ false }
    requires fit { LinesFit lines.now }
    requires within { IsWithin lines.now channel.now }
    ensures bytes { result.now ≡ first_piece
        (drop (length (link_of lines.now channel.now).read) (incoming lines.now (link_of lines.now channel.now) now)) }
    ensures few { length result.now ≤ 65535 }
{
    if is_echoing(lines) {
        channel.datagram(channel.read())
    } else {
        datagram_at(lines, channel.done(), now, channel.read())
    }
}

// What a receive over datagrams finds.
fn find_datagram(lines: &[Line], channel: &Channel, now: u64, out: &mut [u8]) -> usize
    requires done { channel.now.done < 2 ^ 63 }
    requires stream { channel.now.stream ≡ false }
    requires fit { LinesFit lines.now }
    requires within { IsWithin lines.now channel.now }
    requires room { 65535 ≤ length out.old }
    ensures bytes { take result out.new ≡ found lines.now (link_of lines.now channel.now) now (length out.old) }
    ensures count { result ≡ length (found lines.now (link_of lines.now channel.now) now (length out.old)) }
    ensures length { length out.new ≡ length out.old }
{
    let piece = next_datagram(lines, channel, now);
    copy_all(out, 0, piece);
    piece.len()
}

/// Copies what a receive finds at a time, and gives the number of its bytes.
pub(crate) fn find(lines: &[Line], channel: &Channel, now: u64, out: &mut [u8]) -> usize
    requires done { channel.now.done < 2 ^ 63 }
    requires fit { LinesFit lines.now }
    requires within { IsWithin lines.now channel.now }
    requires room { channel.now.stream ≡ false → 65535 ≤ length out.old }
    ensures bytes { take result out.new ≡ found lines.now (link_of lines.now channel.now) now (length out.old) }
    ensures count { result ≡ length (found lines.now (link_of lines.now channel.now) now (length out.old)) }
    ensures length { length out.new ≡ length out.old }
{
    if channel.is_stream() {
        find_bytes(lines, channel, now, out)
    } else {
        find_datagram(lines, channel, now, out)
    }
}
