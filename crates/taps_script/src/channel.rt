ghost use Rattle.std.specs.Prelude.{◌≡◌, ◌<◌, ◌≤◌, ◌+◌, ◌-◌, ◌^◌, [], max, length, drop, true, false, Some, None, OnOk, OnErr, vec_len, vec_capacity};
ghost use Rattle.std.specs.List.{concat};
ghost use Rattle.taps_socket.specs.Net.{with_piece};
ghost use Rattle.taps_script.specs.Channels.{fresh, cut, total, most_read};
ghost use Rattle.taps_script.specs.DataAnswers.{first_piece};

use crate::room::append;
use std::alloc::Global;
use std::marker::Model;
use taps_base::NoMemory;

/// What is kept of the bytes of one socket.
///
/// Contracts see the pieces that were written: over a stream one of all bytes, over datagrams each.
#[derive(Drop)]
pub(crate) struct Channel {
    stream: bool,
    done: u64,
    room: usize,
    last_sent: Option<u64>,
    bytes: Vec<u8>,
    lengths: Vec<u16>,
    read: usize,
}

impl Model for Channel {
    ghost use Rattle.std.specs.Prelude.{◌≡◌, ◌+◌, ◌≤◌, vec_len, vec_capacity};
    ghost use Rattle.taps_script.specs.Channels as channels;
    ghost use Rattle.taps_script.specs.Channels.{pieces_of, IsRoomy};

    ghost Value = { channels.Channel };

    ghost view = { λ c. record {
      stream = c.stream;
      done = c.done;
      room = c.room;
      last_sent = c.last_sent;
      written = pieces_of c.stream c.bytes.items c.lengths.items;
      read = c.read;
    } };

    ghost invariant = { λ c. IsRoomy c.stream c.room (vec_len c.bytes)
        (vec_capacity c.bytes) c.lengths.items (vec_len c.lengths) (vec_capacity c.lengths) };
}

impl Channel {
    /// That of a socket that was just started.
    pub(crate) fn new(alloc: Global, stream: bool, done: u64) -> Channel
        ensures { result ≡ fresh stream done }
    {
        Channel {
            stream,
            done,
            room: 0,
            last_sent: None,
            bytes: Vec::new(alloc),
            lengths: Vec::new(alloc),
            read: 0,
        }
    }

    pub(crate) fn is_stream(&self) -> bool
        ensures { result ≡ self.now.stream }
    {
        self.stream
    }

    /// When the socket completed.
    pub(crate) fn done(&self) -> u64
        ensures { result ≡ self.now.done }
    {
        self.done
    }

    /// How many bytes of the stream, or how many datagrams, were read.
    pub(crate) fn read(&self) -> usize
        ensures read { result ≡ self.now.read }
        ensures few { most_read self.now.stream self.now.written < 2 ^ 64 }
    {
        self.read
    }

    /// Makes room for bytes to be sent. Without memory nothing is changed.
    pub(crate) fn make_room(&mut self, bytes: usize) -> Result<(), NoMemory>
        ensures ok { OnOk result (self.new ≡ record self.old { room = max self.old.room bytes }) }
        ensures err { OnErr result (self.new ≡ self.old) }
    {
        let room = self.room.max(bytes);
        self.bytes.reserve(room)?;
        if !self.stream {
            self.lengths.reserve(room)?;
        }
        self.room = room;
        Ok(())
    }

    /// Keeps bytes that were sent at a time.
    pub(crate) fn note_sent(&mut self, bytes: &[u8], at: u64)
        requires room { length bytes.now ≤ self.old.room }
        requires some { 1 ≤ length bytes.now }
        requires datagram { self.old.stream ≡ false → length bytes.now ≤ 65507 }
        ensures { self.new ≡ record self.old {
          room = self.old.room - length bytes.now;
          last_sent = Some at;
          written = with_piece self.old.stream bytes.now self.old.written;
        } }
    {
        if self.stream {
            self.append_stream(bytes);
        } else {
            self.append_datagram(bytes);
        }
        self.last_sent = Some(at);
    }

    fn append_stream(&mut self, bytes: &[u8])
        requires room { length bytes.now ≤ self.old.room }
        requires some { 1 ≤ length bytes.now }
        requires stream { self.old.stream ≡ true }
        ensures { self.new ≡ record self.old {
          room = self.old.room - length bytes.now;
          written = with_piece true bytes.now self.old.written;
        } }
    {
        self.room -= bytes.len();
        append(&mut self.bytes, bytes);
    }

    fn append_datagram(&mut self, bytes: &[u8])
        requires room { length bytes.now ≤ self.old.room }
        requires some { 1 ≤ length bytes.now }
        requires datagram { length bytes.now ≤ 65507 }
        requires stream { self.old.stream ≡ false }
        ensures { self.new ≡ record self.old {
          room = self.old.room - length bytes.now;
          written = with_piece false bytes.now self.old.written;
        } }
    {
        self.room -= bytes.len();
        append(&mut self.bytes, bytes);
        append(&mut self.lengths, &[bytes.len() as u16]);
    }

    /// Notes that so many bytes of the stream, or so many datagrams, were read.
    pub(crate) fn note_read(&mut self, count: usize)
        requires { self.old.read + count < 2 ^ 64 }
        ensures { self.new ≡ record self.old { read = self.old.read + count } }
    {
        self.read += count;
    }

    /// The bytes of the stream that were written.
    pub(crate) fn stream_bytes(&self) -> &[u8]
        requires { self.now.stream ≡ true }
        ensures { result.now ≡ concat self.now.written }
    {
        &self.bytes
    }

    /// The datagram at a place, or no bytes.
    pub(crate) fn datagram(&self, place: usize) -> &[u8]
        requires { self.now.stream ≡ false }
        ensures bytes { result.now ≡ first_piece (drop place self.now.written) }
        ensures few { length result.now ≤ 65535 }
    {
        piece_at(&self.bytes, &self.lengths, place)
    }
}

// The piece at a place of bytes that are cut into pieces of these lengths, or no bytes.
fn piece_at<'a>(bytes: &'a [u8], lengths: &[u16], place: usize) -> &'a [u8]
    requires { total lengths.now ≡ length bytes.now }
    ensures bytes { result.now ≡ first_piece (drop place (cut lengths.now bytes.now)) }
    ensures few { length result.now ≤ 65535 }
{
    let mut rest = bytes;
    let mut left = place;
    for length in lengths {
        let (piece, after) = rest.split_at(*length as usize);
        if left == 0 {
            return piece;
        }
        left -= 1;
        rest = after;
    }
    &[]
}
