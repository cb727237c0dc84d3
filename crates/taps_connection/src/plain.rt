// A stream with the empty chain, which is one message.
ghost use Rattle.std.specs.Prelude.{◌≡◌, ◌≤◌, ◌<◌, ◌^◌, [], true, false, length, IfOk, IsOk, OnOk, OnErr};
ghost use Rattle.taps_connection.specs.Asks.{IsAsked, IsRoomLeft};
ghost use Rattle.taps_socket.specs.Sides.{carries_stream, may_receive};

use crate::backlog::Backlog;
use std::alloc::Global;
use taps_base::{Body, NoMemory};
use taps_chain::{BadAt, Heard};
use taps_socket::{RecvAnswer, Sockets};

// The most bytes of a stream that is one message.
const MOST: usize = 4_194_304;

// The bytes that came, until they are given out, and the buffer that takes in what comes: so many
// bytes are asked for at once as it has.
#[derive(Drop)]
pub struct Plain {
    bytes: Backlog,
    piece: Vec<u8>,
    given: bool,
    ghost some: { 1 ≤ length piece.items },
    ghost few: { length piece.items ≤ 65536 },
}

impl Plain {
    ghost use Rattle.taps_connection.specs.Unread.{plain_unread, plain, count_given, IsWanting};
    ghost use Rattle.taps_connection.specs.Pulls.{IsTakenIn};
    ghost use Rattle.taps_connection.specs.Receives.{IsGivenOut};

    pub(crate) fn new(alloc: Global, piece: usize) -> Result<Plain, NoMemory>
        requires some { 1 ≤ piece }
        requires few { piece ≤ 65536 }
        ensures unread { IfOk result (λ p. plain_unread p ≡ plain piece [] false) }
    {
        let buffer = vec![in alloc; 0; piece]?;
        Ok(Plain {
            bytes: Backlog::new(alloc),
            piece: buffer,
            given: false,
        })
    }

    // How many messages were given out: one, or none.
    pub(crate) fn given(&self) -> u64
        ensures { result ≡ count_given (plain_unread self.now) }
    {
        if self.given { 1 } else { 0 }
    }

    // How many bytes are asked for at once.
    pub(crate) fn piece(&self) -> usize
        ensures piece { result ≡ length self.now.piece.items }
        ensures few { result ≤ 65536 }
    {
        self.piece.len()
    }

    // Makes room for bytes.
    pub(crate) fn make_room(&mut self, bytes: usize) -> Result<(), NoMemory>
        ensures ok { OnOk result (bytes ≤ self.new.bytes.room) }
        ensures kept { self.old.bytes.room ≤ self.new.bytes.room }
        ensures had { bytes ≤ self.old.bytes.room → IsOk result }
        ensures err { OnErr result (self.new.bytes.room ≡ self.old.bytes.room) }
        ensures unread { plain_unread self.new ≡ plain_unread self.old }
    {
        self.bytes.make_room(bytes)
    }

    // Asks the socket once for bytes.
    pub(crate) fn ask<N: Sockets>(
        &mut self,
        net: &mut N,
        socket: u32,
        until: u64,
    ) -> Result<RecvAnswer, NoMemory>
        requires wanting { IsWanting (plain_unread self.old) }
        requires may { may_receive (N.net net.old).trace socket ≡ true }
        requires stream { carries_stream (N.net net.old).trace socket ≡ true }
        requires spare { 1 ≤ (N.net net.old).spare }
        requires until { until < 2 ^ 63 }
        ensures taken_in { IsTakenIn N.Becomes net.old net.new (N.net net.old) (N.net net.new) socket until
            (plain_unread self.old) result (plain_unread self.new) }
        ensures memory { OnErr result (self.old.bytes.room < length self.old.piece.items) }
        ensures room { IsRoomLeft self.old.bytes.room result self.new.bytes.room }
    {
        ask_for(net, socket, &mut self.bytes, &mut self.piece, until)
    }

    // The whole stream, after its end, once.
    pub(crate) fn receive(&mut self, ended: bool) -> Heard
        ensures given_out { IsGivenOut [] ended (plain_unread self.old) result (plain_unread self.new) }
        ensures wanting { result ≡ Heard.Need → IsWanting (plain_unread self.new) }
    {
        if self.bytes.len() > MOST {
            return Heard::Bad(BadAt {
                message: 0,
                layer: 0,
                place: MOST as u64,
            });
        }
        if !ended || self.given {
            return Heard::Need;
        }
        self.given = true;
        Heard::Message(Body::from_vec(self.bytes.take_all()))
    }
}

// Asks once for as many bytes as the piece has, for which it makes room before where there is less,
// and appends those that come.
fn ask_for<N: Sockets>(
    net: &mut N,
    socket: u32,
    bytes: &mut Backlog,
    piece: &mut [u8],
    until: u64,
) -> Result<RecvAnswer, NoMemory>
    requires may { may_receive (N.net net.old).trace socket ≡ true }
    requires stream { carries_stream (N.net net.old).trace socket ≡ true }
    requires some { 1 ≤ length piece.old }
    requires spare { 1 ≤ (N.net net.old).spare }
    requires until { until < 2 ^ 63 }
    ensures asked { IsAsked N.Becomes net.old net.new (N.net net.old) (N.net net.new) socket (length piece.old) until
        bytes.old.unread result bytes.new.unread }
    ensures memory { OnErr result (bytes.old.room < length piece.old) }
    ensures room { IsRoomLeft bytes.old.room result bytes.new.room }
    ensures piece { length piece.new ≡ length piece.old }
{
    bytes.make_room(piece.len())?;
    let answer = net.recv(socket, piece, until);
    if let RecvAnswer::Got { count, .. } = answer {
        bytes.append(&piece[..count]);
    }
    Ok(answer)
}
