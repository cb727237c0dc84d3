// Datagrams, of which each is a message.
ghost use Rattle.std.specs.Prelude.{◌≡◌, ◌≤◌, ◌<◌, ◌^◌, ◌+◌, ◌-◌, ℕ, [], true, false, Some, None, length, IfOk};
ghost use Rattle.taps_chain.specs.Layers.{layers_of};
ghost use Rattle.taps_socket.specs.Sides.{carries_stream, may_receive};

use std::alloc::Global;
use taps_base::NoMemory;
use taps_chain::{BadAt, Chain, Heard, WholeAnswer};
use taps_framer::Framer;
use taps_socket::{RecvAnswer, Sockets};

// The most bytes of a datagram, for which a receive has to have room.
const MOST: usize = 65_535;

// The buffer that takes in a datagram, and how many of its bytes are the one that is held, if one
// is; and how many were given out.
#[derive(Drop)]
pub struct Datagrams {
    buffer: Vec<u8>,
    held: Option<usize>,
    given: u64,
    ghost most: { length buffer.items ≡ 65535 },
    ghost within: { (n : ℕ) → held ≡ Some n → n ≤ 65535 },
}

impl Datagrams {
    ghost use Rattle.taps_connection.specs.Unread.{datagrams_unread, datagrams, IsWanting};
    ghost use Rattle.taps_connection.specs.Pulls.{IsTakenIn};
    ghost use Rattle.taps_connection.specs.Receives.{IsGivenOut};

    pub(crate) fn new(alloc: Global) -> Result<Datagrams, NoMemory>
        ensures unread { IfOk result (λ d. datagrams_unread d ≡ datagrams None 0) }
    {
        let buffer = vec![in alloc; 0; MOST]?;
        Ok(Datagrams {
            buffer,
            held: None,
            given: 0,
        })
    }

    // The number of datagrams that were given out, as messages or as bad.
    pub(crate) fn given(&self) -> u64
        ensures { result ≡ self.now.given }
    {
        self.given
    }

    // Asks the socket once for a datagram, which takes no memory.
    pub(crate) fn ask<N: Sockets>(&mut self, net: &mut N, socket: u32, until: u64) -> RecvAnswer
        requires wanting { IsWanting (datagrams_unread self.old) }
        requires may { may_receive (N.net net.old).trace socket ≡ true }
        requires datagram { carries_stream (N.net net.old).trace socket ≡ false }
        requires spare { 1 ≤ (N.net net.old).spare }
        requires until { until < 2 ^ 63 }
        ensures taken_in { IsTakenIn N.Becomes net.old net.new (N.net net.old) (N.net net.new) socket until
            (datagrams_unread self.old) (Ok result) (datagrams_unread self.new) }
    {
        let answer = net.recv(socket, &mut self.buffer, until);
        if let RecvAnswer::Got { count, .. } = answer {
            self.held = Some(count);
        }
        answer
    }

    // The message of the held datagram, or where it is bad.
    pub(crate) fn receive(&mut self, chain: &Chain<'_>) -> Heard
        requires given { self.old.given < 2 ^ 64 - 1 }
        ensures given_out { IsGivenOut (layers_of ⟦<dyn Framer as Framer>⟧ chain.now) false
            (datagrams_unread self.old) result (datagrams_unread self.new) }
        ensures wanting { result ≡ Heard.Need → IsWanting (datagrams_unread self.new) }
    {
        let Some(count) = self.held else {
            return Heard::Need;
        };
        match chain.whole(0, &self.buffer[..count]) {
            WholeAnswer::Message(body) => {
                self.pass();
                Heard::Message(body)
            }
            WholeAnswer::Bad { layer, place } => {
                let message = self.given;
                self.pass();
                Heard::Bad(BadAt {
                    message,
                    layer,
                    place,
                })
            }
            WholeAnswer::NoMemory => Heard::NoMemory,
        }
    }

    // The held datagram is given out.
    fn pass(&mut self)
        requires { self.old.given < 2 ^ 64 - 1 }
        ensures unread { datagrams_unread self.new ≡ datagrams None (self.old.given + 1) }
    {
        self.held = None;
        self.given += 1;
    }
}
