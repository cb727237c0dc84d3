// Sockets in memory as all sockets.

use crate::memory_net::MemoryNet;
use taps_base::NoMemory;
use taps_socket::{
    AcceptAnswer, Item, ListenAnswer, RecvAnswer, SendAnswer, Sockets, StartAnswer, Target,
    TimedCall, TimedKind, WaitAnswer,
};

impl Sockets for MemoryNet {
    ghost use Rattle.taps_memory.specs.Memory.{net_of, StaysMemory};
    ghost use Rattle.taps_memory.specs.Goings.{goes_none, goes_on};

    ghost net = { net_of };

    ghost Becomes = { StaysMemory };

    ghost becomes_itself = { goes_none };

    ghost becomes_on = { goes_on };

    ghost shows = { λ a b calls h. h.shows };

    fn reserve(&mut self, items: u64) -> Result<(), NoMemory> {
        self.make_spare(items)
    }

    fn now(&mut self) -> u64 {
        let at = self.time();
        self.note(Item::Began { at });
        at
    }

    fn start(&mut self, leaf: u32, target: Target) -> StartAnswer {
        let at = self.time();
        let begun = self.begin(&target);
        match begun {
            Ok((listener, socket)) => {
                self.note_start(leaf, target, listener, socket);
                StartAnswer::Started { socket, at }
            }
            Err(cause) => {
                self.note(Item::Refused {
                    leaf,
                    target,
                    cause,
                    at,
                });
                StartAnswer::Refused { cause, at }
            }
        }
    }

    fn wait(&mut self, until: u64) -> WaitAnswer {
        let answer = self.wait_answer(until);
        self.note_wait(until, answer);
        answer
    }

    fn close(&mut self, socket: u32) {
        self.note_close(socket);
    }

    fn listen(&mut self, target: Target) -> ListenAnswer {
        let at = self.time();
        let bound = self.bind(&target);
        match bound {
            Ok(socket) => {
                self.note_listening(target, socket);
                ListenAnswer::Listening { socket, at }
            }
            Err(cause) => {
                self.note(Item::NotListening { target, cause, at });
                ListenAnswer::Refused { cause, at }
            }
        }
    }

    fn accept(&mut self, listener: u32, until: u64) -> AcceptAnswer {
        let at = self.time();
        if self.is_to_fault() {
            self.note_fault();
            return AcceptAnswer::Faulted { at };
        }
        if self.is_waited_for(listener) {
            let socket = self.next_number();
            self.note_accepted(listener, socket);
            return AcceptAnswer::Accepted { socket, at };
        }
        self.note_timed_accept(listener, until)
    }

    fn make_room(&mut self, socket: u32, bytes: usize) -> Result<(), NoMemory> {
        self.vouch_end(socket);
        self.make_room_on(socket, bytes)
    }

    fn send(&mut self, socket: u32, bytes: &[u8], until: u64) -> SendAnswer {
        self.vouch_end(socket);
        let answer = self.send_answer(socket, bytes.len(), until);
        match answer {
            SendAnswer::Sent { count, at: _ } => self.write(socket, &bytes[..count]),
            SendAnswer::Timed { at } => self.note_timed(TimedCall {
                kind: TimedKind::Send,
                socket,
                until,
                at,
            }),
            SendAnswer::Failed(cause) => self.note_failed(socket, true, cause),
        }
        answer
    }

    fn shut(&mut self, socket: u32) {
        self.note_shut(socket);
    }

    fn recv(&mut self, socket: u32, out: &mut [u8], until: u64) -> RecvAnswer {
        self.vouch_end(socket);
        let at = self.time();
        if self.held(socket) > 0 {
            let count = self.read(socket, out);
            return RecvAnswer::Got { count, at };
        }
        if self.is_over(socket) {
            self.note(Item::Ended { socket });
            return RecvAnswer::End;
        }
        let at = at.max(until);
        self.note_timed(TimedCall {
            kind: TimedKind::Recv,
            socket,
            until,
            at,
        });
        RecvAnswer::Timed { at }
    }
}
