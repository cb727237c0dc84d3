ghost use Rattle.std.specs.Prelude.{◌≡◌, ◌<◌, ◌≤◌, ◌^◌, ◌∷◌, [], length, reverse, true, false, IfOk, OnOk, OnErr};
ghost use Rattle.taps_stack.specs.StackTable.{is_stream};
ghost use Rattle.taps_socket.specs.declared.item.Item.TheVariants.{Began, Waited, Closed, Shut};
ghost use Rattle.taps_socket.specs.RaceSockets.{has};
ghost use Rattle.taps_socket.specs.LiveSockets.{given, live_sockets};
ghost use Rattle.taps_socket.specs.Sides.{carries_stream, may_accept, may_send, may_receive, may_shut};
ghost use Rattle.taps_socket.specs.Calls.{begins, starts, waits, closes, listens, accepts, sends, shuts, receives, started_item, started_at, listened_item, listened_at, accepted_at, came_in};
ghost use Rattle.taps_socket.specs.Net.{with_item, with_spare, with_faults, with_room, after_accept, after_send, after_receive, IsNextMoment, IsGiven, GivesNewSocket, GivesListener, MayEnd, IsAcceptAnswer, IsSendAnswer, IsReceiveAnswer};
ghost use Rattle.taps_real.specs.OpenSockets.{is_open};
ghost use Rattle.taps_real.specs.Tables.{net_of, none_given};

use crate::cause::{cause_of, cause_of_start};
use crate::clock::{millis_since, reading};
use crate::held::{self, Held};
use crate::rounds::Stop;
use crate::socket_table::SocketTable;
use std::alloc::Global;
use std::marker::Model;
use std::rt;
use std::time::Duration;
use taps_base::NoMemory;
use taps_socket::{
    AcceptAnswer, Cause, Item, ListenAnswer, RecvAnswer, SendAnswer, Sockets, StartAnswer, Target,
    TimedCall, TimedKind, WaitAnswer,
};

/// Sockets of the system, tried in rounds that never wait in the kernel, and a clock that counts
/// milliseconds since they were made. No bytes are observable.
#[derive(Drop)]
pub struct RealSockets<R> {
    system: R,
    began: Duration,
    pub(crate) table: SocketTable,
}

impl<R> Model for RealSockets<R> {
    ghost use Rattle.taps_real.specs.Tables.{Table};

    ghost Value = { Table };

    ghost view = { λ s. s.table };

    ghost invariant = { λ s. Unit {0} };
}

impl<R: rt::Clock + Drop> RealSockets<R> {
    /// No sockets yet. The clock begins.
    pub fn new(alloc: Global, system: R) -> Result<RealSockets<R>, NoMemory>
        ensures { IfOk result (λ net. net ≡ none_given) }
    {
        let began = reading(&system);
        Ok(RealSockets {
            system,
            began,
            table: SocketTable::new(alloc),
        })
    }

    /// The items so far, oldest first.
    pub fn items(&self) -> &[Item]
        ensures { reverse result.now ≡ self.now.trace }
    {
        self.table.items()
    }

    /// How often a call was faulted.
    pub fn faults(&self) -> u64
        ensures { result ≡ self.now.faults }
    {
        self.table.faults()
    }

    // The time of the clock, or the last reported one where that is later.
    pub(crate) fn time(&self) -> u64
        ensures { IsNextMoment (net_of self.now) result }
    {
        let millis = millis_since(&self.system, self.began);
        self.table.told().max(millis)
    }
}

impl<R: rt::Files + rt::Net + rt::Clock + Drop> RealSockets<R> {
    // Begins to connect: the socket and its number.
    fn begin(&self, target: &Target) -> Result<(u32, Held), Cause>
        ensures number { IfOk result (λ r. r.0 ≡ length (given self.now.trace)) }
        ensures given { IfOk result (λ r. IsGiven r.0 (net_of self.now)) }
        ensures opened { IfOk result (λ r. is_open r.1 ≡ true) }
    {
        let Some(socket) = self.table.next_number() else {
            return Err(Cause::Memory);
        };
        match held::begin(&self.system, target) {
            Ok(held) => Ok((socket, held)),
            Err(error) => Err(cause_of_start(&error)),
        }
    }

    // Binds and listens: the socket and its number.
    fn bind(&self, target: &Target) -> Result<(u32, Held), Cause>
        ensures number { IfOk result (λ r. r.0 ≡ length (given self.now.trace)) }
        ensures given { IfOk result (λ r. IsGiven r.0 (net_of self.now)) }
        ensures opened { IfOk result (λ r. is_open r.1 ≡ true) }
    {
        let Some(socket) = self.table.next_number() else {
            return Err(Cause::Memory);
        };
        match held::listen(&self.system, target) {
            Ok(held) => Ok((socket, held)),
            Err(error) => Err(cause_of(&error)),
        }
    }
}

impl<R: rt::Files + rt::Net + rt::Clock + Drop> Sockets for RealSockets<R> {
    ghost use Rattle.taps_socket.specs.Shows.{Shows};
    ghost use Rattle.taps_socket.specs.Shown.{shows_none, shows_on};
    ghost use Rattle.taps_real.specs.Tables.{net_of};

    ghost net = { net_of };

    ghost Becomes = { λ a calls b. Shows (net_of a) calls (net_of b) };

    ghost becomes_itself = { λ s. shows_none (net_of s) };

    ghost becomes_on = { λ a b c first then. shows_on (net_of a) (net_of b) (net_of c) first then };

    ghost shows = { λ a b calls h. h };

    fn reserve(&mut self, items: u64) -> Result<(), NoMemory> {
        self.table.reserve(items)
    }

    fn now(&mut self) -> u64 {
        let at = self.time();
        self.table.note(Item::Began { at }, at);
        at
    }

    fn start(&mut self, leaf: u32, target: Target) -> StartAnswer {
        let begun = self.begin(&target);
        let at = self.time();
        match begun {
            Ok((socket, held)) => {
                self.table.note_start(leaf, target, socket, at, held);
                StartAnswer::Started { socket, at }
            }
            Err(cause) => {
                self.table.note(
                    Item::Refused {
                        leaf,
                        target,
                        cause,
                        at,
                    },
                    at,
                );
                StartAnswer::Refused { cause, at }
            }
        }
    }

    fn wait(&mut self, until: u64) -> WaitAnswer {
        let answer = self.wait_in_rounds(until);
        self.table.note_wait(until, answer);
        answer
    }

    #[tactic(auto, using(crate::proofs::Named::live_named))]
    fn close(&mut self, socket: u32) {
        held::remove_file(&self.system, self.table.held(socket));
        self.table.note_close(socket);
    }

    fn listen(&mut self, target: Target) -> ListenAnswer {
        let bound = self.bind(&target);
        let at = self.time();
        match bound {
            Ok((socket, held)) => {
                self.table.note_listening(target, socket, at, held);
                ListenAnswer::Listening { socket, at }
            }
            Err(cause) => {
                self.table
                    .note(Item::NotListening { target, cause, at }, at);
                ListenAnswer::Refused { cause, at }
            }
        }
    }

    #[tactic(auto, using(crate::proofs::Named::listener_named))]
    fn accept(&mut self, listener: u32, until: u64) -> AcceptAnswer {
        let Some(socket) = self.table.next_number() else {
            let at = self.time();
            self.table.note_fault(at);
            return AcceptAnswer::Faulted { at };
        };
        match self.accept_in_rounds(listener, until) {
            Ok((held, at)) => {
                self.table.note_accepted(listener, socket, at, held);
                AcceptAnswer::Accepted { socket, at }
            }
            Err(Stop::Timed(at)) => {
                let kind = TimedKind::Accept;
                self.table.note_timed(TimedCall {
                    kind,
                    socket: listener,
                    until,
                    at,
                });
                AcceptAnswer::Timed { at }
            }
            Err(Stop::Faulted(at)) => {
                self.table.note_fault(at);
                AcceptAnswer::Faulted { at }
            }
        }
    }

    #[tactic(auto, using(crate::proofs::Named::sender_named))]
    fn make_room(&mut self, socket: u32, bytes: usize) -> Result<(), NoMemory> {
        self.table.make_room(socket, bytes);
        Ok(())
    }

    #[tactic(auto, using(crate::proofs::Named::sender_named))]
    fn send(&mut self, socket: u32, bytes: &[u8], until: u64) -> SendAnswer {
        let answer = self.send_in_rounds(socket, bytes, until);
        match answer {
            SendAnswer::Sent { count, at } => self.table.note_sent(socket, count, at),
            SendAnswer::Timed { at } => self.table.note_timed(TimedCall {
                kind: TimedKind::Send,
                socket,
                until,
                at,
            }),
            SendAnswer::Failed(cause) => self.table.note_failed(socket, true, cause),
        }
        answer
    }

    #[tactic(auto, using(crate::proofs::Named::shutter_named))]
    fn shut(&mut self, socket: u32) {
        self.table.held(socket).shut();
        self.table.note_still(Item::Shut { socket });
    }

    #[tactic(auto, using(crate::proofs::Named::receiver_named))]
    fn recv(&mut self, socket: u32, out: &mut [u8], until: u64) -> RecvAnswer {
        let answer = self.receive_in_rounds(socket, out, until);
        match answer {
            RecvAnswer::Got { count: _, at } => self.table.note_got(at),
            RecvAnswer::End => self.table.note_still(Item::Ended { socket }),
            RecvAnswer::Timed { at } => self.table.note_timed(TimedCall {
                kind: TimedKind::Recv,
                socket,
                until,
                at,
            }),
            RecvAnswer::Failed(cause) => self.table.note_failed(socket, false, cause),
        }
        answer
    }
}
